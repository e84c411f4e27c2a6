//! The check of an image.

ghost use Rattle.std.specs.Prelude.{◌≡◌, ℕ, [], true, None, nat_eq, map, length, IfOk, IfErr};
ghost use Rattle.std.specs.List.{list_any};
ghost use Rattle.std.specs.Option.{option_copied};
ghost use Rattle.cps_code.specs.Script.{IsScript, script_of};
ghost use Rattle.script_names.specs.Given.{given_of};
ghost use Rattle.model_run.specs.Fitting.{Rises};
ghost use Rattle.image_check.specs.Images.{FallsFor, StandsFor, Tells, first_fault, front_fault, threads_fault};
ghost use Rattle.image_check.specs.Threads.{has_main, is_held, thread_fault, thread_tests};
ghost use Rattle.image_check.specs.Scans.{each};

use crate::cells::{CellsAround, cells_fault};
use crate::held::{all_differ, held_faults, held_requests};
use crate::inside::frames_fault;
use crate::lookup::numbers_rise;
use crate::requests::requests_fault;
use crate::scan::{in_thread, need, outside};
use crate::shared::{head_fault, nodes_fault};
use crate::threads::{
    Lists, all_own, begins, has_context, has_nodes, has_outcomes, has_place, has_request, thread_of,
};
use crate::{CheckKind, Finding, ImageRefusal};
use cps_code::Code;
use image_form::{Image, ImageThread};
use image_frames::Table;
use model_run::Site;
use script_names::given_names;
use std::alloc::{AllocError, Global};

/// Whether an image is that of a sound build of this script on this site between two events.
///
/// It takes time linear in the image, its script, the names that a place sees, and the logarithm of the lengths of its lists.
///
/// # Errors
///
/// `Fault` comes exactly where the image is none of a sound build, with the first fault in the order of its parts. `Memory`
/// comes only where the memory was refused.
pub fn check(alloc: Global, image: &Image, code: &Code, site: &Site) -> Result<(), ImageRefusal>
    ensures stands { IfOk result (λ _. StandsFor (script_of code.now) site.now image.now) }
    ensures fault { IfErr result (Tells (first_fault (script_of code.now) site.now image.now)) }
    ensures falls { IfErr result (FallsFor (script_of code.now) site.now image.now) }
{
    match first_fault(alloc, image, code, site)? {
        None => Ok(()),
        Some(finding) => Err(ImageRefusal::Fault(finding)),
    }
}

/// The first fault of an image, in the order of its parts. `AllocError` where the memory was refused.
fn first_fault(
    alloc: Global,
    image: &Image,
    code: &Code,
    site: &Site,
) -> Result<Option<Finding>, AllocError>
    ensures script { IfOk result (λ _. IsScript (script_of code.now)) }
    ensures first { IfOk result (λ found. found ≡ first_fault (script_of code.now) site.now image.now) }
{
    let names = given_names(alloc, code)?;
    let around = CellsAround {
        code,
        names: &names,
        cells: image.cells.as_slice(),
    };
    let front = front_fault(&around, image);
    if front.is_some() {
        return Ok(front);
    }
    let requests = requests_fault(alloc, site, image)?;
    if requests.is_some() {
        return Ok(requests);
    }
    let held = held_faults(alloc, site, image)?;
    if held.is_some() {
        return Ok(held);
    }
    threads_fault(alloc, image, &around)
}

/// The first fault of the parts in front of the requests.
fn front_fault(around: &CellsAround<'_>, image: &Image) -> Option<Finding>
    requires script { IsScript (script_of around.now.code.now) }
    requires given { around.now.names.now ≡ given_of [] (script_of around.now.code.now) }
    requires cells { around.now.cells.now ≡ image.now.cells }
    ensures { result ≡ front_fault (script_of around.now.code.now) image.now }
{
    let head = head_fault(image);
    if head.is_some() {
        return head;
    }
    let cells = cells_fault(around);
    if cells.is_some() {
        return cells;
    }
    nodes_fault(image)
}

/// The first fault of the threads. `AllocError` where the memory was refused.
fn threads_fault(
    alloc: Global,
    image: &Image,
    around: &CellsAround<'_>,
) -> Result<Option<Finding>, AllocError>
    requires script { IsScript (script_of around.now.code.now) }
    requires given { around.now.names.now ≡ given_of [] (script_of around.now.code.now) }
    requires cells { around.now.cells.now ≡ image.now.cells }
    ensures { IfOk result (λ found. found ≡ threads_fault (script_of around.now.code.now) image.now) }
{
    let held = sorted_requests(alloc, image)?;
    let lists = lists_of(image, held.as_slice());
    if !has_main(&lists) {
        return Ok(Some(outside(CheckKind::Parent)));
    }
    let found = each_thread(alloc, &lists, around)?;
    if found.is_some() {
        return Ok(found);
    }
    let differ = all_differ(all_own(alloc, &lists)?);
    Ok(need(differ, outside(CheckKind::Executor)))
}

/// What is known of the lists of an image. These requests hold executors.
fn lists_of<'a>(image: &'a Image, held: &'a [u32]) -> Lists<'a>
    requires { (r : ℕ) → list_any (nat_eq r) held.now ≡ true → is_held image.now r ≡ true }
    ensures image { result.image.now ≡ image.now }
    ensures held { (r : ℕ) → list_any (nat_eq r) result.held.now ≡ true → is_held result.image.now r ≡ true }
    ensures requests { result.requests_rise ≡ true → Rises (map (λ r. r.number) result.image.now.requests) }
    ensures threads { result.threads_rise ≡ true → Rises (map (λ t. t.number) result.image.now.threads) }
{
    let requests_rise = numbers_rise(image.requests.as_slice());
    let threads_rise = numbers_rise(image.threads.as_slice());
    Lists {
        image,
        requests_rise,
        threads_rise,
        held,
    }
}

/// The requests that hold executors, rising. `AllocError` where the memory was refused.
fn sorted_requests(alloc: Global, image: &Image) -> Result<Vec<u32>, AllocError>
    ensures { IfOk result (λ held. (r : ℕ) → list_any (nat_eq r) held.items ≡ true → is_held image.now r ≡ true) }
{
    let mut held = held_requests(alloc, image.held.as_slice())?;
    held.sort_unstable();
    Ok(held)
}

/// Whether a build that has not ended has its main thread.
fn has_main(lists: &Lists<'_>) -> bool
    requires { lists.now.threads_rise ≡ true → Rises (map (λ t. t.number) lists.now.image.now.threads) }
    ensures { result ≡ has_main lists.now.image.now }
{
    lists.image.ended || thread_of(lists, 0).is_some()
}

/// The first fault of a thread. `AllocError` where the memory was refused.
fn each_thread(
    alloc: Global,
    lists: &Lists<'_>,
    around: &CellsAround<'_>,
) -> Result<Option<Finding>, AllocError>
    requires threads { lists.now.threads_rise ≡ true → Rises (map (λ t. t.number) lists.now.image.now.threads) }
    requires requests { lists.now.requests_rise ≡ true → Rises (map (λ r. r.number) lists.now.image.now.requests) }
    requires held { (r : ℕ) → list_any (nat_eq r) lists.now.held.now ≡ true → is_held lists.now.image.now r ≡ true }
    requires given { around.now.names.now ≡ given_of [] (script_of around.now.code.now) }
    requires cells { around.now.cells.now ≡ lists.now.image.now.cells }
    ensures { IfOk result (λ found. found ≡ each (thread_fault (script_of around.now.code.now) lists.now.image.now) 0 None lists.now.image.now.threads) }
{
    let table = Table {
        code: around.code,
        names: around.names,
        cells: around.cells,
        nodes: lists.image.nodes.len(),
    };
    let mut before = None;
    for thread in lists.image.threads.as_slice() {
        let found = thread_fault(alloc, lists, &table, before, thread)?;
        if found.is_some() {
            return Ok(found);
        }
        before = Some(thread);
    }
    Ok(None)
}

/// The first fault of a thread behind another: outside its frames, and then in them. `AllocError` where the memory was
/// refused.
fn thread_fault(
    alloc: Global,
    lists: &Lists<'_>,
    table: &Table<'_>,
    before: Option<&ImageThread>,
    thread: &ImageThread,
) -> Result<Option<Finding>, AllocError>
    requires threads { lists.now.threads_rise ≡ true → Rises (map (λ t. t.number) lists.now.image.now.threads) }
    requires requests { lists.now.requests_rise ≡ true → Rises (map (λ r. r.number) lists.now.image.now.requests) }
    requires held { (r : ℕ) → list_any (nat_eq r) lists.now.held.now ≡ true → is_held lists.now.image.now r ≡ true }
    requires given { table.now.names.now ≡ given_of [] (script_of table.now.code.now) }
    requires cells { table.now.cells.now ≡ lists.now.image.now.cells }
    requires nodes { table.now.nodes ≡ length lists.now.image.now.nodes }
    ensures { IfOk result (λ found. found ≡ thread_tests (script_of table.now.code.now) lists.now.image.now (option_copied before.entry) thread.now) }
{
    let number = thread.number;
    if !begins(table.code, thread) {
        return Ok(Some(in_thread(number, CheckKind::Kind)));
    }
    if !has_nodes(lists.image, thread) {
        return Ok(Some(in_thread(number, CheckKind::Node)));
    }
    if !has_outcomes(lists.image, thread) {
        return Ok(Some(in_thread(number, CheckKind::MissingCell)));
    }
    if !has_request(lists, number, &thread.wait) {
        return Ok(Some(in_thread(number, CheckKind::Request)));
    }
    if !has_context(lists, thread) {
        return Ok(Some(in_thread(number, CheckKind::Executor)));
    }
    if !has_place(alloc, lists, before, thread)? {
        return Ok(Some(in_thread(number, CheckKind::Parent)));
    }
    Ok(frames_fault(lists, table, thread))
}
