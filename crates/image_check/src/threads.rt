//! Green threads, outside their frames.

ghost use Rattle.std.specs.Prelude.{◌≡◌, ◌+◌, ℕ, true, nat_eq, length, map, take, IfOk};
ghost use Rattle.std.specs.List.{list_all, list_any};
ghost use Rattle.std.specs.Cmp.Lexicographic.{pointwise};
ghost use Rattle.std.specs.Option.{option_copied, option_map};
ghost use Rattle.model_run.specs.Fitting.{Rises, holds_executor, holds_folder, outermost};
ghost use Rattle.frame_rows.specs.Leading.{spot_seen};
ghost use Rattle.cps_code.specs.Script.{script_of};
ghost use Rattle.image_frames.specs.Standings.{kind_of};
ghost use Rattle.image_check.specs.Threads.{all_own, asked, awaits, begins, bodies, context_above, context_in, goes_on, has_branch, has_branches, has_context, has_end, has_end_node, has_nodes, has_outcome, has_outcomes, has_parent, has_place, has_request, is_child, is_flow_node, is_held, is_number, is_open, is_open_branch, is_own, own_held, is_throwable};
ghost use Rattle.image_check.specs.Requests.{thread_of};

use crate::cells::is_there;
use crate::held::all_differ;
use crate::lookup::{is_higher, number_of, numbered};
use cps_code::Code;
use frame_rows::{Spot, frame_kind};
use image_form::{Image, ImageFrame, ImageThread};
use image_frames::may_stand_at;
use model_run::{FrameKind, Held, Join, OpenRequest, Wait};
use model_values::{Cell, Outcome};
use std::alloc::{AllocError, Global};

/// An image, and what is known of its lists.
#[derive(Drop)]
pub(crate) struct Lists<'a> {
    pub(crate) image: &'a Image,
    /// Whether the numbers of the requests, and those of the threads, rise.
    pub(crate) requests_rise: bool,
    pub(crate) threads_rise: bool,
    /// The requests that hold executors, rising.
    pub(crate) held: &'a [u32],
}

/// Whether a thread is not about to go on, and its outermost frame may stand there.
pub(crate) fn begins(code: &Code, thread: &ImageThread) -> bool
    ensures { result ≡ begins (script_of code.now) thread.now }
{
    if matches!(thread.wait, Wait::Ready(_)) {
        return false;
    }
    match thread.frames.as_slice() {
        [first, ..] => may_stand_at(code, first, outermost(thread.parent)),
        [] => false,
    }
}

/// Where the frames of a thread begin.
fn outermost(parent: Option<u32>) -> Spot
    ensures { spot_seen result ≡ outermost parent }
{
    match parent {
        Some(_) => Spot::AnyBranch,
        None => Spot::Begun(0),
    }
}

/// Whether the last flow node of a thread is there, and those of its branches that have ended.
pub(crate) fn has_nodes(image: &Image, thread: &ImageThread) -> bool
    ensures { result ≡ has_nodes image.now thread.now }
{
    let nodes = image.nodes.len();
    if !is_flow_node(nodes, thread.head) {
        return false;
    }
    match &thread.wait {
        Wait::Branches(joins) => have_end_nodes(nodes, joins.as_slice()),
        _ => true,
    }
}

/// Whether the last flow node of each of these branches that has ended is there.
fn have_end_nodes(nodes: usize, joins: &[Join]) -> bool
    ensures { result ≡ list_all (has_end_node nodes) joins.now }
{
    joins.iter().all(|join| has_end_node(nodes, join))
}

/// Whether this is the number of a flow node: they are numbered from 2.
fn is_flow_node(nodes: usize, number: u32) -> bool
    ensures { result ≡ is_flow_node nodes number }
{
    1 < number && (number as usize - 2) < nodes
}

fn has_end_node(nodes: usize, join: &Join) -> bool
    ensures { result ≡ has_end_node nodes join.now }
{
    match &join.ended {
        Some(end) => is_flow_node(nodes, end.node),
        None => true,
    }
}

/// Whether what the branches of a thread ended with is there.
pub(crate) fn has_outcomes(image: &Image, thread: &ImageThread) -> bool
    ensures { result ≡ has_outcomes image.now thread.now }
{
    let cells = image.cells.as_slice();
    match &thread.wait {
        Wait::Branches(joins) => joins.as_slice().iter().all(|join| has_end(cells, join)),
        _ => true,
    }
}

fn has_end(cells: &[Cell], join: &Join) -> bool
    ensures { result ≡ has_end cells.now join.now }
{
    match &join.ended {
        Some(end) => has_outcome(cells, &end.outcome),
        None => true,
    }
}

fn has_outcome(cells: &[Cell], outcome: &Outcome) -> bool
    ensures { result ≡ has_outcome cells.now outcome.now }
{
    match outcome {
        Outcome::Value(value) => is_there(cells, value),
        Outcome::Thrown(cell) => matches!(cells.get(*cell as usize), Some(Cell::Thrown { .. })),
    }
}

/// Whether the request that a thread waits for is open, and its own.
pub(crate) fn has_request(lists: &Lists<'_>, number: u32, wait: &Wait) -> bool
    requires { lists.now.requests_rise ≡ true → Rises (map (λ r. r.number) lists.now.image.now.requests) }
    ensures { result ≡ has_request lists.now.image.now number wait.now }
{
    match wait {
        Wait::Request(request) => is_own(number, asked(lists, *request)),
        _ => true,
    }
}

/// The open request with a number.
pub(crate) fn asked<'a>(lists: &Lists<'a>, request: u32) -> Option<&'a OpenRequest>
    requires { lists.now.requests_rise ≡ true → Rises (map (λ r. r.number) lists.now.image.now.requests) }
    ensures { option_copied result ≡ asked lists.now.image.now request }
{
    numbered::<OpenRequest>(
        lists.image.requests.as_slice(),
        lists.requests_rise,
        request,
    )
}

fn is_own(number: u32, request: Option<&OpenRequest>) -> bool
    ensures { result ≡ is_own number (option_copied request.entry) }
{
    match request {
        Some(request) => request.thread == number,
        None => false,
    }
}

/// The thread with a number.
pub(crate) fn thread_of<'a>(lists: &Lists<'a>, number: u32) -> Option<&'a ImageThread>
    requires { lists.now.threads_rise ≡ true → Rises (map (λ t. t.number) lists.now.image.now.threads) }
    ensures { option_copied result ≡ thread_of lists.now.image.now number }
{
    numbered::<ImageThread>(lists.image.threads.as_slice(), lists.threads_rise, number)
}

/// Whether the context of a thread is that of its parent, and then that of its own open bodies, and what it holds is held.
pub(crate) fn has_context(lists: &Lists<'_>, thread: &ImageThread) -> bool
    requires threads { lists.now.threads_rise ≡ true → Rises (map (λ t. t.number) lists.now.image.now.threads) }
    requires held { (r : ℕ) → list_any (nat_eq r) lists.now.held.now ≡ true → is_held lists.now.image.now r ≡ true }
    ensures { result ≡ has_context lists.now.image.now thread.now }
{
    let nothing = [0; 0];
    let parent = parent_of(lists, thread);
    let goes_on = match parent {
        Some(parent) => goes_on(
            parent.context.held.as_slice(),
            parent.context.folders.len(),
            thread,
        ),
        None => goes_on(&nothing, 0, thread),
    };
    goes_on && all_held(lists, thread.context.held.as_slice())
}

/// Whether each of these requests holds an executor.
fn all_held(lists: &Lists<'_>, requests: &[u32]) -> bool
    requires { (r : ℕ) → list_any (nat_eq r) lists.now.held.now ≡ true → is_held lists.now.image.now r ≡ true }
    ensures { result ≡ list_all (is_held lists.now.image.now) requests.now }
{
    for request in requests {
        if !is_held(lists, *request) {
            return false;
        }
    }
    true
}

/// How many bodies hold an executor, and how many have a folder of their own.
#[derive(Clone, Copy)]
struct BodyCounts {
    executors: usize,
    folders: usize,
}

/// Whether the context of a thread is what these requests and so many folders give it, and then its own open bodies.
fn goes_on(held: &[u32], folders: usize, thread: &ImageThread) -> bool
    ensures { result ≡ goes_on held.now folders thread.now }
{
    let own = thread.context.held.as_slice();
    let bodies = bodies(thread.frames.as_slice());
    starts_with(own, held)
        && is_sum(own.len(), held.len(), bodies.executors)
        && is_sum(thread.context.folders.len(), folders, bodies.folders)
}

/// Whether numbers begin with these.
fn starts_with(numbers: &[u32], front: &[u32]) -> bool
    ensures { result ≡ pointwise nat_eq (take (length front.now) numbers.now) front.now }
{
    if numbers.len() < front.len() {
        return false;
    }
    let (first, _) = numbers.split_at(front.len());
    first == front
}

/// Whether a whole is the sum of two parts.
fn is_sum(whole: usize, part: usize, other: usize) -> bool
    ensures { result ≡ nat_eq whole (part + other) }
{
    part <= whole && whole - part == other
}

/// The bodies among these frames.
fn bodies(frames: &[ImageFrame]) -> BodyCounts
    ensures executors { result.executors ≡ bodies holds_executor frames.now }
    ensures folders { result.folders ≡ bodies holds_folder frames.now }
{
    let mut executors = 0;
    let mut folders = 0;
    for frame in frames {
        let kind = kind_of(frame.kind);
        if matches!(kind, FrameKind::NodeBody) {
            executors += 1;
        }
        if matches!(kind, FrameKind::NodeBody | FrameKind::DirBody) {
            folders += 1;
        }
    }
    BodyCounts { executors, folders }
}

/// The kind with this number, and that of a statement where none has it.
fn kind_of(number: u8) -> FrameKind
    ensures { result ≡ kind_of number }
{
    frame_kind(number).unwrap_or(FrameKind::Statement)
}

/// Whether a request holds an executor. Where it does it looks at as many as their number has binary digits.
fn is_held(lists: &Lists<'_>, request: u32) -> bool
    requires { (r : ℕ) → list_any (nat_eq r) lists.now.held.now ≡ true → is_held lists.now.image.now r ≡ true }
    ensures { result ≡ is_held lists.now.image.now request }
{
    is_among(lists.held, request) || has_holder(lists.image.held.as_slice(), request)
}

/// Whether one of these executors is held for a request.
fn has_holder(held: &[Held], request: u32) -> bool
    ensures { result ≡ list_any (λ x. nat_eq x.request request) held.now }
{
    held.iter().any(|one| one.request == request)
}

/// Whether a number is among rising numbers. Where they do not rise it may not be found.
fn is_among(numbers: &[u32], number: u32) -> bool
    ensures { result ≡ true → list_any (nat_eq number) numbers.now ≡ true }
{
    let mut rest = numbers;
    while rest.len() > 1 {
        let (front, behind) = rest.split_at(rest.len() / 2);
        rest = if behind[0] <= number { behind } else { front };
    }
    match rest {
        [one, ..] => *one == number,
        [] => false,
    }
}

/// Whether the number of a thread rises, its parent waits for it, and it waits for branches of its own, of which none stands
/// twice and one has not ended. `AllocError` where the memory was refused.
pub(crate) fn has_place(
    alloc: Global,
    lists: &Lists<'_>,
    before: Option<&ImageThread>,
    thread: &ImageThread,
) -> Result<bool, AllocError>
    requires { lists.now.threads_rise ≡ true → Rises (map (λ t. t.number) lists.now.image.now.threads) }
    ensures { IfOk result (λ has. has ≡ has_place lists.now.image.now (option_copied before.entry) thread.now) }
{
    if !is_higher(number_of(before), thread.number) {
        return Ok(false);
    }
    if !has_parent(lists, thread.number, thread.parent) {
        return Ok(false);
    }
    has_branches(alloc, lists, thread.number, &thread.wait)
}

/// Whether a thread is the script's, or the branch of one with a lower number that waits for it.
fn has_parent(lists: &Lists<'_>, number: u32, parent: Option<u32>) -> bool
    requires { lists.now.threads_rise ≡ true → Rises (map (λ t. t.number) lists.now.image.now.threads) }
    ensures { result ≡ has_parent lists.now.image.now number parent }
{
    match parent {
        Some(parent) => parent < number && awaits(number, thread_of(lists, parent)),
        None => number == 0,
    }
}

/// Whether a thread is there and waits for a branch that has not ended.
fn awaits(number: u32, thread: Option<&ImageThread>) -> bool
    ensures { result ≡ awaits number (option_copied thread.entry) }
{
    match thread {
        Some(thread) => match &thread.wait {
            Wait::Branches(joins) => has_open(joins.as_slice(), number),
            _ => false,
        },
        None => false,
    }
}

/// Whether a branch that has not ended is among these. Where their numbers rise, as the machine gives them, it looks at as
/// many as the length has binary digits.
fn has_open(joins: &[Join], number: u32) -> bool
    ensures { result ≡ list_any (is_open_branch number) joins.now }
{
    is_open_by_halves(joins, number) || joins.iter().any(|join| is_open_branch(number, join))
}

/// Whether a branch that has not ended is among these. Where their numbers do not rise it may not be found.
fn is_open_by_halves(joins: &[Join], number: u32) -> bool
    ensures { result ≡ true → list_any (is_open_branch number) joins.now ≡ true }
{
    let mut rest = joins;
    while rest.len() > 1 {
        let (front, behind) = rest.split_at(rest.len() / 2);
        rest = if behind[0].thread <= number {
            behind
        } else {
            front
        };
    }
    match rest {
        [join, ..] => is_open_branch(number, join),
        [] => false,
    }
}

fn is_open_branch(number: u32, join: &Join) -> bool
    ensures { result ≡ is_open_branch number join.now }
{
    join.thread == number && is_open(join)
}

/// Whether a thread waits for branches of its own, of which none stands twice and one has not ended, or for none.
/// `AllocError` where the memory was refused.
fn has_branches(
    alloc: Global,
    lists: &Lists<'_>,
    number: u32,
    wait: &Wait,
) -> Result<bool, AllocError>
    requires { lists.now.threads_rise ≡ true → Rises (map (λ t. t.number) lists.now.image.now.threads) }
    ensures { IfOk result (λ has. has ≡ has_branches lists.now.image.now number wait.now) }
{
    let joins = match wait {
        Wait::Branches(joins) => joins.as_slice(),
        _ => return Ok(true),
    };
    if !all_branches(lists, number, joins) {
        return Ok(false);
    }
    if !is_any_open(joins) {
        return Ok(false);
    }
    Ok(all_differ(branch_numbers(alloc, joins)?))
}

/// Whether each of these branches has ended, or is a thread with this parent.
fn all_branches(lists: &Lists<'_>, number: u32, joins: &[Join]) -> bool
    requires { lists.now.threads_rise ≡ true → Rises (map (λ t. t.number) lists.now.image.now.threads) }
    ensures { result ≡ list_all (has_branch lists.now.image.now number) joins.now }
{
    for join in joins {
        if !has_branch(lists, number, join) {
            return false;
        }
    }
    true
}

fn is_any_open(joins: &[Join]) -> bool
    ensures { result ≡ list_any is_open joins.now }
{
    joins.iter().any(|join| is_open(join))
}

fn is_open(join: &Join) -> bool
    ensures { result ≡ is_open join.now }
{
    join.ended.is_none()
}

/// Whether a branch has ended, or is a thread with this parent.
fn has_branch(lists: &Lists<'_>, number: u32, join: &Join) -> bool
    requires { lists.now.threads_rise ≡ true → Rises (map (λ t. t.number) lists.now.image.now.threads) }
    ensures { result ≡ has_branch lists.now.image.now number join.now }
{
    join.ended.is_some() || is_child(number, thread_of(lists, join.thread))
}

fn is_child(number: u32, thread: Option<&ImageThread>) -> bool
    ensures { result ≡ is_child number (option_copied thread.entry) }
{
    match thread {
        Some(thread) => is_number(number, thread.parent),
        None => false,
    }
}

fn is_number(number: u32, parent: Option<u32>) -> bool
    ensures { result ≡ is_number number parent }
{
    match parent {
        Some(parent) => parent == number,
        None => false,
    }
}

/// The numbers of branches. `AllocError` where the memory was refused.
fn branch_numbers(alloc: Global, joins: &[Join]) -> Result<Vec<u32>, AllocError>
    ensures { IfOk result (λ numbers. numbers.items ≡ map (λ j. j.thread) joins.now) }
{
    let mut numbers = Vec::with_capacity(alloc, joins.len())?;
    for join in joins {
        numbers.push(join.thread)?;
    }
    Ok(numbers)
}

/// The requests of the `node` bodies that the threads have opened themselves. `AllocError` where the memory was refused.
pub(crate) fn all_own(alloc: Global, lists: &Lists<'_>) -> Result<Vec<u32>, AllocError>
    requires { lists.now.threads_rise ≡ true → Rises (map (λ t. t.number) lists.now.image.now.threads) }
    ensures { IfOk result (λ own. own.items ≡ all_own lists.now.image.now lists.now.image.now.threads) }
{
    let mut own = Vec::new(alloc);
    for thread in lists.image.threads.as_slice() {
        own.extend_from_slice(own_held(lists, thread))?;
    }
    Ok(own)
}

/// The requests of the `node` bodies that a thread has opened itself.
fn own_held<'a>(lists: &Lists<'_>, thread: &'a ImageThread) -> &'a [u32]
    requires { lists.now.threads_rise ≡ true → Rises (map (λ t. t.number) lists.now.image.now.threads) }
    ensures { result.now ≡ own_held lists.now.image.now thread.now }
{
    let held = thread.context.held.as_slice();
    let above = match parent_of(lists, thread) {
        Some(parent) => parent.context.held.len(),
        None => 0,
    };
    if above <= held.len() {
        held.split_at(above).1
    } else {
        held.split_at(held.len()).1
    }
}

/// The thread that a thread is a branch of.
fn parent_of<'a>(lists: &Lists<'a>, thread: &ImageThread) -> Option<&'a ImageThread>
    requires { lists.now.threads_rise ≡ true → Rises (map (λ t. t.number) lists.now.image.now.threads) }
    ensures { context_above lists.now.image.now thread.now.parent ≡ context_in (option_copied result) }
{
    match thread.parent {
        Some(parent) => thread_of(lists, parent),
        None => None,
    }
}
