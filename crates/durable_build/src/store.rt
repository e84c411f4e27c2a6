//! The record of an event, whole or of changes alone, and how it comes into the journal.
ghost use Rattle.std.specs.Prelude.{◌≡◌, ◌⊎◌, ◌≤◌, ◌<◌, ◌+◌, ◌^◌, List, ℕ, [], ◌∷◌, ◌++◌, true, false, length, Some, None, IfSome, IfOk, IfErr, OnOk, IsErrOf};
ghost use Rattle.device_faults.specs.Faults.{CountsFault};
ghost use Rattle.jp_disk.specs.Runs.{AtEachMoment};
ghost use Rattle.journal_core.specs.Records.{HasWithOrWithout};
ghost use Rattle.journal_core.specs.State.{Holds};
ghost use Rattle.model_run.specs.World as W;
ghost use Rattle.model_run.specs.declared.taken.Taken.TheVariants.{Accepted};
ghost use Rattle.model_run.specs.Taking.{taken};
ghost use Rattle.model_run.specs.Requests.{RequestsStay};
ghost use Rattle.build_images.specs.Lower.build_core.Builds.{StandsFor, setting_in, standing_of};
ghost use Rattle.build_images.specs.Lower.build_core.Phases.{has_begun};
ghost use Rattle.image_form.specs.declared.image.Image.{Image as AnyImage};
ghost use Rattle.delta_records.specs.Payloads.{payload_form};
ghost use Rattle.delta_records.specs.declared.payload.Payload.TheVariants as payload;
ghost use Rattle.delta_records.specs.Lower.record_form.Ordered.{IsInOrder};
ghost use Rattle.delta_records.specs.Lower.record_form.Sizes.{size_in};
ghost use Rattle.build_images.specs.Lower.script_thread.Marks.{GoesOnFrom, ThreadsStay};
ghost use Rattle.build_images.specs.Images.{HasImage, image_in};
ghost use Rattle.durable_build.specs.Kinds.{is_whole, weights_of, weights_with};
ghost use Rattle.durable_build.specs.Adding.{AddDone, AddLeaves, HasRoom, IsDueDelta, IsSameButMarks, MarksChanges, SpellsDue};
ghost use Rattle.durable_build.specs.Standing.{BeginsWhole};
ghost use Rattle.durable_build.specs.Taking.{IsSource, kept_script, kept_agents};

use crate::changes::due_changes;
use build_images::build_core::Build;
use build_images::image_of;
use build_images::saved_thread::SavedThread;
use delta_records::delta_form::Delta;
use delta_records::record_form::{Measured, record_size, write_record};
use delta_records::{Payload, Weights, next_image, write_payload};
use image_form::Image;
use journal_core::{AppendFault, Journal, TakeFault};
use jp_disk::Disk;
use model_run::{Event, Taken};
use model_text::{Bytes, Sequence};
use std::alloc::{AllocError, Global};

/// The most bytes that a journal may have.
const MAX_LENGTH: u64 = 1 << 30;

/// The first byte of a payload that holds a whole image.
const WHOLE: u8 = 1;

/// Takes an event, as `Build::take` does. A build that has accepted one has begun.
pub fn take_event<R: SavedThread + Drop>(
    build: &mut Build<R>,
    event: &Event,
) -> Result<Taken, AllocError>
    ensures taken { IfOk result (λ answer. answer ≡ taken (standing_of build.old) event.now) }
    ensures unchanged { IfOk result (λ answer. (answer ≡ Accepted → ⊥) → build.new ≡ build.old) }
    ensures begun { IfOk result (λ answer. answer ≡ Accepted → has_begun build.new.phase ≡ true) }
    ensures marks { OnOk result (GoesOnFrom build.old.shared build.new.shared) }
    ensures frames { OnOk result (ThreadsStay R.low R.touched R.stance build.old.group.seats build.new.group.seats) }
    ensures requests { OnOk result (RequestsStay build.old.shared.requests build.new.shared.requests) }
    ensures stands { OnOk result ((w : W.Build) → StandsFor R.stance build.old w → StandsFor R.stance build.new (W.after_one (setting_in build.old) w event.now)) }
    ensures setting { OnOk result (setting_in build.new ≡ setting_in build.old) }
{
    // a build that is read tells that it is sound
    let _shared = build.shared();
    let answer = build.take(event)?;
    Ok(answer)
}

/// The bytes of a script and of an agents file.
#[derive(Drop)]
pub struct Sources {
    pub script: Bytes,
    pub agents: Bytes,
}

/// What a `Start` brings. `AllocError` where the memory was refused.
pub fn sources_of(alloc: Global, event: &Event) -> Result<Option<Sources>, AllocError>
    ensures { IfOk result (IsSource event.now) }
{
    match event {
        Event::Start { script, agents } => Ok(Some(Sources {
            script: Sequence::from_slice(alloc, script.as_slice())?,
            agents: Sequence::from_slice(alloc, agents.as_slice())?,
        })),
        _ => Ok(None),
    }
}

/// Keeps what a `Start` brought.
pub fn keep_sources(script: &mut Bytes, agents: &mut Bytes, sources: Option<Sources>)
    ensures { (script.new ≡ kept_script sources script.old) × (agents.new ≡ kept_agents sources agents.old) }
{
    if let Some(new) = sources {
        let Sources {
            script: new_script,
            agents: new_agents,
        } = new;
        *script = new_script;
        *agents = new_agents;
    }
}

/// What is kept of the records of a journal: the image of the last one, and how much they weigh.
#[derive(Drop)]
pub struct Last {
    pub image: Option<Image>,
    pub weights: Weights,
}

/// What is kept where there is no record.
pub fn no_record() -> Last
    ensures { (result.image ≡ None) × (result.weights ≡ weights_of []) }
{
    Last {
        image: None,
        weights: no_weights(),
    }
}

/// The weights of no record.
pub fn no_weights() -> Weights
    ensures { result ≡ weights_of [] }
{
    Weights {
        whole: 0,
        behind: 0,
    }
}

/// The weights with the record of a payload more.
pub fn weights_with(weights: Weights, payload: &[u8]) -> Weights
    ensures { result ≡ weights_with weights payload.now }
{
    let size = payload.len() as u64;
    if is_whole(payload) {
        Weights {
            whole: size,
            behind: 0,
        }
    } else {
        Weights {
            whole: weights.whole,
            behind: weights.behind.saturating_add(size),
        }
    }
}

/// Whether a payload holds a whole image.
pub fn is_whole(payload: &[u8]) -> bool
    ensures { result ≡ is_whole payload.now }
{
    match payload {
        [] => false,
        [kind, ..] => *kind == WHOLE,
    }
}

/// Adds the record of an event that the build has just taken, and keeps its image as the last. From then on no cell of the build
/// is marked and each thread is: the marks behind the next event tell what it changed.
pub fn add<D: Disk, R: SavedThread + Drop>(
    journal: &mut Journal<D>,
    alloc: Global,
    build: &mut Build<R>,
    event: &Event,
    last: &mut Last,
) -> Result<(), TakeFault>
    requires running { journal.old.stopped ≡ false }
    requires begun { has_begun build.old.phase ≡ true }
    requires order { IfSome last.old.image IsInOrder }
    requires marks { IfSome last.old.image (λ before. MarksChanges R.low R.touched R.stance before build.old) }
    requires first { BeginsWhole last.old.image last.old.weights }
    ensures adds { AddDone D.Disk last.old.weights last.old.image event.now (image_in R.stance build.new) journal.old journal.new last.new.weights result }
    ensures last { OnOk result ((last.new.image ≡ Some (image_in R.stance build.new)) × IsInOrder (image_in R.stance build.new)) }
    ensures image { ¬ (IsErrOf result TakeFault.Memory) → HasImage R.stance build.new }
    ensures same { IsSameButMarks R.stance build.old build.new }
    ensures cause { CountsFault (D.faults journal.old.disk) (D.faults journal.new.disk) (IsErrOf result TakeFault.Disk) }
{
    add_record(journal, alloc, build, event, last)?;
    build.mark();
    Ok(())
}

/// Adds the record of an event that the build has just taken, of what it changed or of the whole image after it.
fn add_record<D: Disk, R: SavedThread + Drop>(
    journal: &mut Journal<D>,
    alloc: Global,
    build: &Build<R>,
    event: &Event,
    last: &mut Last,
) -> Result<(), TakeFault>
    requires running { journal.old.stopped ≡ false }
    requires begun { has_begun build.now.phase ≡ true }
    requires order { IfSome last.old.image IsInOrder }
    requires marks { IfSome last.old.image (λ before. MarksChanges R.low R.touched R.stance before build.now) }
    requires first { BeginsWhole last.old.image last.old.weights }
    ensures adds { AddDone D.Disk last.old.weights last.old.image event.now (image_in R.stance build.now) journal.old journal.new last.new.weights result }
    ensures last { OnOk result (last.new.image ≡ Some (image_in R.stance build.now)) }
    ensures image { ¬ (IsErrOf result TakeFault.Memory) → HasImage R.stance build.now }
    ensures cause { CountsFault (D.faults journal.old.disk) (D.faults journal.new.disk) (IsErrOf result TakeFault.Disk) }
{
    let changes = due_changes(alloc, build, last)?;
    match changes {
        Some(changes) => add_changes(journal, alloc, event, last, changes),
        None => add_whole(journal, alloc, build, event, last),
    }
}

/// Adds the record of an event and of what it changed. The kept image is moved on by the changes, in place. They fit it, so
/// that only want of memory stands against it; that comes before anything is written.
fn add_changes<D: Disk>(
    journal: &mut Journal<D>,
    alloc: Global,
    event: &Event,
    last: &mut Last,
    changes: Delta,
) -> Result<(), TakeFault>
    requires running { journal.old.stopped ≡ false }
    requires due { (image : AnyImage) × IsInOrder image × IsDueDelta last.old.weights last.old.image image (Some changes) }
    ensures adds { (image : AnyImage) → IsDueDelta last.old.weights last.old.image image (Some changes)
        → AddDone D.Disk last.old.weights last.old.image event.now image journal.old journal.new last.new.weights result }
    ensures last { (image : AnyImage) → IsDueDelta last.old.weights last.old.image image (Some changes) → OnOk result (last.new.image ≡ Some image) }
    ensures cause { CountsFault (D.faults journal.old.disk) (D.faults journal.new.disk) (IsErrOf result TakeFault.Disk) }
{
    if let Err(fault) = check_room(journal.len(), changes_size(event, &changes)) {
        return Err(fault);
    }
    let Ok(event) = copied(event) else {
        return Err(TakeFault::Memory);
    };
    let payload = Payload::Changed {
        event,
        delta: changes,
    };
    let Ok(bytes) = write_payload(alloc, &payload) else {
        return Err(TakeFault::Memory);
    };
    let Ok(image) = next_image(alloc, last.image.take(), payload) else {
        return Err(TakeFault::Memory);
    };
    append(journal, alloc, bytes.as_slice())?;
    last.image = Some(image);
    last.weights = weights_with(last.weights, bytes.as_slice());
    Ok(())
}

/// Adds the record of an event and of the whole image after it, which is kept in the place of the one before.
fn add_whole<D: Disk, R: SavedThread + Drop>(
    journal: &mut Journal<D>,
    alloc: Global,
    build: &Build<R>,
    event: &Event,
    last: &mut Last,
) -> Result<(), TakeFault>
    requires running { journal.old.stopped ≡ false }
    requires begun { has_begun build.now.phase ≡ true }
    requires due { IsDueDelta last.old.weights last.old.image (image_in R.stance build.now) None }
    ensures adds { AddDone D.Disk last.old.weights last.old.image event.now (image_in R.stance build.now) journal.old journal.new last.new.weights result }
    ensures last { OnOk result (last.new.image ≡ Some (image_in R.stance build.now)) }
    ensures image { ¬ (IsErrOf result TakeFault.Memory) → HasImage R.stance build.now }
    ensures cause { CountsFault (D.faults journal.old.disk) (D.faults journal.new.disk) (IsErrOf result TakeFault.Disk) }
{
    // the image before is no longer asked for, and its memory is free for the new one
    last.image = None;
    let Ok(image) = image_of(build) else {
        return Err(TakeFault::Memory);
    };
    let payload = spelled_whole(alloc, journal.len(), event, &image)?;
    append(journal, alloc, payload.as_slice())?;
    last.image = Some(image);
    last.weights = weights_with(last.weights, payload.as_slice());
    Ok(())
}

/// The payload of an event and of the whole image after it.
fn spelled_whole(alloc: Global, len: u64, event: &Event, image: &Image) -> Result<Bytes, TakeFault>
    requires { IsInOrder image.now }
    ensures { SpellsDue len (payload.Whole event.now image.now) result }
{
    if let Err(fault) = check_room(len, record_size(event, image)) {
        return Err(fault);
    }
    match write_record(alloc, event, image) {
        Ok(payload) => Ok(payload),
        Err(_) => Err(TakeFault::Memory),
    }
}

/// How many bytes the payload of an event and of what it changed has, or `u64::MAX` where it has more. It takes no memory.
fn changes_size(event: &Event, delta: &Delta) -> u64
    ensures { result ≡ size_in payload_form (payload.Changed event.now delta.now) }
{
    event.size().saturating_add(delta.size()).saturating_add(1)
}

/// The same event once more. `AllocError` where the memory was refused.
fn copied(event: &Event) -> Result<Event, AllocError>
    ensures { IfOk result (λ copy. copy ≡ event.now) }
{
    let copy = event.clone()?;
    Ok(copy)
}

/// Refuses a payload of so many bytes where its record has no room in a journal of this length.
fn check_room(len: u64, size: u64) -> Result<(), TakeFault>
    ensures { HasRoom len size result }
{
    let add = size.saturating_add(5);
    if add > MAX_LENGTH || len > MAX_LENGTH - add {
        return Err(TakeFault::Full { len, add });
    }
    Ok(())
}

/// Adds a payload, for which there is room.
fn append<D: Disk>(journal: &mut Journal<D>, alloc: Global, payload: &[u8]) -> Result<(), TakeFault>
    requires running { journal.old.stopped ≡ false }
    requires room { journal.old.len + (5 + length payload.now) ≤ 2 ^ 30 }
    ensures faults { IfErr result (λ e. (e ≡ TakeFault.Memory) ⊎ (e ≡ TakeFault.Disk)) }
    ensures leaves { AddLeaves journal.old journal.new (5 + length payload.now) result }
    ensures acknowledged { (payloads : List (List ℕ)) → Holds D.Disk journal.old payloads
        → OnOk result (Holds D.Disk journal.new (payloads ++ payload.now ∷ [])) }
    ensures any_moment { (payloads : List (List ℕ)) → Holds D.Disk journal.old payloads
        → AtEachMoment D.Disk journal.old.disk journal.new.disk (HasWithOrWithout payloads payload.now) }
    ensures cause { CountsFault (D.faults journal.old.disk) (D.faults journal.new.disk) (IsErrOf result TakeFault.Disk) }
{
    match journal.append(alloc, payload) {
        Ok(_) => Ok(()),
        Err(AppendFault::Memory) => Err(TakeFault::Memory),
        Err(AppendFault::Disk) => Err(TakeFault::Disk),
        Err(AppendFault::Full { len, add }) => Err(TakeFault::Full { len, add }),
        Err(AppendFault::Stopped) => Err(TakeFault::Stopped),
    }
}
