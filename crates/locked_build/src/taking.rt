//! A take and the grants behind it.
ghost use Rattle.std.specs.Prelude.{◌≡◌, ◌⊎◌, ◌<◌, ◌++◌, ◌∷◌, [], List, length, OnOk, None, true, false};
ghost use Rattle.durable_build.specs.Lower.build_core.Phases.{has_begun};
ghost use Rattle.durable_build.specs.Lower.store_laws.Store.{grant_of};
ghost use Rattle.durable_build.specs.Standing.{Kept};
ghost use Rattle.locked_build.specs.Facts.{Facts};
ghost use Rattle.locked_build.specs.Grants.{noted, Grants, TakeSays};
ghost use Rattle.locked_build.specs.Histories.{kept_fault};
ghost use Rattle.locked_build.specs.Showing.{due, IsSettled};
ghost use Rattle.locked_build.specs.Steps.{GrantSays, OneSays};

use crate::ask::Entry;
use crate::indexed::IndexedHistory;
use durable_build::DurableBuild;
use durable_build::saved_thread::SavedThread;
use journal_core::TakeFault;
use jp_disk::Disk;
use model_run::{Event, Taken};
use std::alloc::{AllocError, Global};

/// Notes the answer to an event, where there is room for one entry.
pub fn note(history: &mut IndexedHistory, event: Event, answer: Result<Taken, TakeFault>)
    requires { length history.old.items < history.old.capacity }
    ensures noted { history.new.items ≡ history.old.items ++ noted event answer }
    ensures room { history.new.capacity ≡ history.old.capacity }
{
    match answer {
        Ok(Taken::Accepted) => history.push(Entry::Took(event)),
        Ok(_) | Err(TakeFault::Stopped) => {}
        Err(TakeFault::Memory) => history.push(Entry::Failed {
            fault: TakeFault::Memory,
            event: None,
        }),
        Err(fault) => history.push(Entry::Failed {
            fault,
            event: Some(event),
        }),
    }
}

/// Takes an event that comes in its order, and notes it.
pub fn take_one<D: Disk, R: SavedThread + Drop>(
    alloc: Global,
    durable: &mut DurableBuild<D, R>,
    history: &mut IndexedHistory,
    event: Event,
) -> Result<Taken, TakeFault>
    requires running { durable.old.stopped ≡ false }
    requires begun { has_begun durable.old.build.phase ≡ true }
    requires in_order { (due durable.old.build ≡ grant_of event) ⊎ IsSettled durable.old.build }
    requires none { kept_fault history.old.items ≡ None }
    requires room { length history.old.items < history.old.capacity }
    ensures room { OnOk result (length history.new.items < history.new.capacity) }
    ensures noted { history.new.items ≡ history.old.items ++ noted event result }
    ensures says { OneSays R.stance durable.old durable.new event result }
    ensures facts { (opening : Kept D R) → Facts D.Disk R.stance opening durable.old history.old.items
        → Facts D.Disk R.stance opening durable.new history.new.items }
{
    if history.reserve(2).is_err() {
        note(history, event, Err(TakeFault::Memory));
        return Err(TakeFault::Memory);
    }
    let answer = durable.take(alloc, &event);
    note(history, event, answer);
    answer
}

/// Makes a grant that is due, and says whether it was taken.
fn grant<D: Disk, R: SavedThread + Drop>(
    alloc: Global,
    durable: &mut DurableBuild<D, R>,
    history: &mut IndexedHistory,
    request: u32,
    executor: u32,
) -> Result<bool, TakeFault>
    requires due { due durable.old.build ≡ Some (request, executor) }
    requires running { durable.old.stopped ≡ false }
    requires begun { has_begun durable.old.build.phase ≡ true }
    requires none { kept_fault history.old.items ≡ None }
    requires room { length history.old.items < history.old.capacity }
    ensures says { GrantSays R.stance durable.old durable.new history.old.items history.new.items result }
    ensures room { OnOk result (length history.new.items < history.new.capacity) }
    ensures facts { (opening : Kept D R) → Facts D.Disk R.stance opening durable.old history.old.items
        → Facts D.Disk R.stance opening durable.new history.new.items }
{
    match take_one(
        alloc,
        durable,
        history,
        Event::Granted { request, executor },
    ) {
        Ok(taken) => Ok(taken == Taken::Accepted),
        Err(fault) => Err(fault),
    }
}

/// Makes the grant that is due, and says whether one was taken. Memory may be wanted where it is looked for.
fn grant_one<D: Disk, R: SavedThread + Drop>(
    alloc: Global,
    durable: &mut DurableBuild<D, R>,
    history: &mut IndexedHistory,
) -> Result<bool, TakeFault>
    requires running { durable.old.stopped ≡ false }
    requires begun { has_begun durable.old.build.phase ≡ true }
    requires none { kept_fault history.old.items ≡ None }
    requires room { length history.old.items < history.old.capacity }
    ensures says { GrantSays R.stance durable.old durable.new history.old.items history.new.items result }
    ensures room { OnOk result (length history.new.items < history.new.capacity) }
    ensures facts { (opening : Kept D R) → Facts D.Disk R.stance opening durable.old history.old.items
        → Facts D.Disk R.stance opening durable.new history.new.items }
{
    match durable.build().next_grant() {
        Ok(Some((request, executor))) => grant(alloc, durable, history, request, executor),
        Ok(None) => Ok(false),
        Err(AllocError) => {
            note_want(history);
            Err(TakeFault::Memory)
        }
    }
}

/// Notes want of memory, where there is room for one entry.
pub fn note_want(history: &mut IndexedHistory)
    requires { length history.old.items < history.old.capacity }
    ensures { history.new.items ≡ history.old.items ++ Entry.Failed TakeFault.Memory None ∷ [] }
{
    history.push(Entry::Failed {
        fault: TakeFault::Memory,
        event: None,
    });
}

/// Makes the grants that are due, one after the other, until none is or one is refused.
pub fn grant_all<D: Disk, R: SavedThread + Drop>(
    alloc: Global,
    durable: &mut DurableBuild<D, R>,
    history: &mut IndexedHistory,
)
    requires running { durable.old.stopped ≡ false }
    requires begun { has_begun durable.old.build.phase ≡ true }
    requires none { kept_fault history.old.items ≡ None }
    requires room { length history.old.items < history.old.capacity }
    ensures grants { (es : List Entry) × (history.new.items ≡ history.old.items ++ es) × Grants R.stance durable.old.build es }
    ensures room { kept_fault history.new.items ≡ None → length history.new.items < history.new.capacity }
    ensures settled { kept_fault history.new.items ≡ None → IsSettled durable.new.build }
    ensures facts { (opening : Kept D R) → Facts D.Disk R.stance opening durable.old history.old.items
        → Facts D.Disk R.stance opening durable.new history.new.items }
{
    while let Ok(true) = grant_one(alloc, durable, history) {}
}

/// Takes an event of a settled build, and makes the grants behind it.
pub fn take_all<D: Disk, R: SavedThread + Drop>(
    alloc: Global,
    durable: &mut DurableBuild<D, R>,
    history: &mut IndexedHistory,
    event: Event,
) -> Result<Taken, TakeFault>
    requires running { durable.old.stopped ≡ false }
    requires begun { has_begun durable.old.build.phase ≡ true }
    requires settled { IsSettled durable.old.build }
    requires none { kept_fault history.old.items ≡ None }
    requires room { length history.old.items < history.old.capacity }
    ensures says { (es : List Entry) × (history.new.items ≡ history.old.items ++ es) × TakeSays R.stance durable.old.build event result es }
    ensures room { kept_fault history.new.items ≡ None → length history.new.items < history.new.capacity }
    ensures settled { kept_fault history.new.items ≡ None → IsSettled durable.new.build }
    ensures facts { (opening : Kept D R) → Facts D.Disk R.stance opening durable.old history.old.items
        → Facts D.Disk R.stance opening durable.new history.new.items }
{
    match take_one(alloc, durable, history, event) {
        Ok(Taken::Accepted) => {
            grant_all(alloc, durable, history);
            Ok(Taken::Accepted)
        }
        Ok(Taken::NotOpen) => Ok(Taken::NotOpen),
        Ok(Taken::WrongPlace { kept }) => Ok(Taken::WrongPlace { kept }),
        Ok(Taken::Finished) => Ok(Taken::Finished),
        Err(fault) => Err(fault),
    }
}
