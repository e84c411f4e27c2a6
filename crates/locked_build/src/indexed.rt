//! A history, with what it says of faults and claims at hand.
ghost use Rattle.std.specs.Prelude.{◌≡◌, ◌<◌, ◌≤◌, ◌+◌, ◌++◌, ◌∷◌, [], length, vec_capacity, None, OnOk, OnErr};
ghost use Rattle.locked_build.specs.Histories.{kept_fault, is_claimed, claims};

use crate::ask::{Entry, History};
use journal_core::TakeFault;
use std::alloc::{AllocError, Global};
use std::marker::Model;
use task_host::Order;

/// What happened in one life, in order, with the fault that is kept and the tasks that were claimed, so that neither is looked for
/// in all that happened.
#[derive(Drop)]
pub struct IndexedHistory {
    entries: History,
    fault: Option<TakeFault>,
    claimed: Vec<u32>,
}

impl Model for IndexedHistory {
    ghost use Rattle.std.specs.Prelude.{◌≡◌, vec_capacity};
    ghost use Rattle.locked_build.specs.Histories.{Past, kept_fault, claims};

    ghost Value = { Past };

    ghost view = { λ h. record { items = h.entries.items; capacity = vec_capacity h.entries } };

    ghost invariant = { λ h. (h.fault ≡ kept_fault h.entries.items) × (h.claimed.items ≡ claims h.entries.items) };
}

impl IndexedHistory {
    /// A history in which nothing has happened.
    pub fn new(alloc: Global) -> IndexedHistory
        ensures items { result.items ≡ [] }
    {
        IndexedHistory {
            entries: Vec::new(alloc),
            fault: None,
            claimed: Vec::new(alloc),
        }
    }

    /// Makes room for so many entries more. `AllocError` where the memory was refused.
    pub fn reserve(&mut self, additional: usize) -> Result<(), AllocError>
        ensures items { self.new.items ≡ self.old.items }
        ensures ok { OnOk result (length self.new.items + additional ≤ self.new.capacity) }
        ensures capacity { self.old.capacity ≤ self.new.capacity }
        ensures err { OnErr result (self.new.capacity ≡ self.old.capacity) }
    {
        self.entries.reserve(additional)
    }

    /// Puts an entry behind the others that is no claim, where there is room for one.
    pub fn push(&mut self, entry: Entry)
        requires room { length self.old.items < self.old.capacity }
        requires no_claim { claims (entry ∷ []) ≡ [] }
        ensures items { self.new.items ≡ self.old.items ++ entry ∷ [] }
        ensures capacity { self.new.capacity ≡ self.old.capacity }
    {
        self.fault = self.fault.or(fault_in(&entry));
        self.entries.push_reserved(entry);
    }

    /// Notes that the task of an order was claimed for this executor, and leaves room for one entry more. `AllocError` where the memory
    /// was refused; then nothing is noted.
    pub fn push_claim(&mut self, executor: u32, order: &Order) -> Result<(), AllocError>
        ensures items { OnOk result (self.new.items ≡ self.old.items ++ Entry.Claimed executor order.now.task order.now.keep_out order.now.kept_log order.now.kept_out ∷ []) }
        ensures room { OnOk result (length self.new.items < self.new.capacity) }
        ensures capacity { self.old.capacity ≤ self.new.capacity }
        ensures same { OnErr result (self.new.items ≡ self.old.items) }
    {
        self.claimed.reserve(1)?;
        self.entries.reserve(2)?;
        self.claimed.push_reserved(order.task);
        self.entries.push_reserved(Entry::Claimed {
            executor,
            task: order.task,
            keep_out: order.keep_out,
            kept_log: order.kept_log,
            kept_out: order.kept_out,
        });
        Ok(())
    }

    /// The fault that is kept.
    pub fn fault(&self) -> Option<TakeFault>
        ensures { result ≡ kept_fault self.now.items }
    {
        self.fault
    }

    /// Whether this task was claimed.
    pub fn is_claimed(&self, task: u32) -> bool
        ensures { result ≡ is_claimed task self.now.items }
    {
        self.claimed.contains(&task)
    }

    /// What happened.
    pub fn entries(&self) -> &[Entry]
        ensures { result.now ≡ self.now.items }
    {
        self.entries.as_slice()
    }

    /// What happened, without its index.
    pub fn into_entries(self) -> History
        ensures { result.items ≡ self.items }
    {
        self.entries
    }
}

/// The fault that an entry tells.
fn fault_in(entry: &Entry) -> Option<TakeFault>
    ensures { result ≡ kept_fault (entry.now ∷ []) }
{
    match entry {
        Entry::Failed { fault, .. } => Some(*fault),
        Entry::Took(_) | Entry::Claimed { .. } | Entry::Line(_) => None,
    }
}
