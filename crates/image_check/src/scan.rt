//! Tests made one after another.

ghost use Rattle.std.specs.Prelude.{◌≡◌, ℕ, Option, None};
ghost use Rattle.image_check.specs.declared.finding.Finding.{Finding as Found};
ghost use Rattle.image_check.specs.Findings.{in_thread, outside};
ghost use Rattle.image_check.specs.Scans.{each, need};
ghost use Rattle.std.specs.Option.{option_copied};

use crate::{CheckKind, Finding};

/// A test of an item of a list, which may look at what is around it and at the item before it.
pub(crate) trait Check<X, T> {
    /// What is known of what is around.
    ghost known: { X → Type 0 };

    ghost fault: { X → ℕ → Option T → T → Option Found };

    fn fault_of(around: &X, place: usize, before: Option<&T>, item: &T) -> Option<Finding>
        requires { known around.now }
        ensures { result ≡ fault around.now place (option_copied before.entry) item.now };
}

/// The first fault among the items of a list.
pub(crate) fn first_in<X, T, C: Check<X, T>>(around: &X, items: &[T]) -> Option<Finding>
    requires { C.known around.now }
    ensures { result ≡ each (C.fault around.now) 0 None items.now }
{
    let mut before = None;
    for (place, item) in items.iter().enumerate() {
        let found = C::fault_of(around, place, before, item);
        if found.is_some() {
            return found;
        }
        before = Some(item);
    }
    None
}

/// What must hold, and the fault where it does not.
pub(crate) fn need(holds: bool, fault: Finding) -> Option<Finding>
    ensures { result ≡ need holds fault }
{
    if holds { None } else { Some(fault) }
}

/// A fault outside all threads.
pub(crate) fn outside(kind: CheckKind) -> Finding
    ensures { result ≡ outside kind }
{
    Finding {
        thread: u32::MAX,
        frame: u32::MAX,
        kind,
    }
}

/// A fault of a thread outside all its frames.
pub(crate) fn in_thread(thread: u32, kind: CheckKind) -> Finding
    ensures { result ≡ in_thread thread kind }
{
    Finding {
        thread,
        frame: u32::MAX,
        kind,
    }
}
