//! Whether what rises in a delta does so.

ghost use Rattle.std.specs.Prelude.{◌≡◌};
ghost use Rattle.std.specs.declared.cmp.Ordering.{Ordering};
ghost use Rattle.std.specs.Ordering.{is_lt, nat_cmp, on};
ghost use Rattle.std.specs.Cmp.Lexicographic.{slice_cmp};
ghost use Rattle.delta_form.specs.Changes.{rising};
ghost use Rattle.delta_form.specs.After.{in_order};
ghost use Rattle.delta_form.specs.Numbers.{written_number};

use crate::numbered::Numbered;
use crate::{Delta, NumberedCell, WrittenRequest, WrittenThread};
use model_run::Held;
use model_values::Binding;

/// An item of a list that rises.
pub(crate) trait Ordered {
    ghost order: { Self → Self → Ordering };

    /// Whether the next item may stand behind it.
    fn is_below(&self, next: &Self) -> bool
        ensures { result ≡ is_lt (order self.now next.now) };
}

impl Ordered for Binding {
    ghost order = { on (λ b. b.name) (slice_cmp nat_cmp) };

    fn is_below(&self, next: &Binding) -> bool {
        self.name.cmp(&next.name).is_lt()
    }
}

impl Ordered for Held {
    ghost order = { on (λ h. h.executor) nat_cmp };

    fn is_below(&self, next: &Held) -> bool {
        self.executor.cmp(&next.executor).is_lt()
    }
}

impl Ordered for u32 {
    ghost order = { nat_cmp };

    fn is_below(&self, next: &u32) -> bool {
        self.cmp(next).is_lt()
    }
}

impl Ordered for NumberedCell {
    ghost order = { on (λ c. c.number) nat_cmp };

    fn is_below(&self, next: &NumberedCell) -> bool {
        self.number.cmp(&next.number).is_lt()
    }
}

impl Ordered for WrittenRequest {
    ghost order = { on written_number nat_cmp };

    fn is_below(&self, next: &WrittenRequest) -> bool {
        self.number().cmp(&next.number()).is_lt()
    }
}

impl Ordered for WrittenThread {
    ghost order = { on (λ w. w.number) nat_cmp };

    fn is_below(&self, next: &WrittenThread) -> bool {
        self.number.cmp(&next.number).is_lt()
    }
}

/// Whether each list of the delta rises that is to.
pub(crate) fn is_in_order(delta: &Delta) -> bool
    ensures { result ≡ in_order delta.now }
{
    rises(delta.bindings.as_slice())
        && rises(delta.cells.as_slice())
        && rises(delta.closed_requests.as_slice())
        && rises(delta.requests.as_slice())
        && rises(delta.held.as_slice())
        && rises(delta.ended_threads.as_slice())
        && rises(delta.threads.as_slice())
}

/// Whether each item is below the next one.
fn rises<T: Ordered>(items: &[T]) -> bool
    ensures { result ≡ rising T.order items.now }
{
    for place in 1..items.len() {
        if !items[place - 1].is_below(&items[place]) {
            return false;
        }
    }
    true
}
