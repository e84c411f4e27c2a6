//! What threads wait for, and their contexts.

ghost use Rattle.std.specs.Prelude.{◌≡◌};
ghost use Rattle.field_form.specs.Waits.{end_form};
ghost use Rattle.record_form.specs.Sizes.{size_in};

use crate::Measured;
use model_run::{Context, Join, JoinEnd, Wait};

impl Measured for Join {
    fn size(&self) -> u64 {
        self.name
            .size()
            .saturating_add(end_size(&self.ended))
            .saturating_add(4)
    }
}

fn end_size(end: &Option<JoinEnd>) -> u64
    ensures { result ≡ size_in end_form end.now }
{
    match end {
        None => 2,
        Some(end) => end.outcome.size().saturating_add(10),
    }
}

impl Measured for Wait {
    fn size(&self) -> u64 {
        match self {
            Wait::Ready(_) | Wait::Request(_) => 5,
            Wait::Branches(joins) => joins.size().saturating_add(1),
        }
    }
}

impl Measured for Context {
    fn size(&self) -> u64 {
        self.held
            .size()
            .saturating_add(self.folders.size())
            .saturating_add(self.env.size())
    }
}
