//! Whether two threads wait for the same, in the same bodies.

ghost use Rattle.std.specs.Prelude.{◌≡◌, ◌↔◌, IsTrue};

use crate::same::Same;
use model_run::{Answer, BranchEnd, Context, Join, Wait};

impl Same for BranchEnd {
    fn is_same(&self, other: &BranchEnd) -> bool {
        self == other
    }
}

impl Same for Join {
    fn is_same(&self, other: &Join) -> bool {
        self == other
    }
}

impl Same for Answer {
    fn is_same(&self, other: &Answer) -> bool {
        match (self, other) {
            (Answer::Begin, Answer::Begin) => true,
            (Answer::Granted(a), Answer::Granted(b)) => *a == *b,
            (Answer::Done { code: a, out: put }, Answer::Done { code: b, out: puts }) => {
                *a == *b && put.is_same(puts)
            }
            (
                Answer::Decided {
                    proceed: a,
                    name: named,
                },
                Answer::Decided {
                    proceed: b,
                    name: names,
                },
            ) => *a == *b && named == names,
            (Answer::Joined(a), Answer::Joined(b)) => a.is_same(b),
            _ => false,
        }
    }
}

impl Same for Wait {
    fn is_same(&self, other: &Wait) -> bool {
        match (self, other) {
            (Wait::Ready(a), Wait::Ready(b)) => a.is_same(b),
            (Wait::Request(a), Wait::Request(b)) => *a == *b,
            (Wait::Branches(a), Wait::Branches(b)) => a.is_same(b),
            _ => false,
        }
    }
}

impl Same for Context {
    fn is_same(&self, other: &Context) -> bool {
        self.held.is_same(&other.held)
            && self.folders.is_same(&other.folders)
            && self.env.is_same(&other.env)
    }
}
