//! When a task is known not to come back.

ghost use Rattle.std.specs.Prelude.{◌≡◌};
ghost use Rattle.real_edge.specs.Loss.{ends_after, loss_after};

use control_folders::Fate;
use std::fmt;

/// Why a task that was started can leave no result any more.
#[derive(Clone, Copy, Debug, PartialEq, Eq)]
pub enum Loss {
    /// The machine was started again since the task was, or it is another machine.
    OtherBoot,
    /// Its process is not there any more.
    Gone,
    /// The process that was started has ended, and who else may run the script is not known.
    Unfinished,
    /// The program that started it elsewhere says that it is gone.
    GoneElsewhere,
}

impl fmt::Display for Loss {
    fn fmt<W: fmt::Write>(&self, f: &mut fmt::Formatter<W>) -> fmt::Result {
        f.write_str(match self {
            Loss::OtherBoot => "it was started before this machine was, or on another one",
            Loss::Gone => "its shell is not there any more, and left no result",
            Loss::Unfinished => "its shell has ended, and left no result",
            Loss::GoneElsewhere => "its agent's launch says that it is gone, and it left no result",
        })
    }
}

/// How many looks in a row, a quarter of a second apart, found that a task has ended without a result: 4 take a second.
#[derive(Clone, Copy, Drop)]
pub struct Ends {
    pub looks: u8,
}

/// How many looks find a process gone before its task is lost.
const GONE: u8 = 4;

/// How many looks find a child ended before its task is lost, where nothing is known of the process that took the permit:
/// a process of an earlier life may have taken it, and be about to say so.
const ENDED: u8 = 20;

impl Ends {
    /// None has.
    pub fn none() -> Ends
        ensures { result.looks ≡ 0 }
    {
        Ends { looks: 0 }
    }

    /// Counts one more look, which found this fate of the process, and whether the child that was started for the task has
    /// ended. Answers why the task is lost; `None` where it may come back.
    pub fn loss(&mut self, fate: Fate, has_ended: bool) -> Option<Loss>
        ensures counted { self.new.looks ≡ ends_after self.old.looks fate has_ended }
        ensures lost { result ≡ loss_after self.new.looks fate has_ended }
    {
        self.looks = match fate {
            Fate::Gone => self.looks.saturating_add(1),
            Fate::Unknown if has_ended => self.looks.saturating_add(1),
            _ => 0,
        };
        match fate {
            Fate::OtherBoot => Some(Loss::OtherBoot),
            Fate::Gone if self.looks >= GONE => Some(Loss::Gone),
            Fate::Unknown if has_ended && self.looks >= ENDED => Some(Loss::Unfinished),
            _ => None,
        }
    }
}
