//! What is found in a control folder, and what becomes of it.

ghost use Rattle.std.specs.Prelude.{◌≡◌};

use crate::fate::Fate;
use crate::machine::Boot;

/// How far the start of a folder's task has come. A permit tells of which boot it is.
#[derive(Clone, Copy, Debug, PartialEq, Eq)]
pub enum Mark {
    /// Neither of the others.
    Nothing,
    /// A file `permit`: nobody has run the script, and whoever takes the file may.
    Permit(Boot),
    /// A file `started`: somebody took the permit.
    Started,
    /// A file `revoked`: the permit was withdrawn, so nobody has run the script and nobody will.
    Withdrawn,
}

/// What is found in a control folder.
#[derive(Clone, Copy, Debug, PartialEq, Eq)]
pub struct Facts {
    /// Whether it is this build's.
    pub is_own: bool,
    pub mark: Mark,
    /// Whether its task has ended.
    pub has_result: bool,
    pub has_log: bool,
    /// What is known of the process of its task.
    pub fate: Fate,
}

/// What becomes of a control folder that is found where one is to be made.
#[derive(Clone, Copy, Debug, PartialEq, Eq)]
pub enum Verdict {
    /// It is this build's, and its task may have been started.
    Keep,
    /// Its permit is withdrawn, if it is still there. Then the folder goes.
    Withdraw,
    /// It goes: its task was not started, or is another build's and cannot be running.
    Discard,
    /// It is not this build's, and its task may be running elsewhere, as the program that started it can tell.
    Ask,
    /// It is not this build's, and its task may be running.
    Refuse,
}

impl Facts {
    ghost use Rattle.control_folders.specs.Verdict.{verdict_of};

    /// What becomes of a folder of which this was found.
    pub fn verdict(&self) -> Verdict
        ensures verdict { result ≡ verdict_of self.now }
    {
        match (self.is_own, self.has_result) {
            (true, true) => Verdict::Keep,
            (true, false) => self.own_verdict(),
            (false, true) => Verdict::Discard,
            (false, false) => self.others_verdict(),
        }
    }

    ghost use Rattle.control_folders.specs.Verdict.{own_verdict, others_verdict};

    // Of this build's own folder without a result.
    fn own_verdict(&self) -> Verdict
        ensures verdict { result ≡ own_verdict self.now.mark self.now.has_log }
    {
        match self.mark {
            Mark::Permit(Boot::Same) => Verdict::Withdraw,
            Mark::Permit(_) | Mark::Started => Verdict::Keep,
            Mark::Withdrawn => Verdict::Discard,
            Mark::Nothing if self.has_log => Verdict::Keep,
            Mark::Nothing => Verdict::Discard,
        }
    }

    // Of a folder without a result that is not this build's.
    fn others_verdict(&self) -> Verdict
        ensures verdict { result ≡ others_verdict self.now.mark self.now.has_log self.now.fate }
    {
        match self.mark {
            Mark::Permit(_) => Verdict::Withdraw,
            Mark::Started => self.fate.others_verdict(),
            Mark::Withdrawn => Verdict::Discard,
            Mark::Nothing if self.has_log => Verdict::Refuse,
            Mark::Nothing => Verdict::Discard,
        }
    }
}

impl Fate {
    ghost use Rattle.control_folders.specs.Verdict.{started_verdict};

    // Of the folder of another build's task that was started, and has no result.
    fn others_verdict(self) -> Verdict
        ensures verdict { result ≡ started_verdict self }
    {
        match self {
            Fate::Gone | Fate::OtherBoot => Verdict::Discard,
            Fate::Elsewhere => Verdict::Ask,
            Fate::Lives | Fate::Unknown => Verdict::Refuse,
        }
    }
}
