//! When an agent's program is asked whether a task elsewhere lives.

ghost use Rattle.std.specs.Prelude.{◌≡◌, ◌↔◌, IsTrue, false};
ghost use Rattle.real_edge.specs.Asks.{looks_between, look_on, answered, is_lost};

/// When an agent's program is asked whether a task lives, by the looks at the task, which are a quarter of a second apart:
/// seldom, since whom it asks in turn may serve many.
#[derive(Clone, Copy, Debug, PartialEq, Eq)]
pub struct Asks {
    /// How many looks go by before it is asked.
    pub rest: u8,
    /// Whether the last answer was that the task is gone.
    pub was_gone: bool,
}

impl Asks {
    /// It is asked at the next look.
    pub fn new() -> Asks
        ensures { result ≡ record { rest = 0; was_gone = false } }
    {
        Asks {
            rest: 0,
            was_gone: false,
        }
    }

    /// Counts a look, and says whether it is asked at this one.
    pub fn is_due(&mut self) -> bool
        ensures due { IsTrue result ↔ (self.old.rest ≡ 0) }
        ensures counted { self.new ≡ look_on self.old }
    {
        let is_due = self.rest == 0;
        self.rest = self.rest.saturating_sub(1);
        is_due
    }

    /// Takes an answer: whether the task is gone. Says whether the task is lost: two answers in a row were that it is gone.
    pub fn take(&mut self, is_gone: bool) -> bool
        ensures lost { result ≡ is_lost self.old is_gone }
        ensures next { self.new ≡ answered self.old is_gone }
    {
        let is_lost = is_gone && self.was_gone;
        self.was_gone = is_gone;
        self.rest = looks_between(is_gone) - 1;
        is_lost
    }
}

// How many looks there are from one question to the next, behind this answer.
fn looks_between(is_gone: bool) -> u8
    ensures { result ≡ looks_between is_gone }
{
    if is_gone { 4 } else { 20 }
}
