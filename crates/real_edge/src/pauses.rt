//! How long a host waits between two looks.

ghost use Rattle.std.specs.Prelude.{◌≡◌, ◌≤◌, ◌↔◌, ◌*◌, ℕ, IsTrue, min};

use std::marker::Model;

/// The longest pause, in milliseconds: a quarter of a second.
const LONGEST: u64 = 250;

/// How long the next pause is: a millisecond after a start, then each time twice as long, up to a quarter of a second. Once
/// there is none there is none until the next beginning. Contracts see the milliseconds of the next one.
#[derive(Drop)]
pub struct Pauses {
    next: u64,
}

impl Model for Pauses {
    ghost Value = { ℕ };

    ghost view = { λ pauses. pauses.next };

    ghost invariant = { λ pauses. pauses.next ≤ 250 };
}

impl Pauses {
    /// The shortest pause is next.
    pub fn new() -> Self
        ensures { result ≡ 1 }
    {
        Pauses { next: 1 }
    }

    /// Whether the longest pause is next.
    pub fn is_longest(&self) -> bool
        ensures { IsTrue result ↔ (self.now ≡ 250) }
    {
        self.next == LONGEST
    }

    /// Whether there is no pause any more.
    pub fn are_over(&self) -> bool
        ensures { IsTrue result ↔ (self.now ≡ 0) }
    {
        self.next == 0
    }

    /// From now on there is no pause.
    pub fn end(&mut self)
        ensures { self.new ≡ 0 }
    {
        self.next = 0;
    }

    /// The milliseconds of the pause that begins now.
    pub fn take(&mut self) -> u64
        ensures taken { result ≡ self.old }
        ensures grows { self.new ≡ min (2 * self.old) 250 }
    {
        let now = self.next;
        self.next = LONGEST.min(2 * now);
        now
    }
}
