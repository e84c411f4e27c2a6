//! The count of the faults of one device.
ghost use Rattle.std.specs.Prelude.{◌≡◌, ℕ, Some, codes};
ghost use Rattle.device_faults.specs.Faults.{Rose, counted};

use std::fmt;
use std::marker::Model;

/// A call that the device did not do, or did only in part.
#[derive(Clone, Copy, Debug, PartialEq, Eq)]
pub struct Failed;

impl fmt::Display for Failed {
    ghost output = { λ _. Some (codes "the device failed") };

    fn fmt<W: fmt::Write>(&self, f: &mut fmt::Formatter<W>) -> fmt::Result {
        f.write_str("the device failed")
    }
}

impl std::error::Error for Failed {}

/// How often a device has failed. Contracts see the number.
///
/// The count never falls. At 18446744073709551615, its last value, it stands still.
#[derive(Debug, Drop)]
pub struct Faults {
    count: u64,
}

impl Model for Faults {
    ghost Value = { ℕ };

    ghost view = { λ faults. faults.count };
}

impl Faults {
    /// No fault so far.
    pub fn new() -> Self
        ensures { result ≡ 0 }
    {
        Faults { count: 0 }
    }

    /// Counts one fault more, and gives what the failing call answers.
    pub fn rise(&mut self) -> Failed
        ensures counted { self.new ≡ counted self.old }
        ensures rose { Rose self.old self.new }
    {
        self.count = self.count.saturating_add(1);
        Failed
    }
}
