//! The calls at which a device in memory fails on purpose.
ghost use Rattle.std.specs.Prelude.{◌≡◌, ◌↔◌, IsTrue};
ghost use Rattle.device_faults.specs.Faults.{Rose, counted};
ghost use Rattle.device_faults.specs.Calls.{begun, NextFails, after_call};

use crate::{Failed, Faults};
use std::marker::Model;

/// The calls of a device in memory: which of them fail, and how many were made, how many of them failed, and
/// how many of these because memory was refused.
///
/// Calls are numbered from 1 in the order in which they are made. Each count stands still at
/// 18446744073709551615, its last value, so calls past it all have this number.
#[derive(Debug, Drop)]
pub struct FailingCalls {
    fail_at: Vec<u64>,
    made: u64,
    faults: Faults,
    refused: u64,
}

impl Model for FailingCalls {
    ghost use Rattle.device_faults.specs.Calls.{Calls};

    ghost Value = { Calls };

    ghost view = { λ calls. record { fail_at = calls.fail_at.items; made = calls.made; faults = calls.faults; refused = calls.refused } };
}

impl FailingCalls {
    /// The calls with these numbers fail. A number that stands twice counts once. No call was made.
    pub fn new(fail_at: Vec<u64>) -> Self
        ensures { result ≡ begun fail_at.items }
    {
        FailingCalls {
            fail_at,
            made: 0,
            faults: Faults::new(),
            refused: 0,
        }
    }

    /// Counts a call, and says whether it is one of those that fail.
    pub fn next_fails(&mut self) -> bool
        ensures fails { IsTrue result ↔ NextFails self.old }
        ensures counted { self.new ≡ after_call self.old }
    {
        self.made = self.made.saturating_add(1);
        self.fail_at.contains(&self.made)
    }

    /// Counts that a call failed, and gives what it answers.
    pub fn fail(&mut self) -> Failed
        ensures counted { self.new ≡ record self.old { faults = counted self.old.faults } }
        ensures rose { Rose self.old.faults self.new.faults }
    {
        self.faults.rise()
    }

    /// Counts that a call failed because memory for it was refused, and gives what it answers.
    pub fn refuse(&mut self) -> Failed
        ensures counted { self.new ≡ record self.old { faults = counted self.old.faults; refused = counted self.old.refused } }
        ensures rose { Rose self.old.faults self.new.faults }
    {
        self.refused = self.refused.saturating_add(1);
        self.faults.rise()
    }

    /// How many calls failed because memory for them was refused.
    pub fn refused(&self) -> u64
        ensures { result ≡ self.now.refused }
    {
        self.refused
    }
}
