//! The calls of the programs of agents, counted.

ghost use Rattle.std.specs.Prelude.{◌≡◌, MatchResult};
ghost use Rattle.real_edge.specs.Launches.{one_handed_over, one_failed, one_asked};

use crate::launcher::{Ask, Launcher};
use std::io;
use std::io::ErrorKind;
use std::process::Processes;
use std::rt::{Env, Files};
use std::time::Clock;

/// How often the programs of agents were called. Each count stands still at 18446744073709551615, its last value.
#[derive(Clone, Copy, Debug, PartialEq, Eq)]
pub struct Launches {
    /// Calls that handed a task over.
    pub handed_over: u64,
    /// Calls that were to hand a task over, and failed.
    pub failed: u64,
    /// Calls that asked whether a task lives.
    pub asked: u64,
}

/// The exit code that says that a task was handed over.
const HANDED_OVER: i32 = 0;

/// The exit code that says that nothing that was started lives any more.
const GONE: i32 = 1;

impl Launches {
    /// None was called.
    pub fn none() -> Launches
        ensures { result ≡ record { handed_over = 0; failed = 0; asked = 0 } }
    {
        Launches {
            handed_over: 0,
            failed: 0,
            asked: 0,
        }
    }

    /// Calls an agent's program to start the task of a control folder, once.
    ///
    /// # Errors
    ///
    /// Where it cannot be called, where it is killed, as it is after a minute, and where it ends with another code than 0.
    pub fn hand_over<R: Files + Env + AllocGlobal + Clock + Processes>(
        &mut self,
        rt: &R,
        launcher: &Launcher,
        folder: &str,
    ) -> io::Result<()>
        ensures counted { MatchResult result (λ _. self.new ≡ one_handed_over self.old) (λ _. self.new ≡ one_failed self.old) }
    {
        let reason = match launcher.ask(rt, Ask::Start, folder) {
            Ok(Some(HANDED_OVER)) => {
                self.handed_over = self.handed_over.saturating_add(1);
                return Ok(());
            }
            Ok(Some(_)) => io::Error::new(ErrorKind::Other, "its agent's launch failed"),
            Ok(None) => io::Error::new(
                ErrorKind::TimedOut,
                "its agent's launch was killed, as it is after a minute",
            ),
            Err(reason) => reason,
        };
        self.failed = self.failed.saturating_add(1);
        Err(reason)
    }

    /// Asks an agent's program, once, whether all that it started for a control folder is gone. Any other answer than this
    /// one, or none, is no.
    pub fn are_gone<R: Files + Env + AllocGlobal + Clock + Processes>(
        &mut self,
        rt: &R,
        launcher: &Launcher,
        folder: &str,
    ) -> bool
        ensures counted { self.new ≡ one_asked self.old }
    {
        self.asked = self.asked.saturating_add(1);
        matches!(launcher.ask(rt, Ask::Alive, folder), Ok(Some(GONE)))
    }
}
