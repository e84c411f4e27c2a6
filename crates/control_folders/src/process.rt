//! A process of the system.

use std::rt::Files;
use std::{fs, io};

/// A process, as a line of the kernel tells it. Another process may get its number once it has ended, but not one that
/// began at the same tick of the clock.
#[derive(Clone, Copy, Debug, PartialEq, Eq)]
pub struct Process<'a> {
    /// Its number.
    pub number: &'a str,
    /// What it does, as one letter.
    pub state: &'a str,
    /// When it began, in ticks since the machine was started.
    pub began: &'a str,
}

/// The place of the time of its beginning in a line of `/proc/N/stat`, counted from 0 at the field behind its name.
const BEGAN: usize = 19;

impl<'a> Process<'a> {
    /// The process that a line of `/proc/N/stat` tells: its number, its name in parentheses, which may have any bytes, its
    /// state, and further numbers. `None` where it is no such line.
    pub fn parse(line: &'a str) -> Option<Process<'a>> {
        let (number, _) = line.split_once(' ')?;
        let (_, behind) = line.rsplit_once(')')?;
        let state = behind.split_whitespace().next()?;
        let began = behind.split_whitespace().nth(BEGAN)?;
        Some(Process {
            number,
            state,
            began,
        })
    }

    // Whether it has ended, and its parent has only to ask for its end.
    fn has_ended(&self) -> bool {
        self.state == "Z" || self.state == "X"
    }

    /// Whether it is there. `None` where the system does not tell.
    ///
    /// # Errors
    ///
    /// Where there is no memory.
    pub fn is_there<R: Files + AllocGlobal>(&self, rt: &R) -> io::Result<Option<bool>> {
        let number = self.number;
        let path = format!(in rt.alloc(); "/proc/{number}/stat")?;
        if !fs::exists(rt, "/proc/self/stat")? {
            return Ok(None);
        }
        if !fs::exists(rt, path.as_str())? {
            return Ok(Some(false));
        }
        let Ok(line) = fs::read_to_string(rt, path.as_str()) else {
            return Ok(None);
        };
        Ok(Process::parse(line.as_str()).map(|found| found.began == self.began
            && !found.has_ended()))
    }
}
