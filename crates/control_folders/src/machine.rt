//! Which machine a process runs on, since which start of it, and in which table of processes.

use std::alloc::{AllocError, Global};
use std::io::ErrorKind;
use std::rt::Files;
use std::{fs, io};

/// Whether two marks are of one boot of one machine.
#[derive(Clone, Copy, Debug, PartialEq, Eq)]
pub enum Boot {
    /// They are.
    Same,
    /// They are not: since one of them the machine was started again, or it is another machine.
    Other,
    /// One of them does not say.
    Unknown,
}

/// Where the kernel tells the random number of this boot.
const BOOT: &str = "/proc/sys/kernel/random/boot_id";

/// Where it tells the table of processes of whoever asks: programs in one container have one, and see no process of
/// another.
const PROCESSES: &str = "/proc/self/ns/pid";

/// What stands in the place of a word that the system does not tell.
const UNTOLD: &str = "-";

/// Which boot of a machine this is, and which table of processes, as a line of two words.
#[derive(Drop)]
pub struct Machine {
    line: String,
}

impl Machine {
    /// That of this program.
    ///
    /// # Errors
    ///
    /// Where there is no memory.
    pub fn own<R: Files + AllocGlobal>(rt: &R) -> io::Result<Machine> {
        let boot = told(rt.alloc(), fs::read_to_string(rt, BOOT))?;
        let processes = match fs::read_link(rt, PROCESSES) {
            Ok(link) => String::from_str(rt.alloc(), link.as_path().as_str())?,
            Err(_) => String::from_str(rt.alloc(), UNTOLD)?,
        };
        let boot = boot.as_str().trim();
        let processes = processes.as_str().trim();
        let line = format!(in rt.alloc(); "{boot} {processes}\n")?;
        Ok(Machine { line })
    }

    /// The line.
    pub fn line(&self) -> &str {
        self.line.as_str()
    }

    /// Whether another line is of the same boot. A file that has lost its line is of another one: it got its name once all
    /// of it was written, so only a power cut can have taken the line.
    pub fn boot(&self, other: &str) -> Boot {
        let Some(other) = other.split_whitespace().next() else {
            return Boot::Other;
        };
        match word(self.line(), 0) {
            Some(own) if own == other => Boot::Same,
            Some(_) if other != UNTOLD => Boot::Other,
            _ => Boot::Unknown,
        }
    }

    /// Whether another line is known to be of the same boot and the same table of processes.
    pub fn sees_processes_of(&self, other: &str) -> bool {
        match (word(self.line(), 1), word(other, 1)) {
            (Some(own), Some(table)) => own == table && self.boot(other) == Boot::Same,
            _ => false,
        }
    }
}

// A text of the system; where it cannot be read, that it is not told.
fn told(alloc: Global, text: io::Result<String>) -> Result<String, AllocError> {
    match text {
        Ok(text) if !text.as_str().trim().is_empty() => Ok(text),
        Err(error) if error.kind() == ErrorKind::OutOfMemory => Err(AllocError),
        _ => String::from_str(alloc, UNTOLD),
    }
}

// The word of a line at this place, counted from 0. None where it is not told.
fn word(line: &str, place: usize) -> Option<&str> {
    match line.split_whitespace().nth(place) {
        Some(word) if word != UNTOLD => Some(word),
        _ => None,
    }
}
