//! Why a command does not write what it is for, and what it writes then.
ghost use Rattle.std.specs.Prelude.{◌≡◌};
ghost use Rattle.build_commands.specs.Refusals.{SaysBegin, SaysTake, TellsFault, refusal_status, refusal_text};
ghost use Rattle.build_commands.specs.Writing as writing;
ghost use Rattle.build_commands.specs.Writing.{Writes};

use build_life::build_store::BeginFault;
use build_life::durable_build::{StoreFault, TakeFault};
use jp_io::{Sink, write_all};
use model_text::Text;
use std::alloc::Global;

/// Why a command does not write what it is for.
#[derive(Drop)]
pub enum Refusal {
    /// A source failed.
    ReadFailed,
    /// The agents file has a fault, and this text tells its path.
    AgentsRefused(Text),
    /// The script has more bytes than it may have.
    TooLong,
    /// The script has a fault, and this text tells its place.
    ScriptRefused(String),
    /// The disk failed.
    DiskFailed,
    /// There was no memory.
    OutOfMemory,
    /// The record of the next event does not fit into the store, and this text tells the length of its journal, and what the record would
    /// add.
    Full(String),
    /// The store has a record, or the beginning of one.
    HasBuild,
    /// The store has no record.
    NoBuild,
    /// The store is damaged, and this text tells where.
    Damaged(String),
}

impl Refusal {
    /// The refusal that tells a fault of a store. That of a damaged one needs memory for its text.
    pub fn of_store(alloc: Global, fault: StoreFault) -> Refusal
        ensures { TellsFault fault result }
    {
        match fault {
            StoreFault::Memory => Refusal::OutOfMemory,
            StoreFault::Disk => Refusal::DiskFailed,
            StoreFault::Empty => Refusal::NoBuild,
            StoreFault::Damaged { at } => match format!(in alloc;
                "program.dat: damaged at {at}\n"
            ) {
                Ok(text) => Refusal::Damaged(text),
                Err(_) => Refusal::OutOfMemory,
            },
        }
    }

    /// The refusal that tells why an event was not taken. That of a full store needs memory for its text. `Stopped` comes only behind
    /// an earlier fault, which no command lives to see.
    pub fn of_take(alloc: Global, fault: TakeFault) -> Refusal
        ensures { SaysTake fault result }
    {
        match fault {
            TakeFault::Memory | TakeFault::Stopped => Refusal::OutOfMemory,
            TakeFault::Disk => Refusal::DiskFailed,
            TakeFault::Full { len, add } => {
                match format!(in alloc; "program.dat: full: {len} + {add} > 1073741824\n") {
                    Ok(text) => Refusal::Full(text),
                    Err(_) => Refusal::OutOfMemory,
                }
            }
        }
    }

    /// The refusal that tells why a build was not begun.
    pub fn of_begin(alloc: Global, fault: BeginFault) -> Refusal
        ensures { SaysBegin fault result }
    {
        match fault {
            BeginFault::HasBuild => Refusal::HasBuild,
            BeginFault::Take(fault) => Refusal::of_take(alloc, fault),
        }
    }

    /// The exit status of the program.
    pub fn status(&self) -> u8
        ensures { result ≡ refusal_status self.now }
    {
        match self {
            Refusal::TooLong | Refusal::ScriptRefused(_) => 4,
            Refusal::DiskFailed => 5,
            Refusal::ReadFailed => 6,
            Refusal::OutOfMemory => 8,
            Refusal::HasBuild | Refusal::NoBuild | Refusal::Damaged(_) => 9,
            Refusal::AgentsRefused(_) => 13,
            Refusal::Full(_) => 14,
        }
    }

    /// What is written to standard output.
    pub fn text(&self) -> &[u8]
        ensures { result.now ≡ refusal_text self.now }
    {
        match self {
            Refusal::ReadFailed => b"controller: read failed\n",
            Refusal::AgentsRefused(text) => text.as_slice(),
            Refusal::TooLong => b"Jenkinsfile: longer than 1048576 bytes\n",
            Refusal::ScriptRefused(text) => text.as_bytes(),
            Refusal::DiskFailed => b"controller: disk failed\n",
            Refusal::OutOfMemory => b"controller: out of memory\n",
            Refusal::HasBuild => b"program.dat: already has a build\n",
            Refusal::NoBuild => b"program.dat: no build\n",
            Refusal::Damaged(text) | Refusal::Full(text) => text.as_bytes(),
        }
    }
}

/// Writes the text of a refusal, and answers the exit status. A text that is not written whole leaves the status as it is.
pub fn tell<K: Sink>(out: &mut K, refusal: &Refusal) -> u8
    ensures status { result ≡ refusal_status refusal.now }
    ensures text { writing.Tells (K.written out.old) (K.written out.new) (K.faults out.old) (K.faults out.new) (refusal_text refusal.now) }
{
    let _ = write_all(out, refusal.text());
    refusal.status()
}

/// The status of a call whose text could not be written whole.
const WRITE_FAILED: u8 = 7;

/// Writes the text that a command is for, and answers the exit status: this one, or 7 where it was not written whole.
pub fn tell_text<K: Sink>(out: &mut K, text: &[u8], status: u8) -> u8
    ensures { Writes (K.written out.old) (K.written out.new) (K.faults out.old) (K.faults out.new) text.now status result }
{
    match write_all(out, text) {
        Ok(()) => status,
        Err(_) => WRITE_FAILED,
    }
}
