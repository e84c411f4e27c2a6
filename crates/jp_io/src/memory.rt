//! A source and a sink in memory, which tell their bytes and fail at the calls that are listed.
ghost use Rattle.std.specs.Prelude.{◌≡◌, ◌≤◌, ◌<◌, [], Some, length, min, IfOk, IsErr};
ghost use Rattle.std.specs.Io.KnownBytes.{ReadConsumes, WriteAppends};
ghost use Rattle.device_faults.specs.Faults.{HasCause};
ghost use Rattle.device_faults.specs.Calls.{begun, NextFails, IsOneCall};

use crate::unread::Unread;
use crate::{Sink, Source};
use device_faults::{Failed, FailingCalls};
use std::alloc::Global;
use std::marker::Model;

/// A source of these bytes, whose calls with the listed numbers, counted from 1, fail, and no others.
#[derive(Debug, Drop)]
pub struct MemorySource {
    unread: Unread,
    calls: FailingCalls,
}

impl Model for MemorySource {
    ghost use Rattle.jp_io.specs.Memory.{SourceState};

    ghost Value = { SourceState };

    ghost view = { λ source. record { left = source.unread; calls = source.calls } };
}

impl MemorySource {
    /// All of the bytes are still to come, no call was made, and none has failed.
    pub fn new(bytes: Vec<u8>, fail_at: Vec<u64>) -> Self
        ensures { result ≡ record { left = bytes.items; calls = begun fail_at.items } }
    {
        MemorySource {
            unread: Unread::new(bytes),
            calls: FailingCalls::new(fail_at),
        }
    }
}

impl Source for MemorySource {
    ghost left = { λ source. Some source.left };

    ghost faults = { λ source. source.calls.faults };

    /// As the trait says. Beside it: the call fails exactly where it is listed, and else gives as many bytes as
    /// there are and the buffer has room for.
    fn read(&mut self, buf: &mut [u8]) -> Result<usize, Failed>
        ensures one_call { IsOneCall (NextFails self.old.calls) (IsErr result) self.old.calls self.new.calls }
        ensures only_listed { IsErr result → NextFails self.old.calls }
        ensures all_there_is { IfOk result (λ n. n ≡ min (length buf.old) (length self.old.left)) }

        ensures count { IfOk result (λ n. n ≤ length buf.new) }
        ensures bytes { ReadConsumes (Some self.old.left) (Some self.new.left) result buf.new }
        ensures cause { HasCause self.old.calls.faults self.new.calls.faults result }
    {
        if self.calls.next_fails() {
            return Err(self.calls.fail());
        }
        Ok(self.unread.read(buf))
    }
}

/// A sink that keeps its bytes, whose calls with the listed numbers, counted from 1, fail. Where memory is
/// refused for the bytes of a call, that call fails too, and is counted as refused. No other call fails.
#[derive(Debug, Drop)]
pub struct MemorySink {
    bytes: Vec<u8>,
    calls: FailingCalls,
}

impl Model for MemorySink {
    ghost use Rattle.jp_io.specs.Memory.{SinkState};

    ghost Value = { SinkState };

    ghost view = { λ sink. record { written = sink.bytes.items; calls = sink.calls } };
}

impl MemorySink {
    /// Nothing was written, no call was made, and none has failed.
    pub fn new(alloc: Global, fail_at: Vec<u64>) -> Self
        ensures { result ≡ record { written = []; calls = begun fail_at.items } }
    {
        MemorySink {
            bytes: Vec::new(alloc),
            calls: FailingCalls::new(fail_at),
        }
    }

    /// What was written.
    pub fn bytes(&self) -> &[u8]
        ensures { result.now ≡ self.now.written }
    {
        &self.bytes
    }

    /// How many calls failed because memory for them was refused, up to `u64::MAX`.
    pub fn refused(&self) -> u64
        ensures { result ≡ self.now.calls.refused }
    {
        self.calls.refused()
    }
}

impl Sink for MemorySink {
    ghost written = { λ sink. Some sink.written };

    ghost faults = { λ sink. sink.calls.faults };

    /// As the trait says. Beside it: the call fails where it is listed, and else only where memory was refused
    /// for the bytes, which never is where there are none; where it is done it takes all of them.
    fn write(&mut self, bytes: &[u8]) -> Result<usize, Failed>
        ensures one_call { IsOneCall (NextFails self.old.calls) (IsErr result) self.old.calls self.new.calls }
        ensures only_listed { bytes.now ≡ [] → IsErr result → NextFails self.old.calls }
        ensures whole { IfOk result (λ n. n ≡ length bytes.now) }

        ensures count { IfOk result (λ n. n ≤ length bytes.now) }
        ensures some { IfOk result (λ n. 0 < length bytes.now → 0 < n) }
        ensures bytes { WriteAppends (Some self.old.written) (Some self.new.written) result bytes.now }
        ensures cause { HasCause self.old.calls.faults self.new.calls.faults result }
    {
        if self.calls.next_fails() {
            return Err(self.calls.fail());
        }
        if bytes.is_empty() {
            return Ok(0);
        }
        match self.bytes.extend_from_slice(bytes) {
            Ok(()) => Ok(bytes.len()),
            Err(_) => Err(self.calls.refuse()),
        }
    }
}
