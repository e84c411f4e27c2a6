//! The bytes of a log.

ghost use Rattle.std.specs.Prelude.{◌≡◌, ◌↔◌, ◌+◌, ◌≤◌, None, [], ◌∷◌, length, if◌then◌else◌, IsTrue, OnOk, OnErr, MatchResult};
ghost use Rattle.std.specs.List.{last_or};
ghost use Rattle.model_run.specs.LogText.{before_line, line, raw};
ghost use Rattle.build_log.specs.Refusals.{size_limit, limit_of};

use crate::LogRefusal;
use crate::refusal::MAX_BYTES;
use model_text::Bytes;
use std::alloc::{AllocError, Global};
use std::marker::Model;

/// The log of a build. A contract sees its bytes.
#[derive(Drop)]
pub struct Log {
    bytes: Vec<u8>,
}

impl Model for Log {
    ghost use Rattle.std.specs.Prelude.{List, ℕ};

    ghost Value = { List ℕ };

    ghost view = { λ log. log.bytes.items };
}

impl Log {
    /// The empty log. It takes no memory.
    pub fn new(alloc: Global) -> Log
        ensures { result ≡ [] }
    {
        Log {
            bytes: Vec::new(alloc),
        }
    }

    /// The log with these bytes, under no limit. It takes no memory.
    pub fn of(bytes: Bytes) -> Log
        ensures { result ≡ bytes }
    {
        Log {
            bytes: bytes.into_vec(),
        }
    }

    /// Its bytes.
    pub fn bytes(&self) -> &[u8]
        ensures { result.now ≡ self.now }
    {
        self.bytes.as_slice()
    }

    /// Whether `line` would not refuse this line for the limit. Whoever makes a line together with its flow node asks this
    /// first, for neither call can be undone.
    pub fn has_room_for_line(&self, text: &[u8]) -> bool
        ensures { IsTrue result ↔ (size_limit (line text.now self.now) ≡ None) }
    {
        let newline = if self.is_at_line() { 0 } else { 1 };
        self.has_room(text.len().saturating_add(newline + 1))
    }

    /// Puts a line to the log: behind a newline where the log is not empty and does not end with one, and before one.
    ///
    /// # Errors
    ///
    /// `LogLimit` exactly where the log would then have more than 16,777,216 bytes; else `Memory` where the memory was
    /// refused. After either the log is as it was.
    pub fn line(&mut self, text: &[u8]) -> Result<(), LogRefusal>
        ensures written { OnOk result (self.new ≡ line text.now self.old) }
        ensures refusal { MatchResult result (λ _. size_limit (line text.now self.old) ≡ None) (λ refusal. size_limit (line text.now self.old) ≡ limit_of refusal) }
        ensures unchanged { OnErr result (self.new ≡ self.old) }
    {
        if !self.has_room_for_line(text) {
            return Err(LogRefusal::LogLimit);
        }
        self.end_line(text)?;
        Ok(())
    }

    /// Puts these bytes behind the log as they are: output of a task.
    ///
    /// # Errors
    ///
    /// `LogLimit` exactly where the log would then have more than 16,777,216 bytes; else `Memory` where the memory was
    /// refused. After either the log is as it was.
    pub fn raw(&mut self, bytes: &[u8]) -> Result<(), LogRefusal>
        ensures written { OnOk result (self.new ≡ raw bytes.now self.old) }
        ensures refusal { MatchResult result (λ _. size_limit (raw bytes.now self.old) ≡ None) (λ refusal. size_limit (raw bytes.now self.old) ≡ limit_of refusal) }
        ensures unchanged { OnErr result (self.new ≡ self.old) }
    {
        if !self.has_room(bytes.len()) {
            return Err(LogRefusal::LogLimit);
        }
        self.bytes.extend_from_slice(bytes)?;
        Ok(())
    }

    /// Puts a line to the log as [`Log::line`] does, under no limit: one of the last lines of a build.
    ///
    /// # Errors
    ///
    /// `AllocError` where the memory was refused: then the log is as it was.
    pub fn end_line(&mut self, text: &[u8]) -> Result<(), AllocError>
        ensures written { OnOk result (self.new ≡ line text.now self.old) }
        ensures unchanged { OnErr result (self.new ≡ self.old) }
    {
        let is_at_line = self.is_at_line();
        let most = text.len().checked_add(2).ok_or(AllocError)?;
        self.bytes.reserve(most)?;
        if !is_at_line {
            self.bytes.push_reserved(b'\n');
        }
        self.bytes.extend_from_slice(text)?;
        self.bytes.push_reserved(b'\n');
        Ok(())
    }

    /// Whether a line can begin here: the log is empty, or ends with a newline.
    fn is_at_line(&self) -> bool
        ensures { before_line (last_or None self.now) ≡ (if result then [] else 10 ∷ []) }
    {
        match self.bytes.last() {
            Some(byte) => *byte == b'\n',
            None => true,
        }
    }

    /// Whether the log may have so many bytes more.
    fn has_room(&self, more: usize) -> bool
        ensures { IsTrue result ↔ (length self.now + more ≤ 16777216) }
    {
        self.bytes.len().saturating_add(more) <= MAX_BYTES
    }
}
