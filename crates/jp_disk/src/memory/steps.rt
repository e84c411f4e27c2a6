// The steps of a call of a disk in memory: it is counted, kept, and answered.
ghost use Rattle.std.specs.Prelude.{◌≡◌, ◌⊎◌, ◌≤◌, ◌<◌, ◌↔◌, [], ◌∷◌, ◌++◌, List, ℕ, length, slice_index, IfOk, OnOk, OnErr, IsOk, MatchResult, true, false, IsTrue, unwrap_or, is_ok};
ghost use Rattle.jp_disk.specs.Images.{after_write, IsImage, IsOutside};
ghost use Rattle.jp_disk.specs.Medium.{IsQuiet, ranges_of};
ghost use Rattle.device_faults.specs.Faults.{counted};
ghost use Rattle.jp_disk.specs.History.{medium, IsListed, IsOneCall};

use crate::memory::MemoryDisk;
use crate::{Bytes, Call};
use device_faults::Failed;
use std::alloc::{AllocError, Global};
use std::mem;

impl MemoryDisk {
    // Counts a call, and says whether it is to fail.
    fn count_call(&mut self) -> bool
        ensures counted { self.new ≡ record self.old { made = counted self.old.made } }
        ensures listed { IsTrue result ↔ IsListed self.old.fail_at self.old.stop_at (counted self.old.made) }
    {
        self.made = self.made.saturating_add(1);
        is_listed(self.fail_at.as_slice(), self.stop_at, self.made)
    }

    fn keep_quiet(&mut self, call: Call) -> Result<(), AllocError>
        requires { IsQuiet call }
        ensures ok { OnOk result (self.new ≡ record self.old { calls = self.old.calls ++ call ∷ [] }) }
        ensures err { OnErr result (self.new ≡ self.old) }
    {
        self.calls.push(call)?;
        Ok(())
    }

    fn keep_sync(&mut self, done: bool) -> Result<(), AllocError>
        ensures ok { OnOk result (self.new ≡ record self.old { calls = self.old.calls ++ Call.Sync done ∷ [] }) }
        ensures err { OnErr result (self.new ≡ self.old) }
    {
        if done {
            self.settle()
        } else {
            self.keep_quiet(Call::Sync { done })
        }
    }

    // Keeps a sync that was done: nothing is pending then.
    fn settle(&mut self) -> Result<(), AllocError>
        ensures ok { OnOk result (self.new ≡ record self.old { calls = self.old.calls ++ Call.Sync true ∷ [] }) }
        ensures err { OnErr result (self.new ≡ self.old) }
    {
        self.calls.reserve(1)?;
        bring_up(
            self.alloc,
            &mut self.synced,
            self.bytes.as_slice(),
            &self.calls[self.settled..],
        )?;
        self.calls.push_reserved(Call::Sync { done: true });
        self.settled = self.calls.len();
        Ok(())
    }

    // Keeps a write and does it, whatever it is to answer.
    fn keep_write(&mut self, at: u64, bytes: &[u8], done: bool) -> Result<(), AllocError>
        requires { at ≤ length (medium self.old).reads }
        ensures ok { OnOk result (self.new ≡ record self.old { calls = self.old.calls ++ Call.Write at bytes.now done ∷ [] }) }
        ensures err { OnErr result (self.new ≡ self.old) }
    {
        keep_copy(self.alloc, &mut self.first, &self.bytes)?;
        keep_copy(self.alloc, &mut self.synced, &self.bytes)?;
        let kept = Bytes::from_slice(self.alloc, bytes)?;
        self.calls.reserve(1)?;
        overlay(self.alloc, &mut self.bytes, at as usize, bytes)?;
        self.calls.push_reserved(Call::Write {
            at,
            bytes: kept,
            done,
        });
        Ok(())
    }

    fn answer(&mut self, kept: Result<(), AllocError>, listed: bool) -> Result<(), Failed>
        ensures ok { OnOk result (IsOk kept × (listed ≡ false) × (self.new ≡ self.old)) }
        ensures err { OnErr result (MatchResult kept
            (λ _. (listed ≡ true) × (self.new ≡ record self.old { faults = counted self.old.faults }))
            (λ _. self.new ≡ record self.old { faults = counted self.old.faults; refused = counted self.old.refused })) }
    {
        if kept.is_err() {
            self.refused = self.refused.saturating_add(1);
        } else if !listed {
            return Ok(());
        }
        self.faults = self.faults.saturating_add(1);
        Err(Failed)
    }
}

// The calls, without what they answer.
impl MemoryDisk {
    pub(crate) fn call_len(&mut self) -> Result<(), Failed>
        ensures { IsOneCall Call.Len self.old self.new (is_ok result) }
    {
        let listed = self.count_call();
        let kept = self.keep_quiet(Call::Len { done: !listed });
        self.answer(kept, listed)
    }

    pub(crate) fn call_read(&mut self, at: u64, len: u64) -> Result<(), Failed>
        ensures { IsOneCall (Call.Read at len) self.old self.new (is_ok result) }
    {
        let listed = self.count_call();
        let done = !listed;
        let kept = self.keep_quiet(Call::Read { at, len, done });
        self.answer(kept, listed)
    }

    pub(crate) fn call_write(&mut self, at: u64, bytes: &[u8]) -> Result<(), Failed>
        requires { at ≤ length (medium self.old).reads }
        ensures { IsOneCall (Call.Write at bytes.now) self.old self.new (is_ok result) }
    {
        let listed = self.count_call();
        let kept = self.keep_write(at, bytes, !listed);
        self.answer(kept, listed)
    }

    pub(crate) fn call_sync(&mut self) -> Result<(), Failed>
        ensures { IsOneCall Call.Sync self.old self.new (is_ok result) }
    {
        let listed = self.count_call();
        let kept = self.keep_sync(!listed);
        self.answer(kept, listed)
    }
}

// Whether the call of this number is to fail.
fn is_listed(fail_at: &[u64], stop_at: Option<u64>, number: u64) -> bool
    ensures { IsTrue result ↔ IsListed fail_at.now stop_at number }
{
    if let Some(stop) = stop_at {
        if stop <= number {
            return true;
        }
    }
    fail_at.contains(&number)
}

// Puts bytes over those at a place, and behind them.
fn overlay(alloc: Global, file: &mut Bytes, at: usize, bytes: &[u8]) -> Result<(), AllocError>
    requires { at ≤ length file.old }
    ensures ok { OnOk result (file.new ≡ after_write file.old at bytes.now) }
    ensures err { OnErr result (file.new ≡ file.old) }
{
    let mut next = mem::replace(file, Bytes::new(alloc)).into_vec();
    let written = write_over(&mut next, at, bytes);
    *file = Bytes::from_vec(next);
    written
}

// The same, in a vector.
fn write_over(file: &mut Vec<u8>, at: usize, bytes: &[u8]) -> Result<(), AllocError>
    requires { at ≤ length file.old.items }
    ensures ok { OnOk result (file.new.items ≡ after_write file.old.items at bytes.now) }
    ensures err { OnErr result (file.new.items ≡ file.old.items) }
{
    let within = bytes.len().min(file.len() - at);
    file.extend_from_slice(&bytes[within..])?;
    file[at..at + within].copy_from_slice(&bytes[..within]);
    Ok(())
}

// Keeps a copy of the bytes, where none is kept.
fn keep_copy(alloc: Global, copy: &mut Option<Bytes>, bytes: &Bytes) -> Result<(), AllocError>
    ensures same { unwrap_or copy.new bytes.now ≡ unwrap_or copy.old bytes.now }
    ensures kept { OnOk result ((later : List ℕ) → unwrap_or copy.new later ≡ unwrap_or copy.old bytes.now) }
{
    if copy.is_none() {
        *copy = Some(Bytes::from_slice(alloc, bytes.as_slice())?);
    }
    Ok(())
}

// Brings a copy of the bytes from before these calls up to the bytes now.
fn bring_up(
    alloc: Global,
    copy: &mut Option<Bytes>,
    bytes: &[u8],
    calls: &[Call],
) -> Result<(), AllocError>
    requires { IsImage (unwrap_or copy.old bytes.now) (ranges_of calls.now) bytes.now }
    ensures ok { OnOk result (unwrap_or copy.new bytes.now ≡ bytes.now) }
    ensures err { OnErr result (copy.new ≡ copy.old) }
{
    let Some(kept) = copy else {
        return Ok(());
    };
    let mut last = mem::replace(kept, Bytes::new(alloc)).into_vec();
    let brought = copy_written(&mut last, bytes, calls);
    *kept = Bytes::from_vec(last);
    brought
}

// Copies what these calls have written.
fn copy_written(copy: &mut Vec<u8>, bytes: &[u8], calls: &[Call]) -> Result<(), AllocError>
    requires { IsImage copy.old.items (ranges_of calls.now) bytes.now }
    ensures ok { OnOk result (copy.new.items ≡ bytes.now) }
    ensures err { OnErr result (copy.new.items ≡ copy.old.items) }
{
    copy.extend_from_slice(&bytes[copy.len()..])?;
    for call in calls {
        copy_range(copy, bytes, call);
    }
    Ok(())
}

// Copies the range of a write.
fn copy_range(copy: &mut Vec<u8>, bytes: &[u8], call: &Call)
    requires { length copy.old.items ≡ length bytes.now }
    ensures length { length copy.new.items ≡ length copy.old.items }
    ensures right { (place : ℕ) → place < length bytes.now → (IsOutside (ranges_of (call.now ∷ [])) place → slice_index copy.old.items place ≡ slice_index bytes.now place) → slice_index copy.new.items place ≡ slice_index bytes.now place }
{
    let Call::Write {
        at,
        bytes: written,
        ..
    } = call
    else {
        return;
    };
    let start = *at as usize;
    let end = start.saturating_add(written.len()).min(bytes.len());
    for place in start..end {
        copy[place] = bytes[place];
    }
}
