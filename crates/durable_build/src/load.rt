//! Reads the build of a store: the first record, and those from the last whole image on.
ghost use Rattle.std.specs.Prelude.{◌≡◌, ◌⊎◌, ◌-◌, ◌<◌, ◌+◌, true, Err, List, ℕ, ◌∷◌, ◌++◌, length, slice_get, Some, IfOk, IfErr, IsErrOf};
ghost use Rattle.std.specs.List.{All};
ghost use Rattle.device_faults.specs.Faults.{CountsFault};
ghost use Rattle.journal_core.specs.Records.{framed};
ghost use Rattle.journal_core.specs.State.{Holds};
ghost use Rattle.journal_core.specs.Moments.{OnlyReads};
ghost use Rattle.journal_core.specs.Answers.{entries_of};
ghost use Rattle.build_images.specs.Lower.build_core.Builds.{setting_in};
ghost use Rattle.build_images.specs.Lower.build_core.Phases.{has_begun};
ghost use Rattle.build_images.specs.Images.{image_in};
ghost use Rattle.durable_build.specs.Kinds.{is_whole};
ghost use Rattle.durable_build.specs.Standing.{IsWhole, Remembers};
ghost use Rattle.durable_build.specs.Opening.{FoundFrom, IsLastWhole, LastFound, LoadFinds, NextBy, OpensBy, StandsWhere};

use crate::faults::StoreFault;
use crate::opening::{Source, build_from, image_at, opening_of};
use crate::store::{Last, is_whole, no_weights, weights_with};
use build_images::build_core::Build;
use build_images::image_of;
use build_images::saved_thread::SavedThread;
use delta_records::Weights;
use image_form::Image;
use journal_core::{Journal, ReadFault, Record};
use jp_disk::Disk;
use model_text::Bytes;
use std::alloc::Global;

/// The build of a store, and the bytes of its `Start`.
#[derive(Drop)]
pub struct Loaded<R: SavedThread> {
    pub script: Bytes,
    pub agents: Bytes,
    pub build: Build<R>,
    pub last: Last,
}

/// The bytes of a record.
fn bytes_of<D: Disk>(
    alloc: Global,
    journal: &mut Journal<D>,
    entry: Record,
) -> Result<Bytes, StoreFault>
    requires { entry.at + 5 + entry.len < journal.old.len }
    ensures payload { (payloads : List (List ℕ)) (k : ℕ) → Holds D.Disk journal.old payloads
        → slice_get (entries_of 0 payloads) k ≡ Some entry → IfOk result (λ bytes. slice_get payloads k ≡ Some bytes) }
    ensures fault { IfErr result (λ e. (e ≡ StoreFault.Memory) ⊎ (e ≡ StoreFault.Disk)) }
    ensures quiet { OnlyReads D.Disk journal.old.disk journal.new.disk }
    ensures same { (journal.new.len ≡ journal.old.len) × (journal.new.stopped ≡ journal.old.stopped) }
    ensures cause { CountsFault (D.faults journal.old.disk) (D.faults journal.new.disk) (IsErrOf result StoreFault.Disk) }
{
    match journal.read(alloc, entry) {
        Ok(bytes) => Ok(bytes),
        Err(ReadFault::Memory) => Err(StoreFault::Memory),
        Err(ReadFault::Disk) => Err(StoreFault::Disk),
    }
}

/// What a record says as the first one.
fn read_opening<D: Disk>(
    alloc: Global,
    journal: &mut Journal<D>,
    entry: Record,
) -> Result<Source, StoreFault>
    requires { entry.at + 5 + entry.len < journal.old.len }
    ensures found { (payloads : List (List ℕ)) (k : ℕ) (p : List ℕ) → Holds D.Disk journal.old payloads
        → slice_get (entries_of 0 payloads) k ≡ Some entry → slice_get payloads k ≡ Some p → OpensBy p entry.at result ⊎ (result ≡ Err StoreFault.Disk) }
    ensures quiet { OnlyReads D.Disk journal.old.disk journal.new.disk }
    ensures same { (journal.new.len ≡ journal.old.len) × (journal.new.stopped ≡ journal.old.stopped) }
    ensures cause { CountsFault (D.faults journal.old.disk) (D.faults journal.new.disk) (IsErrOf result StoreFault.Disk) }
{
    match bytes_of(alloc, journal, entry) {
        Ok(bytes) => opening_of(alloc, entry.at, bytes.as_slice()),
        Err(fault) => Err(fault),
    }
}

/// The record at this place.
fn entry_at(entries: &[Record], k: usize) -> Record
    requires { k < length entries.now }
    ensures { slice_get entries.now k ≡ Some result }
{
    entries[k]
}

/// Whether a record holds a whole image.
fn is_whole_at<D: Disk>(
    alloc: Global,
    journal: &mut Journal<D>,
    entry: Record,
) -> Result<bool, StoreFault>
    requires { entry.at + 5 + entry.len < journal.old.len }
    ensures found { (payloads : List (List ℕ)) (k : ℕ) (p : List ℕ) → Holds D.Disk journal.old payloads
        → slice_get (entries_of 0 payloads) k ≡ Some entry → slice_get payloads k ≡ Some p → IfOk result (λ whole. whole ≡ is_whole p) }
    ensures fault { IfErr result (λ e. (e ≡ StoreFault.Memory) ⊎ (e ≡ StoreFault.Disk)) }
    ensures quiet { OnlyReads D.Disk journal.old.disk journal.new.disk }
    ensures same { (journal.new.len ≡ journal.old.len) × (journal.new.stopped ≡ journal.old.stopped) }
    ensures cause { CountsFault (D.faults journal.old.disk) (D.faults journal.new.disk) (IsErrOf result StoreFault.Disk) }
{
    let bytes = bytes_of(alloc, journal, entry)?;
    Ok(is_whole(bytes.as_slice()))
}

/// The place among these records of the last one that holds a whole image, or the first place where none does.
fn last_whole<D: Disk>(
    alloc: Global,
    journal: &mut Journal<D>,
    entries: &[Record],
) -> Result<usize, StoreFault>
    requires some { 0 < length entries.now }
    requires within { All (λ entry. entry.at + 5 + entry.len < journal.old.len) entries.now }
    ensures inside { IfOk result (λ k. k < length entries.now) }
    ensures found { (payloads : List (List ℕ)) → Holds D.Disk journal.old payloads → entries.now ≡ entries_of 0 payloads → IfOk result (IsLastWhole payloads) }
    ensures fault { IfErr result (λ e. (e ≡ StoreFault.Memory) ⊎ (e ≡ StoreFault.Disk)) }
    ensures quiet { OnlyReads D.Disk journal.old.disk journal.new.disk }
    ensures same { (journal.new.len ≡ journal.old.len) × (journal.new.stopped ≡ journal.old.stopped) }
    ensures cause { CountsFault (D.faults journal.old.disk) (D.faults journal.new.disk) (IsErrOf result StoreFault.Disk) }
{
    let mut k = entries.len() - 1;
    while k > 0 {
        let entry = entry_at(entries, k);
        if is_whole_at(alloc, journal, entry)? {
            return Ok(k);
        }
        k -= 1;
    }
    Ok(0)
}

/// What the records up to one make: its image, and how much they weigh.
#[derive(Drop)]
pub struct Read {
    pub image: Image,
    pub weights: Weights,
}

/// What a record makes behind the record with the image before.
fn read_next<D: Disk>(
    alloc: Global,
    journal: &mut Journal<D>,
    entry: Record,
    before: Option<Image>,
    weights: Weights,
) -> Result<Read, StoreFault>
    requires { entry.at + 5 + entry.len < journal.old.len }
    ensures found { (payloads : List (List ℕ)) (k : ℕ) (p : List ℕ) → Holds D.Disk journal.old payloads
        → slice_get (entries_of 0 payloads) k ≡ Some entry → slice_get payloads k ≡ Some p → NextBy before weights p entry.at result ⊎ (result ≡ Err StoreFault.Disk) }
    ensures quiet { OnlyReads D.Disk journal.old.disk journal.new.disk }
    ensures same { (journal.new.len ≡ journal.old.len) × (journal.new.stopped ≡ journal.old.stopped) }
    ensures cause { CountsFault (D.faults journal.old.disk) (D.faults journal.new.disk) (IsErrOf result StoreFault.Disk) }
{
    match bytes_of(alloc, journal, entry) {
        Ok(bytes) => next_read(alloc, entry.at, before, weights, bytes.as_slice()),
        Err(fault) => Err(fault),
    }
}

/// What a record makes with these bytes, whose gate stands there.
fn next_read(
    alloc: Global,
    at: u64,
    before: Option<Image>,
    weights: Weights,
    bytes: &[u8],
) -> Result<Read, StoreFault>
    ensures next { NextBy before weights bytes.now at result }
    ensures never { IsErrOf result StoreFault.Disk → ⊥ }
{
    match image_at(alloc, at, before, bytes) {
        Ok(image) => Ok(Read {
            image,
            weights: weights_with(weights, bytes),
        }),
        Err(fault) => Err(fault),
    }
}

/// What a record that holds a whole image makes, and those behind it.
fn read_from<D: Disk>(
    alloc: Global,
    journal: &mut Journal<D>,
    whole: Record,
    behind: &[Record],
) -> Result<Read, StoreFault>
    requires whole { whole.at + 5 + whole.len < journal.old.len }
    requires behind { All (λ entry. entry.at + 5 + entry.len < journal.old.len) behind.now }
    ensures found { (front payloads : List (List ℕ)) → Holds D.Disk journal.old (front ++ payloads) → whole ∷ behind.now ≡ entries_of (length (framed front)) payloads → FoundFrom front payloads result }
    ensures quiet { OnlyReads D.Disk journal.old.disk journal.new.disk }
    ensures same { (journal.new.len ≡ journal.old.len) × (journal.new.stopped ≡ journal.old.stopped) }
    ensures cause { CountsFault (D.faults journal.old.disk) (D.faults journal.new.disk) (IsErrOf result StoreFault.Disk) }
{
    let mut read = read_next(alloc, journal, whole, None, no_weights())?;
    for entry in behind {
        let Read { image, weights } = read;
        read = read_next(alloc, journal, *entry, Some(image), weights)?;
    }
    Ok(read)
}

/// What all these records make, by the last one that holds a whole image and those behind it.
fn read_last<D: Disk>(
    alloc: Global,
    journal: &mut Journal<D>,
    entries: &[Record],
) -> Result<Read, StoreFault>
    requires some { 0 < length entries.now }
    requires within { All (λ entry. entry.at + 5 + entry.len < journal.old.len) entries.now }
    ensures found { (p : List ℕ) (ps : List (List ℕ)) → is_whole p ≡ true → Holds D.Disk journal.old (p ∷ ps) → entries.now ≡ entries_of 0 (p ∷ ps) → LastFound (p ∷ ps) result }
    ensures quiet { OnlyReads D.Disk journal.old.disk journal.new.disk }
    ensures same { (journal.new.len ≡ journal.old.len) × (journal.new.stopped ≡ journal.old.stopped) }
    ensures cause { CountsFault (D.faults journal.old.disk) (D.faults journal.new.disk) (IsErrOf result StoreFault.Disk) }
{
    let k = last_whole(alloc, journal, entries)?;
    let whole = entry_at(entries, k);
    read_from(alloc, journal, whole, &entries[k + 1..])
}

/// The build of a store with these records, of which there is one at least.
pub fn load<D: Disk, R: SavedThread + Drop>(
    alloc: Global,
    journal: &mut Journal<D>,
    entries: &[Record],
) -> Result<Loaded<R>, StoreFault>
    requires some { 0 < length entries.now }
    requires within { All (λ entry. entry.at + 5 + entry.len < journal.old.len) entries.now }
    ensures found { (payloads : List (List ℕ)) → Holds D.Disk journal.old payloads → entries.now ≡ entries_of 0 payloads → LoadFinds R.stance payloads result }
    ensures begun { IfOk result (λ l. has_begun l.build.phase ≡ true) }
    ensures kept { IfOk result (λ l. Remembers R.stance l.build l.last.image) }
    ensures whole { IfOk result (λ l. IsWhole (setting_in l.build) (image_in R.stance l.build)) }
    ensures stands { IfOk result (λ l. StandsWhere R.stance l.build) }
    ensures quiet { OnlyReads D.Disk journal.old.disk journal.new.disk }
    ensures same { (journal.new.len ≡ journal.old.len) × (journal.new.stopped ≡ journal.old.stopped) }
    ensures cause { CountsFault (D.faults journal.old.disk) (D.faults journal.new.disk) (IsErrOf result StoreFault.Disk) }
{
    let first = entry_at(entries, 0);
    let last = entry_at(entries, entries.len() - 1);
    let Source {
        script,
        agents,
        code,
        site,
    } = read_opening(alloc, journal, first)?;
    let Read { image, weights } = read_last(alloc, journal, entries)?;
    let build = build_from(alloc, last.at, code, site, image)?;
    let last = kept_of(&build, weights)?;
    Ok(Loaded {
        script,
        agents,
        build,
        last,
    })
}

/// What is kept of the last record of a build that goes on from it. Its image is made once more: that of the build stands in order.
fn kept_of<R: SavedThread + Drop>(build: &Build<R>, weights: Weights) -> Result<Last, StoreFault>
    requires { has_begun build.now.phase ≡ true }
    ensures kept { IfOk result (λ last. Remembers R.stance build.now last.image × (last.weights ≡ weights)) }
    ensures fault { IfErr result (λ e. e ≡ StoreFault.Memory) }
{
    match image_of(build) {
        Ok(image) => Ok(Last {
            image: Some(image),
            weights,
        }),
        Err(_) => Err(StoreFault::Memory),
    }
}
