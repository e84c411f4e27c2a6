//! What the records of a store say that are read: the first, and those from the last whole image on.
ghost use Rattle.std.specs.Prelude.{◌≡◌, List, ℕ, true, IfOk, IsErrOf};
ghost use Rattle.build_images.specs.Lower.build_core.Builds.{setting_in};
ghost use Rattle.build_images.specs.Lower.image_check.Standings.{Stands};
ghost use Rattle.build_images.specs.Lower.build_core.Phases.{has_begun};
ghost use Rattle.build_images.specs.Images.{image_in};
ghost use Rattle.durable_build.specs.Standing.{IsWhole};
ghost use Rattle.durable_build.specs.Opening.{CodeOf, EventOpens, FindsImage, GoesOnFrom, HasPayload, MakesImage, OpensBy, SiteOf, SourceOf, StandsWhere, setting_with};

use crate::faults::StoreFault;
use agents_file::{AgentsRefusal, read_agents};
use build_images::build_core::Build;
use build_images::image_check::{ImageRefusal, check};
use build_images::saved_thread::SavedThread;
use build_images::{RestoreRefusal, restored};
use cps_code::{Code, number};
use delta_records::{DeltaRefusal, FormRefusal, Payload, next_image, read_payload};
use groovy_parse::parse;
use image_form::Image;
use model_run::{Event, Site};
use model_syntax::ScriptRefusal;
use model_text::Bytes;
use std::alloc::Global;

/// What a first record says: the bytes of a script and of an agents file, and what they mean.
#[derive(Drop)]
pub struct Source {
    pub script: Bytes,
    pub agents: Bytes,
    pub code: Code,
    pub site: Site,
}

/// The payload of a record, whose gate stands there.
fn payload_at(alloc: Global, at: u64, bytes: &[u8]) -> Result<Payload, StoreFault>
    ensures has { HasPayload bytes.now at result }
    ensures never { IsErrOf result StoreFault.Disk → ⊥ }
{
    match read_payload(alloc, bytes) {
        Ok(payload) => Ok(payload),
        Err(FormRefusal::Memory) => Err(StoreFault::Memory),
        Err(FormRefusal::Fault { .. }) => Err(StoreFault::Damaged { at }),
    }
}

/// What the first record says, whose gate stands there.
pub fn opening_of(alloc: Global, at: u64, bytes: &[u8]) -> Result<Source, StoreFault>
    ensures opens { OpensBy bytes.now at result }
    ensures never { IsErrOf result StoreFault.Disk → ⊥ }
{
    match payload_at(alloc, at, bytes) {
        Ok(Payload::Whole { event, image: _ }) => event_opening(alloc, at, event),
        Ok(Payload::Changed { .. }) => Err(StoreFault::Damaged { at }),
        Err(fault) => Err(fault),
    }
}

/// What a first event says.
fn event_opening(alloc: Global, at: u64, event: Event) -> Result<Source, StoreFault>
    ensures opens { EventOpens event at result }
    ensures never { IsErrOf result StoreFault.Disk → ⊥ }
{
    match event {
        Event::Start { script, agents } => source_of(alloc, at, script, agents),
        _ => Err(StoreFault::Damaged { at }),
    }
}

/// What a `Start` says.
fn source_of(alloc: Global, at: u64, script: Bytes, agents: Bytes) -> Result<Source, StoreFault>
    ensures says { SourceOf script agents at result }
    ensures never { IsErrOf result StoreFault.Disk → ⊥ }
{
    let site = site_of(alloc, at, agents.as_slice())?;
    let code = code_of(alloc, at, script.as_slice())?;
    Ok(Source {
        script,
        agents,
        code,
        site,
    })
}

/// The numbered nodes of a script.
fn code_of(alloc: Global, at: u64, script: &[u8]) -> Result<Code, StoreFault>
    ensures says { CodeOf script.now at result }
    ensures never { IsErrOf result StoreFault.Disk → ⊥ }
{
    match parse(alloc, script) {
        Ok(tree) => match number(alloc, tree) {
            Ok(code) => Ok(code),
            Err(_) => Err(StoreFault::Memory),
        },
        Err(ScriptRefusal::Memory) => Err(StoreFault::Memory),
        Err(ScriptRefusal::Fault(_)) => Err(StoreFault::Damaged { at }),
        Err(ScriptRefusal::TooLong) => Err(StoreFault::Damaged { at }),
    }
}

/// The site of an agents file.
fn site_of(alloc: Global, at: u64, agents: &[u8]) -> Result<Site, StoreFault>
    ensures says { SiteOf agents.now at result }
    ensures never { IsErrOf result StoreFault.Disk → ⊥ }
{
    match read_agents(alloc, agents) {
        Ok(site) => Ok(site),
        Err(AgentsRefusal::Memory) => Err(StoreFault::Memory),
        Err(AgentsRefusal::Fault { .. }) => Err(StoreFault::Damaged { at }),
    }
}

/// The image of a record, whose gate stands there, behind the record with the image before.
pub fn image_at(
    alloc: Global,
    at: u64,
    before: Option<Image>,
    bytes: &[u8],
) -> Result<Image, StoreFault>
    ensures finds { FindsImage before bytes.now at result }
    ensures never { IsErrOf result StoreFault.Disk → ⊥ }
{
    match payload_at(alloc, at, bytes) {
        Ok(payload) => image_behind(alloc, at, before, payload),
        Err(fault) => Err(fault),
    }
}

/// The image of a payload behind the image before, where the payload's record has its gate there.
fn image_behind(
    alloc: Global,
    at: u64,
    before: Option<Image>,
    payload: Payload,
) -> Result<Image, StoreFault>
    ensures makes { MakesImage before payload at result }
    ensures never { IsErrOf result StoreFault.Disk → ⊥ }
{
    match next_image(alloc, before, payload) {
        Ok(image) => Ok(image),
        Err(DeltaRefusal::Memory) => Err(StoreFault::Memory),
        Err(DeltaRefusal::Fault) => Err(StoreFault::Damaged { at }),
    }
}

/// The build that goes on from the image of the last record, where the image passes its check.
pub fn build_from<R: SavedThread + Drop>(
    alloc: Global,
    at: u64,
    code: Code,
    site: Site,
    image: Image,
) -> Result<Build<R>, StoreFault>
    ensures begun { IfOk result (λ build. has_begun build.phase ≡ true) }
    ensures goes_on { GoesOnFrom R.stance (setting_with code site) image at result }
    ensures whole { IfOk result (λ build. IsWhole (setting_in build) (image_in R.stance build)) }
    ensures stands { IfOk result (StandsWhere R.stance) }
    ensures never { IsErrOf result StoreFault.Disk → ⊥ }
{
    match check(alloc, &image, &code, &site) {
        Ok(()) => checked_build(alloc, at, code, site, image),
        Err(ImageRefusal::Memory) => Err(StoreFault::Memory),
        Err(ImageRefusal::Fault(_)) => Err(StoreFault::Damaged { at }),
    }
}

/// The build that goes on from an image that has passed its check.
fn checked_build<R: SavedThread + Drop>(
    alloc: Global,
    at: u64,
    code: Code,
    site: Site,
    image: Image,
) -> Result<Build<R>, StoreFault>
    requires { Stands (setting_with code site) image }
    ensures begun { IfOk result (λ build. has_begun build.phase ≡ true) }
    ensures goes_on { GoesOnFrom R.stance (setting_with code site) image at result }
    ensures whole { IfOk result (λ build. IsWhole (setting_in build) (image_in R.stance build)) }
    ensures stands { IfOk result (StandsWhere R.stance) }
    ensures never { IsErrOf result StoreFault.Disk → ⊥ }
{
    match restored(alloc, code, site, image) {
        Ok(build) => Ok(build),
        Err(RestoreRefusal::Memory) => Err(StoreFault::Memory),
        Err(RestoreRefusal::Remains) => Err(StoreFault::Damaged { at }),
    }
}
