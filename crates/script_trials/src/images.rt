//! A build through its image: written, read, checked and restored.

ghost use Rattle.std.specs.Prelude.{◌≡◌, true};
ghost use Rattle.record_form.specs.Ordered.{IsInOrder};
ghost use Rattle.build_core.specs.Phases.{has_begun};

use agents_file::read_agents;
use build_core::Build;
use build_images::{RestoreRefusal, image_of, restored};
use byte_form::Memory;
use cps_code::{Code, number};
use groovy_parse::parse;
use image_check::{Finding, ImageRefusal, check};
use image_form::{FormRefusal, Image, read_image, write_image};
use model_run::Site;
use model_text::Bytes;
use record_form::Measured;
use saved_thread::SavedThread;
use std::alloc::{AllocError, Global};
use trial_text::Trial;

/// The most bytes that an image has.
const LONGEST: u64 = 4_294_967_295;

/// Why bytes give no build.
#[derive(Clone, Copy, Debug, PartialEq, Eq)]
pub enum Refusal {
    /// The memory was refused.
    Memory,
    /// The form of an image breaks at this byte first.
    Form { at: u64 },
    /// The image is none of a sound build.
    Check(Finding),
    /// The image is of a build that has ended, and yet has parts that only a running build has.
    Remains,
    /// The script or the agents file has a fault.
    Source,
}

impl From<AllocError> for Refusal {
    fn from(_error: AllocError) -> Refusal {
        Refusal::Memory
    }
}

impl From<FormRefusal> for Refusal {
    fn from(refusal: FormRefusal) -> Refusal {
        match refusal {
            FormRefusal::Memory => Refusal::Memory,
            FormRefusal::Fault { at } => Refusal::Form { at },
        }
    }
}

impl From<ImageRefusal> for Refusal {
    fn from(refusal: ImageRefusal) -> Refusal {
        match refusal {
            ImageRefusal::Memory => Refusal::Memory,
            ImageRefusal::Fault(finding) => Refusal::Check(finding),
        }
    }
}

impl From<RestoreRefusal> for Refusal {
    fn from(refusal: RestoreRefusal) -> Refusal {
        match refusal {
            RestoreRefusal::Memory => Refusal::Memory,
            RestoreRefusal::Remains => Refusal::Remains,
        }
    }
}

/// The image of a build that has begun, as bytes. `AllocError` where the memory was refused, or where they are more than
/// [`LONGEST`].
pub fn image_bytes<R: SavedThread + Drop>(
    alloc: Global,
    build: &Build<R>,
) -> Result<Bytes, AllocError>
    requires begun { has_begun build.now.phase ≡ true }
{
    let image = image_of(build)?;
    spelled(alloc, &image)
}

/// An image that stands in order, as bytes. `AllocError` where the memory was refused, or where they are more than
/// [`LONGEST`].
fn spelled(alloc: Global, image: &Image) -> Result<Bytes, AllocError>
    requires order { IsInOrder image.now }
{
    if image.size() > LONGEST {
        return Err(AllocError);
    }
    match write_image(alloc, image) {
        Ok(bytes) => Ok(bytes),
        Err(Memory) => Err(AllocError),
    }
}

/// The build of which bytes tell, as another process finds it: from the texts of the trial, and these bytes.
pub fn build_in<R: SavedThread + Drop>(
    alloc: Global,
    trial: &Trial<'_>,
    bytes: &[u8],
) -> Result<Build<R>, Refusal> {
    let image = read_image(alloc, bytes)?;
    match (
        parse(alloc, &trial.script),
        read_agents(alloc, trial.agents().as_bytes()),
    ) {
        (Ok(tree), Ok(site)) => {
            let code = number(alloc, tree)?;
            checked(alloc, code, site, image)
        }
        _ => Err(Refusal::Source),
    }
}

/// The build of which an image tells that passes its check.
fn checked<R: SavedThread + Drop>(
    alloc: Global,
    code: Code,
    site: Site,
    image: Image,
) -> Result<Build<R>, Refusal> {
    check(alloc, &image, &code, &site)?;
    let build = restored(alloc, code, site, image)?;
    Ok(build)
}
