//! Which build a store is.

ghost use Rattle.std.specs.Prelude.{◌≡◌, IfOk, string_bytes};
ghost use Rattle.edge_files.specs.Identity.{identity_line};

use crate::private::write_durable;
use crate::sync::{folder_of, sync_folder};
use hex::FromHex;
use std::alloc::{AllocError, Global};
use std::io::ErrorKind;
use std::random::RandomSource;
use std::rt::Files;
use std::{fs, io};

/// Which build this is: 128 random bits, which no other build has but a copy of it.
#[derive(Clone, Copy, Debug, PartialEq, Eq)]
pub struct BuildId {
    pub bits: [u8; 16],
}

impl BuildId {
    /// One that nobody had before.
    ///
    /// # Errors
    ///
    /// Where the system has no random bits.
    pub fn random(source: &impl RandomSource) -> io::Result<BuildId> {
        let mut bits = [0u8; 16];
        source.fill_bytes(&mut bits)?;
        Ok(BuildId { bits })
    }

    /// The build that this text names by 32 hexadecimal digits. `None` where it is anything else.
    pub fn parse(text: &str) -> Option<BuildId> {
        let bits = <[u8; 16] as FromHex>::from_hex(text).ok()?;
        Some(BuildId { bits })
    }
}

/// A build's identity, as its store keeps it.
#[derive(Clone, Copy, Debug, PartialEq, Eq)]
pub struct Identity {
    pub build: BuildId,
    /// Whether control folders that name no build are taken for this build's: where the store was begun by a program that
    /// named none.
    pub takes_unnamed: bool,
}

/// The word behind the digits of a build that takes control folders without a name.
const UNNAMED: &str = " older";

impl Identity {
    /// The identity that a text of this form gives. `None` where it is anything else, as in an empty file.
    pub fn parse(text: &str) -> Option<Identity> {
        let line = text.strip_suffix('\n')?;
        let (digits, takes_unnamed) = match line.strip_suffix(UNNAMED) {
            Some(digits) => (digits, true),
            None => (line, false),
        };
        let build = BuildId::parse(digits)?;
        Some(Identity {
            build,
            takes_unnamed,
        })
    }

    /// Its text.
    pub fn line(&self, alloc: Global) -> Result<String, AllocError>
        ensures { IfOk result (λ line. string_bytes line ≡ identity_line self.now.build.bits self.now.takes_unnamed) }
    {
        let mut line = hex::encode(alloc, self.build.bits)?;
        line.push_str(if self.takes_unnamed { UNNAMED } else { "" })?;
        line.push_str("\n")?;
        Ok(line)
    }

    /// The identity in the file at this path. `None` where there is no such file, or it has none.
    ///
    /// # Errors
    ///
    /// Where the file cannot be read, and where there is no memory.
    pub fn read<R: Files + AllocGlobal>(rt: &R, path: &str) -> io::Result<Option<Identity>> {
        match fs::read_to_string(rt, path) {
            Ok(text) => Ok(Identity::parse(text.as_str())),
            Err(error) if has_none(error.kind()) => Ok(None),
            Err(error) => Err(error),
        }
    }

    /// Writes it into the file at this path, which has nothing else from then on, and syncs it with its name.
    ///
    /// # Errors
    ///
    /// Those of writing and syncing, and where there is no memory.
    pub fn write<R: Files + AllocGlobal>(&self, rt: &R, path: &str) -> io::Result<()> {
        let line = self.line(rt.alloc())?;
        write_durable(rt, path, line.as_bytes())?;
        sync_folder(rt, folder_of(path))
    }
}

// A file that is missing has no identity, and neither has one that is no text.
fn has_none(kind: ErrorKind) -> bool {
    kind == ErrorKind::NotFound || kind == ErrorKind::InvalidData
}
