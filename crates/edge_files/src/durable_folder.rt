//! A folder that is made durable once, and not again for each task.

use crate::sync::make_durable;
use std::os::unix::fs::MetadataExt;
use std::rt::Files;
use std::time::SystemTime;
use std::{fs, io};

/// The folder that was made durable last.
#[derive(Drop)]
pub struct DurableFolder {
    last: Option<Known>,
}

/// A folder that was made durable, and the path at which it stood then.
#[derive(Drop)]
struct Known {
    path: String,
    folder: Identity,
}

/// What tells a folder from each that stands in its place later. The system may give the number of a folder that went to
/// a new one, so its number alone does not.
#[derive(Clone, Copy, PartialEq, Eq)]
struct Identity {
    device: u64,
    number: u64,
    made: SystemTime,
}

impl DurableFolder {
    /// None yet.
    pub fn new() -> DurableFolder {
        DurableFolder { last: None }
    }

    /// Makes a folder durable, as [`make_durable`] does. The one that was made durable last is not synced again for as long
    /// as it stands at its path.
    ///
    /// # Errors
    ///
    /// Those of `make_durable`.
    pub fn make<R: Files + AllocGlobal>(&mut self, rt: &R, path: &str) -> io::Result<()> {
        if self.is_durable(rt, path) {
            return Ok(());
        }
        self.last = None;
        make_durable(rt, path)?;
        if let Some(folder) = identity_at(rt, path) {
            let path = format!(in rt.alloc(); "{path}")?;
            self.last = Some(Known { path, folder });
        }
        Ok(())
    }

    /// Whether the folder that was made durable last stands at this path.
    pub fn is_durable(&self, files: &impl Files, path: &str) -> bool {
        match &self.last {
            Some(known) if known.path.as_str() == path => {
                identity_at(files, path) == Some(known.folder)
            }
            _ => false,
        }
    }
}

// Which folder stands at a path. None where there is none, and where the system does not tell when it was made.
fn identity_at(files: &impl Files, path: &str) -> Option<Identity> {
    let found = fs::metadata(files, path).ok()?;
    Some(Identity {
        device: found.dev(),
        number: found.ino(),
        made: found.created().ok()?,
    })
}
