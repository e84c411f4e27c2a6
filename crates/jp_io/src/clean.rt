//! A source and a sink that never fail.
ghost use Rattle.std.specs.Prelude.{◌≡◌, ℕ, List, Some, None};

use crate::unread::Unread;
use crate::{Sink, Source};
use device_faults::Failed;

/// A source of these bytes that never fails.
#[derive(Debug, Drop)]
pub struct CleanSource {
    unread: Unread,
}

impl CleanSource {
    /// All of the bytes are still to come.
    pub fn new(bytes: Vec<u8>) -> Self
        ensures { ⟦<CleanSource as Source>⟧.left result ≡ Some bytes.items }
    {
        CleanSource {
            unread: Unread::new(bytes),
        }
    }
}

impl Source for CleanSource {
    ghost left = { λ source. Some source.unread };

    ghost faults = { λ _. 0 };

    fn read(&mut self, buf: &mut [u8]) -> Result<usize, Failed> {
        Ok(self.unread.read(buf))
    }
}

/// A sink that takes everything, keeps nothing, tells nothing and never fails.
#[derive(Clone, Copy, Debug, Default)]
pub struct CleanSink;

impl Sink for CleanSink {
    ghost written = { λ _. None };

    ghost faults = { λ _. 0 };

    fn write(&mut self, bytes: &[u8]) -> Result<usize, Failed> {
        Ok(bytes.len())
    }
}
