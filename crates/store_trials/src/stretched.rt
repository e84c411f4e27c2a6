//! A disk with a file that is longer than memory has room for.
ghost use Rattle.std.specs.Prelude.{⊤, None};

use device_faults::Failed;
use jp_disk::Disk;

/// A disk that reads as a store with zeros put in at a place. Of what is written it keeps how long the file is then,
/// and it tells nothing of its bytes, as one over a real file does. No call of it fails.
#[derive(Drop)]
pub struct StretchedDisk {
    store: Vec<u8>,
    at: u64,
    zeros: u64,
    end: u64,
}

impl StretchedDisk {
    /// A disk that reads as a store with so many zeros put in at this place.
    pub fn new(store: Vec<u8>, at: u64, zeros: u64) -> StretchedDisk {
        let end = zeros.saturating_add(store.len() as u64);
        StretchedDisk {
            store,
            at,
            zeros,
            end,
        }
    }

    /// The byte at a place.
    fn byte_at(&self, place: u64) -> u8 {
        let behind = place.saturating_sub(self.zeros);
        let kept = if place < self.at {
            self.store.get(place as usize)
        } else if behind < self.at {
            None
        } else {
            self.store.get(behind as usize)
        };
        kept.copied().unwrap_or(0)
    }
}

impl Disk for StretchedDisk {
    ghost end = { λ d. d.end };

    ghost reads = { λ _. None };

    ghost may_leave = { λ _ _. ⊤ };

    ghost clock = { λ _. 0 };

    ghost may_have_left_since = { λ _ _ _. ⊤ };

    ghost faults = { λ _. 0 };

    ghost told_end = { λ _. tt };

    ghost told_image = { λ _. tt };

    ghost counts_now = { λ _ _ _ _ _. tt };

    ghost only_now = { λ _ _ _. tt };

    fn len(&mut self) -> Result<u64, Failed> {
        Ok(self.end)
    }

    fn read_at(&mut self, at: u64, buf: &mut [u8]) -> Result<usize, Failed> {
        let count = self.end.saturating_sub(at).min(buf.len() as u64) as usize;
        for k in 0..count {
            buf[k] = self.byte_at(at.saturating_add(k as u64));
        }
        Ok(count)
    }

    fn write_at(&mut self, at: u64, bytes: &[u8]) -> Result<(), Failed> {
        self.end = self.end.max(at + bytes.len() as u64);
        Ok(())
    }

    fn sync(&mut self) -> Result<(), Failed> {
        Ok(())
    }
}
