// A disk that tells nothing of its bytes, as one over a real file does. It keeps the first bytes and the length of its
// file, which reads as 0 from there on.
ghost use Rattle.std.specs.Prelude.{⊤, None};

use device_faults::Failed;
use jp_disk::Disk;

#[derive(Drop)]
pub struct SparseDisk {
    pub first: [u8; 5],
    pub end: u64,
}

impl Disk for SparseDisk {
    ghost end = { λ d. d.end };

    ghost reads = { λ _. None };

    ghost may_leave = { λ _ _. ⊤ };

    ghost clock = { λ _. 0 };

    ghost may_have_left_since = { λ _ _ _. ⊤ };

    ghost faults = { λ _. 0 };

    ghost told_end = { λ _. tt };

    ghost told_image = { λ _. tt };

    ghost counts_now = { λ _ _ _ _ _. tt };

    ghost only_now = { λ _ _ _. tt };

    fn len(&mut self) -> Result<u64, Failed> {
        Ok(self.end)
    }

    fn read_at(&mut self, at: u64, buf: &mut [u8]) -> Result<usize, Failed> {
        let count = self.end.saturating_sub(at).min(buf.len() as u64) as usize;
        for k in 0..count {
            let place = at.saturating_add(k as u64);
            buf[k] = if place < 5 {
                self.first[place as usize]
            } else {
                0
            };
        }
        Ok(count)
    }

    fn write_at(&mut self, at: u64, bytes: &[u8]) -> Result<(), Failed> {
        self.end = self.end.max(at + bytes.len() as u64);
        Ok(())
    }

    fn sync(&mut self) -> Result<(), Failed> {
        Ok(())
    }
}
