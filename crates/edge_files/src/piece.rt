//! A piece of a real file.

ghost use Rattle.std.specs.Prelude.{◌≡◌, ◌≤◌, length, IfOk};

use jp_io::{Source, StdSource};
use std::io;
use std::io::{ErrorKind, Read, Seek, SeekFrom};

/// Reads bytes from the place `at` on into the front of `buf`, and answers how many.
///
/// # Errors
///
/// Where the file cannot be read there.
pub fn read_piece<F: Read + Seek>(file: &mut F, at: u64, buf: &mut [u8]) -> io::Result<usize>
    ensures { IfOk result (λ n. n ≤ length buf.old) }
{
    file.seek(SeekFrom::Start(at))?;
    match StdSource::new(file).read(buf) {
        Ok(count) => Ok(count),
        Err(_) => Err(io::Error::from(ErrorKind::Other)),
    }
}
