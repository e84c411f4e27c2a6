//! A file that is opened when it is first read.
ghost use Rattle.std.specs.Prelude.{◌≡◌};

use std::io::{ErrorKind, Read};
use std::rt::Files;
use std::{fs, io};

/// A reader of the file at a path, which is opened at the first read.
///
/// Where it cannot be opened, each read fails: the first with the error of opening it, and later ones
/// with `NotFound`. Where a signal interrupted the opening, that read fails with `Interrupted`, and the next
/// one opens the file again, as `StdSource` does.
#[derive(Drop)]
pub struct LazyFile<'a, R: Files> {
    files: &'a R,
    path: String,
    state: State<R::File>,
}

#[derive(Drop)]
enum State<F> {
    Unopened,
    Open(F),
    Missing,
}

impl<'a, R: Files> LazyFile<'a, R> {
    /// The file at this path, not opened yet.
    pub fn new(files: &'a R, path: String) -> Self
        ensures path { result.path ≡ path }
    {
        LazyFile {
            files,
            path,
            state: State::Unopened,
        }
    }

    fn open(&mut self) -> io::Result<()> {
        if let State::Unopened = self.state {
            self.state = match fs::open(self.files, self.path.as_str()) {
                Ok(file) => State::Open(file),
                Err(error) if error.kind() == ErrorKind::Interrupted => return Err(error),
                Err(error) => {
                    self.state = State::Missing;
                    return Err(error);
                }
            };
        }
        Ok(())
    }
}

impl<R: Files> Read for LazyFile<'_, R> {
    fn read(&mut self, buf: &mut [u8]) -> io::Result<usize> {
        self.open()?;
        match &mut self.state {
            State::Open(file) => file.read(buf),
            _ => Err(io::Error::from(ErrorKind::NotFound)),
        }
    }
}
