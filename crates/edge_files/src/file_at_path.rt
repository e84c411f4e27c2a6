//! A file of the system that is opened when it is first needed.

ghost use Rattle.std.specs.Prelude.{◌≤◌, length, IfOk};

use crate::piece::read_piece;
use crate::private::create_file;
use crate::sync::{folder_of, sync_folder};
use jp_io::{StdSink, write_all};
use std::fs::{File, OpenFile, OpenOptions};
use std::io::{ErrorKind, Seek, SeekFrom, Write};
use std::rt::Files;
use std::{fs, io};

/// The file at a path, opened when it is first needed. Each call that finds it missing looks for it again.
///
/// # Errors
///
/// Of every call: those of opening, making, reading, writing or syncing the file.
#[derive(Drop)]
pub struct FileAtPath<'a, R: Files> {
    files: &'a R,
    path: String,
    opened: Option<R::File>,
    // Whether the folder was synced since the file was found or made.
    folder_is_synced: bool,
}

impl<'a, R: Files> FileAtPath<'a, R> {
    /// The file at this path, not opened yet.
    pub fn new(files: &'a R, path: String) -> Self {
        FileAtPath {
            files,
            path,
            opened: None,
            folder_is_synced: false,
        }
    }

    /// Its path.
    pub fn path(&self) -> &str {
        self.path.as_str()
    }

    /// Removes it, where it is there. The next write makes another one.
    pub fn remove(&mut self) -> io::Result<()> {
        self.opened = None;
        self.folder_is_synced = false;
        match fs::remove_file(self.files, self.path.as_str()) {
            Err(error) if error.kind() == ErrorKind::NotFound => Ok(()),
            answer => answer,
        }
    }

    // The file, or none where it is missing.
    fn open(&mut self) -> io::Result<Option<&mut R::File>> {
        if self.opened.is_none() {
            self.opened = open_existing(self.files, self.path.as_str())?;
        }
        Ok(self.opened.as_mut())
    }

    /// Its length, 0 where it is missing.
    pub fn len(&mut self) -> io::Result<u64> {
        match self.open()? {
            Some(file) => Ok(file.metadata()?.len()),
            None => Ok(0),
        }
    }

    /// Reads bytes from a place on; none where it is missing.
    pub fn read_at(&mut self, at: u64, buf: &mut [u8]) -> io::Result<usize>
        ensures { IfOk result (λ n. n ≤ length buf.old) }
    {
        match self.open()? {
            Some(file) => read_piece(file, at, buf),
            None => Ok(0),
        }
    }

    /// Writes bytes from a place on. A file that is missing is made.
    pub fn write_at(&mut self, at: u64, bytes: &[u8]) -> io::Result<()> {
        if self.open()?.is_none() {
            self.opened = Some(create_file(self.files, self.path.as_str())?);
        }
        match &mut self.opened {
            Some(file) => write_to(file, at, bytes),
            None => Err(io::Error::from(ErrorKind::NotFound)),
        }
    }

    /// Makes what was written durable, with its length, and its name; where it is missing there is nothing to do. The times
    /// of the file are synced with its name, at the first call, and not again.
    pub fn sync(&mut self) -> io::Result<()> {
        let is_named = self.folder_is_synced;
        let Some(file) = self.open()? else {
            return Ok(());
        };
        if is_named {
            return file.sync_data();
        }
        file.sync_all()?;
        sync_folder(self.files, folder_of(self.path.as_str()))?;
        self.folder_is_synced = true;
        Ok(())
    }
}

// Opens a file that is there, for reading and writing, or for reading alone where it may not be written.
fn open_existing<R: Files>(files: &R, path: &str) -> io::Result<Option<R::File>> {
    let opened = OpenOptions::new().read(true).write(true).open(files, path);
    let opened = match opened {
        Err(error) if is_read_only(error.kind()) => File::open(files, path),
        answer => answer,
    };
    match opened {
        Ok(file) => Ok(Some(file)),
        Err(error) if error.kind() == ErrorKind::NotFound => Ok(None),
        Err(error) => Err(error),
    }
}

fn is_read_only(kind: ErrorKind) -> bool {
    kind == ErrorKind::PermissionDenied || kind == ErrorKind::ReadOnlyFilesystem
}

fn write_to<F: Write + Seek>(file: &mut F, at: u64, bytes: &[u8]) -> io::Result<()> {
    file.seek(SeekFrom::Start(at))?;
    match write_all(&mut StdSink::new(file), bytes) {
        Ok(()) => Ok(()),
        Err(_) => Err(io::Error::from(ErrorKind::Other)),
    }
}
