//! Files and folders that only their owner may read: a store and a control folder hold what steps print.

use std::fs::{DirBuilder, OpenFile, OpenOptions};
use std::io;
use std::io::Write;
use std::os::unix::fs::{DirBuilderExt, OpenOptionsExt};
use std::rt::Files;

/// What a file's owner may do: read and write it.
const OWNERS_FILE: u32 = 0o600;

/// What the owner of a program may do: read, write and run it.
const OWNERS_PROGRAM: u32 = 0o700;

/// What a folder's owner may do: read, write and search it.
const OWNERS_FOLDER: u32 = 0o700;

/// Makes a file, for reading and writing.
///
/// # Errors
///
/// Where there is one, and where it cannot be made.
pub fn create_file<R: Files>(files: &R, path: &str) -> io::Result<R::File> {
    create_with(files, path, OWNERS_FILE)
}

/// Makes a file that its owner may run, for reading and writing.
///
/// # Errors
///
/// Where there is one, and where it cannot be made.
pub fn create_program<R: Files>(files: &R, path: &str) -> io::Result<R::File> {
    create_with(files, path, OWNERS_PROGRAM)
}

fn create_with<R: Files>(files: &R, path: &str, mode: u32) -> io::Result<R::File> {
    OpenOptions::new()
        .read(true)
        .write(true)
        .create_new(true)
        .mode(mode)
        .open(files, path)
}

/// Opens a file for reading and writing, and makes it where it is missing.
///
/// # Errors
///
/// Those of opening and making it.
pub fn open_or_create<R: Files>(files: &R, path: &str) -> io::Result<R::File> {
    OpenOptions::new()
        .read(true)
        .write(true)
        .create(true)
        .mode(OWNERS_FILE)
        .open(files, path)
}

/// Writes a file that has these bytes and no others from then on, and syncs it. Its name is not synced.
///
/// # Errors
///
/// Those of making, cutting, writing and syncing it.
pub fn write_durable(files: &impl Files, path: &str, bytes: &[u8]) -> io::Result<()> {
    let mut file = open_or_create(files, path)?;
    file.set_len(0)?;
    file.write_all(bytes)?;
    file.sync_all()
}

/// Makes a folder.
///
/// # Errors
///
/// Where there is something at this path, and where it cannot be made.
pub fn create_folder(files: &impl Files, path: &str) -> io::Result<()> {
    DirBuilder::new().mode(OWNERS_FOLDER).create(files, path)
}
