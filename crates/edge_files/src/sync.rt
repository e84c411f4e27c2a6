//! Folders, made durable.

use std::fs::OpenFile;
use std::io::ErrorKind;
use std::path::Path;
use std::rt::Files;
use std::{fs, io};

/// Syncs a folder, so that a power cut cannot lose the names that it holds now.
///
/// # Errors
///
/// Those of opening the folder and of the sync.
pub fn sync_folder(files: &impl Files, path: &str) -> io::Result<()> {
    fs::open(files, path)?.sync_all()
}

/// The folder that holds the file at a path.
pub fn folder_of(path: &str) -> &str {
    match Path::new(path).parent() {
        Some(folder) if !folder.as_str().is_empty() => folder.as_str(),
        _ => ".",
    }
}

/// Makes a folder, and those above it that are missing. Each, made or found, is synced into the one that holds it, so
/// that a power cut cannot lose it: one that was found may have been made by another host just now.
///
/// # Errors
///
/// Those of making a folder and of the sync, after which the folder that was made is removed again; and where there is
/// no memory for a path. A folder that was found, in one that may not be read or cannot be synced at all, is taken for
/// durable: a host that makes one there does not leave it.
pub fn make_durable<R: Files + AllocGlobal>(rt: &R, path: &str) -> io::Result<()> {
    let mut level = String::new(rt.alloc());
    for (index, part) in path.split('/').enumerate() {
        if index > 0 {
            level.push('/')?;
        }
        let holder = level.clone()?;
        level.push_str(part)?;
        if !part.is_empty() {
            make_level(rt, holder.as_str(), level.as_str())?;
        }
    }
    Ok(())
}

// One folder in the one that holds it; no path is the working folder's.
fn make_level(files: &impl Files, holder: &str, path: &str) -> io::Result<()> {
    let holder = if holder.is_empty() { "." } else { holder };
    match fs::create_dir(files, path) {
        Ok(()) => sync_made(files, holder, path),
        Err(error) if error.kind() == ErrorKind::AlreadyExists => sync_found(files, holder),
        Err(error) => Err(error),
    }
}

/// Syncs the folder in which this call made another. Where that fails, the one that was made goes again, so that no later
/// call takes it for durable.
///
/// # Errors
///
/// Those of the sync.
pub fn sync_made(files: &impl Files, holder: &str, made: &str) -> io::Result<()> {
    let synced = sync_folder(files, holder);
    if synced.is_err() {
        let _ = fs::remove_dir(files, made);
    }
    synced
}

// Syncs a folder in which nothing was made by this call.
fn sync_found(files: &impl Files, path: &str) -> io::Result<()> {
    match sync_folder(files, path) {
        Err(error) if forbids_sync(error.kind()) => Ok(()),
        answer => answer,
    }
}

fn forbids_sync(kind: ErrorKind) -> bool {
    matches!(
        kind,
        ErrorKind::PermissionDenied
            | ErrorKind::ReadOnlyFilesystem
            | ErrorKind::InvalidInput
            | ErrorKind::Unsupported
    )
}
