//! The lock that keeps a second controller from a store.

ghost use Rattle.std.specs.Prelude.{◌≡◌, ◌≢◌, ◌↔◌, IsTrue};
ghost use Rattle.real_edge.specs.StoreLock.{IsSettled, Settles};

use edge_files::private::open_or_create;
use std::fs::{File, TryLockError};
use std::rt::Files;

/// A lock of the system on a file, which two values never hold at one time: not two of one process, and not those of two
/// processes. It is held until the value goes or its process ends, however that ends, and no process that was started
/// meanwhile has it. The file is made where it is missing, and stays; the lock changes nothing of
/// its bytes.
#[derive(Drop)]
pub enum StoreLock<'a, R> {
    /// None is asked for.
    Unneeded,
    /// It is to be taken.
    Wanted(LockFile<'a, R>),
    /// It is held, by this open file.
    Held(File),
    /// It was asked for and could not be had. It is not asked for again.
    Refused,
}

/// The file of a lock that is to be taken.
#[derive(Drop)]
pub struct LockFile<'a, R> {
    rt: &'a R,
    path: String,
}

impl<'a, R: Files<File = File> + Eprint> StoreLock<'a, R> {
    /// The lock on the file at this path, which is to be taken.
    pub fn wanted(rt: &'a R, path: String) -> Self
        ensures wanted { result ≡ StoreLock.Wanted (record { rt = rt.entry; path = path }) }
    {
        StoreLock::Wanted(LockFile { rt, path })
    }

    /// Takes the lock where it is wanted, and says whether the store may be used. Why it could not be had is said on
    /// standard error.
    pub fn settle(&mut self) -> bool
        ensures settled { Settles self.old self.new }
        ensures free { IsTrue result ↔ (self.new ≢ StoreLock.Refused) }
    {
        if let StoreLock::Wanted(file) = self {
            *self = file.ask();
        }
        !matches!(self, StoreLock::Refused)
    }
}

impl<'a, R: Files<File = File> + Eprint> LockFile<'a, R> {
    // Asks for the lock. Why it could not be had is said on standard error.
    fn ask(&self) -> StoreLock<'a, R>
        ensures settled { IsSettled result }
    {
        let path = self.path.as_str();
        match locked(self.rt, path) {
            Ok(file) => return StoreLock::Held(file),
            Err(TryLockError::WouldBlock) => {
                let _ = eprintln!(self.rt;
                    "controller: another controller is at work: it holds {path}"
                );
            }
            Err(TryLockError::Error(reason)) => {
                let _ = eprintln!(self.rt; "controller: {path} cannot be locked: {reason}");
            }
        }
        StoreLock::Refused
    }
}

// Opens the file at a path, makes it where it is missing, and locks it.
fn locked(files: &impl Files<File = File>, path: &str) -> Result<File, TryLockError> {
    match open_or_create(files, path) {
        Ok(file) => {
            file.try_lock()?;
            Ok(file)
        }
        Err(error) => Err(TryLockError::Error(error)),
    }
}
