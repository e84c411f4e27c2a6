//! The file of a store, with what is kept beside it.

ghost use Rattle.std.specs.Prelude.{◌≤◌, length, IfOk};

use crate::file_at_path::FileAtPath;
use crate::identity::{BuildId, Identity};
use crate::record_sums::{RecordSums, SumFault};
use crate::store_start::StoreStart;
use std::io;
use std::io::ErrorKind;
use std::random::RandomSource;
use std::rt::Files;

/// For what a store is opened.
#[derive(Clone, Copy, Debug, PartialEq, Eq)]
pub enum StoreUse {
    /// To be read.
    Reads,
    /// For a build that begins, where there is none.
    Begins,
    /// For a build that goes on.
    GoesOn,
}

/// The paths of the store's file, of the sums of its records, and of the file in which it keeps which build it is.
#[derive(Drop)]
pub struct StorePaths {
    pub store: String,
    pub sums: String,
    pub identity: String,
}

/// The file of a store.
///
/// At the first call it is looked at: what is no store is refused, and so is one with a record that has other bytes than
/// those that were written. A build that begins gets its identity then, and so does one that goes on and has none, from
/// before builds had one. From then on each call is that of the file, and each sync that succeeded writes the sums of the
/// records that were added. A store that was refused stays so, and nothing of it changes; why is said on standard error.
///
/// # Errors
///
/// Of every call: where the store is refused; and those of the file.
#[derive(Drop)]
pub struct StoreFile<'a, R: Files> {
    rt: &'a R,
    file: FileAtPath<'a, R>,
    beside: Beside<'a, R>,
}

// What is kept beside the file.
#[derive(Drop)]
enum Beside<'a, R: Files> {
    /// Nothing: it need be no store.
    Nothing,
    /// The file was not looked at yet.
    Unopened {
        sums: String,
        identity: String,
        how: StoreUse,
    },
    /// It may be used, and has no identity.
    Unnamed,
    /// It may be used.
    Opened(RecordSums<'a, R>),
    /// It may not be used.
    Refused,
}

// Why a store is refused.
#[derive(Drop)]
enum Refusal {
    NoStore,
    Sums(SumFault),
    Io(io::Error),
}

impl<'a, R: Files> StoreFile<'a, R> {
    /// The file at this path, whatever it is. Nothing is kept beside it.
    pub fn plain(rt: &'a R, path: String) -> Self {
        StoreFile {
            rt,
            file: FileAtPath::new(rt, path),
            beside: Beside::Nothing,
        }
    }

    /// The store at these paths, opened for this use.
    pub fn new(rt: &'a R, paths: StorePaths, how: StoreUse) -> Self {
        let StorePaths {
            store,
            sums,
            identity,
        } = paths;
        StoreFile {
            rt,
            file: FileAtPath::new(rt, store),
            beside: Beside::Unopened {
                sums,
                identity,
                how,
            },
        }
    }
}

impl<'a, R: Files + AllocGlobal + Eprint + RandomSource> StoreFile<'a, R> {
    /// Its length, 0 where it is missing.
    pub fn len(&mut self) -> io::Result<u64> {
        self.enter()?;
        self.file.len()
    }

    /// Reads bytes from a place on; none where it is missing.
    pub fn read_at(&mut self, at: u64, buf: &mut [u8]) -> io::Result<usize>
        ensures room { IfOk result (λ n. n ≤ length buf.old) }
    {
        self.enter()?;
        self.file.read_at(at, buf)
    }

    /// Writes bytes from a place on. A file that is missing is made, and nobody but its owner may read it.
    pub fn write_at(&mut self, at: u64, bytes: &[u8]) -> io::Result<()> {
        self.enter()?;
        if let Beside::Opened(sums) = &mut self.beside {
            sums.note(at, bytes);
        }
        self.file.write_at(at, bytes)
    }

    /// Makes what was written durable, with its length, and its name, and then writes the sum of the record that was added.
    pub fn sync(&mut self) -> io::Result<()> {
        self.enter()?;
        self.file.sync()?;
        if let Beside::Opened(sums) = &mut self.beside {
            sums.follow(&mut self.file);
        }
        Ok(())
    }

    // Looks at the store before anything else is done with it, once.
    fn enter(&mut self) -> io::Result<()> {
        let Beside::Unopened {
            sums,
            identity,
            how,
        } = &self.beside
        else {
            return match self.beside {
                Beside::Refused => Err(io::Error::from(ErrorKind::InvalidData)),
                _ => Ok(()),
            };
        };
        match opened(
            self.rt,
            &mut self.file,
            sums.as_str(),
            identity.as_str(),
            *how,
        ) {
            Ok(beside) => {
                self.beside = beside;
                Ok(())
            }
            Err(refusal) => {
                tell(self.rt, self.file.path(), &refusal);
                self.beside = Beside::Refused;
                Err(io::Error::from(ErrorKind::InvalidData))
            }
        }
    }
}

impl From<io::Error> for Refusal {
    fn from(error: io::Error) -> Refusal {
        Refusal::Io(error)
    }
}

impl From<SumFault> for Refusal {
    fn from(fault: SumFault) -> Refusal {
        Refusal::Sums(fault)
    }
}

// Opens a store for a use, and answers what is kept beside it.
fn opened<'a, R: Files + AllocGlobal + Eprint + RandomSource>(
    rt: &'a R,
    file: &mut FileAtPath<'a, R>,
    sums: &str,
    identity: &str,
    how: StoreUse,
) -> Result<Beside<'a, R>, Refusal> {
    let start = start_of(file)?;
    if start == StoreStart::Other {
        return Err(Refusal::NoStore);
    }
    if start == StoreStart::CutShort {
        expect_no_sums(rt, file, sums, identity)?;
    }
    let is_begun = start == StoreStart::Record;
    let Some(build) = build_of(rt, identity, how, is_begun)? else {
        return Ok(Beside::Unnamed);
    };
    let may_change = is_begun == (how == StoreUse::GoesOn) && how != StoreUse::Reads;
    let mut sums = RecordSums::new(rt, text_of(rt, sums)?, build, may_change);
    if may_change && how == StoreUse::Begins {
        sums.begin()?;
    }
    if is_begun {
        let lacking = sums.check(file)?;
        if may_change && lacking > 0 {
            tell_lacking(rt, file.path(), lacking);
        }
    }
    Ok(Beside::Opened(sums))
}

// A store of one record whose open gate became a closed one looks as if it was never begun. Its sum tells.
fn expect_no_sums<R: Files + AllocGlobal>(
    rt: &R,
    file: &mut FileAtPath<'_, R>,
    sums: &str,
    identity: &str,
) -> Result<(), Refusal> {
    let Ok(Some(identity)) = Identity::read(rt, identity) else {
        return Ok(());
    };
    let mut sums = RecordSums::new(rt, text_of(rt, sums)?, identity.build, false);
    sums.check(file)?;
    Ok(())
}

fn text_of(rt: &impl AllocGlobal, text: &str) -> io::Result<String> {
    Ok(String::from_str(rt.alloc(), text)?)
}

// What the file may be.
fn start_of<R: Files>(file: &mut FileAtPath<'_, R>) -> io::Result<StoreStart> {
    let mut head = [0u8; 5];
    let len = file.len()?;
    file.read_at(0, &mut head)?;
    let [gate, a, b, c, d] = head;
    match StoreStart::of(len, gate, u32::from_be_bytes([a, b, c, d])) {
        StoreStart::Other if gate == 0 && is_all_zero(file, len)? => Ok(StoreStart::CutShort),
        start => Ok(start),
    }
}

// Whether the file has only zeros, as where a power cut kept its length and lost its bytes.
fn is_all_zero<R: Files>(file: &mut FileAtPath<'_, R>, len: u64) -> io::Result<bool> {
    let mut at = 0u64;
    let mut buf = [0u8; 4096];
    for _ in 0..len {
        if at >= len {
            break;
        }
        let count = file.read_at(at, &mut buf)?;
        if count == 0 || buf[..count].iter().any(|byte| *byte != 0) {
            return Ok(false);
        }
        at = at.saturating_add(count as u64);
    }
    Ok(true)
}

// Which build the store is. A build that begins gets a new identity, and one that goes on without any gets one that takes
// control folders without a name. None where it has none.
fn build_of<R: Files + AllocGlobal + RandomSource>(
    rt: &R,
    path: &str,
    how: StoreUse,
    is_begun: bool,
) -> io::Result<Option<BuildId>> {
    let takes_unnamed = match how {
        StoreUse::Begins if !is_begun => false,
        StoreUse::GoesOn if is_begun => match Identity::read(rt, path)? {
            Some(identity) => return Ok(Some(identity.build)),
            None => true,
        },
        // Who may not read the identity reads the store without it.
        _ => {
            let identity = Identity::read(rt, path).unwrap_or(None);
            return Ok(identity.map(|identity| identity.build));
        }
    };
    let build = BuildId::random(rt)?;
    let identity = Identity {
        build,
        takes_unnamed,
    };
    identity.write(rt, path)?;
    Ok(Some(build))
}

// Says on standard error why the store at this path is refused.
fn tell(rt: &impl Eprint, path: &str, refusal: &Refusal) {
    let _ = match refusal {
        Refusal::NoStore => eprintln!(rt;
            "controller: {path} is not a store of this program; it was left alone"
        ),
        Refusal::Sums(SumFault::Changed(at)) => eprintln!(rt;
            "controller: {path}: the bytes of the record at {at} have changed since they were written"
        ),
        Refusal::Sums(SumFault::Io(error)) | Refusal::Io(error) => eprintln!(rt;
            "controller: {path} cannot be opened: {error}"
        ),
    };
}

// Says that sums were made anew.
fn tell_lacking(rt: &impl Eprint, path: &str, lacking: u64) {
    let _ = eprintln!(rt;
        "controller: {path}: records that had no sum: {lacking}; their sums were made anew"
    );
}
