//! The control folder of a task.

ghost use Rattle.std.specs.Prelude.{◌≡◌, ◌++◌, IfOk, string_bytes, codes};
ghost use Rattle.control_folders.specs.Control.{parent_of, control_folder, file_in, entry_name, stream_entry, build_file};
ghost use Rattle.hex.specs.Hex.{encode_lower};

use edge_files::BuildId;
use std::alloc::{AllocError, Global};
use std::io::ErrorKind;
use std::rt::Files;
use std::{fs, io};
use task_host::{Order, Stream};

/// The path of a task's control folder, `WORKSPACE@tmp/durable-X`, where X is the task's number as eight lower
/// hexadecimal digits. It stands beside the workspace, so that a script which clears its workspace does not clear it.
#[derive(Drop)]
pub struct ControlFolder {
    /// `WORKSPACE@tmp`
    pub parent: String,
    pub path: String,
}

/// A file of a control folder.
#[derive(Clone, Copy, Debug, PartialEq, Eq)]
pub enum Entry {
    /// The script.
    Script,
    /// What the task writes to its log. It stands from the start of the task on.
    Log,
    /// What the task writes to standard output, where the step keeps that apart.
    Output,
    /// The exit code. It stands from the end of the script on.
    Result,
    /// The permit, before it has its name.
    NewPermit,
    /// The file that whoever runs the script has to take first.
    Permit,
    /// The permit, once it was taken.
    Started,
    /// The permit, once it was withdrawn.
    Withdrawn,
    /// The process that took the permit.
    Process,
    /// The name of the machine on which that process is, where it was started elsewhere.
    Machine,
    /// The script that starts the task elsewhere. It is there where a program of the agent was to start it.
    Task,
    /// What is made for a moment where it is asked whether the task lives elsewhere.
    Asked,
}

impl Entry {
    fn name(self) -> &'static str
        ensures { result.now ≡ entry_name self }
    {
        match self {
            Entry::Script => "script.sh",
            Entry::Log => "jenkins-log.txt",
            Entry::Output => "output.txt",
            Entry::Result => "jenkins-result.txt",
            Entry::NewPermit => "permit.tmp",
            Entry::Permit => "permit",
            Entry::Started => "started",
            Entry::Withdrawn => "revoked",
            Entry::Process => "process",
            Entry::Machine => "machine",
            Entry::Task => "task",
            Entry::Asked => "asked",
        }
    }
}

impl From<Stream> for Entry {
    /// The file that a task writes a stream to.
    fn from(stream: Stream) -> Entry
        ensures { result ≡ stream_entry stream }
    {
        match stream {
            Stream::Log => Entry::Log,
            Stream::Out => Entry::Output,
        }
    }
}

/// How far the task of a control folder is.
#[derive(Clone, Copy, Debug, PartialEq, Eq)]
pub enum Found {
    /// There is no such folder.
    Nothing,
    /// Neither a log nor a result: the task was not started.
    Unstarted,
    /// A log and no result: the task was started.
    Running,
    /// A result: the task has ended.
    Ended,
}

impl ControlFolder {
    /// The control folder of the order's task.
    ///
    /// # Errors
    ///
    /// Where the workspace is not UTF-8, or there is no memory.
    pub fn of(alloc: Global, order: &Order) -> io::Result<ControlFolder>
        ensures parent { IfOk result (λ folder. string_bytes folder.parent ≡ parent_of order.now.workspace) }
        ensures path { IfOk result (λ folder. string_bytes folder.path ≡ control_folder order.now.workspace order.now.task) }
    {
        let workspace = text(order.workspace.as_slice())?;
        let task = order.task;
        Ok(ControlFolder {
            parent: format!(in alloc; "{workspace}@tmp")?,
            path: format!(in alloc; "{workspace}@tmp/durable-{task:08x}")?,
        })
    }

    /// How far its task is.
    ///
    /// # Errors
    ///
    /// Where the system does not tell, or there is no memory.
    pub fn found<R: Files + AllocGlobal>(&self, rt: &R) -> io::Result<Found> {
        if !is_there(rt, self.path.as_str())? {
            return Ok(Found::Nothing);
        }
        if self.has(rt, Entry::Result)? {
            return Ok(Found::Ended);
        }
        if self.has(rt, Entry::Log)? {
            return Ok(Found::Running);
        }
        Ok(Found::Unstarted)
    }

    /// Whether it has this file.
    ///
    /// # Errors
    ///
    /// Where the system does not tell, or there is no memory.
    pub fn has<R: Files + AllocGlobal>(&self, rt: &R, entry: Entry) -> io::Result<bool> {
        is_there(rt, self.entry(rt.alloc(), entry)?.as_str())
    }

    /// The text of this file. `None` where it has no such file.
    ///
    /// # Errors
    ///
    /// Where the file cannot be read, and where there is no memory.
    pub fn read<R: Files + AllocGlobal>(&self, rt: &R, entry: Entry) -> io::Result<Option<String>> {
        match fs::read_to_string(rt, self.entry(rt.alloc(), entry)?.as_str()) {
            Ok(text) => Ok(Some(text)),
            Err(error) if error.kind() == ErrorKind::NotFound => Ok(None),
            Err(error) => Err(error),
        }
    }

    /// The path of this file.
    pub fn entry(&self, alloc: Global, entry: Entry) -> Result<String, AllocError>
        ensures { IfOk result (λ path. string_bytes path ≡ file_in (string_bytes self.now.path) (entry_name entry)) }
    {
        self.file(alloc, entry.name())
    }

    /// The file by which it names its build, of which the name alone counts.
    pub fn build(&self, alloc: Global, build: &BuildId) -> Result<String, AllocError>
        ensures { IfOk result (λ path. string_bytes path ≡ file_in (string_bytes self.now.path) (build_file build.now.bits)) }
    {
        let digits = hex::encode(alloc, build.bits)?;
        let name = format!(in alloc; "build-{digits}")?;
        self.file(alloc, name.as_str())
    }

    /// Whether it names this build.
    ///
    /// # Errors
    ///
    /// Where the system does not tell, or there is no memory.
    pub fn names<R: Files + AllocGlobal>(&self, rt: &R, build: &BuildId) -> io::Result<bool> {
        is_there(rt, self.build(rt.alloc(), build)?.as_str())
    }

    /// A file in it.
    pub fn file(&self, alloc: Global, name: &str) -> Result<String, AllocError>
        ensures { IfOk result (λ path. string_bytes path ≡ file_in (string_bytes self.now.path) name.now) }
    {
        let path = self.path.as_str();
        let path = format!(in alloc; "{path}/{name}")?;
        Ok(path)
    }
}

// Whether there is something at a path. A name that is too long, or one below a file, is no file's.
fn is_there(files: &impl Files, path: &str) -> io::Result<bool> {
    match fs::exists(files, path) {
        Err(error) if names_nothing(error.kind()) => Ok(false),
        answer => answer,
    }
}

fn names_nothing(kind: ErrorKind) -> bool {
    matches!(kind, ErrorKind::InvalidFilename | ErrorKind::NotADirectory)
}

/// Bytes of an order as a path or a variable of the system.
///
/// # Errors
///
/// Where they are not UTF-8.
pub fn text(bytes: &[u8]) -> io::Result<&str>
    ensures { IfOk result (λ text. text.now ≡ bytes.now) }
{
    match std::str::from_utf8(bytes) {
        Ok(text) => Ok(text),
        Err(_) => Err(io::Error::new(
            ErrorKind::InvalidInput,
            "a workspace, a folder or a variable is not UTF-8",
        )),
    }
}
