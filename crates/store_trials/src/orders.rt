//! What the lines of a trial ask for.

use trial_text::split_word;

/// Which call fails.
#[derive(Clone, Copy)]
pub struct Fault {
    /// The device that is called.
    pub device: Device,
    /// The number of the call; the first one of a device is number 1.
    pub call: u64,
}

/// Of which device a call fails.
#[derive(Clone, Copy, PartialEq, Eq)]
pub enum Device {
    /// The script.
    Script,
    /// The agents file.
    Agents,
    /// The answer lines.
    Answers,
    /// The output.
    Out,
    /// The disk.
    Disk,
    /// The disk, and each call of it behind that one too.
    Machine,
}

/// A file of the folder.
#[derive(Clone, Copy)]
pub enum File {
    /// `Jenkinsfile`.
    Script,
    /// `agents.json`.
    Agents,
    /// `program.dat`.
    Store,
}

/// A command of the controller.
#[derive(Clone, Copy)]
pub struct Command<'a> {
    /// The words of the command line, with a blank between two of them.
    pub words: &'a str,
    /// The answer lines, with ` | ` between two of them.
    pub answers: &'a str,
}

/// A life behind which the machine crashes, and the next one.
#[derive(Clone, Copy)]
pub struct Lives<'a> {
    /// Where the first life ends at each call of the disk in turn: `Disk` where one call fails, `Machine` where all
    /// do from there on.
    pub device: Option<Device>,
    /// In how many ways the machine crashes then.
    pub ways: u32,
    /// How far apart the choices of these crashes are.
    pub step: u32,
    /// What the first life does.
    pub first: Command<'a>,
    /// The answers of the second one.
    pub answers: &'a str,
}

/// A command over a store that is longer than memory has room for.
#[derive(Clone, Copy)]
pub struct Stretch<'a> {
    /// Where zeros are put into the store.
    pub at: u32,
    /// How many zeros.
    pub zeros: u32,
    /// What is done.
    pub command: Command<'a>,
}

/// What a task does on each host.
#[derive(Clone, Copy)]
pub struct Outcome<'a> {
    /// The number of the task.
    pub task: u32,
    /// The code with which it ends.
    pub code: i32,
    /// How many looks find it running; `u32::MAX` looks where it never ends.
    pub looks: u32,
    /// What it writes to its log, in which `\n` stands for a newline.
    pub log: &'a str,
    /// What it writes to its output.
    pub out: &'a str,
    /// How often what it writes to its log is written.
    pub times: u32,
}

/// The hosts of a trial.
#[derive(Clone, Copy)]
pub struct Hosting {
    /// How many of them there are on which tasks do something.
    pub count: u32,
    /// The call of each that fails; 0 where none does.
    pub fails_at: u64,
}

/// What a line of a trial asks for.
#[derive(Clone, Copy)]
pub enum Order<'a> {
    /// The folder has this agents file, which is known before.
    Agents,
    /// The controller is called.
    Call(Command<'a>),
    /// The machine crashes behind a command, which is gone on with.
    Lives(Lives<'a>),
    /// The controller is called over a stretched store.
    Stretch(Stretch<'a>),
    /// The store's bytes are written.
    Bytes,
    /// Something is otherwise from now on.
    Change(Change<'a>),
}

/// What is otherwise from now on.
#[derive(Clone, Copy)]
pub enum Change<'a> {
    /// A call fails at the next command.
    Fail(Fault),
    /// The folder has a store of these bytes.
    Store(&'a str),
    /// A file loses so many bytes at its end.
    Cut(File, u32),
    /// A file gets newlines at its end until it has so many bytes.
    Long(File, u32),
    /// A task of the hosts that are made then.
    Task(Outcome<'a>),
    /// The folder of a task stands on the hosts that are made then.
    Folder(u32),
    /// There are new hosts.
    Hosts(Hosting),
}

/// Reads an order. `None` where the line is none.
pub fn read_order(line: &str) -> Option<Order<'_>> {
    if let Some(command) = read_command(line) {
        return Some(Order::Call(command));
    }
    let (word, rest) = split_word(line);
    match word {
        "agents" => Some(Order::Agents),
        "crashes" => Some(Order::Lives(read_lives(None, rest)?)),
        "stops" => Some(Order::Lives(read_lives(Some(Device::Machine), rest)?)),
        "fails" => Some(Order::Lives(read_lives(Some(Device::Disk), rest)?)),
        "stretch" => Some(Order::Stretch(read_stretch(rest)?)),
        "bytes" if rest.is_empty() => Some(Order::Bytes),
        _ => Some(Order::Change(read_change(word, rest)?)),
    }
}

/// Reads what is otherwise from now on: a word, and what stands behind it.
fn read_change<'a>(word: &str, rest: &'a str) -> Option<Change<'a>> {
    match word {
        "fail" => Some(Change::Fail(read_fault(rest)?)),
        "store" if are_bytes(rest) => Some(Change::Store(rest)),
        "cut" => {
            let (file, bytes) = read_size(rest)?;
            Some(Change::Cut(file, bytes))
        }
        "long" => {
            let (file, bytes) = read_size(rest)?;
            Some(Change::Long(file, bytes))
        }
        "task" => Some(Change::Task(read_task(rest)?)),
        "folder" => Some(Change::Folder(read_number(rest)?)),
        "hosts" => Some(Change::Hosts(read_hosts(rest)?)),
        _ => None,
    }
}

/// Reads the name of a file, and a number of bytes.
fn read_size(line: &str) -> Option<(File, u32)> {
    let (word, bytes) = split_word(line);
    let file = match word {
        "script" => File::Script,
        "agents" => File::Agents,
        "store" => File::Store,
        _ => return None,
    };
    Some((file, read_number(bytes)?))
}

/// Reads a number of decimal digits below 4294967296.
fn read_number(digits: &str) -> Option<u32> {
    digits.parse::<u32>().ok()
}

/// The byte of two digits of base 16.
pub fn read_byte(digits: &str) -> Option<u8> {
    u8::from_str_radix(digits, 16).ok()
}

/// Whether there are bytes, of two digits of base 16 each, with a blank between two of them.
fn are_bytes(digits: &str) -> bool {
    for byte in digits.split(" ") {
        if read_byte(byte).is_none() {
            return false;
        }
    }
    true
}

/// Reads a command. `None` where the line is none.
fn read_command(line: &str) -> Option<Command<'_>> {
    let (word, answers) = split_word(line);
    let words = match word {
        "run" => "controller run demo",
        "resume" => "controller resume demo",
        "log" => "controller log demo",
        "graph" => "controller graph demo",
        "check" => "controller check demo",
        "words" => {
            return Some(Command {
                words: answers,
                answers: "",
            });
        }
        _ => return None,
    };
    Some(Command { words, answers })
}

/// Reads which call of which device fails.
fn read_fault(line: &str) -> Option<Fault> {
    let (word, call) = split_word(line);
    let device = match word {
        "script" => Device::Script,
        "agents" => Device::Agents,
        "answers" => Device::Answers,
        "out" => Device::Out,
        "disk" => Device::Disk,
        _ => return None,
    };
    let call = u64::from(read_number(call)?);
    Some(Fault { device, call })
}

/// Reads two lives: in how many ways the machine crashes between them, how far apart their choices are, the command
/// of the first, and behind ` ; ` the answers of the second.
fn read_lives(device: Option<Device>, line: &str) -> Option<Lives<'_>> {
    let (ways, behind) = split_word(line);
    let (step, behind) = split_word(behind);
    let (first, answers) = behind.split_once(" ; ")?;
    Some(Lives {
        device,
        ways: read_number(ways)?,
        step: read_number(step)?,
        first: read_command(first)?,
        answers,
    })
}

/// Reads a command over a stretched store: where zeros are put in, how many, and the command.
fn read_stretch(line: &str) -> Option<Stretch<'_>> {
    let (at, behind) = split_word(line);
    let (zeros, command) = split_word(behind);
    Some(Stretch {
        at: read_number(at)?,
        zeros: read_number(zeros)?,
        command: read_command(command)?,
    })
}

/// Reads what a task does: its number, its code, how many looks find it running, how often its log is written, its
/// log, and behind ` | ` its output.
fn read_task(line: &str) -> Option<Outcome<'_>> {
    let (task, behind) = split_word(line);
    let (code, behind) = split_word(behind);
    let (looks, behind) = split_word(behind);
    let (times, texts) = split_word(behind);
    let (log, out) = texts.split_once(" | ").unwrap_or((texts, ""));
    Some(Outcome {
        task: read_number(task)?,
        code: code.parse::<i32>().ok()?,
        looks: read_number(looks)?,
        times: read_number(times)?,
        log,
        out,
    })
}

/// Reads how many hosts there are, and which call of each fails.
fn read_hosts(line: &str) -> Option<Hosting> {
    let (count, call) = split_word(line);
    let fails_at = if call.is_empty() {
        0
    } else {
        u64::from(read_number(call)?)
    };
    Some(Hosting {
        count: read_number(count)?,
        fails_at,
    })
}
