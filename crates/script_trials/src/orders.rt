//! What happens to a build, as words.

use crate::shown::Shown;
use model_run::{Event, Stream, Why};
use model_text::{Bytes, Text};
use std::alloc::{AllocError, Global};
use trial_text::{number_of, split_word};

/// What a line of a trial asks for.
#[derive(Drop)]
pub enum Order {
    /// The agents file of the site, which is read before the build begins.
    Agents,
    /// Of the log its length and its last bytes alone are written.
    Tail,
    /// The build takes an event.
    Take(Event),
    /// The open requests, the held executors and the grant that is due are written.
    Requests,
    /// The text of the flow graph is written.
    Graph,
    /// Something of the image of the build is written.
    Image(Shown),
    /// None of these.
    Unknown,
}

/// Reads an order. `AllocError` where the memory was refused.
pub fn read_order(alloc: Global, line: &str) -> Result<Order, AllocError> {
    let (word, rest) = split_word(line);
    match word {
        "agents" => Ok(Order::Agents),
        "tail" => Ok(Order::Tail),
        "requests" => Ok(Order::Requests),
        "graph" => Ok(Order::Graph),
        "image" => read_shown(alloc, rest),
        _ => match read_event(alloc, word, rest)? {
            Some(event) => Ok(Order::Take(event)),
            None => Ok(Order::Unknown),
        },
    }
}

/// Reads what is to be shown of an image. `AllocError` where the memory was refused.
fn read_shown(alloc: Global, line: &str) -> Result<Order, AllocError> {
    let (word, rest) = split_word(line);
    Ok(match word {
        "bytes" => Order::Image(Shown::Bytes),
        "longer" => Order::Image(Shown::Longer),
        "kinds" => Order::Image(Shown::Kinds),
        "number" => {
            let (place, number) = split_word(rest);
            Order::Image(Shown::Number {
                place: number_of(place) as usize,
                number: number_of(number),
            })
        }
        "each" => each_of(read_line(alloc, rest)?),
        _ => Order::Unknown,
    })
}

/// Each byte of an image is raised, where there is an event for the builds in them.
fn each_of(event: Option<Event>) -> Order {
    match event {
        Some(event) => Order::Image(Shown::Each(event)),
        None => Order::Unknown,
    }
}

/// Reads the line of an event. `None` where its word is none of an event. `AllocError` where the memory was refused.
fn read_line(alloc: Global, line: &str) -> Result<Option<Event>, AllocError> {
    let (word, rest) = split_word(line);
    read_event(alloc, word, rest)
}

/// Reads an event: its word, the number of a request or a task, and what is known besides. `None` where the word is none of an
/// event. `AllocError` where the memory was refused.
fn read_event(alloc: Global, word: &str, rest: &str) -> Result<Option<Event>, AllocError> {
    let (first, behind) = split_word(rest);
    let number = number_of(first);
    Ok(Some(match word {
        "start" => start(alloc),
        "granted" => Event::Granted {
            request: number,
            executor: number_of(behind),
        },
        "exited" => Event::Exited {
            task: number,
            code: behind.parse::<i32>().unwrap_or(0),
        },
        "lost" => Event::Lost {
            task: number,
            why: why_of(behind),
        },
        "proceed" => decided(alloc, number, true, behind)?,
        "abort" => decided(alloc, number, false, behind)?,
        "log" => output(alloc, number, Stream::Log, behind)?,
        "out" => output(alloc, number, Stream::Out, behind)?,
        _ => return Ok(None),
    }))
}

/// The event with which a build begins. The bytes of its script and of its agents file, which the store keeps, are left out.
pub fn start(alloc: Global) -> Event {
    Event::Start {
        script: Bytes::new(alloc),
        agents: Bytes::new(alloc),
    }
}

/// Why a task is lost: `gone`, or any other word where it was not started.
fn why_of(word: &str) -> Why {
    if word == "gone" {
        Why::Gone
    } else {
        Why::NotStarted
    }
}

/// Somebody of this name has decided an input. `AllocError` where the memory was refused.
fn decided(alloc: Global, request: u32, proceed: bool, name: &str) -> Result<Event, AllocError> {
    Ok(Event::Decided {
        request,
        proceed,
        name: Text::from_str(alloc, name)?,
    })
}

/// Output of a task: the place of its first byte, and its bytes, in which `\n` is a newline. `AllocError` where the memory was
/// refused.
fn output(alloc: Global, task: u32, stream: Stream, rest: &str) -> Result<Event, AllocError> {
    let (from, text) = split_word(rest);
    let mut bytes = Vec::new(alloc);
    for (at, line) in text.split("\\n").enumerate() {
        if at > 0 {
            bytes.push(b'\n')?;
        }
        bytes.extend_from_slice(line.as_bytes())?;
    }
    Ok(Event::Output {
        task,
        stream,
        from: u64::from(number_of(from)),
        bytes: Bytes::from_vec(bytes),
    })
}
