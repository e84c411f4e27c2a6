//! The calls of a host, as a list keeps them.

use crate::{Bytes, Failed, Look, Made, Order, Started, Stream};

/// A call with its arguments and its answer.
#[derive(Drop)]
pub enum Call {
    MakeDir {
        order: Order,
        answer: Made,
    },
    Start {
        order: Order,
        answer: Started,
    },
    Look {
        order: Order,
        answer: Look,
    },
    Read {
        order: Order,
        stream: Stream,
        from: u64,
        /// The length of the buffer.
        room: u64,
        /// The bytes that were read, or none where the call failed.
        answer: Option<Bytes>,
    },
    Pause,
    Remove {
        order: Order,
        answer: Result<(), Failed>,
    },
}
