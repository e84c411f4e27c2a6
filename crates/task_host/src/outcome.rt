//! What the tasks of a host in memory do.

ghost use Rattle.std.specs.Prelude.{◌≡◌};
ghost use Rattle.task_host.specs.Tasks.{text_of};

use crate::{Bytes, Stream};
use model_text::Sequence;

/// What a task does once it was launched.
#[derive(Drop)]
pub struct TaskOutcome {
    /// The task's number.
    pub task: u32,
    /// What it writes to `Stream::Log`, all of it at once.
    pub log: Bytes,
    /// What it writes to `Stream::Out`, all of it at once.
    pub out: Bytes,
    /// How many looks say that it is running, before one says that it has ended.
    pub running: u32,
    /// The code with which it ends.
    pub code: i32,
}

impl TaskOutcome {
    /// What the task writes to this stream.
    pub fn text(&self, stream: Stream) -> &[u8]
        ensures { result.now ≡ text_of stream self.now }
    {
        match stream {
            Stream::Log => self.log.as_slice(),
            Stream::Out => self.out.as_slice(),
        }
    }
}

/// Outcomes. Of two of one task the first counts; a task with none runs for ever and writes nothing.
pub type TaskOutcomes = Sequence<TaskOutcome>;
