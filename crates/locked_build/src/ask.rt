//! What is asked of a site state, and what it says.
use agent_worker::{Claim, Heard, Inputs};
use journal_core::TakeFault;
use model_run::{Event, Taken};
use model_text::Bytes;

/// What is asked of a site state.
#[derive(Drop)]
pub enum Ask {
    /// To take an event, and to make the grants that are due behind it.
    Take(Event),
    /// For the next task of the executor with this number.
    Claim(u32),
    /// How many inputs and how many claims are open.
    Inputs,
    /// To decide the input that an answer line names, which is given without what ended it.
    Answer(Bytes),
    /// How far the build has come.
    Look,
    /// To stop the build for want of memory, where nothing stopped it before.
    Halt,
}

/// What happened to a site state.
#[derive(Debug, PartialEq, Eq, Drop)]
pub enum Entry {
    /// The event was taken, and is on the disk.
    Took(Event),
    /// The task was claimed for the executor, with or without a stream `Out` of its own. So many bytes of its streams `Log` and
    /// `Out` were taken then.
    Claimed {
        executor: u32,
        task: u32,
        keep_out: bool,
        kept_log: u64,
        kept_out: u64,
    },
    /// The answer line was heard: the next entry is its decision, where it decided an input.
    Line(Bytes),
    /// The build was stopped by this fault: `Disk` and `Full` of this event, `Memory` without one.
    Failed {
        fault: TakeFault,
        event: Option<Event>,
    },
}

/// What happened in one life, in order.
pub type History = Vec<Entry>;

/// How far a build has come. Of a stopped build nothing else is told: it has not ended, and nothing of it is open.
#[derive(Clone, Copy, Debug, PartialEq, Eq)]
pub struct Progress {
    /// Whether the build has ended.
    pub ended: bool,
    /// Whether a fault stopped it.
    pub stopped: bool,
    /// The number of open tasks, at most `u32::MAX`.
    pub tasks: u32,
    /// The number of open inputs, at most `u32::MAX`.
    pub waiting: u32,
}

/// What a site state says to an ask.
#[derive(Drop)]
pub enum Reply {
    /// To [`Ask::Take`].
    Taken(Result<Taken, TakeFault>),
    /// To [`Ask::Claim`].
    Claimed(Claim),
    /// To [`Ask::Inputs`].
    Inputs(Inputs),
    /// To [`Ask::Answer`].
    Heard(Result<Heard, TakeFault>),
    /// To [`Ask::Look`].
    Progress(Progress),
    /// To [`Ask::Halt`].
    Halted,
}
