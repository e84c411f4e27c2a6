//! Why a group refuses a thread or an answer, and the number at which it does.

/// The most green threads that live at once.
pub(crate) const MAX_THREADS: usize = 256;

/// Why a thread was not taken in. The group is as it was then.
#[derive(Clone, Copy, Debug, PartialEq, Eq)]
pub enum SpawnRefusal {
    /// The memory was refused. It is told only where fewer than 256 threads live.
    Memory,
    /// 256 threads live, or more. It is told whether there is memory or not.
    ThreadLimit,
}

/// The thread does not wait for the answer to a request, or there is none of this number.
#[derive(Clone, Copy, Debug, PartialEq, Eq)]
pub struct NotWaiting;
