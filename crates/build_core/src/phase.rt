/// How far a build has come.
#[derive(Clone, Copy, Debug, PartialEq, Eq)]
pub enum Phase {
    /// It has taken no event.
    Unbegun,
    /// It goes on with the next event.
    Running,
    /// It has ended.
    Ended,
    /// The memory was refused while it took an event. It takes none any more, and what it shows is open.
    Stopped,
}
