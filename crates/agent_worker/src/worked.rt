//! How a member's work ends.

/// How a member's work ended.
#[derive(Clone, Copy, Debug, PartialEq, Eq)]
pub enum Worked {
    /// There is nothing to do any more.
    Rest,
    /// The build is stopped.
    Stopped,
    /// There was no memory. The build is stopped then, for want of memory where nothing stopped it before.
    Memory,
    /// The answers could not be read.
    AnswersFailed,
}
