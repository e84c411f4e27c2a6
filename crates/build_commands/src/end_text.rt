//! What is written of a build that rests.

/// What is written of a build that has ended or waits.
#[derive(Clone, Copy, Debug, PartialEq, Eq)]
pub enum EndText {
    /// Its log.
    Log,
    /// The lines that tell the numbers of a build that was generated, of so many stages.
    Numbers(u32),
}
