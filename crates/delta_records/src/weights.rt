//! What tells which kind of payload is due.

/// How many bytes the last whole payload of a journal has, and how many those behind it have together. They tell which
/// kind of payload is due: a whole image where there is none yet, or where `behind` is at least `whole`.
#[derive(Clone, Copy, Debug, PartialEq, Eq, Drop)]
pub struct Weights {
    /// The bytes of the last whole payload; 0 where there is none.
    pub whole: u64,
    /// The bytes of the payloads behind it together.
    pub behind: u64,
}
