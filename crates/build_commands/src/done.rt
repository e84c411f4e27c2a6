//! How a command ends.

use build_life::locked_build::History;

/// How a command over the store of a build has ended that lets no build go on.
#[derive(Drop)]
pub struct Done<D> {
    /// The exit status of the program.
    pub status: u8,
    /// The disk, as the command leaves it.
    pub disk: D,
}

/// How a call has ended that has hosts and answers.
#[derive(Drop)]
pub struct Ended<D, H, A> {
    /// The exit status of the program.
    pub status: u8,
    /// The disk, as the call leaves it.
    pub disk: D,
    /// The hosts, each at its place: host i is that of executor i.
    pub hosts: Vec<H>,
    /// The answers, as far as they were not read.
    pub answers: A,
    /// What happened in the life that the call led, behind the grants that a stop had left out; empty where it led none.
    pub history: History,
}
