//! What every device of this product says of its failures: a call that fails is counted.
//!
//! A source, a sink, a disk or a host can fail at any call, and no program can foresee it. Each keeps a
//! count of its faults, which contracts can read. The count rises exactly at the calls that answer
//! [`Failed`], so whoever reports "the disk failed" can be held to it: the count of that disk rose.
//!
//! For example, an adapter of a real file holds a [`Faults`], and where the system answers an error it
//! ends its call with `Err(self.faults.rise())`.
#![tactic(auto)]

mod failing;
mod faults;

pub use failing::FailingCalls;
pub use faults::{Failed, Faults};
