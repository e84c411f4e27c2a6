//! Lists that share their tails, as environments do: a copy of a `Chain`, and a chain with one more element in
//! front, take no copy of what stands behind.
//!
//! A contract sees a chain as the list of its elements, the first in front. A copy takes no memory, an element more
//! one allocation. Chains may move to other threads, and be shared among them, where their elements may.
//!
//! ```
//! let outer = Chain::new(alloc).with(1)?;
//! let inner = outer.clone()?.with(2)?;
//! assert!(inner.iter().copied().eq([2, 1]));
//! ```
#![tactic(auto)]

mod chain;
mod iter;
#[cfg(test)]
mod tests;

pub use chain::Chain;
pub use iter::Iter;
