//! The small list types that every other crate of the controller speaks with: `Text`, and `Sequence` with its
//! names for bytes, numbers, texts and pairs of texts.
//!
//! Each owns one `Vec`, and a contract sees it as the list of its elements: two values with the same elements are
//! equal in a contract, whatever their capacity. Each is made from a `Vec` and gives it back without memory.
//! What grows or copies one answers `AllocError` where the memory was refused, and then nothing has changed.
//!
//! ```
//! let mut greeting = Text::from_str(alloc, "hel")?;
//! greeting.append(b"lo")?;
//! assert!(greeting == Text::from_str(alloc, "hello")?);
//! ```
#![tactic(auto)]

mod pair;
mod sequence;
#[cfg(test)]
mod tests;
mod text;

pub use pair::Pair;
pub use sequence::{Bytes, Ids, Pairs, Sequence, Texts};
pub use text::Text;
