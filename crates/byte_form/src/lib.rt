//! Fields of stored bytes: `u8`, `u32`, `u64` and `i32` as big-endian numbers, and bytes behind their number as a
//! `u32`.
//!
//! A `put` writes one field behind what is there. A `take` reads the field that begins at a place, and answers it with
//! the place behind it. What a `put` wrote a `take` gives back, whatever follows it; what a `take` gives is spelled so,
//! and each value has one spelling; no spelling of a field is the beginning of another of its kind. A field for which
//! too few bytes are left is a [`FormFault`] at its own place.
//!
//! ```text
//! let mut out = Vec::new(alloc);
//! put_u8(&mut out, 3)?;               // 03
//! put_i32(&mut out, -1)?;             // 03 ff ff ff ff
//! let (code, at) = take_i32(&out, 1)?; // -1, and 5
//! ```
#![tactic(auto)]

mod fault;
mod put;
mod take;

pub use fault::{FormFault, Memory};
pub use put::{put_bytes, put_i32, put_u8, put_u32, put_u64};
pub use take::{spellings_are_apart, take_bytes, take_i32, take_u8, take_u32, take_u64};

#[cfg(test)]
mod tests;
