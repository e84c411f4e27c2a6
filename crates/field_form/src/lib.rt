//! Forms of stored bytes: how values, cells, flow nodes, requests, waits and events are spelled as bytes, and read.
//!
//! A [`Field`] is a type with a form. Each value has one spelling, and no spelling of a type begins another. What is
//! read is told exactly: the value that stands at a place with the place behind it, or the first place at which the
//! form breaks. `specs/Forms` has the few parts of which every form is put together, with the laws of each.
//!
//! ```text
//! let mut out = Vec::new(alloc);
//! Value::Int(-1).spell(&mut out)?;                // 03 ff ff ff ff
//! let (value, at) = Value::read(alloc, &out, 0)?; // Value::Int(-1), and 5
//! ```
#![tactic(auto)]

mod cells;
mod entries;
mod events;
mod field;
mod flow;
mod list;
mod numbers;
mod one_of;
mod option;
mod refusal;
mod requests;
mod text;
mod values;
mod waits;
mod whole;

pub use field::{Field, spellings_are_apart};
pub use flow::Counted;
pub use list::{InAnyOrder, Listing, put_list, take_list};
pub use one_of::take_one_of;
pub use refusal::FormRefusal;
pub use requests::{ByExecutor, ByNumber};
pub use whole::{read_whole, write_whole};
