//! The heap: the numbered cells in which a build keeps its variables, texts, lists, maps, closures and throwables.
//!
//! A contract sees a [`Heap`] as the list of its cells, with two things more: which cells are new or were written
//! since the last mark, so that an image can hold those alone, and how many cells more can be made without memory.
//! Each call's effect on the whole list is exact. A cell is never taken back, and a heap never holds the number of a
//! cell that is not there.
//!
//! The limits on cells, on heap bytes and on the entries of a list or map are those of `model_values`
//! (`product_limits`): a call that would pass one refuses, and then nothing has changed.
//!
//! ```
//! let mut heap = Heap::new(alloc);
//! let list = heap.new_cell(Cell::List(Values::new(alloc)))?;
//! heap.mark();
//! heap.list_push(list, Value::Int(7))?;
//! assert!(heap.changed_since()?.as_slice() == [list]);
//! ```
#![tactic(auto)]

mod changes;
mod characters;
mod contents;
mod heap;
mod indexes;
mod refusal;
mod sizes;

pub use characters::{is_char_start, place_of_character};
pub use heap::Heap;
pub use refusal::CellRefusal;
