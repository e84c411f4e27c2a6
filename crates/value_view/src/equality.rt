//! Equality by contents.

ghost use Rattle.std.specs.Prelude.{◌≡◌, ◌-◌, length, zip};
ghost use Rattle.std.specs.List.{All};
ghost use Rattle.cell_heap.specs.Soundness.{ValueBelow};
ghost use Rattle.model_values.specs.Equality.{by_key, equal, equal_within, has_keys, parts_equal};
ghost use Rattle.model_values.specs.Limits.{product_limits};
ghost use Rattle.value_view.specs.Answers.{Compares};
ghost use Rattle.value_view.specs.Depth.{equal_here};

use crate::text::MAX_DEPTH;
use crate::{Kind, kind_of};
use cell_heap::Heap;
use model_values::{Entries, LimitKind, Value};

/// The most syntax nodes that are evaluated for one event; a pair that is compared counts as one.
const MAX_NODES: u32 = 1000000;

/// Whether two values are equal by their contents (Groovy's `==`). Each pair that is compared raises the count of
/// evaluated nodes by one. `NodesEvaluated` where that count would pass 1,000,000, and `ValueDepth` where more than 64
/// lists and maps stand inside each other, whichever comes first. It takes no memory.
pub fn equal(heap: &Heap, a: &Value, b: &Value, count: &mut u32) -> Result<bool, LimitKind>
    requires left { ValueBelow (length heap.now.cells) a.now }
    requires right { ValueBelow (length heap.now.cells) b.now }
    ensures { Compares (equal product_limits heap.now.cells a.now b.now count.old) count.new result }
{
    equal_within(heap, a, b, MAX_DEPTH, count)
}

/// Whether two values are equal in which so many more lists and maps may stand inside each other.
#[cycle(comparing)]
fn equal_within(
    heap: &Heap,
    a: &Value,
    b: &Value,
    left: u32,
    count: &mut u32,
) -> Result<bool, LimitKind>
    requires left { ValueBelow (length heap.now.cells) a.now }
    requires right { ValueBelow (length heap.now.cells) b.now }
    ensures { Compares (equal_here product_limits heap.now.cells left a.now b.now count.old) count.new result }
{
    if *count >= MAX_NODES {
        return Err(LimitKind::NodesEvaluated);
    }
    *count += 1;
    match (kind_of(heap, a), kind_of(heap, b)) {
        (Kind::Null, Kind::Null) => Ok(true),
        (Kind::Flag(x), Kind::Flag(y)) => Ok(x == y),
        (Kind::Number(x), Kind::Number(y)) => Ok(x == y),
        (Kind::Text(x), Kind::Text(y)) => Ok(x == y),
        (Kind::List(_, xs), Kind::List(_, ys)) => {
            if xs.len() != ys.len() {
                Ok(false)
            } else if left == 0 {
                Err(LimitKind::ValueDepth)
            } else {
                lists_equal(heap, xs.as_slice(), ys.as_slice(), left - 1, count)
            }
        }
        (Kind::Map(_, xs), Kind::Map(_, ys)) => {
            if xs.len() != ys.len() || !has_keys(xs, ys) {
                Ok(false)
            } else if left == 0 {
                Err(LimitKind::ValueDepth)
            } else {
                maps_equal(heap, xs, ys, left - 1, count)
            }
        }
        (Kind::Closure(x), Kind::Closure(y)) => Ok(x == y),
        (Kind::Thrown(x, _, _), Kind::Thrown(y, _, _)) => Ok(x == y),
        _ => Ok(false),
    }
}

/// Whether each value of a list is equal to the one at its place in another of the same size.
#[cycle(comparing)]
fn lists_equal(
    heap: &Heap,
    xs: &[Value],
    ys: &[Value],
    left: u32,
    count: &mut u32,
) -> Result<bool, LimitKind>
    requires left { All (ValueBelow (length heap.now.cells)) xs.now }
    requires right { All (ValueBelow (length heap.now.cells)) ys.now }
    requires same_size { length xs.now ≡ length ys.now }
    ensures { Compares (parts_equal (equal_within product_limits heap.now.cells left) (zip xs.now ys.now) count.old) count.new result }
{
    for at in 0..xs.len() {
        if !equal_within(heap, &xs[at], &ys[at], left, count)? {
            return Ok(false);
        }
    }
    Ok(true)
}

/// Whether each value of a map is equal to the one that its key has in another with the same keys.
#[cycle(comparing)]
fn maps_equal(
    heap: &Heap,
    xs: &Entries,
    ys: &Entries,
    left: u32,
    count: &mut u32,
) -> Result<bool, LimitKind>
    requires left { All (λ entry. ValueBelow (length heap.now.cells) entry.1) xs.now }
    requires right { All (λ entry. ValueBelow (length heap.now.cells) entry.1) ys.now }
    ensures { Compares (parts_equal (equal_within product_limits heap.now.cells left) (by_key xs.now ys.now) count.old) count.new result }
{
    for at in 0..xs.len() {
        if let Some((key, x)) = xs.entry_at(at) {
            let y = ys.get(key).unwrap_or(Value::Null);
            if !equal_within(heap, x, &y, left, count)? {
                return Ok(false);
            }
        }
    }
    Ok(true)
}

/// Whether each key of the one map is a key of the other.
fn has_keys(xs: &Entries, ys: &Entries) -> bool
    ensures { result ≡ has_keys xs.now ys.now }
{
    for at in 0..xs.len() {
        if let Some((key, _)) = xs.entry_at(at) {
            if ys.get(key).is_none() {
                return false;
            }
        }
    }
    true
}
