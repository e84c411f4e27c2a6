//! What operators, signs and suffixes do with the values of their operands.

ghost use Rattle.std.specs.Prelude.{◌≡◌, if◌then◌else◌, length, nat_lt, IfOk};
ghost use Rattle.cell_heap.specs.Soundness.{ValueBelow};
ghost use Rattle.model_values.specs.Kinds.{kind};
ghost use Rattle.model_run.specs.Calls.{is_null};
ghost use Rattle.model_run.specs.Expressions.{applying, comparing, computing, prefixing};
ghost use Rattle.cps_frames.specs.Standing.{standing};
ghost use Rattle.cps_frames.specs.declared.thread.ThreadState.{ThreadState as Thread};
ghost use Rattle.cps_operators.specs.Yields.{Yields};

use cell_heap::Heap;
use cps_frames::{Halt, Shared};
use model_syntax::{Access, Operator, Prefix};
use model_values::{Op, Value};
use value_operators::apply;
use value_view::{Kind, equal, kind_of, truth};

/// The count of evaluated nodes is at least this.
pub fn raise(shared: &mut Shared, count: u32)
    ensures { shared.new ≡ record shared.old { count = (if nat_lt shared.old.count count then count else shared.old.count) } }
{
    if shared.count < count {
        shared.count = count;
    }
}

/// An operator that computes. It throws where the operands do not suit it.
fn compute(shared: &mut Shared, op: Op, left: &Value, right: &Value) -> Result<Value, Halt>
    requires left { ValueBelow (length shared.old.heap.cells) left.now }
    requires right { ValueBelow (length shared.old.heap.cells) right.now }
    ensures yields { (t : Thread) → Yields (computing op left.now right.now) (standing shared.old t) result (standing shared.new t) }
    ensures below { IfOk result (ValueBelow (length shared.new.heap.cells)) }
{
    let alloc = shared.alloc();
    Ok(apply(alloc, &mut shared.heap, op, left, right)?)
}

/// `==`, and `!=` where `same` is false. Each pair of values that is compared counts. `Halt::Limit` where 1,000,000
/// nodes were evaluated for this event, or where more than 64 lists and maps stand inside each other.
fn compare(shared: &mut Shared, same: bool, left: &Value, right: &Value) -> Result<Value, Halt>
    requires left { ValueBelow (length shared.old.heap.cells) left.now }
    requires right { ValueBelow (length shared.old.heap.cells) right.now }
    ensures yields { (t : Thread) → Yields (comparing same left.now right.now) (standing shared.old t) result (standing shared.new t) }
    ensures below { IfOk result (ValueBelow (length shared.new.heap.cells)) }
{
    let mut count = shared.count;
    let answer = equal(&shared.heap, left, right, &mut count);
    raise(shared, count);
    let are_equal = answer?;
    Ok(Value::Bool(if same { are_equal } else { !are_equal }))
}

/// An operator between two operands.
pub fn apply_operator(
    shared: &mut Shared,
    operator: Operator,
    left: &Value,
    right: &Value,
) -> Result<Value, Halt>
    requires left { ValueBelow (length shared.old.heap.cells) left.now }
    requires right { ValueBelow (length shared.old.heap.cells) right.now }
    ensures yields { (t : Thread) → Yields (applying operator left.now right.now) (standing shared.old t) result (standing shared.new t) }
    ensures below { IfOk result (ValueBelow (length shared.new.heap.cells)) }
{
    match operator {
        Operator::Equal => compare(shared, true, left, right),
        Operator::NotEqual => compare(shared, false, left, right),
        Operator::Plus => compute(shared, Op::Plus, left, right),
        Operator::Minus => compute(shared, Op::Minus, left, right),
        Operator::Times => compute(shared, Op::Times, left, right),
        Operator::Mod => compute(shared, Op::Mod, left, right),
        Operator::Range => compute(shared, Op::Range, left, right),
        Operator::Less => compute(shared, Op::Less, left, right),
        Operator::LessEqual => compute(shared, Op::LessEqual, left, right),
        Operator::Greater => compute(shared, Op::Greater, left, right),
        Operator::GreaterEqual => compute(shared, Op::GreaterEqual, left, right),
    }
}

/// A sign before an operand.
pub fn apply_prefix(shared: &mut Shared, prefix: Prefix, value: &Value) -> Result<Value, Halt>
    requires { ValueBelow (length shared.old.heap.cells) value.now }
    ensures yields { (t : Thread) → Yields (prefixing prefix value.now) (standing shared.old t) result (standing shared.new t) }
    ensures below { IfOk result (ValueBelow (length shared.new.heap.cells)) }
{
    match prefix {
        Prefix::Not => Ok(Value::Bool(!truth(&shared.heap, value))),
        Prefix::Negative => compute(shared, Op::Negative, value, &Value::Null),
        Prefix::Positive => compute(shared, Op::Positive, value, &Value::Null),
    }
}

/// Whether `?.` on this value gives null: nothing else is done then.
pub(crate) fn gives_null(heap: &Heap, access: Access, value: &Value) -> bool
    requires { ValueBelow (length heap.now.cells) value.now }
    ensures { result ≡ is_null access (kind heap.now.cells value.now) }
{
    match access {
        Access::Direct => false,
        Access::NullSafe => matches!(kind_of(heap, value), Kind::Null),
    }
}
