//! The operators.

ghost use Rattle.std.specs.Prelude.{◌≡◌, ℕ, ◌++◌, ◌-ℤ◌, ◌≤ℤ◌, List, All, length, nat_abs, neg_ℤ, pos, IfOk};
ghost use Rattle.indexmap.specs.IndexMap.{insert_all};
ghost use Rattle.cell_heap.specs.Soundness.{ValueBelow};
ghost use Rattle.model_values.specs.Cells.{new_list, new_map};
ghost use Rattle.model_values.specs.Keys.{same_key};
ghost use Rattle.model_values.specs.Kinds.{kind};
ghost use Rattle.model_values.specs.Limits.{product_limits};
ghost use Rattle.model_values.specs.Operators.{apply, compare_kinds, decremented, incremented, joined, minus_kinds, mod_kinds, negative_kind, numbers, numbers_from, plus_kinds, positive_kind, range_kinds, step_kind, times_kinds};
ghost use Rattle.model_values.specs.declared.cell.Cell.{Cell as HeldCell};
ghost use Rattle.value_view.specs.Answers.{Answers, Leaves};
ghost use Rattle.value_operators.specs.Comparing.{order_of, passes};
ghost use Rattle.value_ops.specs.Effects.{EffectBelow, HasAnswer, IsReadAs, NamesNone};
ghost use Rattle.value_view.specs.Seen.{IsKindIn, seen};

use crate::index::element;
use cell_heap::Heap;
use model_text::Text;
use model_values::{Entries, LimitKind, Op, Value, Values};
use std::alloc::{AllocError, Global};
use std::cmp::Ordering;
use value_ops::{Effect, MAX_ENTRIES, by_zero, no_method, perform};
use value_view::{Kind, OpRefusal, kind_of, write_value};

/// `a op b`; an operator with one operand does not look at `b`. It compares no pairs, so it takes no count.
pub fn apply(
    alloc: Global,
    heap: &mut Heap,
    op: Op,
    a: &Value,
    b: &Value,
) -> Result<Value, OpRefusal>
    requires left { ValueBelow (length heap.old.cells) a.now }
    requires right { ValueBelow (length heap.old.cells) b.now }
    ensures answer { Answers (apply product_limits heap.old.cells op a.now b.now) heap.old heap.new result }
    ensures leaves { Leaves heap.old heap.new result }
{
    let effect = operate(alloc, heap, op, a, b)?;
    perform(heap, effect)
}

/// The value that `++` puts into a variable: one more, wrapped to 32 bits.
pub fn incremented(alloc: Global, heap: &mut Heap, value: &Value) -> Result<Value, OpRefusal>
    requires { ValueBelow (length heap.old.cells) value.now }
    ensures answer { Answers (incremented product_limits heap.old.cells value.now) heap.old heap.new result }
    ensures leaves { Leaves heap.old heap.new result }
{
    let effect = stepped(alloc, &kind_of(heap, value), 1)?;
    perform(heap, effect)
}

/// The value that `--` puts into a variable: one less, wrapped to 32 bits.
pub fn decremented(alloc: Global, heap: &mut Heap, value: &Value) -> Result<Value, OpRefusal>
    requires { ValueBelow (length heap.old.cells) value.now }
    ensures answer { Answers (decremented product_limits heap.old.cells value.now) heap.old heap.new result }
    ensures leaves { Leaves heap.old heap.new result }
{
    let effect = stepped(alloc, &kind_of(heap, value), -1)?;
    perform(heap, effect)
}

/// What an operator does.
fn operate(alloc: Global, heap: &Heap, op: Op, a: &Value, b: &Value) -> Result<Effect, OpRefusal>
    requires left { ValueBelow (length heap.now.cells) a.now }
    requires right { ValueBelow (length heap.now.cells) b.now }
    ensures read { IsReadAs heap.now.cells (apply product_limits heap.now.cells op a.now b.now) result }
    ensures below { IfOk result (EffectBelow (length heap.now.cells)) }
{
    let left = kind_of(heap, a);
    let right = kind_of(heap, b);
    match op {
        Op::Plus => plus(alloc, heap, a, b),
        Op::Minus => Ok(minus(alloc, &left, &right)?),
        Op::Times => Ok(times(alloc, &left, &right)?),
        Op::Mod => Ok(remainder(alloc, &left, &right)?),
        Op::Less => Ok(compare(alloc, op, &left, &right)?),
        Op::LessEqual => Ok(compare(alloc, op, &left, &right)?),
        Op::Greater => Ok(compare(alloc, op, &left, &right)?),
        Op::GreaterEqual => Ok(compare(alloc, op, &left, &right)?),
        Op::Range => range(alloc, &left, &right),
        Op::GetAt => Ok(element(alloc, &left, &right)?),
        Op::Negative => Ok(negative(alloc, &left)?),
        Op::Positive => Ok(positive(alloc, &left)?),
    }
}

/// `a + b`: a text on the left joins with anything, a number or null joins with a text; lists and maps are copied
/// (Groovy).
fn plus(alloc: Global, heap: &Heap, a: &Value, b: &Value) -> Result<Effect, OpRefusal>
    requires left { ValueBelow (length heap.now.cells) a.now }
    requires right { ValueBelow (length heap.now.cells) b.now }
    ensures read { IsReadAs heap.now.cells (plus_kinds product_limits heap.now.cells a.now b.now (kind heap.now.cells a.now) (kind heap.now.cells b.now)) result }
    ensures below { IfOk result (EffectBelow (length heap.now.cells)) }
{
    let left = kind_of(heap, a);
    let right = kind_of(heap, b);
    match (&left, &right) {
        (Kind::Number(x), Kind::Number(y)) => Ok(whole(x.wrapping_add(*y))),
        (Kind::Text(_), _) => joined(alloc, heap, a, b),
        (Kind::Number(_), Kind::Text(_)) => joined(alloc, heap, a, b),
        (Kind::Null, Kind::Text(_)) => joined(alloc, heap, a, b),
        (Kind::List(_, xs), Kind::List(_, ys)) => {
            lists_joined(alloc, xs.as_slice(), ys.as_slice())
        }
        (Kind::List(_, xs), _) => lists_joined(alloc, xs.as_slice(), &[*b]),
        (Kind::Map(_, xs), Kind::Map(_, ys)) => Ok(maps_joined(xs, ys)?),
        (on, _) => Ok(no_method(alloc, on, b"plus")?),
    }
}

/// A new text of the texts of two values.
fn joined(alloc: Global, heap: &Heap, a: &Value, b: &Value) -> Result<Effect, OpRefusal>
    requires left { ValueBelow (length heap.now.cells) a.now }
    requires right { ValueBelow (length heap.now.cells) b.now }
    ensures read { IsReadAs heap.now.cells (joined product_limits heap.now.cells a.now b.now) result }
    ensures below { IfOk result NamesNone }
{
    let mut text = Text::new(alloc);
    write_value(heap, a, &mut text)?;
    write_value(heap, b, &mut text)?;
    Ok(Effect::NewText(text))
}

/// A new list of two lists. None is built where it would be too long.
fn lists_joined(alloc: Global, xs: &[Value], ys: &[Value]) -> Result<Effect, OpRefusal>
    ensures read { (h : List HeldCell) → IsReadAs h (new_list product_limits h (xs.now ++ ys.now)) result }
    ensures below { (n : ℕ) → All (ValueBelow n) xs.now → All (ValueBelow n) ys.now → IfOk result (EffectBelow n) }
{
    if xs.len().saturating_add(ys.len()) > MAX_ENTRIES {
        return Err(OpRefusal::Limit(LimitKind::CollectionSize));
    }
    let mut values = Vec::with_capacity(alloc, xs.len() + ys.len())?;
    values.extend_from_slice(xs)?;
    values.extend_from_slice(ys)?;
    Ok(Effect::NewList(Values::from_vec(values)))
}

/// A copy of the left map with the entries of the right put in.
fn maps_joined(xs: &Entries, ys: &Entries) -> Result<Effect, AllocError>
    ensures read { IfOk result (HasAnswer (λ h. new_map product_limits h (insert_all same_key xs.now ys.now))) }
    ensures below { (n : ℕ) → All (λ entry. ValueBelow n entry.1) xs.now → All (λ entry. ValueBelow n entry.1) ys.now → IfOk result (EffectBelow n) }
{
    let mut all = xs.clone()?;
    for at in 0..ys.len() {
        if let Some((key, value)) = ys.entry_at(at) {
            all.put(key.clone()?, *value)?;
        }
    }
    Ok(Effect::NewMap(all))
}

/// `a - b`, wrapped to 32 bits.
fn minus(alloc: Global, a: &Kind<'_>, b: &Kind<'_>) -> Result<Effect, AllocError>
    ensures read { IfOk result (HasAnswer (λ h. minus_kinds product_limits h (seen a.now) (seen b.now))) }
    ensures below { IfOk result NamesNone }
{
    match (a, b) {
        (Kind::Number(x), Kind::Number(y)) => Ok(whole(x.wrapping_sub(*y))),
        (on, _) => no_method(alloc, on, b"minus"),
    }
}

/// `a * b`, wrapped to 32 bits.
fn times(alloc: Global, a: &Kind<'_>, b: &Kind<'_>) -> Result<Effect, AllocError>
    ensures read { IfOk result (HasAnswer (λ h. times_kinds product_limits h (seen a.now) (seen b.now))) }
    ensures below { IfOk result NamesNone }
{
    match (a, b) {
        (Kind::Number(x), Kind::Number(y)) => Ok(whole(x.wrapping_mul(*y))),
        (on, _) => no_method(alloc, on, b"multiply"),
    }
}

/// `a % b`: the remainder of the division toward zero (Java).
fn remainder(alloc: Global, a: &Kind<'_>, b: &Kind<'_>) -> Result<Effect, AllocError>
    ensures read { IfOk result (HasAnswer (λ h. mod_kinds product_limits h (seen a.now) (seen b.now))) }
    ensures below { IfOk result NamesNone }
{
    match (a, b) {
        (Kind::Number(_), Kind::Number(0)) => by_zero(alloc),
        (Kind::Number(x), Kind::Number(y)) => Ok(whole(x.wrapping_rem(*y))),
        (on, _) => no_method(alloc, on, b"mod"),
    }
}

/// `a < b` and its kin, on two numbers or two texts.
fn compare(alloc: Global, op: Op, a: &Kind<'_>, b: &Kind<'_>) -> Result<Effect, AllocError>
    ensures read { IfOk result (HasAnswer (λ h. compare_kinds product_limits h (passes op) (seen a.now) (seen b.now))) }
    ensures below { IfOk result NamesNone }
{
    match comparison(a, b) {
        Some(ordering) => Ok(Effect::Give(Value::Bool(passes(op, ordering)))),
        None => no_method(alloc, a, b"compareTo"),
    }
}

/// Whether an order is one for which the operator gives true.
fn passes(op: Op, ordering: Ordering) -> bool
    ensures { result ≡ passes op ordering }
{
    match op {
        Op::Less => ordering.is_lt(),
        Op::LessEqual => ordering.is_le(),
        Op::Greater => ordering.is_gt(),
        _ => ordering.is_ge(),
    }
}

/// The order of two numbers or two texts; other kinds have none.
fn comparison(a: &Kind<'_>, b: &Kind<'_>) -> Option<Ordering>
    ensures { result ≡ order_of (seen a.now) (seen b.now) }
{
    match (a, b) {
        (Kind::Number(x), Kind::Number(y)) => Some(x.cmp(y)),
        (Kind::Text(x), Kind::Text(y)) => Some(x.cmp(y)),
        _ => None,
    }
}

/// `a..b`: the numbers from a to b, rising or falling. None is built where they would be too many.
fn range(alloc: Global, a: &Kind<'_>, b: &Kind<'_>) -> Result<Effect, OpRefusal>
    ensures read { (h : List HeldCell) → IsReadAs h (range_kinds product_limits h (seen a.now) (seen b.now)) result }
    ensures below { IfOk result NamesNone }
{
    match (a, b) {
        (Kind::Number(x), Kind::Number(y)) => {
            if x.abs_diff(*y) as usize >= MAX_ENTRIES {
                return Err(OpRefusal::Limit(LimitKind::CollectionSize));
            }
            Ok(Effect::NewList(numbers(alloc, *x, *y)?))
        }
        (on, _) => Ok(no_method(alloc, on, b"rangeTo")?),
    }
}

/// The numbers from one to another, rising or falling.
fn numbers(alloc: Global, first: i32, last: i32) -> Result<Values, AllocError>
    ensures { IfOk result (λ values. values ≡ numbers first last) }
{
    if first <= last {
        rising(alloc, first, last)
    } else {
        falling(alloc, first, last)
    }
}

/// The numbers from one up to another.
fn rising(alloc: Global, first: i32, last: i32) -> Result<Values, AllocError>
    requires { first ≤ℤ last }
    ensures { IfOk result (λ values. values ≡ numbers_from (pos 1) first (nat_abs (last -ℤ first))) }
{
    let mut values = Values::new(alloc);
    let mut number = first;
    while number < last {
        values.push(Value::Int(number))?;
        number += 1;
    }
    values.push(Value::Int(number))?;
    Ok(values)
}

/// The numbers from one down to another.
fn falling(alloc: Global, first: i32, last: i32) -> Result<Values, AllocError>
    requires { last ≤ℤ first }
    ensures { IfOk result (λ values. values ≡ numbers_from (neg_ℤ (pos 1)) first (nat_abs (last -ℤ first))) }
{
    let mut values = Values::new(alloc);
    let mut number = first;
    while number > last {
        values.push(Value::Int(number))?;
        number -= 1;
    }
    values.push(Value::Int(number))?;
    Ok(values)
}

/// `-a`, wrapped to 32 bits.
fn negative(alloc: Global, a: &Kind<'_>) -> Result<Effect, AllocError>
    ensures read { IfOk result (HasAnswer (λ h. negative_kind product_limits h (seen a.now))) }
    ensures below { IfOk result NamesNone }
{
    match a {
        Kind::Number(x) => Ok(whole(x.wrapping_neg())),
        on => no_method(alloc, on, b"negative"),
    }
}

/// `+a`
fn positive(alloc: Global, a: &Kind<'_>) -> Result<Effect, AllocError>
    ensures read { IfOk result (HasAnswer (λ h. positive_kind product_limits h (seen a.now))) }
    ensures below { IfOk result NamesNone }
{
    match a {
        Kind::Number(x) => Ok(whole(*x)),
        on => no_method(alloc, on, b"positive"),
    }
}

/// A number with another added, wrapped to 32 bits; no other kind has such a step.
fn stepped(alloc: Global, a: &Kind<'_>, by: i32) -> Result<Effect, AllocError>
    ensures read { IfOk result (HasAnswer (λ h. step_kind product_limits h by (seen a.now))) }
    ensures below { IfOk result NamesNone }
{
    match a {
        Kind::Number(x) => Ok(whole(x.wrapping_add(by))),
        on => no_method(alloc, on, b"plus"),
    }
}

fn whole(number: i32) -> Effect
    ensures { result ≡ Effect.Give (Value.Int number) }
{
    Effect::Give(Value::Int(number))
}
