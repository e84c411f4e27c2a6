//! What is made of the values that a node has gathered: a list, a map, a text, a throwable.

ghost use Rattle.std.specs.Prelude.{◌≡◌, ◌<◌, ◌≤◌, [], ℕ, All, length, IfOk};
ghost use Rattle.cell_heap.specs.Soundness.{ValueBelow};
ghost use Rattle.model_values.specs.Limits.{product_limits};
ghost use Rattle.value_ops.specs.Effects.{EffectBelow, effect_answer};
ghost use Rattle.model_run.specs.Gathering.{entries_of, list_of, map_from, map_of, new_class, text_from, text_parts, throwable_of};
ghost use Rattle.model_run.specs.Nesting.{shape_at};
ghost use Rattle.model_run.specs.Terms.{nodes_of};
ghost use Rattle.cps_code.specs.Script.{script_of};
ghost use Rattle.value_view.specs.Answers.{IsWritten};
ghost use Rattle.cps_frames.specs.Moves.{ComesTo};
ghost use Rattle.cps_frames.specs.Standing.{standing, world_of};
ghost use Rattle.cps_frames.specs.declared.thread.ThreadState.{ThreadState as Thread};
ghost use Rattle.cps_values.specs.Values.{AreEntries, values_given};

use crate::entries::entries_of;
use cps_frames::{Halt, Move, Shared, ThreadState, tick};
use cps_operators::{arity, part_form};
use model_run::Ending;
use model_syntax::{NewClass, NodeForm};
use model_text::Text;
use model_values::{Class, Values};
use std::alloc::AllocError;
use value_ops::{Effect, bad_key, new_throwable, perform};
use value_view::{OpRefusal, write_bytes, write_value};

/// A list, which counts.
pub fn list(state: &ThreadState, shared: &mut Shared, values: Values) -> Result<Move, Halt>
    requires { All (ValueBelow (length shared.old.heap.cells)) values }
    ensures { (k r : ℕ) → 0 < r → ComesTo k r (λ sh a. list_of values) (standing shared.old state.now) result (standing shared.new state.now) }
{
    tick(shared)?;
    let list = perform(&mut shared.heap, Effect::NewList(values))?;
    Ok(Move::Ends(Ending::Normal(list)))
}

/// A map of the node's parts, each a key with its value, which counts. It throws where a key is no text and no number.
pub fn map(
    state: &ThreadState,
    shared: &mut Shared,
    node: u32,
    values: &Values,
) -> Result<Move, Halt>
    requires node { node < length (nodes_of (script_of shared.old.code)) }
    requires below { All (ValueBelow (length shared.old.heap.cells)) values.now }
    requires entries { AreEntries (shape_at (script_of shared.old.code) node) }
    requires count { values_given (shape_at (script_of shared.old.code) node).parts ≤ length values.now }
    ensures { (r : ℕ) → 0 < r → ComesTo node r (λ sh a. map_of sh values.now) (standing shared.old state.now) result (standing shared.new state.now) }
{
    tick(shared)?;
    let effect = map_effect(shared, node, values)?;
    let map = perform(&mut shared.heap, effect)?;
    Ok(Move::Ends(Ending::Normal(map)))
}

/// What makes the map, or throws.
fn map_effect(shared: &Shared, node: u32, values: &Values) -> Result<Effect, AllocError>
    requires node { node < length (nodes_of (script_of shared.now.code)) }
    requires below { All (ValueBelow (length shared.now.heap.cells)) values.now }
    requires entries { AreEntries (shape_at (script_of shared.now.code) node) }
    requires count { values_given (shape_at (script_of shared.now.code) node).parts ≤ length values.now }
    ensures answer { IfOk result (λ effect. (t : Thread) → effect_answer product_limits shared.now.heap.cells effect ≡ map_from (world_of shared.now t) (entries_of shared.now.heap.cells (shape_at (script_of shared.now.code) node).parts values.now [])) }
    ensures below { IfOk result (EffectBelow (length shared.now.heap.cells)) }
{
    match entries_of(shared, node, values)? {
        None => bad_key(shared.alloc()),
        Some(entries) => Ok(Effect::NewMap(entries)),
    }
}

/// A text of its plain parts and the texts of these values, which counts.
pub fn text(
    state: &ThreadState,
    shared: &mut Shared,
    node: u32,
    values: &Values,
) -> Result<Move, Halt>
    requires node { node < length (nodes_of (script_of shared.old.code)) }
    requires below { All (ValueBelow (length shared.old.heap.cells)) values.now }
    requires count { values_given (shape_at (script_of shared.old.code) node).parts ≤ length values.now }
    ensures { (r : ℕ) → 0 < r → ComesTo node r (λ sh a. text_from sh values.now) (standing shared.old state.now) result (standing shared.new state.now) }
{
    tick(shared)?;
    let text = written(shared, node, values)?;
    let text = perform(&mut shared.heap, Effect::NewText(text))?;
    Ok(Move::Ends(Ending::Normal(text)))
}

/// The parts of a text, each behind the one before it.
fn written(shared: &Shared, node: u32, values: &Values) -> Result<Text, OpRefusal>
    requires node { node < length (nodes_of (script_of shared.now.code)) }
    requires below { All (ValueBelow (length shared.now.heap.cells)) values.now }
    requires count { values_given (shape_at (script_of shared.now.code) node).parts ≤ length values.now }
    ensures { (t : Thread) → IsWritten (text_parts (world_of shared.now t) (shape_at (script_of shared.now.code) node).parts values.now []) result }
{
    let mut text = Text::new(shared.alloc());
    let mut used = 0;
    for at in 0..arity(&shared.code, node) {
        if let NodeForm::PlainPart(plain) = part_form(&shared.code, node, at) {
            write_bytes(plain.as_slice(), &mut text)?;
        } else if let Some(value) = values.get(used) {
            write_value(&shared.heap, value, &mut text)?;
            used += 1;
        } else {
            unreachable!()
        }
    }
    Ok(text)
}

/// A new throwable of a class, with the text of a value as its message where there is one. It counts.
pub fn throwable(
    state: &ThreadState,
    shared: &mut Shared,
    class: NewClass,
    values: &Values,
) -> Result<Move, Halt>
    requires { All (ValueBelow (length shared.old.heap.cells)) values.now }
    ensures { (k r : ℕ) → 0 < r → ComesTo k r (λ sh a. throwable_of class values.now) (standing shared.old state.now) result (standing shared.new state.now) }
{
    tick(shared)?;
    let alloc = shared.alloc();
    let message = values.get(0).copied();
    let throwable = new_throwable(alloc, &mut shared.heap, class_of(class), message)?;
    Ok(Move::Ends(Ending::Normal(throwable)))
}

/// The class that `new` makes one of.
pub(crate) fn class_of(class: NewClass) -> Class
    ensures { result ≡ new_class class }
{
    match class {
        NewClass::Exception => Class::Exception,
        NewClass::RuntimeException => Class::RuntimeException,
        NewClass::Error => Class::Error,
    }
}
