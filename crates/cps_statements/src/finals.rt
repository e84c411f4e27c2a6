//! `finally`.

ghost use Rattle.std.specs.Prelude.{◌≡◌, ◌<◌, ℕ, IfOk, true};
ghost use Rattle.model_syntax.specs.declared.node.NodeForm.TheVariants as form;
ghost use Rattle.model_run.specs.Around.{value_at};
ghost use Rattle.model_run.specs.Forms.{after};
ghost use Rattle.model_run.specs.Nesting.{shape_at};
ghost use Rattle.model_run.specs.Statements.{after_catch, has_finally};
ghost use Rattle.model_run.specs.declared.frame.FrameKind.TheVariants as kind;
ghost use Rattle.cps_code.specs.Script.{script_of};
ghost use Rattle.cps_frames.specs.Moves.{ComesTo};
ghost use Rattle.cps_frames.specs.Order.{rank};
ghost use Rattle.cps_frames.specs.Places.{MayGoOn};
ghost use Rattle.cps_frames.specs.Standing.{standing};
ghost use Rattle.cps_frames.specs.Ways.{is_block_ending};
ghost use Rattle.cps_variables.specs.Nodes.{HasForm};
ghost use Rattle.cps_statements.specs.Finals.{HasKept, final_before, final_kind, final_values, is_final, over_final};

use cps_code::Code;
use cps_frames::{Halt, Move, Shared, ThreadState, under};
use cps_variables::{kept_value, part_form};
use model_run::{Ending, Entry, Frame, FrameKind};
use model_syntax::NodeForm;
use model_values::{Env, Value, Values};
use std::alloc::{AllocError, Global};

/// Whether a `try` has a `finally`, which is its last part.
fn has_finally(code: &Code, node: u32) -> bool
    requires { HasForm (script_of code.now) node form.Try }
    ensures { result ≡ has_finally (shape_at (script_of code.now) node) }
{
    let last = code.parts(node) - 1;
    matches!(part_form(code, node, last), NodeForm::Finally)
}

/// The kind of the frame in which a `finally` runs behind an ending, and what it keeps of that.
fn final_frame(alloc: Global, ending: &Ending) -> Result<(FrameKind, Values), AllocError>
    requires { is_block_ending ending.now ≡ true }
    ensures { IfOk result (λ kept. kept ≡ (final_kind ending.now, final_values ending.now)) }
{
    let mut values = Values::new(alloc);
    let kind = match ending {
        Ending::Normal(value) => {
            values.push(*value)?;
            FrameKind::FinallyAfterValue
        }
        Ending::Thrown(cell) => {
            values.push(Value::Cell(*cell))?;
            FrameKind::FinallyAfterThrow
        }
        Ending::Returned(value) => {
            values.push(*value)?;
            FrameKind::FinallyAfterReturn
        }
        Ending::Broke => FrameKind::FinallyAfterBreak,
        Ending::Continued => FrameKind::FinallyAfterContinue,
        Ending::Declared(_) | Ending::Answered(_) => unreachable!(),
    };
    Ok((kind, values))
}

/// Behind the block of a `try` and its catch: `finally`, where there is one.
pub(crate) fn after_catch(
    state: &mut ThreadState,
    shared: &Shared,
    node: u32,
    env: Env,
    ending: Ending,
) -> Result<Move, Halt>
    requires form { HasForm (script_of shared.now.code) node form.Try }
    requires ending { is_block_ending ending ≡ true }
    ensures { (r : ℕ) → 1 < r → ComesTo node r (λ sh a. after_catch a node sh env ending) (standing shared.now state.old) result (standing shared.now state.new) }
{
    if !has_finally(&shared.code, node) {
        return Ok(Move::Ends(ending));
    }
    let (kind, values) = final_frame(shared.alloc(), &ending)?;
    let frame = Frame {
        kind,
        node,
        left: 0,
        env: env.clone()?,
        values,
    };
    let at = shared.code.parts(node) - 1;
    under(state, shared, frame, Entry::Inside(0), at, env)
}

/// Behind the block of a catch.
pub(crate) fn after_try_catch(
    state: &mut ThreadState,
    shared: &Shared,
    frame: Frame,
    ending: Ending,
) -> Result<Move, Halt>
    requires may { MayGoOn (standing shared.now state.old) frame ending }
    requires kind { frame.kind ≡ kind.TryCatch }
    ensures { ComesTo frame.node (rank frame) (λ sh a. after frame sh a ending) (standing shared.now state.old) result (standing shared.now state.new) }
{
    after_catch(state, shared, frame.node, frame.env, ending)
}

/// Behind the block of `finally`: the ending before it, unless the block ends otherwise than with a value.
pub(crate) fn after_finally(
    state: &ThreadState,
    shared: &Shared,
    frame: Frame,
    ending: Ending,
) -> Result<Move, Halt>
    requires may { MayGoOn (standing shared.now state.now) frame ending }
    requires kind { is_final frame.kind ≡ true }
    ensures { ComesTo frame.node (rank frame) (λ sh a. after frame sh a ending) (standing shared.now state.now) result (standing shared.now state.now) }
{
    let before = ending_before(&frame);
    Ok(Move::Ends(ending_behind(before, ending)))
}

/// How a `try` ends: as its `finally` does, unless that ends with a value; then as before it.
fn ending_behind(before: Ending, ending: Ending) -> Ending
    requires { is_block_ending ending ≡ true }
    ensures { result ≡ over_final before ending }
{
    match ending {
        Ending::Normal(_) => before,
        Ending::Declared(_) | Ending::Answered(_) => unreachable!(),
        other => other,
    }
}

/// The ending that a `finally` has kept.
fn ending_before(frame: &Frame) -> Ending
    requires { HasKept frame.now.kind frame.now.values }
    ensures { result ≡ final_before frame.now.kind (value_at 0 frame.now.values) }
{
    match frame.kind {
        FrameKind::FinallyAfterValue => Ending::Normal(kept_value(&frame.values, 0)),
        FrameKind::FinallyAfterThrow => match kept_value(&frame.values, 0) {
            Value::Cell(cell) => Ending::Thrown(cell),
            _ => unreachable!(),
        },
        FrameKind::FinallyAfterReturn => Ending::Returned(kept_value(&frame.values, 0)),
        FrameKind::FinallyAfterBreak => Ending::Broke,
        FrameKind::FinallyAfterContinue => Ending::Continued,
        _ => unreachable!(),
    }
}
