//! `def x` and `def x = value`.

ghost use Rattle.std.specs.Prelude.{◌≡◌, ◌<◌, ◌^◌, ℕ, IfOk, length, true};
ghost use Rattle.model_run.specs.Around.{arity};
ghost use Rattle.model_run.specs.FrameTable.{is_declaration};
ghost use Rattle.model_run.specs.Forms.{after, name_of};
ghost use Rattle.model_run.specs.Nesting.{shape_at};
ghost use Rattle.model_run.specs.Statements.{declaration};
ghost use Rattle.model_run.specs.Terms.{nodes_of};
ghost use Rattle.model_run.specs.declared.frame.FrameKind.TheVariants as kind;
ghost use Rattle.cps_code.specs.Script.{script_of};
ghost use Rattle.cps_frames.specs.Moves.{ComesTo};
ghost use Rattle.cps_frames.specs.Order.{rank};
ghost use Rattle.cps_frames.specs.Places.{MayGoOn};
ghost use Rattle.cps_frames.specs.Standing.{standing};

use cps_code::Code;
use cps_frames::{Halt, Move, Shared, ThreadState, inside, value_of};
use cps_variables::declare;
use model_run::{Ending, Entry, Frame, FrameKind};
use model_syntax::NodeForm;
use model_text::Text;
use model_values::{Env, Value};
use std::alloc::AllocError;

/// The name that a declaration declares. `AllocError` where the memory was refused.
fn declared_name(code: &Code, node: u32) -> Result<Text, AllocError>
    requires node { node < length (nodes_of (script_of code.now)) }
    requires form { is_declaration (shape_at (script_of code.now) node).form ≡ true }
    ensures { IfOk result (λ name. name ≡ name_of (shape_at (script_of code.now) node).form) }
{
    match code.kind(node) {
        NodeForm::Declare(name) => name.clone(),
        _ => unreachable!(),
    }
}

/// A declaration: its value is evaluated first, where it has one.
pub(crate) fn declaration(
    state: &mut ThreadState,
    shared: &mut Shared,
    node: u32,
    env: Env,
) -> Result<Move, Halt>
    requires node { node < length (nodes_of (script_of shared.old.code)) }
    requires form { is_declaration (shape_at (script_of shared.old.code) node).form ≡ true }
    ensures { (r : ℕ) → 1 < r → ComesTo node r (λ sh a. declaration a node (arity sh) (name_of sh.form) env) (standing shared.old state.old) result (standing shared.new state.new) }
{
    if shared.code.parts(node) == 0 {
        let name = declared_name(&shared.code, node)?;
        return declare(shared, name, Value::Null);
    }
    inside(
        state,
        shared,
        FrameKind::DeclareValue,
        node,
        0,
        env,
        Entry::First,
        0,
    )
}

/// Behind its value: the variable is declared.
pub(crate) fn after_declare(
    state: &ThreadState,
    shared: &mut Shared,
    frame: Frame,
    ending: Ending,
) -> Result<Move, Halt>
    requires may { MayGoOn (standing shared.old state.now) frame ending }
    requires kind { frame.kind ≡ kind.DeclareValue }
    ensures { ComesTo frame.node (rank frame) (λ sh a. after frame sh a ending) (standing shared.old state.now) result (standing shared.new state.now) }
{
    let value = value_of(ending)?;
    let name = declared_name(&shared.code, frame.node)?;
    declare(shared, name, value)
}
