//! Which function a form or a frame of this crate has.

ghost use Rattle.std.specs.Prelude.{◌≡◌, ◌<◌, ◌^◌, [], ℕ, length, true};
ghost use Rattle.model_run.specs.Around.{arity, frame, under};
ghost use Rattle.model_run.specs.Terms.{nodes_of};
ghost use Rattle.model_run.specs.FrameTable.{is_block};
ghost use Rattle.model_run.specs.Forms.{after, enter};
ghost use Rattle.model_run.specs.Nesting.{shape_at};
ghost use Rattle.model_run.specs.declared.ending.Entry.TheVariants.{First, Turn};
ghost use Rattle.model_run.specs.State.{counted, may_count};
ghost use Rattle.cps_code.specs.Script.{IsScript, script_of};
ghost use Rattle.cps_frames.specs.Changes.{Passed};
ghost use Rattle.cps_frames.specs.Moves.{ComesTo};
ghost use Rattle.cps_frames.specs.Order.{rank};
ghost use Rattle.cps_frames.specs.Places.{MayEnter, MayGoOn};
ghost use Rattle.cps_frames.specs.Standing.{Standing, standing};
ghost use Rattle.cps_statements.specs.Kinds.{begins_here, goes_on_here, starts_here, turns_here};

use crate::arms::{after_if_test, arms};
use crate::attempts::after_try;
use crate::each::{after_each_body, after_each_over, each_turn};
use crate::endings::{after_return, after_throw, return_from};
use crate::finals::{after_finally, after_try_catch};
use crate::loops::{after_test, after_while_body, while_test, while_turn};
use crate::rows::{after_statement, statements};
use crate::steps::{after_step, after_steps_body, steps_turn};
use cps_frames::{Halt, Move, Shared, ThreadState, inside, part, tick};
use model_run::{Ending, Entry, Frame, FrameKind};
use model_syntax::NodeForm;
use model_values::{Env, Value, Values};

/// A statement, or a row of them, begins. A statement is counted. `Halt::Limit` where 1,000,000 nodes were evaluated for
/// this event, and `Halt::Memory` where the memory was refused.
pub fn start(
    state: &mut ThreadState,
    shared: &mut Shared,
    node: u32,
    env: Env,
) -> Result<Move, Halt>
    requires may { MayEnter (standing shared.old state.old) First node env }
    requires form { starts_here (shape_at (script_of shared.old.code) node).form ≡ true }
    ensures { ComesTo node (2 ^ 66) (λ sh a. enter First a node sh env) (standing shared.old state.old) result (standing shared.new state.new) }
{
    if is_row(shared.code.kind(node)) {
        let left = shared.code.parts(node);
        return statements(state, shared, node, left, Value::Null, env);
    }
    tick(shared)?;
    begin(state, shared, node, env)
}

/// Whether a node is a row of statements, which is not counted.
fn is_row(form: &NodeForm) -> bool
    ensures { result ≡ is_block form.now }
{
    matches!(form, NodeForm::Script | NodeForm::Block)
}

/// What a statement does behind its count.
fn begin(state: &mut ThreadState, shared: &Shared, node: u32, env: Env) -> Result<Move, Halt>
    requires script { IsScript (script_of shared.now.code) }
    requires node { node < length (nodes_of (script_of shared.now.code)) }
    requires form { begins_here (shape_at (script_of shared.now.code) node).form ≡ true }
    ensures { (u : Standing) → Passed may_count counted u (standing shared.now state.old) → ComesTo node (2 ^ 66) (λ sh a. enter First a node sh env) u result (standing shared.now state.new) }
{
    match shared.code.kind(node) {
        NodeForm::If => {
            let left = shared.code.parts(node);
            arms(state, shared, node, left, env)
        }
        NodeForm::While => while_test(state, shared, node, env),
        NodeForm::ForEach(_) => first_part(state, shared, FrameKind::EachOver, node, env),
        NodeForm::ForSteps => first_part(state, shared, FrameKind::StepsFirst, node, env),
        NodeForm::Try => first_part(state, shared, FrameKind::TryBlock, node, env),
        NodeForm::Evaluate => Ok(part(shared, node, Entry::First, 0, env)),
        NodeForm::Return => return_from(state, shared, node, env),
        NodeForm::Break => Ok(Move::Ends(Ending::Broke)),
        NodeForm::Continue => Ok(Move::Ends(Ending::Continued)),
        NodeForm::Throw => first_part(state, shared, FrameKind::ThrowValue, node, env),
        _ => unreachable!(),
    }
}

/// A further turn of a loop, which was counted. `Halt::Limit` where a limit of the heap would be passed, and `Halt::Memory` where the
/// memory was refused.
pub fn again(
    state: &mut ThreadState,
    shared: &mut Shared,
    node: u32,
    at: u32,
    kept: Values,
    env: Env,
) -> Result<Move, Halt>
    requires may { MayEnter (standing shared.old state.old) (Turn at kept) node env }
    requires form { turns_here (shape_at (script_of shared.old.code) node).form ≡ true }
    ensures { ComesTo node (2 ^ 66) (λ sh a. enter (Turn at kept) a node sh env) (standing shared.old state.old) result (standing shared.new state.new) }
{
    match shared.code.kind(node) {
        NodeForm::While => while_turn(state, shared, node, env),
        NodeForm::ForSteps => steps_turn(state, shared, node, env),
        NodeForm::ForEach(name) => {
            let name = name.clone()?;
            each_turn(state, shared, node, name, at, kept, env)
        }
        _ => unreachable!(),
    }
}

/// A statement goes on where what stood inside this frame of it has ended so. `Halt::Ends` where the statement ends, `Halt::Limit`
/// where a limit was met, and `Halt::Memory` where the memory was refused.
pub fn go_on(
    state: &mut ThreadState,
    shared: &mut Shared,
    frame: Frame,
    ending: Ending,
) -> Result<Move, Halt>
    requires may { MayGoOn (standing shared.old state.old) frame ending }
    requires kind { goes_on_here frame.kind ≡ true }
    ensures { ComesTo frame.node (rank frame) (λ sh a. after frame sh a ending) (standing shared.old state.old) result (standing shared.new state.new) }
{
    match frame.kind {
        FrameKind::Statement => after_statement(state, shared, frame, ending),
        FrameKind::IfTest => after_if_test(state, shared, frame, ending),
        FrameKind::WhileTest => after_test(state, shared, frame, ending),
        FrameKind::WhileBody => after_while_body(state, shared, frame, ending),
        FrameKind::StepsFirst => after_step(state, shared, frame, ending),
        FrameKind::StepsTest => after_test(state, shared, frame, ending),
        FrameKind::StepsBody => after_steps_body(state, shared, frame, ending),
        FrameKind::StepsNext => after_step(state, shared, frame, ending),
        FrameKind::EachOver => after_each_over(state, shared, frame, ending),
        FrameKind::EachBody => after_each_body(state, shared, frame, ending),
        FrameKind::TryBlock => after_try(state, shared, frame, ending),
        FrameKind::TryCatch => after_try_catch(state, shared, frame, ending),
        FrameKind::ReturnValue => after_return(state, shared, frame, ending),
        FrameKind::ThrowValue => after_throw(state, shared, frame, ending),
        _ => after_finally(state, shared, frame, ending),
    }
}

/// The first part of a node inside a frame of this kind.
fn first_part(
    state: &mut ThreadState,
    shared: &Shared,
    kind: FrameKind,
    node: u32,
    env: Env,
) -> Result<Move, Halt>
    requires node { node < length (nodes_of (script_of shared.now.code)) }
    requires part { 0 < arity (shape_at (script_of shared.now.code) node) }
    ensures { (r : ℕ) → rank (frame kind node 0 env []) < r → ComesTo node r (λ sh a. under a (frame kind node 0 env []) (after (frame kind node 0 env []) sh a) First 0 env) (standing shared.now state.old) result (standing shared.now state.new) }
{
    inside(state, shared, kind, node, 0, env, Entry::First, 0)
}
