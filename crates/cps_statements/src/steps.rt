//! `for (first; test; next)`.

ghost use Rattle.std.specs.Prelude.{◌≡◌, ◌<◌, ◌+◌, ◌*◌, ◌^◌, false, ℕ};
ghost use Rattle.model_syntax.specs.declared.node.NodeForm.TheVariants as form;
ghost use Rattle.model_run.specs.Forms.{after};
ghost use Rattle.model_run.specs.Statements.{after_steps_first, steps_next, steps_test, steps_turn};
ghost use Rattle.model_run.specs.declared.frame.FrameKind.TheVariants as kind;
ghost use Rattle.cps_code.specs.Script.{script_of};
ghost use Rattle.cps_frames.specs.Moves.{ComesTo};
ghost use Rattle.cps_frames.specs.Order.{rank};
ghost use Rattle.cps_frames.specs.Places.{MayGoOn};
ghost use Rattle.cps_frames.specs.Standing.{standing};
ghost use Rattle.cps_frames.specs.Ways.{is_answer};
ghost use Rattle.cps_variables.specs.Nodes.{HasForm};

use cps_frames::{Halt, Move, Shared, ThreadState, inside, statement_of, turn_of};
use model_run::{Ending, Entry, Frame, FrameKind};
use model_values::Env;

/// The test of the loop.
fn steps_test(state: &mut ThreadState, shared: &Shared, node: u32, env: Env) -> Result<Move, Halt>
    requires { HasForm (script_of shared.now.code) node form.ForSteps }
    ensures { (r : ℕ) → 1 < r → ComesTo node r (λ sh a. steps_test a node env) (standing shared.now state.old) result (standing shared.now state.new) }
{
    inside(
        state,
        shared,
        FrameKind::StepsTest,
        node,
        0,
        env,
        Entry::First,
        1,
    )
}

/// The last statement of its head, behind a turn.
fn steps_next(state: &mut ThreadState, shared: &Shared, node: u32, env: Env) -> Result<Move, Halt>
    requires { HasForm (script_of shared.now.code) node form.ForSteps }
    ensures { (r : ℕ) → 2 * 2 ^ 34 + 1 < r → ComesTo node r (λ sh a. steps_next a node env) (standing shared.now state.old) result (standing shared.now state.new) }
{
    inside(
        state,
        shared,
        FrameKind::StepsNext,
        node,
        0,
        env,
        Entry::First,
        2,
    )
}

/// Its block, in a turn of it.
pub(crate) fn steps_turn(
    state: &mut ThreadState,
    shared: &Shared,
    node: u32,
    env: Env,
) -> Result<Move, Halt>
    requires { HasForm (script_of shared.now.code) node form.ForSteps }
    ensures { (r : ℕ) → 3 * 2 ^ 34 + 1 < r → ComesTo node r (λ sh a. steps_turn a node env) (standing shared.now state.old) result (standing shared.now state.new) }
{
    inside(
        state,
        shared,
        FrameKind::StepsBody,
        node,
        0,
        env,
        Entry::First,
        3,
    )
}

/// Behind the first or the last statement of its head: the test, which sees what was declared.
pub(crate) fn after_step(
    state: &mut ThreadState,
    shared: &Shared,
    frame: Frame,
    ending: Ending,
) -> Result<Move, Halt>
    requires form { HasForm (script_of shared.now.code) frame.node form.ForSteps }
    requires ending { is_answer ending ≡ false }
    ensures { (r : ℕ) → 1 < r → ComesTo frame.node r (λ sh a. after_steps_first a frame.node frame.env ending) (standing shared.now state.old) result (standing shared.now state.new) }
{
    let (_, env) = statement_of(frame.env, ending)??;
    steps_test(state, shared, frame.node, env)
}

/// Behind its block: the last statement of its head, unless the block has left the loop.
pub(crate) fn after_steps_body(
    state: &mut ThreadState,
    shared: &Shared,
    frame: Frame,
    ending: Ending,
) -> Result<Move, Halt>
    requires may { MayGoOn (standing shared.now state.old) frame ending }
    requires kind { frame.kind ≡ kind.StepsBody }
    ensures { ComesTo frame.node (rank frame) (λ sh a. after frame sh a ending) (standing shared.now state.old) result (standing shared.now state.new) }
{
    turn_of(ending)?;
    steps_next(state, shared, frame.node, frame.env)
}
