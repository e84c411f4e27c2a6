//! Statements in a row.

ghost use Rattle.std.specs.Prelude.{◌≡◌, ◌<◌, ◌≤◌, ◌+◌, ℕ, length};
ghost use Rattle.model_run.specs.Around.{arity};
ghost use Rattle.model_run.specs.Forms.{after};
ghost use Rattle.model_run.specs.Nesting.{shape_at};
ghost use Rattle.model_run.specs.Statements.{statements};
ghost use Rattle.model_run.specs.Terms.{nodes_of};
ghost use Rattle.model_run.specs.declared.frame.FrameKind.TheVariants as kind;
ghost use Rattle.cps_code.specs.Script.{script_of};
ghost use Rattle.cps_frames.specs.Moves.{ComesTo};
ghost use Rattle.cps_frames.specs.Order.{rank};
ghost use Rattle.cps_frames.specs.Places.{MayGoOn};
ghost use Rattle.cps_frames.specs.Standing.{standing};

use cps_frames::{Halt, Move, Shared, ThreadState, inside, statement_of};
use model_run::{Ending, Entry, Frame, FrameKind};
use model_values::{Env, Value};

/// The last `left` statements of a row, behind a statement of this value.
pub(crate) fn statements(
    state: &mut ThreadState,
    shared: &Shared,
    node: u32,
    left: u32,
    value: Value,
    env: Env,
) -> Result<Move, Halt>
    requires node { node < length (nodes_of (script_of shared.now.code)) }
    requires left { left ≤ arity (shape_at (script_of shared.now.code) node) }
    ensures { (r : ℕ) → left + left < r → ComesTo node r (λ sh a. statements a node (arity sh) left value env) (standing shared.now state.old) result (standing shared.now state.new) }
{
    if left == 0 {
        return Ok(Move::Ends(Ending::Normal(value)));
    }
    let at = shared.code.parts(node) - left;
    inside(
        state,
        shared,
        FrameKind::Statement,
        node,
        left - 1,
        env,
        Entry::First,
        at,
    )
}

/// Behind a statement: the next one, which sees what this one has declared.
pub(crate) fn after_statement(
    state: &mut ThreadState,
    shared: &Shared,
    frame: Frame,
    ending: Ending,
) -> Result<Move, Halt>
    requires may { MayGoOn (standing shared.now state.old) frame ending }
    requires kind { frame.kind ≡ kind.Statement }
    ensures { ComesTo frame.node (rank frame) (λ sh a. after frame sh a ending) (standing shared.now state.old) result (standing shared.now state.new) }
{
    let (value, env) = statement_of(frame.env, ending)??;
    statements(state, shared, frame.node, frame.left, value, env)
}
