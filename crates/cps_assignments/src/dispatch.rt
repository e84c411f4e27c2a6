//! Which function a form or a frame of this crate has.

ghost use Rattle.std.specs.Prelude.{◌≡◌, ◌<◌, ◌^◌, length, true};
ghost use Rattle.model_run.specs.State.{counted, may_count};
ghost use Rattle.model_run.specs.Terms.{nodes_of};
ghost use Rattle.model_run.specs.FrameTable.{is_declaration};
ghost use Rattle.model_run.specs.Forms.{after, enter};
ghost use Rattle.model_run.specs.Nesting.{shape_at};
ghost use Rattle.model_run.specs.declared.ending.Entry.TheVariants.{First};
ghost use Rattle.cps_code.specs.Script.{IsScript, script_of};
ghost use Rattle.cps_frames.specs.Changes.{Passed};
ghost use Rattle.cps_frames.specs.Moves.{ComesTo};
ghost use Rattle.cps_frames.specs.Order.{rank};
ghost use Rattle.cps_frames.specs.Places.{MayEnter, MayGoOn};
ghost use Rattle.cps_frames.specs.Standing.{Standing, standing};
ghost use Rattle.cps_variables.specs.Sight.{Sees};
ghost use Rattle.cps_assignments.specs.Kinds.{goes_on_here, starts_here};

use crate::assign::after_assigned;
use crate::declare::{after_declare, declaration};
use crate::places::{after_index, after_receiver, receiver};
use cps_frames::{Halt, Move, Shared, ThreadState, tick};
use model_run::{Ending, Frame, FrameKind};
use model_syntax::NodeForm;
use model_values::Env;

/// A declaration, an assignment, `++` or `--` begins, which is counted. `Halt::Ends` where it ends or throws, `Halt::Limit` where a
/// limit was met, and `Halt::Memory` where the memory was refused.
pub fn start(
    state: &mut ThreadState,
    shared: &mut Shared,
    node: u32,
    env: Env,
) -> Result<Move, Halt>
    requires may { MayEnter (standing shared.old state.old) First node env }
    requires form { starts_here (shape_at (script_of shared.old.code) node).form ≡ true }
    ensures { ComesTo node (2 ^ 66) (λ sh a. enter First a node sh env) (standing shared.old state.old) result (standing shared.new state.new) }
{
    tick(shared)?;
    begin(state, shared, node, env)
}

/// What such a statement does behind its count.
fn begin(state: &mut ThreadState, shared: &mut Shared, node: u32, env: Env) -> Result<Move, Halt>
    requires script { IsScript (script_of shared.old.code) }
    requires node { node < length (nodes_of (script_of shared.old.code)) }
    requires form { starts_here (shape_at (script_of shared.old.code) node).form ≡ true }
    requires sees { Sees shared.old.heap.cells shared.old.binding.items env }
    ensures { (u : Standing) → Passed may_count counted u (standing shared.old state.old) → ComesTo node (2 ^ 66) (λ sh a. enter First a node sh env) u result (standing shared.new state.new) }
{
    if is_declaration(shared.code.kind(node)) {
        declaration(state, shared, node, env)
    } else {
        receiver(state, shared, node, env)
    }
}

/// Whether a statement declares a variable.
fn is_declaration(form: &NodeForm) -> bool
    ensures { result ≡ is_declaration form.now }
{
    matches!(form, NodeForm::Declare(_))
}

/// It goes on where what stood inside this frame of it has ended so. `Halt::Ends` where it ends or throws, `Halt::Limit` where a limit
/// was met, and `Halt::Memory` where the memory was refused.
pub fn go_on(
    state: &mut ThreadState,
    shared: &mut Shared,
    frame: Frame,
    ending: Ending,
) -> Result<Move, Halt>
    requires may { MayGoOn (standing shared.old state.old) frame ending }
    requires kind { goes_on_here frame.kind ≡ true }
    ensures { ComesTo frame.node (rank frame) (λ sh a. after frame sh a ending) (standing shared.old state.old) result (standing shared.new state.new) }
{
    match frame.kind {
        FrameKind::DeclareValue => after_declare(state, shared, frame, ending),
        FrameKind::TargetReceiver => after_receiver(state, shared, frame, ending),
        FrameKind::TargetIndex => after_index(state, shared, frame, ending),
        FrameKind::AssignValue => after_assigned(state, shared, frame, ending),
        _ => unreachable!(),
    }
}
