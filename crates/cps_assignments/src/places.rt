//! What a target is of.

ghost use Rattle.std.specs.Prelude.{◌≡◌, ◌<◌, ◌+◌, ◌*◌, ◌^◌, ℕ};
ghost use Rattle.model_run.specs.Around.{form_at};
ghost use Rattle.model_run.specs.Assignments.{after_receiver, receiver};
ghost use Rattle.model_run.specs.Forms.{after};
ghost use Rattle.model_run.specs.declared.frame.FrameKind.TheVariants as kind;
ghost use Rattle.cps_code.specs.Script.{script_of};
ghost use Rattle.cps_frames.specs.Moves.{ComesTo};
ghost use Rattle.cps_frames.specs.Order.{rank};
ghost use Rattle.cps_frames.specs.Places.{MayGoOn};
ghost use Rattle.cps_frames.specs.Standing.{standing};
ghost use Rattle.cps_variables.specs.Sight.{Sees};
ghost use Rattle.cps_assignments.specs.Targets.{HasTarget};

use crate::assign::at_target;
use crate::targets::{is_name, is_property};
use cps_frames::{Halt, Move, Shared, ThreadState, inside, under, value_of};
use cps_variables::part_form;
use model_run::{Ending, Entry, Frame, FrameKind};
use model_values::{Env, Values};

/// What a target is of is evaluated first; a name is of nothing.
pub(crate) fn receiver(
    state: &mut ThreadState,
    shared: &mut Shared,
    node: u32,
    env: Env,
) -> Result<Move, Halt>
    requires target { HasTarget (script_of shared.old.code) node }
    requires sees { Sees shared.old.heap.cells shared.old.binding.items env }
    ensures { (r : ℕ) → 2 * 2 ^ 34 + 1 < r → ComesTo node r (λ sh a. receiver a node sh env (form_at sh.parts 0)) (standing shared.old state.old) result (standing shared.new state.new) }
{
    if is_name(part_form(&shared.code, node, 0)) {
        let place = Values::new(shared.alloc());
        return at_target(state, shared, node, env, place);
    }
    let entry = Entry::Inside(0);
    inside(
        state,
        shared,
        FrameKind::TargetReceiver,
        node,
        0,
        env,
        entry,
        0,
    )
}

/// Behind what a target is of: its index, or nothing more for a property.
pub(crate) fn after_receiver(
    state: &mut ThreadState,
    shared: &mut Shared,
    frame: Frame,
    ending: Ending,
) -> Result<Move, Halt>
    requires may { MayGoOn (standing shared.old state.old) frame ending }
    requires kind { frame.kind ≡ kind.TargetReceiver }
    ensures { ComesTo frame.node (rank frame) (λ sh a. after frame sh a ending) (standing shared.old state.old) result (standing shared.new state.new) }
{
    let of = value_of(ending)?;
    let mut place = Values::new(shared.alloc());
    place.push(of)?;
    if is_property(part_form(&shared.code, frame.node, 0)) {
        return at_target(state, shared, frame.node, frame.env, place);
    }
    let inner = frame.env.clone()?;
    let frame = Frame {
        kind: FrameKind::TargetIndex,
        node: frame.node,
        left: 0,
        env: frame.env,
        values: place,
    };
    under(state, shared, frame, Entry::Inside(1), 0, inner)
}

/// Behind the index of a target.
pub(crate) fn after_index(
    state: &mut ThreadState,
    shared: &mut Shared,
    frame: Frame,
    ending: Ending,
) -> Result<Move, Halt>
    requires may { MayGoOn (standing shared.old state.old) frame ending }
    requires kind { frame.kind ≡ kind.TargetIndex }
    ensures { ComesTo frame.node (rank frame) (λ sh a. after frame sh a ending) (standing shared.old state.old) result (standing shared.new state.new) }
{
    let index = value_of(ending)?;
    let mut place = frame.values;
    place.push(index)?;
    at_target(state, shared, frame.node, frame.env, place)
}
