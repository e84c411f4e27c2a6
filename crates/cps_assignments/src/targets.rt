//! What an assignment writes to: read and written.

ghost use Rattle.std.specs.Prelude.{◌≡◌, ◌<◌, ℕ, IfOk};
ghost use Rattle.model_values.specs.Fitting.{There};
ghost use Rattle.model_run.specs.Around.{form_at};
ghost use Rattle.model_run.specs.Assignments.{place_size, write_target};
ghost use Rattle.model_run.specs.Nesting.{shape_at};
ghost use Rattle.cps_code.specs.Script.{script_of};
ghost use Rattle.cps_frames.specs.Changes.{Done, Passes};
ghost use Rattle.cps_frames.specs.Moves.{ComesTo};
ghost use Rattle.cps_frames.specs.Standing.{common_of, standing};
ghost use Rattle.cps_frames.specs.declared.thread.ThreadState.{ThreadState as Thread};
ghost use Rattle.cps_assignments.specs.Targets.{HasTarget, TargetStands, is_name, is_property, read_answer, suffix_counted, suffix_limit};

use cps_code::Code;
use cps_frames::{Halt, Move, Shared, tick};
use cps_variables::{kept_value, part_form, read_name, write_name};
use model_run::Ending;
use model_syntax::NodeForm;
use model_values::{Env, Value, Values};
use value_operators::{get_at, get_property, set_at, set_property};
use value_view::OpRefusal;

/// How many values say of what a target is.
pub(crate) fn place_size(code: &Code, node: u32) -> usize
    requires { HasTarget (script_of code.now) node }
    ensures { result ≡ place_size (form_at (shape_at (script_of code.now) node).parts 0) }
{
    match part_form(code, node, 0) {
        NodeForm::ToName(_) => 0,
        NodeForm::ToProperty(_) => 1,
        NodeForm::ToIndex => 2,
        _ => unreachable!(),
    }
}

/// The last suffix of a target is counted, where it has one. `Halt::Limit` where 1,000,000 nodes were evaluated for this event.
pub(crate) fn count_suffix(shared: &mut Shared, node: u32) -> Result<(), Halt>
    requires { HasTarget (script_of shared.old.code) node }
    ensures { (t : Thread) → Passes (suffix_limit (form_at (shape_at (script_of shared.old.code) node).parts 0)) (suffix_counted (form_at (shape_at (script_of shared.old.code) node).parts 0)) (standing shared.old t) result (standing shared.new t) }
{
    if is_name(part_form(&shared.code, node, 0)) {
        return Ok(());
    }
    tick(shared)?;
    Ok(())
}

/// Whether a target is a name.
pub(crate) fn is_name(form: &NodeForm) -> bool
    ensures { result ≡ is_name form.now }
{
    matches!(form, NodeForm::ToName(_))
}

/// Whether a target is a property.
pub(crate) fn is_property(form: &NodeForm) -> bool
    ensures { result ≡ is_property form.now }
{
    matches!(form, NodeForm::ToProperty(_))
}

/// The value of a target that is of these values.
pub(crate) fn read_target(
    shared: &mut Shared,
    node: u32,
    place: &Values,
    env: &Env,
) -> Result<Value, OpRefusal>
    requires { TargetStands (script_of shared.old.code) (common_of shared.old) node env.now place.now }
    ensures done { (t : Thread) → Done (read_answer (form_at (shape_at (script_of shared.old.code) node).parts 0) place.now env.now) (standing shared.old t) result (standing shared.new t) }
    ensures there { IfOk result (There shared.new.heap.cells) }
{
    let alloc = shared.alloc();
    let heap = &mut shared.heap;
    match part_form(&shared.code, node, 0) {
        NodeForm::ToName(name) => {
            read_name(alloc, heap, shared.binding.as_slice(), name.as_slice(), env)
        }
        NodeForm::ToProperty(name) => {
            let of = kept_value(place, 0);
            get_property(alloc, heap, &of, name.as_slice())
        }
        NodeForm::ToIndex => {
            let holder = kept_value(place, 0);
            let index = kept_value(place, 1);
            get_at(alloc, heap, &holder, &index)
        }
        _ => unreachable!(),
    }
}

/// A target that is of these values gets a value, which is the value of the assignment.
pub(crate) fn write_target(
    shared: &mut Shared,
    node: u32,
    place: &Values,
    env: &Env,
    value: Value,
) -> Result<Move, Halt>
    requires stands { TargetStands (script_of shared.old.code) (common_of shared.old) node env.now place.now }
    requires value { There shared.old.heap.cells value }
    ensures { (t : Thread) (r : ℕ) → 0 < r → ComesTo node r (λ sh a. write_target (form_at sh.parts 0) place.now env.now value) (standing shared.old t) result (standing shared.new t) }
{
    let alloc = shared.alloc();
    let heap = &mut shared.heap;
    match part_form(&shared.code, node, 0) {
        NodeForm::ToName(name) => {
            write_name(heap, &mut shared.binding, name.as_slice(), env, value)?;
            Ok(Move::Ends(Ending::Normal(value)))
        }
        NodeForm::ToProperty(name) => {
            let of = kept_value(place, 0);
            let value = set_property(alloc, heap, &of, name.as_slice(), value)?;
            Ok(Move::Ends(Ending::Normal(value)))
        }
        NodeForm::ToIndex => {
            let holder = kept_value(place, 0);
            let index = kept_value(place, 1);
            let value = set_at(alloc, heap, &holder, &index, value)?;
            Ok(Move::Ends(Ending::Normal(value)))
        }
        _ => unreachable!(),
    }
}
