//! What a frame does with what stood inside it, and a node where it is entered: the crates of the forms, joined.

ghost use Rattle.std.specs.Prelude.{◌^◌};
ghost use Rattle.model_run.specs.declared.ending.Entry.TheVariants.{First, Turn};
ghost use Rattle.model_run.specs.Forms.{enter};
ghost use Rattle.cps_code.specs.Script.{script_of};
ghost use Rattle.cps_frames.specs.Moves.{ComesTo};
ghost use Rattle.cps_frames.specs.Places.{MayEnter, MayGoOn};
ghost use Rattle.cps_frames.specs.Standing.{standing};
ghost use Rattle.cps_frames.specs.declared.thread.Move.TheVariants.{Enter};
ghost use Rattle.cps_calls.specs.Turns.{GoesOnTo};
ghost use Rattle.cps_machine.specs.Turns.{HasPart};

use crate::kinds::{
    is_assignment, is_expression, is_loop, is_of_assignment, is_of_call, is_of_expression,
    is_of_statement, is_statement, is_walk,
};
use cps_frames::{Halt, Move, Shared, ThreadState, part};
use model_run::{Ending, Entry, Frame};
use model_values::{Env, Value, Values};

/// How the innermost frame goes on with what stood inside it; a walk goes into its next turn at once. `Halt::Ends` where
/// its node ends so, `Halt::Limit` where a limit was met, and `Halt::Memory` where the memory was refused.
pub fn go_on(
    state: &mut ThreadState,
    shared: &mut Shared,
    frame: Frame,
    ending: Ending,
) -> Result<Move, Halt>
    requires may { MayGoOn (standing shared.old state.old) frame ending }
    ensures { GoesOnTo frame ending (standing shared.old state.old) result (standing shared.new state.new) }
{
    if is_of_statement(&frame.kind) {
        return cps_statements::go_on(state, shared, frame, ending);
    }
    if is_of_assignment(&frame.kind) {
        return cps_assignments::go_on(state, shared, frame, ending);
    }
    if is_of_expression(&frame.kind) {
        return cps_expressions::go_on(state, shared, frame, ending);
    }
    if is_of_call(&frame.kind) {
        return cps_calls::go_on(state, shared, frame, ending);
    }
    step_library::go_on(state, shared, frame, ending)
}

/// What a node does that is entered so. `Halt::Ends` where it ends so, `Halt::Limit` where a limit was met, and
/// `Halt::Memory` where the memory was refused.
pub fn enter(
    state: &mut ThreadState,
    shared: &mut Shared,
    entry: Entry,
    node: u32,
    env: Env,
) -> Result<Move, Halt>
    requires may { MayEnter (standing shared.old state.old) entry node env }
    requires inside { HasPart (script_of shared.old.code) (Enter entry node env) }
    ensures { ComesTo node (2 ^ 66) (λ sh a. enter entry a node sh env) (standing shared.old state.old) result (standing shared.new state.new) }
{
    match entry {
        Entry::First => start(state, shared, node, env),
        Entry::Inside(at) => Ok(part(shared, node, Entry::First, at, env)),
        Entry::On(value) => cps_expressions::suffix(state, shared, node, env, value),
        Entry::Body(arguments) => cps_calls::enter_call(state, shared, node, env, arguments),
        Entry::Turn(at, kept) => turn(state, shared, node, at, kept, env),
        Entry::Branched(start) => cps_calls::branched(state, shared, node, env, start),
    }
}

/// What a node does from its beginning. What is neither a statement nor an expression, as a function, does nothing.
fn start(state: &mut ThreadState, shared: &mut Shared, node: u32, env: Env) -> Result<Move, Halt>
    requires may { MayEnter (standing shared.old state.old) First node env }
    ensures { ComesTo node (2 ^ 66) (λ sh a. enter First a node sh env) (standing shared.old state.old) result (standing shared.new state.new) }
{
    let form = shared.code.kind(node);
    if is_statement(form) {
        return cps_statements::start(state, shared, node, env);
    }
    if is_assignment(form) {
        return cps_assignments::start(state, shared, node, env);
    }
    if is_expression(form) {
        return cps_expressions::start(state, shared, node, env);
    }
    Ok(Move::Ends(Ending::Normal(Value::Null)))
}

/// A further turn of a loop, or of a method that goes over elements. What is neither does nothing.
fn turn(
    state: &mut ThreadState,
    shared: &mut Shared,
    node: u32,
    at: u32,
    kept: Values,
    env: Env,
) -> Result<Move, Halt>
    requires may { MayEnter (standing shared.old state.old) (Turn at kept) node env }
    ensures { ComesTo node (2 ^ 66) (λ sh a. enter (Turn at kept) a node sh env) (standing shared.old state.old) result (standing shared.new state.new) }
{
    let form = shared.code.kind(node);
    if is_loop(form) {
        return cps_statements::again(state, shared, node, at, kept, env);
    }
    if is_walk(form) {
        return cps_calls::again(state, shared, node, at, kept, env);
    }
    Ok(Move::Ends(Ending::Normal(Value::Null)))
}
