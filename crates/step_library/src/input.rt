//! `input`.

ghost use Rattle.std.specs.Prelude.{◌≡◌, ◌++◌, ◌+◌, ◌^◌, ◌<◌, ℕ, codes, decimal, unwrap_or, IfOk};
ghost use Rattle.model_run.specs.FlowNodes.{atom, logging};
ghost use Rattle.model_run.specs.Forms.{after};
ghost use Rattle.model_run.specs.State.{seeing};
ghost use Rattle.model_run.specs.Steps.{input_asks, input_decided};
ghost use Rattle.model_run.specs.declared.ending.Ending.TheVariants.{Answered};
ghost use Rattle.model_run.specs.declared.frame.FrameKind.TheVariants as kind;
ghost use Rattle.model_run.specs.declared.wait.Answer.TheVariants.{Decided};
ghost use Rattle.cps_frames.specs.Moves.{ComesTo};
ghost use Rattle.cps_frames.specs.Order.{rank};
ghost use Rattle.cps_frames.specs.Places.{MayGoOn};
ghost use Rattle.cps_frames.specs.Standing.{standing};
ghost use Rattle.cps_frames.specs.declared.thread.ThreadState.{ThreadState as Thread};
ghost use Rattle.step_library.specs.Waits.{IsDecided};

use crate::lines::{joined, last_line, throwing};
use cps_frames::{Halt, Move, Shared, ThreadState, note_atom, say, wait_for};
use itoa::Buffer;
use model_run::{Answer, Ending, Frame, FrameKind, Request};
use model_text::Text;
use model_values::{Class, Env, Values};
use std::alloc::{AllocError, Global};

/// `input`: a flow node and two lines, and a person's decision is waited for.
pub(crate) fn input(
    state: &mut ThreadState,
    shared: &mut Shared,
    node: u32,
    env: Env,
    message: &[u8],
    ok: Text,
    id: Option<Text>,
) -> Result<Move, Halt>
    requires room { shared.old.next_request + 1 < 2 ^ 32 }
    ensures { ComesTo node (2 ^ 66) (λ sh a. atom (codes "input") (logging message.now (logging (ok ++ codes " or Abort") (seeing (input_asks node env id))))) (standing shared.old state.old) result (standing shared.new state.new) }
{
    note_atom(state, shared, b"input")?;
    say(shared, message)?;
    let mut choice = ok;
    choice.append(b" or Abort")?;
    say(shared, choice.as_slice())?;
    let id = id_or_number(shared.alloc(), id, shared.next_request)?;
    let values = Values::new(shared.alloc());
    let frame = Frame {
        kind: FrameKind::InputWait,
        node,
        left: 0,
        env,
        values,
    };
    wait_for(state, shared, frame, Request::Input { id })
}

/// The id of an input, which is the number of its request where it is not given. `AllocError` where the memory was
/// refused.
fn id_or_number(alloc: Global, id: Option<Text>, number: u32) -> Result<Text, AllocError>
    ensures { IfOk result (λ text. text ≡ unwrap_or id (decimal number)) }
{
    match id {
        Some(id) => Ok(id),
        None => Text::from_slice(alloc, Buffer::new().format(number).as_bytes()),
    }
}

/// A person has decided.
pub(crate) fn input_wait(
    state: &ThreadState,
    shared: &mut Shared,
    frame: &Frame,
    ending: Ending,
) -> Result<Move, Halt>
    requires may { MayGoOn (standing shared.old state.now) frame.now ending }
    requires kind { frame.now.kind ≡ kind.InputWait }
    ensures { ComesTo frame.now.node (rank frame.now) (λ sh a. after frame.now sh a ending) (standing shared.old state.now) result (standing shared.new state.now) }
{
    let (proceed, name) = decision(ending);
    decided(shared, proceed, name.as_slice())
}

/// What an input comes to.
fn decided(shared: &mut Shared, proceed: bool, name: &[u8]) -> Result<Move, Halt>
    ensures { (t : Thread) (k r : ℕ) → 0 < r → ComesTo k r (λ sh a. input_decided (Decided proceed name.now)) (standing shared.old t) result (standing shared.new t) }
{
    if proceed {
        let line = joined(shared.alloc(), "Approved by ", name)?;
        return last_line(shared, line.as_slice());
    }
    let message = joined(shared.alloc(), "Rejected by ", name)?;
    throwing(shared, Class::FlowInterrupted, message)
}

/// What a person has decided, and the person's name.
fn decision(ending: Ending) -> (bool, Text)
    requires { IsDecided ending }
    ensures { ending ≡ Answered (Decided result.0 result.1) }
{
    let Ending::Answered(answer) = ending else {
        unreachable!()
    };
    match answer {
        Answer::Decided { proceed, name } => (proceed, name),
        _ => unreachable!(),
    }
}
