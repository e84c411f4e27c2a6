//! A thread asks for something, and waits for it.

ghost use Rattle.std.specs.Prelude.{◌≡◌, ℕ, ◌+◌, ◌^◌, ◌<◌};
ghost use Rattle.model_run.specs.Forms.{after};
ghost use Rattle.model_run.specs.State.{seeing};
ghost use Rattle.model_run.specs.Steps.{waiting_for};
ghost use Rattle.cps_frames.specs.Moves.{ComesTo};
ghost use Rattle.cps_frames.specs.Order.{rank};
ghost use Rattle.cps_frames.specs.Standing.{standing};

use crate::{Halt, Move, Shared, ThreadState};
use model_run::{Asked, Frame, OpenRequest, Request};

/// A request is opened, with the next number, and its answer is waited for inside this frame. `Halt::Memory` where the
/// memory was refused. One number more there is in each sound build (`request_room`).
pub fn wait_for(
    state: &mut ThreadState,
    shared: &mut Shared,
    frame: Frame,
    request: Request,
) -> Result<Move, Halt>
    requires room { shared.old.next_request + 1 < 2 ^ 32 }
    ensures { (r : ℕ) → rank frame < r → ComesTo frame.node r (λ sh a. seeing (waiting_for request frame (after frame sh a))) (standing shared.old state.old) result (standing shared.new state.new) }
{
    let number = shared.next_request;
    shared.next_request = number + 1;
    shared.requests.push(OpenRequest {
        number,
        thread: state.number,
        request,
    })?;
    state.push(frame)?;
    Ok(Move::Asks(Asked::ForRequest(number)))
}
