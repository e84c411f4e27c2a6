//! Reading what a task wrote, and reporting it.

ghost use Rattle.std.specs.Prelude.{◌≡◌, ◌≤◌, ◌↔◌, ℕ, [], List, length};
ghost use Rattle.agent_worker.specs.Sizes.{piece_size};
ghost use Rattle.agent_worker.specs.Acts.{Act, HasStream, kept, unreported, named as name_of};
ghost use Rattle.agent_worker.specs.Causes.{IsReadNext};
ghost use Rattle.agent_worker.specs.Serving.{IsInTurn};
ghost use Rattle.agent_worker.specs.Serve.{Seen, seen, KeepsGate};
ghost use Rattle.agent_worker.specs.Standing.{Stands, Tells};
ghost use Rattle.agent_worker.specs.Reading.{ReadsPiece, ReadsThrough};

use crate::{Gate, Served};
use journal_core::TakeFault;
use model_run::{Event, Taken};
use model_text::Bytes;
use std::alloc::Global;
use std::sync::Wait;
use task_host::{Host, Order, Stream};

/// How many bytes are read at once.
pub(crate) const PIECE: usize = 65_536;

/// What one read gave.
#[derive(Clone, Copy)]
pub(crate) enum Piece {
    /// Bytes, which were accepted.
    Bytes,
    Nothing,
    Failed,
}

/// What reading a stream through gave.
#[derive(Clone, Copy)]
pub(crate) struct Reading {
    /// There were bytes.
    pub bytes: bool,
    /// The last read failed; else it gave nothing.
    pub failed: bool,
}

// What an event calls a stream.
fn named(stream: Stream) -> model_run::Stream
    ensures name { result ≡ name_of stream }
{
    match stream {
        Stream::Log => model_run::Stream::Log,
        Stream::Out => model_run::Stream::Out,
    }
}

/// Reports an event.
pub(crate) fn tell<G: Gate>(gate: &mut G, event: Event) -> Served
    ensures tells { Tells event (G.tells gate.old).told (G.tells gate.new).told (G.tells gate.old).calls
        (G.tells gate.new).calls (G.tells gate.new).said result }
    ensures gate { KeepsGate (G.tells gate.old) (G.tells gate.new) }
{
    match gate.report(event) {
        Ok(Taken::Accepted) => Served::Done,
        Ok(Taken::NotOpen) => Served::Finished,
        Ok(Taken::WrongPlace { kept: _ }) => Served::Finished,
        Ok(Taken::Finished) => Served::Finished,
        Err(TakeFault::Memory) => Served::Memory,
        Err(TakeFault::Disk) => Served::Stopped,
        Err(TakeFault::Full { len: _, add: _ }) => Served::Stopped,
        Err(TakeFault::Stopped) => Served::Stopped,
    }
}

/// Reads once from the kept place of a stream, and reports what it gave, where it is at least one byte.
pub(crate) fn read_piece<G: Gate, H: Host>(
    alloc: Global,
    gate: &mut G,
    host: &mut H,
    order: &Order,
    stream: Stream,
    place: &mut u64,
    buf: &mut [u8],
) -> Result<Piece, Served>
    requires size { length buf.old ≡ piece_size }
    ensures reads { (looks : ℕ) (old : Seen) (past : List Act) → HasStream order.now stream
        → place.old ≡ kept order.now stream past → unreported past ≡ [] → IsInTurn past
        → IsReadNext order.now stream past
        → Stands (H.honest host.old) order.now looks old
        (seen H.Host G.tells host.old gate.old) past
        → ReadsPiece (H.honest host.new) order.now looks stream old
        (seen H.Host G.tells host.new gate.new) place.old place.new past result }
    ensures gate { KeepsGate (G.tells gate.old) (G.tells gate.new) }
    ensures launches { H.launches host.new ≡ H.launches host.old }
    ensures folders { H.honest host.old → H.dirs host.new ≡ H.dirs host.old }
    ensures honest { H.honest host.new ↔ H.honest host.old }
    ensures faults { H.faults host.old ≤ H.faults host.new }
{
    let Ok(count) = host.read(order, stream, *place, buf) else {
        return Ok(Piece::Failed);
    };
    if count == 0 {
        return Ok(Piece::Nothing);
    }
    let Ok(bytes) = Vec::from_slice(alloc, &buf[..count]) else {
        return Err(Served::Memory);
    };
    let event = Event::Output {
        task: order.task,
        stream: named(stream),
        from: *place,
        bytes: Bytes::from_vec(bytes),
    };
    match tell(gate, event) {
        Served::Done => {}
        answer => return Err(answer),
    }
    *place = place.saturating_add(count as u64);
    Ok(Piece::Bytes)
}

/// Reads a stream from its kept place until a read gives nothing or fails, and reports what each read gave.
pub(crate) fn read_through<R: Wait + AllocGlobal, G: Gate, H: Host>(
    rt: &R,
    gate: &mut G,
    host: &mut H,
    order: &Order,
    stream: Stream,
    place: &mut u64,
    buf: &mut [u8],
) -> Result<Reading, Served>
    requires size { length buf.old ≡ piece_size }
    ensures reads { (looks : ℕ) (old : Seen) (past : List Act) → HasStream order.now stream
        → place.old ≡ kept order.now stream past → unreported past ≡ [] → IsInTurn past
        → IsReadNext order.now stream past
        → Stands (H.honest host.old) order.now looks old
        (seen H.Host G.tells host.old gate.old) past
        → ReadsThrough (H.honest host.new) order.now looks stream old
        (seen H.Host G.tells host.new gate.new) place.new past result }
    ensures gate { KeepsGate (G.tells gate.old) (G.tells gate.new) }
    ensures launches { H.launches host.new ≡ H.launches host.old }
    ensures folders { H.honest host.old → H.dirs host.new ≡ H.dirs host.old }
    ensures honest { H.honest host.new ↔ H.honest host.old }
    ensures faults { H.faults host.old ≤ H.faults host.new }
{
    let mut bytes = false;
    for _ in rt.forever() {
        let piece = match read_piece(rt.alloc(), gate, host, order, stream, place, buf) {
            Ok(piece) => piece,
            Err(answer) => return Err(answer),
        };
        match piece {
            Piece::Bytes => bytes = true,
            Piece::Nothing => return Ok(Reading {
                bytes,
                failed: false,
            }),
            Piece::Failed => return Ok(Reading {
                bytes,
                failed: true,
            }),
        }
    }
    unreachable!()
}
