//! Members at their seats, and taken from them.
ghost use Rattle.std.specs.Prelude.{◌≡◌, ◌≤◌, ◌<◌, [], map, length, IfOk, IfErr, vec_capacity};
ghost use Rattle.member_turns.specs.Ending.{can_answer};
ghost use Rattle.member_turns.specs.Ready.{AreReady};

use crate::ending::can_read;
use crate::locked_build::SiteState;
use crate::saved_thread::SavedThread;
use crate::seat::Seat;
use agent_worker::Member;
use jp_disk::Disk;
use program_lock::{Memory, Program};
use std::alloc::Global;
use std::sync::Wait;

/// Seats for these members at this lock, in their order. `Memory` comes only for want of memory; then all are as they were.
pub(crate) fn seated<'a, W: Wait, D: Disk, R: SavedThread + Drop, H, A>(
    rt: &'a W,
    alloc: Global,
    program: &'a Program<SiteState<D, R>>,
    members: &mut Vec<Member<H, A>>,
    looks: u32,
) -> Result<Vec<Seat<'a, W, D, R, H, A>>, Memory>
    requires looks { 0 < looks }
    ensures members { IfOk result (λ seats. (map (λ seat. seat.member) seats.items ≡ members.old.items) × (members.new.items ≡ [])) }
    ensures ready { IfOk result (λ seats. AreReady program.now.table.shared.table_id looks seats.items) }
    ensures room { IfOk result (λ seats. length seats.items ≤ vec_capacity members.new) }
    ensures refused { IfErr result (λ _. members.new.items ≡ members.old.items) }
{
    let Ok(mut seats) = Vec::with_capacity(alloc, members.len()) else {
        return Err(Memory);
    };
    members.reverse();
    while let Some(member) = members.pop() {
        seats.push_reserved(Seat {
            rt,
            alloc,
            program,
            looks,
            member,
            pass: None,
        });
    }
    Ok(seats)
}

/// The members of these seats, in their order.
pub(crate) fn unseat<'a, W: Wait, D: Disk, R: SavedThread + Drop, H, A>(
    seats: Vec<Seat<'a, W, D, R, H, A>>,
    members: &mut Vec<Member<H, A>>,
)
    requires none { members.old.items ≡ [] }
    requires room { length seats.items ≤ vec_capacity members.old }
    ensures members { members.new.items ≡ map (λ seat. seat.member) seats.entry.items }
{
    let mut seats = seats;
    while let Some(seat) = seats.pop() {
        let Seat { member, .. } = seat;
        members.push_reserved(member);
    }
    seats.destroy_empty();
    members.reverse();
}

/// Whether the answers of an operator among the members are neither at their end nor failed.
pub(crate) fn can_answer<'a, W: Wait, D: Disk, R: SavedThread + Drop, H, A>(
    seats: &[Seat<'a, W, D, R, H, A>],
) -> bool
    ensures { result ≡ can_answer (map (λ seat. seat.member) seats.now) }
{
    for seat in seats {
        if can_read(&seat.member) {
            return true;
        }
    }
    false
}
