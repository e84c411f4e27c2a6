//! A turn of one member.
ghost use Rattle.std.specs.Prelude.{◌≡◌, ◌<◌, length};
ghost use Rattle.locked_build.specs.Says.{Says};
ghost use Rattle.program_lock.specs.Passes.{known, IsPassOf};
ghost use Rattle.agent_worker.specs.MemberWork.{WorksAs};
ghost use Rattle.agent_worker.specs.Working.{telling};
ghost use Rattle.member_turns.specs.Served.{WorksThrough};

use crate::gate::SiteGate;
use crate::place::Place;
use agent_worker::{Member, Worked, work};
use jp_disk::Disk;
use jp_io::Source;
use locked_build::SiteState;
use locked_build::saved_thread::SavedThread;
use program_lock::{Pass, Program};
use std::alloc::{AllocGlobal, Global};
use std::marker::Brand;
use std::sync::Wait;
use std::time::Clock;
use task_host::Host;

/// The work of a member over a gate that names this pass.
fn work_over<
    B: Place,
    W: Wait + Clock + AllocGlobal,
    D: Disk,
    R: SavedThread + Drop,
    H: Host,
    A: Source,
>(
    rt: &W,
    alloc: Global,
    program: &Program<SiteState<D, R>>,
    pass: Pass<SiteState<D, R>>,
    member: &mut Member<H, A>,
    looks: u32,
) -> (Worked, Pass<SiteState<D, R>>)
    requires looks { 0 < looks }
    requires belongs { IsPassOf program.now pass }
    requires placed { pass.seat.table_id ≡ B.table }
    requires shared { (known pass).parts ≡ B.parts }
    requires number { (known pass).number ≡ B.number }
    requires numbers { (known pass).numbers ≡ B.numbers }
    requires since { length (known pass).seen ≡ B.since }
    ensures belongs { IsPassOf program.now result.1 }
    ensures worked { WorksThrough (λ base history ask reply new. Says R.stance base.value.build history ask reply new)
        (λ old now. WorksAs H.Host (telling H.Host (λ tells. tells)) (λ tells. tells) A.Source looks member.old member.new old now result.0)
        (known pass) (known result.1) }
{
    let mut gate: SiteGate<'_, W, D, R, B> = SiteGate::new(rt, alloc, program, pass);
    let worked = work(rt, &mut gate, member, looks);
    (worked, gate.into_pass())
}

/// The work of a member through a pass of its own, which it gives back.
///
/// `WorksThrough` says what the member did by what the entries of the pass tell, and that each answer which it was given is the state's
/// reply. `looks` is as for [`work`]. It may wait for ever.
pub fn work_through<
    W: Wait + Clock + AllocGlobal,
    D: Disk,
    R: SavedThread + Drop,
    H: Host,
    A: Source,
>(
    rt: &W,
    alloc: Global,
    program: &Program<SiteState<D, R>>,
    pass: Pass<SiteState<D, R>>,
    member: &mut Member<H, A>,
    looks: u32,
) -> (Worked, Pass<SiteState<D, R>>)
    requires looks { 0 < looks }
    requires belongs { IsPassOf program.now pass }
    ensures belongs { IsPassOf program.now result.1 }
    ensures worked { WorksThrough (λ base history ask reply new. Says R.stance base.value.build history ask reply new)
        (λ old now. WorksAs H.Host (telling H.Host (λ tells. tells)) (λ tells. tells) A.Source looks member.old member.new old now result.0)
        (known pass) (known result.1) }
{
    work_over::<Brand, W, D, R, H, A>(rt, alloc, program, pass, member, looks)
}
