//! The work of one member.

ghost use Rattle.std.specs.Prelude.{◌<◌};
ghost use Rattle.agent_worker.specs.Working.{telling};
ghost use Rattle.agent_worker.specs.MemberWork.{WorksAs};

use crate::executor::work_executor;
use crate::operator::work_operator;
use crate::{Gate, Worked};
use jp_io::Source;
use model_text::Bytes;
use std::sync::Wait;
use std::time::Clock;
use task_host::Host;

/// Who works on a build.
#[derive(Drop)]
pub enum Member<H, A> {
    /// An executor, with the host on which its tasks run.
    Executor {
        /// The number of the executor, as the site has it.
        number: u32,
        host: H,
    },
    /// The operator, with the answers that are still to be read.
    Operator {
        /// The bytes of the answers, line by line.
        answers: A,
        /// What has come of the line that comes, as far as it has to be kept.
        line: Bytes,
        /// Whether the answers were read to their end.
        ended: bool,
        /// Whether the answers could not be read.
        failed: bool,
    },
}

/// Does the work of a member until there is none, or the build is stopped.
///
/// An executor claims its tasks and serves them, each from its folder to its end. The operator reads answer lines while an
/// input is open, and gives them to the gate. A member that meets want of memory halts the build, so that no other
/// waits for its claim. `looks`, at least 1, is as for [`serve`](crate::serve). It may wait for ever.
pub fn work<R: Wait + Clock + AllocGlobal, G: Gate, H: Host, A: Source>(
    rt: &R,
    gate: &mut G,
    member: &mut Member<H, A>,
    looks: u32,
) -> Worked
    requires looks { 0 < looks }
    ensures works { WorksAs H.Host (telling H.Host G.tells) G.tells
        A.Source looks member.old member.new gate.old gate.new result }
{
    match member {
        Member::Executor { number, host } => work_executor(rt, gate, *number, host, looks),
        Member::Operator {
            answers,
            line,
            ended,
            failed,
        } => work_operator(rt, gate, answers, line, ended, failed),
    }
}
