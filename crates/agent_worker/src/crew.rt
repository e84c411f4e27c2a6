//! The members of a build.
ghost use Rattle.std.specs.Prelude.{◌≡◌, ◌≤◌, ◌<◌, ◌+◌, ◌++◌, [], ◌∷◌, false, length, reverse, IfOk, IfErr, vec_len, vec_capacity};
ghost use Rattle.agent_worker.specs.Crews.{answers_in, hosts_in, IsCrew, members_of, others_of, seats_of};

use crate::Member;
use model_run::Executor;
use model_text::Bytes;
use std::alloc::Global;

/// The members of a build, and the hosts that none of them has.
#[derive(Drop)]
pub struct Crew<H, A> {
    /// An executor for each one of the site, in order, and then the operator.
    pub members: Vec<Member<H, A>>,
    /// The other hosts, the last one first.
    pub others: Vec<H>,
}

impl<H: Drop, A: Drop> Crew<H, A> {
    /// The members of a build with these executors: the host at each place is that of the executor there. The operator has read
    /// nothing.
    ///
    /// # Errors
    ///
    /// Where memory was refused, hosts and answers are handed back.
    pub fn gather(
        alloc: Global,
        executors: &[Executor],
        hosts: Vec<H>,
        answers: A,
    ) -> Result<Crew<H, A>, (Vec<H>, A)>
        ensures members { IfOk result (λ crew. crew.members.items ≡ members_of executors.now hosts.items answers) }
        ensures crew { IfOk result (λ crew. IsCrew crew.members.items) }
        ensures others { IfOk result (λ crew. crew.others.items ≡ reverse (others_of executors.now hosts.items)) }
        ensures room { IfOk result (λ crew. vec_len crew.others + vec_len crew.members ≤ vec_capacity crew.others + 1) }
        ensures back { IfErr result (λ e. (e.0.items ≡ hosts.items) × (e.1 ≡ answers)) }
    {
        let Some(room) = executors.len().checked_add(1) else {
            return Err((hosts, answers));
        };
        let Ok(mut members) = Vec::with_capacity(alloc, room) else {
            return Err((hosts, answers));
        };
        let mut others = hosts;
        others.reverse();
        seat(executors, &mut others, &mut members);
        members.push_reserved(Member::Operator {
            answers,
            line: Bytes::new(alloc),
            ended: false,
            failed: false,
        });
        Ok(Crew { members, others })
    }

    /// The hosts, each at its place, and the answers. It needs no memory.
    pub fn dismiss(self) -> (Vec<H>, A)
        requires crew { IsCrew self.members.items }
        requires room { vec_len self.others + vec_len self.members ≤ vec_capacity self.others + 1 }
        ensures hosts { result.0.items ≡ hosts_in self.members.items ++ reverse self.others.items }
        ensures answers { answers_in self.members.items ≡ result.1 ∷ [] }
    {
        let Crew {
            mut members,
            mut others,
        } = self;
        match members.pop() {
            Some(Member::Operator { answers, .. }) => {
                unseat(members, &mut others);
                others.reverse();
                (others, answers)
            }
            Some(Member::Executor { .. }) => unreachable!(),
            None => unreachable!(),
        }
    }
}

/// Gives each executor the next host, from the end of these on.
fn seat<H: Drop, A: Drop>(
    executors: &[Executor],
    hosts: &mut Vec<H>,
    members: &mut Vec<Member<H, A>>,
)
    requires room { vec_len members.old + length executors.now < vec_capacity members.old }
    ensures seated { members.new.items ≡ members.old.items ++ seats_of executors.now (reverse hosts.old.items) }
    ensures others { reverse hosts.new.items ≡ others_of executors.now (reverse hosts.old.items) }
    ensures same { vec_len members.new + vec_len hosts.new ≡ vec_len members.old + vec_len hosts.old }
    ensures capacity { vec_capacity hosts.new ≡ vec_capacity hosts.old }
    ensures more { vec_len members.new < vec_capacity members.new }
{
    for executor in executors {
        let Some(host) = hosts.pop() else {
            return;
        };
        members.push_reserved(Member::Executor {
            number: executor.number,
            host,
        });
    }
}

/// Takes the hosts of executors back, from the last one on.
fn unseat<H: Drop, A: Drop>(members: Vec<Member<H, A>>, hosts: &mut Vec<H>)
    requires room { vec_len hosts.old + vec_len members ≤ vec_capacity hosts.old }
    ensures hosts { hosts.new.items ≡ hosts.old.items ++ reverse (hosts_in members.items) }
{
    let mut members = members;
    while let Some(member) = members.pop() {
        unseat_one(member, hosts);
    }
}

/// Takes the host of an executor back; an operator has none.
fn unseat_one<H: Drop, A: Drop>(member: Member<H, A>, hosts: &mut Vec<H>)
    requires room { vec_len hosts.old < vec_capacity hosts.old }
    ensures hosts { hosts.new.items ≡ hosts.old.items ++ hosts_in (member ∷ []) }
    ensures len { vec_len hosts.new ≤ vec_len hosts.old + 1 }
    ensures capacity { vec_capacity hosts.new ≡ vec_capacity hosts.old }
{
    match member {
        Member::Executor { host, .. } => hosts.push_reserved(host),
        Member::Operator { .. } => {}
    }
}
