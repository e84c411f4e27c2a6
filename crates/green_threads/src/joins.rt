//! What a thread waits for that waits for its branches.

ghost use Rattle.std.specs.Prelude.{◌≡◌, ◌≤◌, IfOk, length, map};
ghost use Rattle.model_run.specs.World.{ends_before, join_end, all_ended, join_all, join_wait};
ghost use Rattle.green_threads.specs.Grouping.{FewBranches};

use model_run::{Answer, BranchEnd, Join, JoinEnd, Joins, Outcome, Outcomes, Wait};
use std::alloc::{AllocError, Global};

/// What a thread waits for that waited for this, where the branch of this number has ended with this last flow node and
/// outcome. The branch's place is the number of those that ended before it.
pub(crate) fn joined(
    alloc: Global,
    wait: Wait,
    number: u32,
    node: u32,
    outcome: Outcome,
) -> Result<Wait, AllocError>
    requires few_branches { FewBranches wait }
    ensures { IfOk result (λ w. w ≡ join_wait number node outcome wait) }
{
    match wait {
        Wait::Ready(answer) => Ok(Wait::Ready(answer)),
        Wait::Request(request) => Ok(Wait::Request(request)),
        Wait::Branches(joins) => {
            let place = ended_count(joins.as_slice());
            let end = JoinEnd {
                node,
                outcome,
                place,
            };
            let joins = with_end(joins, number, end);
            wait_for(alloc, joins)
        }
    }
}

/// How many branches have ended.
fn ended_count(joins: &[Join]) -> u32
    requires few { length joins.now ≤ 4294967295 }
    ensures { result ≡ ends_before joins.now }
{
    let mut ends = 0;
    for join in joins {
        if join.ended.is_some() {
            ends += 1;
        }
    }
    ends
}

/// The branches, with this end of the one of this number.
fn with_end(joins: Joins, number: u32, end: JoinEnd) -> Joins
    ensures { result ≡ map (join_end number end) joins }
{
    let mut items = joins.into_vec();
    for join in items.iter_mut() {
        if join.thread == number {
            join.ended = Some(end);
        }
    }
    Joins::from_vec(items)
}

/// What a thread waits for that waits until all of these have ended: nothing more where they all have.
fn wait_for(alloc: Global, joins: Joins) -> Result<Wait, AllocError>
    ensures { IfOk result (λ w. w ≡ join_all joins) }
{
    match ends(alloc, joins.as_slice())? {
        None => Ok(Wait::Branches(joins)),
        Some(outcomes) => Ok(Wait::Ready(Answer::Joined(outcomes))),
    }
}

/// The ends of all branches in the order of the branches; none where one has not ended.
fn ends(alloc: Global, joins: &[Join]) -> Result<Option<Outcomes>, AllocError>
    ensures { IfOk result (λ o. o ≡ all_ended joins.now) }
{
    let mut outcomes = Outcomes::new(alloc);
    for join in joins {
        let Some(end) = join.ended else {
            return Ok(None);
        };
        outcomes.push(BranchEnd {
            name: join.name.clone()?,
            end,
        })?;
    }
    Ok(Some(outcomes))
}
