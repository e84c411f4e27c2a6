//! A thread for the trials of groups: its answers say what it does next.

ghost use Rattle.std.specs.Prelude.{◌≡◌, IfOk, length};
ghost use Rattle.green_threads.specs.Resuming.{AllBranches};

use green_threads::{Branches, NewBranch, Runner, Stop};
use model_run::{Answer, Outcome, Outcomes};
use model_text::Text;
use model_values::{LimitKind, Value};
use std::alloc::{AllocError, Global};

/// What the threads of a trial share.
#[derive(Drop)]
pub struct Shared {
    /// How many branches may still begin or end.
    pub left: u32,
    /// The number of the last request.
    pub requests: u32,
    /// The numbers of the threads that had a turn, in order.
    pub turns: Vec<u32>,
    /// The ends with which a parent went on last.
    pub ends: Outcomes,
    pub alloc: Global,
}

impl Shared {
    /// No turn was made, and 1000 branches may begin and end.
    pub fn new(alloc: Global) -> Shared
        ensures { result.left ≡ 1000 }
    {
        Shared {
            left: 1000,
            requests: 0,
            turns: Vec::new(alloc),
            ends: Outcomes::new(alloc),
            alloc,
        }
    }

    /// The number of a new request.
    fn ask(&mut self) -> u32
        ensures { self.new.left ≡ self.old.left }
    {
        self.requests = self.requests.wrapping_add(1);
        self.requests
    }
}

/// A thread that waits for a request when it begins and when its branches have ended. An answer `Granted(n)` lets it fork
/// n branches, `Done` lets it end with the code as its value, and `Decided` lets it meet the limit of open calls.
#[derive(Drop)]
pub struct Scripted {
    pub number: u32,
    pub parent: Option<u32>,
    pub is_branch: bool,
    /// Its last flow node: the place of a branch among its siblings, from 0.
    pub head: u32,
}

impl Runner for Scripted {
    ghost use Rattle.std.specs.Prelude.{◌≡◌, refl};

    type Shared = Shared;

    ghost number = { λ t. t.number };

    ghost parent = { λ t. t.parent };

    ghost branch = { λ t. t.is_branch };

    ghost head = { λ t. t.head };

    ghost seated = { λ t n p. record { number = n; parent = p; is_branch = t.is_branch; head = t.head } };

    ghost marked = { λ t. t };

    ghost room = { λ s. s.left };

    ghost fits = { λ xs s. s.left ≡ s.left };

    ghost turns = { λ t s a stop t' s'. s'.left ≡ s'.left };

    fn head(&self) -> u32 {
        self.head
    }

    fn seat(&mut self, at: u32, under: Option<u32>) {
        self.number = at;
        self.parent = under;
    }

    fn mark(&mut self) {}

    ghost marked_seat = { λ t. record { number_same = refl; parent_same = refl; branch_same = refl } };

    fn resume(
        &mut self,
        shared: &mut Shared,
        answer: Answer,
    ) -> Result<Stop<Scripted>, AllocError> {
        shared.turns.push(self.number)?;
        match answer {
            Answer::Begin => Ok(Stop::Waits(shared.ask())),
            Answer::Granted(count) => {
                if count == 0 || shared.left < count {
                    return Ok(Stop::Limit(LimitKind::FlowNodes));
                }
                let branches = new_branches(shared.alloc, count)?;
                shared.left -= count;
                Ok(Stop::Forks(branches))
            }
            Answer::Done { code, out: _ } => {
                if shared.left == 0 {
                    return Ok(Stop::Limit(LimitKind::FlowNodes));
                }
                shared.left -= 1;
                Ok(Stop::Ended(Outcome::Value(Value::Int(code))))
            }
            Answer::Decided {
                proceed: _,
                name: _,
            } => Ok(Stop::Limit(LimitKind::CallDepth)),
            Answer::Joined(ends) => {
                shared.ends = ends;
                Ok(Stop::Waits(shared.ask()))
            }
        }
    }
}

/// So many branches, with the nodes 0, 1, 2 and so on.
fn new_branches(alloc: Global, count: u32) -> Result<Branches<Scripted>, AllocError>
    ensures length { IfOk result (λ bs. length bs ≡ count) }
    ensures branches { IfOk result (λ bs. AllBranches (λ t. t.is_branch) bs) }
{
    let mut branches = Branches::new(alloc);
    for head in 0..count {
        branches.push(NewBranch {
            name: Text::from_str(alloc, "branch")?,
            thread: Scripted {
                number: 0,
                parent: None,
                is_branch: true,
                head,
            },
        })?;
    }
    Ok(branches)
}
