//! Workers: what an executor does with the orders of a build, and how the operator's answers come to it.
//!
//! A worker knows the build only through its [`Gate`]: it claims orders there, reports what became of their tasks, and
//! hands over answer lines. It knows the machine only through its `Host`. [`serve`] sees one task from its folder to
//! its end; [`work`] does the work of one [`Member`], an executor or the operator. A worker that has to wait pauses on
//! its host, or sleeps.
//!
//! What a worker reports it has seen in this very call. `specs/Causes` says, over the list of what was done, what each
//! report rests on; `specs/Serving` and `specs/Operating` say what may be done at all, and after what.
//!
//! ```text
//! let mut member = Member::Executor { number: 0, host };
//! match work(&rt, &mut gate, &mut member, 5) {
//!     Worked::Rest => {}       // no task of this executor is left, and nobody else is at work
//!     Worked::Stopped => {}    // the build is stopped: the gate says why
//!     ..
//! }
//! ```
//!
//! Who works on a build: an executor for each one of its site, with its host, and the operator with the answers.
//!
//! [`Crew::gather`] makes the members of hosts and answers, host i for the executor at place i of the site. [`Crew::dismiss`] gives
//! hosts and answers back, the hosts in their order. Neither loses a host where memory is refused.
//!
//! ```text
//! let mut crew = Crew::gather(alloc, site.executors.as_slice(), hosts, answers)?;
//! go_on(&rt, alloc, durable, &mut crew.members, site.looks);
//! let (hosts, answers) = crew.dismiss();
//! ```
#![tactic(auto)]

mod answer_line;
mod crew;
mod executor;
mod gate;
mod member;
mod operator;
mod reading;
mod task;
mod turn;
mod worked;

pub use answer_line::{AnswerLine, answer_of};
pub use crew::Crew;
pub use gate::{Claim, ClaimSaid, Gate, GateCall, Heard, Inputs, Said};
pub use member::{Member, work};
pub use operator::{LineEnd, answer_in, read_line};
pub use task::{Served, serve};
pub use worked::Worked;
