use model_run::Outcome;
use model_values::LimitKind;

/// How the threads of a group come to rest.
#[derive(Clone, Copy, Debug, PartialEq, Eq)]
pub enum Settled {
    /// None is ready: each waits for the answer to a request, or for branches.
    AllWait,
    /// The thread without a parent has ended. All is over: no other thread may go on.
    Ended(Outcome),
    /// A limit was met. All is over: no thread may go on.
    Limit(LimitKind),
}
