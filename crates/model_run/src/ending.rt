use crate::Answer;
use model_text::{Sequence, Text};
use model_values::{Binding, Env, Value, Values};

/// How a part of a script ends.
#[derive(Clone, PartialEq, Eq, Debug, Drop)]
pub enum Ending {
    Normal(Value),
    /// The cell of the throwable.
    Thrown(u32),
    Returned(Value),
    Broke,
    Continued,
    /// A declaration, for the statements behind it.
    Declared(Binding),
    /// What a thread waited for.
    Answered(Answer),
}

/// How a node is entered.
#[derive(Clone, PartialEq, Eq, Debug, Drop)]
pub enum Entry {
    /// From its beginning.
    First,
    /// One of its parts alone.
    Inside(u32),
    /// A suffix, on the value before it.
    On(Value),
    /// A turn of a loop: which one, and what it keeps.
    Turn(u32, Values),
    /// The body of a closure or function, with these arguments.
    Body(Values),
    /// The closure of a branch, behind this flow node.
    Branched(u32),
}

/// A branch that is to be begun: its name, the node and the variables of its closure, and its first flow node.
#[derive(Clone, PartialEq, Eq, Debug, Drop)]
pub struct Branch {
    pub name: Text,
    pub closure: u32,
    pub env: Env,
    pub head: u32,
}

/// Branches in order.
pub type Branches = Sequence<Branch>;

/// What a thread waits for.
#[derive(Clone, PartialEq, Eq, Debug, Drop)]
pub enum Asked {
    ForRequest(u32),
    ForBranches(Branches),
}
