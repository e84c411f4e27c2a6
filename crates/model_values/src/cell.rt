use crate::{Class, Entries, Value, Values};
use chain::Chain;
use model_text::Text;

/// A name and the number of the cell of its variable.
#[derive(Clone, PartialEq, Eq, Debug, Drop)]
pub struct Binding {
    pub name: Text,
    pub cell: u32,
}

/// The variables that a place in a script sees, innermost first.
pub type Env = Chain<Binding>;

/// What a cell holds.
#[derive(Clone, Drop)]
pub enum Cell {
    /// A variable, a parameter or a loop variable.
    Variable(Value),
    /// A text, which never changes.
    Text(Text),
    List(Values),
    Map(Entries),
    /// The syntax node of a closure and the variables that it sees.
    Closure { node: u32, env: Env },
    /// Something that was thrown, or can be.
    Thrown { class: Class, message: Option<Text> },
}
