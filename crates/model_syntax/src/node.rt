use crate::{Access, AssignSign, Caught, NewClass, Operator, Prefix};
use model_text::{Text, Texts};

/// What a syntax node is: the rule that it comes from, with its name, text, number, sign or class.
///
/// A script is one tree of such nodes, each with its parts in the order of the script. The comments name the parts;
/// `..` stands for any number of them and `?` for one at most.
#[derive(Debug, Drop)]
pub enum NodeForm {
    /// Functions and statements ..
    Script,
    /// The name and the parameters; a block.
    Function(Text, Texts),
    /// Statements ..
    Block,
    /// Arms .., and the last block?
    If,
    /// A test and a block.
    Arm,
    /// A test and a block.
    While,
    /// The name; what it goes over and a block.
    ForEach(Text),
    /// The first statement, the test, the last statement and a block.
    ForSteps,
    /// A block, catches .., and a `finally`?
    Try,
    /// What it catches, and the name; a block.
    Catch(Caught, Text),
    /// A block.
    Finally,
    /// The name; its value?
    Declare(Text),
    /// A target and a value.
    Assign(AssignSign),
    /// A target.
    Increment,
    /// A target.
    Decrement,
    /// The name.
    ToName(Text),
    /// The name of the property; what it is of.
    ToProperty(Text),
    /// What is indexed, and the index.
    ToIndex,
    /// An expression.
    Evaluate,
    /// A value?
    Return,
    Break,
    Continue,
    /// A value.
    Throw,
    Number(i32),
    Literal(Text),
    /// Plain parts and expressions ..
    GString,
    /// The plain text between the expressions of a text.
    PlainPart(Text),
    True,
    False,
    Null,
    Variable(Text),
    /// The name; entries .., then arguments ..
    Call(Text),
    /// An expression in parentheses.
    Group,
    /// Expressions ..
    List,
    /// Entries ..
    Map,
    /// The key; its value.
    NamedEntry(Text),
    /// The key; its value.
    NumberedEntry(i32),
    /// The key and its value.
    ComputedEntry,
    /// The parameters, where it has heads; a block.
    Closure(Option<Texts>),
    /// The class; a message?
    New(NewClass),
    /// An expression, then suffixes ..
    Suffixed,
    Property(Access, Text),
    /// The name; entries .., then arguments ..
    Method(Access, Text),
    /// The index.
    Index,
    /// Signs .., then an expression.
    Prefixed,
    Prefix(Prefix),
    /// An expression, then operands ..
    Joined,
    /// The operator; the expression behind it.
    Operand(Operator),
    /// Expressions ..
    And,
    /// Expressions ..
    Or,
    /// Choices .., then the last value.
    Chosen,
    /// A test and a value.
    IfTrue,
    /// A value.
    IfSet,
}
