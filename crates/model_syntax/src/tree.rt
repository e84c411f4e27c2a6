use crate::{Declared, Place};
use model_text::Text;
use sqlite_items::{Boxed, Items};

/// A whole script. Parts that the grammar puts behind one another stand in one list, so a tree is as deep as the
/// script's open brackets and no deeper.
#[derive(Drop)]
pub struct Tree {
    pub tops: Items<Top>,
}

/// What stands at the top level.
#[derive(Drop)]
pub enum Top {
    Function(Function),
    /// A statement, and the place of its first token.
    Statement(Place, Stmt),
}

/// `def f(a, b) { .. }`
#[derive(Drop)]
pub struct Function {
    /// The place of its first token.
    pub place: Place,
    pub name: Declared,
    pub parameters: Items<Declared>,
    pub body: Items<Stmt>,
}

/// Which throwables a catch takes: `catch (e)` and `catch (Exception e)`, or `catch (Throwable e)`.
#[derive(Clone, Copy, PartialEq, Eq, Debug)]
pub enum Caught {
    Exceptions,
    Throwables,
}

/// The signs that write a value to a target.
#[derive(Clone, Copy, PartialEq, Eq, Debug)]
pub enum AssignSign {
    Set,
    AddTo,
    SubtractFrom,
    MultiplyBy,
    ReduceBy,
}

/// The signs between two operands, without `&&`, `||`, `?:` and `? :`.
#[derive(Clone, Copy, PartialEq, Eq, Debug)]
pub enum Operator {
    Plus,
    Minus,
    Times,
    Mod,
    Range,
    Less,
    LessEqual,
    Greater,
    GreaterEqual,
    Equal,
    NotEqual,
}

/// The signs before an operand.
#[derive(Clone, Copy, PartialEq, Eq, Debug)]
pub enum Prefix {
    Not,
    Negative,
    Positive,
}

/// `.`, or `?.`, which gives null on null.
#[derive(Clone, Copy, PartialEq, Eq, Debug)]
pub enum Access {
    Direct,
    NullSafe,
}

/// The classes that `new` takes.
#[derive(Clone, Copy, PartialEq, Eq, Debug)]
pub enum NewClass {
    Exception,
    RuntimeException,
    Error,
}

/// A statement. A list of statements is a block.
#[cycle(syntax)]
#[derive(Drop)]
pub enum Stmt {
    /// The tests with their blocks, in order, and the last `else`.
    If(Items<Arm>, Option<Items<Stmt>>),
    While(Expr, Items<Stmt>),
    /// `for (x in e)` and `for (def x : e)`
    ForEach(Declared, Expr, Items<Stmt>),
    /// `for (def x = e; test; b)` and `for (String x = e; test; b)`
    ForDeclared(Declared, Expr, Expr, Boxed<Assignment>, Items<Stmt>),
    /// `for (a; test; b)`
    ForSteps(Boxed<Assignment>, Expr, Boxed<Assignment>, Items<Stmt>),
    /// The block, its catches in order, and the block of `finally`.
    Try(Items<Stmt>, Items<Catch>, Option<Items<Stmt>>),
    /// `def x`, `def x = e`, `String x = e`
    Declare(Declared, Option<Expr>),
    Assign(Assignment),
    Evaluate(Expr),
    Return(Option<Expr>),
    Break(Place),
    Continue(Place),
    Throw(Expr),
}

/// `if (test) { .. }`
#[cycle(syntax)]
#[derive(Drop)]
pub struct Arm {
    pub test: Expr,
    pub body: Items<Stmt>,
}

/// `catch (e) { .. }`
#[cycle(syntax)]
#[derive(Drop)]
pub struct Catch {
    pub caught: Caught,
    pub name: Declared,
    pub body: Items<Stmt>,
}

/// An assignment: a statement, and a part of a `for` head.
#[cycle(syntax)]
#[derive(Drop)]
pub enum Assignment {
    /// `x = e`, `x += e`
    Write(Target, AssignSign, Expr),
    /// `x++`
    Increment(Target),
    /// `x--`
    Decrement(Target),
}

/// What an assignment writes.
#[cycle(syntax)]
#[derive(Drop)]
pub enum Target {
    /// `x`
    ToName(Text),
    /// `e.x`
    ToProperty(Expr, Text),
    /// `e[i]`
    ToIndex(Expr, Expr),
}

/// An expression.
#[cycle(syntax)]
#[derive(Drop)]
pub enum Expr {
    Number(i32),
    Literal(Text),
    GString(Items<Part>),
    True,
    False,
    Null,
    Variable(Text),
    /// `f(a, b)`, `f(a) { .. }`, `f { .. }` and `f a, b`
    Call(Text, Arguments),
    /// `(e)`
    Group(Boxed<Expr>),
    List(Items<Expr>),
    Map(Items<Entry>),
    /// A closure: its parameters, where it has heads, and its statements.
    Closure(Option<Items<Declared>>, Items<Stmt>),
    New(NewClass, Option<Boxed<Expr>>),
    /// A primary and what stands behind it, at least one.
    Suffixed(Boxed<Expr>, Items<Suffix>),
    /// The signs before an operand, at least one, in the order in which they stand.
    Prefixed(Items<Prefix>, Boxed<Expr>),
    /// Operands of one rank, each but the first with the operator before it; at least two.
    Joined(Boxed<Expr>, Items<Operand>),
    /// Operands with `&&` between them, at least two.
    And(Items<Expr>),
    /// Operands with `||` between them, at least two.
    Or(Items<Expr>),
    /// The tests before `?` and `?:`, at least one, and the last value.
    Chosen(Items<Choice>, Boxed<Expr>),
}

/// An operand behind an operator.
#[cycle(syntax)]
#[derive(Drop)]
pub struct Operand {
    pub operator: Operator,
    pub value: Expr,
}

/// `test ? value :`, or `value ?:`
#[cycle(syntax)]
#[derive(Drop)]
pub enum Choice {
    IfTrue(Expr, Expr),
    IfSet(Expr),
}

/// What stands behind a primary.
#[cycle(syntax)]
#[derive(Drop)]
pub enum Suffix {
    /// `.x`
    Property(Access, Text),
    /// `.f(a)`
    Method(Access, Text, Arguments),
    /// `[i]`
    Index(Expr),
}

/// The arguments of a call: those with names, or those in order; a closure behind `)` is the last in order.
#[cycle(syntax)]
#[derive(Drop)]
pub struct Arguments {
    pub named: Items<Entry>,
    pub ordered: Items<Expr>,
}

/// A part of a text with expressions.
#[cycle(syntax)]
#[derive(Drop)]
pub enum Part {
    Plain(Text),
    Inner(Expr),
}

/// A key and its value.
#[cycle(syntax)]
#[derive(Drop)]
pub enum Entry {
    Named(Text, Expr),
    Numbered(i32, Expr),
    Computed(Expr, Expr),
}

/// The first part of `for (a; test; b)`. A tree holds it by the two variants `ForDeclared` and `ForSteps` of its
/// statement, so that no other statement can stand there.
#[derive(Drop)]
pub enum Init {
    /// `def x = e`, `String x = e`
    Declare(Declared, Expr),
    Assign(Assignment),
}
