/// The operators that give a value of their own. `Negative` and `Positive` have one operand; their second is null.
#[derive(Clone, Copy, Debug, PartialEq, Eq)]
pub enum Op {
    Plus,
    Minus,
    Times,
    Mod,
    Less,
    LessEqual,
    Greater,
    GreaterEqual,
    Range,
    GetAt,
    Negative,
    Positive,
}
