use model_text::Sequence;

/// A value of a script. What a text, a list, a map, a closure or a throwable is stands in the cell with this number.
#[derive(Clone, Copy, Debug, PartialEq, Eq)]
pub enum Value {
    Null,
    Bool(bool),
    Int(i32),
    Cell(u32),
}

/// Values in order, such as the entries of a list or the arguments of a call.
pub type Values = Sequence<Value>;

/// How a body, a call or a branch ended: with a value, or with the throwable in this cell.
#[derive(Clone, Copy, Debug, PartialEq, Eq)]
pub enum Outcome {
    Value(Value),
    Thrown(u32),
}
