/// Why no expression was read.
#[derive(Clone, Copy, PartialEq, Eq, Debug)]
pub enum ExprRefusal {
    /// Memory was refused.
    Memory,
    /// No expression goes on with this token, counted from 0; behind the last token it is their number.
    Fault { token: u32 },
}
