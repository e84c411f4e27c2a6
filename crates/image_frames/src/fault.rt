/// What is wrong with a frame. The first of this list is told.
#[derive(Clone, Copy, Debug, PartialEq, Eq)]
pub enum FrameFault {
    /// Its kind is none, or what stands directly inside it does not fit.
    Kind,
    /// Its kind does not stand at its node, or there is no such node.
    Node,
    /// Its node has no such part, or its kind does not stand there.
    Place,
    /// A value is of another sort, or there are too many or too few.
    Values,
    /// A name is that of no variable.
    Cell,
    /// The names are not those which the place sees.
    Name,
}
