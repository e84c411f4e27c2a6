use model_text::Text;

/// A place in a script: its line, counted from 1 by LF, and its column, counted from 1 in characters.
///
/// Both stand still at 4294967295.
#[derive(Clone, Copy, PartialEq, Eq, Debug)]
pub struct Place {
    pub line: u32,
    pub column: u32,
}

/// A name where it is declared.
#[derive(Clone, PartialEq, Eq, Debug, Drop)]
pub struct Declared {
    pub name: Text,
    pub place: Place,
}
