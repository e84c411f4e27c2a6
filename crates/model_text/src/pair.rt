use crate::Text;

/// A name and its value, such as one variable of an environment.
#[derive(Clone, PartialEq, Eq, Debug, Drop)]
pub struct Pair {
    pub name: Text,
    pub value: Text,
}
