use model_syntax::NodeForm;
use model_text::Ids;

/// A node of the table: what it is, and the numbers of its parts.
#[derive(Drop)]
pub struct Row {
    /// The rule or operator, with its name, text or number.
    pub form: NodeForm,
    /// The numbers of the parts, in the order of the script.
    pub parts: Ids,
}
