//! What a node or a part of it is.

ghost use Rattle.std.specs.Prelude.{◌≡◌};
ghost use Rattle.std.specs.Option.{option_copied};
ghost use Rattle.model_run.specs.Assignments.{operator_in, place_size};
ghost use Rattle.model_run.specs.FrameTable.{gathers, is_arm, is_block, is_callable, is_catch, is_chain, is_choice, is_computed, is_if_true, is_plain, is_target_form, operator_count};
ghost use Rattle.model_run.specs.Gathering.{is_call, is_named};
ghost use Rattle.model_run.specs.Statements.{is_finally};
ghost use Rattle.frame_rows.specs.Rows.{form_or_block};

use model_syntax::{AssignSign, NodeForm};

/// Whether a node is statements in a row.
pub(crate) fn is_block(form: &NodeForm) -> bool
    ensures { result ≡ is_block form.now }
{
    matches!(form, NodeForm::Script | NodeForm::Block)
}

/// Whether a node changes a variable, a property or an entry.
pub(crate) fn is_target(form: &NodeForm) -> bool
    ensures { result ≡ is_target_form form.now }
{
    matches!(
        form,
        NodeForm::Assign(_) | NodeForm::Increment | NodeForm::Decrement
    )
}

/// Whether a node gathers several values.
pub(crate) fn gathers(form: &NodeForm) -> bool
    ensures { result ≡ gathers form.now }
{
    matches!(
        form,
        NodeForm::Call(_)
            | NodeForm::Method(_, _)
            | NodeForm::List
            | NodeForm::Map
            | NodeForm::GString
            | NodeForm::New(_)
    )
}

/// Whether a node is `&&` or `||`.
pub(crate) fn is_chain(form: &NodeForm) -> bool
    ensures { result ≡ is_chain form.now }
{
    matches!(form, NodeForm::And | NodeForm::Or)
}

/// Whether a node has a body that is called.
pub(crate) fn is_callable(form: &NodeForm) -> bool
    ensures { result ≡ is_callable form.now }
{
    matches!(form, NodeForm::Closure(_) | NodeForm::Function(_, _))
}

/// Whether a node is a call, of a name or of a method.
pub(crate) fn is_call(form: &NodeForm) -> bool
    ensures { result ≡ is_call form.now }
{
    matches!(form, NodeForm::Call(_) | NodeForm::Method(_, _))
}

/// Whether a part is an arm of `if`.
pub(crate) fn is_arm(form: Option<&NodeForm>) -> bool
    ensures { result ≡ is_arm (form_or_block (option_copied form.entry)) }
{
    matches!(form, Some(NodeForm::Arm))
}

/// Whether a part is a `catch`.
pub(crate) fn is_catch(form: Option<&NodeForm>) -> bool
    ensures { result ≡ is_catch (form_or_block (option_copied form.entry)) }
{
    matches!(form, Some(NodeForm::Catch(_, _)))
}

/// Whether a part is a `finally`.
pub(crate) fn is_finally(form: Option<&NodeForm>) -> bool
    ensures { result ≡ is_finally (form_or_block (option_copied form.entry)) }
{
    matches!(form, Some(NodeForm::Finally))
}

/// Whether a part is a test before `?` or `?:`.
pub(crate) fn is_choice(form: Option<&NodeForm>) -> bool
    ensures { result ≡ is_choice (form_or_block (option_copied form.entry)) }
{
    matches!(form, Some(NodeForm::IfTrue | NodeForm::IfSet))
}

/// Whether a part is a test before `?`.
pub(crate) fn is_if_true(form: Option<&NodeForm>) -> bool
    ensures { result ≡ is_if_true (form_or_block (option_copied form.entry)) }
{
    matches!(form, Some(NodeForm::IfTrue))
}

/// Whether a part is an entry whose key is computed.
pub(crate) fn is_computed(form: Option<&NodeForm>) -> bool
    ensures { result ≡ is_computed (form_or_block (option_copied form.entry)) }
{
    matches!(form, Some(NodeForm::ComputedEntry))
}

/// Whether a part is the plain text between the expressions of a text.
pub(crate) fn is_plain(form: Option<&NodeForm>) -> bool
    ensures { result ≡ is_plain (form_or_block (option_copied form.entry)) }
{
    matches!(form, Some(NodeForm::PlainPart(_)))
}

/// Whether a part is an argument with a name.
pub(crate) fn is_named(form: Option<&NodeForm>) -> bool
    ensures { result ≡ is_named (form_or_block (option_copied form.entry)) }
{
    matches!(form, Some(NodeForm::NamedEntry(_)))
}

/// How many values a target needs.
pub(crate) fn place_size(form: Option<&NodeForm>) -> usize
    ensures { result ≡ place_size (form_or_block (option_copied form.entry)) }
{
    match form {
        Some(NodeForm::ToName(_)) => 0,
        Some(NodeForm::ToProperty(_)) => 1,
        _ => 2,
    }
}

/// 1 for an assignment that reads its target too, else 0.
pub(crate) fn operator_count(form: &NodeForm) -> usize
    ensures { result ≡ operator_count (operator_in form.now) }
{
    match form {
        NodeForm::Assign(
            AssignSign::AddTo
            | AssignSign::SubtractFrom
            | AssignSign::MultiplyBy
            | AssignSign::ReduceBy,
        ) => 1,
        _ => 0,
    }
}
