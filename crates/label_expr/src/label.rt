//! The label of a `node` step.
ghost use Rattle.std.specs.Prelude.{◌≡◌, Some, None, IfOk, IfErr};
ghost use Rattle.std.specs.List.{list_all};
ghost use Rattle.std.specs.Option.{option_copied};
ghost use Rattle.model_run.specs.LabelTokens.{is_blank};
ghost use Rattle.model_run.specs.Labels.{label_fault};
ghost use Rattle.label_expr.specs.Conditions.{IsLabel};
ghost use Rattle.label_expr.specs.Readings.{IsFault};

use crate::condition::LabelExpr;
use crate::parser::parse;
use crate::refusal::LabelRefusal;
use model_text::Text;
use std::alloc::Global;

/// Which executors the label of a `node` step takes: any where there is no label, or one of spaces and tabs alone.
///
/// # Errors
///
/// `Fault` comes exactly where the label has a fault, with its place. `Memory` comes only where the memory was refused.
pub fn read_label(alloc: Global, label: Option<&Text>) -> Result<LabelExpr, LabelRefusal>
    ensures fits { IfOk result (λ expr. IsLabel (option_copied label.entry) expr) }
    ensures faultless { IfOk result (λ _. label_fault (option_copied label.entry) ≡ None) }
    ensures refused { IfErr result (λ refusal. IsFault (label_fault (option_copied label.entry)) refusal) }
{
    match label {
        Some(text) => read_text(alloc, text.as_slice()),
        None => Ok(LabelExpr::Any),
    }
}

/// Which executors a label that is there takes.
fn read_text(alloc: Global, text: &[u8]) -> Result<LabelExpr, LabelRefusal>
    ensures fits { IfOk result (λ expr. IsLabel (Some text.now) expr) }
    ensures faultless { IfOk result (λ _. label_fault (Some text.now) ≡ None) }
    ensures refused { IfErr result (λ refusal. IsFault (label_fault (Some text.now)) refusal) }
{
    if is_blank(text) {
        return Ok(LabelExpr::Any);
    }
    parse(alloc, text)
}

/// Whether a label has only spaces and tabs.
fn is_blank(label: &[u8]) -> bool
    ensures { result ≡ list_all is_blank label.now }
{
    label.iter().all(|byte| *byte == b' ' || *byte == b'\t')
}
