//! Whether a value is one that a parameter takes.

ghost use Rattle.std.specs.Prelude.{◌≡◌, [], ◌∷◌, All, IfOk, length};
ghost use Rattle.std.specs.List.{list_all};
ghost use Rattle.cell_heap.specs.Soundness.{ValueBelow};
ghost use Rattle.model_values.specs.Kinds.{kind};
ghost use Rattle.model_values.specs.Limits.{product_limits};
ghost use Rattle.model_values.specs.TextOf.{Wrote, key_text, text_of};
ghost use Rattle.model_run.specs.State.{World};
ghost use Rattle.model_run.specs.StepTable.{are_branches, are_overrides, branch_fit, fit, fits_if, has_blank, is_closure, is_flag, is_identifier, is_override, is_override_name, is_positive, result_among, result_of, results, writing_fits};
ghost use Rattle.step_arguments.specs.Binding.{FitsAs, seen_with};
ghost use Rattle.step_arguments.specs.Parameters.{sort_seen};
ghost use Rattle.step_arguments.specs.declared.fits.Misfit.TheVariants.{Memory};
ghost use Rattle.value_view.specs.Seen.{IsKindIn, seen};

use crate::parameters::Sort;
use cell_heap::Heap;
use itoa::Buffer;
use model_run::BuildResult;
use model_text::Text;
use model_values::{Entries, Key, LimitKind, Value};
use std::alloc::{AllocError, Global};
use value_view::{Kind, OpRefusal, kind_of, text_of};

/// Why a value is none that a parameter takes.
#[derive(Drop)]
pub(crate) enum Misfit {
    Memory,
    /// It is bad: the name of its bad part, or none where it is the whole.
    Bad(Option<Text>),
    /// Its text meets this limit.
    Limit(LimitKind),
}

impl From<AllocError> for Misfit {
    ghost from_gives = { λ _ misfit. misfit ≡ Memory };

    fn from(_error: AllocError) -> Misfit {
        Misfit::Memory
    }
}

/// Checks that a value is one that a parameter takes.
pub(crate) fn check_fit(alloc: Global, heap: &Heap, sort: Sort, value: &Value) -> Result<(), Misfit>
    requires { ValueBelow (length heap.now.cells) value.now }
    ensures { (w : World) → FitsAs (fit (seen_with heap.now.cells w) (sort_seen sort) value.now) result }
{
    let kind = kind_of(heap, value);
    match sort {
        Sort::AnyText => check_text(alloc, heap, value),
        Sort::Identifier => check_identifier(alloc, heap, value),
        Sort::Positive => fits_if(is_positive(&kind)),
        Sort::Flag => fits_if(is_flag(&kind)),
        Sort::ResultName => fits_if(result_of(&kind).is_some()),
        Sort::Overrides => fits_if(are_overrides(heap, &kind)),
        Sort::Closures => check_branches(alloc, heap, &kind),
    }
}

/// A value fits, or is bad as a whole.
fn fits_if(fits: bool) -> Result<(), Misfit>
    ensures { FitsAs (fits_if fits) result }
{
    if fits { Ok(()) } else { Err(Misfit::Bad(None)) }
}

/// The text of a value is within its limits.
fn check_text(alloc: Global, heap: &Heap, value: &Value) -> Result<(), Misfit>
    requires { ValueBelow (length heap.now.cells) value.now }
    ensures { FitsAs (writing_fits (text_of product_limits heap.now.cells value.now)) result }
{
    match text_of(alloc, heap, value) {
        Ok(_) => Ok(()),
        Err(OpRefusal::Limit(limit)) => Err(Misfit::Limit(limit)),
        Err(OpRefusal::Memory) => Err(Misfit::Memory),
        Err(OpRefusal::Thrown(_)) => unreachable!(),
    }
}

/// The text of a value is not empty and has no blank.
fn check_identifier(alloc: Global, heap: &Heap, value: &Value) -> Result<(), Misfit>
    requires { ValueBelow (length heap.now.cells) value.now }
    ensures { FitsAs (is_identifier (text_of product_limits heap.now.cells value.now)) result }
{
    match text_of(alloc, heap, value) {
        Ok(text) => fits_if(is_identifier(text.as_slice())),
        Err(OpRefusal::Limit(limit)) => Err(Misfit::Limit(limit)),
        Err(OpRefusal::Memory) => Err(Misfit::Memory),
        Err(OpRefusal::Thrown(_)) => unreachable!(),
    }
}

/// Whether a text is not empty and has no blank.
fn is_identifier(text: &[u8]) -> bool
    ensures { is_identifier (Wrote text.now) ≡ fits_if result }
{
    if text.is_empty() {
        return false;
    }
    !has_blank(text)
}

/// Whether a text has a space or a tab.
fn has_blank(text: &[u8]) -> bool
    ensures { result ≡ has_blank text.now }
{
    text.iter().any(|byte| *byte == b' ' || *byte == b'\t')
}

/// Whether it is a whole number of at least 1.
fn is_positive(kind: &Kind<'_>) -> bool
    ensures { result ≡ is_positive (seen kind.now) }
{
    match kind {
        Kind::Number(number) => *number > 0,
        _ => false,
    }
}

/// Whether it is a truth value.
fn is_flag(kind: &Kind<'_>) -> bool
    ensures { result ≡ is_flag (seen kind.now) }
{
    match kind {
        Kind::Flag(_) => true,
        _ => false,
    }
}

/// Whether it is a closure.
pub(crate) fn is_closure(kind: &Kind<'_>) -> bool
    ensures { result ≡ is_closure (seen kind.now) }
{
    match kind {
        Kind::Closure(_) => true,
        _ => false,
    }
}

/// The result whose name it is.
pub(crate) fn result_of(kind: &Kind<'_>) -> Option<BuildResult>
    ensures { result ≡ result_of (seen kind.now) }
{
    match kind {
        Kind::Text(name) => result_named(name.as_slice()),
        _ => None,
    }
}

/// The result of this name.
fn result_named(name: &[u8]) -> Option<BuildResult>
    ensures { result ≡ result_among name.now results }
{
    if name == BuildResult::Success.name().as_bytes() {
        Some(BuildResult::Success)
    } else if name == BuildResult::Unstable.name().as_bytes() {
        Some(BuildResult::Unstable)
    } else if name == BuildResult::Failure.name().as_bytes() {
        Some(BuildResult::Failure)
    } else if name == BuildResult::NotBuilt.name().as_bytes() {
        Some(BuildResult::NotBuilt)
    } else if name == BuildResult::Aborted.name().as_bytes() {
        Some(BuildResult::Aborted)
    } else {
        None
    }
}

/// Whether it is a list of texts `A=b`.
fn are_overrides(heap: &Heap, kind: &Kind<'_>) -> bool
    requires { IsKindIn (length heap.now.cells) kind.now }
    ensures { result ≡ are_overrides heap.now.cells (seen kind.now) }
{
    match kind {
        Kind::List(_, values) => all_overrides(heap, values.as_slice()),
        _ => false,
    }
}

/// Whether each value is a text `A=b`.
fn all_overrides(heap: &Heap, values: &[Value]) -> bool
    requires { All (ValueBelow (length heap.now.cells)) values.now }
    ensures { result ≡ list_all (λ v. is_override (kind heap.now.cells v)) values.now }
{
    for value in values {
        if !is_override(&kind_of(heap, value)) {
            return false;
        }
    }
    true
}

/// Whether it is a text `A=b`.
fn is_override(kind: &Kind<'_>) -> bool
    ensures { result ≡ is_override (seen kind.now) }
{
    match kind {
        Kind::Text(text) => is_override_text(text.as_slice()),
        _ => false,
    }
}

/// Whether a text is of the form `A=b`: `A` has at least one byte and no `+`.
fn is_override_text(text: &[u8]) -> bool
    ensures { result ≡ is_override_name [] text.now }
{
    for at in 0..text.len() {
        if text[at] == b'=' {
            return at != 0;
        }
        if text[at] == b'+' {
            return false;
        }
    }
    false
}

/// Checks that it is a map from names to closures.
fn check_branches(alloc: Global, heap: &Heap, kind: &Kind<'_>) -> Result<(), Misfit>
    requires { IsKindIn (length heap.now.cells) kind.now }
    ensures { FitsAs (are_branches heap.now.cells (seen kind.now)) result }
{
    match kind {
        Kind::Map(_, entries) => check_entries(alloc, heap, entries),
        _ => Err(Misfit::Bad(None)),
    }
}

/// Checks that each entry is a branch.
fn check_entries(alloc: Global, heap: &Heap, entries: &Entries) -> Result<(), Misfit>
    requires { All (λ entry. ValueBelow (length heap.now.cells) entry.1) entries.now }
    ensures { FitsAs (branch_fit heap.now.cells entries.now) result }
{
    for at in 0..entries.len() {
        let Some((key, value)) = entries.entry_at(at) else {
            unreachable!()
        };
        check_branch(alloc, heap, key, value)?;
    }
    Ok(())
}

/// Checks that an entry is a closure under a name other than `failFast`.
fn check_branch(alloc: Global, heap: &Heap, key: &Key, value: &Value) -> Result<(), Misfit>
    requires { ValueBelow (length heap.now.cells) value.now }
    ensures { FitsAs (branch_fit heap.now.cells ((key.now, value.now) ∷ [])) result }
{
    let name = key_text(alloc, key)?;
    if name.as_slice() == b"failFast".as_slice() || !is_closure(&kind_of(heap, value)) {
        return Err(Misfit::Bad(Some(name)));
    }
    Ok(())
}

/// The text of a key.
pub(crate) fn key_text(alloc: Global, key: &Key) -> Result<Text, AllocError>
    ensures { IfOk result (λ text. text ≡ key_text key.now) }
{
    match key {
        Key::Text(text) => text.clone(),
        Key::Int(number) => Text::from_slice(alloc, Buffer::new().format(*number).as_bytes()),
    }
}
