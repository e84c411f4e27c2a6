//! The arguments as a step uses them.

ghost use Rattle.std.specs.Prelude.{◌≡◌, ◌<◌, ◌^◌, All, IfOk, IfSome, None, Some, [], length, map, unwrap_or, codes, is_some, true};
ghost use Rattle.cell_heap.specs.Soundness.{ValueBelow};
ghost use Rattle.model_run.specs.Labels.{kept_label};
ghost use Rattle.model_run.specs.State.{World};
ghost use Rattle.model_run.specs.Steps.{further_tries, named_result, override_of, override_text, overrides_in, overrides_of, text_or_empty, tries_given};
ghost use Rattle.model_run.specs.StepTable.{AnyText, Flag, are_overrides, flag_of, given, is_flag, is_override, is_override_name, is_positive, is_true, main_name, missing, parameters, result_of, sort_of, text_given, written_or};
ghost use Rattle.model_run.specs.declared.step.Step.TheVariants.{CatchError, Input, Node, Retry, Sh, WithEnv};
ghost use Rattle.std.specs.List.{list_all};
ghost use Rattle.model_run.specs.LabelTokens.{is_blank};
ghost use Rattle.model_values.specs.Kinds.{kind};
ghost use Rattle.model_values.specs.TextOf.{text_of};
ghost use Rattle.model_values.specs.Limits.{product_limits};
ghost use Rattle.value_view.specs.Seen.{IsKindIn, seen};
ghost use Rattle.step_arguments.specs.Binding.{AllFit, HasText, seen_with};
ghost use Rattle.step_arguments.specs.Parameters.{needs_main};

use crate::fits::result_of;
use crate::given::{given, main_argument};
use cell_heap::Heap;
use model_run::{BuildResult, Step};
use model_text::{Pair, Pairs, Text};
use model_values::Value;
use std::alloc::{AllocError, Global};
use value_view::{Kind, OpRefusal, kind_of, text_of};

/// Whether this argument of an `sh` is given and true.
pub(crate) fn is_true(heap: &Heap, arguments: &[(Text, Value)], name: &str) -> bool
    requires below { All (λ g. ValueBelow (length heap.now.cells) g.1) arguments.now }
    requires fits { AllFit heap.now.cells Sh arguments.now }
    requires flag { sort_of name.now (parameters Sh) ≡ Some Flag }
    ensures { result ≡ is_true heap.now.cells (given name.now arguments.now) }
{
    match given(arguments, name) {
        Some(value) => flag_of(&kind_of(heap, &value)),
        None => false,
    }
}

/// The truth value that it is.
fn flag_of(kind: &Kind<'_>) -> bool
    requires { is_flag (seen kind.now) ≡ true }
    ensures { result ≡ flag_of (seen kind.now) }
{
    match kind {
        Kind::Flag(flag) => *flag,
        _ => unreachable!(),
    }
}

/// The text of the argument of this name, where it is given.
pub(crate) fn text_given(
    alloc: Global,
    heap: &Heap,
    arguments: &[(Text, Value)],
    name: &str,
) -> Result<Option<Text>, AllocError>
    requires below { All (λ g. ValueBelow (length heap.now.cells) g.1) arguments.now }
    requires text { IfSome (given name.now arguments.now) (HasText heap.now.cells) }
    ensures { (w : World) → IfOk result (λ text. text ≡ text_given (seen_with heap.now.cells w) name.now arguments.now) }
{
    match given(arguments, name) {
        Some(value) => Ok(Some(written(alloc, heap, &value)?)),
        None => Ok(None),
    }
}

/// The text of a value, which meets no limit.
fn written(alloc: Global, heap: &Heap, value: &Value) -> Result<Text, AllocError>
    requires below { ValueBelow (length heap.now.cells) value.now }
    requires text { HasText heap.now.cells value.now }
    ensures { IfOk result (λ text. text ≡ written_or [] (text_of product_limits heap.now.cells value.now)) }
{
    match text_of(alloc, heap, value) {
        Ok(text) => Ok(text),
        Err(OpRefusal::Memory) => Err(AllocError),
        Err(OpRefusal::Limit(_)) => unreachable!(),
        Err(OpRefusal::Thrown(_)) => unreachable!(),
    }
}

/// The text of the main argument of a step in which it has to be given and may be any value.
pub(crate) fn main_text(
    alloc: Global,
    heap: &Heap,
    step: Step,
    arguments: &[(Text, Value)],
) -> Result<Text, AllocError>
    requires below { All (λ g. ValueBelow (length heap.now.cells) g.1) arguments.now }
    requires fits { AllFit heap.now.cells step arguments.now }
    requires needed { missing arguments.now (parameters step) ≡ None }
    requires needs { needs_main step ≡ true }
    requires text { sort_of (main_name (parameters step)) (parameters step) ≡ Some AnyText }
    ensures { (w : World) → IfOk result (λ text. text ≡ text_or_empty (seen_with heap.now.cells w) (main_name (parameters step)) arguments.now) }
{
    written(alloc, heap, &main_argument(step, arguments))
}

/// The word for going on of `input`.
pub(crate) fn ok_word(
    alloc: Global,
    heap: &Heap,
    arguments: &[(Text, Value)],
) -> Result<Text, AllocError>
    requires below { All (λ g. ValueBelow (length heap.now.cells) g.1) arguments.now }
    requires fits { AllFit heap.now.cells Input arguments.now }
    ensures { (w : World) → IfOk result (λ text. text ≡ unwrap_or (text_given (seen_with heap.now.cells w) (codes "ok") arguments.now) (codes "Proceed")) }
{
    match text_given(alloc, heap, arguments, "ok")? {
        Some(text) => Ok(text),
        None => Text::from_str(alloc, "Proceed"),
    }
}

/// The label that a `node` keeps: none where it is blank.
pub(crate) fn label(
    alloc: Global,
    heap: &Heap,
    arguments: &[(Text, Value)],
) -> Result<Option<Text>, AllocError>
    requires below { All (λ g. ValueBelow (length heap.now.cells) g.1) arguments.now }
    requires fits { AllFit heap.now.cells Node arguments.now }
    ensures { (w : World) → IfOk result (λ label. label ≡ kept_label (text_given (seen_with heap.now.cells w) (codes "label") arguments.now)) }
{
    match text_given(alloc, heap, arguments, "label")? {
        Some(text) if !is_blank(text.as_slice()) => Ok(Some(text)),
        _ => Ok(None),
    }
}

/// Whether a text has blanks alone.
fn is_blank(text: &[u8]) -> bool
    ensures { result ≡ list_all is_blank text.now }
{
    text.iter().all(|byte| *byte == b' ' || *byte == b'\t')
}

/// The result that `catchError` makes of a failure.
pub(crate) fn result_given(heap: &Heap, arguments: &[(Text, Value)]) -> BuildResult
    requires below { All (λ g. ValueBelow (length heap.now.cells) g.1) arguments.now }
    requires fits { AllFit heap.now.cells CatchError arguments.now }
    ensures { result ≡ named_result heap.now.cells (given (codes "buildResult") arguments.now) }
{
    match given(arguments, "buildResult") {
        Some(value) => result_in(&kind_of(heap, &value)),
        None => BuildResult::Failure,
    }
}

/// The result whose name it has to be.
fn result_in(kind: &Kind<'_>) -> BuildResult
    requires { is_some (result_of (seen kind.now)) ≡ true }
    ensures { result_of (seen kind.now) ≡ Some result }
{
    let Some(result) = result_of(kind) else {
        unreachable!()
    };
    result
}

/// How many times more `retry` begins its body.
pub(crate) fn tries_given(heap: &Heap, arguments: &[(Text, Value)]) -> u32
    requires below { All (λ g. ValueBelow (length heap.now.cells) g.1) arguments.now }
    requires fits { AllFit heap.now.cells Retry arguments.now }
    requires needed { missing arguments.now (parameters Retry) ≡ None }
    ensures tries { result ≡ tries_given heap.now.cells (given (codes "count") arguments.now) }
    ensures small { result < 2 ^ 31 }
{
    let count = main_argument(Step::Retry, arguments);
    further_tries(&kind_of(heap, &count))
}

/// One less than the number that it is.
fn further_tries(kind: &Kind<'_>) -> u32
    requires { is_positive (seen kind.now) ≡ true }
    ensures tries { result ≡ further_tries (seen kind.now) }
    ensures small { result < 2 ^ 31 }
{
    match kind {
        Kind::Number(number) => (*number - 1) as u32,
        _ => unreachable!(),
    }
}

/// What `withEnv` adds.
pub(crate) fn overrides_given(
    alloc: Global,
    heap: &Heap,
    arguments: &[(Text, Value)],
) -> Result<Pairs, AllocError>
    requires below { All (λ g. ValueBelow (length heap.now.cells) g.1) arguments.now }
    requires fits { AllFit heap.now.cells WithEnv arguments.now }
    requires needed { missing arguments.now (parameters WithEnv) ≡ None }
    ensures pairs { IfOk result (λ pairs. pairs ≡ overrides_of heap.now.cells (given (codes "overrides") arguments.now)) }
    ensures few { IfOk result (λ pairs. length pairs < 2 ^ 31) }
{
    let overrides = main_argument(Step::WithEnv, arguments);
    overrides_in(alloc, heap, &kind_of(heap, &overrides))
}

/// What the texts of a list add.
fn overrides_in(alloc: Global, heap: &Heap, kind: &Kind<'_>) -> Result<Pairs, AllocError>
    requires below { IsKindIn (length heap.now.cells) kind.now }
    requires fits { are_overrides heap.now.cells (seen kind.now) ≡ true }
    ensures pairs { IfOk result (λ pairs. pairs ≡ overrides_in heap.now.cells (seen kind.now)) }
    ensures few { IfOk result (λ pairs. length pairs < 2 ^ 31) }
{
    match kind {
        Kind::List(_, values) => override_texts(alloc, heap, values.as_slice()),
        _ => unreachable!(),
    }
}

/// What each of these texts adds.
fn override_texts(alloc: Global, heap: &Heap, values: &[Value]) -> Result<Pairs, AllocError>
    requires below { All (ValueBelow (length heap.now.cells)) values.now }
    requires fits { list_all (λ v. is_override (kind heap.now.cells v)) values.now ≡ true }
    ensures pairs { IfOk result (λ pairs. pairs ≡ map (λ v. override_text (kind heap.now.cells v)) values.now) }
    ensures few { IfOk result (λ pairs. length pairs ≡ length values.now) }
{
    let mut pairs = Pairs::new(alloc);
    for value in values {
        pairs.push(override_text(alloc, &kind_of(heap, value))?)?;
    }
    Ok(pairs)
}

/// The name and the value of a text `A=b`.
fn override_text(alloc: Global, kind: &Kind<'_>) -> Result<Pair, AllocError>
    requires { is_override (seen kind.now) ≡ true }
    ensures { IfOk result (λ pair. pair ≡ override_text (seen kind.now)) }
{
    match kind {
        Kind::Text(text) => override_of(alloc, text.as_slice()),
        _ => unreachable!(),
    }
}

/// What stands before the first `=` of a text `A=b`, and what behind it.
fn override_of(alloc: Global, text: &[u8]) -> Result<Pair, AllocError>
    requires { is_override_name [] text.now ≡ true }
    ensures { IfOk result (λ pair. pair ≡ override_of [] text.now) }
{
    for at in 0..text.len() {
        if text[at] == b'=' {
            return Ok(Pair {
                name: Text::from_slice(alloc, &text[..at])?,
                value: Text::from_slice(alloc, &text[at + 1..])?,
            });
        }
    }
    unreachable!()
}
