//! The faults of a call, in their order.

ghost use Rattle.std.specs.Prelude.{◌≡◌, ◌++◌, Option, All, Some, None, IfOk, IfErr, OnOk, codes, length, is_some, true};
ghost use Rattle.cell_heap.specs.Soundness.{ValueBelow};
ghost use Rattle.model_values.specs.declared.value.Value.{Value as AValue};
ghost use Rattle.model_run.specs.Around.{cells};
ghost use Rattle.model_run.specs.State.{World};
ghost use Rattle.model_run.specs.StepTable.{Binds, Fit, Fits, Given, and_fits, fit, fit_given, sort_of, all_fit, bind_body, bind_fit, bind_given, bind_label, bind_missing, bind_returned, both_returned, has_body, label_of, missing, parameters, step_name, unknown};
ghost use Rattle.step_arguments.specs.Binding.{AllFit, Checks, Tells, seen_with};
ghost use Rattle.step_arguments.specs.Parameters.{sort_seen};

use crate::fits::{Misfit, check_fit};
use crate::given::given;
use crate::parameters::{Sort, has_body, main_name, needs_main, sort_of};
use crate::refusal::BindRefusal;
use crate::uses::{is_true, text_given};
use cell_heap::Heap;
use itoa::Buffer;
use label_expr::{LabelRefusal, read_label};
use model_run::Step;
use model_text::Text;
use model_values::Value;
use std::alloc::{AllocError, Global};

/// Checks a call's arguments and its body: the first fault is refused.
pub(crate) fn check(
    alloc: Global,
    heap: &Heap,
    step: Step,
    arguments: &[(Text, Value)],
    body: Option<Value>,
) -> Result<(), BindRefusal>
    requires { All (λ g. ValueBelow (length heap.now.cells) g.1) arguments.now }
    ensures checked { (w : World) → Checks (bind_given (seen_with heap.now.cells w) step arguments.now body) (Binds arguments.now body) result }
    ensures fits { OnOk result (AllFit heap.now.cells step arguments.now) }
    ensures needed { OnOk result (missing arguments.now (parameters step) ≡ None) }
    ensures body { OnOk result (is_some body ≡ has_body step) }
{
    check_names(alloc, step, arguments)?;
    check_values(alloc, heap, step, arguments)?;
    check_returned(alloc, heap, step, arguments)?;
    check_main(alloc, step, arguments)?;
    check_body(alloc, step, body)?;
    check_label(alloc, heap, step, arguments)
}

/// The step has a parameter of each name.
fn check_names(alloc: Global, step: Step, arguments: &[(Text, Value)]) -> Result<(), BindRefusal>
    ensures known { OnOk result (unknown (parameters step) arguments.now ≡ None) }
    ensures checked { (w : World) (body : Option AValue) → Checks (bind_given w step arguments.now body) (bind_fit w step arguments.now body (all_fit w (parameters step) arguments.now)) result }
{
    for (name, _) in arguments {
        match sort_of(step, name.as_slice()) {
            Some(_) => {}
            None => {
                let text = fault(alloc, step, "unknown ", name.as_slice())?;
                return Err(BindRefusal::Fault(text));
            }
        }
    }
    Ok(())
}

/// Each argument is one that its parameter takes.
fn check_values(
    alloc: Global,
    heap: &Heap,
    step: Step,
    arguments: &[(Text, Value)],
) -> Result<(), BindRefusal>
    requires below { All (λ g. ValueBelow (length heap.now.cells) g.1) arguments.now }
    requires known { unknown (parameters step) arguments.now ≡ None }
    ensures fits { OnOk result (AllFit heap.now.cells step arguments.now) }
    ensures checked { (w : World) (body : Option AValue) → Checks (bind_fit (seen_with heap.now.cells w) step arguments.now body (all_fit (seen_with heap.now.cells w) (parameters step) arguments.now)) (bind_returned (seen_with heap.now.cells w) step arguments.now body (both_returned heap.now.cells step arguments.now)) result }
{
    for (name, value) in arguments {
        check_argument(alloc, heap, step, name.as_slice(), value)?;
    }
    Ok(())
}

/// An argument is one that the parameter of its name takes.
fn check_argument(
    alloc: Global,
    heap: &Heap,
    step: Step,
    name: &[u8],
    value: &Value,
) -> Result<(), BindRefusal>
    requires below { ValueBelow (length heap.now.cells) value.now }
    requires known { is_some (sort_of name.now (parameters step)) ≡ true }
    ensures fits { (w : World) → OnOk result (fit_given (seen_with heap.now.cells w) (sort_of name.now (parameters step)) value.now ≡ Fits) }
    ensures refused { (w : World) (args : Given) (body : Option AValue) (rest : Fit) → IfErr result (Tells (bind_fit (seen_with heap.now.cells w) step args body (and_fits name.now (fit_given (seen_with heap.now.cells w) (sort_of name.now (parameters step)) value.now) rest))) }
{
    let Some(sort) = sort_of(step, name) else {
        unreachable!()
    };
    check_value(alloc, heap, step, sort, name, value)
}

/// A value is one that the parameter of this name takes.
fn check_value(
    alloc: Global,
    heap: &Heap,
    step: Step,
    sort: Sort,
    name: &[u8],
    value: &Value,
) -> Result<(), BindRefusal>
    requires { ValueBelow (length heap.now.cells) value.now }
    ensures fits { (w : World) → OnOk result (fit (seen_with heap.now.cells w) (sort_seen sort) value.now ≡ Fits) }
    ensures refused { (w : World) (args : Given) (body : Option AValue) (rest : Fit) → IfErr result (Tells (bind_fit (seen_with heap.now.cells w) step args body (and_fits name.now (fit (seen_with heap.now.cells w) (sort_seen sort) value.now) rest))) }
{
    match check_fit(alloc, heap, sort, value) {
        Ok(()) => Ok(()),
        Err(Misfit::Bad(None)) => {
            let text = fault(alloc, step, "bad ", name)?;
            Err(BindRefusal::Fault(text))
        }
        Err(Misfit::Bad(Some(part))) => {
            let text = fault(alloc, step, "bad ", part.as_slice())?;
            Err(BindRefusal::Fault(text))
        }
        Err(Misfit::Limit(limit)) => Err(BindRefusal::Limit(limit)),
        Err(Misfit::Memory) => Err(BindRefusal::Memory),
    }
}

/// An `sh` gives its code or its output, not both.
fn check_returned(
    alloc: Global,
    heap: &Heap,
    step: Step,
    arguments: &[(Text, Value)],
) -> Result<(), BindRefusal>
    requires below { All (λ g. ValueBelow (length heap.now.cells) g.1) arguments.now }
    requires fits { AllFit heap.now.cells step arguments.now }
    ensures { (w : World) (body : Option AValue) → Checks (bind_returned w step arguments.now body (both_returned heap.now.cells step arguments.now)) (bind_missing w step arguments.now body (missing arguments.now (parameters step))) result }
{
    if step != Step::Sh {
        return Ok(());
    }
    if is_true(heap, arguments, "returnStatus") && is_true(heap, arguments, "returnStdout") {
        return Err(BindRefusal::Fault(fault(alloc, step, "bad ", b"returnStdout")?));
    }
    Ok(())
}

/// The main parameter is given where it has to be.
fn check_main(alloc: Global, step: Step, arguments: &[(Text, Value)]) -> Result<(), BindRefusal>
    ensures needed { OnOk result (missing arguments.now (parameters step) ≡ None) }
    ensures checked { (w : World) (body : Option AValue) → Checks (bind_missing w step arguments.now body (missing arguments.now (parameters step))) (bind_body w step arguments.now body (has_body step)) result }
{
    let main = main_name(step);
    if needs_main(step) && given(arguments, main).is_none() {
        return Err(BindRefusal::Fault(fault(alloc, step, "missing ", main.as_bytes())?));
    }
    Ok(())
}

/// There is a body where the step has one, and else none.
fn check_body(alloc: Global, step: Step, body: Option<Value>) -> Result<(), BindRefusal>
    ensures checked { (w : World) (args : Given) → Checks (bind_body w step args body (has_body step)) (bind_label args body (label_of w step args)) result }
    ensures body { OnOk result (is_some body ≡ has_body step) }
{
    match (body, has_body(step)) {
        (None, true) => Err(BindRefusal::Fault(fault(alloc, step, "needs a body", b"")?)),
        (Some(_), false) => Err(BindRefusal::Fault(fault(alloc, step, "takes no body", b"")?)),
        _ => Ok(()),
    }
}

/// The label of a `node` has no fault.
fn check_label(
    alloc: Global,
    heap: &Heap,
    step: Step,
    arguments: &[(Text, Value)],
) -> Result<(), BindRefusal>
    requires below { All (λ g. ValueBelow (length heap.now.cells) g.1) arguments.now }
    requires fits { AllFit heap.now.cells step arguments.now }
    ensures { (w : World) (body : Option AValue) → Checks (bind_label arguments.now body (label_of (seen_with heap.now.cells w) step arguments.now)) (Binds arguments.now body) result }
{
    if step != Step::Node {
        return Ok(());
    }
    let label = text_given(alloc, heap, arguments, "label")?;
    match read_label(alloc, label.as_ref()) {
        Ok(_) => Ok(()),
        Err(LabelRefusal::Memory) => Err(BindRefusal::Memory),
        Err(LabelRefusal::Fault { at }) => {
            let mut buffer = Buffer::new();
            let at = buffer.format(at);
            Err(BindRefusal::Fault(fault(alloc, step, "label has a fault at ", at.as_bytes())?))
        }
    }
}

/// The message of a fault of a call of this step.
pub(crate) fn fault(alloc: Global, step: Step, what: &str, name: &[u8]) -> Result<Text, AllocError>
    ensures { IfOk result (λ text. text ≡ step_name step ++ codes ": " ++ (what.now ++ name.now)) }
{
    let mut text = Text::from_str(alloc, step.name())?;
    text.append(b": ")?;
    text.append(what.as_bytes())?;
    text.append(name)?;
    Ok(text)
}
