//! The arguments of a call, bound to the parameters of its step.

ghost use Rattle.std.specs.Prelude.{◌≡◌, All, IfSome, Some, None, true, false, IfOk, length};
ghost use Rattle.cell_heap.specs.Soundness.{ValueBelow};
ghost use Rattle.model_values.specs.Fitting.{HasClosure, IsIn};
ghost use Rattle.model_run.specs.State.{World};
ghost use Rattle.model_run.specs.StepTable.{bind_step, bind_given, has_body, missing, parameters};
ghost use Rattle.step_arguments.specs.Binding.{AllFit, BindsTo, IsBound, IsUsable, seen_with};

use crate::bound::Bound;
use crate::checks::{check, fault};
use crate::given::{Given, given, main_argument, named_or_main, split_last};
use crate::refusal::BindRefusal;
use crate::uses::{
    is_true, label, main_text, ok_word, overrides_given, result_given, text_given, tries_given,
};
use cell_heap::Heap;
use model_run::Step;
use model_text::Text;
use model_values::Value;
use std::alloc::{AllocError, Global};

/// Binds the arguments of a call of this step, which all are there.
///
/// # Errors
///
/// `Fault` with the message of the first fault of the call; `Limit` where the text of an argument meets a limit before
/// any fault; `Memory` where the memory was refused.
pub fn bind(
    alloc: Global,
    heap: &Heap,
    step: Step,
    arguments: &[Value],
) -> Result<Bound, BindRefusal>
    requires { All (ValueBelow (length heap.now.cells)) arguments.now }
    ensures bound { (w : World) → BindsTo (seen_with heap.now.cells w) step (bind_step (seen_with heap.now.cells w) step arguments.now) result }
    ensures usable { IfOk result (IsUsable heap.now.cells) }
{
    let (plain, body) = split_last(heap, arguments);
    match plain {
        [] => bind_given(alloc, heap, step, Vec::new(alloc), body),
        [value] => {
            let given = named_or_main(alloc, heap, step, value)?;
            bind_given(alloc, heap, step, given, body)
        }
        _ => Err(BindRefusal::Fault(fault(alloc, step, "too many arguments", b"")?)),
    }
}

/// Binds arguments with names.
fn bind_given(
    alloc: Global,
    heap: &Heap,
    step: Step,
    given: Given,
    body: Option<Value>,
) -> Result<Bound, BindRefusal>
    requires below { All (λ g. ValueBelow (length heap.now.cells) g.1) given.items }
    requires closure { IfSome body (IsIn HasClosure heap.now.cells) }
    ensures bound { (w : World) → BindsTo (seen_with heap.now.cells w) step (bind_given (seen_with heap.now.cells w) step given.items body) result }
    ensures usable { IfOk result (IsUsable heap.now.cells) }
{
    check(alloc, heap, step, &given, body)?;
    match body {
        Some(body) => Ok(with_body(alloc, heap, step, &given, body)?),
        None => Ok(without_body(alloc, heap, step, &given)?),
    }
}

/// A step without a body, with its arguments.
fn without_body(
    alloc: Global,
    heap: &Heap,
    step: Step,
    arguments: &[(Text, Value)],
) -> Result<Bound, AllocError>
    requires below { All (λ g. ValueBelow (length heap.now.cells) g.1) arguments.now }
    requires none { has_body step ≡ false }
    requires fits { AllFit heap.now.cells step arguments.now }
    requires needed { missing arguments.now (parameters step) ≡ None }
    ensures bound { (w : World) → IfOk result (IsBound (seen_with heap.now.cells w) step arguments.now None) }
    ensures usable { IfOk result (IsUsable heap.now.cells) }
{
    match step {
        Step::Println => Ok(Bound::Println {
            value: main_text(alloc, heap, step, arguments)?,
        }),
        Step::Echo => Ok(Bound::Echo {
            message: main_text(alloc, heap, step, arguments)?,
        }),
        Step::Error => Ok(Bound::Error {
            message: main_text(alloc, heap, step, arguments)?,
        }),
        Step::MakeUnstable => Ok(Bound::MakeUnstable {
            message: main_text(alloc, heap, step, arguments)?,
        }),
        Step::Sh => Ok(Bound::Sh {
            script: main_text(alloc, heap, step, arguments)?,
            status: is_true(heap, arguments, "returnStatus"),
            keep_out: is_true(heap, arguments, "returnStdout"),
        }),
        Step::Input => Ok(Bound::Input {
            message: main_text(alloc, heap, step, arguments)?,
            ok: ok_word(alloc, heap, arguments)?,
            id: text_given(alloc, heap, arguments, "id")?,
        }),
        Step::Parallel => Ok(Bound::Parallel {
            branches: main_argument(step, arguments),
        }),
        _ => unreachable!(),
    }
}

/// A step with this body, with its arguments.
fn with_body(
    alloc: Global,
    heap: &Heap,
    step: Step,
    arguments: &[(Text, Value)],
    body: Value,
) -> Result<Bound, AllocError>
    requires below { All (λ g. ValueBelow (length heap.now.cells) g.1) arguments.now }
    requires some { has_body step ≡ true }
    requires fits { AllFit heap.now.cells step arguments.now }
    requires needed { missing arguments.now (parameters step) ≡ None }
    requires closure { IsIn HasClosure heap.now.cells body }
    ensures bound { (w : World) → IfOk result (IsBound (seen_with heap.now.cells w) step arguments.now (Some body)) }
    ensures usable { IfOk result (IsUsable heap.now.cells) }
{
    match step {
        Step::Stage => Ok(Bound::Stage {
            name: main_text(alloc, heap, step, arguments)?,
            body,
        }),
        Step::CatchError => Ok(Bound::CatchError {
            message: given(arguments, "message"),
            result: result_given(heap, arguments),
            body,
        }),
        Step::Retry => Ok(Bound::Retry {
            more: tries_given(heap, arguments),
            body,
        }),
        Step::Node => Ok(Bound::Node {
            label: label(alloc, heap, arguments)?,
            body,
        }),
        Step::Dir => Ok(Bound::Dir {
            path: main_text(alloc, heap, step, arguments)?,
            body,
        }),
        Step::WithEnv => Ok(Bound::WithEnv {
            overrides: overrides_given(alloc, heap, arguments)?,
            body,
        }),
        _ => unreachable!(),
    }
}
