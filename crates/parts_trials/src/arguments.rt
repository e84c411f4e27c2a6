use cell_heap::Heap;
use model_run::Step;
use model_values::Value;
use std::alloc::Global;
use step_arguments::{BindRefusal, Bound, bind};

/// What a call with this number as its argument binds.
fn bound(alloc: Global, step: Step, number: i32) -> Result<Bound, BindRefusal> {
    let heap = Heap::new(alloc);
    bind(alloc, &heap, step, &[Value::Int(number)])
}

/// Whether a call has the fault with this message.
fn has_fault(bound: &Result<Bound, BindRefusal>, message: &[u8]) -> bool {
    match bound {
        Err(BindRefusal::Fault(text)) => text.as_slice() == message,
        _ => false,
    }
}

#[test]
fn an_echo_gets_the_text_of_its_argument(rt: HostRuntime) {
    let echo = bound(rt.alloc(), Step::Echo, 7);
    assert!(rt;
        matches!(&echo, Ok(Bound::Echo { message }) if message.as_slice() == b"7".as_slice())
    );
}

#[test]
fn a_fault_is_told_by_the_step_and_the_parameter(rt: HostRuntime) {
    let faults = [
        (Step::Retry, 0, b"retry: bad count".as_slice()),
        (Step::Stage, 1, b"stage: needs a body".as_slice()),
        (Step::Parallel, 1, b"parallel: bad branches".as_slice()),
    ];
    for (step, number, message) in faults {
        assert!(rt; has_fault(&bound(rt.alloc(), step, number), message));
    }
}
