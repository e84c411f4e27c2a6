//! Events of `field_form` as an independent writer spells them (`data/events.py`), and where the form of a value breaks
//! first.

use field_form::{
    ByExecutor, Counted, FormRefusal, read_whole, spellings_are_apart, take_list, write_whole,
};
use model_run::{Event, FlowNode, Held, Join};
use model_values::{Entries, Value};
use std::alloc::Global;
use std::test::Fail;

const EVENTS: [&[u8]; 10] = [
    b"\x00\x00\x00\x00\x07\x6e\x6f\x64\x65\x20\x7b\x7d\x00\x00\x00\x02\x7b\x7d", // Start(node {}, {})
    b"\x01\x00\x00\x00\x01\x00\x00\x00\x00", // Granted(1, 0)
    b"\x02\x00\x00\x00\x02\x00\x00\x00\x00\x00\x00\x00\x00\x00\x00\x00\x00\x02\x68\x69", // Output(2, Log, 0, hi)
    b"\x02\x00\x00\x00\x02\x01\x00\x00\x01\x00\x00\x00\x00\x00\x00\x00\x00\x00", // Output(2, Out, 2^40, no bytes)
    b"\x03\x00\x00\x00\x02\x00\x00\x00\x03", // Exited(2, 3)
    b"\x03\xff\xff\xff\xff\xff\xff\xff\xff", // Exited(4294967295, -1)
    b"\x04\x00\x00\x00\x02\x00", // Lost(2, NotStarted)
    b"\x04\x00\x00\x00\x02\x01", // Lost(2, Gone)
    b"\x05\x00\x00\x00\x01\x01\x00\x00\x00\x03\x61\x6e\x6e", // Decided(1, proceed, ann)
    b"\x05\x00\x00\x00\x01\x00\x00\x00\x00\x03\x61\x6e\x6e", // Decided(1, abort, ann)
];

#[test]
fn events_are_read_and_written_again(rt: HostRuntime) -> Result<(), Fail> {
    for bytes in EVENTS {
        let event = read_whole::<Event>(rt.alloc(), bytes)
            .ok()
            .ok_or("an event")?;
        let again = write_whole(rt.alloc(), &event).ok().ok_or("memory")?;
        assert_eq!(rt; again.as_slice(), bytes);
    }
    spellings_are_apart::<Event>();
    Ok(())
}

#[test]
fn an_exit_is_its_task_and_its_code(rt: HostRuntime) -> Result<(), Fail> {
    let exited = Event::Exited { task: 2, code: 3 };
    let bytes = write_whole(rt.alloc(), &exited).ok().ok_or("memory")?;
    assert_eq!(rt;
        bytes.as_slice(),
        b"\x03\x00\x00\x00\x02\x00\x00\x00\x03".as_slice()
    );
    Ok(())
}

fn fault<T>(read: &Result<T, FormRefusal>) -> Option<u64> {
    match read {
        Err(FormRefusal::Fault { at }) => Some(*at),
        _ => None,
    }
}

#[test]
fn a_form_breaks_at_its_first_place(rt: HostRuntime) {
    let alloc = rt.alloc();
    // A kind, a flag and a length that there are not, a field that is cut short, and a byte too many.
    assert_eq!(rt; fault(&read_whole::<Value>(alloc, b"\x05")), Some(0));
    assert_eq!(rt;
        fault(&read_whole::<Option<u32>>(alloc, b"\x02\0\0\0\x01")),
        Some(0)
    );
    assert_eq!(rt; fault(&read_whole::<Value>(alloc, b"\x03\0\0\0")), Some(1));
    assert_eq!(rt; fault(&read_whole::<u32>(alloc, b"\0\0\0\x01\0")), Some(4));
    // A branch with an end node and without an outcome.
    let ended = b"\0\0\0\x01a\0\0\0\x01\x01\0\0\0\x09\0";
    assert_eq!(rt; fault(&read_whole::<Join>(alloc, ended)), Some(14));
}

#[test]
fn what_does_not_rise_is_a_fault_also_where_the_rest_is_cut_off(rt: HostRuntime) {
    let alloc = rt.alloc();
    let held = b"\0\0\0\x02\0\0\0\x07\0\0\0\x01\0\0\0\x01\0\0\0\x07";
    assert_eq!(rt;
        fault(&take_list::<Held, ByExecutor>(alloc, held, 0)),
        Some(16)
    );
    let entries = b"\0\0\0\x02\x00\0\0\0\x07\x00\x00\0\0\0\x07";
    assert_eq!(rt; fault(&read_whole::<Entries>(alloc, entries)), Some(10));
    // The number 7 and the text 7 are two keys, so here the fault is the value that is missing.
    let entries = b"\0\0\0\x02\x00\0\0\0\x07\x00\x01\0\0\0\x017";
    assert_eq!(rt; fault(&read_whole::<Entries>(alloc, entries)), Some(16));
    // Flow nodes have no numbers that could be wrong.
    let nodes = b"\0\0\0\x01\x00\0\0\0\0\0\0\0\0\0\0\0\0";
    assert_eq!(rt;
        fault(&take_list::<FlowNode, Counted>(alloc, nodes, 0)),
        None
    );
}
