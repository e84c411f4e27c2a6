use device_faults::FailingCalls;
use std::test::Fail;

#[test]
fn the_listed_calls_fail_and_no_others(rt: HostRuntime) -> Result<(), Fail> {
    let mut calls = FailingCalls::new([2, 4, 4].to_vec(rt.alloc())?);
    for (number, fails) in [(1, false), (2, true), (3, false), (4, true), (5, false)] {
        assert_eq!(rt; calls.next_fails(), fails, "call {number}");
    }
    Ok(())
}
