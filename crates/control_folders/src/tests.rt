//! The lines of machines and processes, as the kernel writes them.

use super::*;
use std::fmt::Debug;
use std::process::Abort;
use std::test::Fail;
use std::{fs, io};

// The test fails where what was found is not what was wanted.
fn expect<T: PartialEq + Debug + Drop>(rt: &impl Abort, found: T, wanted: T) {
    assert_eq!(rt; found, wanted);
}

// A line of a shell that waits, as `/proc/N/stat` has it.
const SHELL: &str =
    "4711 (sh) S 1 4711 4711 0 -1 4194304 97 0 0 0 0 0 0 0 20 0 1 0 987654 2625536 225 18446744073709551615\n";

// One whose name has what stands between fields elsewhere.
const NAMED: &str =
    "12 (a) b (c) Z 1 12 12 0 -1 4194304 97 0 0 0 0 0 0 0 20 0 1 0 13 2625536 225\n";

#[test]
fn a_line_of_the_kernel_tells_a_process(rt: HostRuntime) -> Result<(), Fail> {
    for (line, number, state, began) in [(SHELL, "4711", "S", "987654"), (NAMED, "12", "Z", "13")] {
        let process = Process::parse(line).ok_or("a process")?;
        assert_eq!(rt;
            [process.number, process.state, process.began],
            [number, state, began]
        );
    }
    for line in ["", "\n", "4711", "4711 (sh S 1", "4711 (sh) S 1 2 3"] {
        assert!(rt; Process::parse(line).is_none());
    }
    Ok(())
}

// The line of the process that runs this test.
fn own_line(rt: &HostRuntime) -> io::Result<String> {
    fs::read_to_string(rt, "/proc/self/stat")
}

#[test]
fn a_process_is_there_while_it_runs_and_another_one_with_its_number_is_not_it(
    rt: HostRuntime,
) -> Result<(), Fail> {
    let line = own_line(&rt)?;
    let own = Process::parse(line.as_str()).ok_or("a process")?;
    expect(&rt, own.is_there(&rt)?, Some(true));
    let other = Process { began: "1", ..own };
    expect(&rt, other.is_there(&rt)?, Some(false));
    let nobody = Process {
        number: "999999999",
        ..own
    };
    expect(&rt, nobody.is_there(&rt)?, Some(false));
    Ok(())
}

#[test]
fn a_line_tells_this_boot_from_others(rt: HostRuntime) -> Result<(), Fail> {
    let own = Machine::own(&rt)?;
    let boot = fs::read_to_string(&rt, "/proc/sys/kernel/random/boot_id")?;
    let boot = boot.as_str().trim();
    expect(&rt, own.boot(own.line()), Boot::Same);
    assert!(rt; own.line().starts_with(boot) && own.sees_processes_of(own.line()));
    for (line, wanted) in [
        (
            "0a0a0a0a-0000-4000-8000-000000000000 pid:[1]\n",
            Boot::Other,
        ),
        ("- pid:[1]\n", Boot::Unknown),
        ("", Boot::Other),
    ] {
        expect(&rt, own.boot(line), wanted);
        assert!(rt; !own.sees_processes_of(line));
    }
    let elsewhere = format!(in rt.alloc(); "{boot} pid:[1]\n")?;
    expect(&rt, own.boot(elsewhere.as_str()), Boot::Same);
    assert!(rt; !own.sees_processes_of(elsewhere.as_str()));
    Ok(())
}
