//! Tasks that a program of their agent starts. Each test has a root of its own name.

use super::*;
use crate::launcher::{Ask, Launcher};

// A program of an agent: it starts tasks beside itself, says by the file `alive` in the root how they are, and writes down
// each call.
const LAUNCH: &str = r#"#!/bin/sh
echo "$1" >> calls
case $1 in
start) "$2/task" > /dev/null 2>&1 & ;;
alive) exit "$(cat alive)" ;;
esac
"#;

// An order whose workspace is in a root of this name, which has this program.
fn order_at(rt: &HostRuntime, root: &str, launch: &str, script: &str) -> io::Result<Order> {
    fs::create_dir(rt, root)?;
    put_program(
        rt,
        format!(in rt.alloc(); "{root}/launch")?.as_str(),
        launch,
    )?;
    let workspace = format!(in rt.alloc(); "{root}/workspace/demo")?;
    order(rt, workspace.as_str(), script)
}

// The lines that the program of this root wrote down.
fn expect_calls<R: Files + AllocGlobal + Abort>(rt: &R, root: &str, calls: &str) -> io::Result<()> {
    let path = format!(in rt.alloc(); "{root}/calls")?;
    expect_file(rt, path.as_str(), calls.as_bytes())
}

// What the program of this root says of tasks.
fn say_alive(rt: &HostRuntime, root: &str, code: &str) -> io::Result<()> {
    put(rt, format!(in rt.alloc(); "{root}/alive")?.as_str(), code)
}

#[test]
fn a_task_is_started_by_the_program_of_its_agent(rt: HostRuntime) -> Result<(), Fail> {
    let order = order_at(&rt, "far", LAUNCH, "echo hi; exit 3")?;
    expect(&rt, end_of(&rt, &order), Look::Exited(3));
    let log = written(&rt, &order, Stream::Log, 0)?;
    expect(&rt, log.as_slice(), b"+ echo hi\nhi\n+ exit 3\n".as_slice());
    expect_calls(&rt, "far", "start\n")?;
    let machine = fs::read_to_string(&rt, "/proc/sys/kernel/hostname")?;
    expect_file(
        &rt,
        in_control(&rt, &order, "machine")?.as_str(),
        machine.as_bytes(),
    )?;
    let process = fs::read_to_string(&rt, in_control(&rt, &order, "process")?.as_str())?;
    assert!(rt; control_folders::Process::parse(process.as_str()).is_some());
    Ok(())
}

#[test]
fn a_launch_that_nobody_may_run_moves_no_task_to_this_machine(rt: HostRuntime) -> Result<(), Fail> {
    let order = order_at(&rt, "plain", "exit 1\n", "true")?;
    fs::set_permissions(&rt, "plain/launch", Permissions::from_mode(0o644))?;
    let mut host = host(&rt);
    expect(&rt, host.make_dir(&order), Made::Made);
    expect(&rt, host.start(&order), Started::Failed);
    expect(
        &rt,
        fs::exists(&rt, in_control(&rt, &order, "started")?.as_str())?,
        false,
    );
    Ok(())
}

#[test]
fn a_start_that_fails_is_not_tried_again_and_runs_nothing_later(
    rt: HostRuntime,
) -> Result<(), Fail> {
    let order = order_at(
        &rt,
        "failing",
        "#!/bin/sh\necho \"$1\" >> calls\nexit 3\n",
        "true",
    )?;
    let mut host = host(&rt);
    let started = (host.make_dir(&order), host.start(&order), host.look(&order));
    expect(
        &rt,
        started,
        (Made::Made, Started::Failed, Look::NotStarted),
    );
    expect_calls(&rt, "failing", "start\n")?;
    let task = in_control(&rt, &order, "task")?;
    let late = Command::new(rt.alloc(), task.as_str())?.status(&rt)?;
    expect(
        &rt,
        (late.success(), host.look(&order)),
        (false, Look::NotStarted),
    );
    Ok(())
}

#[test]
fn a_start_that_fails_behind_its_task_may_have_begun(rt: HostRuntime) -> Result<(), Fail> {
    let launch = "#!/bin/sh\n\"$2/task\"\nexit 3\n";
    let order = order_at(&rt, "begun", launch, "exit 6")?;
    let mut host = host(&rt);
    let started = (host.make_dir(&order), host.start(&order), host.look(&order));
    expect(&rt, started, (Made::Made, Started::Failed, Look::Exited(6)));
    Ok(())
}

#[test]
fn a_task_that_is_gone_is_lost_once_its_program_has_said_so_twice(
    rt: HostRuntime,
) -> Result<(), Fail> {
    let order = order_at(&rt, "gone elsewhere", LAUNCH, "kill -9 $PPID\nkill -9 $$\n")?;
    say_alive(&rt, "gone elsewhere", "1")?;
    let mut host = host(&rt);
    expect(&rt, host.make_dir(&order), Made::Made);
    expect(&rt, host.start(&order), Started::Started);
    // Nine looks in half a second, and four in the second behind it.
    expect(&rt, looks_until_lost(&mut host, &order), 13);
    expect_calls(&rt, "gone elsewhere", "start\nalive\nalive\n")?;
    Ok(())
}

#[test]
fn what_a_program_does_not_know_loses_no_task(rt: HostRuntime) -> Result<(), Fail> {
    let launch =
        "#!/bin/sh\necho \"$1\" >> calls\ncase $1 in alive) rm first && exit 1; exit 7;; esac\n";
    let order = order_at(&rt, "unknown", launch, "true")?;
    put(&rt, "unknown/first", "")?;
    let mut host = host(&rt);
    expect(&rt, host.make_dir(&order), Made::Made);
    expect(&rt, host.start(&order), Started::Started);
    // Nobody took the permit. The second answer comes a second behind the first one, and the third five seconds later.
    expect(&rt, looks_until_lost(&mut host, &order), 40);
    expect_calls(&rt, "unknown", "start\nalive\nalive\nalive\n")?;
    Ok(())
}

#[test]
fn a_result_counts_that_is_there_once_the_program_was_asked(rt: HostRuntime) -> Result<(), Fail> {
    let launch = "#!/bin/sh\ncase $1 in alive) echo 5 > \"$2/jenkins-result.txt\"; exit 1;; esac\n";
    let order = order_at(&rt, "late result", launch, "true")?;
    let mut host = host(&rt);
    expect(&rt, host.make_dir(&order), Made::Made);
    expect(&rt, host.start(&order), Started::Started);
    expect(&rt, looks_until_lost(&mut host, &order), 10);
    expect(
        &rt,
        (host.look(&order), host.pauses_are_over()),
        (Look::Exited(5), false),
    );
    Ok(())
}

#[test]
fn a_task_elsewhere_outlives_a_boot_of_the_controllers_machine(
    rt: HostRuntime,
) -> Result<(), Fail> {
    let order = order_at(&rt, "outlives", LAUNCH, "sleep 3; exit 4")?;
    say_alive(&rt, "outlives", "0")?;
    let mut first = host(&rt);
    expect(&rt, first.make_dir(&order), Made::Made);
    expect(&rt, first.start(&order), Started::Started);
    thread::sleep(&rt, Duration::from_millis(500));
    put_in(&rt, &order, "started", "another-boot pid:[1]\n")?;
    let mut later = host(&rt);
    expect(&rt, later.make_dir(&order), Made::Exists);
    expect(&rt, looks_until_lost(&mut later, &order) < 40, true);
    expect(&rt, later.look(&order), Look::Exited(4));
    expect_calls(&rt, "outlives", "start\nalive\n")?;
    Ok(())
}

#[test]
fn a_process_of_another_machine_is_not_looked_for_on_this_one(rt: HostRuntime) -> Result<(), Fail> {
    // As where a task that waited in a queue took the permit of one that was to be started here.
    let order = order(&rt, "machines", "true")?;
    let mut host = host(&rt);
    expect(&rt, host.make_dir(&order), Made::Made);
    let permit = in_control(&rt, &order, "permit")?;
    fs::rename(
        &rt,
        permit.as_str(),
        in_control(&rt, &order, "started")?.as_str(),
    )?;
    let process = "999999999 (sh) S 1 1 1 0 -1 4194304 97 0 0 0 0 0 0 0 20 0 1 0 987654 2625536\n";
    for (name, text) in [
        ("jenkins-log.txt", ""),
        ("machine", "node-7\n"),
        ("process", process),
    ] {
        put_in(&rt, &order, name, text)?;
    }
    expect(&rt, looks_until_lost(&mut host, &order), 40);
    remove_in(&rt, &order, "machine")?;
    expect(&rt, looks_until_lost(&mut host, &order), 4);
    Ok(())
}

#[test]
fn a_start_that_waits_in_a_queue_is_withdrawn_by_a_later_life(rt: HostRuntime) -> Result<(), Fail> {
    let launch = "#!/bin/sh\necho \"$1\" >> calls\n";
    let order = order_at(&rt, "queue", launch, "echo ran")?;
    for _ in 0..2 {
        let mut host = host(&rt);
        let started = (host.make_dir(&order), host.start(&order));
        expect(&rt, started, (Made::Made, Started::Started));
    }
    expect_calls(&rt, "queue", "start\nstart\n")?;
    // The two that waited come one after the other: one takes the permit.
    let task = in_control(&rt, &order, "task")?;
    for runs in [true, false] {
        let status = Command::new(rt.alloc(), task.as_str())?.status(&rt)?;
        expect(&rt, status.success(), runs);
    }
    let log = written(&rt, &order, Stream::Log, 0)?;
    expect(&rt, log.as_slice(), b"+ echo ran\nran\n".as_slice());
    Ok(())
}

#[test]
fn a_folder_of_another_build_stays_while_its_task_may_run_elsewhere(
    rt: HostRuntime,
) -> Result<(), Fail> {
    let order = order_at(&rt, "others", LAUNCH, "sleep 5")?;
    let mut other = host_of_others(&rt);
    expect(&rt, other.make_dir(&order), Made::Made);
    expect(&rt, other.start(&order), Started::Started);
    thread::sleep(&rt, Duration::from_millis(500));
    for (code, made) in [("0", Made::Failed), ("7", Made::Failed), ("1", Made::Made)] {
        say_alive(&rt, "others", code)?;
        expect(&rt, host(&rt).make_dir(&order), made);
    }
    expect_calls(&rt, "others", "start\nalive\nalive\nalive\nalive\n")?;
    Ok(())
}

#[test]
fn the_variables_of_a_step_are_set_elsewhere(rt: HostRuntime) -> Result<(), Fail> {
    let script = "#!/bin/sh\nprintf '%s|' \"$A\" \"$B_2\"; env | grep -c odd\npwd\n";
    let mut order = order_at(&rt, "a root's \"own\"", LAUNCH, script)?;
    let folder = format!(in rt.alloc(); "{}/it's\nhere", "/tmp/elsewhere")?;
    order.folder = Bytes::from_slice(rt.alloc(), folder.as_bytes())?;
    set_env(
        &rt,
        &mut order,
        &[
            ("A", "first"),
            ("A", "it's \"$HOME\" `x` \\\n '' end"),
            ("B_2", ""),
            ("UID", "7"),
            ("odd.name", "1"),
            ("odd;touch odd", "1"),
        ],
    )?;
    expect(&rt, end_of(&rt, &order), Look::Exited(0));
    let log = written(&rt, &order, Stream::Log, 0)?;
    let wanted = "it's \"$HOME\" `x` \\\n '' end||0\n/tmp/elsewhere/it's\nhere\n";
    expect(&rt, log.as_slice(), wanted.as_bytes());
    Ok(())
}

#[test]
fn a_folder_of_the_step_that_cannot_be_made_is_told_in_the_log(
    rt: HostRuntime,
) -> Result<(), Fail> {
    let mut order = order_at(&rt, "nowhere", LAUNCH, "echo never")?;
    order.folder = Bytes::from_slice(rt.alloc(), b"/dev/null/nowhere")?;
    // Shells tell it in words and with codes of their own.
    let end = end_of(&rt, &order);
    assert!(rt; matches!(end, Look::Exited(_)) && end != Look::Exited(0));
    let log = written(&rt, &order, Stream::Log, 0)?;
    assert!(rt; String::from_utf8_lossy(rt.alloc(), log.as_slice())?.contains("/dev/null/nowhere"));
    Ok(())
}

#[test]
fn a_zero_byte_is_in_no_word_of_a_shell(rt: HostRuntime) -> Result<(), Fail> {
    let mut order = order_at(&rt, "zero", LAUNCH, "true")?;
    set_env(&rt, &mut order, &[("A", "a\0b")])?;
    let mut host = host(&rt);
    let started = (host.make_dir(&order), host.start(&order));
    expect(&rt, started, (Made::Made, Started::Failed));
    expect(&rt, fs::exists(&rt, "zero/calls")?, false);
    Ok(())
}

#[test]
fn a_program_that_does_not_end_is_ended(rt: HostRuntime) -> Result<(), Fail> {
    let order = order_at(&rt, "hanging", "#!/bin/sh\nexec sleep 60\n", "true")?;
    let launcher = Launcher::of(&rt, &order)?.ok_or("a program")?;
    expect(&rt, launcher.ask(&rt, Ask::Alive, "/no folder")?, None);
    Ok(())
}

#[test]
fn a_program_gets_its_words_and_the_root_as_its_folder(rt: HostRuntime) -> Result<(), Fail> {
    let launch = "#!/bin/sh\nprintf '%s|' \"$#\" \"$@\" > words\npwd >> words\nexit 4\n";
    let order = order_at(&rt, "words", launch, "true")?;
    let launcher = Launcher::of(&rt, &order)?.ok_or("a program")?;
    let here = env::current_dir(&rt)?;
    let here = here.as_path();
    for (ask, word) in [
        (Ask::Start, "start"),
        (Ask::Alive, "alive"),
        (Ask::Stop, "stop"),
    ] {
        expect(&rt, launcher.ask(&rt, ask, "/a b")?, Some(4));
        let wanted = format!(in rt.alloc(); "2|{word}|/a b|{}/words\n", here.display())?;
        expect_file(&rt, "words/words", wanted.as_bytes())?;
    }
    Ok(())
}

#[test]
fn a_workspace_of_no_agent_has_no_program(rt: HostRuntime) -> Result<(), Fail> {
    put_program(&rt, "launch", "#!/bin/sh\nexit 1\n")?;
    for workspace in ["workspace2/demo", "work/demo", "workspace"] {
        assert!(rt; Launcher::of(&rt, &order(&rt, workspace, "true")?)?.is_none());
    }
    assert!(rt; Launcher::of(&rt, &order(&rt, "workspace/demo", "true")?)?.is_some());
    Ok(())
}
