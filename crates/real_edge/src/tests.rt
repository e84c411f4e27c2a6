//! What real folders and processes do. Each test has a workspace or a file of its own name.

mod elsewhere;

use super::*;
use crate::launch::spawn;
use crate::programs::{Programs, find};
use control_folders::ControlFolder;
use device_faults::Failed;
use jp_disk::Disk;
use std::alloc::AllocError;
use std::fmt::Debug;
use std::fs::Permissions;
use std::os::unix::fs::PermissionsExt;
use std::process::{Abort, Command};
use std::rt::Files;
use std::test::Fail;
use std::time::Duration;
use std::{env, fs, io, thread};
use task_host::{Bytes, Host, Look, Made, Order, Pair, Pairs, Started, Stream, Text};

// The test fails where what was found is not what was wanted.
fn expect<T: PartialEq + Debug + Drop>(rt: &impl Abort, found: T, wanted: T) {
    assert_eq!(rt; found, wanted);
}

// Writes a file.
fn put(rt: &HostRuntime, path: &str, text: &str) -> io::Result<()> {
    fs::write(rt, path, text)
}

// Writes a program that everybody may run.
fn put_program(rt: &HostRuntime, path: &str, text: &str) -> io::Result<()> {
    put(rt, path, text)?;
    fs::set_permissions(rt, path, Permissions::from_mode(0o755))
}

// The file has these bytes.
fn expect_file<R: Files + AllocGlobal + Abort>(rt: &R, path: &str, bytes: &[u8]) -> io::Result<()> {
    let found = fs::read(rt, path)?;
    expect(rt, found.as_slice(), bytes);
    Ok(())
}

// An order of task 2 with this script, whose workspace has this name in this test's folder.
fn order(rt: &HostRuntime, workspace: &str, script: &str) -> io::Result<Order> {
    let alloc = rt.alloc();
    let here = env::current_dir(rt)?;
    let here = here.as_path();
    let workspace = format!(in alloc; "{}/{workspace}", here.display())?;
    Ok(Order {
        task: 2,
        executor: 0,
        workspace: Bytes::from_slice(alloc, workspace.as_bytes())?,
        folder: Bytes::from_slice(alloc, workspace.as_bytes())?,
        env: Pairs::new(alloc),
        script: Bytes::from_slice(alloc, script.as_bytes())?,
        keep_out: false,
        kept_log: 0,
        kept_out: 0,
    })
}

// Makes the folder, starts the task, and looks until it has ended, at most ten seconds long.
fn end_of(rt: &HostRuntime, order: &Order) -> Look {
    let mut host = host(rt);
    if host.make_dir(order) != Made::Made || host.start(order) != Started::Started {
        return Look::Failed;
    }
    for _ in 0..40 {
        let look = host.look(order);
        if look != Look::Running {
            return look;
        }
        host.pause();
    }
    Look::Running
}

// What the task wrote to a stream, of which a read begins with this place.
fn written(
    rt: &HostRuntime,
    order: &Order,
    stream: Stream,
    from: u64,
) -> Result<Vec<u8>, AllocError> {
    let mut buf = [0u8; 256];
    let count = control_folders::read(rt, order, stream, from, &mut buf);
    Vec::from_slice(rt.alloc(), &buf[..count.unwrap_or(0)])
}

#[test]
fn echo_through_the_shell(rt: HostRuntime) -> Result<(), Fail> {
    let order = order(&rt, "echo", "echo hi")?;
    expect(&rt, end_of(&rt, &order), Look::Exited(0));
    let log = written(&rt, &order, Stream::Log, 0)?;
    expect(&rt, log.as_slice(), b"+ echo hi\nhi\n".as_slice());
    let rest = written(&rt, &order, Stream::Log, 10)?;
    expect(&rt, rest.as_slice(), b"hi\n".as_slice());
    Ok(())
}

#[test]
fn scripts_with_their_logs_and_codes(rt: HostRuntime) -> Result<(), Fail> {
    // bytes that are no UTF-8, a child that outlives its task, no standard input, a workspace that is cleared
    let scripts: [(&str, &str, &[u8], i32); 4] = [
        ("bytes", "#!/bin/sh\nprintf 'a\\377b\\n'\n", b"a\xffb\n", 0),
        ("child", "#!/bin/sh\nsleep 20 & echo on\n", b"on\n", 0),
        ("input", "#!/bin/sh\ncat; echo end; exit 4\n", b"end\n", 4),
        (
            "cleared",
            "#!/bin/sh\n: > file; rm -rf -- *; echo cleared *\n",
            b"cleared *\n",
            0,
        ),
    ];
    for (workspace, script, log, code) in scripts {
        let order = order(&rt, workspace, script)?;
        expect(&rt, end_of(&rt, &order), Look::Exited(code));
        let found = written(&rt, &order, Stream::Log, 0)?;
        expect(&rt, found.as_slice(), log);
    }
    Ok(())
}

#[test]
fn a_folder_is_made_with_the_script_and_removed_once(rt: HostRuntime) -> Result<(), Fail> {
    let order = order(&rt, "removed", "echo hi")?;
    let mut host = host(&rt);
    let made = (host.look(&order), host.make_dir(&order), host.look(&order));
    expect(&rt, made, (Look::Absent, Made::Made, Look::NotStarted));
    expect_file(&rt, "removed@tmp/durable-00000002/script.sh", b"echo hi")?;
    let removed = (host.remove(&order), host.remove(&order), host.look(&order));
    expect(&rt, removed, (Ok(()), Ok(()), Look::Absent));
    Ok(())
}

#[test]
fn a_task_is_started_once_and_then_its_folder_is_kept(rt: HostRuntime) -> Result<(), Fail> {
    let order = order(&rt, "once", "true")?;
    let mut host = host(&rt);
    expect(&rt, host.start(&order), Started::Failed);
    expect(&rt, host.make_dir(&order), Made::Made);
    expect(&rt, host.read(&order, Stream::Log, 0, &mut [0; 8]), Ok(0));
    let started = [host.start(&order), host.start(&order)];
    expect(&rt, started, [Started::Started, Started::Failed]);
    for _ in 0..12 {
        host.pause();
    }
    expect(&rt, answers(host, &order), (Made::Exists, Look::Exited(0)));
    Ok(())
}

// The builds of these tests, each with its identity in a file.
const OWN: &str = "00112233445566778899aabbccddeeff\n";

const OTHERS: &str = "ffeeddccbbaa99887766554433221100\n";

// A host of this test's build.
fn host<'a>(rt: &'a HostRuntime) -> FolderHost<'a, HostRuntime> {
    let _ = put(rt, "build", OWN);
    FolderHost::new(rt, "build")
}

// A host of another build.
fn host_of_others<'a>(rt: &'a HostRuntime) -> FolderHost<'a, HostRuntime> {
    let _ = put(rt, "other build", OTHERS);
    FolderHost::new(rt, "other build")
}

// A host of this test's build, which takes control folders without a name.
fn older_host<'a>(rt: &'a HostRuntime) -> FolderHost<'a, HostRuntime> {
    let _ = put(
        rt,
        "older build",
        "00112233445566778899aabbccddeeff older\n",
    );
    FolderHost::new(rt, "older build")
}

// What a host answers when it makes the folder and looks.
fn answers(mut host: FolderHost<'_, HostRuntime>, order: &Order) -> (Made, Look) {
    (host.make_dir(order), host.look(order))
}

// Of a folder that was made anew, and of one that could not be had.
const ANEW: (Made, Look) = (Made::Made, Look::NotStarted);

const REFUSED: (Made, Look) = (Made::Failed, Look::Absent);

// The path of a file in the order's control folder.
fn in_control(rt: &HostRuntime, order: &Order, name: &str) -> io::Result<String> {
    Ok(ControlFolder::of(rt.alloc(), order)?.file(rt.alloc(), name)?)
}

// Writes a file in the order's control folder.
fn put_in(rt: &HostRuntime, order: &Order, name: &str, text: &str) -> io::Result<()> {
    put(rt, in_control(rt, order, name)?.as_str(), text)
}

// Removes a file in it.
fn remove_in(rt: &HostRuntime, order: &Order, name: &str) -> io::Result<()> {
    fs::remove_file(rt, in_control(rt, order, name)?.as_str())
}

#[test]
fn a_result_written_by_hand_counts_once_it_is_a_number(rt: HostRuntime) -> Result<(), Fail> {
    let order = order(&rt, "hand", "true")?;
    let mut host = host(&rt);
    expect(&rt, host.make_dir(&order), Made::Made);
    for name in ["jenkins-log.txt", "jenkins-result.txt"] {
        put_in(&rt, &order, name, "")?;
    }
    expect(&rt, host.look(&order), Look::Running);
    put_in(&rt, &order, "jenkins-result.txt", "7\n")?;
    expect(&rt, host.look(&order), Look::Exited(7));
    Ok(())
}

#[test]
fn a_control_folder_is_named_by_its_task_and_names_its_build(rt: HostRuntime) -> Result<(), Fail> {
    let mut order = order(&rt, "named", "true")?;
    order.task = 43_981;
    expect(&rt, answers(host(&rt), &order).0, Made::Made);
    let folder = "named@tmp/durable-0000abcd";
    for (name, bytes) in [
        ("script.sh", "true"),
        ("build-00112233445566778899aabbccddeeff", ""),
    ] {
        let path = format!(in rt.alloc(); "{folder}/{name}")?;
        expect_file(&rt, path.as_str(), bytes.as_bytes())?;
        let mode = fs::metadata(&rt, path.as_str())?.permissions().mode() % 512;
        expect(&rt, mode, 0o600);
    }
    expect(
        &rt,
        fs::metadata(&rt, folder)?.permissions().mode() % 512,
        0o700,
    );
    Ok(())
}

#[test]
fn a_workspace_that_no_folder_can_have(rt: HostRuntime) -> Result<(), Fail> {
    let alloc = rt.alloc();
    put(&rt, "file", "")?;
    let long = format!(in alloc; "{:x<252}", "job")?;
    for name in ["workspace/..", "workspace/.", "file/demo", long.as_str()] {
        let order = order(&rt, name, "true")?;
        expect(&rt, answers(host(&rt), &order), REFUSED);
    }
    Ok(())
}

#[test]
fn a_workspace_that_is_not_utf8_and_a_build_without_an_identity(
    rt: HostRuntime,
) -> Result<(), Fail> {
    let mut order = order(&rt, "utf8", "true")?;
    let nobodys = FolderHost::new(&rt, "no such build");
    expect(&rt, answers(nobodys, &order), REFUSED);
    order.workspace = Bytes::from_slice(rt.alloc(), b"/tmp/\xff")?;
    expect(&rt, answers(host(&rt), &order), REFUSED);
    Ok(())
}

#[test]
fn an_ended_task_of_another_build_gives_its_folder_up(rt: HostRuntime) -> Result<(), Fail> {
    let order = order(&rt, "left", "true")?;
    expect(&rt, end_of(&rt, &order), Look::Exited(0));
    for _ in 0..2 {
        expect(&rt, answers(host_of_others(&rt), &order), ANEW);
        expect(&rt, answers(host(&rt), &order), ANEW);
    }
    expect(
        &rt,
        fs::exists(&rt, "left@tmp/durable-00000002.old")?,
        false,
    );
    Ok(())
}

#[test]
fn a_running_task_of_another_build_is_left_alone(rt: HostRuntime) -> Result<(), Fail> {
    let order = order(&rt, "alone", "echo theirs; sleep 2")?;
    let mut other = host_of_others(&rt);
    let started = (other.make_dir(&order), other.start(&order));
    expect(&rt, started, (Made::Made, Started::Started));
    thread::sleep(&rt, Duration::from_millis(500));
    let mut host = host(&rt);
    let launched = (
        host.make_dir(&order),
        host.start(&order),
        host.remove(&order),
    );
    expect(&rt, launched, (Made::Failed, Started::Failed, Ok(())));
    let looks = [host.look(&order), other.look(&order)];
    expect(&rt, looks, [Look::Absent, Look::Running]);
    expect(&rt, host.read(&order, Stream::Log, 0, &mut [0; 8]), Ok(0));
    expect(&rt, other.read(&order, Stream::Log, 0, &mut [0; 8]), Ok(8));
    Ok(())
}

#[test]
fn a_task_that_a_later_life_finds_is_waited_for(rt: HostRuntime) -> Result<(), Fail> {
    let order = order(&rt, "later", "sleep 1; exit 3")?;
    let mut first = host(&rt);
    let started = (first.make_dir(&order), first.start(&order));
    expect(&rt, started, (Made::Made, Started::Started));
    thread::sleep(&rt, Duration::from_millis(500));
    let mut later = host(&rt);
    let found = (later.make_dir(&order), later.look(&order));
    expect(&rt, found, (Made::Exists, Look::Running));
    thread::sleep(&rt, Duration::from_millis(1500));
    expect(&rt, later.look(&order), Look::Exited(3));
    Ok(())
}

#[test]
fn a_folder_whose_task_was_not_started_is_made_anew(rt: HostRuntime) -> Result<(), Fail> {
    let order = order(&rt, "anew", "true")?;
    expect(&rt, host(&rt).make_dir(&order), Made::Made);
    // A process of the earlier life that comes late finds no permit, or takes the new one in place of the later life's.
    put_in(&rt, &order, "jenkins-log.txt", "")?;
    expect(&rt, answers(host(&rt), &order), ANEW);
    for mark in ["permit", "build-00112233445566778899aabbccddeeff"] {
        remove_in(&rt, &order, mark)?;
        expect(&rt, answers(host(&rt), &order), ANEW);
    }
    put_in(&rt, &order, "revoked", "")?;
    remove_in(&rt, &order, "permit")?;
    expect(&rt, answers(host(&rt), &order), ANEW);
    Ok(())
}

#[test]
fn a_folder_of_which_nothing_is_known_is_kept(rt: HostRuntime) -> Result<(), Fail> {
    let order = order(&rt, "kept", "true")?;
    expect(&rt, host(&rt).make_dir(&order), Made::Made);
    for boot in ["another-boot pid:[1]\n", "- -\n", ""] {
        put_in(&rt, &order, "permit", boot)?;
        expect(
            &rt,
            answers(host(&rt), &order),
            (Made::Exists, Look::NotStarted),
        );
    }
    let permit = in_control(&rt, &order, "permit")?;
    fs::rename(
        &rt,
        permit.as_str(),
        in_control(&rt, &order, "started")?.as_str(),
    )?;
    expect(
        &rt,
        answers(host(&rt), &order),
        (Made::Exists, Look::NotStarted),
    );
    Ok(())
}

#[test]
fn an_older_build_takes_the_folders_that_name_none(rt: HostRuntime) -> Result<(), Fail> {
    let order = order(&rt, "older", "true")?;
    expect(&rt, host(&rt).make_dir(&order), Made::Made);
    for mark in ["permit", "build-00112233445566778899aabbccddeeff"] {
        remove_in(&rt, &order, mark)?;
    }
    put_in(&rt, &order, "jenkins-log.txt", "theirs")?;
    expect(&rt, answers(host(&rt), &order), REFUSED);
    expect(
        &rt,
        answers(older_host(&rt), &order),
        (Made::Exists, Look::Running),
    );
    Ok(())
}

// Looks and pauses until there are no pauses any more, and answers how many looks there were, at most 40.
fn looks_until_lost(host: &mut FolderHost<'_, HostRuntime>, order: &Order) -> u32 {
    for looks in 1..40 {
        if host.look(order) != Look::Running || host.pauses_are_over() {
            return looks;
        }
        host.pause();
    }
    40
}

#[test]
fn a_task_whose_shell_was_killed_is_lost_within_seconds(rt: HostRuntime) -> Result<(), Fail> {
    let order = order(&rt, "shell", "kill -9 $PPID\nkill -9 $$\n")?;
    let mut host = host(&rt);
    expect(&rt, host.make_dir(&order), Made::Made);
    expect(&rt, host.start(&order), Started::Started);
    // Nine looks in half a second, and four in the second behind it.
    expect(&rt, looks_until_lost(&mut host, &order), 12);
    expect(&rt, host.look(&order), Look::Running);
    Ok(())
}

#[test]
fn a_task_of_another_boot_is_lost_at_once(rt: HostRuntime) -> Result<(), Fail> {
    let order = order(&rt, "boot", "true")?;
    expect(&rt, host(&rt).make_dir(&order), Made::Made);
    for (name, text) in [
        ("started", "another-boot pid:[1]\n"),
        ("jenkins-log.txt", ""),
    ] {
        put_in(&rt, &order, name, text)?;
    }
    remove_in(&rt, &order, "permit")?;
    let mut later = host(&rt);
    expect(&rt, later.make_dir(&order), Made::Exists);
    expect(&rt, looks_until_lost(&mut later, &order), 9);
    Ok(())
}

// The order's step sets these variables.
fn set_env(rt: &HostRuntime, order: &mut Order, env: &[(&str, &str)]) -> Result<(), AllocError> {
    let alloc = rt.alloc();
    order.env = Pairs::new(alloc);
    for (name, value) in env {
        let name = Text::from_str(alloc, name)?;
        let value = Text::from_str(alloc, value)?;
        order.env.push(Pair { name, value })?;
    }
    Ok(())
}

#[test]
fn a_setsid_of_the_workspace_is_not_run(rt: HostRuntime) -> Result<(), Fail> {
    let mut order = order(&rt, "path", "true")?;
    fs::create_dir(&rt, "path")?;
    put_program(&rt, "path/setsid", "#!/bin/sh\nexit 1\n")?;
    set_env(&rt, &mut order, &[("PATH", ".:/usr/bin:/bin")])?;
    expect(&rt, end_of(&rt, &order), Look::Exited(0));
    Ok(())
}

#[test]
fn a_path_of_the_step_does_not_lose_the_shell(rt: HostRuntime) -> Result<(), Fail> {
    let mut order = order(&rt, "shell path", "true")?;
    set_env(&rt, &mut order, &[("PATH", "/no/such/folder")])?;
    let mut host = host(&rt);
    let answers = (host.make_dir(&order), host.start(&order));
    expect(&rt, answers, (Made::Made, Started::Started));
    Ok(())
}

// Runs the task to its end where `setsid` is at a path with no file.
fn run_without_setsid(rt: &HostRuntime, order: &Order) -> io::Result<()> {
    let control = ControlFolder::of(rt.alloc(), order)?;
    let mut programs = Programs::of_controller(rt)?;
    programs.setsid = Some(String::from_str(rt.alloc(), "/no/such/setsid")?);
    spawn(rt, rt.alloc(), &programs, order, &control)?.wait()?;
    Ok(())
}

#[test]
fn a_setsid_that_cannot_be_started(rt: HostRuntime) -> Result<(), Fail> {
    let order = order(&rt, "unset", "true")?;
    let mut host = host(&rt);
    expect(&rt, host.make_dir(&order), Made::Made);
    fs::create_dir(&rt, "unset")?;
    run_without_setsid(&rt, &order)?;
    expect(&rt, host.look(&order), Look::Exited(0));
    Ok(())
}

#[test]
fn programs_are_found_by_absolute_folders(rt: HostRuntime) -> Result<(), Fail> {
    let alloc = rt.alloc();
    let here = env::current_dir(&rt)?;
    for (folder, mode) in [("first", 0o644), ("second", 0o755)] {
        fs::create_dir(&rt, folder)?;
        let program = format!(in alloc; "{folder}/sh")?;
        put(&rt, program.as_str(), "")?;
        fs::set_permissions(&rt, program.as_str(), Permissions::from_mode(mode))?;
    }
    let here = here.as_path();
    let here = here.display();
    let path = format!(in alloc; "second::{here}:{here}/first:{here}/second")?;
    let found = find(&rt, path.as_str(), "sh")?.ok_or("a program")?;
    assert!(rt; found.ends_with("/second/sh") && found.starts_with('/'));
    assert!(rt; find(&rt, path.as_str(), "setsid")?.is_none());
    Ok(())
}

#[test]
fn a_script_with_an_interpreter_and_output_apart(rt: HostRuntime) -> Result<(), Fail> {
    let mut order = order(&rt, "apart", "#!/bin/sh\necho out\necho log >&2\nexit 3\n")?;
    order.keep_out = true;
    expect(&rt, end_of(&rt, &order), Look::Exited(3));
    let out = written(&rt, &order, Stream::Out, 0)?;
    expect(&rt, out.as_slice(), b"out\n".as_slice());
    let log = written(&rt, &order, Stream::Log, 0)?;
    expect(&rt, log.as_slice(), b"log\n".as_slice());
    Ok(())
}

#[test]
fn a_failing_line_ends_the_script(rt: HostRuntime) -> Result<(), Fail> {
    let order = order(&rt, "line", "exit 3\necho never\n")?;
    expect(&rt, end_of(&rt, &order), Look::Exited(3));
    let log = written(&rt, &order, Stream::Log, 0)?;
    expect(&rt, log.as_slice(), b"+ exit 3\n".as_slice());
    Ok(())
}

#[test]
fn a_killed_script_ends_with_the_signal(rt: HostRuntime) -> Result<(), Fail> {
    let order = order(&rt, "signal", "kill -9 $$\n")?;
    expect(&rt, end_of(&rt, &order), Look::Exited(137));
    Ok(())
}

#[test]
fn a_task_has_a_process_group_of_its_own(rt: HostRuntime) -> Result<(), Fail> {
    let script = "#!/bin/sh\nread -r _ _ _ _ group _ < /proc/$$/stat\necho \"$group\"\n";
    let order = order(&rt, "group", script)?;
    expect(&rt, end_of(&rt, &order), Look::Exited(0));
    let log = written(&rt, &order, Stream::Log, 0)?;
    let stat = fs::read_to_string(&rt, "/proc/self/stat")?;
    let own = stat.split_whitespace().nth(4).ok_or("a process group")?;
    assert!(rt; log.len() > 1 && !log.as_slice().starts_with(own.as_bytes()));
    Ok(())
}

#[test]
fn paths_with_blanks_quotes_and_newlines(rt: HostRuntime) -> Result<(), Fail> {
    let order = order(&rt, "a b'c\"d\ne", "pwd\n")?;
    expect(&rt, end_of(&rt, &order), Look::Exited(0));
    let log = written(&rt, &order, Stream::Log, 0)?;
    assert!(rt; log.as_slice().ends_with(b"/a b'c\"d\ne\n"));
    Ok(())
}

#[test]
fn the_script_sees_the_environment(rt: HostRuntime) -> Result<(), Fail> {
    let mut order = order(&rt, "environment", "echo \"$NAME\"\n")?;
    set_env(&rt, &mut order, &[("NAME", "first"), ("NAME", "a b")])?;
    expect(&rt, end_of(&rt, &order), Look::Exited(0));
    let log = written(&rt, &order, Stream::Log, 0)?;
    expect(&rt, log.as_slice(), b"+ echo a b\na b\n".as_slice());
    Ok(())
}

// A disk over the file of this name.
fn disk<'a>(rt: &'a HostRuntime, name: &str) -> Result<FileDisk<'a, HostRuntime>, AllocError> {
    Ok(FileDisk::new(rt, String::from_str(rt.alloc(), name)?))
}

#[test]
fn a_missing_file_has_no_bytes_and_is_not_made_by_a_sync(rt: HostRuntime) -> Result<(), Fail> {
    let mut disk = disk(&rt, "missing.dat")?;
    expect(&rt, (disk.len(), disk.sync()), (Ok(0), Ok(())));
    expect(&rt, fs::exists(&rt, "missing.dat")?, false);
    Ok(())
}

#[test]
fn a_missing_file_is_made_by_the_first_write(rt: HostRuntime) -> Result<(), Fail> {
    let mut disk = disk(&rt, "made.dat")?;
    assert_eq!(rt; disk.write_at(0, b"hello"), Ok(()));
    expect(&rt, disk.write_at(4, b"!!"), Ok(()));
    expect_file(&rt, "made.dat", b"hell!!")?;
    Ok(())
}

#[test]
fn the_length_of_a_file_that_is_there(rt: HostRuntime) -> Result<(), Fail> {
    put(&rt, "there.dat", "hell!!")?;
    expect(&rt, disk(&rt, "there.dat")?.len(), Ok(6));
    Ok(())
}

#[test]
fn a_read_gives_what_there_is_and_leaves_the_rest_of_the_buffer(
    rt: HostRuntime,
) -> Result<(), Fail> {
    put(&rt, "again.dat", "hell!!")?;
    let mut disk = disk(&rt, "again.dat")?;
    let mut buf = *b"abcdef";
    expect(&rt, (disk.len(), disk.read_at(1, &mut buf)), (Ok(6), Ok(5)));
    expect(&rt, buf, *b"ell!!f");
    expect(&rt, disk.read_at(6, &mut buf), Ok(0));
    Ok(())
}

#[test]
fn a_file_that_cannot_be_made(rt: HostRuntime) -> Result<(), Fail> {
    let mut disk = disk(&rt, "no such folder/program.dat")?;
    expect(&rt, disk.len(), Ok(0));
    let failed = [disk.write_at(0, b"x"), disk.sync()];
    expect(&rt, failed, [Err(Failed), Err(Failed)]);
    fs::create_dir(&rt, "no such folder")?;
    let again = [disk.write_at(0, b"x"), disk.sync()];
    expect(&rt, again, [Ok(()), Err(Failed)]);
    // Another disk over the file knows nothing of it.
    let other = self::disk(&rt, "no such folder/program.dat")?.sync();
    expect(&rt, other, Ok(()));
    Ok(())
}

#[test]
fn a_sync_that_failed_fails_again(rt: HostRuntime) -> Result<(), Fail> {
    fs::create_dir(&rt, "gone")?;
    let mut disk = disk(&rt, "gone/program.dat")?;
    expect(&rt, disk.write_at(0, b"x"), Ok(()));
    fs::remove_dir_all(&rt, "gone")?;
    expect(&rt, disk.sync(), Err(Failed));
    fs::create_dir(&rt, "gone")?;
    expect(&rt, disk.sync(), Err(Failed));
    Ok(())
}

#[test]
fn a_folder_is_no_file(rt: HostRuntime) -> Result<(), Fail> {
    fs::create_dir(&rt, "folder.dat")?;
    let mut disk = disk(&rt, "folder.dat")?;
    expect(&rt, disk.len(), Err(Failed));
    expect(&rt, disk.write_at(0, b"x"), Err(Failed));
    Ok(())
}

#[test]
fn no_bytes_below_the_end_is_a_fault(rt: HostRuntime) -> Result<(), Fail> {
    let mut disk = disk(&rt, "cut.dat")?;
    expect(&rt, disk.write_at(0, b"hello"), Ok(()));
    put(&rt, "cut.dat", "he")?;
    let mut buf = [0u8; 8];
    expect(&rt, disk.read_at(1, &mut buf), Ok(1));
    expect(&rt, disk.read_at(3, &mut buf), Err(Failed));
    Ok(())
}

type Locked<'a> = LockedDisk<'a, HostRuntime, FileDisk<'a, HostRuntime>>;

// A disk over the file `NAME.dat`, under a lock on `NAME.lock`.
fn locked<'a>(rt: &'a HostRuntime, name: &str) -> Result<Locked<'a>, AllocError> {
    let alloc = rt.alloc();
    let file = format!(in alloc; "{name}.dat")?;
    let lock = format!(in alloc; "{name}.lock")?;
    Ok(LockedDisk::locked(rt, lock, disk(rt, file.as_str())?))
}

#[test]
fn a_store_whose_lock_is_held_is_not_touched_by_another_disk(rt: HostRuntime) -> Result<(), Fail> {
    let mut first = locked(&rt, "held")?;
    let mut second = locked(&rt, "held")?;
    expect(&rt, first.len(), Ok(0));
    let refused = [second.write_at(0, b"second"), second.sync()];
    expect(&rt, refused, [Err(Failed), Err(Failed)]);
    expect(&rt, fs::exists(&rt, "held.dat")?, false);
    expect(&rt, first.write_at(0, b"first"), Ok(()));
    drop(first);
    // It is not asked for again; a disk that comes later has it.
    expect(&rt, second.len(), Err(Failed));
    expect(&rt, locked(&rt, "held")?.len(), Ok(5));
    Ok(())
}

#[test]
fn whoever_only_reads_needs_no_lock(rt: HostRuntime) -> Result<(), Fail> {
    put(&rt, "read.dat", "hell!!")?;
    let mut first = locked(&rt, "read")?;
    let mut reader: Locked = LockedDisk::unlocked(disk(&rt, "read.dat")?);
    expect(&rt, [first.len(), reader.len()], [Ok(6), Ok(6)]);
    let mut nowhere: Locked = LockedDisk::unlocked(disk(&rt, "no folder/read.dat")?);
    expect(&rt, nowhere.len(), Ok(0));
    expect(&rt, locked(&rt, "no folder/read")?.len(), Err(Failed));
    Ok(())
}

// The exit code of a program of util-linux that asks for the lock: 0 where it had it.
fn asked_by_another_process(rt: &HostRuntime, lock: &str) -> io::Result<Option<i32>> {
    let status = Command::new(rt.alloc(), "flock")?
        .args(["--nonblock", lock, "true"])?
        .status(rt)?;
    Ok(status.code())
}

#[test]
fn a_lock_holds_against_other_processes_and_none_inherits_it(rt: HostRuntime) -> Result<(), Fail> {
    let mut disk = locked(&rt, "processes")?;
    expect(&rt, disk.len(), Ok(0));
    let held = asked_by_another_process(&rt, "processes.lock")?;
    let mut started = Command::new(rt.alloc(), "sleep")?.arg("60")?.spawn(&rt)?;
    drop(disk);
    let free = asked_by_another_process(&rt, "processes.lock")?;
    started.kill()?;
    started.wait()?;
    expect(&rt, [held, free], [Some(1), Some(0)]);
    Ok(())
}

fn to_another_thread<T: Send>(_value: &T) {}

#[test]
fn a_disk_and_a_host_may_cross_threads(rt: HostRuntime) -> Result<(), Fail> {
    to_another_thread(&host(&rt));
    to_another_thread(&disk(&rt, "crossing.dat")?);
    to_another_thread(&locked(&rt, "crossing")?);
    Ok(())
}
