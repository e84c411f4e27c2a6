//! A call whose hosts are folders of this machine.
ghost use Rattle.std.specs.Prelude.{◌≡◌, length};

use super::*;
use std::fs;
use std::path::Path;

/// An agents file of one agent with this root, and the log of a shell step on it that writes `hi`.
fn texts_at(alloc: Global, root: &Path) -> Result<(String, String), AllocError> {
    let root = root.display();
    let agents = format!(in alloc;
        r#"{{"job":"demo","agents":[{{"name":"m","root":"{root}","executors":1}}]}}"#
    )?;
    let log = format!(in alloc;
        "[Pipeline] Start of Pipeline\n[Pipeline] node\nRunning on m in {root}/workspace/demo\n[Pipeline] {{\n[Pipeline] sh\n+ echo hi\nhi\n[Pipeline] }}\n[Pipeline] // node\n[Pipeline] End of Pipeline\nFinished: SUCCESS\n"
    )?;
    Ok((agents, log))
}

/// What the step comes to on these hosts.
fn step_on<W: Threads + Wait + Sync + Clock + AllocGlobal, H: Host + Drop + Send>(
    rt: &W,
    agents: &str,
    hosts: Vec<H>,
) -> Result<Called<H>, AllocError>
    requires { length hosts.items ≡ 64 }
{
    let streams = open_streams(rt.alloc(), ["node { sh 'echo hi' }", agents, ""], NONE)?;
    Ok(call(rt, words(rt.alloc(), "run", "demo")?, streams, hosts))
}

#[test]
fn a_shell_step_runs_in_a_real_folder(rt: HostRuntime) -> Result<(), Fail> {
    let here = env::current_dir(&rt)?;
    let (agents, log) = texts_at(rt.alloc(), &here.as_path())?;
    fs::write(&rt, "build", "00112233445566778899aabbccddeeff\n")?;
    let hosts = hosts_of(&rt, rt.alloc(), "build")?;
    let called = step_on(&rt, agents.as_str(), hosts)?;
    assert_eq!(rt; called.status, 0);
    assert!(rt; called.out.bytes() == log.as_bytes());
    Ok(())
}
