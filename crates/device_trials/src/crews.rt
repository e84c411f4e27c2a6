use agent_worker::{Crew, Member};
use model_run::Executor;
use model_text::{Text, Texts};
use std::alloc::{AllocError, Global};
use std::test::Fail;

/// An executor with this number.
fn executor(alloc: Global, number: u32) -> Result<Executor, AllocError> {
    Ok(Executor {
        number,
        agent: Text::from_str(alloc, "one")?,
        root: Text::from_str(alloc, "/srv")?,
        labels: Texts::new(alloc),
        slot: 0,
    })
}

#[test]
fn two_executors_have_the_first_hosts_and_all_come_back_in_their_order(
    rt: HostRuntime,
) -> Result<(), Fail> {
    let alloc = rt.alloc();
    let executors = [executor(alloc, 4)?, executor(alloc, 7)?];
    let mut hosts = Vec::new(alloc);
    for host in [10, 20, 30, 40] {
        hosts.push(host)?;
    }
    let Ok(crew) = Crew::gather(alloc, &executors, hosts, 5) else {
        return Err(Fail::from("no memory"));
    };
    assert_eq!(rt; crew.members.len(), 3);
    let Some(Member::Executor { number, host }) = crew.members.get(1) else {
        return Err(Fail::from("no executor"));
    };
    assert_eq!(rt; (*number, *host), (7, 20));
    let (hosts, answers) = crew.dismiss();
    assert!(rt; hosts.as_slice() == [10, 20, 30, 40].as_slice());
    assert_eq!(rt; answers, 5);
    Ok(())
}
