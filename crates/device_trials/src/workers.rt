//! Tests over hosts, gates and sources in memory.

use agent_worker::{
    Claim, ClaimSaid, Gate, Heard, Inputs, Member, Said, Served, Worked, answer_of, serve, work,
};
use journal_core::TakeFault;
use jp_io::MemorySource;
use model_run::{Event, Stream as EventStream, Taken, Why};
use std::alloc::{AllocError, Global};
use std::test::Fail;
use task_host::{Bytes, Host, MemoryHost, Numbers, Order, Pairs, TaskOutcome, TaskOutcomes};

// A gate that accepts so many events and answers this to any other; it gives these claims, and says that so much is open,
// each time the last of its list, and then that an input is.
#[derive(Drop)]
struct ListGate {
    alloc: Global,
    events: Vec<Event>,
    room: usize,
    refusal: Result<Taken, TakeFault>,
    claims: Vec<Claim>,
    open: Vec<Inputs>,
    lines: Vec<Bytes>,
    asked: bool,
    said: Said,
}

impl Gate for ListGate {
    ghost use Rattle.std.specs.Prelude.{None};

    ghost tells = { λ gate. record { told = None; lines = None; claimed = None; calls = None; said = gate.said; is_open = gate.asked } };

    fn claim(&mut self, _executor: u32) -> Claim {
        let claim = match self.claims.pop() {
            Some(Claim::Idle { busy: 0 }) => Claim::Rest,
            Some(claim) => claim,
            None => Claim::Rest,
        };
        self.said = Said::Claim(ClaimSaid::of(&claim));
        claim
    }

    fn report(&mut self, event: Event) -> Result<Taken, TakeFault> {
        let answer = if self.events.len() >= self.room {
            self.refusal
        } else if self.events.push(event).is_ok() {
            Ok(Taken::Accepted)
        } else {
            Err(TakeFault::Memory)
        };
        self.said = Said::Report(answer);
        answer
    }

    fn inputs(&mut self) -> Inputs {
        let answer = match self.open.pop() {
            Some(answer) => answer,
            None => Inputs {
                waiting: 1,
                busy: 0,
            },
        };
        self.asked = answer.waiting > 0 || self.asked;
        self.said = Said::Inputs(answer);
        answer
    }

    fn answer(&mut self, line: &[u8]) -> Result<Heard, TakeFault> {
        self.asked = false;
        if let Ok(line) = Vec::from_slice(self.alloc, line) {
            let _ = self.lines.push(Bytes::from_vec(line));
        }
        self.said = Said::Answer(Ok(Heard::Skipped));
        Ok(Heard::Skipped)
    }

    fn halt(&mut self) {
        self.said = Said::Halt;
    }
}

fn gate(alloc: Global, room: usize) -> ListGate {
    ListGate {
        alloc,
        events: Vec::new(alloc),
        room,
        refusal: Err(TakeFault::Stopped),
        claims: Vec::new(alloc),
        open: Vec::new(alloc),
        lines: Vec::new(alloc),
        asked: false,
        said: Said::Nothing,
    }
}

fn order(alloc: Global, kept_log: u64, keep_out: bool) -> Order {
    Order {
        task: 2,
        executor: 0,
        workspace: Bytes::new(alloc),
        folder: Bytes::new(alloc),
        env: Pairs::new(alloc),
        script: Bytes::new(alloc),
        keep_out,
        kept_log,
        kept_out: 0,
    }
}

fn host(
    alloc: Global,
    fail_at: &[u64],
    outcomes: Vec<TaskOutcome>,
) -> Result<MemoryHost, AllocError> {
    let failing = Numbers::from_vec(Vec::from_slice(alloc, fail_at)?);
    Ok(MemoryHost::new(alloc, failing, TaskOutcomes::from_vec(outcomes)))
}

// A host whose task 2 writes so many bytes to its log, and two to its output, and ends with code 7.
fn writing_host(alloc: Global, bytes: usize) -> Result<MemoryHost, AllocError> {
    let mut outcomes = Vec::new(alloc);
    outcomes.push(TaskOutcome {
        task: 2,
        log: Bytes::from_vec(vec![in alloc; b'x'; bytes]?),
        out: Bytes::from_slice(alloc, b"ab")?,
        running: 0,
        code: 7,
    })?;
    host(alloc, &[], outcomes)
}

// Where an output of stream `Log` begins, and how many bytes it has.
fn output_of(event: &Event) -> Option<(u64, usize)> {
    match event {
        Event::Output {
            task: 2,
            stream: EventStream::Log,
            from,
            bytes,
        } => Some((*from, bytes.len())),
        _ => None,
    }
}

#[test]
fn a_task_that_did_not_start_or_tells_nothing_is_lost(rt: HostRuntime) -> Result<(), Fail> {
    let alloc = rt.alloc();
    // which call fails, whether the folder is there and the task launched, why it is lost, the calls, the launches
    let table = [
        (2_u64, false, false, Why::NotStarted, 2_usize, 0_usize),
        (9, true, false, Why::NotStarted, 4, 0),
        (99, true, true, Why::Gone, 17, 1),
    ];
    for (fails, made, launched, why, calls, launches) in table {
        let mut gate = gate(alloc, 1);
        let mut host = host(alloc, &[fails], Vec::new(alloc))?;
        let order = order(alloc, 0, false);
        if made {
            let _ = host.make_dir(&order);
        }
        if launched {
            let _ = host.start(&order);
        }
        assert_eq!(rt; serve(&rt, &mut gate, &mut host, order, 5), Served::Done);
        assert!(rt; gate.events.as_slice() == [Event::Lost { task: 2, why }].as_slice());
        assert_eq!(rt; host.calls().map(|calls| calls.len()), Some(calls));
        assert_eq!(rt; host.launches().len(), launches);
    }
    Ok(())
}

#[test]
fn long_output_goes_on_after_a_stop_where_it_was_kept(rt: HostRuntime) -> Result<(), Fail> {
    let alloc = rt.alloc();
    let mut host = writing_host(alloc, 300_000)?;
    let mut stopped = gate(alloc, 2);
    assert_eq!(rt;
        serve(&rt, &mut stopped, &mut host, order(alloc, 0, false), 5),
        Served::Stopped
    );
    let mut resumed = gate(alloc, 9);
    assert_eq!(rt;
        serve(
            &rt,
            &mut resumed,
            &mut host,
            order(alloc, 131_072, false),
            5
        ),
        Served::Done
    );
    let want = [
        Some((0, 65_536)),
        Some((65_536, 65_536)),
        Some((131_072, 65_536)),
        Some((196_608, 65_536)),
        Some((262_144, 37_856)),
        None,
    ];
    let all = stopped.events.iter().chain(resumed.events.iter());
    assert!(rt; all.map(output_of).eq(want));
    assert_eq!(rt;
        resumed.events.last(),
        Some(&Event::Exited { task: 2, code: 7 })
    );
    assert_eq!(rt; host.launches(), [2].as_slice());
    assert!(rt; host.dirs().is_empty());
    Ok(())
}

#[test]
fn an_executor_serves_pauses_while_others_work_and_rests(rt: HostRuntime) -> Result<(), Fail> {
    let alloc = rt.alloc();
    let mut gate = gate(alloc, 9);
    gate.claims.push(Claim::Idle { busy: 1 })?;
    gate.claims.push(Claim::Order(order(alloc, 0, true)))?;
    let mut member: Member<MemoryHost, MemorySource> = Member::Executor {
        number: 0,
        host: writing_host(alloc, 3)?,
    };
    assert_eq!(rt; work(&rt, &mut gate, &mut member, 5), Worked::Rest);
    // the log, the output, the exit
    assert_eq!(rt; gate.events.len(), 3);
    let Member::Executor { number: _, host } = &member else {
        return Err(Fail::from("no executor"));
    };
    // `make_dir`, `start`, a look, two reads of each stream, `remove`, a pause where others are at work, and seven where nobody is
    assert_eq!(rt; host.calls().map(|calls| calls.len()), Some(16));
    Ok(())
}

#[test]
fn what_a_refused_report_does_to_a_serve(rt: HostRuntime) -> Result<(), Fail> {
    let alloc = rt.alloc();
    let full = TakeFault::Full { len: 9, add: 9 };
    let table = [
        (Ok(Taken::NotOpen), Served::Finished),
        (Ok(Taken::WrongPlace { kept: 1 }), Served::Finished),
        (Ok(Taken::Finished), Served::Finished),
        (Err(TakeFault::Disk), Served::Stopped),
        (Err(full), Served::Stopped),
        (Err(TakeFault::Memory), Served::Memory),
    ];
    for (refusal, served) in table {
        // the log is accepted, and the exit refused
        let mut gate = gate(alloc, 1);
        gate.refusal = refusal;
        let mut host = writing_host(alloc, 3)?;
        assert_eq!(rt;
            serve(&rt, &mut gate, &mut host, order(alloc, 0, false), 5),
            served
        );
        assert_eq!(rt; host.dirs(), [2].as_slice());
    }
    Ok(())
}

#[test]
fn an_executor_ends_as_its_claim_says(rt: HostRuntime) -> Result<(), Fail> {
    let alloc = rt.alloc();
    for (stopped, worked) in [(true, Worked::Stopped), (false, Worked::Memory)] {
        let mut gate = gate(alloc, 0);
        gate.claims.push(if stopped {
            Claim::Stopped
        } else {
            Claim::Memory
        })?;
        let mut member: Member<MemoryHost, MemorySource> = Member::Executor {
            number: 0,
            host: writing_host(alloc, 3)?,
        };
        assert_eq!(rt; work(&rt, &mut gate, &mut member, 5), worked);
        assert!(rt; (gate.said == Said::Halt) == !stopped);
    }
    Ok(())
}

fn operator(
    alloc: Global,
    bytes: Vec<u8>,
    fail_at: &[u64],
) -> Result<Member<MemoryHost, MemorySource>, AllocError> {
    Ok(Member::Operator {
        answers: MemorySource::new(bytes, Vec::from_slice(alloc, fail_at)?),
        line: Bytes::new(alloc),
        ended: false,
        failed: false,
    })
}

#[test]
fn the_operator_gives_whole_lines_and_passes_over_long_ones(rt: HostRuntime) -> Result<(), Fail> {
    let alloc = rt.alloc();
    let mut bytes = Vec::from_slice(alloc, b"proceed 1 by ann\r\n\n")?;
    for (count, end) in [
        (1024_usize, b"\r\n".as_slice()),
        (1025, b"\n".as_slice()),
        (4, b"".as_slice()),
    ] {
        bytes.extend_from_slice(vec![in alloc; b'x'; count]?.as_slice())?;
        bytes.extend_from_slice(end)?;
    }
    let mut gate = gate(alloc, 0);
    let mut member = operator(alloc, bytes, &[])?;
    assert_eq!(rt; work(&rt, &mut gate, &mut member, 5), Worked::Rest);
    let sizes = [16, 0, 1024, 4];
    assert!(rt; gate.lines.iter().map(|line| line.len()).eq(sizes));
    Ok(())
}

#[test]
fn the_operator_reads_nothing_while_no_input_is_open(rt: HostRuntime) -> Result<(), Fail> {
    let alloc = rt.alloc();
    let mut gate = gate(alloc, 0);
    for busy in [0, 0, 0, 0, 0, 0, 0, 0, 1] {
        gate.open.push(Inputs { waiting: 0, busy })?;
    }
    let mut member = operator(alloc, Vec::from_slice(alloc, b"abort 2 by bob\n")?, &[1])?;
    // it sleeps while another is at work and seven times behind that, and rests where nobody is
    assert_eq!(rt; work(&rt, &mut gate, &mut member, 5), Worked::Rest);
    assert!(rt; gate.open.is_empty());
    assert_eq!(rt; work(&rt, &mut gate, &mut member, 5), Worked::AnswersFailed);
    Ok(())
}

#[test]
fn answers_that_fail_lose_no_byte(rt: HostRuntime) -> Result<(), Fail> {
    let alloc = rt.alloc();
    let mut gate = gate(alloc, 0);
    let mut member = operator(alloc, Vec::from_slice(alloc, b"abort 2 by bob\n")?, &[4])?;
    assert_eq!(rt; work(&rt, &mut gate, &mut member, 5), Worked::AnswersFailed);
    assert!(rt; gate.lines.is_empty());
    assert_eq!(rt; work(&rt, &mut gate, &mut member, 5), Worked::Rest);
    assert!(rt; gate.lines.iter().map(|line| line.len()).eq([14]));
    Ok(())
}

#[test]
fn an_answer_line_names_an_input_and_who_answers(rt: HostRuntime) -> Result<(), Fail> {
    let lines = [
        (
            b"proceed 1 by ann".as_slice(),
            Some((true, b"1".as_slice(), b"ann".as_slice())),
        ),
        (
            b"abort go? by bob  by x".as_slice(),
            Some((false, b"go?".as_slice(), b"bob  by x".as_slice())),
        ),
        (b"".as_slice(), None),
        (b"Proceed 1 by ann".as_slice(), None),
        (b"proceed  by ann".as_slice(), None),
        (b"proceed 1 2 by ann".as_slice(), None),
        (b"proceed 1\tby ann".as_slice(), None),
        (b"proceed 1 by ".as_slice(), None),
        (b"proceed 1 by \xff".as_slice(), None),
    ];
    for (line, want) in lines {
        let found = answer_of(line).map(|answer| (answer.proceed, answer.id, answer.name));
        assert!(rt; found == want);
    }
    Ok(())
}

#[test]
fn a_fault_has_a_text(rt: HostRuntime) -> Result<(), Fail> {
    let full = TakeFault::Full {
        len: 1_073_741_815,
        add: 10,
    };
    let texts = [
        (TakeFault::Memory, "out of memory"),
        (TakeFault::Disk, "the disk failed"),
        (full, "the journal is full: 1073741815 bytes and 10 more"),
        (TakeFault::Stopped, "the build is stopped"),
    ];
    for (fault, want) in texts {
        let text = format!(in rt.alloc(); "{fault}")?;
        assert_eq!(rt; text.as_str(), want);
    }
    Ok(())
}
