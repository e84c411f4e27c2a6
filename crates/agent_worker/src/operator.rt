//! The operator: whoever answers the inputs of a build, by lines.

ghost use Rattle.std.specs.Prelude.{◌≡◌, ◌≢◌, ◌++◌, ◌∷◌, [], ℕ, List, length, true, MatchResult, MatchOption, OnOk, IfErr};
ghost use Rattle.std.specs.Io.KnownBytes.{Consumes, IsAtEnd, Keeps};
ghost use Rattle.device_faults.specs.Faults.{CountsFault, HasCause};
ghost use Rattle.agent_worker.specs.AnswerBytes.{short, NoNewline, read_bytes, without_cr, kept_line};
ghost use Rattle.agent_worker.specs.Gate.{GateTells};
ghost use Rattle.agent_worker.specs.Operating.{Ask, ReadLine, OperatesSoFar, GivesLine, Operates};

use crate::{Gate, Worked};
use device_faults::Failed;
use journal_core::TakeFault;
use jp_io::Source;
use model_text::Bytes;
use std::alloc::{AllocError, Global};
use std::sync::Wait;
use std::thread;
use std::time::{Clock, Duration};

/// How many bytes of a line are kept: a line of 1,024 bytes, a CR, and one that shows that it is longer.
const ROOM: usize = 1026;

/// The longest line that is given, in bytes.
const LONGEST: usize = 1024;

/// How many milliseconds the operator sleeps where no input is open and others are at work.
const PAUSE: u64 = 20;

/// How often the operator, where it has found others at work, sleeps and asks once more before it rests: whoever is at work has
/// no claim open for a moment between two tasks.
const LAST_ASKS: u32 = 7;

/// Where reading a line stopped.
#[derive(Clone, Copy, Debug, PartialEq, Eq)]
pub enum LineEnd {
    /// At a newline, which was read.
    Line,
    /// At the end of the answers.
    End,
    /// The source failed.
    Failed,
    /// There was no memory.
    Memory,
}

// Reads a byte, where there is one.
fn read_byte<A: Source>(answers: &mut A) -> Result<Option<u8>, Failed>
    ensures byte { MatchResult result (λ read. MatchOption read
        (IsAtEnd (A.left answers.new) × Consumes (A.left answers.old) (A.left answers.new) [])
        (λ b. Consumes (A.left answers.old) (A.left answers.new) (b ∷ [])))
        (λ failed. Keeps (A.left answers.old) (A.left answers.new)) }
    ensures cause { HasCause (A.faults answers.old) (A.faults answers.new) result }
{
    let mut byte = [0];
    let count = match answers.read(&mut byte) {
        Ok(count) => count,
        Err(failed) => return Err(failed),
    };
    if count == 0 {
        return Ok(None);
    }
    Ok(Some(byte[0]))
}

// Keeps a byte of a line, where it is not too long already.
fn put(line: &mut Bytes, byte: u8) -> Result<(), AllocError>
    ensures kept { OnOk result ((begun : List ℕ) → line.old ≡ short begun → line.new ≡ short (begun ++ byte ∷ [])) }
{
    if line.len() < ROOM {
        return line.push(byte);
    }
    Ok(())
}

/// Reads a line of the answers on, byte by byte, to its newline or to the end of the answers, and tells where reading it
/// stopped. `line` has what of the line came before. A line that is too long is read all the same, and no more of it is kept
/// than shows that it is ([`answer_in`]). It may wait for ever.
pub fn read_line<R: Wait, A: Source>(rt: &R, answers: &mut A, line: &mut Bytes) -> LineEnd
    ensures bytes { (bytes : List ℕ) × NoNewline bytes
        × Consumes (A.left answers.old) (A.left answers.new) (read_bytes result bytes)
        × ((begun : List ℕ) → line.old ≡ short begun → result ≢ LineEnd.Memory → line.new ≡ short (begun ++ bytes)) }
    ensures end { result ≡ LineEnd.End → IsAtEnd (A.left answers.new) }
    ensures cause { CountsFault (A.faults answers.old) (A.faults answers.new) (result ≡ LineEnd.Failed) }
{
    for _ in rt.forever() {
        match read_byte(answers) {
            Err(_) => return LineEnd::Failed,
            Ok(None) => return LineEnd::End,
            Ok(Some(byte)) => {
                if byte == b'\n' {
                    return LineEnd::Line;
                }
                match put(line, byte) {
                    Ok(()) => {}
                    Err(_) => return LineEnd::Memory,
                }
            }
        }
    }
    unreachable!()
}

/// The answer line in what is kept of a line: the line without a CR at its end. `None` comes exactly where it has more than
/// 1,024 bytes, and is passed over.
pub fn answer_in(line: &[u8]) -> Option<&[u8]>
    ensures { MatchOption result (kept_line line.now ≡ []) (λ answer. kept_line line.now ≡ answer.now ∷ []) }
{
    let answer = strip_cr(line);
    if answer.len() > LONGEST {
        return None;
    }
    Some(answer)
}

// The line without a CR at its end.
fn strip_cr(line: &[u8]) -> &[u8]
    ensures line { result.now ≡ without_cr line.now }
{
    let len = line.len();
    if len == 0 {
        return line;
    }
    if line[len - 1] == b'\r' {
        return &line[..len - 1];
    }
    line
}

// Gives a line to the gate, where it is not too long, and begins the next. Where the gate refused it the work ends.
fn give<G: Gate>(alloc: Global, gate: &mut G, line: &mut Bytes) -> Result<(), Worked>
    requires open { (G.tells gate.old).is_open ≡ true }
    ensures gives { (old : GateTells) (past : List Ask) → ReadLine past → OperatesSoFar old (G.tells gate.old) past
        → GivesLine old (G.tells gate.new) past line.old result }
    ensures next { line.new ≡ [] }
    ensures failed { IfErr result (λ ending. ending ≢ Worked.AnswersFailed) }
{
    let whole = std::mem::replace(line, Bytes::new(alloc));
    let Some(answer) = answer_in(whole.as_slice()) else {
        return Ok(());
    };
    match gate.answer(answer) {
        Ok(_) => Ok(()),
        Err(fault) => match fault {
            TakeFault::Memory => {
                gate.halt();
                Err(Worked::Memory)
            }
            _ => Err(Worked::Stopped),
        },
    }
}

/// The operator's work: while an input is open, it reads answer lines and gives them to the gate. Where none is open and
/// others are at work it sleeps; so it does some times behind that ([`LAST_ASKS`]).
pub(crate) fn work_operator<R: Wait + Clock + AllocGlobal, G: Gate, A: Source>(
    rt: &R,
    gate: &mut G,
    answers: &mut A,
    line: &mut Bytes,
    ended: &mut bool,
    failed: &mut bool,
) -> Worked
    ensures operates { Operates (G.tells gate.old) (G.tells gate.new) (A.left answers.old) (A.left answers.new)
        line.old line.new ended.old ended.new result }
    ensures cause { CountsFault (A.faults answers.old) (A.faults answers.new) (result ≡ Worked.AnswersFailed) }
    ensures failed { result ≡ Worked.AnswersFailed → failed.new ≡ true }
    ensures calm { result ≢ Worked.AnswersFailed → failed.new ≡ failed.old }
{
    if *ended {
        return Worked::Rest;
    }
    let mut left: u32 = 0;
    for _ in rt.forever() {
        let inputs = gate.inputs();
        if inputs.waiting == 0 {
            if inputs.busy == 0 {
                if left == 0 {
                    return Worked::Rest;
                }
                left -= 1;
            } else {
                left = LAST_ASKS;
            }
            thread::sleep(rt, Duration::from_millis(PAUSE));
        } else {
            match read_line(rt, answers, line) {
                LineEnd::Line => {
                    if let Err(worked) = give(rt.alloc(), gate, line) {
                        return worked;
                    }
                }
                LineEnd::End => {
                    *ended = true;
                    if line.is_empty() {
                        return Worked::Rest;
                    }
                    if let Err(worked) = give(rt.alloc(), gate, line) {
                        return worked;
                    }
                    return Worked::Rest;
                }
                LineEnd::Failed => {
                    *failed = true;
                    return Worked::AnswersFailed;
                }
                LineEnd::Memory => {
                    gate.halt();
                    return Worked::Memory;
                }
            }
        }
    }
    unreachable!()
}
