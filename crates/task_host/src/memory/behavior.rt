//! What the tasks of a host in memory do.

ghost use Rattle.std.specs.Prelude.{◌≡◌, ◌++◌, [], codes, decimal, find, nat_eq, position};
ghost use Rattle.std.specs.Option.{option_map_or};
ghost use Rattle.task_host.specs.Tasks.{outcome_of, text_of, LooksOnce, LooksAt};

use crate::{Look, Stream, TaskOutcome, TaskOutcomes};
use itoa::write_digits;
use std::marker::Model;

/// What the tasks of a host in memory do.
#[derive(Drop)]
pub enum Behavior {
    /// What these outcomes say.
    Listed(Outcomes),
    /// Each writes `out T` and a newline to the log, T its number, and has ended with code 0 at the first look.
    Echo,
}

/// Outcomes of tasks, each with the looks that are yet to say that its task is running.
#[derive(Drop)]
pub struct Outcomes {
    items: Vec<TaskOutcome>,
}

impl Model for Outcomes {
    ghost use Rattle.std.specs.Prelude.{List};
    ghost use Rattle.task_host.specs.declared.outcome.TaskOutcome.{TaskOutcome};

    ghost Value = { List TaskOutcome };

    ghost view = { λ outcomes. outcomes.items.items };
}

/// How long the line of a task that echoes may be: `out `, the digits of the largest number, and a newline.
pub const LONGEST_ECHO: usize = 15;

impl Behavior {
    /// Tasks that do what these outcomes say.
    pub fn listed(outcomes: TaskOutcomes) -> Behavior
        ensures { result ≡ Behavior.Listed outcomes }
    {
        Behavior::Listed(Outcomes {
            items: outcomes.into_vec(),
        })
    }

    /// A look at a task that was launched.
    pub fn look(&mut self, task: u32) -> Look
        ensures { LooksAt task self.old self.new result }
    {
        let Behavior::Listed(outcomes) = self else {
            return Look::Exited(0);
        };
        match place_of(&outcomes.items, task) {
            Some(place) => look_once(&mut outcomes.items[place]),
            None => Look::Running,
        }
    }

    /// What a task that was launched wrote to this stream. Where tasks echo it is written into `line`.
    pub fn output<'a>(
        &'a self,
        task: u32,
        stream: Stream,
        line: &'a mut [u8; LONGEST_ECHO],
    ) -> &'a [u8]
        ensures { result.now ≡ option_map_or (text_of stream) (outcome_of task self.now) [] }
    {
        match (self, stream) {
            (Behavior::Listed(outcomes), _) => listed_text(&outcomes.items, task, stream),
            (Behavior::Echo, Stream::Log) => echo(task, line),
            (Behavior::Echo, Stream::Out) => &[],
        }
    }
}

fn look_once(outcome: &mut TaskOutcome) -> Look
    ensures { LooksOnce outcome.old outcome.new result }
{
    if outcome.running > 0 {
        outcome.running -= 1;
        return Look::Running;
    }
    Look::Exited(outcome.code)
}

fn listed_text(outcomes: &[TaskOutcome], task: u32, stream: Stream) -> &[u8]
    ensures { result.now ≡ option_map_or (text_of stream) (find (λ o. nat_eq o.task task) outcomes.now) [] }
{
    match place_of(outcomes, task) {
        Some(place) => outcomes[place].text(stream),
        None => &[],
    }
}

// Where the first outcome of a task stands.
fn place_of(outcomes: &[TaskOutcome], task: u32) -> Option<usize>
    ensures { result ≡ position (λ o. nat_eq o.task task) outcomes.now }
{
    outcomes.iter().position(|outcome| outcome.task == task)
}

// Writes `out T` and a newline to the end of the line, T the number of the task.
fn echo(task: u32, line: &mut [u8; LONGEST_ECHO]) -> &[u8]
    ensures { result.now ≡ codes "out " ++ decimal task ++ codes "\n" }
{
    line[LONGEST_ECHO - 1] = b'\n';
    let digits = write_digits(u64::from(task), line, LONGEST_ECHO - 1);
    line[digits - 4..digits].copy_from_slice(b"out ");
    &line[digits - 4..]
}
