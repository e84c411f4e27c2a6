//! The words of a command.
ghost use Rattle.std.specs.Prelude.{◌↔◌, ℕ, map, string_bytes, IsTrue, MatchOption};
ghost use Rattle.command_words.specs.Words.{Gives, IsCommand, IsFolder, IsGiven, IsStages};

use crate::command::Command;
use itoa::Buffer;

/// The command that these words give, with the word behind it, and `None` where they are no command.
///
/// The words are a command exactly where there are three of them, and the second is `run`, `resume`, `log`, `graph` or `check` with a
/// third, the folder, that is not empty and does not begin with `-`; or the second is `gen`, and the third is a number of stages from 1
/// to 2000, in decimal and without a leading zero. The first word is the program's name.
pub fn command_in(words: &[String]) -> Option<(Command, &str)>
    ensures { MatchOption result (¬ (IsCommand (map string_bytes words.now))) (λ found. Gives (map string_bytes words.now) found.0 found.1.now) }
{
    let [_, verb, operand] = words else {
        return None;
    };
    let operand = operand.as_str();
    let command = command_given(verb.as_str(), operand)?;
    Some((command, operand))
}

/// The command that has this word, where the other can stand behind it.
pub(crate) fn command_given(verb: &str, operand: &str) -> Option<Command>
    ensures { MatchOption result ((command : Command) → ¬ (IsGiven verb.now operand.now command)) (λ command. IsGiven verb.now operand.now command) }
{
    if verb == "gen" {
        let stages = number_of_stages(operand)?;
        return Some(Command::Generate(stages));
    }
    if is_folder(operand) {
        Command::over_folder(verb)
    } else {
        None
    }
}

/// Whether the word can name a folder.
fn is_folder(word: &str) -> bool
    ensures { IsTrue result ↔ IsFolder word.now }
{
    match word.as_bytes() {
        [first, ..] => *first != b'-',
        [] => false,
    }
}

/// The most stages that `gen` makes.
const MOST_STAGES: u32 = 2000;

/// The number of stages that this word is, and `None` exactly where it is none.
fn number_of_stages(word: &str) -> Option<u32>
    ensures { MatchOption result ((stages : ℕ) → ¬ (IsStages word.now stages)) (λ stages. IsStages word.now stages) }
{
    match word.parse::<u32>() {
        Ok(stages) => {
            if is_stages(word, stages) {
                Some(stages)
            } else {
                None
            }
        }
        Err(_) => None,
    }
}

/// Whether the word is this number of stages.
fn is_stages(word: &str, stages: u32) -> bool
    ensures { IsTrue result ↔ IsStages word.now stages }
{
    0 < stages && stages <= MOST_STAGES && Buffer::new().format(stages) == word
}
