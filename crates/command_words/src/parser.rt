//! The words of a command, read by `clap`.
ghost use Rattle.std.specs.Prelude.{◌≡◌, IfOk, MatchOption, map, string_bytes};
ghost use Rattle.clap.specs.Words.{app_of};
ghost use Rattle.command_words.specs.Parser.{parser_app, with_part};
ghost use Rattle.command_words.specs.Words.{Gives, IsCommand};

use crate::command::Command;
use crate::words::{command_given, command_in};
use clap::Arg;
use clap::error::ErrorKind;
use std::alloc::{AllocError, Global};

/// The command that these words give, with the word behind it, as `clap` reads them, and `None` where they are no command.
///
/// Which words are a command [`command_in`] says.
///
/// # Errors
///
/// Where memory is refused to `clap`.
pub fn read_command<'a>(
    alloc: Global,
    words: &'a [String],
) -> Result<Option<(Command, &'a str)>, AllocError>
    ensures { IfOk result (λ read. MatchOption read (¬ (IsCommand (map string_bytes words.now))) (λ found. Gives (map string_bytes words.now) found.0 found.1.now)) }
{
    if command_in(words).is_none() {
        return Ok(None);
    }
    let parser = parser(alloc)?;
    let matches = match parser.try_get_matches_from(words) {
        Ok(matches) => matches,
        Err(error) => match error.kind() {
            ErrorKind::OutOfMemory => return Err(AllocError),
            _ => unreachable!(),
        },
    };
    let Some((verb, rest)) = matches.subcommand() else {
        unreachable!()
    };
    let Some(operand) = rest.get_str("operand") else {
        unreachable!()
    };
    let Some(command) = command_given(verb, operand) else {
        unreachable!()
    };
    Ok(Some((command, operand)))
}

/// The commands, each with the one word behind it.
fn parser<'a>(alloc: Global) -> Result<clap::Command<'a>, AllocError>
    ensures { IfOk result (λ parser. app_of parser ≡ parser_app) }
{
    let parser = clap::Command::new(alloc, "controller");
    let parser = with_part(alloc, parser, "run")?;
    let parser = with_part(alloc, parser, "resume")?;
    let parser = with_part(alloc, parser, "log")?;
    let parser = with_part(alloc, parser, "graph")?;
    let parser = with_part(alloc, parser, "check")?;
    with_part(alloc, parser, "gen")
}

/// These commands and one more of this name, with one word behind it.
fn with_part<'a>(
    alloc: Global,
    parser: clap::Command<'a>,
    name: &'a str,
) -> Result<clap::Command<'a>, AllocError>
    ensures { IfOk result (λ more. app_of more ≡ with_part (app_of parser.entry) name.entry.now) }
{
    let operand = Arg::new(alloc, "operand").required(true);
    let part = clap::Command::new(alloc, name).arg(operand)?;
    parser.subcommand(part)
}
