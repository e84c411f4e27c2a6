//! The commands by their names.
ghost use Rattle.std.specs.Prelude.{◌≡◌, ◌≢◌, MatchOption};
ghost use Rattle.command_words.specs.Words.{IsOverFolder, word_of};

/// What the program can be asked for.
#[derive(Clone, Copy, Debug, PartialEq, Eq)]
pub enum Command {
    /// Begins the build of a script, and writes its log.
    Run,
    /// Goes on with the build of a store, and writes its log.
    Resume,
    /// Writes the log of the build of a store.
    Log,
    /// Writes the flow graph of the build of a store.
    Graph,
    /// Looks for faults of a script and its agents file.
    Check,
    /// Begins the build of a script that it makes, of this number of stages, and writes its numbers.
    Generate(u32),
}

impl Command {
    /// The word of the command line that gives it.
    pub fn name(self) -> &'static str
        ensures { result.now ≡ word_of self }
    {
        match self {
            Command::Run => "run",
            Command::Resume => "resume",
            Command::Log => "log",
            Command::Graph => "graph",
            Command::Check => "check",
            Command::Generate(_) => "gen",
        }
    }

    /// The command over a folder that this word gives, and `None` exactly where none has it.
    pub(crate) fn over_folder(word: &str) -> Option<Command>
        ensures { MatchOption result ((command : Command) → IsOverFolder command → word_of command ≢ word.now)
            (λ command. IsOverFolder command × (word_of command ≡ word.now)) }
    {
        match word {
            "run" => Some(Command::Run),
            "resume" => Some(Command::Resume),
            "log" => Some(Command::Log),
            "graph" => Some(Command::Graph),
            "check" => Some(Command::Check),
            _ => None,
        }
    }
}
