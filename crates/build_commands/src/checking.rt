//! The command that looks for faults.
ghost use Rattle.std.specs.Prelude.{◌+◌};
ghost use Rattle.jp_io.specs.Whole.{TakesAtMost};
ghost use Rattle.build_commands.specs.Files.{script_limit, agents_limit};
ghost use Rattle.build_commands.specs.Inputs.{taken_from};
ghost use Rattle.build_commands.specs.Checking.{Checks};

use crate::plan::read_plan;
use crate::refusal::{tell, tell_text};
use jp_io::{Sink, Source};
use std::alloc::Global;

/// Looks for faults of a script and an agents file, and answers the exit status.
///
/// | status | comes | text |
/// |---|---|---|
/// | 6 | only where a source counted a fault | `controller: read failed` |
/// | 13 | exactly where the agents file has a fault | its path and kind |
/// | 4 | exactly where the script has a fault or is too long | the place of its first fault |
/// | 7 | only where the sink counted a fault | a part of `ok` and its newline |
/// | 0 | else | `ok` |
/// | 8 | want of memory | `controller: out of memory` |
pub fn check<S: Source, K: Sink>(alloc: Global, script: &mut S, agents: &mut S, out: &mut K) -> u8
    ensures checks { Checks (taken_from S.Source script.old script.new) (taken_from S.Source agents.old agents.new) (K.written out.old) (K.written out.new) (K.faults out.old) (K.faults out.new) result }
    ensures most_script { TakesAtMost (script_limit + 1) (S.left script.old) (S.left script.new) }
    ensures most_agents { TakesAtMost (agents_limit + 1) (S.left agents.old) (S.left agents.new) }
{
    match read_plan(alloc, script, agents) {
        Ok(_) => tell_text(out, b"ok\n", 0),
        Err(refusal) => tell(out, &refusal),
    }
}
