//! The exit status of a build.
ghost use Rattle.std.specs.Prelude.{◌≡◌};
ghost use Rattle.build_core.specs.Builds.{StandsFor};
ghost use Rattle.build_core.specs.Phases.{has_ended};
ghost use Rattle.model_run.specs.World.{Build as WorldBuild};
ghost use Rattle.build_commands.specs.Statuses.{HasLog, result_status, status_of, world_status};

use build_core::Build;
use model_run::BuildResult;
use script_thread::ScriptThread;

/// The exit status of a build that has ended, or waits.
pub fn build_status<R: ScriptThread + Drop>(build: &Build<R>) -> u8
    ensures here { result ≡ status_of (has_ended build.now.phase) build.now.shared.result }
    ensures log { HasLog result }
    ensures world { (w : WorldBuild) → StandsFor R.stance build.now w → result ≡ world_status w }
{
    if build.has_ended() {
        return result_status(build.result());
    }
    WAITS
}

/// The exit status of a build with this result.
fn result_status(ended: BuildResult) -> u8
    ensures { result ≡ result_status ended }
{
    match ended {
        BuildResult::Success => 0,
        BuildResult::Failure => 1,
        BuildResult::Unstable => 10,
        BuildResult::NotBuilt => 11,
        BuildResult::Aborted => 12,
    }
}

/// The status of a build that waits for what nobody answers.
const WAITS: u8 = 3;
