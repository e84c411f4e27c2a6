//! The process of a task.

ghost use Rattle.std.specs.Prelude.{◌≡◌, ◌++◌, ◌∷◌, [], ℕ, List, Some, IfOk, OnOk, string_bytes};
ghost use Rattle.std.specs.Process.{command_program, command_args, command_dir, command_var, clears_env, SameProgramAndArgs, SameDir, SameOtherVars};
ghost use Rattle.real_edge.specs.Process.{said_of, shell_words, RunsTask};
ghost use Rattle.real_edge.specs.Words.{words_behind};

use crate::programs::Programs;
use control_folders::{ControlFolder, Place, shell_text, text};
use std::alloc::Global;
use std::io;
use std::process::{Child, Command, Processes, Stdio};
use task_host::{Order, Pair};

/// Starts the task's process in the task's folder, with the order's environment, and does not wait for it.
///
/// The process gets no standard stream of this one: whoever reads the controller's output must not wait for a task. It
/// is put in a session of its own by the program `setsid`, where the system has it, so that an interrupt of the
/// controller leaves the task running. Where that cannot be started, the shell is started directly.
///
/// # Errors
///
/// Where the process was not started, or there is no memory.
pub fn spawn<R: Processes>(
    processes: &R,
    alloc: Global,
    programs: &Programs,
    order: &Order,
    control: &ControlFolder,
) -> io::Result<Child<R::Started>> {
    if let Some(setsid) = &programs.setsid {
        let mut detached = detached_command(alloc, setsid.as_str(), programs, order, control)?;
        if let Ok(child) = start(processes, &mut detached) {
            return Ok(child);
        }
    }
    let mut attached = attached_command(alloc, programs, order, control)?;
    start(processes, &mut attached)
}

// Starts the command without a standard stream of this process.
fn start<R: Processes>(processes: &R, command: &mut Command) -> io::Result<Child<R::Started>> {
    command.stdin(Stdio::null());
    command.stdout(Stdio::null());
    command.stderr(Stdio::null());
    command.spawn(processes)
}

// The shell, by the program that puts it in a session of its own.
fn detached_command(
    alloc: Global,
    setsid: &str,
    programs: &Programs,
    order: &Order,
    control: &ControlFolder,
) -> io::Result<Command>
    ensures runs { IfOk result (RunsTask setsid.now (string_bytes programs.now.shell ∷ []) order.now (words_behind programs.now control.now)) }
{
    let mut command = Command::new(alloc, setsid)?;
    command.arg(programs.shell.as_str())?;
    say_order(alloc, &mut command, programs, order, control)?;
    Ok(command)
}

// The shell.
fn attached_command(
    alloc: Global,
    programs: &Programs,
    order: &Order,
    control: &ControlFolder,
) -> io::Result<Command>
    ensures runs { IfOk result (RunsTask (string_bytes programs.now.shell) [] order.now (words_behind programs.now control.now)) }
{
    let mut command = Command::new(alloc, programs.shell.as_str())?;
    say_order(alloc, &mut command, programs, order, control)?;
    Ok(command)
}

// Gives the shell its words, its folder and its variables.
fn say_order(
    alloc: Global,
    command: &mut Command,
    programs: &Programs,
    order: &Order,
    control: &ControlFolder,
) -> io::Result<()>
    ensures program { OnOk result (command_program command.new ≡ command_program command.old) }
    ensures words { OnOk result (command_args command.new ≡ command_args command.old ++ shell_words order.now (words_behind programs.now control.now)) }
    ensures folder { OnOk result (command_dir command.new ≡ Some order.now.folder) }
    ensures inherits { OnOk result (clears_env command.new ≡ clears_env command.old) }
    ensures variables { OnOk result ((name : List ℕ) → command_var command.new name ≡ said_of name (command_var command.old name) order.now.env) }
{
    say_words(alloc, command, programs, order, control)?;
    command.current_dir(text(order.folder.as_slice())?)?;
    set_variables(command, order.env.as_slice())
}

// Gives the shell its words.
fn say_words(
    alloc: Global,
    command: &mut Command,
    programs: &Programs,
    order: &Order,
    control: &ControlFolder,
) -> io::Result<()>
    ensures program { OnOk result (command_program command.new ≡ command_program command.old) }
    ensures words { OnOk result (command_args command.new ≡ command_args command.old ++ shell_words order.now (words_behind programs.now control.now)) }
    ensures folder { OnOk result (SameDir command.old command.new) }
    ensures inherits { OnOk result (clears_env command.new ≡ clears_env command.old) }
    ensures variables { OnOk result ((name : List ℕ) → command_var command.new name ≡ command_var command.old name) }
{
    say_text(alloc, command, order)?;
    say_behind(command, programs, control)?;
    Ok(())
}

// Gives the shell the text that it runs.
fn say_text(alloc: Global, command: &mut Command, order: &Order) -> io::Result<()>
    ensures program { OnOk result (command_program command.new ≡ command_program command.old) }
    ensures words { OnOk result (command_args command.new ≡ command_args command.old ++ shell_words order.now []) }
    ensures folder { OnOk result (SameDir command.old command.new) }
    ensures inherits { OnOk result (clears_env command.new ≡ clears_env command.old) }
    ensures variables { OnOk result ((name : List ℕ) → command_var command.new name ≡ command_var command.old name) }
{
    command.arg("-c")?;
    command.arg(shell_text(alloc, order, Place::Here)?)?;
    Ok(())
}

// Gives the shell the words behind its text.
fn say_behind(command: &mut Command, programs: &Programs, control: &ControlFolder) -> io::Result<()>
    ensures program { OnOk result (command_program command.new ≡ command_program command.old) }
    ensures words { OnOk result (command_args command.new ≡ command_args command.old ++ words_behind programs.now control.now) }
    ensures folder { OnOk result (SameDir command.old command.new) }
    ensures inherits { OnOk result (clears_env command.new ≡ clears_env command.old) }
    ensures variables { OnOk result ((name : List ℕ) → command_var command.new name ≡ command_var command.old name) }
{
    command.arg(control.path.as_str())?;
    command.arg(programs.mover.as_str())?;
    command.arg(programs.shell.as_str())?;
    Ok(())
}

// Sets variables, in their order.
fn set_variables(command: &mut Command, variables: &[Pair]) -> io::Result<()>
    ensures call { OnOk result (SameProgramAndArgs command.old command.new) }
    ensures folder { OnOk result (SameDir command.old command.new) }
    ensures inherits { OnOk result (clears_env command.new ≡ clears_env command.old) }
    ensures variables { OnOk result ((name : List ℕ) → command_var command.new name ≡ said_of name (command_var command.old name) variables.now) }
{
    for variable in variables {
        set_variable(command, variable)?;
    }
    Ok(())
}

fn set_variable(command: &mut Command, variable: &Pair) -> io::Result<()>
    ensures call { OnOk result (SameProgramAndArgs command.old command.new) }
    ensures folder { OnOk result (SameDir command.old command.new) }
    ensures inherits { OnOk result (clears_env command.new ≡ clears_env command.old) }
    ensures set { OnOk result (command_var command.new variable.now.name ≡ Some (Some variable.now.value)) }
    ensures others { OnOk result (SameOtherVars command.old command.new variable.now.name) }
{
    let name = text(variable.name.as_slice())?;
    let value = text(variable.value.as_slice())?;
    command.env(name, value)?;
    Ok(())
}
