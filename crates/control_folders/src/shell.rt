//! What the shell of a task runs.

ghost use Rattle.std.specs.Prelude.{◌≡◌, IfOk, string_bytes};
ghost use Rattle.control_folders.specs.ShellText.{shell_text, takes_permit, leaves_machine, leaves_process, enters_folder, names_interpreter, runs_script, streams, leaves_result};

use std::alloc::{AllocError, Global};
use task_host::Order;

/// Where a task is started.
#[derive(Clone, Copy, Debug, PartialEq, Eq)]
pub enum Place {
    /// By the controller, on its machine.
    Here,
    /// By a program of its agent, on any machine.
    Elsewhere,
}

/// What the shell of the order's task runs: it takes the permit, runs the script, and leaves the exit code in a file that has
/// its name once all of it was written. `AllocError` where the memory was refused.
pub fn shell_text(alloc: Global, order: &Order, place: Place) -> Result<String, AllocError>
    ensures { IfOk result (λ text. string_bytes text ≡ shell_text place order.now.script order.now.keep_out) }
{
    let permit = permit_words();
    let machine = machine_words(place);
    let process = process_words();
    let folder = folder_words(place);
    let script = script_words(order.script.as_slice());
    let streams = stream_words(order.keep_out);
    let ending = result_words();
    format!(in alloc; "{permit}{machine}{process}( {folder}{script} ) {streams}{ending}")
}

// The permit is taken in one step, before anything else.
fn permit_words() -> &'static str
    ensures { result.now ≡ takes_permit }
{
    r#""$1" "$0/permit" "$0/started" || exit; "#
}

// A process elsewhere leaves the name of its machine, before its number can be taken for one of this machine.
fn machine_words(place: Place) -> &'static str
    ensures { result.now ≡ leaves_machine place }
{
    match place {
        Place::Here => "",
        Place::Elsewhere => {
            r#"read -r controller_process < /proc/sys/kernel/hostname; echo "$controller_process" > "$0/machine"; "#
        }
    }
}

// The process leaves its number and when it began.
fn process_words() -> &'static str
    ensures { result.now ≡ leaves_process }
{
    r#"read -r controller_process < /proc/$$/stat; echo "$controller_process" > "$0/process"; "#
}

// A process elsewhere is started in any folder.
fn folder_words(place: Place) -> &'static str
    ensures { result.now ≡ enters_folder place }
{
    match place {
        Place::Here => "",
        Place::Elsewhere => r#"cd "$3" || exit; "#,
    }
}

// A script that names its interpreter is run by it, any other by the shell.
fn script_words(script: &[u8]) -> &'static str
    ensures { result.now ≡ runs_script (names_interpreter script.now) }
{
    if script.starts_with(b"#!") {
        r#"chmod 700 "$0/script.sh"; exec "$0/script.sh""#
    } else {
        r#"exec "$2" -xe "$0/script.sh""#
    }
}

// Where the output goes.
fn stream_words(keeps_out: bool) -> &'static str
    ensures { result.now ≡ streams keeps_out }
{
    if keeps_out {
        r#"> "$0/output.txt" 2> "$0/jenkins-log.txt""#
    } else {
        r#"> "$0/jenkins-log.txt" 2>&1"#
    }
}

// The script's process leaves its number, and then its exit code.
fn result_words() -> &'static str
    ensures { result.now ≡ leaves_result }
{
    r#" & echo $! > "$0/pid"; wait $!; echo $? > "$0/jenkins-result.tmp"; "$1" "$0/jenkins-result.tmp" "$0/jenkins-result.txt""#
}
