//! Which orders a host takes.

ghost use Rattle.std.specs.Prelude.{◌≡◌, ◌↔◌, true, IsOk};
ghost use Rattle.control_folders.specs.Control.{is_own_workspace};

use std::io;
use std::io::ErrorKind;
use task_host::Order;

/// Fails where the workspace is no folder of its own: a job named `.` or `..` has the folder of all workspaces, or the
/// agent's root.
///
/// # Errors
///
/// There.
pub fn check_workspace(order: &Order) -> io::Result<()>
    ensures own { IsOk result ↔ (is_own_workspace order.now.workspace ≡ true) }
{
    let workspace = order.workspace.as_slice();
    if workspace.ends_with(b"/.") || workspace.ends_with(b"/..") {
        return Err(io::Error::new(
            ErrorKind::InvalidFilename,
            "a job named . or .. has no workspace of its own",
        ));
    }
    Ok(())
}
