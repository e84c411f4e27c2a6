//! The processes of tasks, until they have been asked for their end.

ghost use Rattle.std.specs.Prelude.{◌≡◌, ◌≤◌, ◌<◌, ◌++◌, ◌∷◌, ◌↔◌, [], suc, None, Ok, OnOk, IsTrue, All, vec_len, vec_capacity};
ghost use Rattle.std.specs.Process.{child_status};

use std::alloc::{AllocError, Global};
use std::process::{Child, ExitStatus, OpenProcess};
use std::time::{Clock, Duration};
use std::{io, thread};

/// The processes of tasks that were started and not yet reaped. A process that has ended stays in the system's table
/// until it is reaped: until its parent asks for its end.
#[derive(Drop)]
pub struct Children<P: OpenProcess> {
    unreaped: Vec<Child<P>>,
}

impl<P: OpenProcess> Children<P> {
    /// No process was started.
    pub fn new(alloc: Global) -> Self
        ensures { result.unreaped.items ≡ [] }
    {
        Children {
            unreaped: Vec::new(alloc),
        }
    }

    /// Makes room for one more process.
    ///
    /// # Errors
    ///
    /// Where there is no memory. Nothing changes but the room.
    pub fn reserve(&mut self) -> Result<(), AllocError>
        ensures room { OnOk result (vec_len self.new.unreaped < vec_capacity self.new.unreaped) }
        ensures same { self.new.unreaped.items ≡ self.old.unreaped.items }
        ensures count { vec_len self.new.unreaped ≡ vec_len self.old.unreaped }
    {
        self.unreaped.reserve(1)
    }
}

impl<P: OpenProcess + Drop> Children<P> {
    /// Keeps a process that was started. There is room for it.
    pub fn keep(&mut self, child: Child<P>)
        requires { vec_len self.old.unreaped < vec_capacity self.old.unreaped }
        ensures kept { self.new.unreaped.items ≡ self.old.unreaped.items ++ child ∷ [] }
        ensures count { vec_len self.new.unreaped ≡ suc (vec_len self.old.unreaped) }
    {
        let _ = self.unreaped.push(child);
    }

    /// Whether the process of this number is kept: it was not found to have ended.
    pub fn contains(&self, number: u32) -> bool {
        self.unreaped.iter().any(|child| child.id() == number)
    }

    /// Reaps each process that has ended, and waits for none. Each that stays was asked for its end, and had none.
    pub fn reap(&mut self)
        ensures asked { All (λ child. child_status child ≡ None) self.new.unreaped.items }
        ensures fewer { vec_len self.new.unreaped ≤ vec_len self.old.unreaped }
    {
        self.unreaped
            .retain_mut(|child| is_running(child.try_wait()));
    }

    /// Reaps processes that have only to exit, and waits at most ten milliseconds for them.
    pub fn reap_soon(&mut self, clock: &impl Clock)
        ensures fewer { vec_len self.new.unreaped ≤ vec_len self.old.unreaped }
    {
        for _ in 0..10 {
            self.reap();
            if self.unreaped.is_empty() {
                break;
            }
            thread::sleep(clock, Duration::from_millis(1));
        }
    }
}

// Whether a process that was asked for its end runs on. Where the system has no answer it has no such process.
fn is_running(answer: io::Result<Option<ExitStatus>>) -> bool
    ensures running { IsTrue result ↔ (answer ≡ Ok None) }
{
    matches!(answer, Ok(None))
}

#[cfg(test)]
mod tests {
    use super::*;
    use std::process::{Command, SystemProcess};
    use std::test::Fail;

    // A process that sleeps so long.
    fn sleeper(rt: &HostRuntime, seconds: &str) -> std::io::Result<Child> {
        Command::new(rt.alloc(), "sleep")?.arg(seconds)?.spawn(rt)
    }

    // The processes of two tasks, of which one ends at once.
    fn two_sleepers(rt: &HostRuntime) -> std::io::Result<Children<SystemProcess>> {
        let mut children = Children::new(rt.alloc());
        for seconds in ["0.3", "0"] {
            children.reserve()?;
            children.keep(sleeper(rt, seconds)?);
        }
        Ok(children)
    }

    #[test]
    fn a_process_is_kept_until_it_has_ended(rt: HostRuntime) -> Result<(), Fail> {
        let mut children = two_sleepers(&rt)?;
        thread::sleep(&rt, Duration::from_millis(100));
        children.reap();
        let sleeping = children.unreaped.len();
        thread::sleep(&rt, Duration::from_millis(500));
        children.reap_soon(&rt);
        assert_eq!(rt; [sleeping, children.unreaped.len()], [1, 0]);
        Ok(())
    }
}
