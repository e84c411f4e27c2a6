//! A host: what an executor's tasks run on.

ghost use Rattle.std.specs.Prelude.{◌≡◌, ◌≤◌, ◌↔◌, ◌≢◌, ℕ, ℤ, List, [], ◌∷◌, ◌++◌, length, Option, IfOk, IsErr, Contains};
ghost use Rattle.device_faults.specs.Faults.{CountsFault};
ghost use Rattle.task_host.specs.Host.{MakesFolder, RemovesFolder, LaunchesAtMost, Launches, TellsState, Stays, GoesOn, IsIdle, Reads, HasRead, Records, bytes_read};
ghost use Rattle.task_host.specs.declared.call.Call.{Call};
ghost use Rattle.task_host.specs.declared.order.Stream.{Stream};

use crate::{Call, Failed, Look, Made, Order, Started, Stream};

/// What an executor's tasks run on.
///
/// Clauses on folders, launches and output are promises of an honest host. That a call adds at most its own task to the
/// launches, and only a `start` does, that a failed call counted a fault, and that the list of calls gets each call,
/// holds for every host.
pub trait Host {
    /// Whether the host does what the clauses on folders, launches and output say.
    ghost honest: { Self → Type 0 };

    /// The tasks whose folders were made and not removed.
    ghost dirs: { Self → List ℕ };

    /// The tasks that were launched, in order, each as often as it was.
    ghost launches: { Self → List ℕ };

    /// What a task has written to a stream.
    ghost output: { Self → ℕ → Stream → List ℕ };

    /// The code of a task that has ended, where the host has let it be known. From then on its output stays.
    ghost exited: { Self → ℕ → Option ℤ };

    /// The calls with their arguments and answers, where the host tells them.
    ghost calls: { Self → Option (List Call) };

    /// How often the host has failed. It stands still at 2^64 - 1.
    ghost faults: { Self → ℕ };

    /// Makes the task's folder, only where it is not there, and writes the script in it.
    fn make_dir(&mut self, order: &Order) -> Made
        ensures folder { honest self.old → MakesFolder order.now.task (dirs self.old) (dirs self.new) result }
        ensures launches { launches self.new ≡ launches self.old }
        ensures output { honest self.old → Stays (exited self.old) (exited self.new) (output self.old) (output self.new) }

        ensures honest { honest self.new ↔ honest self.old }
        ensures calls { Records (calls self.old) (calls self.new) (Call.MakeDir order.now result) }
        ensures cause { CountsFault (faults self.old) (faults self.new) (result ≡ Made.Failed) };

    /// Launches the task in its folder, and does not wait for it.
    fn start(&mut self, order: &Order) -> Started
        ensures launches { LaunchesAtMost order.now.task (launches self.old) (launches self.new) }
        ensures launched { honest self.old → Launches order.now.task (dirs self.old) (launches self.old) (launches self.new) result }
        ensures folders { honest self.old → dirs self.new ≡ dirs self.old }
        ensures output { honest self.old → GoesOn order.now.task (exited self.old) (exited self.new) (output self.old) (output self.new) }

        ensures honest { honest self.new ↔ honest self.old }
        ensures calls { Records (calls self.old) (calls self.new) (Call.Start order.now result) }
        ensures cause { CountsFault (faults self.old) (faults self.new) (result ≡ Started.Failed) };

    /// Tells the task's state.
    fn look(&mut self, order: &Order) -> Look
        ensures state { honest self.old → TellsState order.now.task (dirs self.old) (launches self.old) (exited self.old order.now.task) (exited self.new order.now.task) result }
        ensures launches { launches self.new ≡ launches self.old }
        ensures folders { honest self.old → dirs self.new ≡ dirs self.old }
        ensures output { honest self.old → GoesOn order.now.task (exited self.old) (exited self.new) (output self.old) (output self.new) }

        ensures honest { honest self.new ↔ honest self.old }
        ensures calls { Records (calls self.old) (calls self.new) (Call.Look order.now result) }
        ensures cause { CountsFault (faults self.old) (faults self.new) (result ≡ Look.Failed) };

    /// Reads what the task wrote to a stream, from a place on: at least one byte where there is one and the buffer is
    /// not empty. Where the call fails, the buffer may hold anything.
    fn read(
        &mut self,
        order: &Order,
        stream: Stream,
        from: u64,
        buf: &mut [u8],
    ) -> Result<usize, Failed>
        ensures room { IfOk result (λ n. n ≤ length buf.old) }
        ensures count { honest self.old → IfOk result (Reads (length (output self.new order.now.task stream)) from buf.old) }
        ensures bytes { honest self.old → IfOk result (λ n. HasRead (output self.new order.now.task stream) from n buf.old buf.new) }
        ensures launches { launches self.new ≡ launches self.old }
        ensures folders { honest self.old → dirs self.new ≡ dirs self.old }
        ensures output { honest self.old → GoesOn order.now.task (exited self.old) (exited self.new) (output self.old) (output self.new) }

        ensures honest { honest self.new ↔ honest self.old }
        ensures calls { Records (calls self.old) (calls self.new) (Call.Read order.now stream from (length buf.old) (bytes_read result buf.new)) }
        ensures cause { CountsFault (faults self.old) (faults self.new) (IsErr result) };

    /// Waits a little before the next turn. It may wait for ever.
    fn pause(&mut self)
        ensures launches { launches self.new ≡ launches self.old }
        ensures folders { honest self.old → dirs self.new ≡ dirs self.old }
        ensures output { honest self.old → Stays (exited self.old) (exited self.new) (output self.old) (output self.new) }

        ensures honest { honest self.new ↔ honest self.old }
        ensures calls { Records (calls self.old) (calls self.new) Call.Pause }
        ensures calm { faults self.new ≡ faults self.old };

    /// Removes the task's folder with all that is in it. A folder that is not there is removed already.
    fn remove(&mut self, order: &Order) -> Result<(), Failed>
        ensures folder { honest self.old → RemovesFolder order.now.task (dirs self.old) (dirs self.new) result }
        ensures launches { launches self.new ≡ launches self.old }
        ensures output { honest self.old → Stays (exited self.old) (exited self.new) (output self.old) (output self.new) }

        ensures honest { honest self.new ↔ honest self.old }
        ensures calls { Records (calls self.old) (calls self.new) (Call.Remove order.now result) }
        ensures cause { CountsFault (faults self.old) (faults self.new) (IsErr result) };

    /// A task that was not launched has written nothing and has not ended.
    ghost nothing_before_launch: { (host : Self) (task : ℕ) → honest host → ¬ Contains (launches host) task → IsIdle (exited host task) (output host task) };
}
