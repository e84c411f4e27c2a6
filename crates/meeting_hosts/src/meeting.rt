//! A host whose tasks run on until a task of another host has started.

ghost use Rattle.task_host.specs.MemoryHost.{tasks_of, counts_of, output_of, exited_of};

use std::sync::atomic::{AtomicBool, Ordering};
use std::thread;
use std::time::{Clock, Duration};
use task_host::{Failed, Host, Look, Made, MemoryHost, Order, Started, Stream};

/// A host in memory, each task of which seems to run until a task of another host has started.
///
/// It is not honest: when its tasks end is not told by what was launched on it. Its launches, its folders and its faults are
/// those of the host in memory.
#[derive(Drop)]
pub struct MeetingHost<'a, C> {
    clock: &'a C,
    host: MemoryHost,
    started: &'a AtomicBool,
    awaited: &'a AtomicBool,
}

impl<'a, C: Clock> MeetingHost<'a, C> {
    /// The host over this one, which sets `started` where it starts a task, and whose tasks run until `awaited` is set.
    pub fn new(
        clock: &'a C,
        host: MemoryHost,
        started: &'a AtomicBool,
        awaited: &'a AtomicBool,
    ) -> MeetingHost<'a, C> {
        MeetingHost {
            clock,
            host,
            started,
            awaited,
        }
    }
}

impl<C: Clock> Host for MeetingHost<'_, C> {
    ghost use Rattle.std.specs.Prelude.{None};
    ghost use Rattle.task_host.specs.MemoryHost.{tasks_of, counts_of, output_of, exited_of};

    ghost honest = { λ host. ⊥ };

    ghost dirs = { λ host. (tasks_of host.host).dirs };

    ghost launches = { λ host. (tasks_of host.host).launches };

    ghost output = { λ host. output_of host.host };

    ghost exited = { λ host. exited_of host.host };

    ghost calls = { λ host. None };

    ghost faults = { λ host. (counts_of host.host).faults };

    ghost nothing_before_launch = { λ host task honest not_there. absurd honest };

    fn make_dir(&mut self, order: &Order) -> Made {
        self.host.make_dir(order)
    }

    fn start(&mut self, order: &Order) -> Started {
        self.started.store(true, Ordering::SeqCst);
        self.host.start(order)
    }

    fn look(&mut self, order: &Order) -> Look {
        if !self.awaited.load(Ordering::SeqCst) {
            return Look::Running;
        }
        self.host.look(order)
    }

    fn read(
        &mut self,
        order: &Order,
        stream: Stream,
        from: u64,
        buf: &mut [u8],
    ) -> Result<usize, Failed> {
        self.host.read(order, stream, from, buf)
    }

    // A millisecond, so that a task that waits leaves the processor to the others.
    fn pause(&mut self) {
        thread::sleep(self.clock, Duration::from_millis(1));
        self.host.pause();
    }

    fn remove(&mut self, order: &Order) -> Result<(), Failed> {
        self.host.remove(order)
    }
}
