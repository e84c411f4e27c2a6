//! Which control folders are the build's own.

ghost use Rattle.std.specs.Prelude.{◌≡◌, ◌↔◌, ◌<◌, [], IsTrue, OnOk, Contains, vec_len, vec_capacity};
ghost use Rattle.real_edge.specs.OwnFolders.{listed, forgotten};

use std::alloc::{AllocError, Global};

/// Which control folders are the build's own: those of the tasks that are listed here. A task is listed where its folder
/// was made, or was found to name this build.
#[derive(Drop)]
pub struct OwnFolders {
    pub tasks: Vec<u32>,
}

impl OwnFolders {
    /// None is listed.
    pub fn new(alloc: Global) -> Self
        ensures { result.tasks.items ≡ [] }
    {
        OwnFolders {
            tasks: Vec::new(alloc),
        }
    }

    /// Whether the folder of this task is the build's own.
    pub fn contains(&self, task: u32) -> bool
        ensures { IsTrue result ↔ Contains self.now.tasks.items task }
    {
        self.tasks.contains(&task)
    }

    /// Makes room for one more task.
    ///
    /// # Errors
    ///
    /// Where there is no memory. Nothing changes but the room.
    pub fn reserve(&mut self) -> Result<(), AllocError>
        ensures room { OnOk result (vec_len self.new.tasks < vec_capacity self.new.tasks) }
        ensures same { self.new.tasks.items ≡ self.old.tasks.items }
    {
        self.tasks.reserve(1)
    }

    /// Lists a task, for which there is room.
    pub fn add(&mut self, task: u32)
        requires { vec_len self.old.tasks < vec_capacity self.old.tasks }
        ensures { self.new.tasks.items ≡ listed task self.old.tasks.items }
    {
        let _ = self.tasks.push(task);
    }

    /// Takes a task off the list.
    pub fn forget(&mut self, task: u32)
        ensures { self.new.tasks.items ≡ forgotten task self.old.tasks.items }
    {
        self.tasks.retain(|listed| *listed != task);
    }
}
