//! For which build a host works, and on which machine.

use control_folders::{ControlFolder, Machine, Making};
use edge_files::Identity;
use std::io;
use std::io::ErrorKind;
use std::rt::Files;
use task_host::Order;

/// For which build a host works, and on which machine. Both are asked for when they are first needed: the build gets its
/// identity with its first record.
#[derive(Drop)]
pub struct BuildPlace<'a> {
    identity_file: &'a str,
    known: Option<Known>,
}

/// A build, and the machine on which it runs.
#[derive(Drop)]
pub struct Known {
    pub identity: Identity,
    pub machine: Machine,
}

impl<'a> BuildPlace<'a> {
    /// The build that has its identity in the file at this path.
    pub fn new(identity_file: &'a str) -> Self {
        BuildPlace {
            identity_file,
            known: None,
        }
    }

    /// The build, and the machine.
    ///
    /// # Errors
    ///
    /// Where the build has no identity, or it cannot be read; and where there is no memory.
    pub fn known<R: Files + AllocGlobal>(&mut self, rt: &R) -> io::Result<&Known> {
        if self.known.is_none() {
            let Some(identity) = Identity::read(rt, self.identity_file)? else {
                return Err(io::Error::new(ErrorKind::NotFound, "its build has no identity"));
            };
            let machine = Machine::own(rt)?;
            self.known = Some(Known { identity, machine });
        }
        match &self.known {
            Some(known) => Ok(known),
            None => Err(io::Error::from(ErrorKind::NotFound)),
        }
    }

    /// Makes the control folder of the order's task, as [`control_folders::make`] does for this build on this machine.
    ///
    /// # Errors
    ///
    /// Those of `known` and of that call.
    pub fn make_folder<R: Files + AllocGlobal>(
        &mut self,
        rt: &R,
        order: &Order,
        control: &ControlFolder,
    ) -> io::Result<Making> {
        let known = self.known(rt)?;
        let script = order.script.as_slice();
        control_folders::make(rt, control, &known.identity, &known.machine, script)
    }
}
