//! The real file and the real host: adapters of the system for the traits of devices.
//!
//! [`FileDisk`] is a disk over one file, and [`FolderHost`] is a host whose tasks are processes of this machine, or of others
//! where the agent has a program that starts them there, each with a control folder. Both meet their traits, and tell contracts nothing but how often they failed: what a real
//! file, folder or process does no contract can say, so that is tested and not proved. [`LockedDisk`] keeps a second
//! controller from a disk.
//!
//! ```text
//! let mut host = FolderHost::new(&rt, "DIR/program.lock");
//! host.make_dir(&order);   // makes WORKSPACE@tmp/durable-00000002, with its script and its permit
//! host.start(&order);      // starts `sh`, and does not wait
//! host.look(&order);       // Look::Running, and at last Look::Exited(code)
//! ```
#![tactic(auto)]

mod asks;
mod build_place;
mod children;
mod elsewhere;
mod file_disk;
mod folder_host;
mod launch;
mod launcher;
mod launches;
mod local_tasks;
mod locked_disk;
mod loss;
mod own_folders;
mod pauses;
mod programs;
mod store_lock;
mod workspace;

pub use edge_files::{StorePaths, StoreUse};
pub use file_disk::FileDisk;
pub use folder_host::FolderHost;
pub use locked_disk::LockedDisk;

#[cfg(test)]
mod tests;
