//! Trials of devices and of who uses them: tests alone, a module for each crate, by what the crate hands out.
//!
//! They stand above those crates, so that a crate is proved once and not once more with its tests.
#![tactic(auto)]

#[cfg(test)]
mod crews; // site_crew
#[cfg(test)]
mod disks; // jp_disk
#[cfg(test)]
mod faults; // device_faults
#[cfg(test)]
mod hosts; // task_host
#[cfg(test)]
mod journals; // journal_core
#[cfg(test)]
mod locks; // program_lock
#[cfg(test)]
mod sparse; // a disk that tells nothing, for disks and journals
#[cfg(test)]
mod streams; // jp_io
#[cfg(test)]
mod words; // command_words
#[cfg(test)]
mod workers; // agent_worker
