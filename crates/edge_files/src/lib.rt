//! Files and folders of the system that outlive the program: the file of a store, and what is kept beside it.
//!
//! [`StoreFile`] is the file of a build's store. It keeps beside it which build this is ([`Identity`]) and a sum for each
//! record ([`RecordSums`]), so that no other build's results are taken for this one's, and no byte that changed is read as
//! if it were what was written. [`DurableFolder`] makes folders that a power cut cannot lose. What a real file or folder
//! does no contract can say, so that is tested and not proved; what their bytes mean is proved where it is computed.
#![tactic(auto)]

mod durable_folder;
mod file_at_path;
mod identity;
mod piece;
pub mod private;
mod record_sums;
mod records;
mod store_file;
mod store_start;
pub mod sync;

pub use durable_folder::DurableFolder;
pub use file_at_path::FileAtPath;
pub use identity::{BuildId, Identity};
pub use piece::read_piece;
pub use record_sums::RecordSums;
pub use store_file::{StoreFile, StorePaths, StoreUse};
pub use store_start::StoreStart;

#[cfg(test)]
mod tests;
