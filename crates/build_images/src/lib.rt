//! The image of a build, and a build from its image.
//!
//! [`image_of`] puts all of a build into an image, and is proved to give the image of each build of the definitions that the
//! build stands for (`specs/Images`), and one that passes `check` of `image_check`. [`threads_now`] makes anew the threads
//! that took a turn since they were marked, but for the frames that count as untouched, for whoever looks at the rest
//! where it stands. [`restored`] gives the build back: of an image that passes a sound build that has this image, and that
//! stands for the build that any list of events makes, where that one has it too.
//!
//! ```text
//! let image = image_of(&build)?;
//! // written, and read in another process; then checked
//! let build: Build<Thread> = restored(alloc, code, site, image)?;
//! ```
#![tactic(auto)]

mod fronts;
mod refusal;
mod restoring;
mod saving;

pub use build_core;
pub use fronts::threads_now;
pub use image_changes;
pub use image_check;
pub use refusal::RestoreRefusal;
pub use restoring::restored;
pub use saved_thread;
pub use saved_thread::script_thread;
pub use saving::image_of;
