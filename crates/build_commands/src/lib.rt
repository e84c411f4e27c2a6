//! The commands over the store of a build: from the streams and the disk to the output and the exit status.
//!
//! [`check`] looks for faults of a script and its agents file. [`run`] begins their build, and [`resume`] goes on with the build of
//! a store; both write its log. [`generate`] begins the build of a script that it makes, and writes its numbers. [`finish`] is the part
//! that these three end with. [`log`] and [`graph`] write what the build of a store
//! has come to; they change no byte of it.
//!
//! [`read_files`] reads the script and the agents file, and [`read_plan`] judges them too; [`agents_text`] is the line that tells a
//! fault of the agents file, and [`build_status`] the exit status of a build.
//!
//! ```text
//! let done = log::<_, Thread, _>(alloc, FileDisk::new(&rt, path), &mut out);
//! ExitCode::from(done.status)
//! ```
#![tactic(auto)]

mod checking;
mod done;
mod end_text;
mod files;
mod finishing;
mod generating;
mod plan;
mod refusal;
mod resuming;
mod running;
mod show;
mod status;
mod texts;

pub use build_life::saved_thread;
pub use checking::check;
pub use done::{Done, Ended};
pub use end_text::EndText;
pub use files::{Files, read_files};
pub use finishing::finish;
pub use generating::generate;
pub use plan::{Plan, read_plan};
pub use refusal::{Refusal, tell, tell_text};
pub use resuming::resume;
pub use running::run;
pub use show::{graph, log};
pub use status::build_status;
pub use texts::agents_text;
