//! The call that the program makes: from the words of the command line, the streams, the disk and the hosts to the output and the
//! exit status.
//!
//! All that is promised stands at [`controller`], in six parts: what is written and what the store holds then (`Output`), what a
//! crash may leave at each moment (`Crash`), what is said of a file with a fault (`FirstFault`), when each status comes and what came
//! of the build (`Causes`), what is read of the sources (`Reads`), and what becomes of the hosts and which tasks they launch
//! (`Launches`). The threads of the build are of any kind that meets
//! `SavedThread`, the disk of any that meets `Disk`, and the hosts of any that meets `Host`.
//!
//! ```text
//! let ended = controller::<Thread, _, _, _, _, _, _>(&rt, alloc, words, &mut script, &mut agents, disk, hosts, 65, answers, &mut out);
//! ExitCode::from(ended.status)
//! ```
#![tactic(auto)]

mod call;

pub use build_commands::Ended;
pub use call::controller;
