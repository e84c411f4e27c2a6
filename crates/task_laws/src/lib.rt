//! Laws of tasks over a life of a build: of their outputs, of claims, and of what stands on the hosts.
//!
//! *Outputs.* A build counts how much of a task's log it took, and keeps what it took of its output. While the task is open both
//! grow by just the outputs that are accepted (`outputs_grow`), and an output is accepted only where that stream was left. So each
//! begins where those before it end (`outputs_in_order`), and what a host has of each it has of all of them, put together.
//!
//! *Claims.* No task is given before the event that opened it is on the disk. So whatever stops the program between a claim and
//! the next event, a store that was consistent, on a disk that tells its bytes, has the task then, still to be done: it is open in
//! each image that a crash may leave.
//!
//! *Deliveries.* Each output that a life takes was reported by the executor whose task it is, with its cause on that executor's
//! host. So where the outputs of the store's events stand on the hosts at the beginning of a life they do at its end, with those
//! of the life.
//!
//! The crate has no code. `specs/` says what is proved. `proofs/` proves it over the definitions of `model_run`, over what is known
//! of a state behind the lock (`IsSite` of `locked_build`) and of a life (`Ends` of `build_life`), and with `life_delivers` of
//! `launch_laws`.
#![tactic(auto)]
