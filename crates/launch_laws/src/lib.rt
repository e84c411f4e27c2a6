//! Laws of launches over the lives of a build: on an honest host no task is launched twice, whatever ends a life.
//!
//! A host fits the events of a build where each task that it has launched was an open task of its executor, stands once among
//! the launches, and has its folder as long as it is open. `FitLaws` carries that through one life, by what the executor's turns
//! were and what the events of the life are. The end of one life is the beginning of the next.
//!
//! The crate has no code. `specs/` says what is proved, `proofs/` proves it over the definitions of `model_run` and
//! `agent_worker`.
#![tactic(auto)]
