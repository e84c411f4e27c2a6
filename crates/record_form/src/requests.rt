//! Requests, held executors and events.

use crate::{Measured, Sizing};
use field_form::{ByExecutor, ByNumber};
use model_run::{Event, Held, OpenRequest, Request};
use model_text::Pair;

impl Measured for Pair {
    fn size(&self) -> u64 {
        self.name.size().saturating_add(self.value.size())
    }
}

impl Measured for Request {
    fn size(&self) -> u64 {
        match self {
            Request::Node { label } => label.size().saturating_add(1),
            // its kind, its executor, both flags and the bytes that were taken: 15 bytes
            Request::Task {
                workspace,
                folder,
                env,
                script,
                out,
                ..
            } => workspace
                .size()
                .saturating_add(folder.size())
                .saturating_add(env.size())
                .saturating_add(script.size())
                .saturating_add(out.size())
                .saturating_add(15),
            Request::Input { id } => id.size().saturating_add(1),
        }
    }
}

impl Sizing<OpenRequest> for ByNumber {
    fn size(_before: &[OpenRequest], open: &OpenRequest) -> u64 {
        open.request.size().saturating_add(8)
    }
}

impl Sizing<Held> for ByExecutor {
    fn size(_before: &[Held], _held: &Held) -> u64 {
        12
    }
}

impl Measured for Event {
    fn size(&self) -> u64 {
        match self {
            Event::Start { script, agents } => {
                script
                    .size()
                    .saturating_add(agents.size())
                    .saturating_add(1)
            }
            Event::Granted { .. } | Event::Exited { .. } => 9,
            Event::Output { bytes, .. } => bytes.size().saturating_add(14),
            Event::Lost { .. } => 6,
            Event::Decided { name, .. } => name.size().saturating_add(6),
        }
    }
}
