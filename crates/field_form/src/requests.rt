//! Requests and held executors.

ghost use Rattle.std.specs.Prelude.{OnOk};
ghost use Rattle.field_form.specs.Forms.{Written};
ghost use Rattle.field_form.specs.Requests.{place_form, streams_form, texts_form, texts_lawful, request_form, request_lawful, open_behind, open_behind_lawful, held_behind, held_behind_lawful};

use crate::{Field, FormRefusal, Listing};
use byte_form::{Memory, put_u8, take_u8};
use model_run::{Held, OpenRequest, Request};
use model_text::{Bytes, Pair, Pairs, Text};
use std::alloc::Global;

impl Field for Pair {
    ghost form = { texts_form };

    ghost lawful = { texts_lawful };

    fn spell(&self, out: &mut Vec<u8>) -> Result<(), Memory> {
        self.name.spell(out)?;
        self.value.spell(out)
    }

    fn read(alloc: Global, bytes: &[u8], at: u64) -> Result<(Pair, u64), FormRefusal> {
        let (name, at) = Text::read(alloc, bytes, at)?;
        let (value, at) = Text::read(alloc, bytes, at)?;
        Ok((Pair { name, value }, at))
    }
}

fn spell_place(
    executor: u32,
    workspace: &Text,
    folder: &Text,
    env: &Pairs,
    script: &Text,
    out: &mut Vec<u8>,
) -> Result<(), Memory>
    requires { place_form.Needs (executor, (workspace.now, (folder.now, (env.now, script.now)))) }
    ensures { OnOk result (Written place_form (executor, (workspace.now, (folder.now, (env.now, script.now)))) out.old.items out.new.items) }
{
    executor.spell(out)?;
    workspace.spell(out)?;
    folder.spell(out)?;
    env.spell(out)?;
    script.spell(out)
}

fn spell_streams(
    status: bool,
    keep_out: bool,
    taken: u64,
    kept: &Bytes,
    out: &mut Vec<u8>,
) -> Result<(), Memory>
    requires { streams_form.Needs (status, (keep_out, (taken, kept.now))) }
    ensures { OnOk result (Written streams_form (status, (keep_out, (taken, kept.now))) out.old.items out.new.items) }
{
    status.spell(out)?;
    keep_out.spell(out)?;
    taken.spell(out)?;
    kept.spell(out)
}

impl Field for Request {
    ghost form = { request_form };

    ghost lawful = { request_lawful };

    fn spell(&self, out: &mut Vec<u8>) -> Result<(), Memory> {
        match self {
            Request::Node { label } => {
                put_u8(out, 0)?;
                label.spell(out)
            }
            Request::Task {
                executor,
                workspace,
                folder,
                env,
                script,
                status,
                keep_out,
                taken,
                out: kept,
            } => {
                put_u8(out, 1)?;
                spell_place(*executor, workspace, folder, env, script, out)?;
                spell_streams(*status, *keep_out, *taken, kept, out)
            }
            Request::Input { id } => {
                put_u8(out, 2)?;
                id.spell(out)
            }
        }
    }

    fn read(alloc: Global, bytes: &[u8], at: u64) -> Result<(Request, u64), FormRefusal> {
        let (kind, behind) = take_u8(bytes, at)?;
        match kind {
            0 => {
                let (label, at) = Option::<Text>::read(alloc, bytes, behind)?;
                Ok((Request::Node { label }, at))
            }
            1 => {
                let (executor, at) = u32::read(alloc, bytes, behind)?;
                let (workspace, at) = Text::read(alloc, bytes, at)?;
                let (folder, at) = Text::read(alloc, bytes, at)?;
                let (env, at) = Pairs::read(alloc, bytes, at)?;
                let (script, at) = Text::read(alloc, bytes, at)?;
                let (status, at) = bool::read(alloc, bytes, at)?;
                let (keep_out, at) = bool::read(alloc, bytes, at)?;
                let (taken, at) = u64::read(alloc, bytes, at)?;
                let (out, at) = Bytes::read(alloc, bytes, at)?;
                let request = Request::Task {
                    executor,
                    workspace,
                    folder,
                    env,
                    script,
                    status,
                    keep_out,
                    taken,
                    out,
                };
                Ok((request, at))
            }
            2 => {
                let (id, at) = Text::read(alloc, bytes, behind)?;
                Ok((Request::Input { id }, at))
            }
            _ => Err(FormRefusal::Fault { at }),
        }
    }
}

/// Open requests by rising numbers.
pub struct ByNumber;

impl Listing<OpenRequest> for ByNumber {
    ghost behind = { open_behind };

    ghost lawful = { open_behind_lawful };

    fn spell(_before: &[OpenRequest], open: &OpenRequest, out: &mut Vec<u8>) -> Result<(), Memory> {
        open.number.spell(out)?;
        open.thread.spell(out)?;
        open.request.spell(out)
    }

    fn read(
        alloc: Global,
        before: &[OpenRequest],
        bytes: &[u8],
        at: u64,
    ) -> Result<(OpenRequest, u64), FormRefusal> {
        let (number, behind) = u32::read(alloc, bytes, at)?;
        if before.last().is_some_and(|last| last.number >= number) {
            return Err(FormRefusal::Fault { at });
        }
        let (thread, behind) = u32::read(alloc, bytes, behind)?;
        let (request, behind) = Request::read(alloc, bytes, behind)?;
        let open = OpenRequest {
            number,
            thread,
            request,
        };
        Ok((open, behind))
    }
}

/// Held executors by rising numbers.
pub struct ByExecutor;

impl Listing<Held> for ByExecutor {
    ghost behind = { held_behind };

    ghost lawful = { held_behind_lawful };

    fn spell(_before: &[Held], held: &Held, out: &mut Vec<u8>) -> Result<(), Memory> {
        held.executor.spell(out)?;
        held.request.spell(out)?;
        held.workspace.spell(out)
    }

    fn read(
        alloc: Global,
        before: &[Held],
        bytes: &[u8],
        at: u64,
    ) -> Result<(Held, u64), FormRefusal> {
        let (executor, behind) = u32::read(alloc, bytes, at)?;
        if before.last().is_some_and(|last| last.executor >= executor) {
            return Err(FormRefusal::Fault { at });
        }
        let (request, behind) = u32::read(alloc, bytes, behind)?;
        let (workspace, behind) = u32::read(alloc, bytes, behind)?;
        let held = Held {
            executor,
            request,
            workspace,
        };
        Ok((held, behind))
    }
}
