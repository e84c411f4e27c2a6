//! Frames and threads.

ghost use Rattle.std.specs.Prelude.{OnOk};
ghost use Rattle.field_form.specs.Forms.{u8_form, Written};
ghost use Rattle.image_form.specs.Images.{frame_form, frame_lawful, thread_behind, thread_behind_lawful};

use crate::{ImageFrame, ImageThread};
use byte_form::{Memory, put_u8, take_u8};
use field_form::{Field, FormRefusal, Listing};
use model_run::{Context, Wait};
use model_text::Sequence;
use model_values::{Env, Values};
use std::alloc::Global;

fn put_kind(kind: u8, out: &mut Vec<u8>) -> Result<(), Memory>
    ensures { OnOk result (Written u8_form kind out.old.items out.new.items) }
{
    put_u8(out, kind)
}

impl Field for ImageFrame {
    ghost form = { frame_form };

    ghost lawful = { frame_lawful };

    fn spell(&self, out: &mut Vec<u8>) -> Result<(), Memory> {
        put_kind(self.kind, out)?;
        self.node.spell(out)?;
        self.at.spell(out)?;
        self.env.spell(out)?;
        self.values.spell(out)
    }

    fn read(alloc: Global, bytes: &[u8], at: u64) -> Result<(ImageFrame, u64), FormRefusal> {
        let (kind, behind) = take_u8(bytes, at)?;
        let (node, behind) = u32::read(alloc, bytes, behind)?;
        let (done, behind) = u32::read(alloc, bytes, behind)?;
        let (env, behind) = Env::read(alloc, bytes, behind)?;
        let (values, behind) = Values::read(alloc, bytes, behind)?;
        let frame = ImageFrame {
            kind,
            node,
            at: done,
            env,
            values,
        };
        Ok((frame, behind))
    }
}

// What stands behind the number of a thread.
type Rest = (Option<u32>, (u32, (Wait, (Context, Sequence<ImageFrame>))));

/// Green threads by rising numbers.
pub struct ByThread;

impl Listing<ImageThread> for ByThread {
    ghost behind = { thread_behind };

    ghost lawful = { thread_behind_lawful };

    fn spell(
        _before: &[ImageThread],
        thread: &ImageThread,
        out: &mut Vec<u8>,
    ) -> Result<(), Memory> {
        thread.number.spell(out)?;
        thread.parent.spell(out)?;
        thread.head.spell(out)?;
        thread.wait.spell(out)?;
        thread.context.spell(out)?;
        thread.frames.spell(out)
    }

    fn read(
        alloc: Global,
        before: &[ImageThread],
        bytes: &[u8],
        at: u64,
    ) -> Result<(ImageThread, u64), FormRefusal> {
        let (number, behind) = u32::read(alloc, bytes, at)?;
        if before.last().is_some_and(|last| last.number >= number) {
            return Err(FormRefusal::Fault { at });
        }
        let ((parent, (head, (wait, (context, frames)))), behind) = Rest::read(
            alloc, bytes, behind,
        )?;
        let thread = ImageThread {
            number,
            parent,
            head,
            wait,
            context,
            frames,
        };
        Ok((thread, behind))
    }
}
