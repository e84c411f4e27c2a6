//! Changes of lists by rising keys.

ghost use Rattle.std.specs.Prelude.{◌≡◌, ◌++◌, if◌then◌else◌, nat_le, length, take, Some, None};
ghost use Rattle.delta_form.specs.Applying.{Applies};
ghost use Rattle.delta_form.specs.Changes.{Changing, Keyed, by_number};
ghost use Rattle.delta_form.specs.ChangeLaws.{bindings_keyed, gone_keyed, requests_keyed, threads_keyed};
ghost use Rattle.delta_form.specs.After.{binding_changes, gone, grown, new_binding, request_changes, thread_changes, written_request, written_thread};

use crate::numbered::Numbered;
use crate::put::appended;
use crate::{DeltaRefusal, WrittenRequest, WrittenThread};
use image_form::{ImageFrame, ImageThread};
use model_run::{OpenRequest, Request};
use model_text::{Bytes, Sequence};
use model_values::Binding;
use std::cmp::Ordering;

/// A change of a list by rising keys, at one key.
pub(crate) trait Change<T>: Drop + Sized {
    ghost changing: { Changing Self T };

    /// How the key of an item stands to that of the change.
    fn compare(&self, item: &T) -> Ordering
        ensures { result ≡ changing.compare item.now self.now };

    /// What stands at the key then, or that nothing does, by what stood there. `Fault` where the change is not
    /// defined on it, `Memory` where there is none.
    fn make(self, stood: Option<T>) -> Result<Option<T>, DeltaRefusal>
        ensures { Applies result (changing.made self stood) };

    ghost keyed: { Keyed changing };
}

/// A new variable of the binding. None of its name stood before.
impl Change<Binding> for Binding {
    ghost changing = { binding_changes };

    ghost keyed = { bindings_keyed };

    fn compare(&self, item: &Binding) -> Ordering {
        item.name.cmp(&self.name)
    }

    fn make(self, stood: Option<Binding>) -> Result<Option<Binding>, DeltaRefusal>
        ensures { Applies result (new_binding self stood) }
    {
        match stood {
            None => Ok(Some(self)),
            Some(_) => Err(DeltaRefusal::Fault),
        }
    }
}

/// The item with this number stood and is gone.
impl<T: Numbered + Drop> Change<T> for u32 {
    ghost changing = { by_number T.by (λ n. n) gone };

    ghost keyed = { gone_keyed T.by };

    fn compare(&self, item: &T) -> Ordering {
        item.number().cmp(self)
    }

    fn make(self, stood: Option<T>) -> Result<Option<T>, DeltaRefusal>
        ensures { Applies result (gone self stood) }
    {
        match stood {
            None => Err(DeltaRefusal::Fault),
            Some(_) => Ok(None),
        }
    }
}

/// A whole request, or a task that stood and has grown.
impl Change<OpenRequest> for WrittenRequest {
    ghost changing = { request_changes };

    ghost keyed = { requests_keyed };

    fn compare(&self, item: &OpenRequest) -> Ordering {
        item.number.cmp(&self.number())
    }

    fn make(self, stood: Option<OpenRequest>) -> Result<Option<OpenRequest>, DeltaRefusal>
        ensures { Applies result (written_request self stood) }
    {
        match self {
            WrittenRequest::Whole(open) => Ok(Some(open)),
            WrittenRequest::Grown {
                number: _,
                taken,
                out,
            } => match stood {
                None => Err(DeltaRefusal::Fault),
                Some(open) => {
                    let request = grown(open.request, taken, out)?;
                    Ok(Some(OpenRequest {
                        number: open.number,
                        thread: open.thread,
                        request,
                    }))
                }
            },
        }
    }
}

/// The task of which more output was taken: so many bytes of its log stream, and these more of its output stream.
fn grown(request: Request, taken: u64, added: Bytes) -> Result<Request, DeltaRefusal>
    ensures { Applies result (grown taken added request) }
{
    match request {
        Request::Task {
            executor,
            workspace,
            folder,
            env,
            script,
            status,
            keep_out,
            taken: _,
            out,
        } => {
            let out = appended(out, added)?;
            Ok(Request::Task {
                executor,
                workspace,
                folder,
                env,
                script,
                status,
                keep_out,
                taken,
                out,
            })
        }
        _ => Err(DeltaRefusal::Fault),
    }
}

/// A thread with the frames that it keeps of those that it had, and its own behind them.
impl Change<ImageThread> for WrittenThread {
    ghost changing = { thread_changes };

    ghost keyed = { threads_keyed };

    fn compare(&self, item: &ImageThread) -> Ordering {
        item.number.cmp(&self.number)
    }

    fn make(self, stood: Option<ImageThread>) -> Result<Option<ImageThread>, DeltaRefusal>
        ensures { Applies result (written_thread self stood) }
    {
        let WrittenThread {
            number,
            parent,
            head,
            wait,
            context,
            kept,
            frames,
        } = self;
        let frames = match stood {
            Some(thread) => with_kept(thread.frames, kept, frames)?,
            None if kept == 0 => frames,
            None => return Err(DeltaRefusal::Fault),
        };
        Ok(Some(ImageThread {
            number,
            parent,
            head,
            wait,
            context,
            frames,
        }))
    }
}

/// The first `kept` of the frames that there were, and these behind them.
fn with_kept(
    had: Sequence<ImageFrame>,
    kept: u32,
    frames: Sequence<ImageFrame>,
) -> Result<Sequence<ImageFrame>, DeltaRefusal>
    ensures { Applies result (if nat_le kept (length had) then Some (take kept had ++ frames) else None) }
{
    let mut had = had.into_vec();
    if kept as usize > had.len() {
        return Err(DeltaRefusal::Fault);
    }
    had.truncate(kept as usize);
    Ok(appended(Sequence::from_vec(had), frames)?)
}
