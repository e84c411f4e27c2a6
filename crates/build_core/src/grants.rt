//! The grant that is due.
ghost use Rattle.std.specs.Prelude.{◌≡◌, false, IfOk};
ghost use Rattle.model_run.specs.Fitting.{SharedFits};
ghost use Rattle.model_run.specs.Grants.{grant};
ghost use Rattle.agent_queue.specs.Standing.{GrantsAs};
ghost use Rattle.cps_frames.specs.Standing.{setting_of, common_of};

use agent_queue::{Queue, QueueRefusal};
use cps_frames::Shared;
use std::alloc::AllocError;

/// The lowest-numbered open request that some free executor fits, and the first such executor. `AllocError` where the
/// memory was refused.
pub(crate) fn due_grant(shared: &Shared) -> Result<Option<(u32, u32)>, AllocError>
    requires fit { SharedFits (setting_of shared.now) false (common_of shared.now) }
    ensures { IfOk result (λ due. due ≡ grant shared.now.site shared.now.held shared.now.requests) }
{
    let mut queue = rebuilt(shared)?;
    Ok(queue.next_grant())
}

/// The queue of the open requests and held executors. `AllocError` where the memory was refused.
fn rebuilt(shared: &Shared) -> Result<Queue, AllocError>
    requires fit { SharedFits (setting_of shared.now) false (common_of shared.now) }
    ensures { IfOk result (λ queue. GrantsAs shared.now.site shared.now.held shared.now.requests queue) }
{
    let requests = shared.requests.as_slice();
    match Queue::rebuild(
        shared.alloc(),
        &shared.site,
        requests,
        shared.held.as_slice(),
    ) {
        Ok(queue) => Ok(queue),
        Err(QueueRefusal::Memory) => Err(AllocError),
        Err(QueueRefusal::Unknown { .. }) => unreachable!(),
    }
}
