//! What waits for somebody outside.
ghost use Rattle.std.specs.Prelude.{◌≡◌};
ghost use Rattle.build_requests.specs.Waiting.{waiting_inputs, open_tasks, is_input_of, input_of};

use model_run::{OpenRequest, Request};

/// How many inputs wait for a decision.
pub fn waiting_inputs(requests: &[OpenRequest]) -> usize
    ensures { result ≡ waiting_inputs requests.now }
{
    let mut inputs = 0;
    for open in requests {
        if let Request::Input { .. } = open.request {
            inputs += 1;
        }
    }
    inputs
}

/// How many tasks have not ended.
pub fn open_tasks(requests: &[OpenRequest]) -> usize
    ensures { result ≡ open_tasks requests.now }
{
    let mut tasks = 0;
    for open in requests {
        if let Request::Task { .. } = open.request {
            tasks += 1;
        }
    }
    tasks
}

/// The number of the first open input with this id, which is the lowest; `None` exactly where there is none.
pub fn input_of(requests: &[OpenRequest], id: &[u8]) -> Option<u32>
    ensures { result ≡ input_of id.now requests.now }
{
    for open in requests {
        if is_input(&open.request, id) {
            return Some(open.number);
        }
    }
    None
}

/// Whether it is an input with this id.
fn is_input(request: &Request, wanted: &[u8]) -> bool
    ensures { result ≡ is_input_of wanted.now request.now }
{
    match request {
        Request::Input { id } => id.as_slice() == wanted,
        _ => false,
    }
}
