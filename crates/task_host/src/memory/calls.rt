//! The list of the calls of a host in memory.

ghost use Rattle.std.specs.Prelude.{◌≡◌, ◌≤◌, length, IfOk, IsErr, None, option_map};
ghost use Rattle.task_host.specs.Host.{Records, bytes_read};

use crate::{Bytes, Call, Failed, Look, Made, Order, Started, Stream};
use std::alloc::{AllocError, Global};

/// Keeps a call, or gives the list up.
pub fn keep(calls: &mut Option<Vec<Call>>, call: Result<Call, AllocError>)
    ensures kept { IfOk call (Records (option_map (λ list. list.items) calls.old) (option_map (λ list. list.items) calls.new)) }
    ensures refused { IsErr call → calls.new ≡ None }
{
    match call {
        Ok(call) => push(calls, call),
        Err(_) => *calls = None,
    }
}

fn push(calls: &mut Option<Vec<Call>>, call: Call)
    ensures { Records (option_map (λ list. list.items) calls.old) (option_map (λ list. list.items) calls.new) call }
{
    if let Some(list) = calls {
        if list.push(call).is_err() {
            *calls = None;
        }
    }
}

pub fn make_dir_call(order: &Order, answer: Made) -> Result<Call, AllocError>
    ensures { IfOk result (λ call. call ≡ Call.MakeDir order.now answer) }
{
    let order = order.clone()?;
    Ok(Call::MakeDir { order, answer })
}

pub fn start_call(order: &Order, answer: Started) -> Result<Call, AllocError>
    ensures { IfOk result (λ call. call ≡ Call.Start order.now answer) }
{
    let order = order.clone()?;
    Ok(Call::Start { order, answer })
}

pub fn look_call(order: &Order, answer: Look) -> Result<Call, AllocError>
    ensures { IfOk result (λ call. call ≡ Call.Look order.now answer) }
{
    let order = order.clone()?;
    Ok(Call::Look { order, answer })
}

pub fn read_call(
    alloc: Global,
    order: &Order,
    stream: Stream,
    from: u64,
    buf: &[u8],
    answer: Result<usize, Failed>,
) -> Result<Call, AllocError>
    requires { IfOk answer (λ n. n ≤ length buf.now) }
    ensures { IfOk result (λ call. call ≡ Call.Read order.now stream from (length buf.now) (bytes_read answer buf.now)) }
{
    let order = order.clone()?;
    let room = buf.len() as u64;
    let answer = match answer {
        Ok(n) => Some(Bytes::from_slice(alloc, &buf[..n])?),
        Err(_) => None,
    };
    Ok(Call::Read {
        order,
        stream,
        from,
        room,
        answer,
    })
}

pub fn remove_call(order: &Order, answer: Result<(), Failed>) -> Result<Call, AllocError>
    ensures { IfOk result (λ call. call ≡ Call.Remove order.now answer) }
{
    let order = order.clone()?;
    Ok(Call::Remove { order, answer })
}
