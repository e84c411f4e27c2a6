ghost use Rattle.std.specs.Prelude.{◌≡◌, ◌∷◌, ◌++◌, map, IfOk, None};
ghost use Rattle.std.specs.List.{list_any, filter};
ghost use Rattle.agent_queue.specs.Seats.{takes, hold_each, first_missing, held_by, freed_by, is_holder, free_seat, next, is_number, is_other};

use label_expr::LabelExpr;
use model_run::{Executor, Held};
use model_text::Texts;
use std::alloc::AllocError;

/// An executor, and the request that holds it.
#[derive(Drop)]
pub(crate) struct Seat {
    pub number: u32,
    /// The name of its agent, and its labels.
    pub labels: Texts,
    pub holder: Option<u32>,
}

/// A request that waits for an executor.
#[derive(Drop)]
pub(crate) struct Asked {
    pub request: u32,
    pub expr: LabelExpr,
}

impl Seat {
    /// An executor that no request holds.
    pub fn new(executor: &Executor) -> Result<Seat, AllocError>
        ensures number { IfOk result (λ seat. seat.number ≡ executor.now.number) }
        ensures labels { IfOk result (λ seat. seat.labels ≡ executor.now.agent ∷ executor.now.labels) }
        ensures free { IfOk result (λ seat. seat.holder ≡ None) }
    {
        let mut labels = executor.labels.clone()?.into_vec();
        labels.insert(0, executor.agent.clone()?)?;
        Ok(Seat {
            number: executor.number,
            labels: Texts::from_vec(labels),
            holder: None,
        })
    }

    /// Whether it is free and the label fits it.
    pub fn takes(&self, expr: &LabelExpr) -> bool
        ensures { result ≡ takes expr.now self.now }
    {
        self.holder.is_none() && expr.matches(self.labels.as_slice())
    }

    /// Lets this request hold it where it has this number; `true` then.
    pub fn hold(&mut self, number: u32, request: u32) -> bool
        ensures held { self.new ≡ held_by number request self.old }
        ensures is { result ≡ is_number number self.old }
    {
        if self.number != number {
            return false;
        }
        self.holder = Some(request);
        true
    }

    /// Frees it where this request holds it; `true` then.
    pub fn free(&mut self, request: u32) -> bool
        ensures freed { self.new ≡ freed_by request self.old }
        ensures is { result ≡ is_holder self.old.holder request }
    {
        if self.holder != Some(request) {
            return false;
        }
        self.holder = None;
        true
    }
}

/// The number of the first free executor that the label fits.
pub(crate) fn free_seat(seats: &[Seat], expr: &LabelExpr) -> Option<u32>
    ensures { result ≡ free_seat expr.now seats.now }
{
    for seat in seats {
        if seat.takes(expr) {
            return Some(seat.number);
        }
    }
    None
}

/// The first waiting request that a free executor fits, and the first such executor.
pub(crate) fn next(seats: &[Seat], waiting: &[Asked]) -> Option<(u32, u32)>
    ensures { result ≡ next seats.now waiting.now }
{
    for asked in waiting {
        if let Some(number) = free_seat(seats, &asked.expr) {
            return Some((asked.request, number));
        }
    }
    None
}

/// Lets this request hold the executor of this number; `false` where there is none.
pub(crate) fn hold(seats: &mut [Seat], number: u32, request: u32) -> bool
    ensures held { seats.new ≡ map (held_by number request) seats.old }
    ensures is { result ≡ list_any (is_number number) seats.old }
{
    let mut found = false;
    for at in 0..seats.len() {
        found |= seats[at].hold(number, request);
    }
    found
}

/// Lets each request hold its executor. The first held executor that is none of these, by its number, ends it.
pub(crate) fn hold_each(seats: &mut [Seat], held: &[Held]) -> Option<u32>
    ensures missing { result ≡ first_missing held.now seats.old }
    ensures held { result ≡ None → seats.new ≡ hold_each held.now seats.old }
{
    for one in held {
        if !hold(seats, one.executor, one.request) {
            return Some(one.executor);
        }
    }
    None
}

/// Frees what this request holds; `false` where it holds nothing.
pub(crate) fn free(seats: &mut [Seat], request: u32) -> bool
    ensures freed { seats.new ≡ map (freed_by request) seats.old }
    ensures is { result ≡ list_any (λ seat. is_holder seat.holder request) seats.old }
{
    let mut found = false;
    for at in 0..seats.len() {
        found |= seats[at].free(request);
    }
    found
}

/// Takes a request out of those that wait.
pub(crate) fn forget(waiting: &mut Vec<Asked>, request: u32)
    ensures { waiting.new.items ≡ filter (is_other request) waiting.old.items }
{
    waiting.retain(|asked| asked.request != request);
}
