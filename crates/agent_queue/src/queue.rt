ghost use Rattle.std.specs.Prelude.{◌≡◌, ◌∷◌, ◌++◌, [], List, map, nat_eq, not, None, IfOk, IfErr, OnOk, OnErr};
ghost use Rattle.std.specs.List.{filter, list_any, AllByRecursion as AllAre};
ghost use Rattle.model_run.specs.declared.site.Site.{Site};
ghost use Rattle.model_run.specs.declared.held.Held.{Held};
ghost use Rattle.model_run.specs.declared.request.OpenRequest.{OpenRequest};
ghost use Rattle.model_run.specs.Fitting.{Distinct};
ghost use Rattle.model_run.specs.Grants.{grant, without_request};
ghost use Rattle.agent_queue.specs.Seats.{is_holder};
ghost use Rattle.agent_queue.specs.Standing.{GrantsAs, StandsFor, IsAskOf, Granted, WithoutFault, first_unknown, IsRefusal};

use crate::refusal::QueueRefusal;
use crate::seat::{Asked, Seat, forget, free, hold, hold_each, next};
use crate::waiting::ask_each;
use label_expr::LabelExpr;
use model_run::{Held, OpenRequest, Site};
use std::alloc::{AllocError, Global};

/// The executors of a site, and the requests that wait for one.
#[derive(Drop)]
pub struct Queue {
    seats: Vec<Seat>,
    /// In the order in which they were asked.
    waiting: Vec<Asked>,
}

impl Queue {
    /// No executor is held and no request waits.
    pub fn new(alloc: Global, site: &Site) -> Result<Queue, AllocError>
        ensures { IfOk result (λ queue. StandsFor site.now [] [] queue) }
    {
        let mut seats = Vec::new(alloc);
        for executor in site.executors.as_slice() {
            seats.push(Seat::new(executor)?)?;
        }
        Ok(Queue {
            seats,
            waiting: Vec::new(alloc),
        })
    }

    /// The queue of a build that goes on: each held executor is held by its request, and the open requests of `node`
    /// steps wait in the order of the list. Their labels have no fault. What it grants is said of any held executors;
    /// who holds what only where no executor stands twice among the held ones, as in every build.
    ///
    /// `Unknown` comes exactly where a held executor is not of the site, and tells the first such in the list. `Memory`
    /// comes only where the memory was refused.
    pub fn rebuild(
        alloc: Global,
        site: &Site,
        requests: &[OpenRequest],
        held: &[Held],
    ) -> Result<Queue, QueueRefusal>
        requires labels { AllAre (λ r. WithoutFault r.request) requests.now }
        ensures grants { IfOk result (λ queue. GrantsAs site.now held.now requests.now queue) }
        ensures stands { IfOk result (λ queue. Distinct (map (λ h. h.executor) held.now) → StandsFor site.now held.now requests.now queue) }
        ensures known { IfOk result (λ _. first_unknown site.now held.now ≡ None) }
        ensures refused { IfErr result (λ refusal. IsRefusal (first_unknown site.now held.now) refusal) }
    {
        let mut queue = Queue::new(alloc, site)?;
        if let Some(executor) = hold_each(&mut queue.seats, held) {
            return Err(QueueRefusal::Unknown { executor });
        }
        ask_each(alloc, &mut queue.waiting, requests)?;
        Ok(queue)
    }

    /// A request waits behind all others. `AllocError` where the memory was refused: then it does not wait.
    pub fn ask(&mut self, request: u32, expr: LabelExpr) -> Result<(), AllocError>
        ensures asked { OnOk result ((site : Site) (held : List Held) (requests : List OpenRequest) (asked : OpenRequest) → StandsFor site held requests self.old → IsAskOf asked request expr → StandsFor site held (requests ++ asked ∷ []) self.new) }
        ensures unchanged { OnErr result ((site : Site) (held : List Held) (requests : List OpenRequest) → StandsFor site held requests self.old → StandsFor site held requests self.new) }
    {
        self.waiting.push(Asked { request, expr })?;
        Ok(())
    }

    /// A request waits no longer, as at the end of a build; where it does not wait all stays as it is. It takes no memory.
    pub fn cancel(&mut self, request: u32)
        ensures { (site : Site) (held : List Held) (requests : List OpenRequest) → StandsFor site held requests self.old → StandsFor site held (filter (λ r. not (nat_eq r.number request)) requests) self.new }
    {
        forget(&mut self.waiting, request);
    }

    /// Frees the executor that this request holds; `false` exactly where it holds none. It takes no memory.
    pub fn release(&mut self, request: u32) -> bool
        ensures freed { (site : Site) (held : List Held) (requests : List OpenRequest) → StandsFor site held requests self.old → StandsFor site (without_request request held) requests self.new }
        ensures told { (site : Site) (held : List Held) (requests : List OpenRequest) → StandsFor site held requests self.old → first_unknown site held ≡ None → result ≡ list_any (λ h. nat_eq h.request request) held }
        ensures holds { result ≡ list_any (λ seat. is_holder seat.holder request) self.old.seats.items }
    {
        free(&mut self.seats, request)
    }

    /// The grant that is due, as the numbers of request and executor; the request waits no longer and holds the
    /// executor. `None` exactly where no waiting request fits a free executor. It takes no memory.
    pub fn next_grant(&mut self) -> Option<(u32, u32)>
        ensures grant { (site : Site) (held : List Held) (requests : List OpenRequest) → StandsFor site held requests self.old → result ≡ grant site held requests }
        ensures due { (site : Site) (held : List Held) (requests : List OpenRequest) → GrantsAs site held requests self.old → result ≡ grant site held requests }
        ensures after { (site : Site) (held : List Held) (requests : List OpenRequest) → StandsFor site held requests self.old → Granted site held requests result self.new }
    {
        let (request, number) = next(&self.seats, &self.waiting)?;
        hold(&mut self.seats, number, request);
        forget(&mut self.waiting, request);
        Some((request, number))
    }
}
