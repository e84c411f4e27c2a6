//! One build.
ghost use Rattle.std.specs.Prelude.{◌≡◌, ◌⊎◌, Ok, IfOk, OnOk, OnErr};
ghost use Rattle.model_run.specs.declared.event.Event.{Event};
ghost use Rattle.model_run.specs.declared.taken.Taken.TheVariants.{Accepted, Finished};
ghost use Rattle.model_run.specs.Grants.{grant};
ghost use Rattle.model_run.specs.Requests.{RequestsStay};
ghost use Rattle.model_run.specs.GraphText.{graph_text};
ghost use Rattle.model_run.specs.Taking.{taken};
ghost use Rattle.model_run.specs.World as W;
ghost use Rattle.cps_code.specs.Script.{script_of};
ghost use Rattle.green_threads.specs.Threads.{marked_group};
ghost use Rattle.script_thread.specs.Marks.{GoesOnFrom, ThreadsStay, marked};
ghost use Rattle.build_requests.specs.Waiting.{waiting_inputs, open_tasks, input_of};
ghost use Rattle.build_core.specs.declared.phase.Phase.TheVariants.{Running, Ended, Stopped};
ghost use Rattle.build_core.specs.Phases.{SoundIn, has_begun, has_ended};
ghost use Rattle.build_core.specs.Builds.{StandsFor, setting_in, standing_of, nodes_of};
ghost use Rattle.build_core.specs.Taking.{MayWant, StepsOn};

use crate::events::{accept, answer_to};
use crate::grants::due_grant;
use crate::phase::Phase;
use crate::turns::begin;
use build_log::Log;
use build_requests::{input_of, open_tasks, waiting_inputs};
use cell_heap::Heap;
use cps_code::Code;
use cps_frames::Shared;
use flow_graph::Graph;
use green_threads::Group;
use model_run::{
    BuildResult, Event, FlowNode, Held, HeldExecutors, OpenRequest, OpenRequests, Site, Taken,
};
use model_text::Bytes;
use script_thread::ScriptThread;
use std::alloc::{AllocError, Global};
use std::marker::Model;

/// A build of a script on the executors of a site.
///
/// A contract sees how far it has come, its threads, and what they share; and says `StandsFor R.stance build w` where the
/// build stands for the build w of the definitions. What it keeps between two events is the invariant of the type.
#[derive(Drop)]
pub struct Build<R: ScriptThread> {
    shared: Shared,
    group: Group<R>,
    phase: Phase,
}

impl<R: ScriptThread> Model for Build<R> {
    ghost use Rattle.build_core.specs.Builds.{Parts};
    ghost use Rattle.build_core.specs.Phases.{SoundIn};

    ghost Value = { Parts R };

    ghost view = { λ b. record { phase = b.phase; group = b.group; shared = b.shared } };

    ghost invariant = { λ b. SoundIn R.number R.parent R.branch R.fits b.phase b.group b.shared };
}

impl<R: ScriptThread + Drop> Build<R> {
    /// The build of a script that has taken no event. `AllocError` where the memory was refused.
    pub fn new(alloc: Global, code: Code, site: Site) -> Result<Build<R>, AllocError>
        ensures stands { IfOk result (λ build. StandsFor R.stance build W.unbegun) }
        ensures setting { IfOk result (λ build. setting_in build ≡ W.setting_of W.run_limits (script_of code) site) }
    {
        let shared = Shared {
            code,
            site,
            heap: Heap::new(alloc),
            binding: Vec::new(alloc),
            graph: Graph::start(alloc)?,
            log: Log::new(alloc),
            result: BuildResult::Success,
            requests: OpenRequests::new(alloc),
            held: HeldExecutors::new(alloc),
            next_request: 1,
            count: 0,
        };
        Ok(Build {
            shared,
            group: Group::new(alloc),
            phase: Phase::Unbegun,
        })
    }

    /// Takes an event, and says so.
    ///
    /// The answer is that of the definitions: `Finished` where the build has ended, `NotOpen` where the event names what is
    /// not open or begins the build a second time, `WrongPlace` where output does not go on where the stream was left, and
    /// else `Accepted`. Only `Accepted` changes anything: the thread that the event answers is ready, and threads go on until
    /// each waits or the build is over. Where it answers, what is unmarked behind it is as it was: of the cells each that is
    /// new or was written is marked, flow nodes, bytes of the log and binding variables are added alone, and of the frames of
    /// a thread those are the same, from the outermost on, that count as untouched; a thread that is not touched is the same
    /// but for what it waits for. An open request with the number of one from before is the same, but for what was taken of
    /// its output and what came to the output that is kept.
    ///
    /// # Errors
    ///
    /// `AllocError` where the memory was refused, in this call or an earlier one: the build takes no event any more, and what
    /// its other calls give is open. In this call that is where the event is accepted, or is a grant of an open request of a
    /// `node` step and of an executor that is free; a build that has ended answers `Finished` without memory.
    pub fn take(&mut self, event: &Event) -> Result<Taken, AllocError>
        ensures taken { IfOk result (λ answer. answer ≡ taken (standing_of self.old) event.now) }
        ensures unchanged { IfOk result (λ answer. (answer ≡ Accepted → ⊥) → self.new ≡ self.old) }
        ensures stands { OnOk result ((w : W.Build) → StandsFor R.stance self.old w → StandsFor R.stance self.new (W.after_one (setting_in self.old) w event.now)) }
        ensures steps { OnOk result (self.old.phase ≡ Running → taken (standing_of self.old) event.now ≡ Accepted → StepsOn R.stance R.seated R.head R.turns R.room event.now self.old.group self.old.shared self.new.phase self.new.group self.new.shared) }
        ensures marks { OnOk result (GoesOnFrom self.old.shared self.new.shared) }
        ensures requests { OnOk result (RequestsStay self.old.shared.requests self.new.shared.requests) }
        ensures frames { OnOk result (ThreadsStay R.low R.touched R.stance self.old.group.seats self.new.group.seats) }
        ensures setting { OnOk result (setting_in self.new ≡ setting_in self.old) }
        ensures ended { self.old.phase ≡ Ended → result ≡ Ok Finished }
        ensures memory { OnErr result (MayWant self.old.phase (standing_of self.old) event.now) }
        ensures stopped { OnErr result (self.new.phase ≡ Stopped) }
        ensures goes_on { OnOk result (self.old.phase ≡ Stopped → ⊥) }
    {
        let before = self.phase;
        if before == Phase::Stopped {
            return Err(AllocError);
        }
        // a refusal from here on leaves it so
        self.phase = Phase::Stopped;
        let answer = answer_to(before, &self.shared, event)?;
        if answer != Taken::Accepted {
            self.phase = before;
            return Ok(answer);
        }
        self.phase = match before {
            Phase::Unbegun => begin(&mut self.shared, &mut self.group)?,
            _ => accept(&mut self.shared, &mut self.group, event)?,
        };
        Ok(answer)
    }

    /// From now on no cell is marked, so that the marked cells are those that are new or were written since; and each thread
    /// is marked. Nothing else changes. It takes no memory, and the time of the number of the marked cells and of the threads.
    pub fn mark(&mut self)
        ensures { self.new ≡ record self.old { group = marked_group R.marked self.old.group; shared = marked self.old.shared } }
    {
        self.group.mark();
        self.shared.heap.mark();
    }

    /// The flow nodes, in order of their numbers. It takes no memory.
    pub fn nodes(&self) -> &[FlowNode]
        ensures here { result.now ≡ nodes_of self.now }
        ensures world { (w : W.Build) → StandsFor R.stance self.now w → result.now ≡ w.shared.nodes }
    {
        match self.phase {
            Phase::Unbegun => &[],
            _ => self.shared.graph.nodes(),
        }
    }

    /// The text of the flow graph: a line for each node. `AllocError` where the memory was refused.
    pub fn graph_text(&self) -> Result<Bytes, AllocError>
        ensures here { IfOk result (λ text. text ≡ graph_text (nodes_of self.now)) }
        ensures world { IfOk result (λ text. (w : W.Build) → StandsFor R.stance self.now w → text ≡ graph_text w.shared.nodes) }
    {
        match self.phase {
            Phase::Unbegun => Ok(Bytes::new(self.shared.alloc())),
            _ => self.shared.graph.text(),
        }
    }

    /// The bytes of the log.
    pub fn log(&self) -> &[u8]
        ensures here { result.now ≡ self.now.shared.log }
        ensures world { (w : W.Build) → StandsFor R.stance self.now w → result.now ≡ w.shared.log }
    {
        self.shared.log.bytes()
    }

    /// The result so far; where the build has ended, its result.
    pub fn result(&self) -> BuildResult
        ensures here { result ≡ self.now.shared.result }
        ensures world { (w : W.Build) → StandsFor R.stance self.now w → result ≡ w.shared.result }
    {
        self.shared.result
    }

    /// The open requests, in order of their numbers.
    pub fn requests(&self) -> &[OpenRequest]
        ensures here { result.now ≡ self.now.shared.requests }
        ensures world { (w : W.Build) → StandsFor R.stance self.now w → result.now ≡ w.shared.requests }
    {
        self.shared.requests.as_slice()
    }

    /// The held executors, in order of their numbers.
    pub fn held(&self) -> &[Held]
        ensures here { result.now ≡ self.now.shared.held }
        ensures world { (w : W.Build) → StandsFor R.stance self.now w → result.now ≡ w.shared.held }
    {
        self.shared.held.as_slice()
    }

    /// Whether the build has begun.
    pub fn has_begun(&self) -> bool
        ensures here { result ≡ has_begun self.now.phase }
        ensures world { (w : W.Build) → StandsFor R.stance self.now w → result ≡ w.started }
    {
        self.phase != Phase::Unbegun
    }

    /// Whether the build has ended.
    pub fn has_ended(&self) -> bool
        ensures here { result ≡ has_ended self.now.phase }
        ensures world { (w : W.Build) → StandsFor R.stance self.now w → result ≡ w.ended }
    {
        self.phase == Phase::Ended
    }

    /// The grant that is due, as the numbers of request and executor: the lowest-numbered open request of a `node` step that
    /// some free executor fits gets the first such executor in the order of the agents file. `None` exactly where no open
    /// request is fitted. `AllocError` where the memory was refused, in this call or while the build took an event.
    pub fn next_grant(&self) -> Result<Option<(u32, u32)>, AllocError>
        ensures here { IfOk result (λ due. due ≡ grant self.now.shared.site self.now.shared.held self.now.shared.requests) }
        ensures world { IfOk result (λ due. (w : W.Build) → StandsFor R.stance self.now w → due ≡ W.next_grant (setting_in self.now) w) }
        ensures memory { OnErr result ((self.now.phase ≡ Running) ⊎ (self.now.phase ≡ Stopped)) }
    {
        match self.phase {
            Phase::Running => due_grant(&self.shared),
            Phase::Unbegun | Phase::Ended => Ok(None),
            Phase::Stopped => Err(AllocError),
        }
    }

    /// How many inputs wait for a decision.
    pub fn waiting_inputs(&self) -> usize
        ensures here { result ≡ waiting_inputs self.now.shared.requests }
        ensures world { (w : W.Build) → StandsFor R.stance self.now w → result ≡ waiting_inputs w.shared.requests }
    {
        waiting_inputs(self.shared.requests.as_slice())
    }

    /// The number of the first open input with this id; `None` exactly where there is none.
    pub fn input_of(&self, id: &[u8]) -> Option<u32>
        ensures here { result ≡ input_of id.now self.now.shared.requests }
        ensures world { (w : W.Build) → StandsFor R.stance self.now w → result ≡ input_of id.now w.shared.requests }
    {
        input_of(self.shared.requests.as_slice(), id)
    }

    /// How many tasks have not ended.
    pub fn open_tasks(&self) -> usize
        ensures here { result ≡ open_tasks self.now.shared.requests }
        ensures world { (w : W.Build) → StandsFor R.stance self.now w → result ≡ open_tasks w.shared.requests }
    {
        open_tasks(self.shared.requests.as_slice())
    }

    /// Its job and its executors.
    pub fn site(&self) -> &Site
        ensures { result.now ≡ (setting_in self.now).site }
    {
        &self.shared.site
    }

    /// How far it has come.
    pub fn phase(&self) -> Phase
        ensures { result ≡ self.now.phase }
    {
        self.phase
    }

    /// What its threads share, for what makes images of builds. While it goes on, its threads and this fit, and no thread is
    /// ready.
    pub fn shared(&self) -> &Shared
        ensures shared { result.now ≡ self.now.shared }
        ensures sound { SoundIn R.number R.parent R.branch R.fits self.now.phase self.now.group self.now.shared }
    {
        &self.shared
    }

    /// Its threads, for what makes images of builds.
    pub fn group(&self) -> &Group<R>
        ensures { result.now ≡ self.now.group }
    {
        &self.group
    }

    /// The build that has come so far, with these threads and what they share, for what reads images of builds. It is sound
    /// where its threads fit what they share and none is ready, or where it has ended and has none. It takes no memory.
    pub fn of_parts(phase: Phase, shared: Shared, group: Group<R>) -> Build<R>
        requires sound { SoundIn R.number R.parent R.branch R.fits phase group shared }
        ensures { result ≡ record { phase = phase; group = group; shared = shared } }
    {
        Build {
            shared,
            group,
            phase,
        }
    }
}
