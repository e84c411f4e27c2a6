//! A thread for the tests: it runs the empty script, and has no memory for any other.

use cps_frames::Shared;
use green_threads::{Runner, Stop};
use model_run::{Answer, Outcome};
use model_syntax::NodeForm;
use model_values::Value;
use script_thread::ScriptThread;
use std::alloc::{AllocError, Global};

/// The thread of the empty script.
#[derive(Drop)]
pub struct EmptyScript {
    pub number: u32,
    pub parent: Option<u32>,
    pub has_begun: bool,
}

impl Runner for EmptyScript {
    ghost use Rattle.std.specs.Prelude.{◌≡◌, ◌-◌, length, None, false, refl};
    ghost use Rattle.model_run.specs.World.{run_limits};
    ghost use Rattle.cps_frames.specs.Standing.{setting_of, common_of};
    ghost use Rattle.settle_laws.specs.Stances.{Turns};
    ghost use Rattle.build_trials.specs.EmptyScripts.{stance_of, AsBegun};

    type Shared = Shared;

    ghost number = { λ t. t.number };

    ghost parent = { λ t. t.parent };

    ghost branch = { λ t. false };

    ghost head = { λ t. 2 };

    ghost seated = { λ t n p. record { number = n; parent = p; has_begun = t.has_begun } };

    ghost marked = { λ t. t };

    ghost room = { λ u. run_limits.flow_nodes - length u.graph };

    ghost fits = { AsBegun (record { number = 0; parent = None; has_begun = false }) };

    // a turn changes nothing that threads share
    ghost turns = { λ t u x stopped t' u'. (u' ≡ u) × Turns (λ t. stance_of t.number t.parent t.has_begun) common_of setting_of t u x stopped t' u' };

    fn head(&self) -> u32 {
        2
    }

    fn seat(&mut self, at: u32, under: Option<u32>) {
        self.number = at;
        self.parent = under;
    }

    fn mark(&mut self) {}

    ghost marked_seat = { λ t. record { number_same = refl; parent_same = refl; branch_same = refl } };

    fn resume(
        &mut self,
        shared: &mut Shared,
        _answer: Answer,
    ) -> Result<Stop<EmptyScript>, AllocError> {
        if shared.code.len() != 1 {
            return Err(AllocError);
        }
        match shared.code.kind(0) {
            NodeForm::Script => {}
            _ => return Err(AllocError),
        }
        self.has_begun = true;
        Ok(Stop::Ended(Outcome::Value(Value::Null)))
    }
}

impl ScriptThread for EmptyScript {
    ghost use Rattle.std.specs.Prelude.{[], None, true, refl};
    ghost use Rattle.script_thread.proofs.Stays.{stays_itself};
    ghost use Rattle.build_core.proofs.Marks.{stays};
    ghost use Rattle.build_trials.specs.EmptyScripts.{stance_of, begun_sound, begun_marked, heads_begun, none_open, never_rests, begins};

    ghost stance = { λ t. stance_of t.number t.parent t.has_begun };

    ghost low = { λ t. 0 };

    fn low(&self) -> usize {
        0
    }

    ghost touched = { λ t. true };

    fn is_touched(&self) -> bool {
        true
    }

    fn script(_alloc: Global) -> Result<EmptyScript, AllocError> {
        Ok(EmptyScript {
            number: 0,
            parent: None,
            has_begun: false,
        })
    }

    ghost head_is = { λ t. refl };

    ghost seated_is = { λ t n p. refl };

    ghost turned = { λ t u x stopped t' u' so. so.1 };

    ghost marks = { λ t u x stopped t' u' so. stays u u' so.0 };

    ghost stays = { λ t u x stopped t' u' so. stays_itself 0 [] };

    ghost touches = { λ t u x stopped t' u' so. refl };

    ghost marked_is = { λ t. refl };

    ghost room_is = { λ u. refl };

    ghost begun_fits = { λ t u e alone begun. begins (λ has_begun. record { number = 0; parent = None; has_begun = has_begun }) t.number t.parent t.has_begun u e begun };

    ghost marked_fits = { λ xs u fit. begun_marked _ xs u fit };

    ghost shared_fits = { λ xs u fit. begun_sound _ xs u fit };

    ghost heads_stand = { λ xs u fit. heads_begun (λ t. stance_of t.number t.parent t.has_begun) _ xs u refl fit };

    ghost awaited = { λ xs u n fit there. none_open _ xs u n fit there };

    ghost event_fits = { λ xs u event fit none accepted ends_not. never_rests _ xs u event fit none };
}
