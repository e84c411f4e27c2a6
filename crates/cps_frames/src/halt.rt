//! Why a function of the machine comes to its end before its last line.

ghost use Rattle.std.specs.Prelude.{◌≡◌, Some, None, MatchResult};
ghost use Rattle.cps_frames.specs.Halts.{halt_of, log_halt, move_of, node_halt};
ghost use Rattle.cps_frames.specs.declared.halt.Halt.TheVariants.{Ends, Limit, Memory};

use crate::Move;
use build_log::LogRefusal;
use flow_graph::NodeRefusal;
use model_run::Ending;
use model_values::LimitKind;
use std::alloc::AllocError;
use value_view::OpRefusal;

/// Why a function of the machine comes to its end before its last line.
#[derive(Drop)]
pub enum Halt {
    /// The memory was refused.
    Memory,
    /// The node ends so: an operation has thrown, or an ending is passed on.
    Ends(Ending),
    /// The build has met this limit, which ends it.
    Limit(LimitKind),
}

impl From<AllocError> for Halt {
    ghost from_gives = { λ _ halt. halt ≡ Memory };

    fn from(_error: AllocError) -> Halt {
        Halt::Memory
    }
}

impl From<Ending> for Halt {
    ghost from_gives = { λ ending halt. halt ≡ Ends ending };

    fn from(ending: Ending) -> Halt {
        Halt::Ends(ending)
    }
}

impl From<LimitKind> for Halt {
    ghost from_gives = { λ limit halt. halt ≡ Limit limit };

    fn from(limit: LimitKind) -> Halt {
        Halt::Limit(limit)
    }
}

impl From<OpRefusal> for Halt {
    ghost from_gives = { λ refusal halt. halt ≡ halt_of refusal };

    fn from(refusal: OpRefusal) -> Halt {
        match refusal {
            OpRefusal::Memory => Halt::Memory,
            OpRefusal::Thrown(cell) => Halt::Ends(Ending::Thrown(cell)),
            OpRefusal::Limit(limit) => Halt::Limit(limit),
        }
    }
}

impl From<NodeRefusal> for Halt {
    ghost from_gives = { λ refusal halt. halt ≡ node_halt refusal };

    fn from(refusal: NodeRefusal) -> Halt {
        match refusal {
            NodeRefusal::Memory => Halt::Memory,
            NodeRefusal::NodeLimit => Halt::Limit(LimitKind::FlowNodes),
        }
    }
}

impl From<LogRefusal> for Halt {
    ghost from_gives = { λ refusal halt. halt ≡ log_halt refusal };

    fn from(refusal: LogRefusal) -> Halt {
        match refusal {
            LogRefusal::Memory => Halt::Memory,
            LogRefusal::LogLimit => Halt::Limit(LimitKind::LogSize),
        }
    }
}

/// The move that a result is. `AllocError` where the memory was refused.
pub fn moved(made: Result<Move, Halt>) -> Result<Move, AllocError>
    ensures { MatchResult result (λ step. move_of made ≡ Some step) (λ _. move_of made ≡ None) }
{
    match made {
        Ok(step) => Ok(step),
        Err(Halt::Ends(ending)) => Ok(Move::Ends(ending)),
        Err(Halt::Limit(limit)) => Ok(Move::Hits(limit)),
        Err(Halt::Memory) => Err(AllocError),
    }
}
