// A run that goes as a plan says.
ghost use Rattle.std.specs.Prelude.{IfOk, IfSome};
ghost use Rattle.flight.specs.Inside.{IsInside};
ghost use Rattle.instances.specs.Having.{IsAskedRun};

use crate::losing::encounter_for;
use crate::planning::Plan;
use crate::steering::steered;
use acas_base::Encounter;
use air_journal::AirState;
use pair_ways::Scope;
use resume::fill;
use std::alloc::{AllocError, Global};

/// A run in which the aircraft go through the rounds of a plan, and then on to the end. Where losses are asked about,
/// the messages are lost that the plan loses. None where no encounter loses these.
pub(crate) fn acted(
    alloc: Global,
    scope: Scope,
    encounter: &Encounter,
    plan: &Plan,
) -> Result<Option<AirState>, AllocError>
    requires { IsInside encounter.now }
    ensures { IfOk result (λ acted. IfSome acted (IsAskedRun scope encounter.now)) }
{
    let Some(lossy) = encounter_for(alloc, scope, encounter, plan)? else {
        return Ok(None);
    };
    let mut run = steered(alloc, &lossy, plan)?;
    fill(&mut run, &lossy);
    run.legal_law();
    Ok(Some(run))
}
