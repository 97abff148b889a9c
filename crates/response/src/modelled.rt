// The modelled flight of an aircraft, as a value.
ghost use Rattle.std.specs.Prelude.{◌≡◌, ◌+◌, ◌-◌, ◌<◌, ◌≤◌, ◌^◌, IfSome, MatchOption, length, unsigned_abs};
ghost use Rattle.response.specs.Flying.{Flying, flying};
ghost use Rattle.response.specs.Modelled.{FlightTold, IsNextAltitude};

use crate::flier::Flier;
use acas_base::Encounter;
use air_journal::AirState;
use std::marker::Model;

/// How an aircraft would have flown with the modelled response, cycle by cycle: what [`crate::flown`] gives in each
/// cycle of the run in turn, in one pass.
#[derive(Drop)]
pub struct ModelledFlight<'a> {
    flier: Flier<'a>,
    cycles: u16,
    told: u16,
}

impl<'a> Model for ModelledFlight<'a> {
    ghost use Rattle.response.specs.Modelled.{FlightTold, IsTold};

    ghost Value = { FlightTold };

    ghost view = { λ f. record { encounter = f.flier.encounter; journal = f.flier.journal; craft = f.flier.own; told = f.told } };

    ghost invariant = { λ f. IsTold f.flier f.cycles f.told };
}

// Flies to the cycle after those that were told.
fn fly_to_next(flier: &mut Flier<'_>, told: u16)
    requires run { told < flier.old.encounter.cycles }
    requires at { flier.old.cycle ≡ told + (1 - told) }
    ensures { flier.new ≡ flying flier.old.encounter flier.old.journal flier.old.own (told + 1) }
{
    if told > 0 {
        flier.fly();
    }
}

impl<'a> ModelledFlight<'a> {
    /// With the plan of another encounter. What it plans is responded from, in the cycles of its run, to what the
    /// commits of the state say. No cycle is told yet.
    pub fn with_plan(plan: &'a Encounter, state: &'a AirState, craft: u8) -> ModelledFlight<'a>
        requires { craft < length plan.now.crafts }
        ensures plan { result.encounter ≡ plan.now }
        ensures journal { result.journal ≡ state.now.journal }
        ensures craft { result.craft ≡ craft }
        ensures told { result.told ≡ 0 }
    {
        ModelledFlight {
            flier: Flier::new(plan, state, craft),
            cycles: plan.cycles(),
            told: 0,
        }
    }

    /// With the plan of the state's own encounter. No cycle is told yet.
    pub fn new(state: &'a AirState, craft: u8) -> ModelledFlight<'a>
        requires { craft < length state.now.encounter.crafts }
        ensures encounter { result.encounter ≡ state.now.encounter }
        ensures journal { result.journal ≡ state.now.journal }
        ensures craft { result.craft ≡ craft }
        ensures told { result.told ≡ 0 }
    {
        ModelledFlight::with_plan(state.enc(), state, craft)
    }

    /// The altitude in the next cycle, in 1/2048 ft; none after the last cycle of the run.
    pub fn next(&mut self) -> Option<i64>
        ensures altitude { MatchOption result (self.old.told ≡ self.old.encounter.cycles) (IsNextAltitude self.old) }
        ensures told { MatchOption result (self.new ≡ self.old) (λ altitude. self.new ≡ record self.old { told = self.old.told + 1 }) }
        ensures bound { IfSome result (λ altitude. unsigned_abs altitude ≤ 2 ^ 30) }
    {
        if self.told == self.cycles {
            return None;
        }
        fly_to_next(&mut self.flier, self.told);
        self.told += 1;
        Some(self.flier.altitude())
    }
}
