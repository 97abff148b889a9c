// What the run of an encounter comes to.
ghost use Rattle.std.specs.Prelude.{◌≡◌, ◌≤◌, length, replicate};
ghost use Rattle.outcomes.specs.Advised.{began, ended};
ghost use Rattle.outcomes.specs.Outcomes.{AreSenses, IsOutcome};
ghost use Rattle.outcomes.specs.declared.advised.Senses.TheVariants.{Neither};

use crate::advised::{Senses, began, ended, first_cycle};
use crate::events::{Event, times_in_all};
use crate::nearest::{Nearest, nearest_pair};
use crate::state::crafts;
use acas_base::CRAFTS;
use air_journal::AirState;

/// What the run of an encounter comes to.
#[derive(Clone, Copy)]
pub struct Outcome {
    /// How many aircraft there are.
    pub crafts: u8,
    /// The first cycle in which some aircraft has a resolution advisory.
    pub first: Option<u16>,
    /// By aircraft, the senses of its first composite with advice.
    pub began: [Senses; CRAFTS],
    /// By aircraft, the senses of its last composite with advice.
    pub ended: [Senses; CRAFTS],
    /// How often a cell changes its sense, and isn't newly reversed geometrically.
    pub turns: u32,
    /// How often a cell changes its sense, and is newly reversed geometrically.
    pub reversals: u32,
    /// In how many cycles two aircraft have advisories of one sense against each other, over all pairs.
    pub equal: u32,
    /// The two aircraft that come nearest, as planned; none where there is one aircraft.
    pub nearest: Option<Nearest>,
}

fn no_senses() -> [Senses; CRAFTS]
    ensures { result ≡ replicate 16 Neither }
{
    [Senses::Neither; CRAFTS]
}

fn all_began(state: &AirState) -> [Senses; CRAFTS]
    ensures { AreSenses (began state.now.encounter state.now.journal) (length state.now.encounter.crafts) result }
{
    let mut list = no_senses();
    for own in 0..crafts(state) {
        list[usize::from(own)] = began(state, own);
    }
    list
}

fn all_ended(state: &AirState) -> [Senses; CRAFTS]
    ensures { AreSenses (ended state.now.encounter state.now.journal) (length state.now.encounter.crafts) result }
{
    let mut list = no_senses();
    for own in 0..crafts(state) {
        list[usize::from(own)] = ended(state, own);
    }
    list
}

/// The outcome of a state's encounter and journal. It takes no memory.
pub fn outcome_of(state: &AirState) -> Outcome
    ensures { IsOutcome state.now.encounter state.now.journal result }
{
    Outcome {
        crafts: crafts(state),
        first: first_cycle(state),
        began: all_began(state),
        ended: all_ended(state),
        turns: times_in_all(Event::Turn, state),
        reversals: times_in_all(Event::Reversal, state),
        equal: times_in_all(Event::Equal, state),
        nearest: nearest_pair(state),
    }
}
