// What holds of every state of the air.
ghost use Rattle.std.specs.Prelude.{◌≡◌, ℕ, ◌≤◌};
ghost use Rattle.air_journal.specs.Airs.{air_of};
ghost use Rattle.air_journal.specs.Cells.{commit_cells};
ghost use Rattle.air_rules.specs.Journal.{commits};
ghost use Rattle.air_rules.specs.Onward.{IsNeverStuck};
ghost use Rattle.air_rules.specs.Priority.{HasPriority};
ghost use Rattle.air_rules.specs.Runs.{HasRunBySense};
ghost use Rattle.air_rules.specs.Safe.{IsSafe};
ghost use Rattle.air_rules.specs.Settled.{IsSettled};
ghost use Rattle.air_rules.specs.Worlds.{IsToldTheSame};
ghost use Rattle.craft_view.specs.Facts.{SeesAlike};
ghost use Rattle.craft_view.specs.Kept.{IsActive};

use crate::laws::{alike_law, sound_law};
use crate::state::AirState;

/// A law: no aircraft that gives way commits an advisory in the sense that the complement in force forbids
/// to it; and where the message in force was sent since the threat took its present sense, the senses are
/// opposite.
pub fn settled_law(state: &AirState)
    ensures safe { IsSafe (air_of state.now.encounter) state.now.journal }
    ensures settled { IsSettled (air_of state.now.encounter) state.now.journal }
    ensures runs { HasRunBySense }
{
    sound_law();
    state.legal_law();
    air_rules::safe_law();
    air_rules::settled_law();
}

/// A law: who changes its sense and why, how advisories start, and how long two senses can be equal; and
/// where the journal isn't complete, some entry is allowed next: a send where somebody owes, else a take
/// where something is due, else the commit of an aircraft with the fewest commits.
pub fn priority_law(state: &AirState)
    ensures priority { HasPriority (air_of state.now.encounter) state.now.journal }
    ensures onward { IsNeverStuck (air_of state.now.encounter) state.now.journal }
{
    sound_law();
    state.legal_law();
    air_rules::priority_law();
    air_rules::onward_law();
}

/// A law: where an aircraft has committed the same number of cycles in two journals, has equal sights in both up to
/// there, and has equal complements in force before each of these commits, it commits equal cells.
pub fn worlds_law(a: &AirState, b: &AirState, own: u8, cycle: u16)
    requires active_in_a { IsActive a.now.encounter own }
    requires active_in_b { IsActive b.now.encounter own }
    requires made_in_a { cycle ≤ commits a.now.journal own }
    requires made_in_b { cycle ≤ commits b.now.journal own }
    ensures { SeesAlike a.now.encounter b.now.encounter own cycle →
        IsToldTheSame (air_of a.now.encounter) (air_of b.now.encounter) a.now.journal b.now.journal own cycle →
        (k : ℕ) → 1 ≤ k → k ≤ cycle → commit_cells a.now.journal own k ≡ commit_cells b.now.journal own k }
{
    a.legal_law();
    b.legal_law();
    alike_law();
    air_rules::worlds_law();
    let _ = (own, cycle);
}
