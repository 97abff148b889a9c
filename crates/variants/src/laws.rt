// Laws of encounters with one thing changed.
ghost use Rattle.std.specs.Prelude.{ℕ, ℤ, ◌≤◌};
ghost use Rattle.acas_base.specs.Encounter.{IsEncounter, Parts};
ghost use Rattle.variants.specs.Flights.{FliesLate, IsLate};
ghost use Rattle.variants.specs.Losses.{IsLossy, LosesThese};
ghost use Rattle.variants.specs.Variants.{HasSizesOf, IsVaried, OneVariant};
ghost use Rattle.variants.specs.declared.change.Change.{Change};
ghost use Rattle.variants.specs.declared.change.Loss.{Loss};

/// A law: for each change there is at most one encounter that has it and is like the whole one in all else.
pub fn one_variant_law()
    ensures { OneVariant }
{}

/// A law: where an aircraft flies later, it is in each cycle where it was so many cycles before, and each other aircraft
/// is where it was.
pub fn late_law()
    ensures { (e : Parts) (craft : ℕ) (late : ℤ) (d : Parts) → IsLate e craft late d → FliesLate e craft late d }
{}

/// A law: where messages are lost, these have no copies, and what happens to all others stays.
pub fn loss_law()
    ensures { (e : Parts) (loss : Loss) (d : Parts) → IsLossy e loss d → LosesThese e loss d }
{}

/// A law: a variant has as many aircraft and cycles as the encounter.
pub fn sizes_law()
    ensures { (e : Parts) (change : Change) (d : Parts) → IsVaried e change d → HasSizesOf d e }
{}
