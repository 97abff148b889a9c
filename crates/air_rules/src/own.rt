// What a journal says of an aircraft by that aircraft's own entries.
ghost use Rattle.air_rules.specs.Air.{Air};
ghost use Rattle.air_rules.specs.Own.{AddsToOwn, KeepsOthers, StaysBetween};
ghost use Rattle.air_rules.specs.Own.{DependsOnOwn, LeavesOthers, CompletesByOwn};

/// A law: an entry is added to the entries of the aircraft that makes it, and leaves those of every other one. A
/// journal between two journals with the same entries of an aircraft has these entries too. How many cycles an aircraft
/// has committed, its last cells, what it sent, took and said, and what it owes follow from its own entries alone. So
/// journals that differ in the entries of others can show that all aircraft are done.
pub fn own_law()
    ensures adds { AddsToOwn }
    ensures keeps { KeepsOthers }
    ensures between { StaysBetween }
    ensures depends { (air : Air) → DependsOnOwn air }
    ensures leaves { (air : Air) → LeavesOthers air }
    ensures completes { (air : Air) → CompletesByOwn air }
{}
