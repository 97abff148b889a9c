// The replies that an encounter plans to be missed.
ghost use Rattle.std.specs.Prelude.{◌≡◌};
ghost use Rattle.std.specs.List.{list_any};
ghost use Rattle.deliveries.specs.Misses.{has_misses, is_miss_of_run, misses_reply, missed_of};

use crate::rows::Numbers;
use acas_base::{CraftSpec, Encounter, Miss, is_active_at};
use flight::is_missed;

fn misses_reply(encounter: &Encounter, own: u8, target: u8, cycle: u16) -> bool
    ensures { result ≡ misses_reply encounter.now own target cycle }
{
    is_active_at(encounter.crafts(), own) && is_missed(encounter, own, target, cycle)
}

/// In which cycles of the run an active aircraft gets no reply from another one, by the plan of an encounter.
pub fn missed(encounter: &Encounter, own: u8, target: u8) -> Numbers
    ensures { result ≡ missed_of encounter.now own target }
{
    encounter.valid_law();
    let mut cycles = Numbers::new();
    for before in 0..encounter.cycles() {
        cycles.push(misses_reply(encounter, own, target, before + 1));
    }
    cycles
}

fn is_miss_of_run(crafts: &[CraftSpec], cycles: u16, miss: &Miss) -> bool
    ensures { result ≡ is_miss_of_run crafts.now cycles miss.now }
{
    is_active_at(crafts, miss.own) && miss.from <= cycles
}

fn some_miss_of_run(misses: &[Miss], crafts: &[CraftSpec], cycles: u16) -> bool
    ensures { result ≡ list_any (is_miss_of_run crafts.now cycles) misses.now }
{
    misses
        .iter()
        .any(|miss| is_miss_of_run(crafts, cycles, miss))
}

/// Whether an active aircraft misses a reply within the run, by the plan of an encounter.
pub(crate) fn has_misses(encounter: &Encounter) -> bool
    ensures { result ≡ has_misses encounter.now }
{
    some_miss_of_run(encounter.misses(), encounter.crafts(), encounter.cycles())
}
