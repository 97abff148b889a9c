// Whether a measurement is missed.
ghost use Rattle.std.specs.Prelude.{◌≡◌, ◌≤◌, true, false, All, length};
ghost use Rattle.std.specs.List.Sorted.{IsPartitionPoint};
ghost use Rattle.acas_base.specs.Order.{IsRising, is_below, miss_below};
ghost use Rattle.acas_base.specs.declared.craft.Miss.{Miss};
ghost use Rattle.flight.specs.Measurement.{AreMissing, covers, is_missed, lasts_in};

use acas_base::{CRAFTS, Encounter, Miss, Record};

/// Whether a record says that this own aircraft misses the reply of this target in a cycle.
pub fn is_missed(encounter: &Encounter, own: u8, target: u8, cycle: u16) -> bool
    ensures { result ≡ is_missed encounter.now own target cycle }
{
    let misses = encounter.misses();
    let first = count_over(misses, own, target, cycle);
    if first == misses.len() {
        return false;
    }
    covers(&misses[first], own, target, cycle)
}

// For each own aircraft whether it misses some target in a cycle.
pub(crate) fn owns_missing(encounter: &Encounter, cycle: u16) -> [bool; CRAFTS]
    ensures { AreMissing encounter.now cycle result }
{
    let misses = encounter.misses();
    let mut owns = [false; CRAFTS];
    for miss in misses {
        if lasts_in(miss, cycle) {
            owns[usize::from(miss.own)] = true;
        }
    }
    owns
}

// How many records stand before those that can cover the cycle.
fn count_over(misses: &[Miss], own: u8, target: u8, cycle: u16) -> usize
    requires rising { IsRising miss_below misses.now }
    requires order { All (λ (miss : Miss). miss.from ≤ miss.to) misses.now }
    ensures bound { result ≤ length misses.now }
    ensures parted { IsPartitionPoint (λ (miss : Miss). is_below (miss.own, miss.target, miss.to) (own, target, cycle) ≡ true) (λ (miss : Miss). is_below (miss.own, miss.target, miss.to) (own, target, cycle) ≡ false) misses.now result }
{
    misses.partition_point(|miss| is_over(miss, own, target, cycle))
}

// Whether the record stands before those that can cover the cycle.
fn is_over(miss: &Miss, own: u8, target: u8, cycle: u16) -> bool
    ensures { result ≡ is_below (miss.now.own, miss.now.target, miss.now.to) (own, target, cycle) }
{
    miss.is_below(&Miss {
        own,
        target,
        from: cycle,
        to: cycle,
    })
}

fn covers(miss: &Miss, own: u8, target: u8, cycle: u16) -> bool
    ensures { result ≡ covers own target cycle miss.now }
{
    (miss.own == own && miss.target == target) && lasts_in(miss, cycle)
}

fn lasts_in(miss: &Miss, cycle: u16) -> bool
    ensures { result ≡ lasts_in cycle miss.now }
{
    miss.from <= cycle && cycle <= miss.to
}
