// How near two aircraft come, as planned.
ghost use Rattle.std.specs.Prelude.{◌≡◌, ◌<◌, length};
ghost use Rattle.acas_base.specs.Ranges.{IsCycle};
ghost use Rattle.flight.specs.Approach.{IsClosest, closest_cycle, range_between};

use crate::{position, slant_range};
use acas_base::Encounter;

/// Where two aircraft are nearest, as planned.
#[derive(Clone, Copy)]
pub struct ClosestApproach {
    /// The first cycle of the run in which their slant range is least.
    pub cycle: u16,
    /// Their slant range in that cycle, in ft and rounded down.
    pub range: u64,
}

/// The slant range of two aircraft in a cycle, as planned, in ft and rounded down. It has no upper limit (this
/// project's profile).
pub fn range_between(encounter: &Encounter, a: u8, b: u8, cycle: u16) -> u64
    requires a { a < length encounter.now.crafts }
    requires b { b < length encounter.now.crafts }
    requires cycle { IsCycle cycle }
    ensures { result ≡ range_between encounter.now a b cycle }
{
    slant_range(position(encounter, a, cycle), position(encounter, b, cycle))
}

/// Where two aircraft are nearest in the run, as planned (this project's profile).
pub fn closest_approach(encounter: &Encounter, a: u8, b: u8) -> ClosestApproach
    requires a { a < length encounter.now.crafts }
    requires b { b < length encounter.now.crafts }
    ensures closest { IsClosest encounter.now a b result.cycle }
    ensures cycle { result.cycle ≡ closest_cycle encounter.now a b }
    ensures range { result.range ≡ range_between encounter.now a b result.cycle }
{
    let mut cycle = 1;
    let mut range = range_between(encounter, a, b, 1);
    for earlier in 1..encounter.cycles() {
        let next = range_between(encounter, a, b, earlier + 1);
        if next < range {
            range = next;
            cycle = earlier + 1;
        }
    }
    ClosestApproach { cycle, range }
}
