// The slant ranges of all aircraft in one cycle.
ghost use Rattle.std.specs.Prelude.{◌≡◌, ◌+◌, ◌<◌, ◌≤◌, ℕ, slice_index_or};
ghost use Rattle.acas_base.specs.declared.TheConstants.{CRAFTS};
ghost use Rattle.flight.specs.Bounds.{IsReachable};
ghost use Rattle.flight.specs.Flight.{nowhere};
ghost use Rattle.flight.specs.Measurement.{AreSlantRanges, slant_range};

use crate::{Place, slant_range};
use acas_base::{CRAFTS, PAIRS, pair_of};

// The slant range between two places, in ft.
fn range_of(here: Place, there: Place) -> u32
    requires here { IsReachable here }
    requires there { IsReachable there }
    ensures { result ≡ slant_range here there }
{
    slant_range(here, there) as u32
}

// Puts the ranges between the aircraft at an index and those before it, in both orders of the pair.
fn put_ranges_of(ranges: &mut [u32; PAIRS], places: &[Place; CRAFTS], index: u8)
    requires index { index < CRAFTS }
    requires reachable { (k : ℕ) → k < CRAFTS → IsReachable (slice_index_or places.now k nowhere) }
    ensures { AreSlantRanges places.now index ranges.old → AreSlantRanges places.now (index + 1) ranges.new }
{
    ranges[pair_of(index, index)] = 0;
    for earlier in 0..index {
        let range = range_of(places[usize::from(earlier)], places[usize::from(index)]);
        ranges[pair_of(earlier, index)] = range;
        ranges[pair_of(index, earlier)] = range;
    }
}

/// Puts the range of each two of the first aircraft. Each is measured once.
pub(crate) fn put_ranges(ranges: &mut [u32; PAIRS], places: &[Place; CRAFTS], count: u8)
    requires count { count ≤ CRAFTS }
    requires reachable { (k : ℕ) → k < CRAFTS → IsReachable (slice_index_or places.now k nowhere) }
    ensures { AreSlantRanges places.now count ranges.new }
{
    for index in 0..count {
        put_ranges_of(ranges, places, index);
    }
}

/// The range of each two of the first aircraft.
pub(crate) fn ranges_of(places: &[Place; CRAFTS], count: u8) -> [u32; PAIRS]
    requires count { count ≤ CRAFTS }
    requires reachable { (k : ℕ) → k < CRAFTS → IsReachable (slice_index_or places.now k nowhere) }
    ensures { AreSlantRanges places.now count result }
{
    let mut ranges = [0; PAIRS];
    put_ranges(&mut ranges, places, count);
    ranges
}
