// Expected values: the table of "Levels" in docs/RULES.md.
ghost use Rattle.acas_base.specs.Ranges.{IsWithin};

use crate::profiled::{encounter_of, setting};
use acas_base::{Encounter, Profile, Row, Setting};
use flight::inside;
use sens_table::{Above, level_in};
use std::alloc::Global;
use std::test::Fail;
use test_encounters::{aircraft, leg};

const FOOT: i64 = 1024;

fn thresholds(tau: i64, dmod: i64, zthr: i64) -> Row
    requires dmod { IsWithin 10000 dmod }
    requires zthr { IsWithin 10000 zthr }
{
    Row {
        tau,
        dmod: dmod * FOOT,
        zthr: zthr * FOOT,
    }
}

// An altitude and the ground's, and the level and ALIM there, in ft.
type Band = (i32, i32, u8, i16);

// The first and the last altitude of each band over ground at sea level, and over high and low ground.
const BANDS: &[Band] = &[
    (-100_000, 0, 2, 0),
    (999, 0, 2, 0),
    (1_000, 0, 3, 300),
    (2_349, 0, 3, 300),
    (2_350, 0, 4, 300),
    (4_999, 0, 4, 300),
    (5_000, 0, 5, 350),
    (9_999, 0, 5, 350),
    (10_000, 0, 6, 400),
    (19_999, 0, 6, 400),
    (20_000, 0, 7, 600),
    (41_999, 0, 7, 600),
    (42_000, 0, 7, 700),
    (100_000, 0, 7, 700),
    (15_999, 15_000, 2, 0),
    (16_000, 15_000, 3, 300),
    (17_349, 15_000, 3, 300),
    (17_350, 15_000, 6, 400),
    (-1, -1_000, 2, 0),
    (0, -1_000, 3, 300),
    (1_350, -1_000, 4, 300),
];

fn has_level(band: Band) -> bool {
    let (altitude, elevation, sl, alim) = band;
    if altitude < -100_000 || altitude > 100_000 || elevation < -100_000 || elevation > 100_000 {
        return false;
    }
    let level = Above::first(altitude, elevation).level();
    level.sl == sl && level.alim == i64::from(alim) * FOOT
}

// The place of the first band with another level.
fn first_other(bands: &[Band]) -> Option<usize> {
    for place in 0..bands.len() {
        if !has_level(bands[place]) {
            return Some(place);
        }
    }
    None
}

#[test]
fn bands_begin_and_end(rt: HostRuntime) {
    assert_eq!(rt; first_other(BANDS), None);
}

#[test]
fn thresholds_change_at_42_000(rt: HostRuntime) {
    let below = Above::first(41_999, 0).level();
    assert_eq!(rt; below.ta, thresholds(48, 7_898, 850));
    assert_eq!(rt; below.ra, Some(thresholds(35, 6_683, 700)));
    let above = Above::first(42_000, 0).level();
    assert_eq!(rt; above.ta, thresholds(48, 7_898, 1_200));
    assert_eq!(rt; above.ra, Some(thresholds(35, 6_683, 800)));
}

// The level of an aircraft over ground at sea level that was at these altitudes, one in each cycle.
fn level_after(profile: Profile, altitudes: &[i16]) -> u8 {
    let mut above = Above::first(0, 0);
    for place in 0..altitudes.len() {
        let altitude = i32::from(altitudes[place]);
        above = if place == 0 {
            Above::first(altitude, 0)
        } else {
            above.next(profile, altitude, 0)
        };
    }
    above.level().sl
}

// Each row begins on one side of a bound and comes as far as its width, less one foot and whole; in the last three it
// turns back within the width. The numbers are the level in profile 2 and in profile 1.
const MEMORY_OF_HEIGHTS: &[(&[i16], u8, u8)] = &[
    (&[999, 1_099], 2, 3),
    (&[999, 1_100], 3, 3),
    (&[1_000, 900], 3, 2),
    (&[1_000, 899], 2, 2),
    (&[2_349, 2_549], 3, 4),
    (&[2_349, 2_550], 4, 4),
    (&[2_350, 2_150], 4, 3),
    (&[2_350, 2_149], 3, 3),
];

const MEMORY_TO_10_000: &[(&[i16], u8, u8)] = &[
    (&[4_999, 5_499], 4, 5),
    (&[4_999, 5_500], 5, 5),
    (&[5_000, 4_500], 5, 4),
    (&[5_000, 4_499], 4, 4),
    (&[9_999, 10_499], 5, 6),
    (&[9_999, 10_500], 6, 6),
    (&[10_000, 9_500], 6, 5),
    (&[10_000, 9_499], 5, 5),
];

const MEMORY_ABOVE: &[(&[i16], u8, u8)] = &[
    (&[19_999, 20_499], 6, 7),
    (&[19_999, 20_500], 7, 7),
    (&[20_000, 19_500], 7, 6),
    (&[20_000, 19_499], 6, 6),
    (&[10_600, 9_450, 10_150], 5, 6),
    (&[10_600, 9_500, 10_150], 6, 6),
    (&[10_600, 9_450, 10_500], 6, 6),
];

// The place of the first row with another level.
fn first_forgotten(rows: &[(&[i16], u8, u8)]) -> Option<usize> {
    for place in 0..rows.len() {
        let (altitudes, second, first) = rows[place];
        if level_after(Profile::Two, altitudes) != second
            || level_after(Profile::One, altitudes) != first
        {
            return Some(place);
        }
    }
    None
}

#[test]
fn profile_2_remembers_the_level(rt: HostRuntime) {
    assert_eq!(rt; first_forgotten(MEMORY_OF_HEIGHTS), None);
    assert_eq!(rt; first_forgotten(MEMORY_TO_10_000), None);
    assert_eq!(rt; first_forgotten(MEMORY_ABOVE), None);
}

// The level is 7 on both sides of 42,000 ft, and ALIM isn't the same.
#[test]
fn profile_2_remembers_the_thresholds_of_42_000(rt: HostRuntime) {
    let below = Above::first(41_999, 0);
    assert_eq!(rt;
        below.next(Profile::Two, 42_499, 0).level().alim,
        600 * FOOT
    );
    assert_eq!(rt;
        below.next(Profile::Two, 42_500, 0).level().alim,
        700 * FOOT
    );
    assert_eq!(rt;
        below.next(Profile::One, 42_499, 0).level().alim,
        700 * FOOT
    );
    let above = Above::first(42_000, 0);
    assert_eq!(rt;
        above.next(Profile::Two, 41_500, 0).level().alim,
        700 * FOOT
    );
    assert_eq!(rt;
        above.next(Profile::Two, 41_499, 0).level().alim,
        600 * FOOT
    );
    assert_eq!(rt;
        above.next(Profile::One, 41_999, 0).level().alim,
        600 * FOOT
    );
}

#[test]
fn profile_2_remembers_whether_it_may_descend(rt: HostRuntime) {
    let high = Above::first(1_550, 0);
    assert!(rt; high.descends && high.descends_faster);
    let lower = high.next(Profile::Two, 1_450, 0);
    assert!(rt; lower.descends && lower.descends_faster);
    let low = lower.next(Profile::Two, 1_449, 0);
    assert!(rt; low.descends && !low.descends_faster);
    assert!(rt; !low.next(Profile::Two, 1_649, 0).descends_faster);
    assert!(rt; low.next(Profile::Two, 1_650, 0).descends_faster);
    assert!(rt; low.next(Profile::Two, 1_000, 0).descends);
    let lowest = low.next(Profile::Two, 999, 0);
    assert!(rt; !lowest.descends);
    assert!(rt; !lowest.next(Profile::Two, 1_199, 0).descends);
    assert!(rt; lowest.next(Profile::Two, 1_200, 0).descends);
    assert!(rt; !high.next(Profile::One, 1_549, 0).descends_faster);
}

// The numbers of profile 2 at an altitude: the reduced time, the time of an increase, and the product.
#[test]
fn levels_have_the_numbers_of_profile_2(rt: HostRuntime) {
    let rows = [
        (0, 0, 0, 73_835),
        (1_000, 15, 13, 73_835),
        (2_350, 18, 18, 102_631),
        (5_000, 20, 20, 102_631),
        (10_000, 22, 24, 102_631),
        (20_000, 25, 26, 147_671),
        (42_000, 25, 26, 147_671),
    ];
    for (altitude, slow, increase, product) in rows {
        let level = Above::first(altitude, 0).level();
        assert_eq!(rt;
            (level.slow_tau, level.increase_tau, level.product),
            (slow, increase, product),
            "{altitude}"
        );
    }
}

// An aircraft that climbs by a foot a second over ground at 500 ft, from a height of 900 ft.
fn climbing(alloc: Global, profile: Profile) -> Result<Encounter, Fail> {
    let setting = Setting {
        elevation: 500,
        ..setting(profile, 201)
    };
    encounter_of(
        alloc,
        setting,
        &[aircraft(0x40_0A01, 0, 1_400)?],
        &[leg(0, 1, 0, 60)],
        &[],
    )
}

// The level of the first aircraft in a cycle.
fn first_level(encounter: &Encounter, cycle: u16) -> Result<u8, Fail> {
    if !inside(encounter) {
        return Err("outside the box".into());
    }
    if encounter.crafts().len() == 0 || cycle > encounter.cycles() {
        return Err("no such level".into());
    }
    Ok(level_in(encounter, 0, cycle).sl)
}

// A cycle, and the level in profile 2 and in profile 1, at heights of 999, 1,000, 1,099 and 1,100 ft. In cycle 0 it is
// above no bound.
const CLIMBING: [(u16, u8, u8); 6] = [
    (0, 2, 2),
    (1, 2, 2),
    (100, 2, 2),
    (101, 2, 3),
    (200, 2, 3),
    (201, 3, 3),
];

#[test]
fn levels_follow_an_aircraft(rt: HostRuntime) -> Result<(), Fail> {
    let two = climbing(rt.alloc(), Profile::Two)?;
    let one = climbing(rt.alloc(), Profile::One)?;
    for place in 0..CLIMBING.len() {
        let (cycle, second, first) = CLIMBING[place];
        assert_eq!(rt; first_level(&two, cycle)?, second, "{cycle}");
        assert_eq!(rt; first_level(&one, cycle)?, first, "{cycle}");
    }
    Ok(())
}

// In cycle 1 a bound has no width. Later it has, in profile 2. All are at a height of 1,050 ft.
#[test]
fn levels_go_on_from_none(rt: HostRuntime) -> Result<(), Fail> {
    let two = climbing(rt.alloc(), Profile::Two)?;
    let one = climbing(rt.alloc(), Profile::One)?;
    let none = Above::none();
    assert_eq!(rt; none.level().sl, 2);
    assert!(rt; !none.descends && !none.descends_faster);
    assert_eq!(rt; none.go_on(0, &two, 1_550), Above::first(1_550, 500));
    assert_eq!(rt; none.go_on(0, &two, 1_550).level().sl, 3);
    assert_eq!(rt; none.go_on(1, &two, 1_550).level().sl, 2);
    assert_eq!(rt; none.go_on(1, &one, 1_550).level().sl, 3);
    Ok(())
}
