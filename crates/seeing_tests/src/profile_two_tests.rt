// Expected values: by hand from the rules of profile 2, as `craft_view` and the crates below it state them. Most
// aircraft fly so that the tracks are exact: on one line at constant rates, with altitudes in steps of 25 ft.
use crate::craft_view_tests::view_in;
use crate::profiled::{encounter_of, setting};
use acas_base::{CraftSpec, Encounter, Gains, Profile, Setting, View};
use std::alloc::Global;
use std::test::Fail;
use test_encounters::{aircraft, leg, miss};

const FOOT: i64 = 1024;

const POSITIVE: usize = 4;

// Own aircraft, and another one that flies along one line with it: the altitudes in cycle 1 in ft and their rates in
// ft/min, and how far off the other is in cycle 1, in ft, and how that changes, in ft/s.
#[derive(Clone, Copy)]
struct Pair {
    own: i32,
    own_rate: i32,
    other: i32,
    other_rate: i32,
    distance: i32,
    speed: i32,
}

// Two at 35,000 ft that meet after 60 s.
const LEVEL: Pair = Pair {
    own: 35_000,
    own_rate: 0,
    other: 35_000,
    other_rate: 0,
    distance: 91_200,
    speed: -1_520,
};

// What the first aircraft sees in a cycle.
fn seen(alloc: Global, profile: Profile, pair: Pair, cycle: u16) -> Result<View, Fail> {
    let own = aircraft(0x40_0A01, 0, pair.own)?;
    let other = aircraft(0x40_0B02, pair.distance, pair.other)?;
    let legs = [
        leg(0, 1, 0, pair.own_rate),
        leg(1, 1, pair.speed, pair.other_rate),
    ];
    let met = encounter_of(alloc, setting(profile, cycle), &[own, other], &legs, &[])?;
    view_in(&met, 0, 1, cycle)
}

// Two that pass 24,304 ft from each other, far beyond DMOD. Three measurements are missed, from cycle 20 on.
fn passing(alloc: Global) -> Result<Encounter, Fail> {
    let own = aircraft(0x40_0A01, 0, 35_000)?;
    let other = CraftSpec {
        y: 24_304,
        ..aircraft(0x40_0B02, 91_200, 35_000)?
    };
    let legs = [leg(0, 1, 760, 0), leg(1, 1, -760, 0)];
    encounter_of(
        alloc,
        setting(Profile::Two, 23),
        &[own, other],
        &legs,
        &[miss(0, 1, 20, 22)],
    )
}

// The square track runs from the third measurement on, so the fourth one is the first without a surprise, and that of
// cycle 18 is the fifteenth. In cycle 21 two are missed in a row, in cycle 22 three. In cycle 23 none is.
const FAR: [(u16, bool); 5] = [(17, false), (18, true), (21, true), (22, false), (23, true)];

#[test]
fn filters_after_fifteen_calm_cycles(rt: HostRuntime) -> Result<(), Fail> {
    let met = passing(rt.alloc())?;
    for place in 0..FAR.len() {
        let (cycle, far) = FAR[place];
        assert!(rt; view_in(&met, 0, 1, cycle)?.far == far, "{cycle}");
    }
    Ok(())
}

// Two that don't move, at an altitude and a distance; a cycle; whether an advisory lasts, and whether they are far from
// each other. DMOD is 6,683 ft at level 7 and 3,341 ft at level 5.
const STILL: [(i32, i32, u16, bool, bool); 6] = [
    (35_000, 6_683, 17, true, false),
    (35_000, 6_683, 18, true, true),
    (35_000, 6_682, 18, true, false),
    (35_000, 6_684, 18, false, true),
    (9_000, 3_341, 18, true, true),
    (9_000, 3_340, 18, true, false),
];

fn is_still(alloc: Global, row: (i32, i32, u16, bool, bool)) -> Result<bool, Fail> {
    let (altitude, distance, cycle, lasts, far) = row;
    let pair = Pair {
        own: altitude,
        other: altitude,
        distance,
        speed: 0,
        ..LEVEL
    };
    let view = seen(alloc, Profile::Two, pair, cycle)?;
    Ok(view.lasts == lasts && view.far == far && view.threat == (lasts && !far))
}

// The filter keeps an advisory from starting, and doesn't end one.
#[test]
fn filters_from_dmod_on(rt: HostRuntime) -> Result<(), Fail> {
    for place in 0..STILL.len() {
        assert!(rt; is_still(rt.alloc(), STILL[place])?, "{place}");
    }
    Ok(())
}

// Two at level 6, within DMOD, that get apart by 29 ft/s. In cycle 5 they are 116 ft further apart than in cycle 1. The
// product of level 6 is 102,631 ft2/s, 29 times 3,539.
#[test]
fn opens_above_the_product_of_the_level(rt: HostRuntime) -> Result<(), Fail> {
    let near = Pair {
        own: 15_000,
        other: 15_000,
        distance: 3_423,
        speed: 29,
        ..LEVEL
    };
    let view = seen(rt.alloc(), Profile::Two, near, 5)?;
    assert!(rt; view.lasts && view.traffic && view.threat);
    let beyond = Pair {
        distance: 3_424,
        ..near
    };
    let view = seen(rt.alloc(), Profile::Two, beyond, 5)?;
    assert!(rt; !view.lasts && !view.traffic && !view.threat);
    let view = seen(rt.alloc(), Profile::One, beyond, 5)?;
    assert!(rt; view.lasts && view.traffic && view.threat);
    Ok(())
}

// In cycle 19 they are 100 ft apart, and in cycle 20 they have passed and are 1,420 ft apart. The track of the range is
// surprised by 1,420 ft: it has 947 ft and -1,165 ft/s, and 1.6 half-seconds.
#[test]
fn projects_nothing_after_the_closest_approach(rt: HostRuntime) -> Result<(), Fail> {
    let passed = Pair {
        distance: 27_460,
        ..LEVEL
    };
    assert_eq!(rt; seen(rt.alloc(), Profile::One, passed, 20)?.halves, 1);
    assert_eq!(rt; seen(rt.alloc(), Profile::Two, passed, 20)?.halves, 0);
    Ok(())
}

// Own altitude below another aircraft at 35,400 ft, and the distance in cycle 1; the half-seconds of cycle 20; and
// whether an advisory up may increase. The time of an increase of level 7 is 26 s. In 52 half-seconds Positive brings
// own aircraft up by half of 56,320 + 43 * 25,600: 565 ft. In 53 it is 577.5 ft.
const HURRIES: [(i32, i32, u16, bool); 4] = [
    (34_900, 68_780, 52, true),
    (34_900, 69_540, 53, false),
    (35_034, 68_780, 52, true),
    (35_035, 68_780, 52, false),
];

fn is_in_hurry(alloc: Global, row: (i32, i32, u16, bool)) -> Result<bool, Fail> {
    let (own, distance, halves, up) = row;
    let pair = Pair {
        own,
        other: 35_400,
        distance,
        ..LEVEL
    };
    let view = seen(alloc, Profile::Two, pair, 20)?;
    Ok(view.halves == halves && view.hurries.up == up && !view.hurries.down)
}

#[test]
fn increases_in_time_and_near(rt: HostRuntime) -> Result<(), Fail> {
    for place in 0..HURRIES.len() {
        assert!(rt; is_in_hurry(rt.alloc(), HURRIES[place])?, "{place}");
    }
    let low = Pair {
        own: 35_035,
        other: 35_400,
        distance: 68_780,
        ..LEVEL
    };
    let view = seen(rt.alloc(), Profile::Two, low, 20)?;
    assert_eq!(rt; view.later.up[POSITIVE], 200 * FOOT);
    Ok(())
}

// At one altitude, with 760 ft to go in cycle 20, and with 759 ft.
#[test]
fn increases_up_to_the_last_half_second(rt: HostRuntime) -> Result<(), Fail> {
    let last = Pair {
        distance: 29_640,
        ..LEVEL
    };
    let view = seen(rt.alloc(), Profile::Two, last, 20)?;
    assert!(rt; view.halves == 1 && view.hurries.up && view.hurries.down);
    let over = Pair {
        distance: 29_639,
        ..LEVEL
    };
    let view = seen(rt.alloc(), Profile::Two, over, 20)?;
    assert!(rt; view.halves == 0 && !view.hurries.up && !view.hurries.down);
    let view = seen(rt.alloc(), Profile::One, over, 20)?;
    assert!(rt; view.halves == 0 && view.hurries.up && view.hurries.down);
    Ok(())
}

// Own altitude beside another aircraft at 35,000 ft, and whether up and down cross: in profile 2, and in profile 1.
const CROSSES: [(i32, (bool, bool), (bool, bool)); 5] = [
    (34_900, (true, false), (true, false)),
    (34_901, (false, false), (true, false)),
    (35_000, (false, false), (false, true)),
    (35_099, (false, false), (false, true)),
    (35_100, (false, true), (false, true)),
];

fn crosses(alloc: Global, profile: Profile, own: i32) -> Result<(bool, bool), Fail> {
    let view = seen(alloc, profile, Pair { own, ..LEVEL }, 5)?;
    Ok((view.crosses.up, view.crosses.down))
}

#[test]
fn crosses_from_100_ft_on(rt: HostRuntime) -> Result<(), Fail> {
    for place in 0..CROSSES.len() {
        let (own, second, first) = CROSSES[place];
        assert!(rt;
            crosses(rt.alloc(), Profile::Two, own)? == second,
            "{place}"
        );
        assert!(rt; crosses(rt.alloc(), Profile::One, own)? == first, "{place}");
    }
    Ok(())
}

// Own altitude, its rate up to cycle 4, and its rate from there to cycle 5; the other's altitude and rate; and the
// distance, in cycle 1. Whether advisories up and down are in a chase in cycle 5. The other comes nearer by 1,520 ft/s.
type Chase = (i32, i32, i32, i32, i32, i32, bool, bool);

// 600 ft/min are 10 ft/s. In cycle 5 own aircraft is 10 ft lower, and by 15 ft/s slower: after 20 half-seconds it is
// 160 ft lower. Descending it is 10 ft higher, and then 160 ft.
const TOGETHER: [Chase; 6] = [
    (35_000, 600, 600, 34_950, 1_500, 21_280, true, false),
    (35_000, 600, 540, 34_950, 1_500, 21_280, false, false),
    (35_000, -600, -600, 35_050, -1_500, 21_280, false, true),
    (35_000, -600, -540, 35_050, -1_500, 21_280, false, false),
    (35_000, 600, 600, 34_950, -1_500, 21_280, false, false),
    (35_000, 1_500, 1_500, 35_000, 0, 21_280, false, false),
];

// After 8 half-seconds own aircraft is 70 ft lower, and 6,079 ft are less than 8 of them. At equal rates they stay as
// far apart as they are.
const HELD: [Chase; 6] = [
    (35_000, 600, 600, 34_950, 1_500, 12_160, true, true),
    (35_000, 600, 600, 34_950, 1_500, 12_159, false, false),
    (35_100, 1_500, 1_500, 35_000, 1_500, 21_280, false, true),
    (35_099, 1_500, 1_500, 35_000, 1_500, 21_280, true, true),
    (34_901, 1_500, 1_500, 35_000, 1_500, 21_280, true, true),
    (34_900, 1_500, 1_500, 35_000, 1_500, 21_280, true, false),
];

// The tracks of altitudes take over each measurement, and a 1024th of a surprise into the rate: 9 ft after 10 ft/s make
// 10,239.
fn chases(alloc: Global, row: Chase) -> Result<bool, Fail> {
    let (own, own_rate, last_rate, other, other_rate, distance, up, down) = row;
    let setting = Setting {
        altitude: Gains {
            alpha: 1_024,
            beta: 1,
        },
        ..setting(Profile::Two, 5)
    };
    let crafts = [
        aircraft(0x40_0A01, 0, own)?,
        aircraft(0x40_0B02, distance, other)?,
    ];
    let legs = [
        leg(0, 1, 0, own_rate),
        leg(0, 4, 0, last_rate),
        leg(1, 1, -1_520, other_rate),
    ];
    let met = encounter_of(alloc, setting, &crafts, &legs, &[])?;
    let view = view_in(&met, 0, 1, 5)?;
    Ok(view.chases.up == up && view.chases.down == down)
}

#[test]
fn chases_where_both_go_together(rt: HostRuntime) -> Result<(), Fail> {
    for place in 0..TOGETHER.len() {
        assert!(rt; chases(rt.alloc(), TOGETHER[place])?, "{place}");
    }
    Ok(())
}

#[test]
fn chases_in_time_and_near(rt: HostRuntime) -> Result<(), Fail> {
    for place in 0..HELD.len() {
        assert!(rt; chases(rt.alloc(), HELD[place])?, "{place}");
    }
    Ok(())
}

// Own altitude and rate, and the distance, in cycle 1; whether there is a threat in cycle 5. The other climbs by 50
// ft/s, and is at 33,750 ft then. At level 7 the reduced time is 25 s, tau 35 s, and ZTHR 700 ft.
//
// From 51,680 ft they have some 60 half-seconds, in which the other passes own altitude. Own aircraft is slow where it
// is level: 25 times 50 ft is 1,250 ft. It is where it descends by 10 ft/s: 25 times 60 ft is 1,500 ft. It isn't where
// it descends by 11 ft/s: 35 times 61 ft is 2,135 ft.
//
// From 23,180 ft they have 22 half-seconds, in which the other comes 550 ft nearer, to ZTHR. From 22,380 ft they have
// 21.
const ALTITUDE: [(i32, i32, i32, bool); 7] = [
    (35_000, 0, 51_680, true),
    (35_001, 0, 51_680, false),
    (35_290, -600, 51_680, true),
    (35_291, -600, 51_680, false),
    (35_295, -660, 51_680, true),
    (35_000, 0, 23_180, true),
    (35_000, 0, 22_380, false),
];

fn threatens(alloc: Global, row: (i32, i32, i32, bool)) -> Result<bool, Fail> {
    let (own, own_rate, distance, threat) = row;
    let pair = Pair {
        own,
        own_rate,
        other: 33_550,
        other_rate: 3_000,
        distance,
        ..LEVEL
    };
    let view = seen(alloc, Profile::Two, pair, 5)?;
    Ok(view.lasts && view.threat == threat)
}

#[test]
fn threatens_in_the_time_of_its_rate(rt: HostRuntime) -> Result<(), Fail> {
    for place in 0..ALTITUDE.len() {
        assert!(rt; threatens(rt.alloc(), ALTITUDE[place])?, "{place}");
    }
    Ok(())
}

#[test]
fn has_the_numbers_of_its_profile(rt: HostRuntime) -> Result<(), Fail> {
    let view = seen(rt.alloc(), Profile::Two, LEVEL, 5)?;
    assert!(rt; view.settled_at == 10 && view.looks_ahead && view.enough == 200 * FOOT);
    let view = seen(rt.alloc(), Profile::One, LEVEL, 5)?;
    assert!(rt; view.settled_at == 5 && !view.looks_ahead && view.enough == 600 * FOOT);
    Ok(())
}

// A cycle of an aircraft that comes down from 1,100 ft by 50 ft/s, and whether it resolves, and is high enough to
// descend: in profile 2, and in profile 1. It is at 1,050, 1,000, 950, 900 and 850 ft.
const LOW: [(u16, (bool, bool), (bool, bool)); 5] = [
    (2, (true, true), (true, false)),
    (3, (true, true), (true, false)),
    (4, (true, false), (false, false)),
    (5, (true, false), (false, false)),
    (6, (false, false), (false, false)),
];

fn resolves(alloc: Global, profile: Profile, cycle: u16) -> Result<(bool, bool), Fail> {
    let pair = Pair {
        own: 1_100,
        own_rate: -3_000,
        other: 1_100,
        ..LEVEL
    };
    let view = seen(alloc, profile, pair, cycle)?;
    Ok((view.resolves, view.descends))
}

#[test]
fn remembers_the_bounds_that_it_was_above(rt: HostRuntime) -> Result<(), Fail> {
    for place in 0..LOW.len() {
        let (cycle, second, first) = LOW[place];
        assert!(rt;
            resolves(rt.alloc(), Profile::Two, cycle)? == second,
            "{cycle}"
        );
        assert!(rt;
            resolves(rt.alloc(), Profile::One, cycle)? == first,
            "{cycle}"
        );
    }
    Ok(())
}
