// Expected values: by hand from "Tests" in docs/RULES.md.
use acas_base::Row;
use vert_test::{Approach, alt_test, is_slow, passes_close};

const FOOT: i64 = 1024;

// The thresholds of a resolution advisory at level 5.
const LEVEL_5: Row = Row {
    tau: 25,
    dmod: 3_341 * FOOT,
    zthr: 600 * FOOT,
};

// Within 600 ft, whatever the rate. Beyond it at 40 ft/s: 25 s, and one unit more. At the same rate apart.
#[test]
fn tells_a_little_more_than_tau(rt: HostRuntime) {
    let rows = [
        (600 * FOOT, 40 * FOOT, true),
        (-600 * FOOT, -40 * FOOT, true),
        (600 * FOOT + 1, 0, false),
        (1_000 * FOOT, -40 * FOOT, true),
        (1_000 * FOOT + 1, -40 * FOOT, false),
        (-1_000 * FOOT, 40 * FOOT, true),
        (-1_000 * FOOT - 1, 40 * FOOT, false),
        (1_000 * FOOT, 40 * FOOT, false),
    ];
    for (dz, dzdot, holds) in rows {
        assert_eq!(rt; alt_test(dz, dzdot, &LEVEL_5), holds, "{dz} {dzdot}");
    }
}

// 600 ft/min is 10,240. Beyond it own has to move the other's way, and slower.
#[test]
fn tells_a_slow_aircraft(rt: HostRuntime) {
    let rows = [
        (10_240, 0, true),
        (-10_240, 0, true),
        (10_241, 0, false),
        (10_241, 10_241, false),
        (10_241, 10_242, true),
        (-10_241, -10_242, true),
        (-10_241, 10_242, false),
    ];
    for (own, other, slow) in rows {
        assert_eq!(rt; is_slow(own, other), slow, "{own} {other}");
    }
}

// Whether the two pass within 700 ft in altitude. An approach that is longer than any says no.
fn is_close(height: i32, rate: i32, halves: u16, nearer: u16) -> bool {
    let row = Row {
        tau: 35,
        dmod: 6_683 * FOOT,
        zthr: 700 * FOOT,
    };
    if halves > 4_096 || nearer > 4_096 || height < -10_000_000 || height > 10_000_000 {
        return false;
    }
    if rate < -1_000_000 || rate > 1_000_000 {
        return false;
    }
    passes_close(
        i64::from(height),
        i64::from(rate),
        &Approach { halves, nearer },
        &row,
    )
}

// Twice ZTHR is 1,433,600. The pair of the first three rows comes down to twice a height of 2,048,472 in 10
// half-seconds, to 1,433,880 in 28, and to 1,399,736 in 29. The next four are at ZTHR and one unit above it, at the
// later and at the sooner time. The last three pass through own altitude, from above and from below, or get away from
// it.
#[test]
fn tells_a_small_vertical_miss(rt: HostRuntime) {
    let rows = [
        (1_194_956, -34_144, 10, 2, false),
        (1_194_956, -34_144, 28, 2, false),
        (1_194_956, -34_144, 29, 2, true),
        (716_800, 0, 10, 2, true),
        (716_801, 0, 10, 2, false),
        (716_801, 1, 10, 0, false),
        (716_801, -1, 2, 0, true),
        (1_000_000, -100_000, 100, 0, true),
        (-1_000_000, 100_000, 100, 0, true),
        (-1_000_000, -100_000, 100, 0, false),
    ];
    for (height, rate, halves, nearer, close) in rows {
        assert_eq!(rt;
            is_close(height, rate, halves, nearer),
            close,
            "{height} {rate} {halves} {nearer}"
        );
    }
}
