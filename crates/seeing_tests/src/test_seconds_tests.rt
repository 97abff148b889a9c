// Expected values: by hand from "The seconds of a test" in docs/FORMATS.md and "Tests" in docs/RULES.md.
use acas_base::Row;
use test_seconds::{altitude_seconds, range_seconds};

const FOOT: i64 = 1024;

// The thresholds of a resolution advisory at level 5.
const LEVEL_5: Row = Row {
    tau: 25,
    dmod: 3_341 * FOOT,
    zthr: 600 * FOOT,
};

// At DMOD itself, whether it closes or not; beyond it by modified tau: 388,837,719 sq ft at 10,000,000 sq ft/s; and at
// the same range where it doesn't close.
#[test]
fn tells_the_seconds_of_the_range_test(rt: HostRuntime) {
    let rows = [
        (3_341 * FOOT, -500 * FOOT, Some(0)),
        (3_341 * FOOT, 500 * FOOT, Some(0)),
        (20_000 * FOOT, -500 * FOOT, Some(39)),
        (20_000 * FOOT, 0, None),
        (20_000 * FOOT, 500 * FOOT, None),
    ];
    for (r, rdot, seconds) in rows {
        assert_eq!(rt; range_seconds(r, rdot, &LEVEL_5), seconds, "{r} {rdot}");
    }
}

// Within 600 ft whatever the rate; beyond it 25 s at 40 ft/s, and one unit more; and at the same rate apart.
#[test]
fn tells_the_seconds_of_the_altitude_test(rt: HostRuntime) {
    let rows = [
        (600 * FOOT, 40 * FOOT, Some(0)),
        (-600 * FOOT, -40 * FOOT, Some(0)),
        (600 * FOOT + 1, 0, None),
        (1_000 * FOOT, -40 * FOOT, Some(25)),
        (1_000 * FOOT + 1, -40 * FOOT, Some(26)),
        (-1_000 * FOOT, 40 * FOOT, Some(25)),
        (1_000 * FOOT, 40 * FOOT, None),
    ];
    for (dz, dzdot, seconds) in rows {
        assert_eq!(rt;
            altitude_seconds(dz, dzdot, &LEVEL_5),
            seconds,
            "{dz} {dzdot}"
        );
    }
}
