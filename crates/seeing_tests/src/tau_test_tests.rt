// Expected values: by hand from "Tests" in docs/RULES.md.
use acas_base::Row;
use tau_test::{halves_by_modified_tau, range_test};

const FOOT: i64 = 1024;

// The thresholds of a resolution advisory at level 5.
const LEVEL_5: Row = Row {
    tau: 25,
    dmod: 3_341 * FOOT,
    zthr: 600 * FOOT,
};

#[test]
fn tells_a_little_more_than_tau(rt: HostRuntime) {
    let rows = [
        (10_000 * FOOT, -400 * FOOT, true),
        (10_000 * FOOT, -355 * FOOT, false),
        (3_341 * FOOT, FOOT, true),
        (3_342 * FOOT, FOOT, false),
    ];
    for (r, rdot, holds) in rows {
        assert_eq!(rt; range_test(r, rdot, &LEVEL_5), holds, "{r} {rdot}");
    }
}

// At 10,000 ft and 400 ft/s, with DMOD 3,341 ft: twice 88,837,719 / 4,000,000 is 44.4. At 40,000 ft and 100 ft/s it is
// above twice tau, 50. Within DMOD, and where the range doesn't close, it is 0.
#[test]
fn counts_half_seconds_by_modified_tau(rt: HostRuntime) {
    let rows = [
        (10_000 * FOOT, -400 * FOOT, 44),
        (40_000 * FOOT, -100 * FOOT, 50),
        (3_341 * FOOT, -400 * FOOT, 0),
        (3_342 * FOOT, -400 * FOOT, 0),
        (10_000 * FOOT, 0, 0),
        (10_000 * FOOT, 400 * FOOT, 0),
    ];
    for (r, rdot, halves) in rows {
        assert_eq!(rt;
            halves_by_modified_tau(r, rdot, &LEVEL_5),
            halves,
            "{r} {rdot}"
        );
    }
}
