// Expected values: by hand from "Numbers" and "Tracks" in docs/RULES.md.
use acas_num::{Limits, TrackState, floor_div, root};

const FOOT: i64 = 1024;

// A number, a divisor, and the quotient.
const QUOTIENTS: &[(i64, i64, i64)] = &[
    (7, 2, 3),
    (-7, 2, -4),
    (8, 2, 4),
    (-8, 2, -4),
    (0, 60, 0),
    (-1, 60, -1),
    (i64::MIN, 1, i64::MIN),
    (i64::MAX, i64::MAX, 1),
    (i64::MIN, i64::MAX, -2),
];

// The place of the first row with another quotient.
fn first_divided(rows: &[(i64, i64, i64)]) -> Option<usize> {
    for place in 0..rows.len() {
        let (a, b, quotient) = rows[place];
        if b < 1 || floor_div(a, b) != quotient {
            return Some(place);
        }
    }
    None
}

#[test]
fn rounds_down(rt: HostRuntime) {
    assert_eq!(rt; first_divided(QUOTIENTS), None);
}

// A number and its root.
const ROOTS: &[(u64, u64)] = &[
    (0, 0),
    (1, 1),
    (3, 1),
    (4, 2),
    (4_294_967_295, 65_535),
    (4_294_967_296, 65_536),
    (u64::MAX, 4_294_967_295),
];

// The place of the first row with another root.
fn first_rooted(rows: &[(u64, u64)]) -> Option<usize> {
    for place in 0..rows.len() {
        let (n, r) = rows[place];
        if root(n) != r {
            return Some(place);
        }
    }
    None
}

#[test]
fn takes_roots(rt: HostRuntime) {
    assert_eq!(rt; first_rooted(ROOTS), None);
}

#[test]
fn follows_a_range(rt: HostRuntime) {
    let limits = Limits::range();
    let one = TrackState::Empty.step(Some(10_000), 512, 256, &limits);
    let run = one.step(Some(9_900), 512, 256, &limits);
    let second = TrackState::Run {
        est: 9_900 * FOOT,
        rate: -100 * FOOT,
        missed: 0,
    };
    assert_eq!(rt; run, second);

    let third = TrackState::Run {
        est: 9_795 * FOOT,
        rate: -104_960,
        missed: 0,
    };
    assert_eq!(rt; run.step(Some(9_790), 512, 256, &limits), third);
}

#[test]
fn is_given_up_at_the_sixth_miss(rt: HostRuntime) {
    let limits = Limits::range();
    let mut state = TrackState::Run {
        est: 9_900 * FOOT,
        rate: -100 * FOOT,
        missed: 0,
    };
    for _ in 0..5 {
        state = state.step(None, 512, 256, &limits);
    }
    let last = TrackState::Run {
        est: 9_400 * FOOT,
        rate: -100 * FOOT,
        missed: 5,
    };
    assert_eq!(rt; state, last);

    let lost = state.step(None, 512, 256, &limits);
    assert_eq!(rt; lost, TrackState::Empty);
    let again = lost.step(Some(9_000), 512, 256, &limits);
    assert_eq!(rt; again, TrackState::One { est: 9_000 * FOOT });
}
