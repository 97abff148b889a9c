// Expected values: by hand from "Tracks" in docs/RULES.md.
ghost use Rattle.std.specs.Prelude.{pos, neg_ℤ, IsTrue, IfSome};
ghost use Rattle.acas_num.specs.Clamp.{LiesBetween};

use acas_base::Gains;
use acas_num::TrackState;
use alt_track::AltTrack;

const FOOT: i64 = 1024;

const USUAL: Gains = Gains {
    alpha: 512,
    beta: 256,
};

const NONE: Gains = Gains { alpha: 0, beta: 0 };

const ALL: Gains = Gains {
    alpha: 1024,
    beta: 1024,
};

// A measurement, the gains, and the state after it.
type Step = (Option<i32>, Gains, TrackState);

const STEPS: &[Step] = &[
    (None, USUAL, TrackState::Empty),
    (Some(35_000), USUAL, TrackState::One { est: 35_000 * FOOT }),
    (
        Some(35_300),
        USUAL,
        TrackState::Run {
            est: 35_300 * FOOT,
            rate: 200 * FOOT,
            missed: 0,
        },
    ),
    (
        Some(35_400),
        USUAL,
        TrackState::Run {
            est: 35_450 * FOOT,
            rate: 175 * FOOT,
            missed: 0,
        },
    ),
    (
        Some(30_000),
        NONE,
        TrackState::Run {
            est: 35_625 * FOOT,
            rate: 175 * FOOT,
            missed: 0,
        },
    ),
    (
        Some(35_700),
        ALL,
        TrackState::Run {
            est: 35_700 * FOOT,
            rate: 75 * FOOT,
            missed: 0,
        },
    ),
    (
        None,
        ALL,
        TrackState::Run {
            est: 35_775 * FOOT,
            rate: 75 * FOOT,
            missed: 1,
        },
    ),
];

// Whether an altitude may be measured so.
fn fits(measurement: Option<i32>) -> bool
    ensures { IsTrue result → IfSome measurement (LiesBetween (neg_ℤ (pos 2000)) (pos 62000)) }
{
    match measurement {
        Some(feet) => feet >= -2_000 && feet <= 62_000,
        None => true,
    }
}

// The place of the first step after which a new track has another state.
fn first_other(steps: &[Step]) -> Option<usize> {
    let mut track = AltTrack::new();
    for place in 0..steps.len() {
        let (measurement, gains, want) = steps[place];
        if !fits(measurement) {
            return Some(place);
        }
        track.step(measurement, gains);
        if track.state() != want {
            return Some(place);
        }
    }
    None
}

#[test]
fn follows_altitudes_and_misses(rt: HostRuntime) {
    assert_eq!(rt; first_other(STEPS), None);
}
