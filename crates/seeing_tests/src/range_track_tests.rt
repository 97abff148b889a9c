// Expected values: by hand from "Tracks" in docs/RULES.md.
ghost use Rattle.std.specs.Prelude.{◌≤◌, IsTrue, IfSome};

use acas_base::Gains;
use acas_num::TrackState;
use range_track::RangeTrack;

const FOOT: i64 = 1024;

const USUAL: Gains = Gains {
    alpha: 512,
    beta: 256,
};

const NONE: Gains = Gains { alpha: 0, beta: 0 };

const ALL: Gains = Gains {
    alpha: 1024,
    beta: 1024,
};

// A measurement, the gains, and the state after it.
type Step = (Option<u32>, Gains, TrackState);

const STEPS: &[Step] = &[
    (None, USUAL, TrackState::Empty),
    (Some(10_000), USUAL, TrackState::One { est: 10_000 * FOOT }),
    (
        Some(9_900),
        USUAL,
        TrackState::Run {
            est: 9_900 * FOOT,
            rate: -100 * FOOT,
            missed: 0,
        },
    ),
    (
        Some(9_790),
        USUAL,
        TrackState::Run {
            est: 9_795 * FOOT,
            rate: -104_960,
            missed: 0,
        },
    ),
    (
        Some(9_000),
        NONE,
        TrackState::Run {
            est: 9_925_120,
            rate: -104_960,
            missed: 0,
        },
    ),
    (
        Some(9_600),
        ALL,
        TrackState::Run {
            est: 9_600 * FOOT,
            rate: -94_720,
            missed: 0,
        },
    ),
    (
        None,
        ALL,
        TrackState::Run {
            est: 9_735_680,
            rate: -94_720,
            missed: 1,
        },
    ),
];

// Whether a range may be measured so.
fn fits(measurement: Option<u32>) -> bool
    ensures { IsTrue result → IfSome measurement (λ feet. feet ≤ 182280) }
{
    match measurement {
        Some(feet) => feet <= 182_280,
        None => true,
    }
}

// The place of the first step after which a new track has another state.
fn first_other(steps: &[Step]) -> Option<usize> {
    let mut track = RangeTrack::new();
    for place in 0..steps.len() {
        let (measurement, gains, want) = steps[place];
        if !fits(measurement) {
            return Some(place);
        }
        track.step(measurement, gains);
        if track.state() != want {
            return Some(place);
        }
    }
    None
}

#[test]
fn follows_ranges_and_misses(rt: HostRuntime) {
    assert_eq!(rt; first_other(STEPS), None);
}
