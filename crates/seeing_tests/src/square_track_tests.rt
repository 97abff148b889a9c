// Expected values: by hand from the steps of `square_track::SquareState`.
ghost use Rattle.std.specs.Prelude.{IfSome};
ghost use Rattle.square_track.specs.SquareTrack.{IsMeasured};

use square_track::{MeasuredSquare, SquareState, SquareTrack, measured_square};

// What is measured of an aircraft at own altitude in this range, in ft.
fn measured(range: Option<u32>) -> Option<MeasuredSquare>
    ensures { IfSome result IsMeasured }
{
    match range {
        Some(range) => Some(measured_square(range.min(182_280), 35_000, 35_000)),
        None => None,
    }
}

fn state_after(ranges: &[Option<u32>]) -> SquareState {
    let mut track = SquareTrack::new();
    for place in 0..ranges.len() {
        track.step(measured(ranges[place]));
    }
    track.state()
}

fn running(square: i64, rate: i64, second: i64, missed: u8, calm: u8) -> SquareState {
    SquareState::Run {
        square,
        rate,
        second,
        missed,
        calm,
    }
}

// Each closes by 100 ft a second.
const THREE: [Option<u32>; 3] = [Some(1_000), Some(900), Some(800)];

const FOUR: [Option<u32>; 4] = [Some(1_000), Some(900), Some(800), Some(700)];

const SURPRISED: [Option<u32>; 4] = [Some(1_000), Some(900), Some(800), Some(760)];

const MISSED: [Option<u32>; 10] = [
    Some(1_000),
    Some(900),
    Some(800),
    Some(700),
    None,
    None,
    None,
    None,
    None,
    None,
];

#[test]
fn tracks_squares(rt: HostRuntime) {
    assert_eq!(rt;
        state_after(&THREE),
        running(640_000, -160_000, 20_000, 0, 0)
    );
    assert_eq!(rt;
        state_after(&FOUR),
        running(490_000, -140_000, 20_000, 0, 1)
    );
    assert_eq!(rt;
        state_after(&SURPRISED),
        running(547_573, -119_897, 22_395, 0, 0)
    );
}

// A miss keeps the count of measurements without a surprise, and the sixth one in a row gives the track up.
#[test]
fn misses_squares(rt: HostRuntime) {
    assert_eq!(rt;
        state_after(&MISSED[..9]),
        running(40_000, -40_000, 20_000, 5, 1)
    );
    assert_eq!(rt; state_after(&MISSED), SquareState::Empty);
    assert_eq!(rt; state_after(&[Some(1_000), None]), SquareState::Empty);
}

// How many measurements without a surprise the track counts, where it runs.
fn calm_after(ranges: &[Option<u32>]) -> Option<u8> {
    match state_after(ranges) {
        SquareState::Run { calm, .. } => Some(calm),
        SquareState::Empty | SquareState::One { .. } | SquareState::Two { .. } => None,
    }
}

// A range that stays for three cycles, the one of the next cycle, and how many are counted then: none after a surprise,
// of more than 32 times the range. 81 * 81 - 63 * 63 is 32 * 81, and 145 * 145 - 128 * 128 is 32 * 145 + 1; 63 * 63 -
// 49 * 49 is 32 * 49, and 127 * 127 - 112 * 112 is 32 * 112 + 1.
const SURPRISES: [(u32, u32, u8); 4] = [(63, 81, 1), (128, 145, 0), (63, 49, 1), (127, 112, 0)];

#[test]
fn is_surprised_above_32_times_the_range(rt: HostRuntime) {
    for (stays, next, calm) in SURPRISES {
        let ranges = [Some(stays), Some(stays), Some(stays), Some(next)];
        assert_eq!(rt; calm_after(&ranges), Some(calm), "{stays} {next}");
    }
}

// It runs from the third measurement on, and counts to fifteen.
#[test]
fn counts_to_fifteen(rt: HostRuntime) {
    let still = [Some(1_000); 19];
    assert_eq!(rt; calm_after(&still[..2]), None);
    assert_eq!(rt; calm_after(&still[..3]), Some(0));
    assert_eq!(rt; calm_after(&still[..17]), Some(14));
    assert_eq!(rt; calm_after(&still[..18]), Some(15));
    assert_eq!(rt; calm_after(&still), Some(15));
}

// Three feet by level and four in altitude are a slant range of five.
#[test]
fn measures_squares(rt: HostRuntime) {
    assert_eq!(rt; measured_square(5, 4, 0).square, 9);
    assert_eq!(rt; measured_square(4, 5, 0).square, 0);
}
