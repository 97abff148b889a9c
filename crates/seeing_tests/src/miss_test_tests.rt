// Expected values: by hand from the numbers of profile 2, as `miss_test` and `sens_table` state them.

use miss_test::{grows, is_far, opens};
use square_track::SquareState;

fn running(square: i64, rate: i64, second: i64, missed: u8, calm: u8) -> SquareState {
    SquareState::Run {
        square,
        rate,
        second,
        missed,
        calm,
    }
}

// At level 7 the product is 147,671 ft2/s.
#[test]
fn opens_above_twice_the_product(rt: HostRuntime) {
    assert!(rt; !opens(147_671, &running(1_000_000, 295_342, 0, 0, 0)));
    assert!(rt; opens(147_671, &running(1_000_000, 295_343, 0, 0, 0)));
    assert!(rt;
        !opens(
            147_671,
            &SquareState::Two {
                square: 0,
                change: 1_500_000_000
            }
        )
    );
}

#[test]
fn grows_from_rest_on(rt: HostRuntime) {
    assert!(rt; !grows(&running(1_000_000, -1, 0, 0, 0)));
    assert!(rt; grows(&running(1_000_000, 0, 0, 0, 0)));
    assert!(rt; !grows(&SquareState::Empty));
}

// Whether a pair passes at least 6,683 ft away, the distance of level 7, by a running track, in ft2, ft2/s and ft2/s2.
// Numbers that no track has say no.
fn passes_far(square: i64, rate: i64, second: i64, missed: u8, calm: u8) -> bool {
    if square < 0 || square > 33_225_998_400 {
        return false;
    }
    if rate < -1_500_000_000 || rate > 1_500_000_000 {
        return false;
    }
    if second < -64_000_000 || second > 64_000_000 || missed > 5 || calm > 15 {
        return false;
    }
    is_far(
        6_683,
        &SquareState::Run {
            square,
            rate,
            second,
            missed,
            calm,
        },
    )
}

// The least square of the first two is 24,308 ft and 6,525 ft by itself.
#[test]
fn is_far_by_the_least_square(rt: HostRuntime) {
    let rows = [
        (2_152_484_264, -120_134_975, 4_621_087, 0, 15, true),
        (2_873_710_484, -161_735_872, 4_619_790, 0, 15, false),
        (2_719_739_342, -157_102_234, 4_621_948, 0, 15, true),
        (2_719_739_342, -157_102_234, 4_621_948, 2, 15, true),
        (2_719_739_342, -157_102_234, 4_621_948, 3, 15, false),
        (2_719_739_342, -157_102_234, 4_621_948, 0, 14, false),
        (44_662_489, 0, 0, 0, 15, true),
        (44_662_488, 0, 0, 0, 15, false),
        (44_662_489, -1, 0, 0, 15, false),
    ];
    for (square, rate, second, missed, calm, far) in rows {
        assert_eq!(rt;
            passes_far(square, rate, second, missed, calm),
            far,
            "{square} {rate} {second} {missed} {calm}"
        );
    }
}
