// Expected values: by hand from "Strengths" in docs/RULES.md, and of profile 2 from what `strength_pick` states.
use crate::threat::{FOOT, NONE, THREAT, advisory};
use acas_base::{BySense, Choice, Intent, Sense, Seps, Strength, View};
use strength_pick::{allowed, choice_after, next_strength, weakens};

fn view(rate: i64, descends: bool, climbs: bool) -> View {
    View {
        climbs,
        descends,
        descends_faster: descends,
        rate,
        ..THREAT
    }
}

// Rate, whether own aircraft is high enough to descend, and whether it may climb; a sense and a strength; whether a
// fresh choice may take it.
type Row = (i64, bool, bool, Sense, Strength, bool);

const ROWS: [Row; 7] = [
    (-17_066, true, true, Sense::Up, Strength::Limit1000, true),
    (-17_067, true, true, Sense::Up, Strength::Limit1000, false),
    (0, true, true, Sense::Up, Strength::Positive, true),
    (0, true, false, Sense::Up, Strength::Positive, false),
    (0, true, false, Sense::Down, Strength::Positive, true),
    (0, false, true, Sense::Down, Strength::Positive, false),
    (0, true, true, Sense::Up, Strength::Increase, false),
];

fn is_so(row: Row) -> bool {
    let (rate, descends, climbs, sense, strength, is_allowed) = row;
    let view = view(rate, descends, climbs);
    allowed(&view, sense, strength, Choice::Fresh) == is_allowed
}

// The place of the first row that doesn't hold.
fn first_other(rows: &[Row]) -> Option<usize> {
    for place in 0..rows.len() {
        if !is_so(rows[place]) {
            return Some(place);
        }
    }
    None
}

fn increases(climbs: bool, choice: Choice) -> bool {
    allowed(
        &view(0, true, climbs),
        Sense::Up,
        Strength::Increase,
        choice,
    )
}

// An increased climb is allowed to an urgent choice alone, and only where own aircraft may climb.
fn increases_where_urgent() -> bool {
    increases(true, Choice::Urgent)
        && !increases(true, Choice::Steady)
        && !increases(false, Choice::Urgent)
}

#[test]
fn allows_by_rate_height_and_climb(rt: HostRuntime) {
    assert_eq!(rt; first_other(&ROWS), None);
    assert!(rt; increases_where_urgent());
}

// A view of profile 2 of an aircraft from so far above it. `Level` gives `level` in the later response.
fn settled(far: bool, gap: i64, level: i64) -> View {
    View {
        far,
        settled_at: 10,
        looks_ahead: true,
        gap,
        later: Seps {
            up: [0, 0, 0, level, 0, 0],
            ..NONE
        },
        ..THREAT
    }
}

// ALIM is 600 ft. An advisory weakens from an age of ten cycles on, where it has ALIM at present and by `Level`, or
// where the other aircraft is far.
#[test]
fn weakens_from_an_age_on(rt: HostRuntime) {
    let alim = 600 * FOOT;
    let rows = [
        (9, false, alim, alim, false),
        (10, false, alim, alim, true),
        (10, false, alim - 1, alim, false),
        (10, false, alim, alim - 1, false),
        (9, true, 0, 0, false),
        (10, true, 0, 0, true),
    ];
    for (age, far, gap, level, is_weaker) in rows {
        let view = settled(far, gap, level);
        assert_eq!(rt;
            weakens(&advisory(age), &view),
            is_weaker,
            "{age} {far} {gap} {level}"
        );
    }
}

// A limit doesn't weaken: it isn't as strong as `Level`.
#[test]
fn weakens_to_level(rt: HostRuntime) {
    let view = settled(true, 0, 0);
    assert!(rt; next_strength(&advisory(10), &view) == Strength::Level);
    let level = Intent {
        strength: Strength::Level,
        ..advisory(10)
    };
    assert!(rt; weakens(&level, &view));
    let limit = Intent {
        strength: Strength::Limit500,
        ..advisory(10)
    };
    assert!(rt; !weakens(&limit, &view));
}

// Nothing gives ALIM, so the strongest strength is taken that is allowed. An increase waits until its sense hurries,
// and then stays.
#[test]
fn increases_where_it_hurries(rt: HostRuntime) {
    let hurried = View {
        hurries: BySense {
            up: true,
            down: false,
        },
        ..settled(false, 0, 0)
    };
    let waiting = View {
        hurries: BySense {
            up: false,
            down: true,
        },
        ..hurried
    };
    let climb = advisory(10);
    let increase = Intent {
        strength: Strength::Increase,
        ..climb
    };
    assert!(rt; choice_after(&climb, &hurried) == Choice::Urgent);
    assert!(rt; choice_after(&climb, &waiting) == Choice::Steady);
    assert!(rt; choice_after(&increase, &waiting) == Choice::Urgent);
    assert!(rt; next_strength(&climb, &hurried) == Strength::Increase);
    assert!(rt; next_strength(&climb, &waiting) == Strength::Positive);
    assert!(rt; next_strength(&increase, &waiting) == Strength::Increase);
}
