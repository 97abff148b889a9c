// Expected values: by hand from "Sense and strength" in docs/RULES.md, and of profile 2 from what `reversal` states.
use crate::threat::{THREAT, advisory};
use acas_base::{BySense, Sense, Seps, View};
use reversal::{has_to_reverse, is_chase, turns};

// A view with ALIM 600 whose later response gives `up` with Increase and `down` with Positive; the
// first response gives the opposite.
fn view(halves: u16, up: i64, down: i64) -> View {
    View {
        halves,
        alim: 600,
        enough: 600,
        first: Seps {
            up: [700; 6],
            down: [0; 6],
        },
        later: Seps {
            up: [0, 0, 0, 0, 0, up],
            down: [0, 0, 0, 0, down, 0],
        },
        ..THREAT
    }
}

// The half-seconds to closest approach, what up and down give, and whether a reversal is called for.
type Row = (u16, i64, i64, bool);

const ROWS: [Row; 4] = [
    (8, 599, 600, true),
    (7, 599, 600, false),
    (8, 600, 600, false),
    (8, 599, 599, false),
];

// The place of the first row that doesn't hold.
fn first_other(rows: &[Row]) -> Option<usize> {
    for place in 0..rows.len() {
        let (halves, up, down, is_called_for) = rows[place];
        if turns(&view(halves, up, down), Sense::Up) != is_called_for {
            return Some(place);
        }
    }
    None
}

#[test]
fn reverses_where_the_other_sense_serves(rt: HostRuntime) {
    assert_eq!(rt; first_other(&ROWS), None);
}

// In profile 2 the strongest strength of the present sense has to give 200 ft, and the other sense ALIM.
#[test]
fn reverses_where_less_than_enough_is_left(rt: HostRuntime) {
    let rows = [(199, 600, true), (200, 600, false), (199, 599, false)];
    for (up, down, is_called_for) in rows {
        let view = View {
            enough: 200,
            ..view(8, up, down)
        };
        assert_eq!(rt; turns(&view, Sense::Up), is_called_for, "{up} {down}");
    }
}

// An advisory up is in a chase from an age of twelve cycles on, where this sense is.
#[test]
fn is_in_a_chase_from_an_age_on(rt: HostRuntime) {
    let rows = [
        (11, true, false),
        (12, true, true),
        (600, true, true),
        (12, false, false),
    ];
    for (age, up, is_called_for) in rows {
        let view = View {
            chases: BySense { up, down: !up },
            ..view(8, 600, 0)
        };
        let before = advisory(age);
        assert_eq!(rt; is_chase(&before, &view), is_called_for, "{age} {up}");
        assert_eq!(rt; has_to_reverse(&before, &view), is_called_for, "{age} {up}");
    }
}
