// Expected values: by hand from "Sense and strength" in docs/RULES.md.
use crate::threat::{FOOT, THREAT};
use acas_base::{Sense, Seps, View};
use sense_pick::pick;

// A view of an aircraft from above it, with ALIM 600 ft. The strongest fresh strength gives `up` or `down`, in 1/1024
// ft.
fn view(up: i64, down: i64, climbs: bool) -> View {
    let first = Seps {
        up: [0, 0, 0, 0, up, 0],
        down: [0, 0, 0, 0, down, 0],
    };
    View {
        climbs,
        first,
        later: first,
        ..THREAT
    }
}

// What up and down give, whether own aircraft may climb, and the sense.
type Row = (i64, i64, bool, Sense);

const ROWS: [Row; 5] = [
    (600 * FOOT, 900 * FOOT, true, Sense::Up),
    (599 * FOOT, 598 * FOOT, true, Sense::Up),
    (599 * FOOT, 599 * FOOT, true, Sense::Up),
    (599 * FOOT, 600 * FOOT, true, Sense::Down),
    (600 * FOOT, 900 * FOOT, false, Sense::Down),
];

// The place of the first row with another sense.
fn first_other(rows: &[Row]) -> Option<usize> {
    for place in 0..rows.len() {
        let (up, down, climbs, sense) = rows[place];
        if pick(&view(up, down, climbs)) != sense {
            return Some(place);
        }
    }
    None
}

#[test]
fn picks_a_sense(rt: HostRuntime) {
    assert_eq!(rt; first_other(&ROWS), None);
}
