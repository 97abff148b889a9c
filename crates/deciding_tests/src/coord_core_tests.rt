// Expected values: by hand from "The next cell" and "Messages" in docs/RULES.md, and of profile 2 from what
// `coord_core` and `reversal` state.
ghost use Rattle.std.specs.Prelude.{◌<◌};

use crate::threat::{THREAT, advisory};
use acas_base::{Address, BySense, Cell, Intent, Kind, Rank, ResMsg, Sense, Strength, View, Vrc};
use coord_core::{next_cell, next_message, rank_of};
use std::test::Fail;

// An advisory that asks for another rate.
const UP: Cell = Cell::Ra(Intent {
    sense: Sense::Up,
    strength: Strength::Positive,
    age: 1,
    turned: false,
    crossing: false,
    corrective: true,
});

const DOWN: Cell = Cell::Ra(Intent {
    sense: Sense::Down,
    strength: Strength::Positive,
    age: 1,
    turned: false,
    crossing: false,
    corrective: true,
});

// A cell, what was said, and what the owed message cancels and sets.
type Owed = (Cell, Vrc, Option<(Vrc, Vrc)>);

const OWED: [Owed; 5] = [
    (UP, Vrc::Nil, Some((Vrc::Nil, Vrc::NotAbove))),
    (UP, Vrc::NotAbove, Some((Vrc::Nil, Vrc::NotAbove))),
    (DOWN, Vrc::NotAbove, Some((Vrc::NotAbove, Vrc::NotBelow))),
    (
        Cell::Traffic,
        Vrc::NotAbove,
        Some((Vrc::NotAbove, Vrc::Nil)),
    ),
    (Cell::Clear, Vrc::Nil, None),
];

fn is_owed(own: Address, row: &Owed) -> bool {
    let (cell, said, owed) = *row;
    let message = match owed {
        Some((cancel, vrc)) => Some(ResMsg {
            many: false,
            cancel,
            vrc,
            sender: own,
        }),
        None => None,
    };
    next_message(&cell, said, false, own) == message
}

// The place of the first row where something else is owed.
fn first_other(own: Address, rows: &[Owed]) -> Option<usize> {
    for place in 0..rows.len() {
        if !is_owed(own, &rows[place]) {
            return Some(place);
        }
    }
    None
}

#[test]
fn owes_messages(rt: HostRuntime) -> Result<(), Fail> {
    let own = Address::new(0x40_0A01).ok_or("no address")?;
    assert_eq!(rt; first_other(own, &OWED), None);
    Ok(())
}

const RANKS: [Rank; 3] = [Rank::First, Rank::Second, Rank::Free];

// The first rank with which no advisory up starts.
fn first_unlike(ranks: &[Rank]) -> Option<usize> {
    for place in 0..ranks.len() {
        if next_cell(&Cell::Clear, &THREAT, Vrc::Nil, ranks[place]) != UP {
            return Some(place);
        }
    }
    None
}

#[test]
fn starts_an_advisory(rt: HostRuntime) -> Result<(), Fail> {
    let low = Address::new(0x40_0A01).ok_or("no address")?;
    let high = Address::new(0x40_0B02).ok_or("no address")?;
    assert!(rt; low != high);
    assert_eq!(rt; rank_of(low, high, Kind::Ra), Rank::First);
    assert_eq!(rt; first_unlike(&RANKS), None);
    Ok(())
}

// An aircraft in a chase, while an increase waits.
const CHASED: View = View {
    chases: BySense {
        up: true,
        down: false,
    },
    hurries: BySense {
        up: false,
        down: false,
    },
    ..THREAT
};

// The advisory up of this age a cycle later, where the rank is so.
fn chased(before: Intent, rank: Rank) -> Cell
    requires { before.age < 600 }
{
    next_cell(&Cell::Ra(before), &CHASED, Vrc::Nil, rank)
}

// In a chase an advisory is reversed from an age of twelve cycles on, once. The other aircraft is 100 ft lower, so down
// crosses. The one that gives way doesn't reverse by itself.
#[test]
fn reverses_a_chase(rt: HostRuntime) {
    let down = Cell::Ra(Intent {
        sense: Sense::Down,
        turned: true,
        crossing: true,
        ..advisory(13)
    });
    assert!(rt; chased(advisory(11), Rank::First) == Cell::Ra(advisory(12)));
    assert!(rt; chased(advisory(12), Rank::First) == down);
    assert!(rt; chased(advisory(12), Rank::Free) == down);
    assert!(rt; chased(advisory(12), Rank::Second) == Cell::Ra(advisory(13)));
    let turned = Intent {
        turned: true,
        ..advisory(12)
    };
    let goes_on = Intent {
        turned: true,
        ..advisory(13)
    };
    assert!(rt; chased(turned, Rank::First) == Cell::Ra(goes_on));
}

// Without a threat an advisory goes on while it lasts. Where it doesn't, it ends from an age of five cycles on.
#[test]
fn goes_on_while_it_lasts(rt: HostRuntime) {
    let lasting = View {
        threat: false,
        ..CHASED
    };
    let over = View {
        lasts: false,
        ..lasting
    };
    let old = Cell::Ra(advisory(5));
    let young = Cell::Ra(advisory(4));
    assert!(rt; next_cell(&old, &lasting, Vrc::Nil, Rank::First) == Cell::Ra(advisory(6)));
    assert!(rt; next_cell(&old, &over, Vrc::Nil, Rank::First) == Cell::Traffic);
    assert!(rt; next_cell(&young, &over, Vrc::Nil, Rank::First) == Cell::Ra(advisory(5)));
    assert!(rt; next_cell(&Cell::Traffic, &lasting, Vrc::Nil, Rank::First) == Cell::Traffic);
}
