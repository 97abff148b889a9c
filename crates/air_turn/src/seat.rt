// The seat of one aircraft.
ghost use Rattle.std.specs.Prelude.{◌≡◌};
ghost use Rattle.air_turn.specs.Seats.{IsSeat};
ghost use Rattle.air_turn.specs.Told.{first, resting};
ghost use Rattle.air_turn.specs.Turns.{Rests, seat_of};

use crate::view::TurnSeat;
use std::marker::Model;

/// The right of one active aircraft to make calls on a shared journal. It may be sent to another thread.
#[derive(Drop)]
pub struct Seat {
    own: u8,
    pub(crate) place: TurnSeat,
}

impl Model for Seat {
    ghost use Rattle.air_turn.specs.Seats.{SeatState};
    ghost use Rattle.air_turn.specs.Turns.{Rests, seat_of};

    ghost Value = { SeatState };

    ghost view = { λ s. seat_of s.place };

    ghost invariant = { λ s. Rests s.own s.place };
}

impl Seat {
    // The seat of the aircraft whose claim this place has.
    pub(crate) fn at(own: u8, place: TurnSeat) -> Seat
        requires { Rests own place }
        ensures { result ≡ seat_of place }
    {
        Seat { own, place }
    }

    pub(crate) fn into_place(self) -> TurnSeat
        ensures seat { seat_of result ≡ self }
        ensures idle { result.me ≡ resting result.me.0.encounter (first result.me.0.claims) }
    {
        let Seat { own: _, place } = self;
        place
    }

    /// The index of the aircraft.
    pub fn own(&self) -> u8
        ensures { result ≡ self.now.own }
    {
        self.own
    }

    /// A law: the seat's encounter is an encounter and inside the box, its aircraft is active in it, and the journal
    /// that it has last seen is legal.
    pub fn seat_law(&self)
        ensures { IsSeat self.now }
    {
        // For the proof: a field is read, so the invariant is known.
        let _ = &self.place;
    }
}
