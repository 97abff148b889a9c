// One turn: a seat waits for it, has the state, and gives it back.
ghost use Rattle.std.specs.Prelude.{◌≡◌, ◌<◌};
ghost use Rattle.air_turn.specs.Rule.{serving_word};
ghost use Rattle.air_turn.specs.Told.{first, resting};
ghost use Rattle.air_turn.specs.Turns.{Ended, GoneOn, HasTicket, HasTurn, claim_after};
ghost use Rattle.air_turn.specs.declared.view.TheConstants.{WORDS};

use crate::air::Air;
use crate::steps::{After, Draw, Give, Look, Raise};
use crate::view::{LENGTH, SERVING, TICKETS, TurnSeat};
use acas_base::CRAFTS;
use air_journal::AirState;
use std::marker::Brand;
use std::sync::Wait;

/// The turn of a seat: its ticket, and the state.
#[derive(Drop)]
pub(crate) struct Turn {
    pub(crate) ticket: u64,
    pub(crate) state: AirState,
}

// The serving word of a ticket.
fn serving_word(ticket: u64) -> usize
    ensures value { result ≡ serving_word ticket }
    ensures within { result < WORDS }
{
    SERVING + (ticket % CRAFTS as u64) as usize
}

impl Air {
    /// Draws a ticket, waits until the ticket is served, and takes the state. Between two looks it parks on the
    /// ticket's serving word.
    pub(crate) fn enter<R: Wait>(&self, rt: &R, place: &mut TurnSeat) -> Turn
        requires table { place.old.table_id ≡ self.now.table }
        requires idle { place.old.me ≡ resting place.old.me.0.encounter (first place.old.me.0.claims) }
        ensures place { (place.new.table_id ≡ place.old.table_id) × (place.new.id ≡ place.old.id) }
        ensures turn { HasTurn place.old.me place.new.me result.ticket result.state }
    {
        let ticket = self.table.shared.fetch_add::<Draw>(place, TICKETS, 1);
        let serving = serving_word(ticket);
        for _ in rt.forever() {
            let found = self.table.shared.load::<Look>(place, serving);
            if found == ticket {
                let Some(state) = self.table.shared.exchange(place, 0, None) else {
                    unreachable!()
                };
                return Turn { ticket, state };
            }
            self.table
                .shared
                .park(rt, serving, (found % 4_294_967_296) as u32);
        }
        unreachable!()
    }

    // The call is counted. The journal is now that of the state.
    fn raise<N: After>(&self, place: &mut TurnSeat, state: &AirState, grew: u64)
        requires table { place.old.table_id ≡ self.now.table }
        requires gone_on { GoneOn place.old.me state.now grew }
        requires journal { state.now.journal ≡ N.journal }
        ensures place { (place.new.table_id ≡ place.old.table_id) × (place.new.id ≡ place.old.id) }
        ensures ended { Ended place.old.me state.now place.new.me }
    {
        self.table.shared.fetch_add::<Raise<N>>(place, LENGTH, grew);
    }

    /// Counts the call, puts the state back, lets the next ticket be served, and wakes the seats that wait for it. The
    /// journal has grown by `grew` entries, one or none.
    pub(crate) fn leave(&self, place: &mut TurnSeat, turn: Turn, grew: u64)
        requires table { place.old.table_id ≡ self.now.table }
        requires ticket { HasTicket place.old.me turn.ticket }
        requires gone_on { GoneOn place.old.me turn.state grew }
        ensures place { (place.new.table_id ≡ place.old.table_id) × (place.new.id ≡ place.old.id) }
        ensures idle { place.new.me ≡ resting place.old.me.0.encounter (claim_after place.old.me turn.state) }
    {
        let Turn { ticket, state } = turn;
        self.raise::<Brand>(place, &state, grew);
        let None = self.table.shared.exchange(place, 0, Some(state)) else {
            unreachable!()
        };
        let next = ticket.wrapping_add(1);
        let serving = serving_word(next);
        self.table.shared.store::<Give>(place, serving, next);
        self.table.shared.wake_all(serving);
    }
}
