// The shared journal is closed.
ghost use Rattle.std.specs.Prelude.{◌≡◌, ◌<◌, All, vec_len};
ghost use Rattle.air_journal.specs.Airs.{air_of};
ghost use Rattle.air_rules.specs.Rules.{IsLegal};
ghost use Rattle.air_turn.specs.Seats.{AreAllSeats, Closes, IsSeatOf};
ghost use Rattle.air_turn.specs.Turns.{Gathers};
ghost use Rattle.air_turn.specs.declared.view.TheConstants.{WORDS};

use crate::air::Air;
use crate::seat::Seat;
use crate::steps::JoinSeats;
use crate::view::{TurnSeat, TurnTable};
use air_journal::AirState;

// Joins all seats into one place, in their order.
fn gather(table: &TurnTable, mut seats: Vec<Seat>) -> TurnSeat
    requires some { 0 < vec_len seats }
    requires of { All (IsSeatOf (record { table = table.now.shared.table_id; encounter = table.now.shared.key.value.encounter })) seats.items }
    requires words { table.now.shared.table_id.words ≡ WORDS }
    ensures table { result.table_id ≡ table.now.shared.table_id }
    ensures gathers { Gathers table.now.shared.table_id result.me seats.items }
{
    let Some(last) = seats.pop() else {
        unreachable!()
    };
    let mut place = last.into_place();
    while let Some(seat) = seats.pop() {
        let mut next = seat.into_place();
        table.shared.join_seat::<JoinSeats>(&mut next, place);
        place = next;
    }
    place
}

impl Air {
    /// Gives the state back, when all calls have ended. `seats` has to be all seats of this shared journal, in any
    /// order.
    pub fn close(self, seats: Vec<Seat>) -> AirState
        requires { AreAllSeats self seats.items }
        ensures encounter { result.encounter ≡ self.encounter }
        ensures legal { IsLegal (air_of self.encounter) result.journal }
        ensures closes { Closes seats.items result.journal }
    {
        let Air { table } = self;
        let place = gather(&table, seats);
        let mut closed = table.close_with(place);
        let slot = closed.take(0);
        closed.free();
        let Some(state) = slot else { unreachable!() };
        state
    }
}
