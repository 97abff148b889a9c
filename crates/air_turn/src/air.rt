// The shared journal, and the calls of its seats.
ghost use Rattle.std.specs.Prelude.{◌≡◌};
ghost use Rattle.air_turn.specs.Seats.{CommitsIn, IsNextPicture, IsSeatOf, Learns, SendsIn, TakesIn};
ghost use Rattle.air_turn.specs.Turns.{commit_growth, send_growth, take_growth};

use crate::seat::Seat;
use crate::steps::{Confirm, Note};
use crate::view::{SERVING, TurnTable};
use acas_base::Picture;
use air_journal::{Commit, Sent, Took};
use std::marker::Model;
use std::sync::Wait;

/// The journal of an encounter, shared by the seats of its active aircraft. It may be sent to other threads and shared
/// with them.
#[derive(Drop)]
pub struct Air {
    pub(crate) table: TurnTable,
}

impl Model for Air {
    ghost use Rattle.air_turn.specs.Seats.{SharedAir};
    ghost use Rattle.air_turn.specs.Turns.{IsOpen};

    ghost Value = { SharedAir };

    ghost view = { λ a. record { table = a.table.shared.table_id; encounter = a.table.shared.key.value.encounter } };

    ghost invariant = { λ a. IsOpen a.table.shared.table_id a.table.shared.key.value.encounter };
}

// How many entries a call has added to the journal.
fn commit_grew(answer: &Commit) -> u64
    ensures { result ≡ commit_growth answer.now }
{
    match answer {
        Commit::Done(_) => 1,
        _ => 0,
    }
}

fn send_grew(answer: &Sent) -> u64
    ensures { result ≡ send_growth answer.now }
{
    match answer {
        Sent::Done(_) => 1,
        Sent::Nothing => 0,
    }
}

fn take_grew(answer: &Took) -> u64
    ensures { result ≡ take_growth answer.now }
{
    match answer {
        Took::Done(_, _) => 1,
        Took::Nothing => 0,
    }
}

impl Air {
    /// Commits the next cycle of the seat's aircraft, or says what hinders it, as `AirState::commit` does. The picture
    /// has to be that of the aircraft's next cycle, where it has cycles left. The call waits for its turn.
    pub fn commit<R: Wait>(&self, rt: &R, seat: &mut Seat, pic: &Picture) -> Commit
        requires of { IsSeatOf self.now seat.old }
        requires picture { IsNextPicture seat.old pic.now }
        ensures { CommitsIn seat.old result seat.new }
    {
        let own = seat.own();
        let mut turn = self.enter(rt, &mut seat.place);
        let answer = turn.state.commit(own, pic);
        self.leave(&mut seat.place, turn, commit_grew(&answer));
        answer
    }

    /// Sends the first message that the seat's aircraft owes, where it owes one, as `AirState::send` does. The call
    /// waits for its turn.
    pub fn send<R: Wait>(&self, rt: &R, seat: &mut Seat) -> Sent
        requires of { IsSeatOf self.now seat.old }
        ensures { SendsIn seat.old result seat.new }
    {
        let own = seat.own();
        let mut turn = self.enter(rt, &mut seat.place);
        let answer = turn.state.send(own);
        self.leave(&mut seat.place, turn, send_grew(&answer));
        answer
    }

    /// Takes the first copy that is due to the seat's aircraft, where one is due, as `AirState::take` does. The call
    /// waits for its turn.
    pub fn take<R: Wait>(&self, rt: &R, seat: &mut Seat) -> Took
        requires of { IsSeatOf self.now seat.old }
        ensures { TakesIn seat.old result seat.new }
    {
        let own = seat.own();
        let mut turn = self.enter(rt, &mut seat.place);
        let answer = turn.state.take(own);
        self.leave(&mut seat.place, turn, take_grew(&answer));
        answer
    }

    /// Lets a seat know what another one has seen. It waits for nobody, and counts as no call.
    pub fn learn(&self, seat: &mut Seat, other: &mut Seat)
        requires seat { IsSeatOf self.now seat.old }
        requires other { IsSeatOf self.now other.old }
        ensures other { other.new ≡ other.old }
        ensures learns { Learns seat.old other.old seat.new }
    {
        let note = self.table.shared.split_seat::<Note>(&mut other.place);
        self.table.shared.join_seat::<Note>(&mut seat.place, note);
        self.table.shared.load::<Confirm>(&mut seat.place, SERVING);
    }
}
