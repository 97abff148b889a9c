// The worker of one aircraft.
ghost use Rattle.std.specs.Prelude.{◌≡◌, ◌<◌, ◌+◌, []};
ghost use Rattle.air_journal.specs.Airs.{air_of};
ghost use Rattle.air_rules.specs.Owed.{OwesNothing};
ghost use Rattle.air_turn.specs.Seats.{IsSeatOf};
ghost use Rattle.craft_worker.specs.Workers.{GoesOn, HasCommitted, IsReady, MakesNoCommit, Worked};

use acas_base::{Encounter, Picture};
use air_journal::{Commit, Sent, Took};
use air_turn::{Air, Seat};
use craft_view::Craft;
use std::sync::Wait;

/// What a worker waits for before it tries to commit. It is called before each try, with the index of the aircraft and
/// the cycle that it is about to commit.
pub trait Pause {
    fn pause(&self, craft: u8, cycle: u16);
}

/// The seat of an aircraft, the aircraft with the picture of its next cycle, how many commits it has made, and whether
/// it is done.
#[derive(Drop)]
pub(crate) struct Worker {
    pub seat: Seat,
    pub craft: Craft,
    pub picture: Picture,
    pub made: u16,
    pub done: bool,
}

// A round of a worker ends after this many tries in a row that find another aircraft behind.
const TRIES: u32 = 64;

impl Worker {
    /// The worker of a seat that has seen nothing yet.
    pub(crate) fn new(air: &Air, enc: &Encounter, seat: Seat) -> Worker
        requires of { IsSeatOf air.now seat }
        requires encounter { seat.encounter ≡ enc.now }
        requires front { seat.front ≡ [] }
        ensures seat { result.seat ≡ seat }
        ensures ready { IsReady air.now enc.now result }
    {
        enc.valid_law();
        seat.seat_law();
        let mut craft = Craft::new(enc, seat.own());
        let picture = craft.look(enc);
        // For the proof: the contract alone names the shared journal.
        let _ = air;
        Worker {
            seat,
            craft,
            picture,
            made: 0,
            done: false,
        }
    }

    // Sends all that the aircraft owes.
    fn send_all<R: Wait>(&mut self, rt: &R, air: &Air, enc: &Encounter)
        requires { IsReady air.now enc.now self.old }
        ensures same { MakesNoCommit air.now enc.now self.old self.new }
        ensures owes_nothing { OwesNothing (air_of enc.now) self.new.seat.front self.new.seat.own }
    {
        for _call in rt.forever() {
            if let Sent::Nothing = air.send(rt, &mut self.seat) {
                return;
            }
        }
        unreachable!()
    }

    // Takes all that is due to the aircraft.
    fn take_all<R: Wait>(&mut self, rt: &R, air: &Air, enc: &Encounter)
        requires { IsReady air.now enc.now self.old }
        ensures { MakesNoCommit air.now enc.now self.old self.new }
    {
        for _call in rt.forever() {
            if let Took::Nothing = air.take(rt, &mut self.seat) {
                return;
            }
        }
        unreachable!()
    }

    // Counts a commit, and looks in the next cycle, where there is one.
    fn look_on(&mut self, air: &Air, enc: &Encounter)
        requires { HasCommitted air.now enc.now self.old }
        ensures seat { self.new.seat ≡ self.old.seat }
        ensures ready { IsReady air.now enc.now self.new }
        ensures done { self.new.done ≡ self.old.done }
    {
        enc.valid_law();
        self.made += 1;
        if self.made < enc.cycles() {
            self.picture = self.craft.look(enc);
        }
        // For the proof: the contract alone names the shared journal.
        let _ = air;
    }

    // Tries to commit the next cycle. There has to be one.
    fn commit<R: Wait, P: Pause>(&mut self, rt: &R, air: &Air, enc: &Encounter, pause: &P) -> Commit
        requires ready { IsReady air.now enc.now self.old }
        requires left { self.old.made < enc.now.cycles }
        ensures { GoesOn air.now enc.now self.old self.new }
    {
        enc.valid_law();
        pause.pause(self.seat.own(), self.made + 1);
        let answer = air.commit(rt, &mut self.seat, &self.picture);
        if let Commit::Done(_) = answer {
            self.look_on(air, enc);
        }
        answer
    }

    /// Sends what the aircraft owes, takes what is due to it and commits, until all its cycles are over and it owes
    /// nothing, or until `TRIES` tries in a row found another aircraft behind.
    pub(crate) fn work<R: Wait, P: Pause>(&mut self, rt: &R, air: &Air, enc: &Encounter, pause: &P)
        requires { IsReady air.now enc.now self.old }
        ensures { Worked air.now enc.now self.old self.new }
    {
        self.done = false;
        let mut tries = 0;
        for _try in rt.forever() {
            self.send_all(rt, air, enc);
            if self.made >= enc.cycles() {
                self.seat.seat_law();
                self.done = true;
                return;
            }
            self.take_all(rt, air, enc);
            match self.commit(rt, air, enc, pause) {
                Commit::Ahead(_, _) => tries += 1,
                _ => tries = 0,
            }
            if tries >= TRIES {
                return;
            }
        }
        unreachable!()
    }
}
