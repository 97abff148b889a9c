// A run that is steered: in each round the aircraft take their turns as a plan says.
ghost use Rattle.std.specs.Prelude.{◌≡◌, length, true, IfOk};
ghost use Rattle.flight.specs.Inside.{IsInside};
ghost use Rattle.instances.specs.Steered.{HasLookedFor};

use crate::planning::Plan;
use acas_base::{CRAFTS, Encounter, Vrc};
use air_journal::{AirState, Commit, Sent, Took, TookThis};
use craft_view::{Craft, Surveillance, is_active};
use flight::Places;
use pair_ways::{Telling, Turns, Who};
use std::alloc::{AllocError, Global};
use std::marker::Model;

// So many copies can wait for an aircraft at most: three of each of 600 messages of each other one.
const MOST_WAITING: u16 = 3 * 600 * 16;

// A run under way, of an encounter.
#[derive(Drop)]
struct Steering<'a> {
    encounter: &'a Encounter,
    state: AirState,
    surveillance: Surveillance,
}

impl<'a> Model for Steering<'a> {
    ghost use Rattle.acas_base.specs.Encounter.{Parts};
    ghost use Rattle.instances.specs.Steered.{IsSteered};

    ghost Value = { Parts };

    ghost view = { λ s. s.encounter.now };

    ghost invariant = { λ s. IsSteered s.encounter.now s.state s.surveillance.crafts };
}

// With which complement the last copy is taken, by its sender.
type Lasts = [Option<Vrc>; CRAFTS];

// Who own aircraft is of two.
fn own_of(own: u8, other: u8) -> Who {
    if own < other { Who::Low } else { Who::High }
}

// Whether one of the two commits first.
fn is_first(turns: &Turns, who: Who) -> bool {
    match turns.first {
        Who::Low => match who {
            Who::Low => true,
            Who::High => false,
        },
        Who::High => match who {
            Who::Low => false,
            Who::High => true,
        },
    }
}

// The complement of the copy that one of the two takes last.
fn last_of(turns: &Turns, who: Who) -> Vrc {
    if is_first(turns, who) {
        turns.first_last
    } else {
        turns.second_last
    }
}

// Whether the aircraft at an index has looked so many times.
fn has_looked(crafts: &[Option<Craft>; CRAFTS], own: u8, looks: u16) -> bool
    ensures { result ≡ true → HasLookedFor crafts.now own looks }
{
    match crafts.get(usize::from(own)) {
        Some(Some(craft)) => craft.cycle() == looks,
        _ => false,
    }
}

// Whether it sends its message.
fn tells(telling: Telling) -> bool {
    match telling {
        Telling::Waits => false,
        Telling::Sends | Telling::Loses(_) => true,
    }
}

impl<'a> Steering<'a> {
    fn new(alloc: Global, encounter: &'a Encounter) -> Result<Steering<'a>, AllocError>
        requires { IsInside encounter.now }
        ensures { IfOk result (λ steering. steering ≡ encounter.now) }
    {
        Ok(Steering {
            encounter,
            state: AirState::new(alloc, encounter)?,
            surveillance: Surveillance::new(encounter),
        })
    }

    // How many aircraft there are.
    fn count(&self) -> u8
        ensures { result ≡ length self.now.crafts }
    {
        self.encounter.valid_law();
        self.encounter.crafts().len() as u8
    }

    // Sends the first message that an aircraft owes.
    fn send(&mut self, own: u8) -> Sent
        ensures { self.new ≡ self.old }
    {
        if !is_active(self.encounter, own) {
            return Sent::Nothing;
        }
        self.state.send(own)
    }

    // Sends all that an aircraft owes.
    fn send_all(&mut self, own: u8)
        ensures { self.new ≡ self.old }
    {
        for _message in 0..CRAFTS {
            match self.send(own) {
                Sent::Done(_) => {}
                Sent::Nothing => return,
            }
        }
    }

    // Takes the first copy that is due to an aircraft.
    fn take(&mut self, own: u8) -> Took
        ensures { self.new ≡ self.old }
    {
        if !is_active(self.encounter, own) {
            return Took::Nothing;
        }
        self.state.take(own)
    }

    // Takes all that is due to an aircraft.
    fn take_all(&mut self, own: u8)
        ensures { self.new ≡ self.old }
    {
        for _copy in 0..MOST_WAITING {
            match self.take(own) {
                Took::Done(_, _) => {}
                Took::Nothing => return,
            }
        }
    }

    // The send and the number of a copy from an aircraft that is due, but for those with a complement.
    fn due_but(&self, own: u8, sender: u8, last: Vrc) -> Option<(u32, u8)> {
        self.encounter.valid_law();
        if own >= self.count() || sender >= self.count() {
            return None;
        }
        let made = self.state.commits(own);
        for waiting in self.state.waiting(sender, own) {
            if waiting.due <= made && waiting.reads != Some(last) {
                return Some((waiting.send, waiting.copy));
            }
        }
        None
    }

    // Takes a copy, where there is one.
    fn take_this(&mut self, own: u8, copy: Option<(u32, u8)>) -> Took
        ensures { self.new ≡ self.old }
    {
        let Some((send, number)) = copy else {
            return Took::Nothing;
        };
        if !is_active(self.encounter, own) {
            return Took::Nothing;
        }
        match self.state.take_this(own, send, number) {
            TookThis::Done(at, good) => Took::Done(at, good),
            TookThis::NotDue => Took::Nothing,
        }
    }

    // Takes all copies from an aircraft that are due, but for those with a complement.
    fn take_but(&mut self, own: u8, sender: u8, last: Vrc)
        ensures { self.new ≡ self.old }
    {
        for _copy in 0..MOST_WAITING {
            let copy = self.due_but(own, sender, last);
            match self.take_this(own, copy) {
                Took::Done(_, _) => {}
                Took::Nothing => return,
            }
        }
    }

    // Takes all that is due to an aircraft, from each sender a copy with this complement last.
    fn take_in_order(&mut self, own: u8, lasts: &Lasts)
        ensures { self.new ≡ self.old }
    {
        for sender in 0..CRAFTS {
            if let Some(last) = lasts[sender] {
                self.take_but(own, sender as u8, last);
            }
        }
        self.take_all(own);
    }

    // The aircraft to which an aircraft owes its next message, where that is all that hinders its commit.
    fn owed_to(&self, own: u8) -> Option<u8> {
        if !is_active(self.encounter, own) {
            return None;
        }
        match self.state.hindrance(own) {
            Some(Commit::Owed(target)) => Some(target),
            _ => None,
        }
    }

    // Commits an aircraft's next cycle, where nothing hinders it.
    fn commit_free(&mut self, own: u8)
        ensures { self.new ≡ self.old }
    {
        if !is_active(self.encounter, own) {
            return;
        }
        if self.state.hindrance(own).is_some() {
            return;
        }
        let made = self.state.commits(own);
        if made >= self.encounter.cycles() || !has_looked(&self.surveillance.crafts, own, made) {
            return;
        }
        let places = Places::new(self.encounter, made + 1);
        self.surveillance.look(own, &places);
        let _ = self.state.commit(own, &self.surveillance.picture);
    }

    // Sends what an aircraft owes, takes what is due, and commits.
    fn commit(&mut self, own: u8, lasts: &Lasts)
        ensures { self.new ≡ self.old }
    {
        self.send_all(own);
        self.take_in_order(own, lasts);
        self.commit_free(own);
    }

    // How many cycles an aircraft has committed.
    fn commits(&self, own: u8) -> u16 {
        self.state.commits(own)
    }
}

// A round: how own aircraft goes through it with each other one, and after how many commits.
#[derive(Clone, Copy)]
struct Round<'a> {
    own: u8,
    made: usize,
    turns: &'a [Option<Turns>; CRAFTS],
}

impl<'a> Round<'a> {
    // How another aircraft goes through it with own aircraft.
    fn turns(&self, other: u8) -> Option<Turns> {
        let list = self.turns;
        match list.get(usize::from(other)) {
            Some(turns) => *turns,
            None => None,
        }
    }

    // The turns of an aircraft that commits before own aircraft.
    fn ahead(&self, other: u8) -> Option<Turns> {
        let turns = self.turns(other)?;
        if is_first(&turns, own_of(self.own, other)) {
            return None;
        }
        Some(turns)
    }

    // The turns of an aircraft that commits after own aircraft.
    fn behind(&self, other: u8) -> Option<Turns> {
        let turns = self.turns(other)?;
        if is_first(&turns, own_of(self.own, other)) {
            return Some(turns);
        }
        None
    }

    // What own aircraft takes last.
    fn own_lasts(&self) -> Lasts {
        let mut lasts = [None; CRAFTS];
        for other in 0..CRAFTS {
            if let Some(turns) = self.turns(other as u8) {
                lasts[other] = Some(last_of(&turns, own_of(self.own, other as u8)));
            }
        }
        lasts
    }

    // What another aircraft takes last.
    fn lasts_of(&self, other: u8) -> Lasts {
        let mut lasts = [None; CRAFTS];
        if let Some(turns) = self.turns(other)
            && let Some(last) = lasts.get_mut(usize::from(self.own))
        {
            *last = Some(last_of(&turns, own_of(other, self.own)));
        }
        lasts
    }

    // The greatest index of an aircraft to which own aircraft sends its message of the new cycle before that one
    // commits.
    fn last_early(&self) -> Option<u8> {
        let mut last = None;
        for other in 0..CRAFTS as u8 {
            if let Some(turns) = self.behind(other)
                && tells(turns.early)
            {
                last = Some(other);
            }
        }
        last
    }
}

impl<'a> Steering<'a> {
    // Another aircraft commits its cycle of the round, where it hasn't yet.
    fn commit_other(&mut self, round: &Round<'_>, other: u8)
        ensures { self.new ≡ self.old }
    {
        if usize::from(self.commits(other)) <= round.made {
            self.commit(other, &round.lasts_of(other));
        }
    }

    // Those commit with which own aircraft exchanges no messages.
    fn commit_apart(&mut self, round: &Round<'_>)
        ensures { self.new ≡ self.old }
    {
        for other in 0..self.count() {
            if other != round.own && round.turns(other).is_none() {
                self.commit_other(round, other);
            }
        }
    }

    // Own aircraft sends its next message of the cycle before. A receiver to which it is late commits first.
    fn send_next(&mut self, round: &Round<'_>, target: u8)
        ensures { self.new ≡ self.old }
    {
        if let Some(turns) = round.ahead(target)
            && !tells(turns.answer)
        {
            self.commit_other(round, target);
        }
        let _ = self.send(round.own);
    }

    // Own aircraft sends its messages of the cycle before.
    fn send_before(&mut self, round: &Round<'_>)
        ensures { self.new ≡ self.old }
    {
        for _message in 0..CRAFTS {
            match self.owed_to(round.own) {
                Some(target) => self.send_next(round, target),
                None => return,
            }
        }
    }

    // Those commit that commit before own aircraft, and send their messages of the new cycle where these are early.
    fn commit_ahead(&mut self, round: &Round<'_>)
        ensures { self.new ≡ self.old }
    {
        for other in 0..self.count() {
            if let Some(turns) = round.ahead(other) {
                self.commit_other(round, other);
                if tells(turns.early) {
                    self.send_all(other);
                }
            }
        }
    }

    // Those that commit after own aircraft send their messages of the cycle before, where these aren't late.
    fn answer(&mut self, round: &Round<'_>)
        ensures { self.new ≡ self.old }
    {
        for other in 0..self.count() {
            if let Some(turns) = round.behind(other)
                && tells(turns.answer)
            {
                self.send_all(other);
            }
        }
    }

    // Own aircraft sends its next message of the new cycle. A receiver to which it isn't early commits first.
    fn send_next_early(&mut self, round: &Round<'_>, target: u8)
        ensures { self.new ≡ self.old }
    {
        if let Some(turns) = round.behind(target)
            && !tells(turns.early)
        {
            self.commit_other(round, target);
        }
        let _ = self.send(round.own);
    }

    // Own aircraft sends its messages of the new cycle, up to the last early one.
    fn send_early(&mut self, round: &Round<'_>)
        ensures { self.new ≡ self.old }
    {
        let Some(last) = round.last_early() else {
            return;
        };
        for _message in 0..CRAFTS {
            match self.owed_to(round.own) {
                Some(target) => {
                    if target > last {
                        return;
                    }
                    self.send_next_early(round, target);
                }
                None => return,
            }
        }
    }

    // Those commit that commit after own aircraft.
    fn commit_behind(&mut self, round: &Round<'_>)
        ensures { self.new ≡ self.old }
    {
        for other in 0..self.count() {
            if round.behind(other).is_some() {
                self.commit_other(round, other);
            }
        }
    }

    // A round.
    fn go(&mut self, round: &Round<'_>)
        ensures { self.new ≡ self.old }
    {
        self.commit_apart(round);
        self.send_before(round);
        self.commit_ahead(round);
        self.answer(round);
        self.commit(round.own, &round.own_lasts());
        self.send_early(round);
        self.commit_behind(round);
    }

    // The run.
    fn into_state(self) -> AirState
        ensures { result.encounter ≡ self.entry }
    {
        self.state
    }
}

/// A run of an encounter, up to the last round of a plan.
pub(crate) fn steered(
    alloc: Global,
    encounter: &Encounter,
    plan: &Plan,
) -> Result<AirState, AllocError>
    requires { IsInside encounter.now }
    ensures { IfOk result (λ state. state.encounter ≡ encounter.now) }
{
    let mut steering = Steering::new(alloc, encounter)?;
    for made in 0..plan.rounds.len() {
        steering.go(&Round {
            own: plan.own,
            made,
            turns: &plan.rounds[made],
        });
    }
    Ok(steering.into_state())
}
