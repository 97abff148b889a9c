// Takes.
ghost use Rattle.std.specs.Prelude.{◌≡◌};
ghost use Rattle.air_journal.specs.Airs.{air_of};
ghost use Rattle.air_journal.specs.Calls.{Takes, TakesThis, TookCopy};
ghost use Rattle.air_journal.specs.Found.{WaitsAt};
ghost use Rattle.air_rules.specs.Rules.{IsLegal};
ghost use Rattle.craft_view.specs.Kept.{IsActive};

use crate::answers::{Took, TookThis};
use crate::crafts::count_of;
use crate::due::{Found, find_copy, next_due};
use crate::state::AirState;

impl AirState {
    // Takes a copy that waits and is due. It is inlined in both of its calls, which are made for each copy.
    #[inline(always)]
    fn take_found(&mut self, own: u8, found: Found) -> (u32, bool)
        requires active { IsActive self.old.encounter own }
        requires waits { WaitsAt (air_of self.old.encounter) self.old.journal own found }
        ensures encounter { self.new.encounter ≡ self.old.encounter }
        ensures took { TookCopy (air_of self.old.encounter) self.old.journal own found.waiting.send found.waiting.copy self.new.journal result.0 result.1 }
        ensures legal { IsLegal (air_of self.new.encounter) self.new.journal }
    {
        let waiting = found.waiting;
        let position = self.journal.len() as u32;
        let good = waiting.reads.is_some();
        self.journal
            .push_take(own, waiting.send, waiting.copy, good);
        self.tables
            .take(own, found.sender, found.place, waiting.reads);
        (position, good)
    }

    /// Takes the first copy that is due to an active aircraft, where one is.
    pub fn take(&mut self, own: u8) -> Took
        requires { IsActive self.old.encounter own }
        ensures encounter { self.new.encounter ≡ self.old.encounter }
        ensures takes { Takes (air_of self.old.encounter) self.old.journal own self.new.journal result }
        ensures legal { IsLegal (air_of self.new.encounter) self.new.journal }
    {
        let made = self.tables.made(own).commits;
        match next_due(&mut self.tables, own, made) {
            None => Took::Nothing,
            Some(found) => {
                let (position, good) = self.take_found(own, found);
                Took::Done(position, good)
            }
        }
    }

    /// Takes this copy of the message sent at this position, where it is due to an active aircraft.
    pub fn take_this(&mut self, own: u8, send: u32, copy: u8) -> TookThis
        requires { IsActive self.old.encounter own }
        ensures encounter { self.new.encounter ≡ self.old.encounter }
        ensures takes { TakesThis (air_of self.old.encounter) self.old.journal own send copy self.new.journal result }
        ensures legal { IsLegal (air_of self.new.encounter) self.new.journal }
    {
        let count = count_of(&self.encounter);
        let made = self.tables.made(own).commits;
        match find_copy(&self.journal, &self.tables, own, made, send, copy, count) {
            None => TookThis::NotDue,
            Some(found) => {
                let (position, good) = self.take_found(own, found);
                TookThis::Done(position, good)
            }
        }
    }
}
