// Sends.
ghost use Rattle.std.specs.Prelude.{◌≡◌};
ghost use Rattle.air_journal.specs.Airs.{air_of};
ghost use Rattle.air_journal.specs.Calls.{Sends};
ghost use Rattle.air_rules.specs.Rules.{IsLegal};
ghost use Rattle.craft_view.specs.Kept.{IsActive};

use crate::answers::Sent;
use crate::owing::first_owed;
use crate::state::AirState;
use res_message::encode;

impl AirState {
    /// Sends the first message that an active aircraft owes, where it owes one.
    pub fn send(&mut self, own: u8) -> Sent
        requires { IsActive self.old.encounter own }
        ensures encounter { self.new.encounter ≡ self.old.encounter }
        ensures sends { Sends (air_of self.old.encounter) self.old.journal own self.new.journal result }
        ensures legal { IsLegal (air_of self.new.encounter) self.new.journal }
    {
        match first_owed(&self.encounter, &self.tables, own) {
            None => Sent::Nothing,
            Some(owing) => {
                let position = self.journal.len() as u32;
                let number = self.tables.link(own, owing.target).sends + 1;
                let fate = self.usual.fate(&self.encounter, own, owing.target, number);
                let word = encode(&owing.message);
                self.journal.push_send(own, owing.target, number, word);
                self.tables.send(own, owing.target, owing.message.vrc, word, position, &fate);
                Sent::Done(position)
            }
        }
    }
}
