// What the notes go by.
ghost use Rattle.std.specs.Prelude.{◌≡◌, ◌<◌, ◌≤◌, length};
ghost use Rattle.idle_notes.specs.Messages.{most_sent};
ghost use Rattle.idle_notes.specs.Sources.{encounter_in, journal_in};

use acas_base::Encounter;
use deliveries::Deliveries;

/// An encounter that was read by itself, or a recording, whose journal says how many messages are sent.
#[derive(Clone, Copy)]
pub(crate) enum Source<'a> {
    Encounter(&'a Encounter),
    Recording(&'a Deliveries),
}

impl<'a> Source<'a> {
    /// The encounter.
    pub(crate) fn encounter(&self) -> &'a Encounter
        ensures { result.now ≡ encounter_in self.now }
    {
        match *self {
            Source::Encounter(encounter) => encounter,
            Source::Recording(deliveries) => deliveries.state().enc(),
        }
    }

    /// How many messages an aircraft sends to another one at most.
    pub(crate) fn most_sent(&self, sender: u8, receiver: u8) -> u16
        requires sender { sender < length (encounter_in self.now).crafts }
        requires receiver { receiver < length (encounter_in self.now).crafts }
        ensures { result ≡ most_sent (encounter_in self.now) (journal_in self.now) sender receiver }
    {
        match *self {
            Source::Encounter(encounter) => encounter.cycles(),
            Source::Recording(deliveries) => deliveries.sent(sender, receiver),
        }
    }
}
