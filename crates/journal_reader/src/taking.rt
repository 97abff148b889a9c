// Messages as they are taken.
ghost use Rattle.std.specs.Prelude.{◌≡◌, option_map};
ghost use Rattle.air_journal.specs.EntryRefs.{entry_of};
ghost use Rattle.air_rules.specs.Journal.{as_sent, sent_at};
ghost use Rattle.journal_reader.specs.Links.{from_word};

use acas_base::Vrc;
use air_journal::{AirState, EntryRef};
use res_message::decode;

/// A message: who sent it, and its complement.
#[derive(Clone, Copy)]
pub(crate) struct Told {
    pub sender: u8,
    pub vrc: Vrc,
}

fn told_by(sender: u8, word: u64) -> Told
    ensures { result ≡ from_word sender word }
{
    match decode(word) {
        Some(message) => Told {
            sender,
            vrc: message.vrc,
        },
        None => Told {
            sender,
            vrc: Vrc::Nil,
        },
    }
}

// The message that an entry sends.
fn told_in(entry: EntryRef<'_>) -> Option<Told>
    ensures { result ≡ option_map (λ sent. from_word sent.sender sent.word) (as_sent (entry_of entry.entry)) }
{
    match entry {
        EntryRef::Send { own, word, .. } => Some(told_by(own, word)),
        EntryRef::Commit { .. } | EntryRef::Take { .. } => None,
    }
}

/// The message that was sent at a position.
pub(crate) fn told_at(state: &AirState, send: u32) -> Option<Told>
    ensures { result ≡ option_map (λ sent. from_word sent.sender sent.word) (sent_at state.now.journal send) }
{
    match state.entry_ref(send) {
        Some(entry) => told_in(entry),
        None => None,
    }
}
