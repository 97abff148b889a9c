// How many messages were sent, counted in one pass over a journal.
ghost use Rattle.std.specs.Prelude.{◌≡◌, ◌+◌, ◌*◌, ◌<◌, Some, reverse, slice_get, slice_set};
ghost use Rattle.acas_base.specs.declared.TheConstants.{CRAFTS};
ghost use Rattle.air_journal.specs.EntryRefs.{entry_of};
ghost use Rattle.run_losses.specs.Counted.{AreSent, read_of};

use acas_base::{CRAFTS, PAIRS, pair_of};
use air_journal::{AirState, EntryRef};

// Counts a message: its number, from 1 on, is how many its sender sent to its receiver so far.
fn note_send(sent: &mut [u16; PAIRS], sender: u8, receiver: u8, number: u16)
    requires sender { sender < CRAFTS }
    requires receiver { receiver < CRAFTS }
    ensures { sent.new ≡ slice_set sent.old (sender * CRAFTS + receiver) number }
{
    sent[pair_of(sender, receiver)] = number;
}

// Counts the entry at a position.
fn note(state: &AirState, at: u32, entry: &EntryRef<'_>, sent: &mut [u16; PAIRS])
    requires entry { slice_get (reverse state.now.journal) at ≡ Some (entry_of entry.now) }
    requires sent { AreSent (read_of state.now.journal at) sent.old }
    ensures { AreSent (read_of state.now.journal (at + 1)) sent.new }
{
    state.legal_law();
    match *entry {
        EntryRef::Send {
            own,
            target,
            number,
            ..
        } => note_send(sent, own, target, number),
        EntryRef::Commit { .. } => {}
        EntryRef::Take { .. } => {}
    }
}

// Counts the entry at a position, where there is one.
fn note_at(state: &AirState, at: u32, sent: &mut [u16; PAIRS])
    requires { AreSent (read_of state.now.journal at) sent.old }
    ensures { AreSent (read_of state.now.journal (at + 1)) sent.new }
{
    if let Some(entry) = state.entry_ref(at) {
        note(state, at, &entry, sent);
    }
}

/// How many messages each aircraft sent to each other one, by pair.
pub(crate) fn sent_by_pair(state: &AirState) -> [u16; PAIRS]
    ensures { AreSent state.now.journal result }
{
    let mut sent = [0; PAIRS];
    for at in 0..state.count() {
        note_at(state, at, &mut sent);
    }
    sent
}
