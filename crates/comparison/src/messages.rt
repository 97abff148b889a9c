// The messages of a journal.
ghost use Rattle.std.specs.Prelude.{◌≡◌, ◌↔◌, ◌+◌, ◌*◌, ◌<◌, ◌≤◌, [], IfOk, IsTrue, length, replicate, reverse, slice_get, slice_set, Some, None};
ghost use Rattle.acas_base.specs.Ranges.{IsCycle};
ghost use Rattle.acas_base.specs.declared.TheConstants.{CRAFTS};
ghost use Rattle.air_journal.specs.EntryRefs.{entry_of};
ghost use Rattle.air_rules.specs.Journal.{Sent, as_sent, sent_at};
ghost use Rattle.comparison.specs.Messages.{AreSameMessages, AreTables, IsSentFit, IsSlotFound, copy_slot, message_slot};
ghost use Rattle.journal_reader.specs.Reading.{read_of};

use acas_base::{PAIRS, pair_of};
use air_journal::{AirState, EntryRef};
use std::alloc::{AllocError, Global};

// The most messages of one aircraft to another one.
const NUMBERS: usize = 600;

// The most copies of a message.
const COPIES: usize = 3;

// What a journal says of each message that an encounter can have: its word, where it was sent; and of each copy whether
// it was good, where it was taken.
#[derive(Drop)]
struct Tables {
    words: Vec<Option<u64>>,
    results: Vec<Option<bool>>,
}

// The place of a message.
fn message_slot(sender: u8, receiver: u8, number: u16) -> usize
    requires number { 1 ≤ number }
    ensures { result ≡ message_slot sender receiver number }
{
    pair_of(sender, receiver) * NUMBERS + usize::from(number - 1)
}

// The place of the message that an entry sends.
fn slot_of(entry: &EntryRef<'_>) -> Option<usize>
    requires { IsSentFit (entry_of entry.now) }
    ensures { IsSlotFound (as_sent (entry_of entry.now)) result }
{
    match *entry {
        EntryRef::Send {
            own,
            target,
            number,
            ..
        } => Some(message_slot(own, target, number)),
        EntryRef::Commit { .. } | EntryRef::Take { .. } => None,
    }
}

// The place of the message that was sent at a position.
fn slot_at(state: &AirState, send: u32) -> Option<usize>
    ensures { IsSlotFound (sent_at state.now.journal send) result }
{
    state.legal_law();
    match state.entry_ref(send) {
        Some(entry) => slot_of(&entry),
        None => None,
    }
}

fn note_send(words: &mut Vec<Option<u64>>, slot: usize, word: u64)
    requires { slot < length words.old.items }
    ensures { words.new.items ≡ slice_set words.old.items slot (Some word) }
{
    words[slot] = Some(word);
}

fn note_take(results: &mut Vec<Option<bool>>, slot: usize, copy: u8, good: bool)
    requires slot { slot < 153600 }
    requires within { copy_slot slot copy < length results.old.items }
    ensures { results.new.items ≡ slice_set results.old.items (copy_slot slot copy) (Some good) }
{
    results[slot * COPIES + usize::from(copy)] = Some(good);
}

// Notes what the entry at a position says.
fn note(state: &AirState, at: u32, entry: &EntryRef<'_>, tables: &mut Tables)
    requires entry { slice_get (reverse state.now.journal) at ≡ Some (entry_of entry.now) }
    requires before { AreTables (sent_at state.now.journal) (read_of state.now.journal at) tables.old.words.items tables.old.results.items }
    ensures { AreTables (sent_at state.now.journal) (read_of state.now.journal (at + 1)) tables.new.words.items tables.new.results.items }
{
    state.legal_law();
    match *entry {
        EntryRef::Commit { .. } => {}
        EntryRef::Send {
            own,
            target,
            number,
            word,
        } => note_send(&mut tables.words, message_slot(own, target, number), word),
        EntryRef::Take {
            send,
            copy,
            good,
            ..
        } => {
            if let Some(slot) = slot_at(state, send) {
                note_take(&mut tables.results, slot, copy, good);
            }
        }
    }
}

// Notes what the entry at a position says, where there is one.
fn note_at(state: &AirState, at: u32, tables: &mut Tables)
    requires { AreTables (sent_at state.now.journal) (read_of state.now.journal at) tables.old.words.items tables.old.results.items }
    ensures { AreTables (sent_at state.now.journal) (read_of state.now.journal (at + 1)) tables.new.words.items tables.new.results.items }
{
    if let Some(entry) = state.entry_ref(at) {
        note(state, at, &entry, tables);
    }
}

fn no_words(alloc: Global, count: usize) -> Result<Vec<Option<u64>>, AllocError>
    ensures { IfOk result (λ words. words.items ≡ replicate count None) }
{
    let mut words = Vec::with_capacity(alloc, count)?;
    for _slot in 0..count {
        words.push(None)?;
    }
    Ok(words)
}

fn no_results(alloc: Global, count: usize) -> Result<Vec<Option<bool>>, AllocError>
    ensures { IfOk result (λ results. results.items ≡ replicate count None) }
{
    let mut results = Vec::with_capacity(alloc, count)?;
    for _slot in 0..count {
        results.push(None)?;
    }
    Ok(results)
}

// The tables of a journal. They take memory by the messages that an encounter can have, and none by the number of
// entries.
fn tables_of(alloc: Global, state: &AirState) -> Result<Tables, AllocError>
    ensures { IfOk result (λ tables. AreTables (sent_at state.now.journal) state.now.journal tables.words.items tables.results.items) }
{
    let words = no_words(alloc, PAIRS * NUMBERS)?;
    let results = no_results(alloc, PAIRS * NUMBERS * COPIES)?;
    let mut tables = Tables { words, results };
    for at in 0..state.count() {
        note_at(state, at, &mut tables);
    }
    Ok(tables)
}

fn same_words(one: &[Option<u64>], other: &[Option<u64>]) -> bool
    ensures { IsTrue result ↔ (one.now ≡ other.now) }
{
    one == other
}

fn same_results(one: &[Option<bool>], other: &[Option<bool>]) -> bool
    ensures { IsTrue result ↔ (one.now ≡ other.now) }
{
    one == other
}

fn are_same(ours: &Tables, theirs: &Tables) -> bool
    ensures { IsTrue result ↔ ((ours.now.words.items ≡ theirs.now.words.items) × (ours.now.results.items ≡ theirs.now.results.items)) }
{
    if !same_words(ours.words.as_slice(), theirs.words.as_slice()) {
        return false;
    }
    same_results(ours.results.as_slice(), theirs.results.as_slice())
}

/// Whether each message has the same word in two journals, and each copy the same take, wherever they stand.
pub(crate) fn are_same_messages(
    alloc: Global,
    one: &AirState,
    other: &AirState,
) -> Result<bool, AllocError>
    ensures { IfOk result (λ same. IsTrue same ↔ AreSameMessages one.now.journal other.now.journal) }
{
    let ours = tables_of(alloc, one)?;
    let theirs = tables_of(alloc, other)?;
    Ok(are_same(&ours, &theirs))
}
