// The fates of messages that aren't sent.
ghost use Rattle.std.specs.Prelude.{◌≡◌, ◌<◌, ◌≤◌, ◌*◌, length, true};
ghost use Rattle.std.specs.List.{position};
ghost use Rattle.acas_base.specs.declared.TheConstants.{CRAFTS};
ghost use Rattle.enc_file.specs.Earlier.{fate_group};
ghost use Rattle.idle_notes.specs.Messages.{are_ra, first_idle, idle_fates, is_idle, is_idle_of, number_at};
ghost use Rattle.idle_notes.specs.Sources.{encounter_in, journal_in};
ghost use Rattle.idle_notes.specs.Told.{AreFirsts};

use crate::aircraft::is_ra_at;
use crate::source::Source;
use acas_base::{CraftSpec, Fate, PAIRS, pair_of};

/// Whether both of two aircraft are of kind RA.
pub(crate) fn are_ra(crafts: &[CraftSpec], sender: u8, receiver: u8) -> bool
    ensures { result ≡ are_ra crafts.now sender receiver }
{
    is_ra_at(crafts, sender) && is_ra_at(crafts, receiver)
}

// Whether the message of a fate isn't sent.
fn is_idle(source: &Source<'_>, fate: &Fate) -> bool
    ensures { result ≡ is_idle (encounter_in source.now) (journal_in source.now) fate.now }
{
    if !are_ra(source.encounter().crafts(), fate.sender, fate.receiver) {
        return true;
    }
    source.most_sent(fate.sender, fate.receiver) < fate.number
}

// The same, of a pair.
fn is_idle_of(source: &Source<'_>, pair: usize, fate: &Fate) -> bool
    ensures { result ≡ is_idle_of (encounter_in source.now) (journal_in source.now) pair fate.now }
{
    pair_of(fate.sender, fate.receiver) == pair && is_idle(source, fate)
}

// The place of the first idle fate of a pair among some.
fn place_of_idle(source: &Source<'_>, pair: usize, fates: &[Fate]) -> Option<usize>
    ensures { result ≡ position (is_idle_of (encounter_in source.now) (journal_in source.now) pair) fates.now }
{
    fates.iter().position(|fate| is_idle_of(source, pair, fate))
}

// The number of the fate at a place.
fn number_at(fates: &[Fate], place: usize) -> Option<u16>
    ensures { result ≡ number_at fates.now place }
{
    match fates.get(place) {
        Some(fate) => Some(fate.number),
        None => None,
    }
}

// The number of the first idle fate of a pair.
#[tactic(auto, unfolding(crate::specs::Messages::first_idle))]
fn first_idle(source: &Source<'_>, pair: usize) -> Option<u16>
    ensures { result ≡ first_idle (encounter_in source.now) (journal_in source.now) pair }
{
    let fates = source.encounter().fates();
    match place_of_idle(source, pair, fates) {
        Some(place) => number_at(fates, place),
        None => None,
    }
}

/// The numbers of the first idle fates, by pair.
pub(crate) fn first_fates(source: &Source<'_>) -> [Option<u16>; PAIRS]
    ensures { AreFirsts (encounter_in source.now) (journal_in source.now) result }
{
    let mut firsts = [None; PAIRS];
    for pair in 0..PAIRS {
        firsts[pair] = first_idle(source, pair);
    }
    firsts
}

/// How many idle fates a pair has.
pub(crate) fn count_idle(source: &Source<'_>, pair: usize) -> usize
    ensures { result ≡ length (idle_fates (encounter_in source.now) (journal_in source.now) pair) }
{
    source
        .encounter()
        .fates()
        .iter()
        .filter(|fate| is_idle_of(source, pair, fate))
        .count()
}
