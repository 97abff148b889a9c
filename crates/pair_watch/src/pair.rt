// Two aircraft that coordinate.
ghost use Rattle.std.specs.Prelude.{◌≡◌, ◌≢◌, ◌+◌, ◌<◌, ◌||◌, length};
ghost use Rattle.acas_base.specs.declared.TheConstants.{CRAFTS};
ghost use Rattle.air_journal.specs.Airs.{air_of};
ghost use Rattle.journal_reader.specs.Reading.{present_run};
ghost use Rattle.pair_watch.specs.Watching.{begun_sense, cause_of, equal_sense, is_at, is_first, is_second, is_watched};

use acas_base::{Encounter, Rank, Sense};
use journal_reader::Reader;

/// Two aircraft, of which the second one gives way.
#[derive(Clone, Copy)]
pub(crate) struct Pair {
    pub low: u8,
    pub high: u8,
}

/// Why two senses are equal.
#[derive(Clone, Copy)]
pub(crate) enum Cause {
    /// The one that gives way has taken no undamaged message of the other one.
    Untold,
    /// The last one was sent before the other one's present run.
    Old,
    /// It was sent in that run, and has lapsed.
    Lapsed,
}

fn is_first(rank: Rank) -> bool
    ensures { result ≡ is_first rank }
{
    match rank {
        Rank::First => true,
        Rank::Second | Rank::Free => false,
    }
}

fn is_second(rank: Rank) -> bool
    ensures { result ≡ is_second rank }
{
    match rank {
        Rank::Second => true,
        Rank::First | Rank::Free => false,
    }
}

/// Whether both coordinate, and which of them gives way.
pub(crate) fn is_watched(encounter: &Encounter, pair: Pair) -> bool
    requires low { pair.low < length encounter.now.crafts }
    requires high { pair.high < length encounter.now.crafts }
    ensures { result ≡ is_watched (air_of encounter.now) pair.low pair.high }
{
    if pair.low == pair.high {
        return false;
    }
    is_second(air_journal::rank(encounter, pair.high, pair.low))
        && is_first(air_journal::rank(encounter, pair.low, pair.high))
}

// The sense in which both advise against each other by their last commits; none where they don't.
fn equal_sense(reader: &Reader<'_>, pair: Pair) -> Option<Sense>
    requires low { pair.low < CRAFTS }
    requires high { pair.high < CRAFTS }
    ensures { result ≡ equal_sense reader.now.read pair.low pair.high }
{
    let sense = reader.last_cell(pair.high, pair.low).sense()?;
    if reader.last_cell(pair.low, pair.high).has_sense(sense) {
        Some(sense)
    } else {
        None
    }
}

fn is_at(position: u32, began: Option<u32>) -> bool
    ensures { result ≡ is_at position began }
{
    match began {
        Some(began) => began == position,
        None => false,
    }
}

// One of the two runs began at a position.
fn run_begins(reader: &Reader<'_>, pair: Pair, at: u32) -> bool
    requires low { pair.low < CRAFTS }
    requires high { pair.high < CRAFTS }
    ensures { result ≡ (is_at at (present_run reader.now.read pair.high pair.low) || is_at at (present_run reader.now.read pair.low pair.high)) }
{
    is_at(at, reader.run_began(pair.high, pair.low))
        || is_at(at, reader.run_began(pair.low, pair.high))
}

/// The sense of the interval that begins with the entry read last, at this position; none where none does.
pub(crate) fn begun_sense(reader: &Reader<'_>, pair: Pair, at: u32) -> Option<Sense>
    requires low { pair.low < CRAFTS }
    requires high { pair.high < CRAFTS }
    requires apart { pair.low ≢ pair.high }
    requires last { length reader.now.read ≡ at + 1 }
    ensures { result ≡ begun_sense reader.now.read pair.low pair.high at }
{
    let sense = equal_sense(reader, pair)?;
    if run_begins(reader, pair, at) {
        Some(sense)
    } else {
        None
    }
}

/// Why the senses are equal, by the commit read last.
pub(crate) fn cause_of(reader: &Reader<'_>, pair: Pair) -> Cause
    requires low { pair.low < CRAFTS }
    requires high { pair.high < CRAFTS }
    ensures { result ≡ cause_of (air_of reader.now.encounter) reader.now.read pair.low pair.high }
{
    let Some(taken) = reader.take_before(pair.high, pair.low) else {
        return Cause::Untold;
    };
    let began = reader.run_began(pair.low, pair.high).unwrap_or(0);
    if taken.send < began {
        Cause::Old
    } else {
        Cause::Lapsed
    }
}
