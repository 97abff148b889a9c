// The intervals of equal senses, in the order in which they begin.
ghost use Rattle.std.specs.Prelude.{◌≡◌, ◌≢◌, ◌+◌, ◌<◌, ◌≤◌, true, length, option_to_list};
ghost use Rattle.acas_base.specs.declared.TheConstants.{CRAFTS};
ghost use Rattle.air_rules.specs.Journal.{Begins};
ghost use Rattle.pair_watch.specs.Watching.{ends_with_commit, line_at, lines_at, lines_of_low};

use crate::lines::{Interval, interval_line};
use crate::pair::{Pair, begun_sense, cause_of, is_watched};
use crate::rows::{last_of, next_send};
use acas_lines::{LineSink, Text};
use air_journal::{AirState, EntryRef};
use journal_reader::Reader;

/// The lines of the intervals of equal senses of a state.
#[derive(Drop)]
pub(crate) struct Intervals<'a>(pub &'a AirState);

// Puts the line of the interval of a pair that begins with the entry read last, at this position, where one does.
fn put_pair<S: LineSink>(state: &AirState, reader: &Reader<'_>, pair: Pair, at: u32, sink: &mut S)
    requires encounter { reader.now.encounter ≡ state.now.encounter }
    requires journal { reader.now.journal ≡ state.now.journal }
    requires low { pair.low < length state.now.encounter.crafts }
    requires high { pair.high < length state.now.encounter.crafts }
    requires last { length reader.now.read ≡ at + 1 }
    ensures { S.took sink.old sink.new (option_to_list (line_at state.now.encounter state.now.journal reader.now.read at pair.low pair.high)) }
{
    reader.reading_law();
    if !is_watched(state.enc(), pair) {
        return;
    }
    if let Some(sense) = begun_sense(reader, pair, at) {
        let interval = Interval {
            sense,
            from: at,
            to: last_of(state, pair, sense, at),
            cause: cause_of(reader, pair),
            next: next_send(state, pair, at),
        };
        let crafts = state.enc().crafts();
        let low = crafts[usize::from(pair.low)].address;
        let high = crafts[usize::from(pair.high)].address;
        sink.line(&interval_line(low, high, &interval));
    }
}

// Puts those of the pairs of one aircraft with all that give way to it.
fn put_low<S: LineSink>(state: &AirState, reader: &Reader<'_>, low: u8, at: u32, sink: &mut S)
    requires encounter { reader.now.encounter ≡ state.now.encounter }
    requires journal { reader.now.journal ≡ state.now.journal }
    requires low { low < length state.now.encounter.crafts }
    requires last { length reader.now.read ≡ at + 1 }
    ensures { S.took sink.old sink.new (lines_of_low state.now.encounter state.now.journal reader.now.read at low) }
{
    state.legal_law();
    for high in 0..state.enc().crafts().len() {
        let pair = Pair {
            low,
            high: high as u8,
        };
        put_pair(state, reader, pair, at, sink);
    }
}

// Puts the same, after a commit of an aircraft: of the pairs of any other one, only that of the two can have changed.
fn put_changed<S: LineSink>(
    state: &AirState,
    reader: &Reader<'_>,
    low: u8,
    own: u8,
    at: u32,
    sink: &mut S,
)
    requires encounter { reader.now.encounter ≡ state.now.encounter }
    requires journal { reader.now.journal ≡ state.now.journal }
    requires low { low < length state.now.encounter.crafts }
    requires own { own < length state.now.encounter.crafts }
    requires last { length reader.now.read ≡ at + 1 }
    requires commit { ends_with_commit reader.now.read own ≡ true }
    ensures { S.took sink.old sink.new (lines_of_low state.now.encounter state.now.journal reader.now.read at low) }
{
    if low == own {
        put_low(state, reader, low, at, sink);
    } else {
        let pair = Pair { low, high: own };
        put_pair(state, reader, pair, at, sink);
    }
}

// Puts those of all pairs, after a commit of an aircraft.
fn put_at<S: LineSink>(state: &AirState, reader: &Reader<'_>, own: u8, at: u32, sink: &mut S)
    requires encounter { reader.now.encounter ≡ state.now.encounter }
    requires journal { reader.now.journal ≡ state.now.journal }
    requires own { own < length state.now.encounter.crafts }
    requires last { length reader.now.read ≡ at + 1 }
    requires commit { ends_with_commit reader.now.read own ≡ true }
    ensures { S.took sink.old sink.new (lines_at state.now.encounter state.now.journal reader.now.read at) }
{
    state.legal_law();
    for low in 0..state.enc().crafts().len() {
        put_changed(state, reader, low as u8, own, at, sink);
    }
}

impl Text for Intervals<'_> {
    ghost use Rattle.pair_watch.specs.Watching.{interval_lines};

    ghost lines = { λ i. interval_lines i.0.now.encounter i.0.now.journal };

    fn put<S: LineSink>(&self, sink: &mut S) {
        self.0.legal_law();
        let mut reader = Reader::new(self.0);
        while let Some(entry) = reader.next() {
            if let EntryRef::Commit { own, .. } = entry {
                put_at(self.0, &reader, own, reader.position() - 1, sink);
            }
        }
    }
}
