// The text of the intervals.
ghost use Rattle.std.specs.Prelude.{◌≡◌, ◌+◌, ◌≤◌, ◌++◌, length};
ghost use Rattle.acas_io.specs.Stream.{Puts};
ghost use Rattle.acas_text.specs.declared.line.TheConstants.{LINE_BYTES, U32_BYTES};
ghost use Rattle.pair_watch.specs.Watching.{cause_letter, interval_line, next_text, watch_text};

use crate::intervals::Intervals;
use crate::pair::Cause;
use acas_base::{Address, Sense};
use acas_io::{Failed, Sink};
use acas_lines::{LineSink, Text, count_line, count_lines, write_text};
use acas_text::Line;
use advisory_report::sense_letter;
use air_journal::AirState;

/// An interval of equal senses: the sense, the positions of its first and last commit, its cause, and the position of
/// the next message.
#[derive(Clone, Copy)]
pub(crate) struct Interval {
    pub sense: Sense,
    pub from: u32,
    pub to: u32,
    pub cause: Cause,
    pub next: Option<u32>,
}

fn cause_letter(cause: Cause) -> &'static str
    ensures text { result.now ≡ cause_letter cause }
    ensures short { length result.now ≤ 1 }
{
    match cause {
        Cause::Untold => "n",
        Cause::Old => "o",
        Cause::Lapsed => "l",
    }
}

fn add_next(line: &mut Line, next: Option<u32>)
    requires { length line.old + U32_BYTES ≤ LINE_BYTES }
    ensures added { line.new ≡ line.old ++ next_text next }
    ensures short { length line.new ≤ length line.old + U32_BYTES }
{
    match next {
        Some(position) => line.u32(position),
        None => line.text("-"),
    }
}

/// The line of an interval of two aircraft.
pub(crate) fn interval_line(low: Address, high: Address, it: &Interval) -> Line
    ensures { result ≡ interval_line low high it.now.sense it.now.from it.now.to it.now.cause it.now.next }
{
    let mut line = Line::new();
    line.text("w");
    line.address_field(low.value());
    line.address_field(high.value());
    line.text_field(sense_letter(it.sense));
    line.u32_field(it.from);
    line.u32_field(it.to);
    line.text_field(cause_letter(it.cause));
    line.text(",");
    add_next(&mut line, it.next);
    line.text("\n");
    line
}

/// The intervals of equal senses of a state: how many there are, and the line of each, by the position of its first
/// commit and then by the indices of its two aircraft.
#[derive(Drop)]
pub struct Watch<'a>(pub &'a AirState);

impl Text for Watch<'_> {
    ghost use Rattle.pair_watch.specs.Watching.{watch_lines};

    ghost lines = { λ w. watch_lines w.0.now.encounter w.0.now.journal };

    fn put<S: LineSink>(&self, sink: &mut S) {
        self.0.legal_law();
        let intervals = Intervals(self.0);
        let count = count_lines(&intervals);
        sink.line(&count_line("watch", count));
        // Mostly there are none. Then the journal isn't read again.
        if count > 0 {
            intervals.put(sink);
        }
    }
}

/// Writes the intervals of equal senses of a state. It takes no memory.
///
/// `Failed` comes only where the sink's count of faults rose; what was written then is a front of the text.
pub fn write<K: Sink>(state: &AirState, sink: &mut K) -> Result<(), Failed>
    ensures { Puts (K.written sink.old) (K.written sink.new) (K.faults sink.old) (K.faults sink.new) (watch_text state.now.encounter state.now.journal) result }
{
    write_text(&Watch(state), sink)
}
