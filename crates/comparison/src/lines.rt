// The text of what differs.
ghost use Rattle.std.specs.Prelude.{◌≡◌, ◌≤◌, ◌∷◌, [], Some, is_none, length};
ghost use Rattle.acas_io.specs.Stream.{Puts};
ghost use Rattle.comparison.specs.Comparing.{cell_lines, compared_text, different_lines, encounter_lines, run_lines, sameness_line, sameness_word};
ghost use Rattle.enc_file.specs.Canonical.{canonical_lines};

use crate::cells::CellPlace;
use crate::finding::{Found, RunFound};
use crate::picking::put_picked;
use crate::places::cell_line;
use crate::reports::Apart;
use crate::sides::Side;
use acas_base::Encounter;
use acas_io::{Failed, Sink};
use acas_lines::{LineSink, Text, write_text};
use acas_text::Line;
use air_journal::AirState;
use enc_file::CanonicalText;

/// Two states of the air, and what was found where they were compared. Its text has the lines of `specs/Comparing`.
#[derive(Drop)]
pub struct Comparison<'a> {
    pub one: &'a AirState,
    pub other: &'a AirState,
    pub found: &'a Found,
}

fn sameness_word(same: bool) -> &'static str
    ensures text { result.now ≡ sameness_word same }
    ensures short { length result.now ≤ 9 }
{
    if same { "equal" } else { "different" }
}

// Whether a thing is the same in both.
fn sameness_line(thing: &str, same: bool) -> Line
    requires { length thing.now ≤ 20 }
    ensures { result ≡ sameness_line thing.now same }
{
    let mut line = Line::new();
    line.text(thing);
    line.text_field(sameness_word(same));
    line.text("\n");
    line
}

fn put_encounter<S: LineSink>(
    one: &Encounter,
    other: &Encounter,
    before: Option<usize>,
    sink: &mut S,
)
    ensures { S.took sink.old sink.new (encounter_lines one.now other.now before) }
{
    if let Some(before) = before {
        put_picked(Side::One, before, &CanonicalText(one), sink);
        put_picked(Side::Other, before, &CanonicalText(other), sink);
    }
}

fn put_cell<S: LineSink>(one: &AirState, other: &AirState, place: Option<CellPlace>, sink: &mut S)
    ensures { S.took sink.old sink.new (cell_lines one.now other.now place) }
{
    if let Some(place) = place {
        sink.line(&cell_line(one, other, place));
    }
}

fn put_found<S: LineSink>(one: &AirState, other: &AirState, run: RunFound, sink: &mut S)
    ensures { S.took sink.old sink.new (run_lines one.now other.now (Some run)) }
{
    sink.line(&sameness_line("cells", run.cell.is_none()));
    sink.line(&sameness_line("report", run.same_report));
    sink.line(&sameness_line("messages", run.same_messages));
    put_cell(one, other, run.cell, sink);
    Apart { one, other }.put(sink);
}

fn put_run<S: LineSink>(one: &AirState, other: &AirState, found: Option<RunFound>, sink: &mut S)
    ensures { S.took sink.old sink.new (run_lines one.now other.now found) }
{
    if let Some(run) = found {
        put_found(one, other, run, sink);
    }
}

fn put_different<S: LineSink>(one: &AirState, other: &AirState, found: &Found, sink: &mut S)
    ensures { S.took sink.old sink.new (different_lines one.now other.now found.now) }
{
    sink.line(&sameness_line("encounter", found.encounter.is_none()));
    put_encounter(one.enc(), other.enc(), found.encounter, sink);
    put_run(one, other, found.run, sink);
}

impl Text for Comparison<'_> {
    ghost use Rattle.comparison.specs.Comparing.{compared_lines};

    ghost lines = { λ c. compared_lines c.one.now c.other.now c.found.now };

    fn put<S: LineSink>(&self, sink: &mut S) {
        let same = self.found.is_equal();
        sink.line(&sameness_line("compare", same));
        if !same {
            put_different(self.one, self.other, self.found, sink);
        }
    }
}

/// Writes what was found. It takes no memory.
///
/// `Failed` comes only where the sink's count of faults rose; what was written then is a front of the text.
pub fn write<K: Sink>(comparison: &Comparison<'_>, sink: &mut K) -> Result<(), Failed>
    ensures { Puts (K.written sink.old) (K.written sink.new) (K.faults sink.old) (K.faults sink.new) (compared_text comparison.now.one.now comparison.now.other.now comparison.now.found.now) result }
{
    write_text(comparison, sink)
}
