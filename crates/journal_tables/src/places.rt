// The table of places.
ghost use Rattle.std.specs.Prelude.{◌≡◌, ◌<◌, ◌≤◌, ◌+◌, length, option_copied, unsigned_abs};
ghost use Rattle.acas_io.specs.Stream.{Puts};
ghost use Rattle.acas_lines.specs.Lines.{line_of};
ghost use Rattle.flight.specs.Bounds.{IsReachable};
ghost use Rattle.journal_tables.specs.Places.{lines_in, place_fields, place_line, place_names, places_text, word_by, word_in};

use crate::altitudes::Altitudes;
use crate::fields::planned_tenths;
use acas_base::{Address, Cells};
use acas_io::{Failed, Sink};
use acas_lines::{LineSink, Text, fixed_line, write_text};
use acas_text::Line;
use advisory_report::{composite_of, word};
use air_journal::AirState;
use flight::{Place, position};

// The line with the names of the columns.
#[tactic(auto, unfolding(crate::specs::Places::place_names))]
fn place_names() -> Line
    ensures { result ≡ place_names }
{
    fixed_line("cycle,address,x_ft,y_ft,alt_ft,modelled_alt_ft,word\n")
}

// What the cells of a commit say together; nothing where there is no commit.
fn word_by(cells: Option<&Cells>) -> &'static str
    ensures text { result.now ≡ word_by (option_copied cells.entry) }
    ensures short { length result.now ≤ 13 }
{
    match cells {
        Some(cells) => word(&composite_of(cells)),
        None => "",
    }
}

// A whole number of feet that aircraft can be away from zero.
fn feet(value: i64) -> i32
    requires { unsigned_abs value ≤ 2198000 }
    ensures { result ≡ value }
{
    value as i32
}

// The line of an aircraft in a cycle.
fn place_line(
    cycle: u16,
    address: Address,
    place: &Place,
    modelled: Option<i32>,
    word: &str,
) -> Line
    requires place { IsReachable place.now }
    requires word { length word.now ≤ 13 }
    ensures { result ≡ line_of (place_fields cycle address place.now modelled word.now) }
{
    let mut line = Line::new();
    line.u16(cycle);
    line.address_field(address.value());
    line.i32_field(feet(place.x));
    line.i32_field(feet(place.y));
    line.tenths_field(planned_tenths(place.z));
    line.tenths_field_if_any(modelled);
    line.text_field(word);
    line.text("\n");
    line
}

// Puts the lines of a cycle.
fn put_cycle<S: LineSink>(altitudes: &Altitudes<'_>, cycle: u16, sink: &mut S)
    requires begun { 1 ≤ cycle }
    requires in_run { cycle ≤ altitudes.now.encounter.cycles }
    ensures { S.took sink.old sink.new (lines_in altitudes.now.encounter altitudes.now.journal cycle) }
{
    let state = altitudes.state();
    state.legal_law();
    let crafts = state.enc().crafts();
    for at in 0..crafts.len() {
        let craft = at as u8;
        let place = position(state.enc(), craft, cycle);
        let modelled = altitudes.altitude(craft, cycle);
        let word = word_by(state.cells(craft, cycle));
        sink.line(&place_line(cycle, crafts[at].address, &place, modelled, word));
    }
}

impl Text for Altitudes<'_> {
    ghost use Rattle.journal_tables.specs.Places.{cycle_lines};

    ghost lines = { λ a. cycle_lines a.encounter a.journal };

    fn put<S: LineSink>(&self, sink: &mut S) {
        for cycle in 0..self.state().enc().cycles() {
            put_cycle(self, cycle + 1, sink);
        }
    }
}

/// The table of places of a state: the names of the columns, and a line for each cycle and aircraft, by cycle and then
/// by index: `cycle,address,x_ft,y_ft,alt_ft,modelled_alt_ft,word`. The altitudes are rounded down to tenths of a foot.
/// The modelled one is that of `response::flown`; it is empty up to the first cycle with advice, that one included, and
/// where there is none. The word is that of the report; it is empty where the aircraft makes no commits.
#[derive(Drop)]
pub struct Places<'a>(pub &'a AirState);

impl Text for Places<'_> {
    ghost use Rattle.journal_tables.specs.Places.{place_lines};

    ghost lines = { λ p. place_lines p.0.now.encounter p.0.now.journal };

    fn put<S: LineSink>(&self, sink: &mut S) {
        sink.line(&place_names());
        Altitudes::new(self.0).put(sink);
    }
}

/// Writes the [`Places`] of a state. It takes no memory.
///
/// `Failed` comes only where the sink's count of faults rose; what was written then is a front of the text.
pub fn write_places<K: Sink>(state: &AirState, sink: &mut K) -> Result<(), Failed>
    ensures { Puts (K.written sink.old) (K.written sink.new) (K.faults sink.old) (K.faults sink.new) (places_text state.now.encounter state.now.journal) result }
{
    write_text(&Places(state), sink)
}
