// The cycles in which two aircraft advise against each other in one sense.
ghost use Rattle.std.specs.Prelude.{◌≡◌, ◌<◌, ◌≤◌, length, nat_lt};
ghost use Rattle.acas_base.specs.declared.TheConstants.{CRAFTS};
ghost use Rattle.summary.specs.Pairs.{begins_equal, equal_cycles, equal_line, equal_lines, equal_rows, have_one_sense, is_equal, last_equal, row_if_told, row_line, row_lines, told_rows};

use crate::fields::add_cycles;
use crate::stretches::{cell_in, put_more};
use acas_base::Cell;
use acas_lines::LineSink;
use acas_text::Line;
use air_journal::AirState;

// How many rows are told.
const ROWS: u16 = 6;

fn have_one_sense(one: Cell, other: Cell) -> bool
    ensures { result ≡ have_one_sense one other }
{
    match one {
        Cell::Clear | Cell::Traffic => false,
        Cell::Ra(one) => match other {
            Cell::Clear | Cell::Traffic => false,
            Cell::Ra(other) => one.sense == other.sense,
        },
    }
}

fn is_equal(state: &AirState, a: u8, b: u8, cycle: u16) -> bool
    requires a { a < CRAFTS }
    requires b { b < CRAFTS }
    ensures { result ≡ is_equal state.now.journal a b cycle }
{
    have_one_sense(cell_in(state, a, b, cycle), cell_in(state, b, a, cycle))
}

// Whether a row begins with a cycle.
fn begins_equal(state: &AirState, a: u8, b: u8, cycle: u16) -> bool
    requires a { a < CRAFTS }
    requires b { b < CRAFTS }
    requires cycle { 1 ≤ cycle }
    ensures { result ≡ begins_equal state.now.journal a b cycle }
{
    is_equal(state, a, b, cycle) && !is_equal(state, a, b, cycle - 1)
}

// In how many cycles they do.
fn count_equal(state: &AirState, a: u8, b: u8) -> u16
    requires a { a < CRAFTS }
    requires b { b < CRAFTS }
    ensures { result ≡ length (equal_cycles state.now.journal a b state.now.encounter.cycles) }
{
    state.legal_law();
    let mut found = 0;
    for earlier in 0..state.enc().cycles() {
        if is_equal(state, a, b, earlier + 1) {
            found += 1;
        }
    }
    found
}

// The last cycle of the row that begins in a cycle.
fn last_equal(state: &AirState, a: u8, b: u8, first: u16) -> u16
    requires a { a < CRAFTS }
    requires b { b < CRAFTS }
    requires first { first ≤ state.now.encounter.cycles }
    ensures { result ≡ last_equal state.now.journal state.now.encounter.cycles a b first }
{
    state.legal_law();
    for cycle in first..state.enc().cycles() {
        if !is_equal(state, a, b, cycle + 1) {
            return cycle;
        }
    }
    state.enc().cycles()
}

// The line of the row that begins in a cycle.
fn row_line(state: &AirState, a: u8, b: u8, first: u16) -> Line
    requires a { a < CRAFTS }
    requires b { b < CRAFTS }
    requires first { first ≤ state.now.encounter.cycles }
    ensures { result ≡ row_line state.now.journal state.now.encounter.cycles a b first }
{
    let mut line = Line::new();
    line.text("    ");
    add_cycles(&mut line, first, last_equal(state, a, b, first));
    line.text("\n");
    line
}

fn equal_line(count: u16) -> Line
    ensures { result ≡ equal_line count }
{
    let mut line = Line::new();
    line.text("  cycles of equal senses: ");
    line.u16(count);
    line.text("\n");
    line
}

fn is_told(before: u16) -> bool
    ensures { result ≡ nat_lt before told_rows }
{
    before < ROWS
}

// Puts the line of the row that begins in a cycle, where it is one of the first.
fn put_row<S: LineSink>(state: &AirState, a: u8, b: u8, first: u16, before: u16, sink: &mut S)
    requires a { a < CRAFTS }
    requires b { b < CRAFTS }
    requires first { first ≤ state.now.encounter.cycles }
    ensures { S.took sink.old sink.new (row_if_told state.now.journal state.now.encounter.cycles a b first before) }
{
    if is_told(before) {
        sink.line(&row_line(state, a, b, first));
    }
}

// Puts the lines of the first rows, and says how many rows there are.
fn put_rows<S: LineSink>(state: &AirState, a: u8, b: u8, sink: &mut S) -> u16
    requires a { a < CRAFTS }
    requires b { b < CRAFTS }
    ensures put { S.took sink.old sink.new (row_lines state.now.journal state.now.encounter.cycles a b state.now.encounter.cycles) }
    ensures count { result ≡ length (equal_rows state.now.journal a b state.now.encounter.cycles) }
{
    state.legal_law();
    let mut found = 0;
    for earlier in 0..state.enc().cycles() {
        if begins_equal(state, a, b, earlier + 1) {
            put_row(state, a, b, earlier + 1, found, sink);
            found += 1;
        }
    }
    found
}

fn is_some(count: u16) -> bool
    ensures { result ≡ nat_lt 0 count }
{
    0 < count
}

/// Puts the lines of the cycles in which two aircraft had one sense.
pub(crate) fn put_equal<S: LineSink>(state: &AirState, a: u8, b: u8, sink: &mut S)
    requires a { a < CRAFTS }
    requires b { b < CRAFTS }
    ensures { S.took sink.old sink.new (equal_lines state.now.encounter state.now.journal a b) }
{
    let count = count_equal(state, a, b);
    if is_some(count) {
        sink.line(&equal_line(count));
        let rows = put_rows(state, a, b, sink);
        put_more(ROWS, rows, sink);
    }
}
