// The lines of an aircraft against another one.
ghost use Rattle.std.specs.Prelude.{◌≡◌, ◌≢◌, ◌<◌, ◌≤◌, ◌++◌, Some, codes, length, map, option_copied, take};
ghost use Rattle.acas_base.specs.declared.TheConstants.{CRAFTS};
ghost use Rattle.air_journal.specs.Airs.{air_of, kind_of};
ghost use Rattle.summary.specs.Fields.{kind_text};
ghost use Rattle.summary.specs.Lines.{craft_line, craft_lines, more_lines, quiet, rank_part, stretch_line, stretch_lines, stretch_of, stretch_to};
ghost use Rattle.summary.specs.Stretches.{IsInRun, cell_in, cell_of, is_kept, last_of, starts_of};

use crate::fields::{address_of, kind_text, more_line, rank_text};
use crate::head::quiet_line;
use crate::notes::{Stretch, stretch_text};
use crate::page::Page;
use crate::rows::{STRETCHES, Start, is_same_shown};
use acas_base::{Address, Cell, Cells, Encounter, Kind};
use acas_lines::{LineSink, fixed_line};
use acas_text::Line;
use advisory_report::shown;
use air_journal::{AirState, rank};

fn cell_of(cells: Option<&Cells>, other: u8) -> Cell
    requires { other < CRAFTS }
    ensures { result ≡ cell_of (option_copied cells.entry) other }
{
    match cells {
        Some(cells) => cells.list[usize::from(other)],
        None => Cell::Clear,
    }
}

/// The cell of an aircraft for another one in a cycle; Clear where it hasn't committed it.
pub(crate) fn cell_in(state: &AirState, own: u8, other: u8, cycle: u16) -> Cell
    requires { other < CRAFTS }
    ensures { result ≡ cell_in state.now.journal own other cycle }
{
    cell_of(state.cells(own, cycle), other)
}

// Whether the next cycle shows the same.
fn is_kept(state: &AirState, own: u8, other: u8, cycle: u16) -> bool
    requires other { other < CRAFTS }
    requires cycle { cycle < 600 }
    ensures { result ≡ is_kept state.now.journal own other cycle }
{
    is_same_shown(
        cell_in(state, own, other, cycle),
        cell_in(state, own, other, cycle + 1),
    )
}

// The last cycle of the stretch that begins in a cycle.
fn last_of(state: &AirState, own: u8, other: u8, first: u16) -> u16
    requires other { other < CRAFTS }
    requires first { first ≤ state.now.encounter.cycles }
    ensures value { result ≡ last_of state.now.journal state.now.encounter.cycles own other first }
    ensures least { first ≤ result }
    ensures most { result ≤ state.now.encounter.cycles }
{
    state.legal_law();
    for cycle in first..state.enc().cycles() {
        if !is_kept(state, own, other, cycle) {
            return cycle;
        }
    }
    state.enc().cycles()
}

fn stretch_to(page: &Page<'_>, own: u8, other: u8, start: Start, last: u16) -> Stretch
    requires own { own < length page.now.encounter.crafts }
    requires other { other < CRAFTS }
    requires start { IsInRun page.now.encounter.cycles start }
    requires least { start.cycle ≤ last }
    requires most { last ≤ page.now.encounter.cycles }
    ensures { result ≡ stretch_to page.now.encounter page.now.journal own other start last }
{
    let state = page.state();
    Stretch {
        first: start.cycle,
        last,
        before: cell_in(state, own, other, start.cycle - 1),
        cell: cell_in(state, own, other, start.cycle),
        told: start.told,
        composite: shown(state.cells(own, last)),
        above: page.above(own, last),
    }
}

// The stretch with this beginning.
fn stretch_of(page: &Page<'_>, own: u8, other: u8, start: Start) -> Stretch
    requires own { own < length page.now.encounter.crafts }
    requires other { other < CRAFTS }
    requires start { IsInRun page.now.encounter.cycles start }
    ensures { result ≡ stretch_of page.now.encounter page.now.journal own other start }
{
    let last = last_of(page.state(), own, other, start.cycle);
    stretch_to(page, own, other, start, last)
}

// Its line.
fn stretch_line(page: &Page<'_>, own: u8, other: u8, start: Start) -> Line
    requires own { own < length page.now.encounter.crafts }
    requires other { other < length page.now.encounter.crafts }
    requires start { IsInRun page.now.encounter.cycles start }
    ensures { result ≡ stretch_line page.now.encounter page.now.journal own other start }
{
    let state = page.state();
    state.legal_law();
    let sender = address_of(state.enc(), other);
    stretch_text(state, sender, &stretch_of(page, own, other, start))
}

fn quiet_stretches() -> Line
    ensures { result ≡ codes "    " ++ quiet }
{
    fixed_line("    no traffic, no advice\n")
}

// Puts the lines of the first sixteen.
fn put_first<S: LineSink>(page: &Page<'_>, own: u8, other: u8, sink: &mut S)
    requires own { own < length page.now.encounter.crafts }
    requires other { other < length page.now.encounter.crafts }
    ensures { S.took sink.old sink.new (map (stretch_line page.now.encounter page.now.journal own other) (take 16 (starts_of (air_of page.now.encounter) page.now.journal own other))) }
{
    page.state().legal_law();
    for place in 0..STRETCHES {
        if let Some(start) = page.start(own, other, place) {
            sink.line(&stretch_line(page, own, other, start));
        }
    }
}

/// Puts the line that says how many rows aren't told, where there are more than so many.
pub(crate) fn put_more<S: LineSink>(most: u16, count: u16, sink: &mut S)
    ensures { S.took sink.old sink.new (more_lines most count) }
{
    if count > most {
        sink.line(&more_line(u32::from(count - most)));
    }
}

// Puts the lines of all stretches.
fn put_stretches<S: LineSink>(page: &Page<'_>, own: u8, other: u8, sink: &mut S)
    requires own { own < length page.now.encounter.crafts }
    requires other { other < length page.now.encounter.crafts }
    ensures { S.took sink.old sink.new (stretch_lines page.now.encounter page.now.journal own other (starts_of (air_of page.now.encounter) page.now.journal own other)) }
{
    page.state().legal_law();
    let count = page.count(own, other);
    if count == 0 {
        sink.line(&quiet_stretches());
        return;
    }
    put_first(page, own, other, sink);
    put_more(STRETCHES as u16, count, sink);
}

// ---- an aircraft

// Its address, its kind, and its rank where it has one.
fn craft_line(address: Address, kind: Kind, rank: &str) -> Line
    requires { length rank.now ≤ 7 }
    ensures { result ≡ craft_line address (kind_text kind ++ rank.now) }
{
    let mut line = Line::new();
    line.text("  ");
    line.address(address.value());
    line.text(" ");
    line.text(kind_text(kind));
    line.text(rank);
    line.text("\n");
    line
}

// What is told of the rank of an aircraft: nothing where it isn't of kind RA.
fn rank_part(encounter: &Encounter, own: u8, other: u8, kind: Kind) -> &'static str
    requires own { own < length encounter.now.crafts }
    requires other { other < length encounter.now.crafts }
    requires apart { own ≢ other }
    ensures text { result.now ≡ rank_part encounter.now own other kind }
    ensures short { length result.now ≤ 7 }
{
    match kind {
        Kind::Ra => rank_text(rank(encounter, own, other)),
        Kind::Ta | Kind::Xpdr => "",
    }
}

// The kind of an aircraft.
fn kind_at(encounter: &Encounter, own: u8) -> Kind
    requires { own < length encounter.now.crafts }
    ensures { kind_of encounter.now own ≡ Some result }
{
    encounter.crafts()[usize::from(own)].kind
}

/// Puts the lines of an aircraft against another one.
pub(crate) fn put_craft<S: LineSink>(page: &Page<'_>, own: u8, other: u8, sink: &mut S)
    requires own { own < length page.now.encounter.crafts }
    requires other { other < length page.now.encounter.crafts }
    requires apart { own ≢ other }
    ensures { S.took sink.old sink.new (craft_lines page.now.encounter page.now.journal own other) }
{
    let encounter = page.state().enc();
    let kind = kind_at(encounter, own);
    let part = rank_part(encounter, own, other, kind);
    sink.line(&craft_line(address_of(encounter, own), kind, part));
    if kind.is_active() {
        put_stretches(page, own, other, sink);
    }
}
