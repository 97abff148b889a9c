// The lines of the report.
ghost use Rattle.std.specs.Prelude.{◌≡◌, ◌-◌, ◌<◌, ◌≤◌, ℕ, length, option_copied, option_to_list, slice_index_or};
ghost use Rattle.acas_base.specs.declared.TheConstants.{CRAFTS};
ghost use Rattle.advisory_report.specs.Composite.{clear, shown};
ghost use Rattle.advisory_report.specs.Report.{report_line};
ghost use Rattle.air_journal.specs.Cells.{commit_cells};
ghost use Rattle.rec_text.specs.Report.{AreShown, commit_report, report_in, report_lines};

use acas_base::{Address, CRAFTS, Cells};
use acas_lines::{LineSink, Text, count_lines};
use advisory_report::{Composite, composite_of, is_quiet, line};
use air_journal::AirState;

// Puts the line of a commit, where the report has one. A function clears its memory for a line at its start: so it is
// only called for a commit that may have one.
fn put_line<S: LineSink>(
    cycle: u16,
    address: Address,
    before: &Composite,
    after: &Composite,
    sink: &mut S,
)
    ensures { S.took sink.old sink.new (option_to_list (report_line cycle address before.now after.now)) }
{
    if let Some(line) = line(cycle, address, before, after) {
        sink.line(&line);
    }
}

// Does the same sooner, since most commits have no line.
fn put_change<S: LineSink>(
    cycle: u16,
    address: Address,
    before: &Composite,
    after: &Composite,
    sink: &mut S,
)
    ensures { S.took sink.old sink.new (option_to_list (report_line cycle address before.now after.now)) }
{
    if is_quiet(before, after) {
        return;
    }
    put_line(cycle, address, before, after, sink);
}

// Puts the line of a commit, where the report has one, and gives what the aircraft shows after it.
fn put_commit<S: LineSink>(
    cycle: u16,
    address: Address,
    before: &Composite,
    cells: Option<&Cells>,
    sink: &mut S,
) -> Composite
    ensures lines { S.took sink.old sink.new (commit_report cycle address before.now (option_copied cells.entry)) }
    ensures shown { result ≡ shown (option_copied cells.entry) }
{
    let Some(cells) = cells else {
        return Composite::clear();
    };
    let after = composite_of(cells);
    put_change(cycle, address, before, &after, sink);
    after
}

// Puts the lines of a cycle. `composites` has what the aircraft showed before the cycle, and is changed to what they
// show after it.
fn put_cycle<S: LineSink>(
    state: &AirState,
    cycle: u16,
    composites: &mut [Composite; CRAFTS],
    sink: &mut S,
)
    requires first { 1 ≤ cycle }
    requires before { AreShown state.now.journal (cycle - 1) (length state.now.encounter.crafts) composites.old }
    ensures lines { S.took sink.old sink.new (report_in state.now.encounter state.now.journal cycle) }
    ensures after { AreShown state.now.journal cycle (length state.now.encounter.crafts) composites.new }
{
    let crafts = state.enc().crafts();
    for own in 0..crafts.len() {
        let cells = state.cells(own as u8, cycle);
        let address = crafts[own].address;
        composites[own] = put_commit(cycle, address, &composites[own], cells, sink);
    }
}

/// Puts the lines of the report.
pub(crate) fn put_report<S: LineSink>(state: &AirState, sink: &mut S)
    ensures { S.took sink.old sink.new (report_lines state.now.encounter state.now.journal) }
{
    state.legal_law();
    let mut composites = [Composite::clear(); CRAFTS];
    for cycle in 0..state.enc().cycles() {
        put_cycle(state, cycle + 1, &mut composites, sink);
    }
}

// The report as a text of its own.
#[derive(Drop)]
struct Report<'a>(&'a AirState);

impl Text for Report<'_> {
    ghost use Rattle.rec_text.specs.Report.{report_lines};

    ghost lines = { λ r. report_lines r.0.now.encounter r.0.now.journal };

    fn put<S: LineSink>(&self, sink: &mut S) {
        put_report(self.0, sink);
    }
}

/// How many lines the report of a state has.
pub fn report_count(state: &AirState) -> u32
    ensures { result ≡ length (report_lines state.now.encounter state.now.journal) }
{
    state.legal_law();
    count_lines(&Report(state))
}
