// The lines of the reports that only one side has.
ghost use Rattle.std.specs.Prelude.{◌≡◌, ◌<◌, ◌≤◌, ◌↔◌, [], IsTrue, length, option_to_list};
ghost use Rattle.comparison.specs.Reports.{AreSameReports, apart, apart_in, apart_in_cycle, is_same, line_in};
ghost use Rattle.comparison.specs.Sides.{told};

use crate::sides::{Side, put_told};
use acas_lines::{LineSink, Text, count_lines};
use acas_text::Line;
use advisory_report::{composite_of, line, shown};
use air_journal::AirState;

// The line of the report for an aircraft's commit of a cycle, where it has one.
fn line_in(state: &AirState, cycle: u16, own: u8) -> Option<Line>
    requires { 1 ≤ cycle }
    ensures { option_to_list result ≡ line_in state.now cycle own }
{
    let before = shown(state.cells(own, cycle - 1));
    let Some(cells) = state.cells(own, cycle) else {
        return None;
    };
    state.legal_law();
    match state.enc().crafts().get(usize::from(own)) {
        Some(craft) => line(cycle, craft.address, &before, &composite_of(cells)),
        None => None,
    }
}

fn is_same(one: &Option<Line>, other: &Option<Line>) -> bool
    ensures { result ≡ is_same (option_to_list one.now) (option_to_list other.now) }
{
    match one {
        Some(one) => match other {
            Some(other) => one.bytes() == other.bytes(),
            None => false,
        },
        None => other.is_none(),
    }
}

// Puts a line that a side has, where it has one.
fn put_any<S: LineSink>(side: Side, line: &Option<Line>, sink: &mut S)
    ensures { S.took sink.old sink.new (told side (option_to_list line.now)) }
{
    if let Some(line) = line {
        put_told(side, line, sink);
    }
}

// Puts what each side alone has.
fn put_apart<S: LineSink>(one: &Option<Line>, other: &Option<Line>, sink: &mut S)
    ensures { S.took sink.old sink.new (apart (option_to_list one.now) (option_to_list other.now)) }
{
    if is_same(one, other) {
        return;
    }
    put_any(Side::One, one, sink);
    put_any(Side::Other, other, sink);
}

// Puts what each side alone has for a cycle.
fn put_cycle<S: LineSink>(one: &AirState, other: &AirState, cycle: u16, sink: &mut S)
    requires { 1 ≤ cycle }
    ensures { S.took sink.old sink.new (apart_in_cycle one.now other.now cycle) }
{
    for own in 0..one.enc().crafts().len() as u8 {
        put_apart(&line_in(one, cycle, own), &line_in(other, cycle, own), sink);
    }
}

/// What each side alone has of the reports, by cycle and then by index.
#[derive(Drop)]
pub(crate) struct Apart<'a> {
    pub one: &'a AirState,
    pub other: &'a AirState,
}

impl Text for Apart<'_> {
    ghost use Rattle.comparison.specs.Reports.{apart_lines};

    ghost lines = { λ a. apart_lines a.one.now a.other.now };

    fn put<S: LineSink>(&self, sink: &mut S) {
        for before in 0..self.one.enc().cycles() {
            put_cycle(self.one, self.other, before + 1, sink);
        }
    }
}

/// Whether both reports have the same line or none after each commit.
pub(crate) fn are_same_reports(one: &AirState, other: &AirState) -> bool
    ensures { IsTrue result ↔ AreSameReports one.now other.now }
{
    one.legal_law();
    count_lines(&Apart { one, other }) == 0
}
