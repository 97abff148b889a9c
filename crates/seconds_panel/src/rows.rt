// The rows of cycles in which a line tells something.
ghost use Rattle.std.specs.Prelude.{◌≡◌, ◌-◌, ◌<◌, ◌≤◌};
ghost use Rattle.equal_rows.specs.Rows.{begins, last_from};
ghost use Rattle.seconds_panel.specs.Seconds.{goes_on, is_told};

use crate::seconds::Seconds;
use crate::series::Series;

fn is_told(seconds: &Seconds<'_>, series: Series, cycle: u16) -> bool
    requires first { 1 ≤ cycle }
    requires last { cycle ≤ seconds.now.encounter.cycles }
    ensures { result ≡ is_told seconds.now.encounter seconds.now.pair series cycle }
{
    seconds.value(series, cycle).is_some()
}

// Whether the line goes on from a cycle to the next one.
fn goes_on(seconds: &Seconds<'_>, series: Series, cycle: u16) -> bool
    requires first { 1 ≤ cycle }
    requires last { cycle < seconds.now.encounter.cycles }
    ensures { result ≡ goes_on seconds.now.encounter seconds.now.pair series cycle }
{
    seconds.run_law();
    is_told(seconds, series, cycle) && is_told(seconds, series, cycle + 1)
}

// Whether it comes from the cycle before. Before the first cycle there is nothing.
fn comes_on(seconds: &Seconds<'_>, series: Series, cycle: u16) -> bool
    requires first { 1 ≤ cycle }
    requires last { cycle ≤ seconds.now.encounter.cycles }
    ensures { result ≡ goes_on seconds.now.encounter seconds.now.pair series (cycle - 1) }
{
    if cycle == 1 {
        return false;
    }
    goes_on(seconds, series, cycle - 1)
}

/// Whether a row begins with a cycle.
pub(crate) fn begins(seconds: &Seconds<'_>, series: Series, cycle: u16) -> bool
    requires first { 1 ≤ cycle }
    requires last { cycle ≤ seconds.now.encounter.cycles }
    ensures { result ≡ begins (is_told seconds.now.encounter seconds.now.pair series) (goes_on seconds.now.encounter seconds.now.pair series) cycle }
{
    is_told(seconds, series, cycle) && !comes_on(seconds, series, cycle)
}

/// The last cycle of the row that begins with a cycle.
pub(crate) fn last_from(seconds: &Seconds<'_>, series: Series, first: u16) -> u16
    requires begun { 1 ≤ first }
    requires first { first ≤ seconds.now.encounter.cycles }
    ensures value { result ≡ last_from (goes_on seconds.now.encounter seconds.now.pair series) seconds.now.encounter.cycles first }
    ensures least { first ≤ result }
    ensures most { result ≤ seconds.now.encounter.cycles }
{
    for cycle in first..seconds.cycles() {
        if !goes_on(seconds, series, cycle) {
            return cycle;
        }
    }
    seconds.cycles()
}
