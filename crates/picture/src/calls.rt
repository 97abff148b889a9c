// The calls of a journal.
ghost use Rattle.std.specs.Prelude.{◌≡◌, ◌≤◌, IfSome, option_copied};
ghost use Rattle.advisory_report.specs.Phrases.{aural_of};
ghost use Rattle.advisory_report.specs.Report.{is_silent};
ghost use Rattle.picture.specs.Calls.{call_from, call_in, call_where};
ghost use Rattle.picture.specs.Shown.{shown_in};

use crate::call::Call;
use crate::shown::shown_in;
use acas_base::Cells;
use advisory_report::{Aural, Composite, aural_of, composite_of};
use air_journal::AirState;

fn is_silent(aural: Aural) -> bool
    ensures { result ≡ is_silent aural }
{
    matches!(aural, Aural::Silent)
}

// The call, where something is said.
fn call_where(call: Call) -> Option<Call>
    ensures value { result ≡ call_where call }
    ensures own { IfSome result (λ made. made.own ≡ call.own) }
    ensures cycle { IfSome result (λ made. made.cycle ≡ call.cycle) }
{
    if is_silent(call.heard) {
        return None;
    }
    Some(call)
}

// The call of a commit with these cells, if it has one.
fn call_from(cycle: u16, own: u8, before: &Composite, cells: Option<&Cells>) -> Option<Call>
    ensures value { result ≡ call_from cycle own before.now (option_copied cells.entry) }
    ensures own { IfSome result (λ call. call.own ≡ own) }
    ensures cycle { IfSome result (λ call. call.cycle ≡ cycle) }
{
    let Some(cells) = cells else {
        return None;
    };
    let shown = composite_of(cells);
    call_where(Call {
        cycle,
        own,
        shown,
        heard: aural_of(before, &shown),
    })
}

/// The call of an aircraft's commit of a cycle, if it has one.
#[tactic(auto, unfolding(crate::specs::Calls::call_in))]
pub(crate) fn call_in(state: &AirState, cycle: u16, own: u8) -> Option<Call>
    requires { 1 ≤ cycle }
    ensures value { result ≡ call_in state.now.journal cycle own }
    ensures own { IfSome result (λ call. call.own ≡ own) }
    ensures cycle { IfSome result (λ call. call.cycle ≡ cycle) }
{
    call_from(
        cycle,
        own,
        &shown_in(state, own, cycle - 1),
        state.cells(own, cycle),
    )
}
