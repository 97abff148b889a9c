// The lines of what the crews heard, each for a call or for equal ones.
ghost use Rattle.std.specs.Prelude.{◌≡◌, ◌<◌, ◌≤◌, IfSome, length};
ghost use Rattle.picture.specs.Gathered.{count_equal, has_equal, is_equal, is_same_phrase, line_for, line_in, own_line, shared_line};

use crate::call::Call;
use crate::calls::call_in;
use crate::shown::is_same_word;
use advisory_report::{Aural, phrase};
use air_journal::AirState;

// The most aircraft of which each call has a line of its own.
const MOST_ALONE: usize = 4;

/// A line: the call of which it tells, and for how many equal ones of its cycle it stands, with this one.
#[derive(Clone, Copy)]
pub(crate) struct CallLine {
    pub call: Call,
    pub calls: u32,
}

fn is_same_phrase(one: Aural, other: Aural) -> bool
    ensures { result ≡ is_same_phrase one other }
{
    phrase(one) == phrase(other)
}

// Whether two calls have one phrase, and one word of the report.
#[tactic(auto, unfolding(crate::specs::Gathered::is_equal))]
fn is_equal(one: &Call, other: &Call) -> bool
    ensures { result ≡ is_equal one.now other.now }
{
    is_same_phrase(one.heard, other.heard) && is_same_word(&one.shown, &other.shown)
}

// Whether an aircraft has an equal call in the same cycle.
fn has_equal(state: &AirState, call: &Call, own: u8) -> bool
    requires { 1 ≤ call.now.cycle }
    ensures { result ≡ has_equal state.now.journal call.now own }
{
    match call_in(state, call.cycle, own) {
        None => false,
        Some(other) => is_equal(call, &other),
    }
}

// How many of the first aircraft have one.
fn count_equal(state: &AirState, call: &Call, count: usize) -> u32
    requires cycle { 1 ≤ call.now.cycle }
    requires few { count ≤ 16 }
    ensures value { result ≡ count_equal state.now.journal call.now count }
    ensures most { result ≤ 16 }
{
    let mut equal = 0;
    for own in 0..count {
        if has_equal(state, call, own as u8) {
            equal += 1;
        }
    }
    equal
}

// The line for all equal calls of a cycle, where this is the first one.
fn shared_line(state: &AirState, call: &Call) -> Option<CallLine>
    requires cycle { 1 ≤ call.now.cycle }
    requires own { call.now.own < length state.now.encounter.crafts }
    ensures value { result ≡ shared_line state.now.journal (length state.now.encounter.crafts) call.now }
    ensures call { IfSome result (λ line. line.call ≡ call.now) }
    ensures few { IfSome result (λ line. line.calls ≤ 16) }
{
    state.legal_law();
    if count_equal(state, call, usize::from(call.own)) > 0 {
        return None;
    }
    Some(CallLine {
        call: *call,
        calls: count_equal(state, call, state.enc().crafts().len()),
    })
}

fn own_line(call: &Call) -> CallLine
    ensures { result ≡ own_line call.now }
{
    CallLine {
        call: *call,
        calls: 1,
    }
}

// The line of a call, if it has one.
#[tactic(auto, unfolding(crate::specs::Gathered::line_for))]
fn line_for(state: &AirState, call: &Call) -> Option<CallLine>
    requires cycle { 1 ≤ call.now.cycle }
    requires own { call.now.own < length state.now.encounter.crafts }
    ensures value { result ≡ line_for state.now.journal (length state.now.encounter.crafts) call.now }
    ensures call { IfSome result (λ line. line.call ≡ call.now) }
    ensures few { IfSome result (λ line. line.calls ≤ 16) }
{
    if state.enc().crafts().len() <= MOST_ALONE {
        return Some(own_line(call));
    }
    shared_line(state, call)
}

/// The line of an aircraft's call of a cycle, if it has one. With more than 4 aircraft the first one of equal calls has
/// the line for all of them.
pub(crate) fn line_in(state: &AirState, cycle: u16, own: u8) -> Option<CallLine>
    requires cycle { 1 ≤ cycle }
    requires own { own < length state.now.encounter.crafts }
    ensures value { result ≡ line_in state.now.journal (length state.now.encounter.crafts) cycle own }
    ensures own { IfSome result (λ line. line.call.own ≡ own) }
    ensures cycle { IfSome result (λ line. line.call.cycle ≡ cycle) }
    ensures few { IfSome result (λ line. line.calls ≤ 16) }
{
    let call = call_in(state, cycle, own)?;
    line_for(state, &call)
}
