// Journals in other orders than the serial one. Expected values: by hand from docs/RULES.md.
use super::{between, climbing, lapsing, meeting, sense_in};
use crate::steps::{commit, empty_journal, send, take};
use acas_base::{Encounter, Sense};
use air_journal::{AirState, Commit, Sent, Took, TookThis, Waiting};
use craft_view::is_active;
use resume::fill;
use std::alloc::Global;
use std::test::Fail;

// In which order the entries come.
#[derive(Clone, Copy)]
enum Schedule {
    /// By rounds, as in the serial order. But of the due copies the last one is taken first.
    LastFirst,
    /// This aircraft does all that it may. The others go on where it has to wait.
    Ahead(u8),
    /// This aircraft sends where nothing else is left to do.
    Late(u8),
}

// ---- single entries

fn commits(state: &mut AirState, own: u8) -> bool {
    matches!(commit(state, own), Some(Commit::Done(_)))
}

fn sends(state: &mut AirState, own: u8) -> bool {
    matches!(send(state, own), Some(Sent::Done(_)))
}

fn takes(state: &mut AirState, own: u8) -> bool {
    matches!(take(state, own), Some(Took::Done(_, _)))
}

// The one that was sent later, of the due copies of a queue and another one.
fn later_due(best: Option<Waiting>, queue: &[Waiting], made: u16) -> Option<Waiting> {
    let mut last = best;
    for waiting in queue {
        let is_later = match last {
            Some(other) => other.send <= waiting.send,
            None => true,
        };
        if is_later && waiting.due <= made {
            last = Some(*waiting);
        }
    }
    last
}

// The last copy that is due to an aircraft, by the position of its send and by its number.
fn last_due(state: &AirState, own: u8) -> Option<Waiting> {
    let count = state.enc().crafts().len() as u8;
    if own >= count {
        return None;
    }
    let mut last = None;
    for sender in 0..count {
        last = later_due(last, state.waiting(sender, own), state.commits(own));
    }
    last
}

fn takes_last(state: &mut AirState, own: u8) -> bool {
    if !is_active(state.enc(), own) {
        return false;
    }
    match last_due(state, own) {
        Some(last) => matches!(
            state.take_this(own, last.send, last.copy),
            TookThis::Done(_, _)
        ),
        None => false,
    }
}

// ---- the next entry

#[derive(Clone, Copy)]
enum Act {
    Takes,
    Commits,
    Sends,
}

fn acts(state: &mut AirState, own: u8, act: Act) -> bool {
    match act {
        Act::Takes => takes(state, own),
        Act::Commits => commits(state, own),
        Act::Sends => sends(state, own),
    }
}

// The first aircraft that may do this does it.
fn some_acts(state: &mut AirState, act: Act) -> bool {
    for own in 0..state.enc().crafts().len() as u8 {
        if acts(state, own, act) {
            return true;
        }
    }
    false
}

// The same with sends. One aircraft comes last.
fn some_sends(state: &mut AirState, late: u8) -> bool {
    for own in 0..state.enc().crafts().len() as u8 {
        if own != late && sends(state, own) {
            return true;
        }
    }
    sends(state, late)
}

// The last aircraft with a due copy takes the last one of these.
fn some_takes_last(state: &mut AirState) -> bool {
    let count = state.enc().crafts().len() as u8;
    for passed in 0..count {
        if takes_last(state, count - passed - 1) {
            return true;
        }
    }
    false
}

// Whether all aircraft have as many commits as the first one. (All are active here.)
fn is_even(state: &AirState) -> bool {
    for own in 0..state.enc().crafts().len() as u8 {
        if state.commits(own) != state.commits(0) {
            return false;
        }
    }
    true
}

fn goes_round(state: &mut AirState) -> bool {
    if !is_even(state) && some_acts(state, Act::Commits) {
        return true;
    }
    some_acts(state, Act::Sends) || some_takes_last(state) || some_acts(state, Act::Commits)
}

fn goes_ahead(state: &mut AirState, own: u8) -> bool {
    for act in [Act::Takes, Act::Commits, Act::Sends] {
        if acts(state, own, act) {
            return true;
        }
    }
    some_acts(state, Act::Takes) || some_acts(state, Act::Commits) || some_acts(state, Act::Sends)
}

// Adds the next entry, where there is one.
fn goes_on(state: &mut AirState, schedule: Schedule) -> bool {
    match schedule {
        Schedule::LastFirst => goes_round(state),
        Schedule::Ahead(own) => goes_ahead(state, own),
        Schedule::Late(own) => {
            some_acts(state, Act::Takes) || some_acts(state, Act::Commits) || some_sends(state, own)
        }
    }
}

// The journal of a schedule, to its end or to `most` entries.
fn played(alloc: Global, enc: &Encounter, schedule: Schedule, most: u32) -> Result<AirState, Fail> {
    let mut state = empty_journal(alloc, enc)?;
    for _entry in 0..most {
        if !goes_on(&mut state, schedule) {
            return Ok(state);
        }
    }
    Ok(state)
}

// ---- whole journals

const SCHEDULES: &[Schedule] = &[
    Schedule::LastFirst,
    Schedule::Ahead(0),
    Schedule::Ahead(1),
    Schedule::Late(0),
    Schedule::Late(1),
];

fn begins(part: &AirState, whole: &AirState, count: u32) -> bool {
    for at in 0..count {
        if part.entry(at) != whole.entry(at) {
            return false;
        }
    }
    true
}

// The journal of a schedule that breaks off after some entries, completed.
fn completed(
    alloc: Global,
    enc: &Encounter,
    schedule: Schedule,
    begun: u32,
) -> Result<AirState, Fail> {
    let mut state = played(alloc, enc, schedule, begun)?;
    let same = state.enc().copy(alloc)?;
    fill(&mut state, &same);
    Ok(state)
}

// Whether a journal is as long as another one, complete, and begins as that does.
fn is_like(state: &AirState, whole: &AirState, begun: u32) -> bool {
    state.count() == whole.count() && state.complete() && begins(state, whole, begun)
}

// Whether that journal is completed, and keeps what it had.
fn is_completed(
    alloc: Global,
    whole: &AirState,
    schedule: Schedule,
    begun: u32,
) -> Result<bool, Fail> {
    let state = completed(alloc, whole.enc(), schedule, begun)?;
    Ok(is_like(&state, whole, begun))
}

// How many entries are left where a journal breaks off.
const LEFT: &[u32] = &[25, 15, 5];

// Whether a schedule's journal is completed from three places of its middle.
fn is_completed_from_each(
    alloc: Global,
    whole: &AirState,
    schedule: Schedule,
) -> Result<bool, Fail> {
    for place in 0..LEFT.len() {
        let begun = whole.count().saturating_sub(LEFT[place]);
        if !is_completed(alloc, whole, schedule, begun)? {
            return Ok(false);
        }
    }
    Ok(true)
}

// Whether a schedule's journal has this many entries, and is completed from three places of its middle.
fn is_whole(
    alloc: Global,
    whole: &AirState,
    schedule: Schedule,
    entries: u32,
) -> Result<bool, Fail> {
    if whole.count() != entries || !whole.complete() {
        return Ok(false);
    }
    is_completed_from_each(alloc, whole, schedule)
}

fn ends(alloc: Global, enc: &Encounter, schedule: Schedule, entries: u32) -> Result<bool, Fail> {
    let whole = played(alloc, enc, schedule, 1000)?;
    is_whole(alloc, &whole, schedule, entries)
}

// The place of the first schedule whose journal isn't whole.
fn first_wrong(alloc: Global, enc: &Encounter, entries: u32) -> Result<Option<usize>, Fail> {
    for place in 0..SCHEDULES.len() {
        if !ends(alloc, enc, SCHEDULES[place], entries)? {
            return Ok(Some(place));
        }
    }
    Ok(None)
}

// The encounters that are played in each order, and how many entries they have.
#[derive(Clone, Copy)]
enum Flown {
    Meeting,
    Climbing,
    Between,
    Lapsing,
}

const ENTRIES: &[(Flown, u32)] = &[
    (Flown::Meeting, 86),
    (Flown::Climbing, 86),
    (Flown::Between, 91),
    (Flown::Lapsing, 71),
];

fn encounter_of(alloc: Global, which: Flown) -> Result<Encounter, Fail> {
    match which {
        Flown::Meeting => meeting(alloc),
        Flown::Climbing => climbing(alloc),
        Flown::Between => between(alloc),
        Flown::Lapsing => lapsing(alloc),
    }
}

fn first_wrong_in(alloc: Global, which: Flown, entries: u32) -> Result<Option<usize>, Fail> {
    let enc = encounter_of(alloc, which)?;
    first_wrong(alloc, &enc, entries)
}

// The first encounter with a schedule whose journal isn't whole, and the place of that schedule.
fn first_wrong_of(alloc: Global, all: &[(Flown, u32)]) -> Result<Option<(usize, usize)>, Fail> {
    for place in 0..all.len() {
        let (which, entries) = all[place];
        if let Some(schedule) = first_wrong_in(alloc, which, entries)? {
            return Ok(Some((place, schedule)));
        }
    }
    Ok(None)
}

// No message decides when an advisory comes and goes. One message is sent after each commit with an advisory, and one
// after the first commit without it. So in any order there are equally many sends. There are equally many takes, too,
// since here all copies come due.
#[test]
fn ends_in_each_order(rt: HostRuntime) -> Result<(), Fail> {
    assert_eq!(rt; first_wrong_of(rt.alloc(), ENTRIES)?, None);
    Ok(())
}

type Line = (Schedule, u16, Sense, Sense);

// A schedule, a cycle, and the senses of both aircraft in it. Both advisories start in cycle 26, and go up where no
// message was taken. An aircraft that has taken a message starts in the other sense. The aircraft of higher address
// turns as soon as it has taken one.
const SENSES: &[Line] = &[
    (Schedule::LastFirst, 26, Sense::Up, Sense::Up),
    (Schedule::LastFirst, 27, Sense::Up, Sense::Down),
    (Schedule::Ahead(0), 26, Sense::Up, Sense::Down),
    (Schedule::Ahead(1), 26, Sense::Down, Sense::Up),
    (Schedule::Late(0), 27, Sense::Up, Sense::Up),
    (Schedule::Late(0), 28, Sense::Up, Sense::Down),
    (Schedule::Late(1), 26, Sense::Up, Sense::Up),
    (Schedule::Late(1), 27, Sense::Up, Sense::Down),
];

// Whether the senses of both are these in a cycle.
fn has_senses(state: &AirState, cycle: u16, low: Sense, high: Sense) -> bool {
    sense_in(state, 0, 1, cycle) == Some(low) && sense_in(state, 1, 0, cycle) == Some(high)
}

// The same of the journal of a schedule.
fn is_so(alloc: Global, enc: &Encounter, line: Line) -> Result<bool, Fail> {
    let (schedule, cycle, low, high) = line;
    let state = played(alloc, enc, schedule, 1000)?;
    Ok(has_senses(&state, cycle, low, high))
}

// The place of the first line that doesn't hold.
fn first_otherwise(alloc: Global, enc: &Encounter, lines: &[Line]) -> Result<Option<usize>, Fail> {
    for place in 0..lines.len() {
        if !is_so(alloc, enc, lines[place])? {
            return Ok(Some(place));
        }
    }
    Ok(None)
}

fn first_otherwise_of_meeting(alloc: Global, lines: &[Line]) -> Result<Option<usize>, Fail> {
    let enc = meeting(alloc)?;
    first_otherwise(alloc, &enc, lines)
}

#[test]
fn decides_by_the_order(rt: HostRuntime) -> Result<(), Fail> {
    assert_eq!(rt; first_otherwise_of_meeting(rt.alloc(), SENSES)?, None);
    Ok(())
}
