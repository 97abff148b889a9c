// Expected values: a slow reader of the same journal gives them. It is written from docs/RULES.md, and looks for each
// thing among all entries.
use super::{goes_on, meeting};
use acas_base::{CRAFTS, Cell, CopyPlan, Entry, Fate, Vrc};
use air_journal::{AirState, Commit, Waiting};
use craft_view::is_active;
use res_message::{decode, flip};
use std::alloc::Global;
use std::test::Fail;
use test_encounters::{PLAIN, fate, leg};

// The entries that are looked for.
#[derive(Clone, Copy)]
enum Search {
    CommitsOf(u8),
    SendsFrom(u8, u8),
    TakesOf(u8, u32, u8),
}

fn is_found(entry: &Entry, search: Search) -> bool {
    match search {
        Search::CommitsOf(craft) => matches!(entry, Entry::Commit { own, .. } if *own == craft),
        Search::SendsFrom(sender, receiver) => {
            matches!(entry, Entry::Send { own, target, .. } if *own == sender && *target == receiver)
        }
        Search::TakesOf(craft, at, which) => {
            matches!(entry, Entry::Take { own, send, copy, .. } if *own == craft && *send == at && *copy == which)
        }
    }
}

// How many such entries stand from one position on, before another one.
fn count_in(state: &AirState, from: u32, end: u32, search: Search) -> u16 {
    let mut count = 0u16;
    for at in from..end {
        if let Some(entry) = state.entry(at) {
            if is_found(&entry, search) {
                count = count.saturating_add(1);
            }
        }
    }
    count
}

// The position of the last such entry.
fn last_at(state: &AirState, search: Search) -> Option<u32> {
    let mut last = None;
    for at in 0..state.count() {
        if let Some(entry) = state.entry(at) {
            if is_found(&entry, search) {
                last = Some(at);
            }
        }
    }
    last
}

fn last(state: &AirState, search: Search) -> Option<Entry> {
    state.entry(last_at(state, search)?)
}

// ---- commits

fn commits(state: &AirState, own: u8) -> u16 {
    count_in(state, 0, state.count(), Search::CommitsOf(own))
}

// The cells of the last commit.
fn last_cells(state: &AirState, own: u8) -> [Cell; CRAFTS] {
    match last(state, Search::CommitsOf(own)) {
        Some(Entry::Commit { cells, .. }) => cells.list,
        _ => [Cell::Clear; CRAFTS],
    }
}

// ---- messages

// The complement that a word sets, with the bits of a mask flipped; none where it is then no message.
fn read(word: u64, mask: u8) -> Option<Vrc> {
    Some(decode(flip(word, mask))?.vrc)
}

// The complement of the last message to another aircraft.
fn said(state: &AirState, own: u8, other: u8) -> Vrc {
    match last(state, Search::SendsFrom(own, other)) {
        Some(Entry::Send { word, .. }) => read(word, 0).unwrap_or(Vrc::Nil),
        _ => Vrc::Nil,
    }
}

fn has_sent(state: &AirState, own: u8, other: u8) -> bool {
    let from = last_at(state, Search::CommitsOf(own)).unwrap_or(0);
    count_in(state, from, state.count(), Search::SendsFrom(own, other)) > 0
}

// The plan of a copy, where its message has that copy.
fn plan_of(fate: &Fate, copy: u8) -> Option<CopyPlan> {
    if copy >= fate.copies {
        return None;
    }
    match copy {
        0 => Some(fate.first),
        1 => Some(fate.second),
        _ => Some(fate.third),
    }
}

// ---- copies

// A copy of one aircraft's message to another one, sent at this position, whether it is taken or not.
fn copy_at(state: &AirState, sender: u8, receiver: u8, at: u32, copy: u8) -> Option<Waiting> {
    let entry = state.entry(at)?;
    let Entry::Send { number, word, .. } = entry else {
        return None;
    };
    if !is_found(&entry, Search::SendsFrom(sender, receiver)) {
        return None;
    }
    let plan = plan_of(&state.enc().fate(sender, receiver, number), copy)?;
    let made = count_in(state, 0, at, Search::CommitsOf(receiver));
    Some(Waiting {
        send: at,
        copy,
        due: made.saturating_add(u16::from(plan.hold)),
        reads: read(word, plan.mask),
    })
}

fn waits(state: &AirState, sender: u8, receiver: u8, at: u32, copy: u8) -> Option<Waiting> {
    let takes = Search::TakesOf(receiver, at, copy);
    if count_in(state, 0, state.count(), takes) > 0 {
        return None;
    }
    copy_at(state, sender, receiver, at, copy)
}

// Whether the copies that the state gives are those that wait, in order of position and copy.
fn is_queue(state: &AirState, sender: u8, receiver: u8) -> bool {
    let count = state.enc().crafts().len();
    if usize::from(sender) >= count || usize::from(receiver) >= count {
        return false;
    }
    let mut rest = state.waiting(sender, receiver);
    for at in 0..state.count() {
        for copy in 0..3u8 {
            if let Some(waiting) = waits(state, sender, receiver, at, copy) {
                let Some((first, others)) = rest.split_first() else {
                    return false;
                };
                if *first != waiting {
                    return false;
                }
                rest = others;
            }
        }
    }
    rest.is_empty()
}

// The first copy that is due.
fn first_due(state: &AirState, sender: u8, receiver: u8) -> Option<Waiting> {
    for at in 0..state.count() {
        for copy in 0..3u8 {
            if let Some(waiting) = waits(state, sender, receiver, at, copy) {
                if waiting.due <= commits(state, receiver) {
                    return Some(waiting);
                }
            }
        }
    }
    None
}

// ---- complements

// The complement of the last good take of another aircraft's message, and how many commits stand before that take.
fn complement(state: &AirState, own: u8, other: u8) -> Option<(Vrc, u16)> {
    let mut last = None;
    for at in 0..state.count() {
        if let Some(
            Entry::Take {
                own: taker,
                send,
                copy,
                good,
            },
        ) = state.entry(at)
        {
            if taker == own && good {
                if let Some(taken) = copy_at(state, other, own, send, copy) {
                    last = Some((taken.reads?, count_in(state, 0, at, Search::CommitsOf(own))));
                }
            }
        }
    }
    last
}

// It binds while fewer than six commits stand behind the take.
fn in_force(state: &AirState, own: u8, other: u8) -> Vrc {
    match complement(state, own, other) {
        Some((vrc, made)) if commits(state, own).saturating_sub(made) < 6 => vrc,
        _ => Vrc::Nil,
    }
}

// ---- what hinders a commit

// A message is owed after a commit with an advisory, and after the first one without it.
fn owes(state: &AirState, own: u8, other: u8) -> bool {
    if has_sent(state, own, other) {
        return false;
    }
    match last_cells(state, own).get(usize::from(other)) {
        Some(Cell::Ra(_)) => true,
        _ => said(state, own, other) != Vrc::Nil,
    }
}

// What hinders the commit of one of two aircraft.
fn hindrance(state: &AirState, own: u8, other: u8) -> Option<Commit> {
    if commits(state, own) >= state.enc().cycles() {
        return Some(Commit::Over);
    }
    if owes(state, own, other) {
        return Some(Commit::Owed(other));
    }
    if let Some(due) = first_due(state, other, own) {
        return Some(Commit::Due(due.send, due.copy));
    }
    if commits(state, other) < commits(state, own) {
        return Some(Commit::Ahead(other, commits(state, other)));
    }
    None
}

// ---- the comparison

// Whether the state gives the same of an aircraft against another one.
fn is_told(state: &AirState, own: u8, other: u8) -> bool {
    if !is_active(state.enc(), own) {
        return false;
    }
    let cells = match state.cells(own, commits(state, own)) {
        Some(cells) => cells.list,
        None => [Cell::Clear; CRAFTS],
    };
    state.commits(own) == commits(state, own)
        && cells == last_cells(state, own)
        && state.hindrance(own) == hindrance(state, own, other)
        && is_queue(state, own, other)
}

// Whether the last entry is a commit of the second aircraft in the sense that this complement forbids.
fn is_forbidden(state: &AirState, bound: Vrc) -> bool {
    match state.entry(state.count().saturating_sub(1)) {
        Some(Entry::Commit { own: 1, cells, .. }) => match cells.list[0] {
            Cell::Ra(intent) => bound.forbids(intent.sense),
            Cell::Clear | Cell::Traffic => false,
        },
        _ => false,
    }
}

// Adds an entry. Gives whether the state and the reader then give the same of both aircraft, and the second aircraft
// committed in no sense that was forbidden to it.
fn agrees_after_one_more(state: &mut AirState) -> bool {
    let bound = in_force(state, 1, 0);
    goes_on(state) && is_told(state, 0, 1) && is_told(state, 1, 0) && !is_forbidden(state, bound)
}

// The first entry after which they disagree.
fn first_other(state: &mut AirState, entries: u32) -> Option<u32> {
    for entry in 0..entries {
        if !agrees_after_one_more(state) {
            return Some(entry);
        }
    }
    None
}

// Whether they agree after each of this many entries, and the journal has no more.
fn agrees_to_the_end(state: &mut AirState, entries: u32) -> bool {
    first_other(state, entries).is_none() && state.complete() && !goes_on(state)
}

// A message of the first aircraft is held so long that it is taken last, and a later one is lost.
fn agrees(alloc: Global, entries: u32) -> Result<bool, Fail> {
    let fates = [
        fate(2, 2, PLAIN, CopyPlan { hold: 3, mask: 0 }),
        fate(5, 0, PLAIN, PLAIN),
    ];
    let mut state = meeting(alloc, Some(1024), &[leg(1, 27, -760, 6000)], &fates)?;
    Ok(agrees_to_the_end(&mut state, entries))
}

#[test]
fn agrees_after_each_entry(rt: HostRuntime) -> Result<(), Fail> {
    assert!(rt; agrees(rt.alloc(), 86)?);
    Ok(())
}
