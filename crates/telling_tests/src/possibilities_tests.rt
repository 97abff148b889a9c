// Expected values: by hand from "What can happen" in docs/FORMATS.md, and from the order that is played by hand in
// examples/who-was-first.md, in which both advise the same way from cycle 26 to the end of the run. What a shown run
// has follows from the rules. Both advise to climb where neither was told of the other one's sense. The first one keeps
// its sense, and the second one turns once it is told.
ghost use Rattle.std.specs.Prelude.{◌≡◌, IfOk};

use crate::serial_runs::{LEVEL, Meeting, REVERSAL, met, sink};
use acas_base::Strength;
use acas_io::Sink;
use acas_lines::write_text;
use air_journal::AirState;
use instances::{Sought, find};
use pair_ways::Scope;
use possibilities::{Possibilities, Stop};
use report_words::Word;
use std::alloc::Global;
use std::test::Fail;

fn possible(alloc: Global, state: AirState, scope: Scope) -> Result<Possibilities, Fail>
    ensures { IfOk result (λ possible. possible.scope ≡ scope) }
{
    if !state.complete() {
        drop(state);
        return Err("not complete".into());
    }
    match Possibilities::of(alloc, state, scope) {
        Ok(possible) => Ok(possible),
        Err(Stop::TooMany(_)) => Err("too many states".into()),
        Err(Stop::OutOfMemory) => Err("out of memory".into()),
    }
}

// Whether the text ends so.
fn ends_so(alloc: Global, possible: &Possibilities, want: &[u8]) -> Result<bool, Fail> {
    let mut sink = sink(alloc, &[])?;
    write_text(possible, &mut sink)?;
    Ok(sink.bytes().ends_with(want))
}

// What is asked, what the run has that is shown, where one is shown, and how the text ends.
type Row = (&'static Meeting, Scope, Option<Sought>, &'static [u8]);

const CLIMB: Word = Word::Up(Strength::Positive);

const DESCEND: Word = Word::Down(Strength::Positive);

// The second one climbs in the last cycle.
const SECOND_CLIMBS: Sought = Sought::Word {
    own: 1,
    cycle: 31,
    word: CLIMB,
};

const ROWS: &[Row] = &[
    (
        &LEVEL,
        Scope::Losses,
        None,
        b"equal,2
e,400A01,400B02,26,26,s,1
e,400A01,400B02,27,31,?,6
",
    ),
    (
        &REVERSAL,
        Scope::Orders,
        None,
        b"equal,4
e,400A01,400B02,26,26,s,1
e,400A01,400B02,27,27,?,2
e,400A01,400B02,28,28,s,3
e,400A01,400B02,29,31,?,6
",
    ),
    (
        &LEVEL,
        Scope::Orders,
        Some(Sought::Equal {
            one: 0,
            other: 1,
            cycles: 2,
        }),
        b"orders,11
o,400A01,1,12,CLEAR,a
o,400A01,13,25,TRAFFIC,a
o,400A01,26,31,UP-CLIMB,s
o,400A01,26,31,DOWN-DESCEND,?
o,400B02,1,12,CLEAR,a
o,400B02,13,25,TRAFFIC,a
o,400B02,26,26,UP-CLIMB,s
o,400B02,26,26,DOWN-DESCEND,?
o,400B02,27,27,UP-CLIMB,o
o,400B02,27,31,DOWN-DESCEND,s
o,400B02,28,31,UP-CLIMB,?
equal,2
e,400A01,400B02,26,26,s,1
e,400A01,400B02,27,27,o,2
",
    ),
    (
        &LEVEL,
        Scope::Orders,
        Some(SECOND_CLIMBS),
        b"orders,10
o,400A01,1,12,CLEAR,a
o,400A01,13,25,TRAFFIC,a
o,400A01,26,31,UP-CLIMB,s
o,400A01,26,31,DOWN-DESCEND,o
o,400B02,1,12,CLEAR,a
o,400B02,13,25,TRAFFIC,a
o,400B02,26,26,UP-CLIMB,s
o,400B02,26,26,DOWN-DESCEND,?
o,400B02,27,31,UP-CLIMB,o
o,400B02,27,31,DOWN-DESCEND,s
equal,2
e,400A01,400B02,26,26,s,1
e,400A01,400B02,27,27,?,2
",
    ),
    (
        &LEVEL,
        Scope::Losses,
        Some(Sought::Equal {
            one: 0,
            other: 1,
            cycles: 6,
        }),
        b"equal,2
e,400A01,400B02,26,26,s,1
e,400A01,400B02,27,31,o,6
",
    ),
];

// Shows a run that has what is sought.
fn show_one(
    alloc: Global,
    possible: &mut Possibilities,
    scope: Scope,
    sought: Sought,
) -> Result<(), Fail>
    requires { possible.old.scope ≡ scope }
{
    let Some(run) = find(alloc, possible.state(), scope, sought)? else {
        return Err("no run".into());
    };
    possible.show(&run);
    drop(run);
    Ok(())
}

fn is_right(alloc: Global, row: Row) -> Result<bool, Fail> {
    let (meeting, scope, sought, want) = row;
    let mut possible = possible(alloc, met(alloc, meeting, &[], &[])?, scope)?;
    if let Some(sought) = sought {
        show_one(alloc, &mut possible, scope, sought)?;
    }
    ends_so(alloc, &possible, want)
}

// The first row of which the text ends otherwise.
fn first_other(alloc: Global, rows: &[Row]) -> Result<Option<usize>, Fail> {
    for at in 0..rows.len() {
        if !is_right(alloc, rows[at])? {
            return Ok(Some(at));
        }
    }
    Ok(None)
}

#[test]
fn marks_what_runs_show(rt: HostRuntime) -> Result<(), Fail> {
    assert_eq!(rt; first_other(rt.alloc(), ROWS)?, None);
    Ok(())
}

// What is asked of a mark: of a word of an aircraft in a cycle, or of equal senses of two in one.
#[derive(Clone, Copy)]
enum Asked {
    Word(u8, u16, Word),
    Equal(u8, u8, u16),
}

impl Asked {
    fn is_unshown(self, possible: &Possibilities) -> bool {
        match self {
            Asked::Word(own, cycle, word) => possible.is_unshown(own, cycle, word),
            Asked::Equal(low, high, cycle) => possible.is_equal_unshown(low, high, cycle),
        }
    }
}

// Before another run is shown. The last five are what the serial run has, what alone is possible, and what isn't.
const BEFORE: &[(Asked, bool)] = &[
    (Asked::Word(1, 31, CLIMB), true),
    (Asked::Word(0, 26, DESCEND), true),
    (Asked::Equal(0, 1, 27), true),
    (Asked::Word(1, 31, DESCEND), false),
    (Asked::Word(1, 25, Word::Traffic), false),
    (Asked::Word(1, 25, CLIMB), false),
    (Asked::Equal(0, 1, 26), false),
    (Asked::Equal(0, 1, 28), false),
];

// After a run in which the second one climbs in the last cycle.
const AFTER: &[(Asked, bool)] = &[
    (Asked::Word(1, 31, CLIMB), false),
    (Asked::Word(0, 26, DESCEND), false),
    (Asked::Equal(0, 1, 27), true),
];

// The first row that isn't so.
fn first_wrong(possible: &Possibilities, rows: &[(Asked, bool)]) -> Option<usize> {
    rows.iter()
        .position(|(asked, want)| asked.is_unshown(possible) != *want)
}

// The first row that isn't so before a run is shown, and the first one after it.
fn wrong_before_and_after(alloc: Global) -> Result<(Option<usize>, Option<usize>), Fail> {
    let state = met(alloc, &LEVEL, &[], &[])?;
    let mut possible = possible(alloc, state, Scope::Orders)?;
    let before = first_wrong(&possible, BEFORE);
    let shown = show_one(alloc, &mut possible, Scope::Orders, SECOND_CLIMBS);
    let after = first_wrong(&possible, AFTER);
    drop(possible);
    shown?;
    Ok((before, after))
}

#[test]
fn tells_what_is_unshown(rt: HostRuntime) -> Result<(), Fail> {
    assert_eq!(rt; wrong_before_and_after(rt.alloc())?, (None, None));
    Ok(())
}
