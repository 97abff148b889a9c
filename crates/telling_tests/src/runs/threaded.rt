// Runs in threads: `play` and `sum`. Expected values: the counts of the worked encounters, and by hand from
// docs/RULES.md.
use super::{
    APART, BETWEEN, HELD_LONG, LAPSING, LEVEL, LEVEL_2, LOW, Outcome, TRANSPONDER, entry_in,
    joined, lines_with, run, run_with,
};
use acas_top::Status;
use craft_worker::Pause;
use std::alloc::{AllocError, Global};
use std::sync::Wait;
use std::sync::atomic::{AtomicU64, Ordering};
use std::test::Fail;
use std::thread::{Threads, yield_now};

// The beginning of a text, its rest, and how many commits each of its journals has.
type Row = (&'static [u8], &'static [u8], u64);

const PLAYED: &[Row] = &[
    (APART, b"end\n", 62),
    (APART, b"end", 62),
    (LEVEL, b"end\n", 62),
    // The first three messages are lost.
    (
        LEVEL,
        b"fate,400A01,400B02,1\nfate,400A01,400B02,2\nfate,400A01,400B02,3\nend\n",
        62,
    ),
    // A copy that is held back is taken last.
    (LEVEL, HELD_LONG, 62),
    // A message has three copies.
    (LEVEL, b"fate,400A01,400B02,1,0,00,0,00,0,00\nend\n", 62),
    // A message is damaged.
    (LEVEL, b"fate,400A01,400B02,1,0,07\nend\n", 62),
    // The first of two copies is held back.
    (LEVEL, b"fate,400A01,400B02,1,2,00,0,00\nend\n", 62),
    // Near the ground.
    (LOW, b"end\n", 34),
    // One between two others.
    (BETWEEN, b"end\n", 75),
    // A threat with a transponder only.
    (TRANSPONDER, b"end\n", 31),
];

const PLAYED_TOO: &[Row] = &[
    // Both at one place, with gains of 0 and addresses at the ends of their range.
    (
        b"encounter,1\nrun,3,0\ngains,0,0,0,0\ncraft,000001,RA,0,0,35000\ncraft,FFFFFE,RA,0,0,35000\n",
        b"end\n",
        6,
    ),
    // A message in force lapses after six commits, and not after five.
    (LAPSING, b"miss,400B02,400A01,1,31\nend\n", 66),
    (LAPSING, b"miss,400B02,400A01,1,30\nend\n", 66),
    // A ceiling, a link that loses everything, and one message of it that arrives.
    (LEVEL_2, b"climb,400A01,30000\nend\n", 62),
    (LEVEL_2, b"plan,400A01,400B02\nend\n", 62),
    (
        LEVEL_2,
        b"plan,400A01,400B02\nfate,400A01,400B02,1,0,00\nend\n",
        62,
    ),
];

// Whether a recording is legal, and has this many commits.
fn is_judged_legal<R: Threads + Wait + Sync + Alloc<A = Global>>(
    rt: &R,
    recorded: &[u8],
    commits: u64,
) -> Result<bool, AllocError> {
    let judged = run(rt, "audit", recorded)?;
    Ok(judged.status == Status::Done && lines_with(recorded, b"c,") == commits)
}

// Whether `play` writes a legal recording with this many commits, whatever the order is.
fn is_legal<R: Threads + Wait + Sync + Alloc<A = Global>>(
    rt: &R,
    text: &[u8],
    commits: u64,
) -> Result<bool, AllocError> {
    let played = run(rt, "play", text)?;
    is_judged_legal(rt, played.sink.bytes(), commits)
}

fn is_played_legally<R: Threads + Wait + Sync + Alloc<A = Global>>(
    rt: &R,
    row: &Row,
) -> Result<bool, AllocError> {
    let text = joined(rt.alloc(), row.0, row.1)?;
    is_legal(rt, text.as_slice(), row.2)
}

// The place of the first row whose recording isn't so.
fn first_other<R: Threads + Wait + Sync + Alloc<A = Global>>(
    rt: &R,
    rows: &[Row],
) -> Result<Option<usize>, AllocError> {
    for place in 0..rows.len() {
        if !is_played_legally(rt, &rows[place])? {
            return Ok(Some(place));
        }
    }
    Ok(None)
}

#[test]
fn plays_in_threads(rt: HostRuntime) -> Result<(), Fail> {
    assert_eq!(rt; first_other(&rt, PLAYED)?, None);
    assert_eq!(rt; first_other(&rt, PLAYED_TOO)?, None);
    Ok(())
}

// ---- side by side

// Aircraft that wait for each other before they commit their first cycles.
#[derive(Drop)]
struct Meeting {
    // In how many cycles they wait.
    cycles: u64,
    // Twice the cycle that each was last called for, and one more where that was no first call for this cycle.
    called: Vec<AtomicU64>,
    // Whether one has given up, or was called for a cycle that is neither the last one nor the next one.
    failed: AtomicU64,
}

impl Meeting {
    fn of(alloc: Global, crafts: u8, cycles: u64) -> Result<Meeting, AllocError> {
        let mut called = Vec::new(alloc);
        for _craft in 0..crafts {
            called.push(AtomicU64::new(0))?;
        }
        Ok(Meeting {
            cycles,
            called,
            failed: AtomicU64::new(0),
        })
    }

    fn fails(&self) {
        self.failed.store(1, Ordering::SeqCst);
    }

    fn has_failed(&self) -> bool {
        self.failed.load(Ordering::SeqCst) > 0
    }

    // Whether all but one have come as far, as `called` counts it.
    fn have_come(&self, but: usize, far: u64) -> bool {
        for craft in 0..self.called.len() {
            if craft != but && self.called[craft].load(Ordering::SeqCst) < far {
                return false;
            }
        }
        true
    }

    // Waits for them, and gives up where they don't come.
    fn waits(&self, craft: usize, far: u64) {
        for _turn in 0..20_000_000u64 {
            if self.have_come(craft, far) || self.has_failed() {
                return;
            }
            yield_now();
        }
        self.fails();
    }

    // Whether nobody gave up, and each was called for each cycle up to this one.
    fn has_ended(&self, cycle: u64) -> bool {
        for called in self.called.as_slice() {
            if called.load(Ordering::SeqCst) / 2 != cycle {
                return false;
            }
        }
        !self.has_failed()
    }
}

impl Pause for Meeting {
    // In each of the first cycles one aircraft commits last, another one in each cycle. It is held until all others
    // were called for the next cycle, tried in vain, and were called again. So from the second cycle on it was called
    // again itself. Another one that is called again is held until all were called for its cycle.
    fn pause(&self, craft: u8, cycle: u16) {
        let own = usize::from(craft);
        let cycle = u64::from(cycle);
        let Some(called) = self.called.get(own) else {
            self.fails();
            return;
        };
        let last = called.load(Ordering::SeqCst) / 2;
        if cycle.wrapping_sub(last) > 1 {
            self.fails();
        }
        let first = cycle.wrapping_mul(2);
        let again = first.wrapping_add(1);
        called.store(if cycle == last { again } else { first }, Ordering::SeqCst);
        if cycle > self.cycles || (cycle > 1 && cycle != last) {
            return;
        }
        if cycle.checked_rem(self.called.len() as u64) == Some(u64::from(craft)) {
            self.waits(own, again.wrapping_add(2));
        } else if cycle == last {
            self.waits(own, first);
        }
    }
}

// An encounter that is played with aircraft that wait for each other.
struct Together {
    // The beginning of its text, and the rest.
    open: &'static [u8],
    rest: &'static [u8],
    // How many aircraft it has, all active, how many cycles, and in how many of these cycles they wait.
    crafts: u8,
    cycles: u64,
    waiting: u64,
    // A position, and the entry there.
    position: usize,
    entry: &'static [u8],
    // What `sum` writes.
    sums: &'static [u8],
}

// Sixteen aircraft at one place, with gains of 0. Each has an advisory against each other one from the second cycle on.
const CROWD: &[u8] =
    b"encounter,2\nrun,3,0\ngains,0,0,0,0\ncraft,000001,RA,0,0,35000\ncraft,000002,RA,0,0,35000\ncraft,000003,RA,0,0,35000\ncraft,000004,RA,0,0,35000\ncraft,000005,RA,0,0,35000\ncraft,000006,RA,0,0,35000\ncraft,000007,RA,0,0,35000\ncraft,000008,RA,0,0,35000\ncraft,000009,RA,0,0,35000\ncraft,00000A,RA,0,0,35000\ncraft,00000B,RA,0,0,35000\ncraft,00000C,RA,0,0,35000\ncraft,00000D,RA,0,0,35000\ncraft,00000E,RA,0,0,35000\ncraft,00000F,RA,0,0,35000\ncraft,000010,RA,0,0,35000\n";

// In the first cycle the aircraft of index 1 commits last. In the second cycle it is the one of index 0, or of index 2
// where there is one. In the serial run it is always the one of the highest index.
const TOGETHER: &[Together] = &[
    Together {
        open: LEVEL,
        rest: b"end\n",
        crafts: 2,
        cycles: 31,
        waiting: 5,
        position: 2,
        entry: b"c,1,2,-,-",
        sums: b"play,62\nserial,62,12,12,5\n",
    },
    Together {
        open: BETWEEN,
        rest: b"end\n",
        crafts: 3,
        cycles: 25,
        waiting: 5,
        position: 2,
        entry: b"c,1,1,-,-,-",
        sums: b"play,75\nserial,75,8,8,6\n",
    },
    Together {
        open: CROWD,
        rest: b"end\n",
        crafts: 16,
        cycles: 3,
        waiting: 2,
        position: 15,
        entry: b"c,1,1,-,-,-,-,-,-,-,-,-,-,-,-,-,-,-,-",
        sums: b"play,48\nserial,48,480,480,32\n",
    },
];

// Whether a run ended with status Done, and wrote the entry, or the sums, of a row.
fn has_entry(met: &Outcome, row: &Together) -> bool {
    met.status == Status::Done && entry_in(met.sink.bytes(), row.position) == row.entry
}

fn has_sums(met: &Outcome, row: &Together) -> bool {
    met.status == Status::Done && met.sink.bytes() == row.sums
}

// Whether `play` and `sum` give this, where the aircraft wait for each other.
fn is_played<R: Threads + Wait + Sync + Alloc<A = Global>>(
    rt: &R,
    row: &Together,
    text: &[u8],
) -> Result<bool, AllocError> {
    let meeting = Meeting::of(rt.alloc(), row.crafts, row.waiting)?;
    let met = run_with(rt, "play", text, &[], &[], &meeting)?;
    Ok(has_entry(&met, row) && meeting.has_ended(row.cycles))
}

fn is_summed<R: Threads + Wait + Sync + Alloc<A = Global>>(
    rt: &R,
    row: &Together,
    text: &[u8],
) -> Result<bool, AllocError> {
    let meeting = Meeting::of(rt.alloc(), row.crafts, row.waiting)?;
    let met = run_with(rt, "sum", text, &[], &[], &meeting)?;
    Ok(has_sums(&met, row) && meeting.has_ended(row.cycles))
}

// Both, of the encounter of a row.
fn is_both<R: Threads + Wait + Sync + Alloc<A = Global>>(
    rt: &R,
    row: &Together,
    text: &[u8],
) -> Result<bool, AllocError> {
    if !is_played(rt, row, text)? {
        return Ok(false);
    }
    is_summed(rt, row, text)
}

fn is_met<R: Threads + Wait + Sync + Alloc<A = Global>>(
    rt: &R,
    row: &Together,
) -> Result<bool, AllocError> {
    let text = joined(rt.alloc(), row.open, row.rest)?;
    is_both(rt, row, text.as_slice())
}

// The place of the first row that ends otherwise.
fn first_unmet<R: Threads + Wait + Sync + Alloc<A = Global>>(
    rt: &R,
    rows: &[Together],
) -> Result<Option<usize>, AllocError> {
    for place in 0..rows.len() {
        if !is_met(rt, &rows[place])? {
            return Ok(Some(place));
        }
    }
    Ok(None)
}

// This test shows that threads run side by side. A run on one thread can't have one aircraft wait for another one. A
// run on fewer threads than aircraft can't have one wait for all others. A run that writes the serial journal has
// another order. The test doesn't pass either where nobody waits, where one waits behind its commit, or only before the
// first of several tries, or where another cycle is named.
#[test]
fn meet(rt: HostRuntime) -> Result<(), Fail> {
    assert_eq!(rt; first_unmet(&rt, TOGETHER)?, None);
    Ok(())
}
