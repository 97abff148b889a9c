// Expected values: by hand from "The journal" in docs/RULES.md. They are of shared journals of small encounters.
ghost use Rattle.std.specs.Prelude.{◌≡◌, ℕ, ◌<◌, [], ◌∷◌, All, IfOk, IfSome, length, slice_index_or};
ghost use Rattle.air_rules.specs.Journal.{commits};
ghost use Rattle.air_turn.specs.Seats.{AreAllSeats, IsSameSeat, IsSeatOf, SeatState};

use crate::steps::{self, empty_journal, look};
use acas_base::{Address, CraftSpec, Encounter, Kind};
use air_journal::{AirState, Commit, Sent, Took};
use air_turn::{Air, Seat};
use craft_view::no_picture;
use std::alloc::Global;
use std::sync::Wait;
use std::sync::atomic::{AtomicU64, Ordering};
use std::test::Fail;
use std::thread::{Threads, for_each_mut, yield_now};
use test_encounters::{aircraft, encounter, leg};

// The shared journal of an encounter, empty.
fn opened(alloc: Global, enc: &Encounter) -> Result<(Air, Vec<Seat>), Fail>
    ensures encounter { IfOk result (λ opened. opened.0.encounter ≡ enc.now) }
    ensures all { IfOk result (λ opened. AreAllSeats opened.0 opened.1.items) }
    ensures fresh { IfOk result (λ opened. All (λ seat. (IsSeatOf opened.0 seat) × (seat.encounter ≡ enc.now) × (seat.front ≡ [])) opened.1.items) }
{
    let state = empty_journal(alloc, enc)?;
    Ok(Air::open(alloc, state)?)
}

// ---- the seats

// Aircraft of these kinds, which stand still beside each other, for the most cycles.
fn standing(alloc: Global, kinds: &[Kind]) -> Result<Encounter, Fail> {
    let mut crafts = [aircraft(0x40_0A01, 1000, 35_000)?; 16];
    for place in 0..kinds.len().min(16) {
        let address = Address::new(0x40_0A01 + place as u32).ok_or("no address")?;
        crafts[place] = CraftSpec {
            address,
            kind: kinds[place],
            ..crafts[place]
        };
    }
    let crafts = crafts.get(..kinds.len()).ok_or("too many")?;
    encounter(alloc, 600, None, crafts, &[], &[], &[])
}

// A type that may be sent to another thread, and shared with it.
fn crosses_threads<T: Send + Sync>(_value: &T) -> bool {
    true
}

fn may_be_sent<T: Send>(_value: &T) -> bool {
    true
}

// Whether the seats are of these aircraft.
fn are_of(seats: &[Seat], owns: &[u8]) -> bool {
    for place in 0..seats.len() {
        if !may_be_sent(&seats[place]) || owns.get(place) != Some(&seats[place].own()) {
            return false;
        }
    }
    seats.len() == owns.len()
}

// The same, and whether the journal is empty when no seat has made a call.
fn are_all_of(air: Air, seats: Vec<Seat>, owns: &[u8]) -> bool
    requires { AreAllSeats air seats.items }
{
    let same = crosses_threads(&air) && are_of(seats.as_slice(), owns);
    let count = air.close(seats).count();
    same && count == 0
}

// Whether the aircraft of an encounter get seats for these indices.
fn are_seated(alloc: Global, enc: &Encounter, owns: &[u8]) -> Result<bool, Fail> {
    let (air, seats) = opened(alloc, enc)?;
    Ok(are_all_of(air, seats, owns))
}

// The same of aircraft of these kinds.
fn has_seats(alloc: Global, kinds: &[Kind], owns: &[u8]) -> Result<bool, Fail> {
    let enc = standing(alloc, kinds)?;
    are_seated(alloc, &enc, owns)
}

// The kinds of the aircraft of an encounter, and those that have a seat.
type Seated = (&'static [Kind], &'static [u8]);

const SEATED: &[Seated] = &[
    (&[Kind::Ra, Kind::Ra], &[0, 1]),
    (&[Kind::Xpdr, Kind::Ra, Kind::Xpdr], &[1]),
    (&[Kind::Ta, Kind::Xpdr, Kind::Ta], &[0, 2]),
    (
        &[Kind::Ra; 16],
        &[0, 1, 2, 3, 4, 5, 6, 7, 8, 9, 10, 11, 12, 13, 14, 15],
    ),
];

// The place of the first encounter whose aircraft get other seats.
fn first_otherwise_seated(alloc: Global, rows: &[Seated]) -> Result<Option<usize>, Fail> {
    for place in 0..rows.len() {
        let (kinds, owns) = rows[place];
        if !has_seats(alloc, kinds, owns)? {
            return Ok(Some(place));
        }
    }
    Ok(None)
}

// Each active aircraft has a seat, in order of index, and a seat that makes no call doesn't hinder the end.
#[test]
fn seats(rt: HostRuntime) -> Result<(), Fail> {
    assert_eq!(rt; first_otherwise_seated(rt.alloc(), SEATED)?, None);
    Ok(())
}

// How many entries come back where a journal is shared.
fn shared(alloc: Global, begun: AirState) -> Result<u32, Fail> {
    let (air, seats) = Air::open(alloc, begun)?;
    Ok(air.close(seats).count())
}

// The same where the first aircraft has committed a cycle before.
fn begun_shared(alloc: Global, enc: &Encounter) -> Result<u32, Fail> {
    let mut begun = empty_journal(alloc, enc)?;
    let _ = steps::commit(&mut begun, 0);
    shared(alloc, begun)
}

// The same of two aircraft.
fn shared_again(alloc: Global) -> Result<u32, Fail> {
    let enc = standing(alloc, &[Kind::Ra, Kind::Ra])?;
    begun_shared(alloc, &enc)
}

#[test]
fn shares_a_begun_journal(rt: HostRuntime) -> Result<(), Fail> {
    assert_eq!(rt; shared_again(rt.alloc())?, 1);
    Ok(())
}

// ---- single calls

// Asks for the commit of a seat's next cycle, and counts it where it is made.
fn commit<R: Wait>(rt: &R, air: &Air, enc: &Encounter, seat: &mut Seat, made: &mut u16) -> Commit
    requires of { IsSeatOf air.now seat.old }
    requires encounter { seat.old.encounter ≡ enc.now }
    requires made { made.old ≡ commits seat.old.front seat.old.own }
    ensures same { IsSameSeat seat.old seat.new }
    ensures made { made.new ≡ commits seat.new.front seat.new.own }
{
    seat.seat_law();
    let picture = if *made < enc.cycles() {
        look(enc, seat.own(), *made)
    } else {
        no_picture()
    };
    let answer = air.commit(rt, seat, &picture);
    if let Commit::Done(_) = answer {
        *made += 1;
    }
    answer
}

// ---- in one thread

// What a seat does, and the answer that it gets.
#[derive(Clone, Copy)]
enum Act {
    Commits(Commit),
    SendsNothing,
    TakesNothing,
    /// It learns what the other one has seen.
    Learns,
}

// Whether an act of a seat has its answer.
fn is_so<R: Wait>(
    rt: &R,
    air: &Air,
    enc: &Encounter,
    seat: &mut Seat,
    made: &mut u16,
    other: &mut Seat,
    act: Act,
) -> bool
    requires of { IsSeatOf air.now seat.old }
    requires encounter { seat.old.encounter ≡ enc.now }
    requires made { made.old ≡ commits seat.old.front seat.old.own }
    requires other { IsSeatOf air.now other.old }
    ensures same { IsSameSeat seat.old seat.new }
    ensures made { made.new ≡ commits seat.new.front seat.new.own }
    ensures other { other.new ≡ other.old }
{
    match act {
        Act::Commits(answer) => commit(rt, air, enc, seat, made) == answer,
        Act::SendsNothing => air.send(rt, seat) == Sent::Nothing,
        Act::TakesNothing => air.take(rt, seat) == Took::Nothing,
        Act::Learns => {
            air.learn(seat, other);
            true
        }
    }
}

// The place of the first act of both seats that has another answer.
fn first_wrong<R: Wait>(
    rt: &R,
    air: &Air,
    enc: &Encounter,
    low: &mut Seat,
    high: &mut Seat,
    acts: &[(u8, Act)],
) -> Option<usize>
    requires low { (IsSeatOf air.now low.old) × (low.old.encounter ≡ enc.now) × (low.old.front ≡ []) }
    requires high { (IsSeatOf air.now high.old) × (high.old.encounter ≡ enc.now) × (high.old.front ≡ []) }
    ensures low { IsSameSeat low.old low.new }
    ensures high { IsSameSeat high.old high.new }
{
    let mut low_made = 0;
    let mut high_made = 0;
    for place in 0..acts.len() {
        let (own, act) = acts[place];
        let goes_on = match own {
            0 => is_so(rt, air, enc, low, &mut low_made, high, act),
            _ => is_so(rt, air, enc, high, &mut high_made, low, act),
        };
        if !goes_on {
            return Some(place);
        }
    }
    None
}

// Both seats, where there are two.
fn both(mut seats: Vec<Seat>) -> Option<(Seat, Seat)>
    ensures { IfSome result (λ both. seats.items ≡ both.0 ∷ both.1 ∷ []) }
{
    let high = seats.pop()?;
    let low = seats.pop()?;
    if seats.is_empty() {
        Some((low, high))
    } else {
        None
    }
}

// Two aircraft of a kind that fly towards each other, the second one at this altitude.
fn meeting(alloc: Global, kind: Kind, alt: i32) -> Result<Encounter, Fail> {
    let crafts = [
        CraftSpec {
            kind,
            ..aircraft(0x40_0A01, 0, 35_000)?
        },
        CraftSpec {
            kind,
            ..aircraft(0x40_0B02, 91_200, alt)?
        },
    ];
    let legs = [leg(0, 1, 760, 0), leg(1, 1, -760, 0)];
    encounter(alloc, 31, None, &crafts, &legs, &[], &[])
}

// The place of the first act with another answer, and how many entries there are in the end. The seats come back in the
// other order, which `close` has to allow.
fn played<R: Wait>(
    rt: &R,
    alloc: Global,
    enc: &Encounter,
    acts: &[(u8, Act)],
) -> Result<(Option<usize>, u32), Fail> {
    let (air, seats) = opened(alloc, enc)?;
    let Some((mut low, mut high)) = both(seats) else {
        return Err("not two seats".into());
    };
    let wrong = first_wrong(rt, &air, enc, &mut low, &mut high, acts);
    let mut back = Vec::with_capacity(alloc, 2)?;
    back.push_reserved(high);
    back.push_reserved(low);
    Ok((wrong, air.close(back).count()))
}

// The same of two aircraft that fly towards each other.
fn played_in_turn<R: Wait>(
    rt: &R,
    alloc: Global,
    acts: &[(u8, Act)],
) -> Result<(Option<usize>, u32), Fail> {
    let enc = meeting(alloc, Kind::Ra, 35_000)?;
    played(rt, alloc, &enc, acts)
}

// The second aircraft commits two cycles, and waits for the first one.
const ONE_LEADS: &[(u8, Act)] = &[
    (0, Act::Commits(Commit::Done(0))),
    (1, Act::Commits(Commit::Done(1))),
    (1, Act::Commits(Commit::Done(2))),
    (1, Act::Commits(Commit::Ahead(0, 1))),
    (0, Act::SendsNothing),
    (0, Act::TakesNothing),
    (1, Act::SendsNothing),
    (1, Act::TakesNothing),
];

// The first aircraft waits for the second one, and learns of its commit.
const LEARNS: &[(u8, Act)] = &[
    (0, Act::Commits(Commit::Done(0))),
    (0, Act::Commits(Commit::Ahead(1, 0))),
    (1, Act::Commits(Commit::Done(1))),
    (0, Act::Learns),
    (0, Act::Commits(Commit::Done(2))),
];

// The same, but the first aircraft doesn't learn of the commit.
const LEARNS_NOTHING: &[(u8, Act)] = &[
    (0, Act::Commits(Commit::Done(0))),
    (0, Act::Commits(Commit::Ahead(1, 0))),
    (1, Act::Commits(Commit::Done(1))),
    (0, Act::Commits(Commit::Done(2))),
];

// The first aircraft alone.
const ALONE: &[(u8, Act)] = &[
    (0, Act::SendsNothing),
    (0, Act::TakesNothing),
    (0, Act::Commits(Commit::Done(0))),
    (0, Act::Commits(Commit::Ahead(1, 0))),
];

// What both seats do, and how many entries there are in the end.
const PLAYED: &[(&[(u8, Act)], u32)] = &[
    (ONE_LEADS, 3),
    (LEARNS, 3),
    (LEARNS_NOTHING, 3),
    (ALONE, 1),
];

// The place of the first row that is played otherwise.
fn first_otherwise_played<R: Wait>(
    rt: &R,
    alloc: Global,
    rows: &[(&[(u8, Act)], u32)],
) -> Result<Option<usize>, Fail> {
    for place in 0..rows.len() {
        let (acts, count) = rows[place];
        if played_in_turn(rt, alloc, acts)? != (None, count) {
            return Ok(Some(place));
        }
    }
    Ok(None)
}

#[test]
fn answers_in_turn(rt: HostRuntime) -> Result<(), Fail> {
    assert_eq!(rt; first_otherwise_played(&rt, rt.alloc(), PLAYED)?, None);
    Ok(())
}

// ---- in two threads

// Commits until all cycles are over.
fn commits_all<R: Wait>(rt: &R, air: &Air, enc: &Encounter, seat: &mut Seat)
    requires { (IsSeatOf air.now seat.old) × (seat.old.encounter ≡ enc.now) × (seat.old.front ≡ []) }
    ensures { IsSameSeat seat.old seat.new }
{
    let mut made = 0;
    for _try in rt.forever() {
        if commit(rt, air, enc, seat, &mut made) == Commit::Over {
            return;
        }
    }
    unreachable!()
}

// Each seat makes its commits in a thread of its own.
fn all_commit<R: Threads + Wait + Sync>(rt: &R, air: &Air, enc: &Encounter, seats: &mut [Seat])
    requires { All (λ seat. (IsSeatOf air.now seat) × (seat.encounter ≡ enc.now) × (seat.front ≡ [])) seats.old }
    ensures { (k : ℕ) (d : SeatState) → k < length seats.old → IsSameSeat (slice_index_or seats.old k d) (slice_index_or seats.new k d) }
{
    for_each_mut(
        rt,
        seats,
        2,
        &|_place, seat| { commits_all(rt, air, enc, seat) },
    );
}

// Their journal, when both have ended.
fn committed<R: Threads + Wait + Sync>(
    rt: &R,
    alloc: Global,
    enc: &Encounter,
) -> Result<AirState, Fail> {
    let (air, mut seats) = opened(alloc, enc)?;
    all_commit(rt, &air, enc, seats.as_mut_slice());
    Ok(air.close(seats))
}

// Whether it has so many entries, and is complete.
fn ends_in<R: Threads + Wait + Sync>(
    rt: &R,
    alloc: Global,
    enc: &Encounter,
    entries: u32,
) -> Result<bool, Fail> {
    let state = committed(rt, alloc, enc)?;
    Ok(state.count() == entries && state.complete())
}

fn ends<R: Threads + Wait + Sync>(rt: &R, alloc: Global, entries: u32) -> Result<bool, Fail> {
    let enc = meeting(alloc, Kind::Ta, 35_300)?;
    ends_in(rt, alloc, &enc, entries)
}

// Traffic advisories alone: nothing is sent, so all entries are commits.
#[test]
fn commits_in_threads(rt: HostRuntime) -> Result<(), Fail> {
    assert!(rt; ends(&rt, rt.alloc(), 62)?);
    Ok(())
}

// ---- in sixteen threads

// How often a journal is shared anew, and how many calls each seat makes then.
const OPENINGS: u32 = 16;

const CALLS: u32 = 25;

// Waits until all sixteen have come, or gives up.
fn comes(came: &AtomicU64) {
    came.fetch_add(1, Ordering::SeqCst);
    for _turn in 0..100_000u64 {
        if came.load(Ordering::SeqCst) >= 16 {
            return;
        }
        yield_now();
    }
}

// Makes calls that add nothing, when all have come.
fn sends_nothing<R: Wait>(rt: &R, air: &Air, seat: &mut Seat, came: &AtomicU64)
    requires { IsSeatOf air.now seat.old }
    ensures { IsSameSeat seat.old seat.new }
{
    comes(came);
    for _call in 0..CALLS {
        let _ = air.send(rt, seat);
    }
}

// Each seat makes its calls in a thread of its own.
fn all_send<R: Threads + Wait + Sync>(rt: &R, air: &Air, seats: &mut [Seat], came: &AtomicU64)
    requires { All (IsSeatOf air.now) seats.old }
    ensures { (k : ℕ) (d : SeatState) → k < length seats.old → IsSameSeat (slice_index_or seats.old k d) (slice_index_or seats.new k d) }
{
    for_each_mut(
        rt,
        seats,
        16,
        &|_place, seat| { sends_nothing(rt, air, seat, came) },
    );
}

// How many entries a shared journal has when all have ended.
fn sent<R: Threads + Wait + Sync>(rt: &R, alloc: Global, enc: &Encounter) -> Result<u32, Fail> {
    let (air, mut seats) = opened(alloc, enc)?;
    let came = AtomicU64::new(0);
    all_send(rt, &air, seats.as_mut_slice(), &came);
    Ok(air.close(seats).count())
}

// How many entries all these journals have.
fn all_sent<R: Threads + Wait + Sync>(rt: &R, alloc: Global) -> Result<u32, Fail> {
    let enc = standing(alloc, &[Kind::Ra; 16])?;
    let mut entries = 0u32;
    for _opening in 0..OPENINGS {
        entries = entries.saturating_add(sent(rt, alloc, &enc)?);
    }
    Ok(entries)
}

// Sixteen seats call at the same time, so nearly every call waits for its turn, from the first tickets on. The test
// doesn't end where a seat parks on another word than the one of its ticket, where nobody is woken, or where a seat is
// woken before its turn was given.
#[test]
fn all_calls_get_their_turn(rt: HostRuntime) -> Result<(), Fail> {
    assert_eq!(rt; all_sent(&rt, rt.alloc())?, 0);
    Ok(())
}
