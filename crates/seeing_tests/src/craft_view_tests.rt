// Expected values: by hand from "Tracks" to "Separations" in docs/RULES.md.
ghost use Rattle.std.specs.Prelude.{◌≡◌, ◌≤◌, IfOk};
ghost use Rattle.acas_base.specs.Ranges.{IsWithin};
ghost use Rattle.craft_view.specs.Kept.{Belongs};

use acas_base::{CRAFTS, CraftSpec, Encounter, Sense, View};
use acas_num::TrackState;
use craft_view::{Craft, is_active};
use flight::inside;
use std::alloc::Global;
use std::test::Fail;
use test_encounters::{aircraft, encounter, leg};

const FOOT: i64 = 1024;

const LEVEL: usize = 3;

const POSITIVE: usize = 4;

// Two aircraft that fly towards each other, for so many cycles.
fn meeting(
    alloc: Global,
    cycles: u16,
    own: CraftSpec,
    other: CraftSpec,
    speed: i32,
) -> Result<Encounter, Fail>
    requires speed { IsWithin 2000 speed }
{
    let legs = [leg(0, 1, speed, 0), leg(1, 1, -speed, 0)];
    encounter(alloc, cycles, None, &[own, other], &legs, &[], &[])
}

// The aircraft of this index, after so many looks.
fn craft_after(encounter: &Encounter, own: u8, looks: u16) -> Result<Craft, Fail>
    requires { looks ≤ encounter.now.cycles }
    ensures { IfOk result (λ c. Belongs encounter.now c × (c.cycle ≡ looks)) }
{
    if !inside(encounter) {
        return Err("outside the box".into());
    }
    if !is_active(encounter, own) {
        return Err("not active".into());
    }
    let mut craft = Craft::new(encounter, own);
    for _ in 0..looks {
        let _ = craft.look(encounter);
    }
    Ok(craft)
}

// What an aircraft sees of another one in a cycle.
pub(crate) fn view_in(
    encounter: &Encounter,
    own: u8,
    target: usize,
    cycle: u16,
) -> Result<View, Fail> {
    if target >= CRAFTS || cycle == 0 || cycle > encounter.cycles() {
        return Err("no such view".into());
    }
    let mut craft = craft_after(encounter, own, cycle - 1)?;
    Ok(craft.look(encounter).views[target])
}

// Two at 35,000 and 35,300 ft, 91,200 ft apart.
fn crossing(alloc: Global) -> Result<Encounter, Fail> {
    let low = aircraft(0x40_0A01, 0, 35_000)?;
    let high = aircraft(0x40_0B02, 91_200, 35_300)?;
    meeting(alloc, 31, low, high, 760)
}

fn running(est: i64, rate: i64) -> TrackState {
    TrackState::Run {
        est,
        rate,
        missed: 0,
    }
}

// A type that may be sent to other threads, and shared with them.
fn may_be_shared<T: Send + Sync>(_: &T) {}

// An aircraft, a cycle, and the first one's view of it: tested, traffic, resolves, threat.
type Seen = (usize, u16, bool, bool, bool, bool);

const SEEN: &[Seen] = &[
    (1, 1, false, false, true, false),
    (1, 2, true, false, true, false),
    (1, 12, true, false, true, false),
    (1, 13, true, true, true, false),
    (1, 25, true, true, true, false),
    (1, 26, true, true, true, true),
    (0, 26, false, false, false, false),
    (2, 26, false, false, false, false),
];

fn is_seen(met: &Encounter, seen: Seen) -> Result<bool, Fail> {
    let (target, cycle, tested, traffic, resolves, threat) = seen;
    let view = view_in(met, 0, target, cycle)?;
    Ok(
        view.tested == tested
            && view.traffic == traffic
            && view.resolves == resolves
            && view.threat == threat,
    )
}

#[test]
fn sees_two_that_meet(rt: HostRuntime) -> Result<(), Fail> {
    let met = crossing(rt.alloc())?;
    for place in 0..SEEN.len() {
        assert!(rt; is_seen(&met, SEEN[place])?, "{place}");
    }
    Ok(())
}

// Whether the first one has the tracks of both after the run.
fn has_tracks(craft: &Craft) -> bool {
    craft.own() == 0
        && craft.cycle() == 31
        && craft.range_of(1) == running(46_694_400, -1_556_480)
        && craft.altitude_of(1) == running(36_147_200, 0)
        && craft.altitude_of(0) == running(35_000 * FOOT, 0)
        && craft.range_of(0) == TrackState::Empty
        && craft.altitude_of(15) == TrackState::Empty
}

#[test]
fn keeps_tracks(rt: HostRuntime) -> Result<(), Fail> {
    let met = crossing(rt.alloc())?;
    assert!(rt; met.cycles() == 31);
    let craft = craft_after(&met, 0, 31)?;
    may_be_shared(&craft);
    assert!(rt; has_tracks(&craft));
    Ok(())
}

// Whether this is a view of the lower one from above.
fn is_from_above(view: &View) -> bool {
    view.halves == 70
        && view.alim == 600 * FOOT
        && view.side == Sense::Up
        && view.first.up[LEVEL] == 300 * FOOT
        && view.first.up[POSITIVE] == 1_017 * FOOT
}

#[test]
fn separates_two_that_meet(rt: HostRuntime) -> Result<(), Fail> {
    let met = crossing(rt.alloc())?;
    assert!(rt; is_from_above(&view_in(&met, 1, 0, 26)?));
    Ok(())
}

// An aircraft near the ground. It may climb below this ceiling.
fn low(address: u32, x: i32, ceiling: i32) -> Result<CraftSpec, Fail> {
    Ok(CraftSpec {
        ceiling: Some(ceiling),
        ..aircraft(address, x, 1_099)?
    })
}

// Whether this is a view of one at the same altitude, from the ceiling.
fn is_from_the_ceiling(view: &View) -> bool {
    view.halves == 30
        && view.alim == 300 * FOOT
        && !view.descends
        && view.side == Sense::Down
        && view.first.down[LEVEL] == FOOT
        && view.first.up[POSITIVE] == 216 * FOOT
        && !view.climbs
}

// Each sees the other reported a foot higher than it is. One is at its ceiling and may not climb. The other is below
// its ceiling and may.
#[test]
fn separates_two_near_the_ground(rt: HostRuntime) -> Result<(), Fail> {
    let own = low(0x40_0A01, 0, 1_099)?;
    let other = low(0x40_0B02, 12_000, 1_100)?;
    let met = meeting(rt.alloc(), 17, own, other, 200)?;
    assert!(rt; is_from_the_ceiling(&view_in(&met, 0, 1, 16)?));
    assert!(rt; view_in(&met, 1, 0, 16)?.climbs);
    Ok(())
}

// A height above ground, and whether own aircraft is high enough to descend, and to increase a descent.
type Height = (i32, bool, bool);

const HEIGHTS: [Height; 4] = [
    (1_099, false, false),
    (1_100, true, false),
    (1_549, true, false),
    (1_550, true, true),
];

fn descends(met: &Encounter, height: Height) -> Result<bool, Fail> {
    let (_, descends, descends_faster) = height;
    let view = view_in(met, 0, 1, 16)?;
    Ok(view.descends == descends && view.descends_faster == descends_faster)
}

fn descends_at(alloc: Global, height: Height) -> Result<bool, Fail> {
    let own = aircraft(0x40_0A01, 0, height.0)?;
    let other = aircraft(0x40_0B02, 12_000, height.0)?;
    let met = meeting(alloc, 17, own, other, 200)?;
    descends(&met, height)
}

#[test]
fn descends_from_a_height(rt: HostRuntime) -> Result<(), Fail> {
    for place in 0..HEIGHTS.len() {
        assert!(rt; descends_at(rt.alloc(), HEIGHTS[place])?, "{place}");
    }
    Ok(())
}
