// Expected values: by hand. Between two points a track is straight; a place is the nearest whole foot, or 1/60 ft in
// altitude, the greater of two as near.
use acas_base::{Encounter, Leg};
use flight::{Place, position};
use std::alloc::Global;
use std::test::Fail;
use test_encounters::{aircraft, any_encounter};
use track_file::{Point, TrackFault, are_tracks, fly_along};

// What an aircraft flies along a track, in a run of some cycles: where it begins, its legs, or what is wrong.
#[derive(Drop)]
enum Flown {
    Legs {
        x: i32,
        y: i32,
        alt: i32,
        legs: Vec<Leg>,
    },
    Fault(TrackFault),
    NoTrack,
}

const fn at(ms: i32, x: i32, y: i32, z: i32) -> Point {
    Point { ms, x, y, z }
}

// The encounter of one aircraft along a track; none where the points are no track.
fn made_along(
    alloc: Global,
    cycles: u16,
    points: &[Point],
) -> Result<Option<Result<Encounter, TrackFault>>, Fail> {
    let crafts = [aircraft(0x40_0A01, 7, 7)?];
    let like = any_encounter(alloc, cycles, None, &crafts, &[], &[], &[])?;
    let mut tracks = Vec::new(alloc);
    tracks.push(Vec::from_slice(alloc, points)?)?;
    let tracks = tracks.as_slice();
    if !are_tracks(tracks) || tracks.len() != like.crafts().len() {
        return Ok(None);
    }
    Ok(Some(fly_along(alloc, &like, tracks)?))
}

// One aircraft along a track.
fn along(alloc: Global, cycles: u16, points: &[Point]) -> Result<Flown, Fail> {
    match made_along(alloc, cycles, points)? {
        Some(Ok(made)) => legs_of(alloc, &made),
        Some(Err(fault)) => Ok(Flown::Fault(fault)),
        None => Ok(Flown::NoTrack),
    }
}

fn legs_of(alloc: Global, made: &Encounter) -> Result<Flown, Fail> {
    let Some(craft) = made.crafts().get(0) else {
        return Ok(Flown::NoTrack);
    };
    Ok(Flown::Legs {
        x: craft.x,
        y: craft.y,
        alt: craft.alt,
        legs: Vec::from_slice(alloc, made.legs())?,
    })
}

fn leg(from: u16, vx: i32, vy: i32, vz: i32) -> Leg {
    Leg {
        craft: 0,
        from,
        vx,
        vy,
        vz,
    }
}

// Whether an aircraft begins at a place (ft) and flies these legs.
fn flies(
    alloc: Global,
    cycles: u16,
    points: &[Point],
    start: (i32, i32, i32),
    wanted: &[Leg],
) -> Result<bool, Fail> {
    match along(alloc, cycles, points)? {
        Flown::Legs { x, y, alt, legs } => { Ok((x, y, alt) == start && legs.as_slice() == wanted) }
        Flown::Fault(_) | Flown::NoTrack => Ok(false),
    }
}

fn fault(alloc: Global, cycles: u16, points: &[Point]) -> Result<Option<TrackFault>, Fail> {
    match along(alloc, cycles, points)? {
        Flown::Fault(fault) => Ok(Some(fault)),
        Flown::Legs { .. } | Flown::NoTrack => Ok(None),
    }
}

#[test]
fn one_leg_at_a_constant_rate(rt: HostRuntime) -> Result<(), Fail> {
    let points = [at(0, 100, -50, 600_000), at(10_000, 5_100, -1_050, 603_000)];
    let legs = [leg(1, 500, -100, 300)];
    assert!(rt; flies(rt.alloc(), 11, &points, (100, -50, 10_000), &legs)?);
    Ok(())
}

#[test]
fn a_point_between_two_cycles(rt: HostRuntime) -> Result<(), Fail> {
    let points = [at(-500, 0, 0, 600_000), at(2_500, 3, -3, 600_001)];
    // Ties in x and y. At cycle 1 these are 0.5 and -0.5, at cycle 2 1.5 and -1.5, at cycle 3 2.5 and -2.5. The
    // altitude is 600,000 and 1/6, 1/2 and 5/6.
    let legs = [leg(1, 1, -1, 1), leg(2, 1, -1, 0)];
    assert!(rt; flies(rt.alloc(), 3, &points, (1, 0, 10_000), &legs)?);
    // 0, 1.4, 2.8, 4.2, 5.6 and 7: the places are 0, 1, 3, 4, 6 and 7.
    let points = [at(0, 0, 0, 600_000), at(5_000, 7, 0, 600_000)];
    let legs = [
        leg(1, 1, 0, 0),
        leg(2, 2, 0, 0),
        leg(3, 1, 0, 0),
        leg(4, 2, 0, 0),
        leg(5, 1, 0, 0),
    ];
    assert!(rt; flies(rt.alloc(), 6, &points, (0, 0, 10_000), &legs)?);
    Ok(())
}

// 12 ft in 10 s are 1.2 ft/s: 0, 1.2, 2.4, 3.6, 4.8, 6, 7.2, 8.4, 9.6, 10.8, 12 are the places 0, 1, 2, 4, 5, 6, 7, 8,
// 10, 11, 12.
#[test]
fn ten_seconds_between_points(rt: HostRuntime) -> Result<(), Fail> {
    let points = [at(0, 0, 0, 600_000), at(10_000, 12, 0, 600_000)];
    let legs = [
        leg(1, 1, 0, 0),
        leg(3, 2, 0, 0),
        leg(4, 1, 0, 0),
        leg(8, 2, 0, 0),
        leg(9, 1, 0, 0),
    ];
    assert!(rt; flies(rt.alloc(), 11, &points, (0, 0, 10_000), &legs)?);
    Ok(())
}

// 1/60 ft in 3 s: the altitudes are 0, 1/3, 2/3 and 1 above the first, so 0, 0, 1 and 1.
#[test]
fn a_climb_at_a_rate_that_is_not_whole(rt: HostRuntime) -> Result<(), Fail> {
    let points = [at(0, 0, 0, 600_000), at(3_000, 0, 0, 600_001)];
    let legs = [leg(2, 0, 0, 1), leg(3, 0, 0, 0)];
    assert!(rt; flies(rt.alloc(), 4, &points, (0, 0, 10_000), &legs)?);
    Ok(())
}

#[test]
fn at_rest(rt: HostRuntime) -> Result<(), Fail> {
    let points = [at(-5_000, 3, 4, 60_000), at(9_000, 3, 4, 60_000)];
    assert!(rt; flies(rt.alloc(), 10, &points, (3, 4, 1_000), &[])?);
    // One point is enough for a run of one cycle.
    assert!(rt; flies(rt.alloc(), 1, &[at(0, 3, 4, 60_000)], (3, 4, 1_000), &[])?);
    Ok(())
}

// At cycle 1 the altitude is 10,000 ft and 29.96/60 ft. Rounded to 1/60 ft first it would be as near to 10,001 ft.
#[test]
fn the_first_altitude_is_rounded_once(rt: HostRuntime) -> Result<(), Fail> {
    let points = [
        at(-24, 0, 0, 600_029),
        at(1, 0, 0, 600_030),
        at(2_000, 0, 0, 600_030),
    ];
    let legs = [leg(1, 0, 0, 30), leg(2, 0, 0, 0)];
    assert!(rt; flies(rt.alloc(), 3, &points, (0, 0, 10_000), &legs)?);
    Ok(())
}

#[test]
fn faults(rt: HostRuntime) -> Result<(), Fail> {
    let alloc = rt.alloc();
    let whole = [at(0, 0, 0, 0), at(9_000, 9, 0, 0)];
    assert!(rt; flies(alloc, 10, &whole, (0, 0, 0), &[leg(1, 1, 0, 0)])?);
    let short = [at(0, 0, 0, 0), at(8_999, 9, 0, 0)];
    assert_eq!(rt;
        fault(alloc, 10, &short)?,
        Some(TrackFault::Cover { craft: 0 })
    );
    let late = [at(1, 0, 0, 0), at(9_000, 9, 0, 0)];
    assert_eq!(rt;
        fault(alloc, 10, &late)?,
        Some(TrackFault::Cover { craft: 0 })
    );
    let fast = [
        at(0, 0, 0, 0),
        at(1_000, 0, 0, 0),
        at(2_000, 2_000, -2_000, 10_000),
    ];
    assert!(rt; flies(alloc, 3, &fast, (0, 0, 0), &[leg(2, 2_000, -2_000, 10_000)])?);
    let faster = [at(0, 0, 0, 0), at(1_000, 0, 0, 0), at(2_000, 2_001, 0, 0)];
    assert_eq!(rt;
        fault(alloc, 3, &faster)?,
        Some(TrackFault::Rate { craft: 0, cycle: 2 })
    );
    Ok(())
}

// Where the aircraft along a track is in a cycle.
fn place_along(alloc: Global, points: &[Point], cycle: u16) -> Result<Option<Place>, Fail> {
    let Some(Ok(made)) = made_along(alloc, 3, points)? else {
        return Ok(None);
    };
    if made.crafts().is_empty() || cycle == 0 || cycle > 3 {
        return Ok(None);
    }
    Ok(Some(position(&made, 0, cycle)))
}

#[test]
fn passes_through_the_places(rt: HostRuntime) -> Result<(), Fail> {
    let points = [at(-500, 0, 0, 600_000), at(2_500, 3, -3, 600_001)];
    let second = Place {
        x: 2,
        y: -1,
        z: 600_001,
    };
    assert_eq!(rt; place_along(rt.alloc(), &points, 2)?, Some(second));
    let third = Place {
        x: 3,
        y: -2,
        z: 600_001,
    };
    assert_eq!(rt; place_along(rt.alloc(), &points, 3)?, Some(third));
    Ok(())
}
