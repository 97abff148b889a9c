// An encounter whose aircraft fly along recorded tracks.
ghost use Rattle.std.specs.Prelude.{◌≡◌, ◌↔◌, ◌<◌, ◌≤◌, ℕ, List, [], All, IfErr, IfOk, IfSome, IsNone, IsTrue, true, false, length, map, slice_index_or};
ghost use Rattle.acas_base.specs.Ranges.{IsCycle};
ghost use Rattle.acas_base.specs.declared.TheConstants.{CRAFTS};
ghost use Rattle.flight.specs.Inside.{IsInBox};
ghost use Rattle.leg_rows.specs.Rows.{AreFlyable, IsFirstExcess};
ghost use Rattle.track_file.specs.Along.{CanBeFlown, FliesAlong, IsFaultOf, IsFast, craft_at, rounded_row, rounded_rows};
ghost use Rattle.track_file.specs.Track.{IsTrack, covers};
ghost use Rattle.track_file.specs.declared.along.TrackFault.{TrackFault};

use crate::track::{Point, covers, is_track, rounded};
use acas_base::Encounter;
use flight::Place;
use leg_rows::{first_excess, fly_through};
use std::alloc::{AllocError, Global};

/// What is wrong with the tracks of an encounter's aircraft.
#[derive(Clone, Copy, Debug, PartialEq, Eq)]
pub enum TrackFault {
    /// The track of an aircraft doesn't cover the run: it has no point at cycle 1 or before it, or none at the last
    /// cycle or after it.
    Cover { craft: u8 },
    /// From a cycle to the next an aircraft would have to fly faster than a leg can.
    Rate { craft: u8, cycle: u16 },
}

impl TrackFault {
    /// The index of the aircraft at fault.
    pub fn craft(self) -> u8
        ensures { result ≡ craft_at self }
    {
        match self {
            TrackFault::Cover { craft } | TrackFault::Rate { craft, .. } => craft,
        }
    }
}

/// The rounded places of a track in the cycles of a run. The error says that memory was wanting.
pub fn rounded_places(
    alloc: Global,
    points: &[Point],
    cycles: u16,
) -> Result<Vec<Place>, AllocError>
    requires track { IsTrack points.now }
    requires cycles { IsCycle cycles }
    requires covered { covers points.now cycles ≡ true }
    ensures value { IfOk result (λ places. places.items ≡ rounded_row cycles points.now) }
    ensures boxed { IfOk result (λ places. All IsInBox places.items) }
{
    let mut places = Vec::with_capacity(alloc, usize::from(cycles))?;
    for second in 0..cycles {
        places.push(rounded(points, second + 1))?;
    }
    Ok(places)
}

/// Whether each of these lists of points is a track.
pub fn are_tracks(tracks: &[Vec<Point>]) -> bool
    ensures { IsTrue result ↔ All (λ points. IsTrack points.items) tracks.now }
{
    for craft in 0..tracks.len() {
        if !is_track(tracks[craft].as_slice()) {
            return false;
        }
    }
    true
}

// The rounded places of all tracks.
fn rows_of(alloc: Global, tracks: &[Vec<Point>], cycles: u16) -> Result<Vec<Vec<Place>>, AllocError>
    requires tracks { All (λ points. IsTrack points.items) tracks.now }
    requires cycles { IsCycle cycles }
    requires covered { All (λ points. covers points.items cycles ≡ true) tracks.now }
    ensures value { IfOk result (λ rows. map (λ row. row.items) rows.items ≡ rounded_rows cycles (map (λ points. points.items) tracks.now)) }
    ensures boxed { IfOk result (λ rows. All (λ row. All IsInBox row.items) rows.items) }
{
    let mut rows = Vec::with_capacity(alloc, tracks.len())?;
    for craft in 0..tracks.len() {
        rows.push(rounded_places(alloc, tracks[craft].as_slice(), cycles)?)?;
    }
    Ok(rows)
}

// The first aircraft whose track doesn't cover the run.
fn first_uncovered(tracks: &[Vec<Point>], cycles: u16) -> Option<TrackFault>
    requires few { length tracks.now ≤ CRAFTS }
    requires cycles { IsCycle cycles }
    ensures none { IsNone result → All (λ points. covers points.items cycles ≡ true) tracks.now }
    ensures first { IfSome result (IsFaultOf cycles (map (λ points. points.items) tracks.now)) }
{
    for craft in 0..tracks.len() {
        if !covers(tracks[craft].as_slice(), cycles) {
            return Some(TrackFault::Cover { craft: craft as u8 });
        }
    }
    None
}

// The first aircraft that a leg can't lead from one of its places to the next, with the cycle.
fn first_fast(rows: &[Vec<Place>]) -> Option<TrackFault>
    requires crafts { length rows.now ≤ CRAFTS }
    requires few { All (λ row. length row.items ≤ 600) rows.now }
    requires boxed { All (λ row. All IsInBox row.items) rows.now }
    ensures none { IsNone result → All (λ row. AreFlyable row.items) rows.now }
    ensures first { IfSome result (IsFast (map (λ row. row.items) rows.now)) }
{
    for craft in 0..rows.len() {
        if let Some(cycle) = first_excess(rows[craft].as_slice()) {
            return Some(TrackFault::Rate {
                craft: craft as u8,
                cycle,
            });
        }
    }
    None
}

/// The encounter that is like another one, but whose aircraft fly along these tracks, one for each aircraft by index.
/// In each cycle of the run each aircraft is at the place that [`rounded`] gives. It doesn't matter where the aircraft
/// of the other encounter are. `Ok(Err(..))` says what is wrong with the tracks: of all faults the first, a track that
/// doesn't cover the run before a rate. The outer error says that memory was wanting.
///
/// By the law of `leg_rows` it is the only such encounter in which each leg is needed.
pub fn fly_along(
    alloc: Global,
    encounter: &Encounter,
    tracks: &[Vec<Point>],
) -> Result<Result<Encounter, TrackFault>, AllocError>
    requires count { length tracks.now ≡ length encounter.now.crafts }
    requires tracks { All (λ points. IsTrack points.items) tracks.now }
    ensures fault { IfOk result (λ made. IfErr made (IsFaultOf encounter.now.cycles (map (λ points. points.items) tracks.now))) }
    ensures flyable { IfOk result (λ made. IfOk made (λ e. CanBeFlown encounter.now.cycles (map (λ points. points.items) tracks.now))) }
    ensures flies { IfOk result (λ made. IfOk made (λ e. FliesAlong e encounter.now (map (λ points. points.items) tracks.now))) }
{
    let cycles = encounter.cycles();
    if let Some(fault) = first_uncovered(tracks, cycles) {
        return Ok(Err(fault));
    }
    let rows = rows_of(alloc, tracks, cycles)?;
    if let Some(fault) = first_fast(rows.as_slice()) {
        return Ok(Err(fault));
    }
    let made = fly_through(alloc, encounter, rows.as_slice())?;
    Ok(Ok(made))
}
