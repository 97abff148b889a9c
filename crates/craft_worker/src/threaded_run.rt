// The threaded run.
ghost use Rattle.std.specs.Prelude.{◌≡◌, ◌≤◌, [], All, OnErr, OnOk, map, vec_capacity, vec_len};
ghost use Rattle.air_turn.specs.Seats.{AreAllSeats, owns_of};
ghost use Rattle.craft_worker.specs.Workers.{CompletesJournal, HasPlayed, IsReady, seat_of};

use crate::rounds::rounds;
use crate::worker::{Pause, Worker};
use acas_base::Encounter;
use air_turn::{Air, Seat};
use std::alloc::{AllocError, Global};
use std::sync::Wait;
use std::thread::Threads;

// Adds a worker for each seat.
fn add_workers(air: &Air, enc: &Encounter, seats: Vec<Seat>, workers: &mut Vec<Worker>)
    requires workers { workers.old.items ≡ [] }
    requires room { vec_len seats ≤ vec_capacity workers.old }
    requires encounter { air.now.encounter ≡ enc.now }
    requires all { AreAllSeats air.now seats.items }
    requires fronts { All (λ seat. seat.front ≡ []) seats.items }
    ensures seats { map seat_of workers.new.items ≡ seats.items }
    ensures ready { All (λ worker. IsReady air.now enc.now worker) workers.new.items }
{
    let mut waiting = seats.into_iter();
    while let Some(seat) = waiting.next() {
        workers.push_reserved(Worker::new(air, enc, seat));
    }
}

// Takes the seats back from the workers, in their order.
fn take_seats_back(workers: Vec<Worker>, seats: &mut Vec<Seat>)
    requires seats { seats.old.items ≡ [] }
    requires room { vec_len workers ≤ vec_capacity seats.old }
    ensures { seats.new.items ≡ map seat_of workers.items }
{
    for worker in workers {
        let Worker { seat, .. } = worker;
        seats.push_reserved(seat);
    }
}

/// Plays an encounter over a shared journal that is empty. Each active aircraft has a worker of its own, which sends
/// what the aircraft owes, takes what is due to it, and commits. All work at once, in rounds, until all are done.
/// Nobody chooses the order of their entries. `seats` has to be all seats of the shared journal. They come back in the
/// order in which they were.
///
/// The error says that memory was wanting. Then no call was made.
pub fn play<R: Threads + Wait + Sync, P: Pause + Sync>(
    rt: &R,
    alloc: Global,
    air: &Air,
    seats: &mut Vec<Seat>,
    enc: &Encounter,
    pause: &P,
) -> Result<(), AllocError>
    requires all { AreAllSeats air.now seats.old.items }
    requires encounter { air.now.encounter ≡ enc.now }
    requires fronts { All (λ seat. seat.front ≡ []) seats.old.items }
    ensures all { OnOk result (AreAllSeats air.now seats.new.items) }
    ensures order { OnOk result (owns_of seats.new.items ≡ owns_of seats.old.items) }
    ensures played { OnOk result (All HasPlayed seats.new.items) }
    ensures err { OnErr result (seats.new.items ≡ seats.old.items) }
{
    let mut back = Vec::with_capacity(alloc, seats.len())?;
    let mut workers = Vec::with_capacity(alloc, seats.len())?;
    let taken = std::mem::replace(seats, Vec::new(alloc));
    add_workers(air, enc, taken, &mut workers);
    rounds(rt, air, workers.as_mut_slice(), enc, pause);
    take_seats_back(workers, &mut back);
    *seats = back;
    Ok(())
}

/// A law: where all seats of a shared journal have played, the journal that they close with is complete.
pub fn played_law()
    ensures { CompletesJournal }
{}
