// Rounds of all workers.
ghost use Rattle.std.specs.Prelude.{◌≡◌, true, All};
ghost use Rattle.air_turn.specs.Seats.{SharedAir};
ghost use Rattle.craft_worker.specs.Workers.{EachSame, EachWorked, HasPlayed, IsReady};

use crate::worker::{Pause, Worker};
use acas_base::{CRAFTS, Encounter};
use air_turn::Air;
use std::sync::Wait;
use std::thread::{Threads, for_each_mut};

// One round: each worker works in a thread of its own, where a thread can be made. The list of workers is halved until
// one is left.
fn round<R: Threads + Wait + Sync, P: Pause + Sync>(
    rt: &R,
    air: &Air,
    workers: &mut [Worker],
    enc: &Encounter,
    pause: &P,
)
    requires { All (λ worker. IsReady air.now enc.now worker) workers.old }
    ensures { EachWorked air.now enc.now workers.old workers.new }
{
    for_each_mut(
        rt,
        workers,
        CRAFTS,
        &|_place, worker| worker.work(rt, air, enc, pause),
    );
}

fn all_done(workers: &[Worker]) -> bool
    ensures { result ≡ true → All (λ worker. worker.done ≡ true) workers.now }
{
    workers.iter().all(|worker| worker.done)
}

/// Makes rounds until all are done.
pub(crate) fn rounds<R: Threads + Wait + Sync, P: Pause + Sync>(
    rt: &R,
    air: &Air,
    workers: &mut [Worker],
    enc: &Encounter,
    pause: &P,
)
    requires { All (λ worker. IsReady air.now enc.now worker) workers.old }
    ensures same { EachSame workers.old workers.new }
    ensures played { All (λ worker. HasPlayed worker.seat) workers.new }
{
    for _round in rt.forever() {
        round(rt, air, workers, enc, pause);
        if all_done(workers) {
            return;
        }
    }
    unreachable!()
}
