// The runs of a sweep: encounters that are made from numbers, and played in threads.
ghost use Rattle.std.specs.Prelude.{◌≡◌, ◌≤◌, IfOk};
ghost use Rattle.std.specs.List.{AllZip};
ghost use Rattle.acas_base.specs.Ranges.{IsCycle};
ghost use Rattle.acas_base.specs.declared.TheConstants.{CRAFTS};
ghost use Rattle.acas_top.specs.Sweeping.{HasCounted, Sizes};
ghost use Rattle.sweep.specs.Numbers.{numbers};
ghost use Rattle.sweep.specs.Totals.{total};

use crate::counts::serial_counts;
use acas_base::Profile;
use enc_gen::make;
use std::alloc::{AllocError, Global};
use std::marker::Model;
use std::thread::Threads;
use sweep::{Counts, Job, run, total};

/// The job of a sweep: the serial run of the encounter that is made from a number.
#[derive(Drop)]
struct SerialRuns {
    alloc: Global,
    profile: Profile,
    crafts: u8,
    cycles: u16,
}

impl Model for SerialRuns {
    ghost use Rattle.std.specs.Prelude.{◌≤◌};
    ghost use Rattle.acas_base.specs.Ranges.{IsCycle};
    ghost use Rattle.acas_base.specs.declared.TheConstants.{CRAFTS};
    ghost use Rattle.acas_top.specs.Sweeping.{Sizes};

    ghost Value = { Sizes };

    ghost view = { λ a. record { profile = a.profile; crafts = a.crafts; cycles = a.cycles } };

    ghost invariant = { λ a. (1 ≤ a.crafts) × (a.crafts ≤ CRAFTS) × IsCycle a.cycles };
}

impl SerialRuns {
    fn new(alloc: Global, profile: Profile, crafts: u8, cycles: u16) -> SerialRuns
        requires some { 1 ≤ crafts }
        requires few { crafts ≤ CRAFTS }
        requires cycles { IsCycle cycles }
        ensures { result ≡ record { profile = profile; crafts = crafts; cycles = cycles } }
    {
        SerialRuns {
            alloc,
            profile,
            crafts,
            cycles,
        }
    }
}

impl Job for SerialRuns {
    ghost use Rattle.acas_top.specs.Sweeping.{HasCounted};

    type Given = Counts;

    ghost means = { HasCounted };

    fn one(&self, number: u32) -> Result<Counts, AllocError> {
        let encounter = make(self.alloc, number, self.crafts, self.cycles, self.profile)?;
        serial_counts(self.alloc, &encounter)
    }
}

/// What a sweep found: its first number, how many numbers it has, the counts of each in order, and their sums.
#[derive(Drop)]
pub(crate) struct Swept {
    pub(crate) first: u32,
    pub(crate) count: u16,
    pub(crate) list: Vec<Counts>,
    pub(crate) total: Counts,
}

/// Plays the encounters of `count` numbers, from `first` on.
pub(crate) fn sweep<R: Threads + Sync>(
    rt: &R,
    alloc: Global,
    profile: Profile,
    first: u32,
    count: u16,
    crafts: u8,
    cycles: u16,
) -> Result<Swept, AllocError>
    requires count { count ≤ 4096 }
    requires some { 1 ≤ crafts }
    requires few { crafts ≤ CRAFTS }
    requires cycles { IsCycle cycles }
    ensures first { IfOk result (λ swept. swept.first ≡ first) }
    ensures count { IfOk result (λ swept. swept.count ≡ count) }
    ensures list { IfOk result (λ swept. AllZip (HasCounted (record { profile = profile; crafts = crafts; cycles = cycles })) (numbers first count) swept.list.items) }
    ensures total { IfOk result (λ swept. swept.total ≡ total swept.list.items) }
{
    let job = SerialRuns::new(alloc, profile, crafts, cycles);
    let list = run(rt, alloc, first, u32::from(count), &job)?;
    let total = total(&list);
    Ok(Swept {
        first,
        count,
        list,
        total,
    })
}
