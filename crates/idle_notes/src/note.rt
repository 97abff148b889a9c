// What is noted of a record.
use acas_base::Address;

/// What has no effect in a record, or what its aircraft can't do. `last` is the last cycle of the run.
#[derive(Clone, Copy)]
pub(crate) enum Note {
    /// The leg begins in the last cycle or later.
    LateLeg {
        craft: Address,
        last: u16,
    },
    /// The leg has the rates of before.
    SameRates {
        craft: Address,
    },
    /// The miss is of an aircraft that isn't active.
    PassiveMiss {
        own: Address,
    },
    /// The miss begins after the last cycle.
    LateMiss {
        last: u16,
    },
    /// The ceiling is of an aircraft that isn't of kind RA.
    IdleClimb {
        craft: Address,
    },
    /// The plan is for two aircraft of which this one isn't of kind RA.
    IdlePlan {
        silent: Address,
    },
    /// The fate, and so many more of its pair, are for two aircraft of which this one isn't of kind RA.
    SilentFates {
        more: usize,
        silent: Address,
    },
    /// The fate, and so many more of its pair, are of messages that the journal doesn't send.
    UnsentFates {
        more: usize,
        sender: Address,
        receiver: Address,
        sent: u16,
    },
    /// The fate, and so many more of its pair, have numbers above that of the last cycle.
    LateFates {
        more: usize,
        sender: Address,
        receiver: Address,
        last: u16,
    },
    /// The aircraft, of kind RA, is too near the ground for resolution advisories in each cycle.
    LowAircraft {
        craft: Address,
    },
    /// The aircraft is active, and too far from all others in each cycle.
    LoneAircraft {
        craft: Address,
    },
    /// The aircraft is below the ground in this cycle, for the first time. Altitudes are in ft.
    BelowGround {
        craft: Address,
        cycle: u16,
        altitude: i32,
        ground: i32,
    },
}
