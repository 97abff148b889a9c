// What the tests of several tools share.
ghost use Rattle.std.specs.Prelude.{IfOk};
ghost use Rattle.flight.specs.Inside.{IsInside};

use acas_base::{CraftSpec, Encounter, Fate, Kind, Leg, Miss};
use acas_io::MemSink;
use air_journal::AirState;
use resume::fill;
use std::alloc::{AllocError, Global};
use std::test::Fail;
use test_encounters::{PLAIN, aircraft, encounter};

/// Two aircraft that fly towards each other. The first one begins at 35,000 ft.
#[derive(Clone, Copy)]
pub struct Meeting {
    pub cycles: u16,
    /// The gain of all tracks, where they haven't the usual ones. With 1024 each track follows its last two
    /// measurements.
    pub gain: Option<u16>,
    pub kinds: (Kind, Kind),
    /// Where the second one begins.
    pub alt: i32,
    pub legs: &'static [Leg],
}

/// The first one flies to the east, and the second one to the west.
pub const EAST: Leg = Leg {
    craft: 0,
    from: 1,
    vx: 760,
    vy: 0,
    vz: 0,
};

pub const WEST: Leg = Leg {
    craft: 1,
    vx: -760,
    ..EAST
};

/// At one altitude.
pub const LEVEL: Meeting = Meeting {
    cycles: 31,
    gain: None,
    kinds: (Kind::Ra, Kind::Ra),
    alt: 35_000,
    legs: &[EAST, WEST],
};

/// Of examples/reversal.enc: the second one climbs from cycle 27 on.
pub const REVERSAL: Meeting = Meeting {
    gain: Some(1024),
    legs: &[
        EAST,
        WEST,
        Leg {
            from: 27,
            vz: 6_000,
            ..WEST
        },
    ],
    ..LEVEL
};

/// A message of the first one to the second one, without copies.
pub const LOST: Fate = Fate {
    sender: 0,
    receiver: 1,
    number: 1,
    copies: 0,
    first: PLAIN,
    second: PLAIN,
    third: PLAIN,
};

/// The encounter of a meeting, with these missed replies, and with what becomes of its messages.
pub fn encounter_of(
    alloc: Global,
    meeting: &Meeting,
    misses: &[Miss],
    fates: &[Fate],
) -> Result<Encounter, Fail>
    ensures { IfOk result IsInside }
{
    let (one, other) = meeting.kinds;
    let crafts = [
        CraftSpec {
            kind: one,
            ..aircraft(0x40_0A01, 0, 35_000)?
        },
        CraftSpec {
            kind: other,
            ..aircraft(0x40_0B02, 91_200, meeting.alt)?
        },
    ];
    encounter(
        alloc,
        meeting.cycles,
        meeting.gain,
        &crafts,
        meeting.legs,
        misses,
        fates,
    )
}

/// The serial run of an encounter.
pub fn played(alloc: Global, enc: &Encounter) -> Result<AirState, AllocError>
    requires { IsInside enc.now }
{
    let mut state = AirState::new(alloc, enc)?;
    fill(&mut state, enc);
    Ok(state)
}

/// The serial run of a meeting.
pub fn met(
    alloc: Global,
    shape: &Meeting,
    misses: &[Miss],
    fates: &[Fate],
) -> Result<AirState, Fail> {
    let enc = encounter_of(alloc, shape, misses, fates)?;
    Ok(played(alloc, &enc)?)
}

/// A sink with room for each text here, which takes 10,000 bytes at once. These writes fail.
pub fn sink(alloc: Global, fails: &[u64]) -> Result<MemSink, AllocError> {
    let fails = fails.to_vec(alloc)?;
    Ok(MemSink::new(Vec::with_capacity(alloc, 80_000)?, 10_000, fails))
}
