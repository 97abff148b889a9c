// Expected values: by hand from "The modelled response" in docs/FORMATS.md.
ghost use Rattle.std.specs.Prelude.{IfOk};
ghost use Rattle.flight.specs.Inside.{IsInside};

use crate::serial_runs::{EAST, LEVEL, Meeting, WEST, met, sink};
use acas_base::{Encounter, Leg};
use acas_io::{MemSink, Sink};
use air_journal::AirState;
use response::{flown, write};
use std::alloc::Global;
use std::test::Fail;
use test_encounters::{aircraft, encounter, leg};

// Three cycles of two aircraft. The first one sinks by a foot in a minute.
fn sinking(alloc: Global) -> Result<Encounter, Fail>
    ensures { IfOk result IsInside }
{
    let crafts = [
        aircraft(0x40_0A01, 0, 35_000)?,
        aircraft(0x40_0B02, 0, 35_300)?,
    ];
    encounter(alloc, 3, None, &crafts, &[leg(0, 1, 0, -1)], &[], &[])
}

// The altitude of an aircraft in a cycle of the run.
fn altitude(state: &AirState, craft: u8, cycle: u16) -> Option<i64> {
    let enc = state.enc();
    if usize::from(craft) >= enc.crafts().len() || cycle == 0 || cycle > enc.cycles() {
        return None;
    }
    Some(flown(state, craft, cycle))
}

// Whether a sink has these bytes, and so many writes failed.
fn has(sink: &MemSink, fails: u64, want: &[u8]) -> bool {
    sink.bytes() == want && sink.faults() == fails
}

// Whether the response is written so. Where these writes fail, a front of it is written.
fn is_written(alloc: Global, state: &AirState, fails: &[u64], want: &[u8]) -> Result<bool, Fail> {
    let mut sink = sink(alloc, fails)?;
    let written = write(state, &mut sink).is_ok();
    Ok(written == fails.is_empty() && has(&sink, fails.len() as u64, want))
}

// Whether all fly as planned, and there are no pairs. The altitude is 2048 * (60 * 35000 - 2) / 60, rounded down.
fn is_told(alloc: Global, state: &AirState) -> Result<bool, Fail> {
    Ok(
        altitude(state, 0, 3) == Some(71_679_931)
            && is_written(alloc, state, &[], b"response,0\n")?
            && is_written(alloc, state, &[1], b"")?,
    )
}

// The same of a journal without commits.
fn is_planned(alloc: Global) -> Result<bool, Fail> {
    let enc = sinking(alloc)?;
    let state = AirState::new(alloc, &enc)?;
    is_told(alloc, &state)
}

#[test]
fn flies_as_planned_where_nothing_is_advised(rt: HostRuntime) -> Result<(), Fail> {
    assert!(rt; is_planned(rt.alloc())?);
    Ok(())
}

// ---- with advice

// Two aircraft that fly towards each other at different altitudes.
const ABOVE: Meeting = Meeting {
    cycles: 40,
    gain: Some(1024),
    alt: 35_300,
    legs: &[EAST, WEST, Leg { from: 27, ..WEST }],
    ..LEVEL
};

// At one altitude. The second one climbs in the end.
const CLIMBING: Meeting = Meeting {
    alt: 35_000,
    legs: &[
        EAST,
        WEST,
        Leg {
            from: 27,
            vz: 6_000,
            ..WEST
        },
    ],
    ..ABOVE
};

// An aircraft, a cycle, and its altitude there.
type Altitude = (u8, u16, i64);

// At different altitudes the first one descends and the second one climbs from cycle 26 on. After five seconds the rate
// grows by 4 ft/s in each half-second, up to 25 ft/s.
const APART: &[Altitude] = &[
    (0, 31, 71_680_000),
    (0, 32, 71_667_712),
    (0, 34, 71_593_984),
    (0, 40, 71_286_784),
    (1, 31, 72_294_400),
    (1, 32, 72_306_688),
    (1, 34, 72_380_416),
    (1, 40, 72_687_616),
];

// At one altitude the first one descends for good from cycle 28 on. The second one, which turned three times, climbs
// from cycle 29 on. The rate grows after two seconds and a half, by 5.5 ft/s in each half-second. In cycle 33 the
// strength weakens, and the rate stays. From cycle 35 on it goes back at once, by 4 ft/s in each half-second, to 0 or
// to the planned 100 ft/s.
const TURNED: &[Altitude] = &[
    (0, 30, 71_680_000),
    (0, 31, 71_674_368),
    (0, 33, 71_598_080),
    (0, 35, 71_495_680),
    (0, 36, 71_456_768),
    (0, 40, 71_428_096),
    (1, 31, 71_680_000),
    (1, 32, 71_685_632),
    (1, 35, 71_781_376),
    (1, 40, 72_175_616),
];

// The place of the first row with another altitude.
fn first_elsewhere(state: &AirState, rows: &[Altitude]) -> Option<usize> {
    for place in 0..rows.len() {
        let (craft, cycle, there) = rows[place];
        if altitude(state, craft, cycle) != Some(there) {
            return Some(place);
        }
    }
    None
}

// The same of the serial run of a meeting.
fn first_missed(
    alloc: Global,
    meeting: &Meeting,
    rows: &[Altitude],
) -> Result<Option<usize>, Fail> {
    let state = met(alloc, meeting, &[], &[])?;
    Ok(first_elsewhere(&state, rows))
}

#[test]
fn flies_as_advised(rt: HostRuntime) -> Result<(), Fail> {
    assert_eq!(rt; first_missed(rt.alloc(), &ABOVE, APART)?, None);
    assert_eq!(rt; first_missed(rt.alloc(), &CLIMBING, TURNED)?, None);
    Ok(())
}
