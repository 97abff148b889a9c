// Expected values: computed by a program in another language. These encounters are long; shorter ones stand as cases.
use acas_base::{Address, CopyPlan, CraftSpec, Encounter, Fate, Kind, Leg, Miss, Profile};
use enc_gen::make;
use flight::inside;
use std::alloc::Global;
use std::test::Fail;

const PLAIN: CopyPlan = CopyPlan { hold: 0, mask: 0 };

// What is asked for, how many records each list has, and the last record of each.
#[derive(Clone, Copy)]
struct Row {
    number: u32,
    crafts: u8,
    cycles: u16,
    profile: Profile,
    version: u8,
    address: u32,
    kind: Kind,
    place: (i32, i32, i32),
    legs: usize,
    leg: Leg,
    misses: usize,
    miss: Option<Miss>,
    fates: usize,
    fate: Fate,
}

const ROWS: &[Row] = &[
    Row {
        number: 7,
        crafts: 8,
        cycles: 600,
        profile: Profile::One,
        version: 1,
        address: 0x40_0807,
        kind: Kind::Ra,
        place: (4_000, -16_000, 17_400),
        legs: 24,
        leg: Leg {
            craft: 7,
            from: 401,
            vx: -40,
            vy: 160,
            vz: -600,
        },
        misses: 14,
        miss: Some(Miss {
            own: 7,
            target: 6,
            from: 566,
            to: 572,
        }),
        fates: 10_137,
        fate: Fate {
            sender: 7,
            receiver: 6,
            number: 599,
            copies: 2,
            first: PLAIN,
            second: PLAIN,
            third: PLAIN,
        },
    },
    Row {
        number: 7,
        crafts: 16,
        cycles: 600,
        profile: Profile::One,
        version: 2,
        address: 0x40_100F,
        kind: Kind::Ta,
        place: (-1_000, 58_000, 13_400),
        legs: 48,
        leg: Leg {
            craft: 15,
            from: 401,
            vx: 10,
            vy: -580,
            vz: 400,
        },
        misses: 51,
        miss: Some(Miss {
            own: 15,
            target: 13,
            from: 134,
            to: 136,
        }),
        fates: 31_804,
        fate: Fate {
            sender: 14,
            receiver: 12,
            number: 600,
            copies: 0,
            first: PLAIN,
            second: PLAIN,
            third: PLAIN,
        },
    },
];

fn last_craft(row: &Row) -> Result<CraftSpec, Fail> {
    let (x, y, alt) = row.place;
    Ok(CraftSpec {
        address: Address::new(row.address).ok_or("no address")?,
        kind: row.kind,
        x,
        y,
        alt,
        ceiling: None,
    })
}

// Whether each list of an encounter has so many records, and these last ones.
fn is_row(made: &Encounter, row: &Row, last: &CraftSpec) -> bool {
    made.version() == row.version
        && made.crafts().len() == usize::from(row.crafts)
        && made.crafts().last() == Some(last)
        && made.legs().len() == row.legs
        && made.legs().last() == Some(&row.leg)
        && made.misses().len() == row.misses
        && made.misses().last().copied() == row.miss
        && made.fates().len() == row.fates
        && made.fates().last() == Some(&row.fate)
        && inside(made)
}

fn is_made(alloc: Global, row: &Row) -> Result<bool, Fail> {
    let last = last_craft(row)?;
    let crafts = row.crafts.min(16).max(1);
    let cycles = row.cycles.min(600).max(1);
    let made = make(alloc, row.number, crafts, cycles, row.profile)?;
    Ok(is_row(&made, row, &last))
}

// The place of the first row of which another encounter is made.
fn first_other(alloc: Global, rows: &[Row]) -> Result<Option<usize>, Fail> {
    for place in 0..rows.len() {
        if !is_made(alloc, &rows[place])? {
            return Ok(Some(place));
        }
    }
    Ok(None)
}

#[test]
fn makes_encounters(rt: HostRuntime) -> Result<(), Fail> {
    assert_eq!(rt; first_other(rt.alloc(), ROWS)?, None);
    Ok(())
}
