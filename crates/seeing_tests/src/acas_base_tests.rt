// Expected values: by hand from "Records", "Order" and "Limits" in docs/FORMATS.md.
use acas_base::{
    Call, CopyPlan, CraftSpec, Encounter, Fate, Gains, Label, Leg, LinkPlan, Profile, Setting,
    is_call_sign,
};
use std::alloc::Global;
use std::test::Fail;
use test_encounters::{PLAIN, aircraft, fate, leg, miss};

const GAINS: Gains = Gains {
    alpha: 683,
    beta: 256,
};

// Aircraft of rising addresses.
fn crafts(alloc: Global, count: u32) -> Result<Vec<CraftSpec>, Fail> {
    let mut crafts = Vec::new(alloc);
    for own in 0..count.min(100) {
        crafts.push(aircraft(0x40_0A01 + own, 0, 35_000)?)?;
    }
    Ok(crafts)
}

// A setting of a format, without labels.
fn setting(version: u8, cycles: u16) -> Setting {
    Setting {
        version,
        profile: Profile::One,
        cycles,
        elevation: 0,
        range: GAINS,
        altitude: GAINS,
        name: None,
        clock: None,
    }
}

// An encounter of so many aircraft of format 1 with these fates.
fn make(alloc: Global, count: u32, fates: &[Fate]) -> Result<Option<Encounter>, Fail> {
    Ok(Encounter::make(
        setting(1, 31),
        Vec::new(alloc),
        crafts(alloc, count)?,
        [leg(0, 1, 760, 0)].to_vec(alloc)?,
        Vec::new(alloc),
        Vec::new(alloc),
        fates.to_vec(alloc)?,
    ))
}

// A type that may be sent to other threads, and shared with them.
fn may_be_shared<T: Send + Sync>(_: &T) {}

// A leg of each of sixteen aircraft in each of 600 cycles.
fn most_legs(alloc: Global) -> Result<Vec<Leg>, Fail> {
    let mut legs = Vec::new(alloc);
    for place in 0..9_600u16 {
        legs.push(leg((place / 600) as u8, place % 600 + 1, 0, 0))?;
    }
    Ok(legs)
}

// The most aircraft, cycles and legs.
fn longest(alloc: Global) -> Result<Option<Encounter>, Fail> {
    Ok(Encounter::make(
        setting(2, 600),
        Vec::new(alloc),
        crafts(alloc, 16)?,
        most_legs(alloc)?,
        Vec::new(alloc),
        Vec::new(alloc),
        Vec::new(alloc),
    ))
}

// Whether the longest encounter is made, and a copy of it has the same.
fn is_copied(alloc: Global) -> Result<bool, Fail> {
    let encounter = longest(alloc)?.ok_or("refused")?;
    may_be_shared(&encounter);
    has_copy(alloc, &encounter)
}

fn has_copy(alloc: Global, encounter: &Encounter) -> Result<bool, Fail> {
    let copy = encounter.copy(alloc)?;
    Ok(copy.cycles() == 600 && copy.crafts() == encounter.crafts() && copy.legs().len() == 9_600)
}

// Whether an encounter of two aircraft is made with these fates.
fn is_made(alloc: Global, first: Fate, second: Fate) -> Result<bool, Fail> {
    Ok(make(alloc, 2, &[first, second])?.is_some())
}

#[test]
fn makes_what_is_in_range(rt: HostRuntime) -> Result<(), Fail> {
    assert!(rt; is_copied(rt.alloc())?);
    assert!(rt; make(rt.alloc(), 9, &[])?.is_none());
    Ok(())
}

#[test]
fn makes_nothing_of_wrong_fates(rt: HostRuntime) -> Result<(), Fail> {
    let alloc = rt.alloc();
    let held = CopyPlan { hold: 3, mask: 0 };
    let spoilt = CopyPlan {
        hold: 0,
        mask: 0x0F,
    };
    let lost = fate(2, 0, PLAIN, PLAIN);
    assert!(rt; is_made(alloc, fate(1, 1, held, PLAIN), lost)?);
    // Out of order; a copy that isn't used; a mask of four bits.
    assert!(rt; !is_made(alloc, fate(3, 1, held, PLAIN), lost)?);
    assert!(rt; !is_made(alloc, fate(1, 0, held, PLAIN), lost)?);
    assert!(rt; !is_made(alloc, fate(1, 1, spoilt, PLAIN), lost)?);
    Ok(())
}

// An encounter of format 2. A link loses all its messages but the second one, which is held back.
fn with_link(alloc: Global, held: CopyPlan) -> Result<Encounter, Fail> {
    let plan = LinkPlan {
        sender: 0,
        receiver: 1,
        copies: 0,
        first: PLAIN,
        second: PLAIN,
        third: PLAIN,
    };
    let made = Encounter::make(
        setting(2, 31),
        Vec::new(alloc),
        crafts(alloc, 16)?,
        Vec::new(alloc),
        [miss(0, 1, 1, 2)].to_vec(alloc)?,
        [plan].to_vec(alloc)?,
        [fate(2, 1, held, PLAIN)].to_vec(alloc)?,
    );
    Ok(made.ok_or("refused")?)
}

fn has_fates(enc: &Encounter, held: CopyPlan) -> bool {
    enc.fate(0, 1, 1) == fate(1, 0, PLAIN, PLAIN)
        && enc.fate(0, 1, 2) == fate(2, 1, held, PLAIN)
        && enc.fate(1, 0, 1).copies == 1
}

#[test]
fn tells_the_fate_of_a_message(rt: HostRuntime) -> Result<(), Fail> {
    let held = CopyPlan { hold: 3, mask: 0 };
    assert!(rt; has_fates(&with_link(rt.alloc(), held)?, held));
    Ok(())
}

// Whether an encounter of one aircraft is made with this setting and these call signs.
fn is_made_with(alloc: Global, setting: Setting, calls: &[Call]) -> Result<bool, Fail> {
    let made = Encounter::make(
        setting,
        calls.to_vec(alloc)?,
        crafts(alloc, 1)?,
        Vec::new(alloc),
        Vec::new(alloc),
        Vec::new(alloc),
        Vec::new(alloc),
    );
    Ok(made.is_some())
}

// Neither format 1 nor format 2 has profile 2, a name, a time of day or a call sign.
#[test]
fn makes_nothing_with_labels(rt: HostRuntime) -> Result<(), Fail> {
    let label = Label::new(b"BTC2937").ok_or("no label")?;
    let call = Call {
        craft: 0,
        sign: label,
    };
    for version in [1, 2] {
        let plain = setting(version, 31);
        let mut later = plain;
        later.profile = Profile::Two;
        let mut named = plain;
        named.name = Some(label);
        let mut timed = plain;
        timed.clock = Some(0);
        assert!(rt; is_made_with(rt.alloc(), plain, &[])?);
        assert!(rt; !is_made_with(rt.alloc(), later, &[])?);
        assert!(rt; !is_made_with(rt.alloc(), named, &[])?);
        assert!(rt; !is_made_with(rt.alloc(), timed, &[])?);
        assert!(rt; !is_made_with(rt.alloc(), plain, &[call])?);
    }
    Ok(())
}

// A text, and whether it is taken.
type Text = (&'static [u8], bool);

const LABELS: &[Text] = &[
    (b" ", true),
    (b"~", true),
    (&[b'A'; 60], true),
    (b"", false),
    (&[b'A'; 61], false),
    (b"A,B", false),
    (b"\x1F", false),
    (b"\x7F", false),
];

// The place of the first text that is wrongly taken as a label, or wrongly refused.
fn first_label(rows: &[Text]) -> Option<usize> {
    for place in 0..rows.len() {
        let (text, want) = rows[place];
        if Label::new(text).is_some() != want {
            return Some(place);
        }
    }
    None
}

#[test]
fn takes_labels(rt: HostRuntime) {
    assert_eq!(rt; first_label(LABELS), None);
}

const CALL_SIGNS: &[Text] = &[
    (b"BTC2937", true),
    (b"A", true),
    (b"A-B-C-D1", true),
    (b"", false),
    (b"ABCDEFGHI", false),
    (b"Btc2937", false),
    (b"400A01", false),
    (b"400A0G", true),
    (b"400A011", true),
];

// The place of the first text that is wrongly taken as a call sign, or wrongly refused.
fn first_call_sign(rows: &[Text]) -> Option<usize> {
    for place in 0..rows.len() {
        let (text, want) = rows[place];
        if is_call_sign(text) != want {
            return Some(place);
        }
    }
    None
}

#[test]
fn takes_call_signs(rt: HostRuntime) {
    assert_eq!(rt; first_call_sign(CALL_SIGNS), None);
}
