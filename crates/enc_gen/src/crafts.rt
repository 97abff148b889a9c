// The aircraft, and how they fly.
ghost use Rattle.std.specs.Prelude.{◌≡◌, ◌∷◌, ◌++◌, ◌<◌, ◌≤◌, [], All, IfOk, OnOk, filter, length, map, nat_le, neg_ℤ, pos};
ghost use Rattle.std.specs.List.{flat_map};
ghost use Rattle.acas_base.specs.Ranges.{IsBetween, IsWithin};
ghost use Rattle.acas_base.specs.declared.craft.Leg.{Leg};
ghost use Rattle.enc_gen.specs.Crafts.{address_of, altitude, backwards, climb, coordinate, draft, inwards, IsDraft, kind_of, legs_of, spec_of, speed};
ghost use Rattle.enc_gen.specs.Draws.{draw};
ghost use Rattle.enc_gen.specs.Making.{Makes, each, each_of};
ghost use Rattle.enc_gen.specs.Passing.{aside, moved, placed};

use crate::draws::Draws;
use acas_base::{Address, CraftSpec, Kind, Leg, Profile};
use std::alloc::{AllocError, Global};

// What is drawn for an aircraft: its kind, its place in cycle 1 (ft), and its first vertical rate (ft/min).
#[derive(Clone, Copy)]
pub(crate) struct Draft {
    craft: u8,
    kind: Kind,
    x: i32,
    y: i32,
    alt: i32,
    climb: i32,
}

// The kind of an aircraft, by the number that is drawn for it.
fn kind_of(craft: u8, number: u32) -> Kind
    ensures { result ≡ kind_of craft number }
{
    if craft == 0 {
        return Kind::Ra;
    }
    match number {
        0 => Kind::Xpdr,
        1 => Kind::Ta,
        _ => Kind::Ra,
    }
}

fn draw_coordinate(draws: &mut Draws) -> i32
    ensures value { result ≡ coordinate (draw 121 draws.old).number }
    ensures near { IsWithin 60000 result }
    ensures state { draws.new ≡ (draw 121 draws.old).state }
{
    (draws.draw(121) as i32 - 60) * 1_000
}

fn draw_altitude(draws: &mut Draws) -> i32
    ensures value { result ≡ altitude (draw 300 draws.old).number }
    ensures near { IsBetween (pos 5000) (pos 34900) result }
    ensures state { draws.new ≡ (draw 300 draws.old).state }
{
    5_000 + 100 * draws.draw(300) as i32
}

fn draw_climb(draws: &mut Draws) -> i32
    ensures value { result ≡ climb (draw 21 draws.old).number }
    ensures gentle { IsWithin 1000 result }
    ensures state { draws.new ≡ (draw 21 draws.old).state }
{
    (draws.draw(21) as i32 - 10) * 100
}

fn draw_kind(draws: &mut Draws, craft: u8) -> Kind
    ensures value { result ≡ kind_of craft (draw 8 draws.old).number }
    ensures state { draws.new ≡ (draw 8 draws.old).state }
{
    kind_of(craft, draws.draw(8))
}

// The five draws for an aircraft.
#[tactic(auto, unfolding(crate::specs::Crafts::draft))]
fn draw_draft(draws: &mut Draws, craft: u8) -> Draft
    ensures value { result ∷ [] ≡ (draft craft draws.old).items }
    ensures near { IsDraft result }
    ensures state { draws.new ≡ (draft craft draws.old).state }
{
    let kind = draw_kind(draws, craft);
    let x = draw_coordinate(draws);
    let y = draw_coordinate(draws);
    let alt = draw_altitude(draws);
    let climb = draw_climb(draws);
    Draft {
        craft,
        kind,
        x,
        y,
        alt,
        climb,
    }
}

// What is drawn for `count` aircraft.
pub(crate) fn draw_drafts(
    alloc: Global,
    draws: &mut Draws,
    count: u8,
) -> Result<Vec<Draft>, AllocError>
    ensures made { IfOk result (λ drafts. Makes (each draft count) draws.old [] draws.new drafts.items) }
    ensures near { IfOk result (λ drafts. All IsDraft drafts.items) }
    ensures long { IfOk result (λ drafts. length drafts.items ≡ count) }
{
    let mut drafts = Vec::with_capacity(alloc, usize::from(count))?;
    for craft in 0..count {
        drafts.push(draw_draft(draws, craft))?;
    }
    Ok(drafts)
}

fn address_of(craft: u8) -> Address
    ensures { result ≡ address_of craft }
{
    match Address::new(4_194_560 + 257 * u32::from(craft)) {
        Some(address) => address,
        None => unreachable!(),
    }
}

fn spec_of(draft: &Draft) -> CraftSpec
    ensures { result ≡ spec_of draft.now }
{
    CraftSpec {
        address: address_of(draft.craft),
        kind: draft.kind,
        x: draft.x,
        y: draft.y,
        alt: draft.alt,
        ceiling: None,
    }
}

// The aircraft.
pub(crate) fn crafts_of(alloc: Global, drafts: &[Draft]) -> Result<Vec<CraftSpec>, AllocError>
    ensures made { IfOk result (λ crafts. crafts.items ≡ map spec_of drafts.now) }
    ensures long { IfOk result (λ crafts. length crafts.items ≡ length drafts.now) }
{
    let mut crafts = Vec::with_capacity(alloc, drafts.len())?;
    for draft in drafts {
        crafts.push(spec_of(draft))?;
    }
    Ok(crafts)
}

// An aircraft that begins further along, by so many ft, by the number that is drawn for the way.
fn moved(way: u32, by: u16, spec: CraftSpec) -> CraftSpec
    requires x { IsWithin 60000 spec.x }
    requires y { IsWithin 60000 spec.y }
    ensures { result ≡ moved way by spec }
{
    let by = i32::from(by);
    match way {
        0 => CraftSpec {
            x: spec.x + by,
            ..spec
        },
        1 => CraftSpec {
            y: spec.y + by,
            ..spec
        },
        2 => CraftSpec {
            x: spec.x - by,
            ..spec
        },
        _ => CraftSpec {
            y: spec.y - by,
            ..spec
        },
    }
}

// Aircraft 0 as it was drawn, and another one moved aside by two draws.
#[tactic(auto, unfolding(crate::specs::Passing::aside))]
fn aside(draws: &mut Draws, draft: &Draft) -> CraftSpec
    requires { IsDraft draft.now }
    ensures value { result ∷ [] ≡ (aside draft.now draws.old).items }
    ensures state { draws.new ≡ (aside draft.now draws.old).state }
{
    let spec = spec_of(draft);
    if draft.craft == 0 {
        return spec;
    }
    let by = draws.draw(24_305) as u16;
    moved(draws.draw(4), by, spec)
}

// The aircraft, each moved aside.
fn all_aside(
    alloc: Global,
    draws: &mut Draws,
    drafts: &[Draft],
) -> Result<Vec<CraftSpec>, AllocError>
    requires { All IsDraft drafts.now }
    ensures { IfOk result (λ crafts. crafts.items ≡ (each_of aside drafts.now draws.old).items) }
{
    let mut crafts = Vec::with_capacity(alloc, drafts.len())?;
    for draft in drafts {
        crafts.push(aside(draws, draft))?;
    }
    Ok(crafts)
}

// The aircraft, where they begin.
#[tactic(auto, unfolding(crate::specs::Passing::placed))]
pub(crate) fn placed(
    alloc: Global,
    draws: &mut Draws,
    drafts: &[Draft],
    profile: Profile,
) -> Result<Vec<CraftSpec>, AllocError>
    requires { All IsDraft drafts.now }
    ensures { IfOk result (λ crafts. crafts.items ≡ placed profile drafts.now draws.old) }
{
    match profile {
        Profile::One => crafts_of(alloc, drafts),
        Profile::Two => all_aside(alloc, draws, drafts),
    }
}

// The speed in ft/s that leads from a coordinate to zero in 100 s.
fn speed(distance: i32) -> i32
    requires { IsWithin 60000 distance }
    ensures value { result ≡ speed distance }
    ensures bound { IsWithin 1000 result }
{
    -(distance / 100)
}

fn opposite(rate: i32) -> i32
    requires { IsWithin 1000 rate }
    ensures { result ≡ neg_ℤ rate }
{
    -rate
}

// A leg that leads to the z axis in 100 s, and then as far past it.
fn inwards(draft: &Draft, from: u16) -> Leg
    requires { IsDraft draft.now }
    ensures { result ≡ inwards draft.now from }
{
    Leg {
        craft: draft.craft,
        from,
        vx: speed(draft.x),
        vy: speed(draft.y),
        vz: draft.climb,
    }
}

// A leg with the opposite of an aircraft's first rates.
fn backwards(draft: &Draft, from: u16) -> Leg
    requires { IsDraft draft.now }
    ensures { result ≡ backwards draft.now from }
{
    Leg {
        craft: draft.craft,
        from,
        vx: opposite(speed(draft.x)),
        vy: opposite(speed(draft.y)),
        vz: opposite(draft.climb),
    }
}

// Adds a leg, where it begins within the run.
fn add_leg(legs: &mut Vec<Leg>, cycles: u16, leg: Leg) -> Result<(), AllocError>
    ensures { OnOk result (legs.new.items ≡ legs.old.items ++ filter (λ (leg : Leg). nat_le leg.from cycles) (leg ∷ [])) }
{
    if leg.from <= cycles {
        legs.push(leg)?;
    }
    Ok(())
}

// Adds the legs of an aircraft.
#[tactic(auto, unfolding(crate::specs::Crafts::legs_of))]
fn add_legs(legs: &mut Vec<Leg>, cycles: u16, draft: &Draft) -> Result<(), AllocError>
    requires { IsDraft draft.now }
    ensures { OnOk result (legs.new.items ≡ legs.old.items ++ legs_of cycles draft.now) }
{
    add_leg(legs, cycles, inwards(draft, 1))?;
    add_leg(legs, cycles, backwards(draft, 201))?;
    add_leg(legs, cycles, inwards(draft, 401))?;
    Ok(())
}

// The legs of all aircraft.
pub(crate) fn legs_of(alloc: Global, drafts: &[Draft], cycles: u16) -> Result<Vec<Leg>, AllocError>
    requires { All IsDraft drafts.now }
    ensures { IfOk result (λ legs. legs.items ≡ flat_map (legs_of cycles) drafts.now) }
{
    let mut legs = Vec::with_capacity(alloc, 3 * drafts.len())?;
    for draft in drafts {
        add_legs(&mut legs, cycles, draft)?;
    }
    Ok(legs)
}
