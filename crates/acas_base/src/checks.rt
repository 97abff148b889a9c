// Whether the parts of an encounter are in their ranges and orders.
ghost use Rattle.std.specs.Prelude.{◌≡◌, ◌≢◌, ◌↔◌, ◌<◌, ◌≤◌, ℕ, List, Option, [], All, AllPairs, IsTrue, IfSome, None};
ghost use Rattle.acas_base.specs.Labels.{is_label};
ghost use Rattle.acas_base.specs.declared.setting.Profile.{Profile};
ghost use Rattle.acas_base.specs.Encounter.{AreApart, AreCalledApart, AreCopies, AreCrafts, AreLabels, AreRates, IsAltitude, IsCopy, IsCraft, IsElevation, IsGains, IsPair, IsPlain, IsRun, IsVersion, most_crafts};
ghost use Rattle.acas_base.specs.Ranges.{IsBetween, IsCycle};

use crate::records::are_records;
use crate::{
    Address, Call, CopyPlan, CraftSpec, Gains, Leg, LinkPlan, Profile, Setting, most_crafts,
    some_active,
};

fn is_between(low: i32, value: i32, high: i32) -> bool
    ensures { IsTrue result ↔ IsBetween low high value }
{
    low <= value && value <= high
}

fn is_altitude(value: i32) -> bool
    ensures { IsTrue result ↔ IsAltitude value }
{
    is_between(-1_000, value, 60_000)
}

fn is_elevation(value: i32) -> bool
    ensures { IsTrue result ↔ IsElevation value }
{
    is_between(-1_000, value, 15_000)
}

fn is_version(value: u8) -> bool
    ensures { IsTrue result ↔ IsVersion value }
{
    1 <= value && value <= 3
}

pub(crate) fn is_cycle(value: u16) -> bool
    ensures { IsTrue result ↔ IsCycle value }
{
    1 <= value && value <= 600
}

fn are_gains(gains: Gains) -> bool
    ensures { IsTrue result ↔ IsGains gains }
{
    gains.alpha <= 1024 && gains.beta <= 1024
}

fn is_ceiling(ceiling: Option<i32>) -> bool
    ensures { IsTrue result ↔ IfSome ceiling IsAltitude }
{
    match ceiling {
        Some(value) => is_altitude(value),
        None => true,
    }
}

fn is_craft(craft: &CraftSpec) -> bool
    ensures { IsTrue result ↔ IsCraft craft.now }
{
    // For the proof: an address is in its range by its type.
    let _address = craft.address.value();
    is_between(-1_000_000, craft.x, 1_000_000)
        && is_between(-1_000_000, craft.y, 1_000_000)
        && is_altitude(craft.alt)
        && is_ceiling(craft.ceiling)
}

pub(crate) fn are_rates(leg: &Leg) -> bool
    ensures { IsTrue result ↔ AreRates leg.now }
{
    is_between(-2_000, leg.vx, 2_000)
        && is_between(-2_000, leg.vy, 2_000)
        && is_between(-10_000, leg.vz, 10_000)
}

pub(crate) fn is_pair(count: usize, a: u8, b: u8) -> bool
    ensures { IsTrue result ↔ IsPair count a b }
{
    usize::from(a) < count && usize::from(b) < count && a != b
}

// A plan that isn't used is zero.
fn is_copy(place: u8, copies: u8, plan: CopyPlan) -> bool
    ensures { IsTrue result ↔ IsCopy place copies plan }
{
    if place < copies {
        plan.hold <= 60 && plan.mask.count_ones() <= 3
    } else {
        plan == CopyPlan { hold: 0, mask: 0 }
    }
}

pub(crate) fn are_copies(copies: u8, first: CopyPlan, second: CopyPlan, third: CopyPlan) -> bool
    ensures { IsTrue result ↔ AreCopies copies first second third }
{
    copies <= 3
        && is_copy(0, copies, first)
        && is_copy(1, copies, second)
        && is_copy(2, copies, third)
}

fn are_few(version: u8, count: usize) -> bool
    ensures { IsTrue result ↔ ((1 ≤ count) × (count ≤ most_crafts version)) }
{
    1 <= count && count <= most_crafts(version)
}

// Whether none of these aircraft has this address.
fn is_new(earlier: &[CraftSpec], address: Address) -> bool
    ensures { IsTrue result ↔ All (λ craft. craft.address ≢ address) earlier.now }
{
    earlier.iter().all(|craft| craft.address != address)
}

// Whether each two of the aircraft have different addresses.
fn are_apart(crafts: &[CraftSpec]) -> bool
    ensures { IsTrue result ↔ AllPairs AreApart crafts.now }
{
    for i in 0..crafts.len() {
        if !is_new(&crafts[..i], crafts[i].address) {
            return false;
        }
    }
    true
}

fn are_in_range(crafts: &[CraftSpec]) -> bool
    ensures { IsTrue result ↔ All IsCraft crafts.now }
{
    crafts.iter().all(|craft| is_craft(craft))
}

pub(crate) fn are_crafts(version: u8, crafts: &[CraftSpec]) -> bool
    ensures { IsTrue result ↔ AreCrafts version crafts.now }
{
    are_few(version, crafts.len())
        && are_in_range(crafts)
        && are_apart(crafts)
        && some_active(crafts)
}

fn is_run(version: u8, cycles: u16, elevation: i32) -> bool
    ensures { IsTrue result ↔ IsRun version cycles elevation }
{
    is_version(version) && is_cycle(cycles) && is_elevation(elevation)
}

// Whether the numbers of a setting are in their ranges.
pub(crate) fn is_setting(setting: &Setting) -> bool
    ensures { IsTrue result ↔ (IsRun setting.now.version setting.now.cycles setting.now.elevation × IsGains setting.now.range × IsGains setting.now.altitude) }
{
    is_run(setting.version, setting.cycles, setting.elevation)
        && are_gains(setting.range)
        && are_gains(setting.altitude)
}

fn have_no_ceiling(crafts: &[CraftSpec]) -> bool
    ensures { IsTrue result ↔ All (λ craft. craft.ceiling ≡ None) crafts.now }
{
    crafts.iter().all(|craft| craft.ceiling.is_none())
}

fn is_plain(crafts: &[CraftSpec], plans: &[LinkPlan]) -> bool
    ensures { IsTrue result ↔ IsPlain crafts.now plans.now }
{
    have_no_ceiling(crafts) && plans.is_empty()
}

// Whether a setting and call signs are those of a format without them.
fn is_unlabelled(setting: &Setting, calls: &[Call]) -> bool
    ensures { IsTrue result ↔ ((setting.now.profile ≡ Profile.One) × (setting.now.name ≡ None) × (setting.now.clock ≡ None) × (calls.now ≡ [])) }
{
    setting.profile == Profile::One
        && setting.name.is_none()
        && setting.clock.is_none()
        && calls.is_empty()
}

// Whether a text of the format can say these parts.
pub(crate) fn suits_format(
    setting: &Setting,
    calls: &[Call],
    crafts: &[CraftSpec],
    plans: &[LinkPlan],
) -> bool
    ensures { IsTrue result ↔ ((setting.now.version ≡ 1 → IsPlain crafts.now plans.now) × (setting.now.version ≤ 2 → (setting.now.profile ≡ Profile.One) × (setting.now.name ≡ None) × (setting.now.clock ≡ None) × (calls.now ≡ []))) }
{
    (setting.version != 1 || is_plain(crafts, plans))
        && (2 < setting.version || is_unlabelled(setting, calls))
}

fn is_clock(clock: Option<u32>) -> bool
    ensures { IsTrue result ↔ IfSome clock (λ second. second < 86400) }
{
    match clock {
        Some(second) => second < 86_400,
        None => true,
    }
}

// Whether none of these is this call sign.
fn is_new_sign(earlier: &[Call], sign: &[u8]) -> bool
    ensures { IsTrue result ↔ All (λ call. call.sign ≢ sign.now) earlier.now }
{
    earlier.iter().all(|call| call.sign.bytes() != sign)
}

// Whether no two aircraft have one call sign.
fn are_called_apart(calls: &[Call]) -> bool
    ensures { IsTrue result ↔ AllPairs AreCalledApart calls.now }
{
    for i in 0..calls.len() {
        if !is_new_sign(&calls[..i], calls[i].sign.bytes()) {
            return false;
        }
    }
    true
}

// Whether these are the labels of an encounter with `count` aircraft. By its type a name is a label.
pub(crate) fn are_labels(count: usize, setting: &Setting, calls: &[Call]) -> bool
    ensures { IsTrue result ↔ AreLabels count setting.now.name setting.now.clock calls.now }
{
    // For the proof: a name is a label by its type.
    if let Some(name) = &setting.name {
        let _bytes = name.bytes();
    }
    is_clock(setting.clock) && are_records(count, calls) && are_called_apart(calls)
}
