// The lines of an encounter's canonical text.
ghost use Rattle.std.specs.Prelude.{◌≡◌, ◌+◌, ◌<◌, ◌≤◌, ◌^◌, ◌∷◌, ◌++◌, [], length, pos};
ghost use Rattle.std.specs.List.{flat_map};
ghost use Rattle.acas_base.specs.Encounter.{address_in};
ghost use Rattle.enc_file.specs.Spelling.{address, call_record, clock_record, copies_fields, copy_fields, craft_record, climb_record, end_record, fate_record, gains_record, header_record, kind_text, leg_record, line_of, miss_record, name_record, number, plan_record, profile_record, run_record};

use acas_base::{
    Call, CopyPlan, CraftSpec, Encounter, Fate, Gains, Kind, Label, Leg, LinkPlan, Miss, Profile,
};
use acas_lines::fixed_line;
use acas_text::{LINE_BYTES, Line};
use plot_axes::clock_text;

// The number of the address of the aircraft at an index. In an encounter each index of a record is that of an aircraft.
fn address_in(crafts: &[CraftSpec], index: u8) -> u32
    ensures value { result ≡ address_in crafts.now index }
    ensures fits { result < 2 ^ 24 }
{
    match crafts.get(usize::from(index)) {
        Some(craft) => craft.address.value(),
        None => 0,
    }
}

fn kind_name(kind: Kind) -> &'static str
    ensures name { result.now ≡ kind_text kind }
    ensures short { length result.now ≤ 4 }
{
    match kind {
        Kind::Ra => "RA",
        Kind::Ta => "TA",
        Kind::Xpdr => "XPDR",
    }
}

pub(crate) fn header_line(version: u8) -> Line
    ensures { result ≡ line_of (header_record version) }
{
    let mut line = Line::new();
    line.text("encounter");
    line.u16_field(u16::from(version));
    line.text("\n");
    line
}

// Adds a text that is given as its bytes.
fn add_bytes(line: &mut Line, bytes: &[u8])
    requires { length line.old + length bytes.now ≤ LINE_BYTES }
    ensures added { line.new ≡ line.old ++ bytes.now }
    ensures longer { length line.new ≡ length line.old + length bytes.now }
{
    for byte in bytes {
        line.byte(*byte);
    }
}

// The text of a label, which fits into a line.
fn text_of(label: &Label) -> &[u8]
    ensures value { result.now ≡ label.now }
    ensures short { length result.now ≤ 60 }
{
    label.bytes()
}

pub(crate) fn profile_line(profile: Profile) -> Line
    ensures { result ≡ line_of (profile_record profile) }
{
    match profile {
        Profile::One => fixed_line("profile,1\n"),
        Profile::Two => fixed_line("profile,2\n"),
    }
}

pub(crate) fn name_line(name: &Label) -> Line
    ensures { result ≡ line_of (name_record name.now) }
{
    let mut line = Line::new();
    line.text("name,");
    add_bytes(&mut line, text_of(name));
    line.text("\n");
    line
}

pub(crate) fn clock_line(second: u32) -> Line
    ensures { result ≡ line_of (clock_record second) }
{
    let mut line = Line::new();
    line.text("clock,");
    add_bytes(&mut line, clock_text(second).bytes());
    line.text("\n");
    line
}

pub(crate) fn run_line(encounter: &Encounter) -> Line
    ensures { result ≡ line_of (run_record encounter.now.cycles encounter.now.elevation) }
{
    let mut line = Line::new();
    line.text("run");
    line.u16_field(encounter.cycles());
    line.i32_field(encounter.ground());
    line.text("\n");
    line
}

pub(crate) fn gains_line(range: Gains, altitude: Gains) -> Line
    ensures { result ≡ line_of (gains_record range altitude) }
{
    let mut line = Line::new();
    line.text("gains");
    line.u16_field(range.alpha);
    line.u16_field(range.beta);
    line.u16_field(altitude.alpha);
    line.u16_field(altitude.beta);
    line.text("\n");
    line
}

pub(crate) fn spell_craft(line: &mut Line, craft: &CraftSpec)
    requires { line.old ≡ [] }
    ensures { line.new ≡ line_of (craft_record craft.now) }
{
    line.text("craft");
    line.address_field(craft.address.value());
    line.text_field(kind_name(craft.kind));
    line.i32_field(craft.x);
    line.i32_field(craft.y);
    line.i32_field(craft.alt);
    line.text("\n");
}

pub(crate) fn climb_line(craft: &CraftSpec, limit: i32) -> Line
    ensures { result ≡ line_of (climb_record craft.now.address limit) }
{
    let mut line = Line::new();
    line.text("climb");
    line.address_field(craft.address.value());
    line.i32_field(limit);
    line.text("\n");
    line
}

pub(crate) fn spell_call(line: &mut Line, crafts: &[CraftSpec], call: &Call)
    requires { line.old ≡ [] }
    ensures { line.new ≡ line_of (call_record crafts.now call.now) }
{
    line.text("call");
    line.address_field(address_in(crafts, call.craft));
    line.text(",");
    add_bytes(line, text_of(&call.sign));
    line.text("\n");
}

pub(crate) fn spell_leg(line: &mut Line, crafts: &[CraftSpec], leg: &Leg)
    requires { line.old ≡ [] }
    ensures { line.new ≡ line_of (leg_record crafts.now leg.now) }
{
    line.text("leg");
    line.address_field(address_in(crafts, leg.craft));
    line.u16_field(leg.from);
    line.i32_field(leg.vx);
    line.i32_field(leg.vy);
    line.i32_field(leg.vz);
    line.text("\n");
}

pub(crate) fn spell_miss(line: &mut Line, crafts: &[CraftSpec], miss: &Miss)
    requires { line.old ≡ [] }
    ensures { line.new ≡ line_of (miss_record crafts.now miss.now) }
{
    line.text("miss");
    line.address_field(address_in(crafts, miss.own));
    line.address_field(address_in(crafts, miss.target));
    line.u16_field(miss.from);
    line.u16_field(miss.to);
    line.text("\n");
}

// Adds the hold and the mask of a copy, in at most nine bytes.
fn add_copy(line: &mut Line, copy: CopyPlan)
    requires { length line.old + 9 ≤ LINE_BYTES }
    ensures added { line.new ≡ line.old ++ flat_map (λ field. 44 ∷ field) (copy_fields copy) }
    ensures short { length line.new ≤ length line.old + 9 }
{
    line.u16_field(u16::from(copy.hold));
    line.hex_field(u64::from(copy.mask), 2);
}

// Adds the holds and masks of `copies` copies, in at most 27 bytes.
fn add_copies(line: &mut Line, copies: u8, first: CopyPlan, second: CopyPlan, third: CopyPlan)
    requires { length line.old + 27 ≤ LINE_BYTES }
    ensures added { line.new ≡ line.old ++ flat_map (λ field. 44 ∷ field) (copies_fields copies first second third) }
    ensures short { length line.new ≤ length line.old + 27 }
{
    let plans = [first, second, third];
    let count = usize::from(copies).min(3);
    for copy in &plans[..count] {
        add_copy(line, *copy);
    }
}

pub(crate) fn spell_plan(line: &mut Line, crafts: &[CraftSpec], plan: &LinkPlan)
    requires { line.old ≡ [] }
    ensures { line.new ≡ line_of (plan_record crafts.now plan.now) }
{
    line.text("plan");
    line.address_field(address_in(crafts, plan.sender));
    line.address_field(address_in(crafts, plan.receiver));
    add_copies(line, plan.copies, plan.first, plan.second, plan.third);
    line.text("\n");
}

pub(crate) fn spell_fate(line: &mut Line, crafts: &[CraftSpec], fate: &Fate)
    requires { line.old ≡ [] }
    ensures { line.new ≡ line_of (fate_record crafts.now fate.now) }
{
    line.text("fate");
    line.address_field(address_in(crafts, fate.sender));
    line.address_field(address_in(crafts, fate.receiver));
    line.u16_field(fate.number);
    add_copies(line, fate.copies, fate.first, fate.second, fate.third);
    line.text("\n");
}

pub(crate) fn end_line() -> Line
    ensures { result ≡ line_of end_record }
{
    fixed_line("end\n")
}
