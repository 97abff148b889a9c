// The canonical text of an encounter.
ghost use Rattle.std.specs.Prelude.{◌≡◌, [], List, ℕ, map};
ghost use Rattle.std.specs.List.{flat_map};
ghost use Rattle.acas_base.specs.declared.craft.CraftSpec.{CraftSpec};
ghost use Rattle.acas_io.specs.Stream.{Puts};
ghost use Rattle.enc_file.specs.Canonical.{canonical_text};
ghost use Rattle.enc_file.specs.Spelling.{climb_records, clock_records, line_of, name_records, profile_records};

use crate::spelling::{
    climb_line, clock_line, end_line, gains_line, header_line, name_line, profile_line, run_line,
    spell_call, spell_craft, spell_fate, spell_leg, spell_miss, spell_plan,
};
use acas_base::{Call, CraftSpec, Encounter, Fate, Leg, LinkPlan, Miss};
use acas_io::{Failed, Sink};
use acas_lines::{LineSink, Text, write_text};
use acas_text::Line;

// A part of an encounter that has a line of its own.
trait Spelled {
    ghost spelling: { List CraftSpec → Self → List ℕ };

    /// Makes its line.
    fn spell(&self, crafts: &[CraftSpec], line: &mut Line)
        requires { line.old ≡ [] }
        ensures { line.new ≡ spelling crafts.now self.now };
}

impl Spelled for CraftSpec {
    ghost use Rattle.enc_file.specs.Spelling.{craft_record, line_of};

    ghost spelling = { λ _ craft. line_of (craft_record craft) };

    fn spell(&self, _: &[CraftSpec], line: &mut Line) {
        spell_craft(line, self)
    }
}

impl Spelled for Call {
    ghost use Rattle.enc_file.specs.Spelling.{call_record, line_of};

    ghost spelling = { λ crafts call. line_of (call_record crafts call) };

    fn spell(&self, crafts: &[CraftSpec], line: &mut Line) {
        spell_call(line, crafts, self)
    }
}

impl Spelled for Leg {
    ghost use Rattle.enc_file.specs.Spelling.{leg_record, line_of};

    ghost spelling = { λ crafts leg. line_of (leg_record crafts leg) };

    fn spell(&self, crafts: &[CraftSpec], line: &mut Line) {
        spell_leg(line, crafts, self)
    }
}

impl Spelled for Miss {
    ghost use Rattle.enc_file.specs.Spelling.{miss_record, line_of};

    ghost spelling = { λ crafts miss. line_of (miss_record crafts miss) };

    fn spell(&self, crafts: &[CraftSpec], line: &mut Line) {
        spell_miss(line, crafts, self)
    }
}

impl Spelled for LinkPlan {
    ghost use Rattle.enc_file.specs.Spelling.{plan_record, line_of};

    ghost spelling = { λ crafts plan. line_of (plan_record crafts plan) };

    fn spell(&self, crafts: &[CraftSpec], line: &mut Line) {
        spell_plan(line, crafts, self)
    }
}

impl Spelled for Fate {
    ghost use Rattle.enc_file.specs.Spelling.{fate_record, line_of};

    ghost spelling = { λ crafts fate. line_of (fate_record crafts fate) };

    fn spell(&self, crafts: &[CraftSpec], line: &mut Line) {
        spell_fate(line, crafts, self)
    }
}

// Puts a line for each of some records.
fn put_each<T: Spelled, S: LineSink>(crafts: &[CraftSpec], records: &[T], sink: &mut S)
    ensures { S.took sink.old sink.new (map (T.spelling crafts.now) records.now) }
{
    let mut line = Line::new();
    for item in records {
        line.clear();
        item.spell(crafts, &mut line);
        sink.line(&line);
    }
}

// Puts the line of the profile, where the format has one.
fn put_profile<S: LineSink>(encounter: &Encounter, sink: &mut S)
    ensures { S.took sink.old sink.new (map line_of (profile_records encounter.now.version encounter.now.profile)) }
{
    if 3 <= encounter.version() {
        sink.line(&profile_line(encounter.profile()));
    }
}

// Puts the line of the name, if there is one.
fn put_name<S: LineSink>(encounter: &Encounter, sink: &mut S)
    ensures { S.took sink.old sink.new (map line_of (name_records encounter.now.name)) }
{
    if let Some(name) = encounter.name() {
        sink.line(&name_line(&name));
    }
}

// Puts the line of the time of day, if it is given.
fn put_clock<S: LineSink>(encounter: &Encounter, sink: &mut S)
    ensures { S.took sink.old sink.new (map line_of (clock_records encounter.now.clock)) }
{
    if let Some(second) = encounter.clock() {
        sink.line(&clock_line(second));
    }
}

// Puts a line for each aircraft that has a ceiling.
fn put_climbs<S: LineSink>(crafts: &[CraftSpec], sink: &mut S)
    ensures { S.took sink.old sink.new (map line_of (flat_map climb_records crafts.now)) }
{
    for craft in crafts {
        if let Some(limit) = craft.ceiling {
            sink.line(&climb_line(craft, limit));
        }
    }
}

/// The canonical text of an encounter: each record on a line of its own, in the order of the encounter's lists. The
/// call signs and then the ceilings stand after the aircraft.
#[derive(Drop)]
pub struct CanonicalText<'a>(pub &'a Encounter);

impl Text for CanonicalText<'_> {
    ghost use Rattle.enc_file.specs.Canonical.{canonical_lines};

    ghost lines = { λ t. canonical_lines t.0.now };

    fn put<S: LineSink>(&self, sink: &mut S) {
        let encounter = self.0;
        let crafts = encounter.crafts();
        sink.line(&header_line(encounter.version()));
        put_profile(encounter, sink);
        put_name(encounter, sink);
        put_clock(encounter, sink);
        sink.line(&run_line(encounter));
        sink.line(&gains_line(encounter.range_gains(), encounter.altitude_gains()));
        put_each(crafts, crafts, sink);
        put_each(crafts, encounter.calls(), sink);
        put_climbs(crafts, sink);
        put_each(crafts, encounter.legs(), sink);
        put_each(crafts, encounter.misses(), sink);
        put_each(crafts, encounter.plans(), sink);
        put_each(crafts, encounter.fates(), sink);
        sink.line(&end_line());
    }
}

/// Writes the canonical text of an encounter. It takes no memory.
///
/// `Failed` comes only where the sink's count of faults rose. Then a front of the text has been written.
pub fn write<K: Sink>(encounter: &Encounter, sink: &mut K) -> Result<(), Failed>
    ensures { Puts (K.written sink.old) (K.written sink.new) (K.faults sink.old) (K.faults sink.new) (canonical_text encounter.now) result }
{
    write_text(&CanonicalText(encounter), sink)
}
