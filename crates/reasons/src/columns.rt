// The text of a reason, column by column.
ghost use Rattle.std.specs.Prelude.{◌≡◌, ◌+◌, ◌≤◌, ◌∷◌, [], length, replicate};
ghost use Rattle.acas_text.specs.declared.line.TheConstants.{LINE_BYTES};
ghost use Rattle.acas_text.specs.Fields.{if_any, mark, with_point};
ghost use Rattle.advisory_report.specs.Cells.{cell_text, strength_digit};
ghost use Rattle.advisory_report.specs.declared.cells.TheConstants.{CELL_BYTES};
ghost use Rattle.reasons.specs.Columns.{altitude_text, continued_columns, decided_columns, named_columns, names_end, names_line, own_columns, position_column, projected_columns, range_text, rank_text, reason_line, reply_columns, rule_columns, rule_text, seconds_text, tau_text, test_columns, tested_columns, texts, texts_if_any, told_columns, tracked_columns};
ghost use Rattle.reasons.specs.Fields.{nothing, with_field, with_fields};

use crate::reason::Reason;
use crate::rules::Rule;
use crate::shown::{Best, Continued, Projected, Tested};
use crate::told::Told;
use acas_base::{Cell, Profile, Rank};
use acas_lines::fixed_line;
use acas_text::Line;
use advisory_report::{CELL_BYTES, add_cell, complement_text, sense_text, strength_digit};
use flight::Meas;
use test_seconds::TestSeconds;

/// Adds a field with nothing in it for each of these commas.
fn add_nothing(line: &mut Line, commas: &str)
    requires commas { commas.now ≡ replicate (length commas.now) 44 }
    requires room { length line.old + length commas.now ≤ LINE_BYTES }
    ensures added { line.new ≡ with_fields line.old (nothing (length commas.now)) }
    ensures longer { length line.new ≡ length line.old + length commas.now }
{
    line.text(commas);
}

fn rank_text(rank: Rank) -> &'static str
    ensures text { result.now ≡ rank_text rank }
    ensures short { length result.now ≤ 6 }
{
    match rank {
        Rank::First => "first",
        Rank::Second => "second",
        Rank::Free => "free",
    }
}

fn rule_text(rule: Rule) -> &'static str
    ensures text { result.now ≡ rule_text rule }
    ensures short { length result.now ≤ 19 }
{
    match rule {
        Rule::Untested => "untested",
        Rule::Starts => "starts",
        Rule::StartsAsTold => "starts-as-told",
        Rule::Traffic => "traffic",
        Rule::Quiet => "quiet",
        Rule::EndsBelowLevel => "ends-below-level",
        Rule::EndsWithoutThreat => "ends-without-threat",
        Rule::Obeys => "obeys",
        Rule::Reverses => "reverses",
        Rule::Strengthens => "strengthens",
        Rule::Keeps => "keeps",
        Rule::Weakens => "weakens",
        Rule::Capped => "capped",
    }
}

// Makes the beginning of a line: when and who.
fn set_named(line: &mut Line, reason: &Reason)
    ensures added { line.new ≡ with_fields (position_column.text reason.now) (texts named_columns reason.now) }
    ensures short { length line.new ≤ 37 }
{
    line.clear();
    line.u32(reason.position);
    line.u16_field(reason.cycle);
    line.address_field(reason.own.value());
    line.address_field(reason.other.value());
    line.text_field(rank_text(reason.seen.rank));
}

// Adds what was measured of the other aircraft.
fn add_reply(line: &mut Line, reply: &Option<Meas>)
    requires { length line.old + 23 ≤ LINE_BYTES }
    ensures added { line.new ≡ with_fields line.old (texts_if_any reply_columns reply.now) }
    ensures short { length line.new ≤ length line.old + 23 }
{
    match reply {
        None => add_nothing(line, ",,"),
        Some(meas) => {
            line.u32_field(meas.range);
            line.i32_field(meas.alt);
        }
    }
}

// Adds what own aircraft measures of itself.
fn add_own(line: &mut Line, reason: &Reason)
    requires { length line.old + 32 ≤ LINE_BYTES }
    ensures added { line.new ≡ with_fields line.old (texts own_columns reason.now) }
    ensures short { length line.new ≤ length line.old + 32 }
{
    let seen = &reason.seen;
    line.i32_field(seen.altitude);
    line.i32_field(seen.height);
    line.u16_field(u16::from(seen.level));
    line.mark_field(seen.climbs);
}

// Adds what is tracked.
fn add_tracked(line: &mut Line, tested: &Tested)
    requires { length line.old + 90 ≤ LINE_BYTES }
    ensures added { line.new ≡ with_fields line.old (texts tracked_columns tested.now) }
    ensures short { length line.new ≤ length line.old + 90 }
{
    line.tenths_field(tested.range);
    line.tenths_field(tested.range_rate);
    line.tenths_field(tested.height);
    line.tenths_field(tested.height_rate);
    line.tenths_field(tested.own_rate);
}

// Adds a number of seconds, where there is one.
fn add_seconds(line: &mut Line, seconds: Option<u32>)
    requires { length line.old + 11 ≤ LINE_BYTES }
    ensures added { line.new ≡ with_field line.old (seconds_text seconds) }
    ensures short { length line.new ≤ length line.old + 11 }
{
    match seconds {
        None => line.text(","),
        Some(seconds) => line.u32_field(seconds),
    }
}

// Adds the seconds of both tests of a resolution advisory, where own aircraft resolves.
fn add_resolution_seconds(line: &mut Line, ra: &Option<TestSeconds>)
    requires { length line.old + 22 ≤ LINE_BYTES }
    ensures added { line.new ≡ with_fields line.old (if_any range_text ra.now ∷ if_any altitude_text ra.now ∷ []) }
    ensures short { length line.new ≤ length line.old + 22 }
{
    match ra {
        None => add_nothing(line, ",,"),
        Some(ra) => {
            add_seconds(line, ra.range);
            add_seconds(line, ra.altitude);
        }
    }
}

// Adds the tau of a resolution advisory, where own aircraft resolves.
fn add_resolution_tau(line: &mut Line, ra: &Option<TestSeconds>)
    requires { length line.old + 6 ≤ LINE_BYTES }
    ensures added { line.new ≡ with_field line.old (if_any tau_text ra.now) }
    ensures short { length line.new ≤ length line.old + 6 }
{
    match ra {
        None => line.text(","),
        Some(ra) => line.u16_field(ra.tau),
    }
}

// Adds what the tests need, and whether they hold.
fn add_tests(line: &mut Line, tested: &Tested)
    requires { length line.old + 60 ≤ LINE_BYTES }
    ensures added { line.new ≡ with_fields line.old (texts test_columns tested.now) }
    ensures short { length line.new ≤ length line.old + 60 }
{
    add_seconds(line, tested.ta.range);
    add_seconds(line, tested.ta.altitude);
    add_resolution_seconds(line, &tested.ra);
    line.u16_field(tested.ta.tau);
    add_resolution_tau(line, &tested.ra);
    line.mark_field(tested.traffic);
    line.mark_field(tested.threat);
}

// Adds both, where the pair is tested.
fn add_tested(line: &mut Line, tested: &Option<Tested>)
    requires { length line.old + 150 ≤ LINE_BYTES }
    ensures added { line.new ≡ with_fields line.old (texts_if_any tested_columns tested.now) }
    ensures short { length line.new ≤ length line.old + 150 }
{
    match tested {
        None => add_nothing(line, ",,,,,,,,,,,,,"),
        Some(tested) => {
            add_tracked(line, tested);
            add_tests(line, tested);
        }
    }
}

// Adds the strongest strength of a sense, and what it gives.
fn add_best(line: &mut Line, best: &Best)
    requires { length line.old + 20 ≤ LINE_BYTES }
    ensures added { line.new ≡ with_fields line.old (strength_digit best.now.strength ∷ with_point best.now.separation ∷ []) }
    ensures short { length line.new ≤ length line.old + 20 }
{
    line.text_field(strength_digit(best.strength));
    line.tenths_field(best.separation);
}

fn add_projection(line: &mut Line, projected: &Projected)
    requires { length line.old + 62 ≤ LINE_BYTES }
    ensures added { line.new ≡ with_fields line.old (texts projected_columns projected.now) }
    ensures short { length line.new ≤ length line.old + 62 }
{
    line.u16_field(projected.halves);
    line.u16_field(projected.alim);
    line.text_field(sense_text(projected.side));
    add_best(line, &projected.up);
    add_best(line, &projected.down);
    line.text_field(sense_text(projected.chosen));
}

// Adds what the senses would give, where own aircraft resolves besides.
fn add_projected(line: &mut Line, projected: &Option<Projected>)
    requires { length line.old + 62 ≤ LINE_BYTES }
    ensures added { line.new ≡ with_fields line.old (texts_if_any projected_columns projected.now) }
    ensures short { length line.new ≤ length line.old + 62 }
{
    match projected {
        None => add_nothing(line, ",,,,,,,,"),
        Some(projected) => add_projection(line, projected),
    }
}

fn add_continuation(line: &mut Line, continued: &Continued)
    requires { length line.old + 60 ≤ LINE_BYTES }
    ensures added { line.new ≡ with_fields line.old (texts continued_columns continued.now) }
    ensures short { length line.new ≤ length line.old + 60 }
{
    line.mark_field(continued.fresh);
    line.text_field(strength_digit(continued.need));
    line.tenths_field(continued.separation);
    line.tenths_field(continued.same_later);
    line.tenths_field(continued.other_later);
    line.mark_field(continued.has_alim);
}

// Adds what an advisory may go on with, where there was one besides.
fn add_continued(line: &mut Line, continued: &Option<Continued>)
    requires { length line.old + 60 ≤ LINE_BYTES }
    ensures added { line.new ≡ with_fields line.old (texts_if_any continued_columns continued.now) }
    ensures short { length line.new ≤ length line.old + 60 }
{
    match continued {
        None => add_nothing(line, ",,,,,,"),
        Some(continued) => add_continuation(line, continued),
    }
}

// Adds what own aircraft was told.
fn add_told(line: &mut Line, told: &Option<Told>)
    requires { length line.old + 34 ≤ LINE_BYTES }
    ensures added { line.new ≡ with_fields line.old (texts_if_any told_columns told.now) }
    ensures short { length line.new ≤ length line.old + 34 }
{
    match told {
        None => add_nothing(line, ",,,,"),
        Some(told) => {
            line.text_field(complement_text(told.complement));
            line.u32_field(told.sent_at);
            line.u32_field(told.taken_at);
            line.u16_field(told.commits_since);
        }
    }
}

// Adds a field with a cell.
fn add_cell_field(line: &mut Line, cell: &Cell)
    requires { length line.old + 1 + CELL_BYTES ≤ LINE_BYTES }
    ensures added { line.new ≡ with_field line.old (cell_text cell.now) }
    ensures short { length line.new ≤ length line.old + 1 + CELL_BYTES }
{
    line.text(",");
    add_cell(line, cell);
}

// Adds what was decided.
fn add_decided(line: &mut Line, reason: &Reason)
    requires { length line.old + 24 ≤ LINE_BYTES }
    ensures added { line.new ≡ with_fields line.old (texts decided_columns reason.now) }
    ensures short { length line.new ≤ length line.old + 24 }
{
    add_cell_field(line, &reason.before);
    add_cell_field(line, &reason.cell);
}

// Adds by which rule, in profile 1.
fn add_rule(line: &mut Line, profile: Profile, reason: &Reason)
    requires { length line.old + 20 ≤ LINE_BYTES }
    ensures added { line.new ≡ with_fields line.old (texts (rule_columns profile) reason.now) }
    ensures short { length line.new ≤ length line.old + 20 }
{
    match profile {
        Profile::One => line.text_field(rule_text(reason.rule)),
        Profile::Two => {}
    }
}

/// Makes the line of a reason.
pub(crate) fn set_line(line: &mut Line, profile: Profile, reason: &Reason)
    ensures { line.new ≡ reason_line profile reason.now }
{
    set_named(line, reason);
    add_reply(line, &reason.seen.reply);
    add_own(line, reason);
    add_tested(line, &reason.seen.tested);
    add_projected(line, &reason.seen.projected);
    add_continued(line, &reason.continued);
    add_told(line, &reason.told);
    add_decided(line, reason);
    add_rule(line, profile, reason);
    line.text("\n");
}

// The end of the line with the names of the columns.
fn names_end(profile: Profile) -> &'static str
    ensures { result.now ≡ names_end profile }
{
    match profile {
        Profile::One => ",rule\n",
        Profile::Two => "\n",
    }
}

/// The line with the names of the columns.
#[tactic(auto, unfolding(crate::specs::Columns::names_line))]
pub(crate) fn names_line(profile: Profile) -> Line
    ensures { result ≡ names_line profile }
{
    let mut line = fixed_line(
        "position,cycle,own,other,rank,measured_range_ft,reported_alt_ft,own_alt_ft,agl_ft,level,climbs,range_ft,range_rate_fps,alt_diff_ft,alt_diff_rate_fpm,own_rate_fpm,ta_range_s,ta_alt_s,ra_range_s,ra_alt_s,ta_tau_s,ra_tau_s,traffic,threat,halves,alim_ft,side,up_strength,up_ft,down_strength,down_ft,chosen,fresh,need,need_ft,same_later_ft,other_later_ft,has_alim,complement,sent_at,taken_at,commits_since,before,cell",
    );
    line.text(names_end(profile));
    line
}
