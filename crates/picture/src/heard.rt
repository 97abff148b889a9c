// What the crews heard, as a list on the page.
ghost use Rattle.std.specs.Prelude.{◌≡◌, ◌+◌, ◌-◌, ◌*◌, ◌<◌, ◌≤◌, length};
ghost use Rattle.picture.specs.Gathered.{call_lines, line_in, lines_at, lines_in};
ghost use Rattle.picture.specs.Heard.{call_marks, call_title, heading_marks, heard_marks, line_marks, line_with, line_y, listed, more_text, quoted, rest_marks, said_text, sense_marks, shared_text, words_at, words_marks};
ghost use Rattle.svg_text.specs.declared.drawing.TheConstants.{LABEL_BYTES};

use crate::altitude::address_of;
use crate::bars::advised;
use crate::call::Call;
use crate::gathered::{CallLine, line_in};
use crate::shown::is_clear;
use crate::time::axis_of;
use acas_base::{Address, Encounter};
use acas_lines::fixed_line;
use acas_text::Line;
use advisory_report::{Composite, phrase, word};
use air_journal::AirState;
use labels::Labels;
use page_marks::{add_words, area_at, point_at, put_box, put_words};
use svg_text::{Anchor, Drawing, Weight};

/// How much of the page the list takes below its top.
pub(crate) const HEARD_HEIGHT: u32 = 6_600;

// The most lines.
const MOST_LINES: u32 = 22;

// ---- words

// A phrase in quotes.
#[tactic(auto, unfolding(crate::specs::Heard::quoted))]
fn quoted(phrase: &str) -> Line
    requires { length phrase.now ≤ 32 }
    ensures text { result ≡ quoted phrase.now }
    ensures short { length result ≤ 34 }
{
    let mut line = Line::new();
    line.text("\"");
    line.text(phrase);
    line.text("\"");
    line
}

// What a viewer shows of a call under the pointer.
#[tactic(auto, unfolding(crate::specs::Heard::call_title))]
fn call_title(address: Address, cycle: u16, shown: &Composite) -> Line
    ensures text { result ≡ call_title address cycle shown.now }
    ensures short { length result ≤ LABEL_BYTES }
{
    let mut line = Line::new();
    line.address(address.value());
    line.text(", cycle ");
    line.u16(cycle);
    line.text(", ");
    line.text(word(shown));
    line
}

#[tactic(auto, unfolding(crate::specs::Heard::more_text))]
fn more_text(count: u32) -> Line
    ensures text { result ≡ more_text count }
    ensures short { length result ≤ 19 }
{
    let mut line = Line::new();
    line.text("and ");
    line.u32(count);
    line.text(" more");
    line
}

// That a line stands for more calls than its own, where it does.
fn shared_text(calls: u32) -> Line
    ensures text { result ≡ shared_text calls }
    ensures short { length result ≤ 20 }
{
    let mut line = Line::new();
    if calls <= 1 {
        return line;
    }
    line.text(" ");
    add_words(&mut line, &more_text(calls - 1));
    line
}

// A phrase in quotes, and for how many calls it stands.
#[tactic(auto, unfolding(crate::specs::Heard::said_text))]
fn said_text(phrase: &str, calls: u32) -> Line
    requires { length phrase.now ≤ 32 }
    ensures text { result ≡ said_text phrase.now calls }
    ensures short { length result ≤ LABEL_BYTES }
{
    let mut line = quoted(phrase);
    add_words(&mut line, &shared_text(calls));
    line
}

// ---- lines

fn line_y(top: u32, number: u32) -> u32
    requires top { top ≤ 40000 }
    requires number { number ≤ 22 }
    ensures value { result ≡ line_y top number }
    ensures least { 750 ≤ result }
    ensures most { result ≤ 46470 }
{
    top + 750 + 260 * number
}

// Puts a box that tells the sense of what is shown.
#[tactic(auto, unfolding(crate::specs::Heard::sense_marks))]
fn put_sense<D: Drawing>(y: u32, shown: &Composite, title: &Line, drawing: &mut D)
    requires least { 750 ≤ y }
    requires most { y ≤ 46470 }
    requires title { length title.now ≤ LABEL_BYTES }
    ensures { D.drew drawing.old drawing.new (sense_marks y shown.now title.now) }
{
    if !is_clear(shown) {
        put_box(
            advised(shown),
            area_at(8_800, y - 170, 160, 190),
            title,
            drawing,
        );
    }
}

// Puts the words of a line.
fn put_line_words<D: Drawing>(y: u32, label: &Line, name: &Line, phrase: &Line, drawing: &mut D)
    requires y { y ≤ 46470 }
    requires label { length label.now ≤ LABEL_BYTES }
    requires name { length name.now ≤ LABEL_BYTES }
    requires phrase { length phrase.now ≤ LABEL_BYTES }
    ensures { D.drew drawing.old drawing.new (words_marks y label.now name.now phrase.now) }
{
    put_words(
        point_at(10_150, y),
        240,
        Anchor::End,
        Weight::Regular,
        label,
        drawing,
    );
    put_words(
        point_at(10_300, y),
        240,
        Anchor::Start,
        Weight::Bold,
        name,
        drawing,
    );
    put_words(
        point_at(11_700, y),
        240,
        Anchor::Start,
        Weight::Regular,
        phrase,
        drawing,
    );
}

// Puts the line of a call that stands for so many.
fn put_line_with<D: Drawing>(
    y: u32,
    address: Address,
    label: &Line,
    name: &Line,
    call: &Call,
    calls: u32,
    drawing: &mut D,
)
    requires least { 750 ≤ y }
    requires most { y ≤ 46470 }
    requires label { length label.now ≤ LABEL_BYTES }
    requires name { length name.now ≤ LABEL_BYTES }
    ensures { D.drew drawing.old drawing.new (line_with y address label.now name.now call.now calls) }
{
    let title = call_title(address, call.cycle, &call.shown);
    put_sense(y, &call.shown, &title, drawing);
    let words = said_text(phrase(call.heard), calls);
    put_line_words(y, label, name, &words, drawing);
}

#[tactic(auto, unfolding(crate::specs::Heard::line_marks))]
fn put_call_line<D: Drawing>(
    top: u32,
    encounter: &Encounter,
    labels: &Labels<'_>,
    number: u32,
    it: &CallLine,
    drawing: &mut D,
)
    requires top { top ≤ 40000 }
    requires number { number < 22 }
    requires own { it.now.call.own < length encounter.now.crafts }
    requires first { 1 ≤ it.now.call.cycle }
    requires last { it.now.call.cycle ≤ 600 }
    ensures { D.drew drawing.old drawing.new (line_marks top encounter.now labels.now number it.now) }
{
    let address = address_of(encounter, it.call.own);
    put_line_with(
        line_y(top, number),
        address,
        &axis_of(labels, encounter).label(it.call.cycle),
        &labels.name(address),
        &it.call,
        it.calls,
        drawing,
    );
}

// Puts a line, where there is room for it.
#[tactic(auto, unfolding(crate::specs::Heard::call_marks))]
fn put_call<D: Drawing>(
    top: u32,
    encounter: &Encounter,
    labels: &Labels<'_>,
    number: u32,
    it: &CallLine,
    drawing: &mut D,
)
    requires top { top ≤ 40000 }
    requires own { it.now.call.own < length encounter.now.crafts }
    requires first { 1 ≤ it.now.call.cycle }
    requires last { it.now.call.cycle ≤ 600 }
    ensures { D.drew drawing.old drawing.new (call_marks top encounter.now labels.now number it.now) }
{
    if number < MOST_LINES {
        put_call_line(top, encounter, labels, number, it, drawing);
    }
}

// Puts the line of the call of an aircraft's commit, if it has one, and gives the number of the next line.
fn put_call_of<D: Drawing>(
    top: u32,
    state: &AirState,
    labels: &Labels<'_>,
    cycle: u16,
    own: u8,
    number: u32,
    drawing: &mut D,
) -> u32
    requires top { top ≤ 40000 }
    requires first { 1 ≤ cycle }
    requires last { cycle ≤ 600 }
    requires own { own < length state.now.encounter.crafts }
    requires number { number ≤ 9600 }
    ensures drawn { D.drew drawing.old drawing.new (listed top state.now.encounter labels.now number (lines_at state.now.journal (length state.now.encounter.crafts) cycle own)) }
    ensures next { result ≡ number + length (lines_at state.now.journal (length state.now.encounter.crafts) cycle own) }
    ensures few { result ≤ number + 1 }
{
    match line_in(state, cycle, own) {
        None => number,
        Some(it) => {
            put_call(top, state.enc(), labels, number, &it, drawing);
            number + 1
        }
    }
}

// Puts those of a cycle.
fn put_cycle<D: Drawing>(
    top: u32,
    state: &AirState,
    labels: &Labels<'_>,
    cycle: u16,
    first: u32,
    drawing: &mut D,
) -> u32
    requires top { top ≤ 40000 }
    requires cycle { 1 ≤ cycle }
    requires last { cycle ≤ 600 }
    requires first { first ≤ 9584 }
    ensures drawn { D.drew drawing.old drawing.new (listed top state.now.encounter labels.now first (lines_in state.now.journal (length state.now.encounter.crafts) cycle)) }
    ensures next { result ≡ first + length (lines_in state.now.journal (length state.now.encounter.crafts) cycle) }
    ensures few { result ≤ first + 16 }
{
    state.legal_law();
    let mut number = first;
    for own in 0..state.enc().crafts().len() {
        number = put_call_of(top, state, labels, cycle, own as u8, number, drawing);
    }
    number
}

// Puts all of them, and gives how many lines there are.
fn put_calls<D: Drawing>(top: u32, state: &AirState, labels: &Labels<'_>, drawing: &mut D) -> u32
    requires top { top ≤ 40000 }
    ensures drawn { D.drew drawing.old drawing.new (listed top state.now.encounter labels.now 0 (call_lines state.now.encounter state.now.journal)) }
    ensures count { result ≡ length (call_lines state.now.encounter state.now.journal) }
{
    state.legal_law();
    let mut number = 0;
    for cycle in 1..state.enc().cycles() + 1 {
        number = put_cycle(top, state, labels, cycle, number, drawing);
    }
    number
}

fn put_words_at<D: Drawing>(y: u32, words: &Line, drawing: &mut D)
    requires y { y ≤ 46470 }
    requires words { length words.now ≤ LABEL_BYTES }
    ensures { D.drew drawing.old drawing.new (words_at y words.now) }
{
    put_words(
        point_at(10_300, y),
        240,
        Anchor::Start,
        Weight::Regular,
        words,
        drawing,
    );
}

// Puts what stands below the lines.
#[tactic(auto, unfolding(crate::specs::Heard::rest_marks))]
fn put_rest<D: Drawing>(top: u32, count: u32, drawing: &mut D)
    requires { top ≤ 40000 }
    ensures { D.drew drawing.old drawing.new (rest_marks top count) }
{
    if count == 0 {
        put_words_at(line_y(top, 0), &fixed_line("nothing"), drawing);
    } else if count > MOST_LINES {
        put_words_at(
            line_y(top, MOST_LINES),
            &more_text(count - MOST_LINES),
            drawing,
        );
    }
}

fn put_heading<D: Drawing>(top: u32, drawing: &mut D)
    requires { top ≤ 40000 }
    ensures { D.drew drawing.old drawing.new (heading_marks top) }
{
    put_words(
        point_at(8_800, top + 350),
        260,
        Anchor::Start,
        Weight::Bold,
        &fixed_line("what the crews heard"),
        drawing,
    );
}

/// Draws what the crews heard from `top` downward, over [`HEARD_HEIGHT`], to the right of the plan: the first 22 lines
/// of calls, by cycle and then by index, and how many more there are.
#[tactic(auto, unfolding(crate::specs::Heard::heard_marks))]
pub(crate) fn put_heard<D: Drawing>(
    top: u32,
    state: &AirState,
    labels: &Labels<'_>,
    drawing: &mut D,
)
    requires { top ≤ 40000 }
    ensures { D.drew drawing.old drawing.new (heard_marks top state.now.encounter state.now.journal labels.now) }
{
    put_heading(top, drawing);
    let count = put_calls(top, state, labels, drawing);
    put_rest(top, count, drawing);
}
