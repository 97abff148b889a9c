// The lines of the report.
ghost use Rattle.std.specs.Prelude.{◌≡◌, ◌↔◌, IsNone, IsTrue};
ghost use Rattle.advisory_report.specs.Composite.{word_of};
ghost use Rattle.advisory_report.specs.Phrases.{aural_of};
ghost use Rattle.advisory_report.specs.Report.{is_quiet, is_same_word, is_silent, line_text, report_line};

use crate::aural::phrase;
use crate::composite::word;
use crate::{Aural, Composite, aural_of};
use acas_base::Address;
use acas_text::Line;

fn is_silent(aural: Aural) -> bool
    ensures { result ≡ is_silent aural }
{
    matches!(aural, Aural::Silent)
}

fn is_same_word(before: &Composite, after: &Composite) -> bool
    ensures { result ≡ is_same_word before.now after.now }
{
    word(before) == word(after)
}

/// Whether the report has no line for a commit, from the composite before it to its own one: the word stays, and
/// nothing is said (this project's profile). A caller that asks this first makes only the lines that are there.
pub fn is_quiet(before: &Composite, after: &Composite) -> bool
    ensures value { result ≡ is_quiet before.now after.now }
    ensures quiet { IsTrue result ↔ ((word_of before.now ≡ word_of after.now) × (aural_of before.now after.now ≡ Aural.Silent)) }
{
    is_same_word(before, after) && is_silent(aural_of(before, after))
}

// The line of a commit after which the crew hears this.
fn line_text(cycle: u16, own: Address, before: &Composite, after: &Composite) -> Line
    ensures { result ≡ line_text cycle own before.now after.now }
{
    let mut line = Line::new();
    line.text("r");
    line.u16_field(cycle);
    line.address_field(own.value());
    line.text_field(word(after));
    line.text_field(phrase(aural_of(before, after)));
    line.text("\n");
    line
}

/// The line of the report for a commit, from the composite before it to its own one, with its line feed:
/// `r,CYCLE,ADDRESS,WORD,PHRASE`. The phrase is `-` where nothing is said (this project's profile).
///
/// There is no line exactly where the word stays and nothing is said.
#[tactic(auto, unfolding(crate::specs::Report::report_line))]
pub fn line(cycle: u16, own: Address, before: &Composite, after: &Composite) -> Option<Line>
    ensures line { result ≡ report_line cycle own before.now after.now }
    ensures none { IsNone result ↔ ((word_of before.now ≡ word_of after.now) × (aural_of before.now after.now ≡ Aural.Silent)) }
{
    if is_quiet(before, after) {
        return None;
    }
    Some(line_text(cycle, own, before, after))
}
