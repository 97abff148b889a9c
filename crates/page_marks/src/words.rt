// Words that are put together.
ghost use Rattle.std.specs.Prelude.{◌≡◌, ◌+◌, ◌≤◌, ◌++◌, length};
ghost use Rattle.acas_text.specs.declared.line.TheConstants.{LINE_BYTES};
ghost use Rattle.page_marks.specs.Words.{cycle_text, when_text};

use acas_text::Line;
use plot_axes::TimeAxis;

/// Adds words to a line.
pub fn add_words(line: &mut Line, words: &Line)
    requires { length line.old + length words.now ≤ LINE_BYTES }
    ensures added { line.new ≡ line.old ++ words.now }
    ensures longer { length line.new ≡ length line.old + length words.now }
{
    for byte in words.bytes() {
        line.byte(*byte);
    }
}

// The number of a cycle, in words.
fn cycle_text(cycle: u16) -> Line
    ensures text { result ≡ cycle_text cycle }
    ensures short { length result ≤ 16 }
{
    let mut line = Line::new();
    line.text("cycle ");
    line.u16(cycle);
    line
}

/// How words tell a cycle: `cycle 31`, or its time of day where there is a clock.
#[tactic(auto, unfolding(crate::specs::Words::when_text))]
pub fn when_text(time: TimeAxis, cycle: u16) -> Line
    requires first { 1 ≤ cycle }
    requires last { cycle ≤ 600 }
    ensures text { result ≡ when_text time.start cycle }
    ensures short { length result ≤ 16 }
{
    match time.start {
        None => cycle_text(cycle),
        Some(_) => time.label(cycle),
    }
}
