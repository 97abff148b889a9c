// What the panel says.
ghost use Rattle.std.specs.Prelude.{◌≡◌, ◌≤◌, length};
ghost use Rattle.seconds_panel.specs.Lines.{row_title, series_name};
ghost use Rattle.seconds_panel.specs.Panel.{heading_text, note_text, tick_text};
ghost use Rattle.svg_text.specs.declared.drawing.TheConstants.{LABEL_BYTES};

use crate::series::Series;
use acas_text::Line;
use equal_rows::Row;
use page_marks::add_words;

/// What the panel shows of two aircraft with these names.
#[tactic(auto, unfolding(crate::specs::Panel::heading_text))]
pub(crate) fn heading_text(own: &Line, other: &Line) -> Line
    requires own { length own.now ≤ 8 }
    requires other { length other.now ≤ 8 }
    ensures text { result ≡ heading_text own.now other.now }
    ensures short { length result ≤ LABEL_BYTES }
{
    let mut line = Line::new();
    add_words(&mut line, own);
    line.text(" against ");
    add_words(&mut line, other);
    line.text(": seconds that its tests need");
    line
}

/// What the seconds are held against.
pub(crate) fn note_text() -> Line
    ensures text { result ≡ note_text }
    ensures short { length result ≤ LABEL_BYTES }
{
    let mut line = Line::new();
    line.text("an advisory where range and altitude are within tau");
    line
}

/// The seconds of a tick.
#[tactic(auto, unfolding(crate::specs::Panel::tick_text))]
pub(crate) fn tick_text(seconds: u32) -> Line
    ensures text { result ≡ tick_text seconds }
    ensures short { length result ≤ LABEL_BYTES }
{
    let mut line = Line::new();
    line.u32(seconds);
    line.text(" s");
    line
}

/// What a row shows, of two aircraft with these names.
#[tactic(auto, unfolding(crate::specs::Lines::row_title))]
pub(crate) fn row_title(own: &Line, other: &Line, series: Series, row: Row) -> Line
    requires own { length own.now ≤ 8 }
    requires other { length other.now ≤ 8 }
    ensures text { result ≡ row_title own.now other.now series row }
    ensures short { length result ≤ LABEL_BYTES }
{
    let mut line = Line::new();
    add_words(&mut line, own);
    line.text(" against ");
    add_words(&mut line, other);
    line.text(": ");
    line.text(series.name());
    line.text(", cycles ");
    line.u16(row.first);
    line.text(" to ");
    line.u16(row.last);
    line
}

/// The name of a line.
pub(crate) fn name_text(series: Series) -> Line
    ensures text { result ≡ series_name series }
    ensures short { length result ≤ LABEL_BYTES }
{
    let mut line = Line::new();
    line.text(series.name());
    line
}
