// Lines of forms that several texts have.
ghost use Rattle.std.specs.Prelude.{◌≡◌, ◌≤◌, length};
ghost use Rattle.acas_lines.specs.Lines.{count_line};
ghost use Rattle.acas_text.specs.declared.line.TheConstants.{LINE_BYTES};

use acas_text::Line;

/// A line of fixed text, or a part of one.
pub fn fixed_line(text: &str) -> Line
    requires { length text.now ≤ LINE_BYTES }
    ensures { result ≡ text.now }
{
    let mut line = Line::new();
    line.text(text);
    line
}

/// The line `WORD,COUNT`.
pub fn count_line(word: &str, count: u32) -> Line
    requires { length word.now ≤ 20 }
    ensures { result ≡ count_line word.now count }
{
    let mut line = Line::new();
    line.text(word);
    line.u32_field(count);
    line.text("\n");
    line
}
