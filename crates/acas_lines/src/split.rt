// Texts and their lines.
ghost use Rattle.std.specs.Prelude.{◌≡◌, ◌<◌, ◌≤◌, ◌∷◌, [], ℕ, All, List, drop, length, take};
ghost use Rattle.acas_lines.specs.Split.{IsFirstLine, IsLine, lines_of};
ghost use Rattle.acas_lines.specs.Lines.{joined};

use memchr::memchr;

/// How long the first line of a text is, with its line feed where it has one.
pub fn first_line_len(text: &[u8]) -> usize
    requires { 0 < length text.now }
    ensures some { 0 < result }
    ensures within { result ≤ length text.now }
    ensures first { IsFirstLine text.now (take result text.now) }
    ensures rest { lines_of text.now ≡ take result text.now ∷ lines_of (drop result text.now) }
{
    match memchr(b'\n', text) {
        Some(at) => at + 1,
        None => text.len(),
    }
}

/// A law: whole lines, one after the other, are split into these lines again; and the lines of a text, one after the
/// other, are the text. A text has no more lines than bytes, and only the empty text has none.
pub fn split_law()
    ensures split { (lines : List (List ℕ)) → All IsLine lines → lines_of (joined lines) ≡ lines }
    ensures joined { (text : List ℕ) → joined (lines_of text) ≡ text }
    ensures few { (text : List ℕ) → length (lines_of text) ≤ length text }
    ensures some { (text : List ℕ) → lines_of text ≡ [] → text ≡ [] }
{}
