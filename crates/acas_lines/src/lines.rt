// What takes the lines of a text.
ghost use Rattle.std.specs.Prelude.{◌∷◌, ◌++◌, [], List, ℕ};

use acas_text::Line;

/// What takes the lines of a text, one after the other. One writes them, another one compares them.
///
/// After a failure it ignores the lines that come later, and its owner asks it at the end. So a text can put all its
/// lines without asking in between.
pub trait LineSink {
    /// Between its first and its second state it took these lines.
    ghost took: { Self → Self → List (List ℕ) → Type 0 };

    /// Takes the next line, with its line feed.
    fn line(&mut self, line: &Line)
        ensures { took self.old self.new (line.now ∷ []) };

    /// Taking no line leaves it as it was.
    ghost nothing: { (a : Self) → took a a [] };

    /// Some lines and then others.
    ghost then: { (a b c : Self) (xs ys : List (List ℕ)) → took a b xs → took b c ys → took a c (xs ++ ys) };
}

/// A value that has a text, and can put its lines into any `LineSink`.
pub trait Text {
    /// The lines of the text, each with its line feed.
    ghost lines: { Self → List (List ℕ) };

    /// Puts all lines, in order.
    fn put<S: LineSink>(&self, sink: &mut S)
        ensures { S.took sink.old sink.new (lines self.now) };
}
