// What holds of every drawing.
ghost use Rattle.std.specs.Prelude.{List, ℕ};
ghost use Rattle.std.specs.List.{AllByRecursion};
ghost use Rattle.acas_lines.specs.Lines.{joined};
ghost use Rattle.svg_text.specs.Documents.{Section, drawing_lines};
ghost use Rattle.svg_text.specs.Fitting.{FitsFrame, FitsSection};
ghost use Rattle.svg_text.specs.Xml.{IsDocument};
ghost use Rattle.svg_text.specs.declared.document.Frame.{Frame};

/// A law: the text of a drawing is well formed, whatever its titles and words are. Its elements nest and close, each
/// attribute is quoted and stands once in its tag, and no `<`, `&` or control byte stands in values and texts but as a
/// reference.
///
/// `fit` of [`Drawing`](crate::Drawing) says that marks that were taken fit.
pub fn form_law()
    ensures { (frame : Frame) (title description : List ℕ) (sections : List Section) → FitsFrame frame → AllByRecursion FitsSection sections
        → IsDocument (joined (drawing_lines frame title description sections)) }
{}
