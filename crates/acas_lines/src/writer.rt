// Texts written into a sink of bytes.
ghost use Rattle.std.specs.Prelude.{◌≡◌, []};
ghost use Rattle.acas_io.specs.Stream.{Puts};
ghost use Rattle.acas_lines.specs.Gathering.{Gathers};
ghost use Rattle.acas_lines.specs.Lines.{joined};

use crate::batch::Batch;
use crate::{LineSink, Text};
use acas_io::{Failed, Sink};
use acas_text::Line;

/// Writes the lines that it takes into a sink of bytes, by way of a [`Batch`]. After a write failed it doesn't call the
/// sink any more.
#[derive(Drop)]
pub(crate) struct TextWriter<'a, K: Sink> {
    sink: &'a mut K,
    batch: Batch,
    so_far: Result<(), Failed>,
}

impl<'a, K: Sink> TextWriter<'a, K> {
    /// Nothing is written yet.
    pub fn new(sink: &'a mut K) -> TextWriter<'a, K>
        ensures same_reference { result.sink.ghost_name ≡ sink.entry.ghost_name }
        ensures sink { result.sink.now ≡ sink.old }
        ensures batch { result.batch ≡ [] }
        ensures so_far { result.so_far ≡ Ok tt }
    {
        TextWriter {
            sink,
            batch: Batch::new(),
            so_far: Ok(()),
        }
    }

    /// Writes what waits. `Failed` comes where this or an earlier write failed.
    pub fn finish(&mut self) -> Result<(), Failed>
        ensures same_reference { self.new.sink.ghost_name ≡ self.old.sink.ghost_name }
        ensures written { Gathers (K.written self.old.sink.now) (K.written self.new.sink.now) (K.faults self.old.sink.now) (K.faults self.new.sink.now) self.old.batch [] self.old.so_far result [] }
    {
        self.so_far?;
        self.batch.flush(self.sink)
    }
}

impl<K: Sink> LineSink for TextWriter<'_, K> {
    ghost use Rattle.std.specs.Prelude.{◌≡◌, refl};
    ghost use Rattle.std.proofs.Common.{◌∙◌};
    ghost use Rattle.acas_lines.specs.Gathering.{Gathers};
    ghost use Rattle.acas_lines.specs.Lines.{joined};
    ghost use Rattle.acas_lines.specs.Gathered.{gathers-lines, gathers-nothing};

    ghost took = { λ a b lines. (b.sink.ghost_name ≡ a.sink.ghost_name) × Gathers (K.written a.sink.now) (K.written b.sink.now) (K.faults a.sink.now) (K.faults b.sink.now) a.batch b.batch a.so_far b.so_far (joined lines) };

    ghost nothing = { λ a. (refl, gathers-nothing (K.written a.sink.now) (K.faults a.sink.now) a.batch a.so_far) };

    ghost then = { λ a b c xs ys g h.
        (h.0 ∙ g.0, gathers-lines (K.written a.sink.now) (K.written b.sink.now) (K.written c.sink.now) (K.faults a.sink.now) (K.faults b.sink.now) (K.faults c.sink.now) a.batch b.batch c.batch a.so_far b.so_far c.so_far xs ys g.1 h.1) };

    fn line(&mut self, line: &Line) {
        if self.so_far.is_ok() {
            self.so_far = self.batch.put(self.sink, line.bytes());
        }
    }
}

/// Writes a text, up to 8,192 bytes at a time. It takes no memory.
///
/// `Failed` comes only where the sink's count of faults rose. Then a front of the text has been written.
pub fn write_text<T: Text, K: Sink>(text: &T, sink: &mut K) -> Result<(), Failed>
    ensures { Puts (K.written sink.old) (K.written sink.new) (K.faults sink.old) (K.faults sink.new) (joined (T.lines text.now)) result }
{
    let mut writer = TextWriter::new(sink);
    text.put(&mut writer);
    writer.finish()
}
