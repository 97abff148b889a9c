// Expected values: by hand, of a text of fixed lines and of a line for each of a list.
ghost use Rattle.std.specs.Prelude.{◌≡◌, ◌∷◌, ◌++◌, [], map, codes, ◌≤◌, length};
ghost use Rattle.std.specs.Fmt.{decimal};

use acas_io::{MemSink, Sink};
use acas_lines::{LineSink, Text, write_text};
use acas_text::Line;
use std::alloc::{AllocError, Global};
use std::test::Fail;

fn count_line(count: u16) -> Line
    ensures { result ≡ decimal count ++ 10 ∷ [] }
{
    let mut line = Line::new();
    line.u16(count);
    line.text("\n");
    line
}

fn text_line(text: &str) -> Line
    requires { length text.now ≤ 100 }
    ensures { result ≡ text.now ++ 10 ∷ [] }
{
    let mut line = Line::new();
    line.text(text);
    line.text("\n");
    line
}

fn put_counts<S: LineSink>(counts: &[u16], sink: &mut S)
    ensures { S.took sink.old sink.new (map (λ n. decimal n ++ 10 ∷ []) counts.now) }
{
    for count in counts {
        sink.line(&count_line(*count));
    }
}

// A list of counts, between two fixed lines.
#[derive(Drop)]
struct Counts<'a>(&'a [u16]);

impl Text for Counts<'_> {
    ghost use Rattle.std.specs.Prelude.{◌∷◌, ◌++◌, [], map, codes};
    ghost use Rattle.std.specs.Fmt.{decimal};

    ghost lines = { λ c. codes "counts\n" ∷ map (λ n. decimal n ++ 10 ∷ []) c.0.now ++ codes "end\n" ∷ [] };

    fn put<S: LineSink>(&self, sink: &mut S) {
        sink.line(&text_line("counts"));
        put_counts(self.0, sink);
        sink.line(&text_line("end"));
    }
}

fn sink(alloc: Global, fails: &[u64]) -> Result<MemSink, AllocError> {
    let room = Vec::with_capacity(alloc, 20_000)?;
    Ok(MemSink::new(room, 20_000, fails.to_vec(alloc)?))
}

#[test]
fn writes_lines_in_order(rt: HostRuntime) -> Result<(), Fail> {
    let mut sink = sink(rt.alloc(), &[])?;
    write_text(&Counts(&[7, 65_535]), &mut sink)?;
    assert_eq!(rt; sink.bytes(), b"counts\n7\n65535\nend\n".as_slice());
    Ok(())
}

// 12,011 bytes are two writes. Of a write that fails nothing comes, and it isn't tried again.
#[test]
fn gathers_lines_into_few_writes(rt: HostRuntime) -> Result<(), Fail> {
    let counts = [65_535; 2_000];
    for (fails, answers, written) in [(3, true, 12_011), (2, false, 8_192), (1, false, 0)] {
        let mut sink = sink(rt.alloc(), &[fails])?;
        let answer = write_text(&Counts(&counts), &mut sink);
        assert!(rt; answer.is_ok() == answers, "with a fault at {fails}");
        assert!(rt; sink.bytes().len() == written, "with a fault at {fails}");
        assert!(rt;
            sink.faults() == u64::from(!answers),
            "with a fault at {fails}"
        );
    }
    Ok(())
}
