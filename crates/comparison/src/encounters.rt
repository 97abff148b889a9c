// The texts of two encounters.
ghost use Rattle.std.specs.Prelude.{◌≡◌, ◌==◌, ℕ, IfOk, List};
ghost use Rattle.std.specs.List.{AllByRecursion, count_by};
ghost use Rattle.acas_lines.specs.Lines.{joined};
ghost use Rattle.acas_lines.specs.Split.{IsLine};
ghost use Rattle.comparison.specs.Texts.{Collects, Compares, IsFirstDifference};
ghost use Rattle.enc_file.specs.Canonical.{canonical_lines, canonical_text};

use acas_base::Encounter;
use acas_lines::{LineSink, Text};
use acas_text::Line;
use enc_file::CanonicalText;
use std::alloc::{AllocError, Global};

// Keeps the lines that it takes, as long as there is memory for them.
#[derive(Drop)]
struct Collection {
    text: Vec<u8>,
    so_far: Result<(), AllocError>,
}

impl LineSink for Collection {
    ghost use Rattle.comparison.specs.Texts.{Collects, collects-nothing, collects-then};

    ghost took = { λ a b lines. Collects a.text.items b.text.items a.so_far b.so_far lines };

    ghost nothing = { λ a. collects-nothing a.text.items a.so_far };

    ghost then = { λ a b c xs ys g h. collects-then a.text.items b.text.items c.text.items a.so_far b.so_far c.so_far xs ys g h };

    fn line(&mut self, line: &Line) {
        if self.so_far.is_ok() {
            self.so_far = self.text.extend_from_slice(line.bytes());
        }
    }
}

// Compares the lines that it takes with a text. Where one differs it stays there.
#[derive(Drop)]
struct Reading<'a> {
    rest: &'a [u8],
    differs: bool,
}

impl LineSink for Reading<'_> {
    ghost use Rattle.comparison.specs.Texts.{Compares, compares-nothing, compares-then};

    ghost took = { λ a b lines. Compares a.rest.now b.rest.now a.differs b.differs lines };

    ghost nothing = { λ a. compares-nothing a.rest.now a.differs };

    ghost then = { λ a b c xs ys g h. compares-then a.rest.now b.rest.now c.rest.now a.differs b.differs c.differs xs ys g h };

    fn line(&mut self, line: &Line) {
        if self.differs {
            return;
        }
        match self.rest.strip_prefix(line.bytes()) {
            Some(rest) => self.rest = rest,
            None => self.differs = true,
        }
    }
}

// The canonical text of an encounter, kept in memory.
fn text_of(alloc: Global, encounter: &Encounter) -> Result<Vec<u8>, AllocError>
    ensures { IfOk result (λ text. text.items ≡ canonical_text encounter.now) }
{
    let mut collection = Collection {
        text: Vec::new(alloc),
        so_far: Ok(()),
    };
    CanonicalText(encounter).put(&mut collection);
    let Collection { text, so_far } = collection;
    so_far?;
    Ok(text)
}

// How many line feeds a text has.
fn count_feeds(text: &[u8]) -> usize
    ensures { result ≡ count_by (λ byte. byte == 10) text.now }
{
    text.iter().filter(|byte| **byte == b'\n').count()
}

// How many lines of a text stand before the first one that differs in the canonical text of an encounter.
fn first_in(text: &[u8], other: &Encounter) -> Option<usize>
    ensures { (lines : List (List ℕ)) → AllByRecursion IsLine lines → text.now ≡ joined lines → IsFirstDifference lines (canonical_lines other.now) result }
{
    // For the proof: its text is whole lines.
    other.valid_law();
    let mut reading = Reading {
        rest: text,
        differs: false,
    };
    CanonicalText(other).put(&mut reading);
    let read = &text[..text.len() - reading.rest.len()];
    let same = count_feeds(read);
    if reading.differs {
        return Some(same);
    }
    if !reading.rest.is_empty() {
        return Some(same);
    }
    None
}

/// How many lines stand before the first one that differs in the canonical texts of two encounters; none where none
/// does. It takes memory for one of these texts.
pub(crate) fn first_difference(
    alloc: Global,
    one: &Encounter,
    other: &Encounter,
) -> Result<Option<usize>, AllocError>
    ensures { IfOk result (IsFirstDifference (canonical_lines one.now) (canonical_lines other.now)) }
{
    // For the proof: its text is whole lines.
    one.valid_law();
    let text = text_of(alloc, one)?;
    Ok(first_in(text.as_slice(), other))
}
