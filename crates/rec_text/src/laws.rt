// What follows from lines and recordings.
ghost use Rattle.std.specs.Prelude.{◌≡◌, ℕ, ◌≤◌};
ghost use Rattle.acas_base.specs.declared.TheConstants.{CRAFTS};
ghost use Rattle.acas_base.specs.declared.entry.Entry.{Entry};
ghost use Rattle.acas_lines.specs.Split.{IsLine};
ghost use Rattle.rec_text.specs.Entries.{entry_line};
ghost use Rattle.rec_text.specs.Recording.{recording};
ghost use Rattle.air_journal.specs.Ranges.{IsEntry};

use air_journal::AirState;

/// A law: in an encounter of `count` aircraft each entry has one whole line, and a line is the line of at most one
/// entry.
pub fn line_law()
    ensures line { (count : ℕ) (e : Entry) → count ≤ CRAFTS → IsEntry count e → IsLine (entry_line count e) }
    ensures entry { (count : ℕ) (e f : Entry) → count ≤ CRAFTS → IsEntry count e → IsEntry count f → entry_line count e ≡ entry_line count f → e ≡ f }
{}

/// A law: a recording determines its encounter and its journal. States with equal recordings have equal encounters and
/// equal journals.
pub fn text_law(a: &AirState, b: &AirState)
    ensures encounter { recording a.now.encounter a.now.journal ≡ recording b.now.encounter b.now.journal → a.now.encounter ≡ b.now.encounter }
    ensures journal { recording a.now.encounter a.now.journal ≡ recording b.now.encounter b.now.journal → a.now.journal ≡ b.now.journal }
{
    a.legal_law();
    b.legal_law();
    enc_file::canonical_text_law();
}
