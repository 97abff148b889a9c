// What holds of the texts of encounters, whatever the program does with them.
ghost use Rattle.std.specs.Prelude.{◌≡◌, ◌↔◌, ◌∷◌, ◌-◌, [], ℕ, List, Err, Some, codes, false, length, slice_get, true};
ghost use Rattle.acas_base.specs.Encounter.{IsEncounter, Parts};
ghost use Rattle.enc_file.specs.Canonical.{IsLabelled, canonical_records, canonical_text};
ghost use Rattle.enc_file.specs.Conditions.{IsRefused, is_first};
ghost use Rattle.enc_file.specs.Earlier.{has_ended, version_of};
ghost use Rattle.enc_file.specs.Saying.{version_in};
ghost use Rattle.enc_file.specs.Reading.{Says, reading_of};
ghost use Rattle.enc_file.specs.Records.{records_of};
ghost use Rattle.enc_file.specs.declared.refusal.Refusal.{Refusal};
ghost use Rattle.flight.specs.Inside.{IsInside};

/// A law: the records that CSV finds in the canonical text of an encounter are its canonical records. Each stands on
/// its line, with all its fields, and there are no others. It holds of all parts whose names and call signs are labels,
/// in their ranges or not.
pub fn canonical_records_law()
    ensures { (e : Parts) → IsLabelled e → records_of (canonical_text e) ≡ canonical_records e }
{}

/// A law: the canonical text of an encounter inside the box says that encounter, and no other.
pub fn canonical_text_law()
    ensures { (e : Parts) → IsEncounter e → IsInside e → Says (canonical_text e) e }
{}

/// A law: when a text is refused with the number of a record and a code. It is refused so exactly where no earlier
/// record has a fault, the record has a fault of this code, and it has none of a lower code. Where the text ends too
/// early, there is no such record, and that is the fault. The faults are the conditions of the rules, one for each
/// code. It doesn't matter what else is wrong.
pub fn refusal_law()
    ensures { (text : List ℕ) (refusal : Refusal) → (reading_of text ≡ Err refusal) ↔ IsRefused (records_of text) refusal }
{}

/// A law: what stands before the refused record. The first record is a header, and it says the format of the later
/// ones. Where the text has ended, the record before is `end`.
pub fn passed_law()
    ensures format { (rows : List (List (List ℕ))) (refusal : Refusal) (r : IsRefused rows refusal) → is_first r.earlier ≡ false → (fields : List (List ℕ)) × (slice_get rows 0 ≡ Some fields) × (version_in fields ≡ Some (version_of r.earlier)) }
    ensures end { (rows : List (List (List ℕ))) (refusal : Refusal) (r : IsRefused rows refusal) → has_ended r.earlier ≡ true → slice_get rows (length r.earlier - 1) ≡ Some (codes "end" ∷ []) }
{}
