// What holds of the texts of tracks, whatever the program does with them.
ghost use Rattle.std.specs.Prelude.{◌≡◌, ℕ, List};
ghost use Rattle.acas_base.specs.Encounter.{IsEncounter, Parts};
ghost use Rattle.enc_file.specs.Records.{records_of};
ghost use Rattle.track_text.specs.Conditions.{IsRefused};
ghost use Rattle.track_text.specs.Reading.{Says};
ghost use Rattle.track_text.specs.declared.refusal.Refusal.{Refusal};

/// A law: a text of tracks says an encounter or is refused, never both.
pub fn once_law()
    ensures once { (text : List ℕ) (e : Parts) (refusal : Refusal) → Says text e → IsRefused (records_of text) refusal → ⊥ }
{}

/// A law: a text of tracks says one encounter at most, and it is refused in one way at most.
pub fn only_law()
    ensures said { (text : List ℕ) (d e : Parts) → IsEncounter d → IsEncounter e → Says text d → Says text e → d ≡ e }
    ensures refused { (rows : List (List (List ℕ))) (a b : Refusal) → IsRefused rows a → IsRefused rows b → a ≡ b }
{}
