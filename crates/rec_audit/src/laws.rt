// What holds of verdicts, and of what is allowed.
ghost use Rattle.std.specs.Prelude.{◌≡◌, ℕ, List};
ghost use Rattle.acas_base.specs.declared.entry.Entry.{Entry};
ghost use Rattle.air_rules.specs.Air.{Air};
ghost use Rattle.air_rules.specs.Rules.{IsAllowed};
ghost use Rattle.rec_audit.specs.Judging.{IsLoaded, IsPartLoaded, Judged};
ghost use Rattle.rec_audit.specs.Keys.{key};
ghost use Rattle.rec_audit.specs.declared.verdict.Loaded.{Loaded};
ghost use Rattle.rec_audit.specs.declared.verdict.Verdict.{Verdict};

/// A law: at most one verdict is given on bytes, and at most one thing is loaded from them.
pub fn verdict_law()
    ensures verdict { (bytes : List ℕ) (one two : Verdict) → Judged bytes one → Judged bytes two → one ≡ two }
    ensures loaded { (bytes : List ℕ) (one two : Loaded) → IsLoaded bytes one → IsLoaded bytes two → one ≡ two }
    ensures part { (bytes : List ℕ) (one two : Loaded) → IsPartLoaded bytes one → IsPartLoaded bytes two → one ≡ two }
{
    enc_file::canonical_text_law();
}

/// A law: about one thing at most one entry is allowed after a journal. So one line at most is allowed where the
/// content of an entry is wrong.
pub fn allowed_law()
    ensures { (air : Air) (journal : List Entry) (one two : Entry) → key one ≡ key two → IsAllowed air journal one → IsAllowed air journal two → one ≡ two }
{}
