// What the page says of a legal journal.
ghost use Rattle.std.specs.Prelude.{ℕ, List};
ghost use Rattle.acas_base.specs.Encounter.{Parts};
ghost use Rattle.acas_base.specs.declared.entry.Entry.{Entry};
ghost use Rattle.air_rules.specs.Air.{Air};
ghost use Rattle.air_rules.specs.Rules.{IsLegal};
ghost use Rattle.summary.specs.Laws.{AreInOrder, AreStretches, HasTrueTurns};

/// A law: the stretches of an aircraft against another one begin, in order, with exactly those of its cycles that
/// show something else than nothing and than the cycle before. Each goes on as long as the same is shown. The message
/// that it names is the one in force just before the commit with which it begins.
pub fn stretches_law()
    ensures { (air : Air) (journal : List Entry) → IsLegal air journal → (own other : ℕ) → AreStretches air journal own other }
{}

/// A law: wherever an aircraft changes the sense of its advice against another one, the page tells what did it. An
/// aircraft that gives way was turned by the complement in force, so its line says `TURNED` and names the message. That
/// of any other aircraft says `REVERSED by the flight`.
pub fn turns_law()
    ensures { (air : Air) (journal : List Entry) → IsLegal air journal → HasTrueTurns air journal }
{}

/// A law: of two pairs one comes before the other on the page, and the one before has the lower place. So no two pairs
/// have one place, and each pair has its lines once.
pub fn order_law()
    ensures { (e : Parts) (journal : List Entry) → AreInOrder e journal }
{}
