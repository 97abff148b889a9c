// What the rows and the numbers of messages are.
ghost use Rattle.std.specs.Prelude.{Bool, List};
ghost use Rattle.acas_base.specs.declared.entry.Entry.{Entry};
ghost use Rattle.air_rules.specs.Air.{Air};
ghost use Rattle.air_rules.specs.Rules.{IsLegal};
ghost use Rattle.deliveries.specs.Laws.{AreNumbered, AreRows};

/// A law: a number lies in exactly one maximal row of marked numbers, exactly where it is marked; and the rows that are
/// told are these rows.
pub fn rows_law()
    ensures { (flags : List Bool) → AreRows flags }
{}

/// A law: the messages of one aircraft to another one that a legal journal sent have the numbers from 1 to how many
/// they are.
pub fn numbers_law()
    ensures { (air : Air) (journal : List Entry) → IsLegal air journal → AreNumbered journal }
{}
