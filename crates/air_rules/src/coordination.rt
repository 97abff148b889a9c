// How aircraft coordinate their advisories, in every legal journal.
ghost use Rattle.std.specs.Prelude.{List};
ghost use Rattle.acas_base.specs.declared.entry.Entry.{Entry};
ghost use Rattle.air_rules.specs.Air.{Air, IsSound};
ghost use Rattle.air_rules.specs.Alike.{AreAlikeButCopies};
ghost use Rattle.air_rules.specs.Priority.{HasPriority};
ghost use Rattle.air_rules.specs.Rules.{IsLegal};
ghost use Rattle.air_rules.specs.Runs.{HasRunBySense};
ghost use Rattle.air_rules.specs.Safe.{IsSafe};
ghost use Rattle.air_rules.specs.Settled.{IsSettled};
ghost use Rattle.air_rules.specs.Shape.{IsShapedByViews, HaveOneShape};
ghost use Rattle.air_rules.specs.Worlds.{AreTwoWorlds};

/// A law: no aircraft that gives way commits an advisory in the sense that the complement in force forbids to it (ICAO
/// Annex 10 vol. IV, 4.3).
pub fn safe_law()
    ensures { (air : Air) (journal : List Entry) → IsLegal air journal → IsSafe air journal }
{}

/// A law: where the message in force was sent since the threat took its present sense, the senses are opposite. Over a
/// plain link they are opposite as soon as such a message was sent. Wherever the last cell of an aircraft has a sense,
/// the position where it took this sense is known.
pub fn settled_law()
    ensures settled { (air : Air) (journal : List Entry) →
        IsSound air → IsLegal air journal → IsSettled air journal }
    ensures runs { HasRunBySense }
{}

/// A law: who changes its sense and why, how advisories start, and when and how long two senses can be equal.
pub fn priority_law()
    ensures { (air : Air) (journal : List Entry) →
        IsSound air → IsLegal air journal → HasPriority air journal }
{}

/// A law: where an aircraft sees the same and has the same complements in force, it advises the same. So each advisory
/// follows from the aircraft's own measurements and the messages that it took.
pub fn worlds_law()
    ensures { (one : Air) (two : Air) (journal_one : List Entry) (journal_two : List Entry) →
        IsLegal one journal_one → IsLegal two journal_two →
        AreTwoWorlds one two journal_one journal_two }
{}

/// A law: no order of the steps and no loss of a message makes an advisory come, go, or come a second later. Order and
/// loss decide only which way it goes and how strong it is. What is seen decides, for each cell of every legal journal,
/// whether it has an advisory and how old that is, and how many messages were sent before it. So these are the same in
/// all legal journals of airs that are alike but for the copies of messages.
pub fn shape_law()
    ensures seen { (air : Air) (journal : List Entry) →
        IsSound air → IsLegal air journal → IsShapedByViews air journal }
    ensures alike { (one : Air) (two : Air) (journal_one : List Entry) (journal_two : List Entry) →
        IsSound one → IsSound two → AreAlikeButCopies one two →
        IsLegal one journal_one → IsLegal two journal_two → HaveOneShape one two journal_one journal_two }
{}
