// What the rules of the journal may rest on.
ghost use Rattle.std.specs.Prelude.{ℕ, List, All, length};
ghost use Rattle.acas_base.specs.Encounter.{Parts, IsEncounter};
ghost use Rattle.acas_base.specs.declared.entry.Entry.{Entry};
ghost use Rattle.air_journal.specs.Airs.{air_of};
ghost use Rattle.air_journal.specs.Alike.{AreAlikeButFates, FlyAlikeUpTo};
ghost use Rattle.air_journal.specs.Pinned.{HasSmallCopies, IsAirOf};
ghost use Rattle.air_journal.specs.Ranges.{IsEntry};
ghost use Rattle.air_rules.specs.Air.{IsSound};
ghost use Rattle.air_rules.specs.Alike.{AreAlikeButCopies, AreAlikeUpTo};
ghost use Rattle.air_rules.specs.Rounds.{AreTheSameTo};
ghost use Rattle.air_rules.specs.Rules.{IsLegal};
ghost use Rattle.air_rules.specs.Serial.{IsSerial};
ghost use Rattle.air_rules.specs.Shape.{HaveOneShape};
ghost use Rattle.air_rules.specs.Worlds.{SeesTheSame};
ghost use Rattle.craft_view.specs.Facts.{SeesAlike};

/// A law: the air of an encounter has all that the laws of the journal rest on.
pub fn sound_law()
    ensures { (e : Parts) → IsEncounter e → IsSound (air_of e) }
{}

/// A law: the air of an encounter has its aircraft, its cycles, its views and the words of messages. In
/// a small encounter with a plan for one link and a fate for one message, the copies of each message
/// are as these say, and those in the other direction are plain.
pub fn air_law()
    ensures fields { (e : Parts) → IsAirOf e (air_of e) }
    ensures copies { HasSmallCopies }
{}

/// A law: an aircraft that has equal sights of two encounters up to a cycle sees the same in their airs. So
/// with equal complements in force before its commits it commits equal cells up to that cycle.
pub fn alike_law()
    ensures { (e f : Parts) (own last : ℕ) → SeesAlike e f own last → SeesTheSame (air_of e) (air_of f) own last }
{}

/// A law: the airs of two encounters that differ in fates and plans alone are alike but for the copies of messages. So
/// their legal journals have one shape: no order of the steps and no loss of a message makes an advisory come, go, or
/// come a second later.
pub fn shape_law()
    ensures alike { (e f : Parts) → AreAlikeButFates e f → AreAlikeButCopies (air_of e) (air_of f) }
    ensures shape { (e f : Parts) (one two : List Entry) → IsEncounter e → IsEncounter f → AreAlikeButFates e f →
        IsLegal (air_of e) one → IsLegal (air_of f) two → HaveOneShape (air_of e) (air_of f) one two }
{
    sound_law();
    air_rules::shape_law();
}

/// A law: what comes first doesn't follow from what is flown later. Where the aircraft of two encounters are at the
/// same places up to a cycle, the airs are alike up to it, and the serial journals are the same up to the end of that
/// round.
pub fn causality_law()
    ensures alike { (e f : Parts) (last : ℕ) → FlyAlikeUpTo e f last → AreAlikeUpTo (air_of e) (air_of f) last }
    ensures same { (e f : Parts) (last : ℕ) (one two : List Entry) → IsEncounter e → IsEncounter f → FlyAlikeUpTo e f last →
        IsSerial (air_of e) one → IsSerial (air_of f) two → AreTheSameTo one two last }
{
    sound_law();
    air_rules::causality_law();
}

/// A law: in each entry of a legal journal of an encounter all parts are in their ranges, and in the cells of a
/// commit the own place and those past the last aircraft are Clear.
pub fn entries_law()
    ensures { (e : Parts) (journal : List Entry) → IsEncounter e → IsLegal (air_of e) journal → All (IsEntry (length e.crafts)) journal }
{}
