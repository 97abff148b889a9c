// How legal journals grow and end.
ghost use Rattle.std.specs.Prelude.{◌≡◌, ℕ, ◌≤◌, List, length};
ghost use Rattle.acas_base.specs.declared.entry.Entry.{Entry};
ghost use Rattle.air_rules.specs.Air.{Air, IsSound};
ghost use Rattle.air_rules.specs.Alike.{AreAlikeUpTo};
ghost use Rattle.air_rules.specs.Journal.{Begins};
ghost use Rattle.air_rules.specs.Length.{IsBounded};
ghost use Rattle.air_rules.specs.Onward.{IsNeverStuck};
ghost use Rattle.air_rules.specs.Rounds.{AreTheSameTo};
ghost use Rattle.air_rules.specs.Rules.{IsLegal, IsComplete};
ghost use Rattle.air_rules.specs.Serial.{IsInOrder, IsSerial};

/// A law: each beginning of a legal journal is legal. A beginning of a beginning is a beginning. Of two beginnings of a
/// journal the longer one begins with the shorter one.
pub fn beginning_law()
    ensures legal { (air : Air) (earlier : List Entry) (journal : List Entry) →
        Begins earlier journal → IsLegal air journal → IsLegal air earlier }
    ensures joined { (first : List Entry) (second : List Entry) (journal : List Entry) →
        Begins second journal → Begins first second → Begins first journal }
    ensures nested { (first : List Entry) (second : List Entry) (journal : List Entry) →
        Begins first journal → Begins second journal → length first ≤ length second →
        Begins first second }
{}

/// A law: a legal journal is complete, or some entry is allowed next. That is a send where somebody owes, else a take
/// where something is due, else the commit of an aircraft with the fewest commits.
pub fn onward_law()
    ensures { (air : Air) (journal : List Entry) →
        IsSound air → IsLegal air journal → IsNeverStuck air journal }
{}

/// A law: a journal in the serial order is legal, and it is complete where the order ends. There is at most one such
/// journal.
pub fn serial_law()
    ensures legal { (air : Air) (journal : List Entry) →
        IsSound air → IsInOrder air journal → IsLegal air journal }
    ensures complete { (air : Air) (journal : List Entry) →
        IsSound air → IsSerial air journal → IsComplete air journal }
    ensures only { (air : Air) (one : List Entry) (two : List Entry) →
        IsSerial air one → IsSerial air two → one ≡ two }
{}

/// A law: what comes first doesn't follow from what is seen later. The serial journals of two airs that are alike up to
/// a cycle are the same up to the end of that round.
pub fn causality_law()
    ensures { (one : Air) (two : Air) (last : ℕ) (journal_one : List Entry) (journal_two : List Entry) →
        IsSound one → IsSound two → AreAlikeUpTo one two last →
        IsSerial one journal_one → IsSerial two journal_two → AreTheSameTo journal_one journal_two last }
{}

/// A law: how many entries a legal journal has at most. Each active aircraft has a commit in each cycle. Each ordered
/// pair of aircraft of kind RA has a send and three takes in each cycle.
pub fn length_law()
    ensures { (air : Air) (journal : List Entry) →
        IsSound air → IsLegal air journal → IsBounded air journal }
{}
