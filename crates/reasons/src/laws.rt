// What the words of the rules and the columns tell.
ghost use Rattle.std.specs.Prelude.{◌≡◌, List};
ghost use Rattle.acas_base.specs.Encounter.{IsEncounter, Parts};
ghost use Rattle.acas_base.specs.Next.{following_cell};
ghost use Rattle.acas_base.specs.declared.advisory.Cell.{Cell};
ghost use Rattle.acas_base.specs.declared.advisory.Rank.{Rank};
ghost use Rattle.acas_base.specs.declared.advisory.Vrc.{Vrc};
ghost use Rattle.acas_base.specs.declared.entry.Entry.{Entry};
ghost use Rattle.acas_base.specs.declared.setting.Profile.{Profile};
ghost use Rattle.acas_base.specs.declared.view.View.{View};
ghost use Rattle.air_journal.specs.Airs.{air_of};
ghost use Rattle.air_rules.specs.Rules.{IsLegal};
ghost use Rattle.reasons.specs.Aboard.{GoesByBoth, GoesByHearing, GoesBySight, NamesItsMessage};
ghost use Rattle.reasons.specs.Agreeing.{AreAgreeing, AreAgreeingOnChoice};
ghost use Rattle.reasons.specs.Explained.{AreExplained, Explains, ExplainsOnce};
ghost use Rattle.reasons.specs.Rules.{rule_of};

/// A law: what a rule's word says holds of the cell before, the view, the complement in force and the rank, and the
/// cell that follows is the one that the rule gives.
pub fn rule_law()
    ensures { (before : Cell) (view : View) (complement : Vrc) (rank : Rank) → Explains view complement rank before (rule_of before view complement rank) (following_cell before view complement rank) }
{}

/// A law: it holds of no other rule, and the rule gives no other cell.
pub fn unique_law()
    ensures { ExplainsOnce }
{}

/// A law: in every legal journal of every encounter the cell of each commit against each other aircraft is the one that
/// the rule of its line gives.
pub fn reason_law()
    ensures { (e : Parts) (journal : List Entry) → IsEncounter e → IsLegal (air_of e) journal → AreExplained e journal }
{}

/// A law: in profile 1 the columns of each line of a legal journal agree. There is traffic exactly where the line's own
/// seconds of a traffic advisory are within tau, and a threat exactly where own aircraft resolves and those of a
/// resolution advisory are. An advisory that `starts` has the sense `chosen`. One that `weakens` has ALIM. Where one
/// `reverses`, its own sense doesn't give ALIM with the later response, and the other one does.
///
/// In profile 2 too, there is a choice exactly where the pair is tested and own aircraft resolves, and an advisory that
/// `starts` has the sense `chosen`. The rest doesn't hold there: the tests need more than the columns have, and an
/// advisory weakens or is reversed for other reasons too.
pub fn columns_law()
    ensures choice { (e : Parts) (journal : List Entry) → IsEncounter e → IsLegal (air_of e) journal → AreAgreeingOnChoice e journal }
    ensures columns { (e : Parts) (journal : List Entry) → IsEncounter e → IsLegal (air_of e) journal → e.profile ≡ Profile.One → AreAgreeing e journal }
{}

/// A law: what a line tells that was measured, tracked, tested and projected follows from the sight of own aircraft up
/// to the cycle of the line.
pub fn seen_law()
    ensures { GoesBySight }
{}

/// A law: which complement was in force, and for how many commits, follows from what own aircraft heard: its own
/// commits and the messages that it took unspoilt.
pub fn heard_law()
    ensures { GoesByHearing }
{}

/// A law: all of a line of a legal journal follows from both, but for its position, the addresses, and the positions of
/// the message in force, which only name.
pub fn on_board_law()
    ensures { GoesByBoth }
{}

/// A law: the message that a line names was sent by the other aircraft at `sent_at`, and own aircraft took a copy of it
/// unspoilt at `taken_at`; the copy reads as the complement of the line, and hasn't lapsed.
pub fn message_law()
    ensures { NamesItsMessage }
{}
