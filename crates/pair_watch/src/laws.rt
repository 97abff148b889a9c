// What the text of the intervals says of a legal journal.
ghost use Rattle.std.specs.Prelude.{List};
ghost use Rattle.acas_base.specs.declared.entry.Entry.{Entry};
ghost use Rattle.air_rules.specs.Air.{Air, IsSound};
ghost use Rattle.air_rules.specs.Rules.{IsLegal};
ghost use Rattle.pair_watch.specs.Causes.{HasTrueCauses};
ghost use Rattle.pair_watch.specs.Intervals.{IsCutIntoIntervals};

/// A law: wherever the senses of two aircraft that coordinate are equal, the cause that is told holds. So where it is
/// `l`, the one that gives way made six commits or more between its last good take and its last commit.
pub fn lapsed_law()
    ensures { (air : Air) (journal : List Entry) → IsSound air → IsLegal air journal → HasTrueCauses air journal }
{}

/// A law: each commit of two aircraft after which their senses are equal lies in exactly one interval. An interval has
/// no other commits of the two: it begins and ends with such a commit, and neither the last commit before it nor the
/// first one after it is one.
pub fn intervals_law()
    ensures { (journal : List Entry) → IsCutIntoIntervals journal }
{}
