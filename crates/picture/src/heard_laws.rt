// What holds of the list of calls.
ghost use Rattle.std.specs.Prelude.{◌≤◌, List, ℕ};
ghost use Rattle.acas_base.specs.Encounter.{Parts};
ghost use Rattle.acas_base.specs.declared.entry.Entry.{Entry};
ghost use Rattle.labels.specs.Labels.{LabelWords};
ghost use Rattle.picture.specs.HeardLaws.{AreInList, AreLines, AreReported};

/// A law: an aircraft has a call for a commit exactly where its line of the report has a phrase, and it is this phrase.
/// Of up to 4 aircraft each call has a line. Of more a call has a line exactly where no aircraft of lower index has an
/// equal call in the cycle, and this line stands for all equal ones. All marks of the list lie within its part of the
/// page.
pub fn heard_law()
    ensures reported { (journal : List Entry) → AreReported journal }
    ensures lines { (journal : List Entry) (count : ℕ) → AreLines journal count }
    ensures within { (top : ℕ) (e : Parts) (journal : List Entry) (labels : LabelWords) → top ≤ 40000 → AreInList top e journal labels }
{}
