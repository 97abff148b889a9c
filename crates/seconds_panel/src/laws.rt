// What holds of the panel of seconds.
ghost use Rattle.std.specs.Prelude.{◌≤◌, ℕ};
ghost use Rattle.acas_base.specs.Encounter.{Parts};
ghost use Rattle.labels.specs.Labels.{LabelWords};
ghost use Rattle.seconds_panel.specs.Laws.{AreInOrder, AreLines, ArePoints, AreWithin};
ghost use Rattle.seconds_panel.specs.declared.own.TestedPair.{TestedPair};
ghost use Rattle.seconds_panel.specs.declared.series.Series.{Series};

/// A law: all marks of the panel lie within its part of the page. A line has a mark for each longest row of cycles in
/// which there is a number, in order; no such cycle is left out. Its point stands at the number, or at 80 where there
/// is more, with a loss of less than one unit, and more seconds stand no lower.
pub fn seconds_law()
    ensures within { (top : ℕ) (e : Parts) (labels : LabelWords) (pair : TestedPair) → top ≤ 40000 → AreWithin top e labels pair }
    ensures lines { (e : Parts) (pair : TestedPair) (series : Series) → AreLines e pair series }
    ensures points { (top : ℕ) (e : Parts) (pair : TestedPair) (series : Series) → ArePoints top e pair series }
    ensures in_order { (top : ℕ) → AreInOrder top }
{}
