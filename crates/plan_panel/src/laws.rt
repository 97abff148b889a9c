// What holds of the plan.
ghost use Rattle.std.specs.Prelude.{◌≤◌, ℕ, IfSome, Option};
ghost use Rattle.acas_base.specs.Encounter.{Parts};
ghost use Rattle.labels.specs.Labels.{LabelWords};
ghost use Rattle.plan_panel.specs.Laws.{AreNamesApart, AreShown, AreWithin};
ghost use Rattle.plan_panel.specs.Marks.{IsApproach};
ghost use Rattle.plan_panel.specs.declared.panel.Approach.{Approach};

/// A law: all marks of the plan lie within its part of the page, and those of the aircraft within the box. Each place
/// stands at its share of the box, with a loss of less than one unit, and both directions have one scale. Names stand
/// apart from each other.
pub fn plan_law()
    ensures within { (top : ℕ) (e : Parts) (start : Option ℕ) (labels : LabelWords) (nearest : Option Approach) → top ≤ 40000 → 1 ≤ e.cycles → IfSome nearest (IsApproach e) → AreWithin top e start labels nearest }
    ensures shown { (top : ℕ) (e : Parts) → AreShown top e }
    ensures apart { (top : ℕ) (e : Parts) → AreNamesApart top e }
{}
