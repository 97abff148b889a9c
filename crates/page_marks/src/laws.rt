// What holds of bounds.
ghost use Rattle.std.specs.Prelude.{ℕ, List, Option};
ghost use Rattle.std.specs.List.{AllByRecursion};
ghost use Rattle.page_marks.specs.Ticks.{AreTicksWithin, HoldsTicks};
ghost use Rattle.page_marks.specs.Within.{AreInside, Bounds, IsMarkWithin};
ghost use Rattle.page_marks.specs.declared.tick_place.TickPlace.{TickPlace};
ghost use Rattle.svg_text.specs.Marks.{Mark};

/// A law: marks that lie within bounds lie within all bounds round these.
pub fn bounds_law()
    ensures { (inner outer : Bounds) → AreInside inner outer → (marks : List Mark) → AllByRecursion (IsMarkWithin inner) marks → AllByRecursion (IsMarkWithin outer) marks }
{}

/// A law: the ticks of time lie within all bounds that hold the axis, both ends of their lines and their labels. Their
/// numbers fit.
pub fn ticks_law()
    ensures { (bounds : Bounds) (cycles : ℕ) (start : Option ℕ) (place : TickPlace) → HoldsTicks bounds place → AreTicksWithin bounds cycles start place }
{}
