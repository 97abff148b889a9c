// What holds of the rows.
ghost use Rattle.std.specs.Prelude.{Bool, ℕ};
ghost use Rattle.equal_rows.specs.Rows.{AreRows, IsRun, rows_of};

/// A law: the rows of a run are exactly its longest rows of cycles that show the same, in order. Each cycle that shows
/// something is in one of them, and no row can be made longer.
pub fn rows_law()
    ensures { (shows goes_on : ℕ → Bool) (cycles : ℕ) → IsRun shows goes_on → AreRows shows goes_on cycles 0 (rows_of shows goes_on cycles) }
{}
