// What holds of the nearest pair and of its panels.
ghost use Rattle.std.specs.Prelude.{◌≤◌, ℕ};
ghost use Rattle.acas_base.specs.Encounter.{IsEncounter, Parts};
ghost use Rattle.labels.specs.Labels.{LabelWords};
ghost use Rattle.pair_panels.specs.Laws.{AreShown, AreWithin};
ghost use Rattle.pair_panels.specs.Nearest.{IsNearest, IsPair, nearest_pair};
ghost use Rattle.pair_panels.specs.declared.distance.Distance.{Distance};
ghost use Rattle.pair_panels.specs.declared.nearest.NearPair.{NearPair};

/// A law: of the pairs in which an aircraft advises no one comes nearer than the nearest pair, and of those that come
/// as near it has the least indices. Where there is none, there is no such pair.
pub fn nearest_law()
    ensures { (e : Parts) → IsEncounter e → IsNearest e (nearest_pair e) }
{}

/// A law: all marks of a panel lie within its part of the page. Each distance stands at its place, with a loss of less
/// than one unit, and a greater distance stands no lower than a less one.
pub fn distance_law()
    ensures within { (top : ℕ) (e : Parts) (labels : LabelWords) (distance : Distance) (pair : NearPair) → top ≤ 40000 → IsPair e pair → AreWithin top e labels distance pair }
    ensures shown { (top : ℕ) (e : Parts) (distance : Distance) (pair : NearPair) → AreShown top e distance pair }
{}
