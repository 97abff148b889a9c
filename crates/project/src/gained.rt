// What the steps towards a goal add to a sum of rates.
ghost use Rattle.std.specs.Prelude.{◌≡◌, ◌+◌, ◌*◌, ◌/◌, ◌<◌, ◌≤◌, ◌^◌};
ghost use Rattle.project.specs.Gained.{gains};

// The sum of what 1 to `moves` steps gain towards a goal at a distance.
pub(crate) fn sum_gained(distance: u64, step: u64, moves: u64) -> u64
    requires distance { distance ≤ 2 ^ 21 }
    requires forward { 0 < step }
    requires step { step ≤ 2 ^ 16 }
    requires moves { moves ≤ 1200 }
    ensures value { result ≡ gains distance step moves }
    ensures bound { result ≤ 2 ^ 37 }
{
    let whole = distance / step;
    if moves <= whole {
        // The goal is not passed.
        sum_of_steps(step, moves)
    } else {
        // After the last whole step the goal is reached, and kept.
        sum_of_steps(step, whole) + (moves - whole) * distance
    }
}

// The sum of 1 to `count` steps.
fn sum_of_steps(step: u64, count: u64) -> u64
    requires step { step ≤ 2 ^ 16 }
    requires count { count ≤ 1200 }
    ensures value { result ≡ step * (count * (count + 1) / 2) }
    ensures bound { result ≤ 2 ^ 36 }
{
    step * (count * (count + 1) / 2)
}
