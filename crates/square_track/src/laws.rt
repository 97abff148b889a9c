// What a square track says of a straight flight.
ghost use Rattle.square_track.specs.Straight.{BeginsExactly, GoesOnExactly, MissesExactly};

/// A law: where the measured squares are those of two aircraft that fly straight, the track has no error. After three
/// measurements in a row it has the very square, rate and second rate. It keeps them from second to second, with and
/// without a measurement, and no measurement is a surprise. All this holds as long as the numbers are within the limits
/// of the track. A measured square is that of a range in whole feet, so it is near the square of the flight.
pub fn straight_law()
    ensures begins { BeginsExactly }
    ensures goes_on { GoesOnExactly }
    ensures misses { MissesExactly }
{}
