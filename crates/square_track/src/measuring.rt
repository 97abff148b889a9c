// What is measured of a horizontal range.
ghost use Rattle.std.specs.Prelude.{◌≡◌, ◌≤◌, ◌*◌, ◌-ℤ◌, pos, neg_ℤ, unsigned_abs};
ghost use Rattle.acas_base.specs.Ranges.{IsWithin};
ghost use Rattle.acas_num.specs.Clamp.{LiesBetween};
ghost use Rattle.square_track.specs.SquareTrack.{IsMeasured, measured_square};

/// What is measured of the horizontal range to another aircraft: its square, in ft2, and the slant range, in ft.
#[derive(Clone, Copy)]
pub struct MeasuredSquare {
    pub square: i64,
    pub range: u32,
}

/// The square of the horizontal range: that of the slant range less that of the difference in altitude, and not below 0
/// (this project's profile 2). The slant range, the other's `reported` altitude and `own` altitude are in ft.
pub fn measured_square(range: u32, reported: i32, own: i32) -> MeasuredSquare
    requires range { range ≤ 182280 }
    requires reported { LiesBetween (neg_ℤ (pos 2000)) (pos 62000) reported }
    requires own { IsWithin 100000 own }
    ensures value { result ≡ measured_square range reported own }
    ensures measured { IsMeasured result }
{
    let slant = square(u64::from(range));
    let height = square(difference(reported, own));
    MeasuredSquare {
        square: slant.saturating_sub(height) as i64,
        range,
    }
}

fn difference(reported: i32, own: i32) -> u64
    requires reported { LiesBetween (neg_ℤ (pos 2000)) (pos 62000) reported }
    requires own { IsWithin 100000 own }
    ensures value { result ≡ unsigned_abs (reported -ℤ own) }
    ensures bound { result ≤ 182280 }
{
    (i64::from(reported) - i64::from(own)).unsigned_abs()
}

fn square(length: u64) -> u64
    requires { length ≤ 182280 }
    ensures value { result ≡ length * length }
    ensures bound { result ≤ 33225998400 }
{
    length * length
}
