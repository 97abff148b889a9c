// The root of a whole number.
ghost use Rattle.std.specs.Prelude.{◌≡◌, ℕ, ◌<◌, IsTrue};
ghost use Rattle.acas_num.specs.Root.{root, IsRoot};

// The root of the largest number.
const LARGEST: u64 = 4_294_967_295;

/// The greatest number whose square is at most `n`.
pub fn root(n: u64) -> u64
    ensures value { result ≡ root n }
    ensures greatest { IsRoot n result }
{
    let near = near_root(n);
    if is_root(n, near) {
        return near;
    }
    let nearer = next_near(n, near);
    if is_root(n, nearer) {
        return nearer;
    }
    n.isqrt()
}

// A number near the root, by two steps of Newton's method. It mostly is the root, and the third step nearly always
// gives it. Without them, `isqrt` halves an interval 32 times, and runs of 16 aircraft take 11 (of kind RA) and 32 (of
// kind TA) per cent more instructions.
fn near_root(n: u64) -> u64
    ensures { 0 < result }
{
    next_near(n, next_near(n, first_near(n)))
}

// At most a sixteenth above the root, for a number that isn't small.
fn first_near(n: u64) -> u64
    ensures { 0 < result }
{
    let half = (64 - n.leading_zeros()) / 2;
    ((1u64 << half).wrapping_add(n >> half) / 2).max(1)
}

// A step of Newton's method.
fn next_near(n: u64, near: u64) -> u64
    requires { 0 < near }
    ensures { 0 < result }
{
    (near.wrapping_add(n / near) / 2).max(1)
}

// Whether a number that was found is the root.
fn is_root(n: u64, found: u64) -> bool
    ensures { IsTrue result → found ≡ root n }
{
    if found > LARGEST {
        return false;
    }
    let square = found * found;
    if square > n {
        return false;
    }
    n - square <= 2 * found
}

/// A law: the root of `n` is the greatest number whose square is at most `n`, and no other number is.
pub fn root_law()
    ensures greatest { (n : ℕ) → IsRoot n (root n) }
    ensures only { (n r : ℕ) → IsRoot n r → r ≡ root n }
{}
