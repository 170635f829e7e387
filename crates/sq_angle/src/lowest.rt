//! An angle in lowest terms.
ghost use Rattle.std.specs.Prelude.{◌≡◌, ◌<◌, ◌≤◌, ◌*◌, ◌-◌, ◌%◌, max, min};
ghost use Rattle.std.specs.Int.{IsGcd};
ghost use Rattle.sq_angle.specs.Angle.{degrees};
ghost use Rattle.sq_angle.specs.Lowest.{IsLowestFormOf};

use crate::angle::Angle;

impl Angle {
    /// Returns the numerator and the denominator in lowest terms: no number above 1 divides both. Zero is `(0, 1)`.
    pub fn reduced(&self) -> (i64, u64)
        ensures { IsLowestFormOf (degrees self.now) (record { num = result.0; den = result.1 }) }
    {
        let num = self.num();
        let (magnitude, den) = lowest_terms(num.unsigned_abs(), self.den());
        let magnitude = magnitude as i64;
        (if num < 0 { -magnitude } else { magnitude }, den)
    }
}

// Returns the parts of `num / den` without their common divisors.
fn lowest_terms(num: u64, den: u64) -> (u64, u64)
    requires { 1 ≤ den }
    ensures num_at_most { result.0 ≤ num }
    ensures positive { 1 ≤ result.1 }
    ensures coprime { IsGcd result.0 result.1 1 }
    ensures value { result.0 * den ≡ num * result.1 }
{
    let divisor = gcd(num, den);
    if divisor == 1 {
        return (num, den);
    }
    (num / divisor, den / divisor)
}

// Returns the greatest common divisor. The powers of two are removed first: they are most of the divisor in the
// fractions of a grid.
fn gcd(a: u64, b: u64) -> u64
    requires { 0 < b }
    ensures { IsGcd a b result }
{
    let zeros = b.trailing_zeros();
    let twos = zeros.min(a.trailing_zeros());
    odd_gcd(a >> twos, b >> zeros) << twos
}

// Returns the greatest common divisor of `a` and the odd `b`: one remainder, then Stein's binary algorithm. A division
// takes as long as about five of its steps.
fn odd_gcd(a: u64, b: u64) -> u64
    requires { b % 2 ≡ 1 }
    ensures { IsGcd a b result }
{
    let (mut x, mut y) = (a % b, b);
    while x != 0 {
        let odd = x >> x.trailing_zeros();
        (x, y) = apart(odd, y);
    }
    y
}

// Returns the difference of two numbers, and the smaller one.
#[inline(always)]
fn apart(a: u64, b: u64) -> (u64, u64)
    ensures smaller { result.1 ≡ min a b }
    ensures difference { result.0 ≡ max a b - min a b }
{
    if a < b { (b - a, a) } else { (a - b, b) }
}
