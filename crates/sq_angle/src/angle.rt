//! An angle as a fraction that is not reduced.
ghost use Rattle.std.specs.Prelude.{◌≡◌, ◌↔◌, IsSome, IfSome};
ghost use Rattle.sq_angle.specs.Bounds.{IsAngle};

/// The greatest denominator of an angle.
pub const MAX_DENOMINATOR: u64 = 1_000_000_000_000;

/// An angle of `num / den` degrees, from -360 to 360.
///
/// The denominator is from 1 to [`MAX_DENOMINATOR`]. Two angles are equal if they have the same value.
#[derive(Clone, Copy, Debug)]
pub struct Angle {
    num: i64,
    den: u64,
    pub ghost in_range: { IsAngle num den },
}

impl Angle {
    ghost use Rattle.sq_angle.specs.Angle.{degrees};

    /// Returns the angle of `num / den` degrees. Returns `None` exactly if the denominator is 0 or above
    /// [`MAX_DENOMINATOR`], or the magnitude is above 360 degrees.
    pub fn new(num: i64, den: u64) -> Option<Angle>
        ensures variant { IsSome result ↔ IsAngle num den }
        ensures value { IfSome result (λ a. degrees a ≡ record { num = num; den = den }) }
    {
        if den < 1 || den > MAX_DENOMINATOR || num.unsigned_abs() > 360 * den {
            return None;
        }
        Some(Angle { num, den })
    }

    /// Returns the angle of `num / den` degrees without a test. The denominator has to be from 1 to
    /// [`MAX_DENOMINATOR`], and the magnitude at most 360 degrees.
    #[inline(always)]
    pub fn known(num: i64, den: u64) -> Angle
        requires { IsAngle num den }
        ensures { degrees result ≡ record { num = num; den = den } }
    {
        Angle { num, den }
    }

    /// Returns the numerator, not in lowest terms.
    pub fn num(&self) -> i64
        ensures { result ≡ (degrees self.now).num }
    {
        self.num
    }

    /// Returns the denominator, not in lowest terms.
    pub fn den(&self) -> u64
        ensures { result ≡ (degrees self.now).den }
    {
        self.den
    }
}
