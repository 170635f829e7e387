//! Equality and order of angles by value, and the test of their magnitude.
ghost use Rattle.std.specs.Prelude.{◌≡◌, ◌↔◌, IsTrue, pos, ◌*ℤ◌, Some, refl};
ghost use Rattle.std.specs.Cmp;
ghost use Rattle.std.specs.Cmp.{partial_order_from_agreeing_total};
ghost use Rattle.sq_angle.specs.Angle.{degrees};
ghost use Rattle.sq_angle.specs.Fraction.{IsWithin};
ghost use Rattle.sq_angle.specs.Order.{angle_cmp, same_angle, angle_cmp_total, same_angle_equiv};

use crate::angle::Angle;
use std::cmp::Ordering;

impl Angle {
    /// Returns whether the magnitude is at most `limit` degrees.
    pub fn is_within(&self, limit: u16) -> bool
        ensures { IsTrue result ↔ IsWithin limit (degrees self.now) }
    {
        self.num().unsigned_abs() <= u64::from(limit) * self.den()
    }

    // Returns this angle's numerator times the other's denominator. Two angles compare as these products do.
    fn times(&self, other: &Angle) -> i128
        ensures { result ≡ pos (degrees other.now).den *ℤ (degrees self.now).num }
    {
        i128::from(other.den()) * i128::from(self.num())
    }
}

impl PartialEq for Angle {
    ghost eq = { same_angle };

    ghost laws = { Cmp.partial_equiv_from_equiv same_angle_equiv };

    fn eq(&self, other: &Angle) -> bool {
        self.times(other) == other.times(self)
    }
}

impl Eq for Angle {
    ghost laws = { same_angle_equiv };
}

impl PartialOrd for Angle {
    ghost partial_cmp = { λ x y. Some (angle_cmp x y) };

    ghost laws = { partial_order_from_agreeing_total angle_cmp angle_cmp_total (λ x y. refl) (λ x y. refl) };

    fn partial_cmp(&self, other: &Angle) -> Option<Ordering> {
        Some(self.cmp(other))
    }
}

impl Ord for Angle {
    ghost cmp = { angle_cmp };

    ghost total = { angle_cmp_total };

    ghost matches_partial_cmp = { λ x y. refl };

    ghost matches_eq = { λ x y. refl };

    fn cmp(&self, other: &Angle) -> Ordering {
        self.times(other).cmp(&other.times(self))
    }
}
