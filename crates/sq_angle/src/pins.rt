//! Guards of the definitions: each has one value, some value or an exact condition, so none can be weakened unnoticed.
//! A function with an empty body does nothing: its contract is the statement.
ghost use Rattle.std.specs.Prelude.{◌≡◌, ◌↔◌, IsTrue};
ghost use Rattle.sq_angle.specs.Angle.{degrees};
ghost use Rattle.sq_angle.specs.Bounds.{most_den};
ghost use Rattle.sq_angle.specs.Decimal.{DecimalWriter};
ghost use Rattle.sq_angle.specs.Fraction.{◌≃◌, ◌≺◌};
ghost use Rattle.sq_angle.specs.Position.{HaveEqualAngles};
ghost use Rattle.sq_angle.specs.Laws.{OneLowestForm, OneLowestFormOfAngles};
ghost use Rattle.sq_angle.specs.Laws.{OneDecimal7, OneSpelling, OneReading, SpellingExactly};

use crate::angle::Angle;
use crate::position::Position;
use crate::read::AngleFault;

/// Two fractions have the same value exactly if they have the same form in lowest terms.
pub fn one_lowest_form()
    ensures fractions { OneLowestForm }
    ensures angles { OneLowestFormOfAngles }
{}

/// A fraction has at most one text with seven decimals.
pub fn one_decimal7()
    ensures { OneDecimal7 }
{}

/// There is a function that writes fractions with seven decimals.
pub fn some_decimal_writer()
    ensures { DecimalWriter }
{}

/// A text splits into the parts of an angle in at most one way.
pub fn one_spelling()
    ensures { OneSpelling }
{}

/// The parts of a text are valid exactly if all their characters are 0 to 9, and one, two or three are before the
/// point.
pub fn spelling_exactly()
    ensures { SpellingExactly }
{}

/// Reading a text has at most one result: one angle or one error.
pub fn one_reading()
    ensures { OneReading }
{}

/// The greatest denominator of an angle, as a number.
pub fn most_den_in_digits()
    ensures { most_den ≡ 1000000000000 }
{}

/// Compares two angles by `==`, which is true exactly if they have the same value.
pub fn equal_angles(a: &Angle, b: &Angle) -> bool
    ensures { IsTrue result ↔ (degrees a.now ≃ degrees b.now) }
{
    a == b
}

/// Compares two angles by `<`, which is true exactly if the value of the first is below that of the second.
pub fn is_below(a: &Angle, b: &Angle) -> bool
    ensures { IsTrue result ↔ (degrees a.now ≺ degrees b.now) }
{
    a < b
}

/// Compares two positions by `==`, which is true exactly if both latitudes and both longitudes have the same value.
pub fn equal_positions(a: &Position, b: &Position) -> bool
    ensures { IsTrue result ↔ HaveEqualAngles a.now b.now }
{
    a == b
}

/// Compares two angle errors by `==`, which is true exactly if they are the same.
pub fn equal_angle_faults(fault: &AngleFault, other: &AngleFault) -> bool
    ensures { IsTrue result ↔ (fault.now ≡ other.now) }
{
    fault == other
}
