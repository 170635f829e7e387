//! Laws of fractions and of the texts of angles, over the definitions in the contracts of the calls.
//!
//! A function with an empty body does nothing: its contract is the law. The others make the call that they speak of.
ghost use Rattle.sq_angle.specs.Laws.{OrderedByValue, WithinAsFractions};
ghost use Rattle.sq_angle.specs.Laws.{ExactlyOnePasses};

/// Two angles are equal, or one is below the other, exactly if the same holds for their fractions.
pub fn ordered_by_value()
    ensures { OrderedByValue }
{}

/// A magnitude is at most a limit exactly if the value lies between minus the limit and the limit, both included.
pub fn within_as_fractions()
    ensures { WithinAsFractions }
{}

/// Exactly one number passes a test exactly if some number passes it and any two that pass are equal.
pub fn exactly_one()
    ensures { ExactlyOnePasses }
{}
