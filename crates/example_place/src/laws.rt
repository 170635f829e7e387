//! Laws of decoding frame texts.
ghost use Rattle.std.specs.Prelude.{◌≡◌, ◌↔◌, IsTrue};
ghost use Rattle.example_place.specs.Laws.{OneAnswerNear, OneAnswerOfPair, OneTrueAnswerInAir, OneTrueAnswerOnGround};

use crate::fault::Fault;

/// Decoding has at most one result: for one text near a reference, and for two texts with or without a site.
pub fn one_answer()
    ensures near { OneAnswerNear }
    ensures pair { OneAnswerOfPair }
{}

/// For a frame sent from near the reference, at most one result meets the contract of local decoding.
pub fn one_true_answer()
    ensures in_air { OneTrueAnswerInAir }
    ensures on_ground { OneTrueAnswerOnGround }
{}

/// Compares two errors by `==`, which is true exactly if they are the same.
pub fn equal_faults(fault: &Fault, other: &Fault) -> bool
    ensures { IsTrue result ↔ (fault.now ≡ other.now) }
{
    fault == other
}
