//! Guards of the definitions: each has one value, some value or an exact condition, so none can be weakened unnoticed.
//! A function with an empty body does nothing: its contract is the statement.
ghost use Rattle.std.specs.Prelude.{◌≡◌, ◌≤◌, ◌↔◌, IsTrue, ℕ, ℤ, Result};
ghost use Rattle.sq_bits.specs.declared.frame.Frame.{Frame};
ghost use Rattle.sq_bits.specs.Frames.{IsFrame};
ghost use Rattle.sq_message.specs.declared.air.Altitude.{Altitude};
ghost use Rattle.sq_message.specs.declared.air.Altitude.TheVariants.{Feet};
ghost use Rattle.sq_message.specs.declared.squitter.FrameFault.{FrameFault};
ghost use Rattle.sq_message.specs.declared.squitter.Squitter.{Squitter};
ghost use Rattle.sq_message.specs.Altitudes.{IsAltitude, IsFieldOfFeet};
ghost use Rattle.sq_message.specs.Exactly.{NoPlaceExactly, NoPlaceNearExactly, OneAnswerNear, OneAnswerOfPair};
ghost use Rattle.sq_message.specs.Exactly.{OnePlaceOfNewer, ReadAsPairExactly, ReadNearExactly, SentAgainExactly};
ghost use Rattle.sq_message.specs.Exactly.{AltitudeExactly, PairPlaceExactly, SquitterOfExactly};
ghost use Rattle.sq_message.specs.Headline.{OneFrameSent, OneLocalPlace, OnePairPlace};
ghost use Rattle.sq_message.specs.Headline.{SomeLocalPlace, SomePairPlace};
ghost use Rattle.sq_message.specs.Exactly.{NearReferenceExactly, LieAtExactly};
ghost use Rattle.sq_message.specs.Spelling.{IsReading, Spells};

use crate::{
    AirHead, Altitude, Frame, FrameFault, GroundHead, Kind, Place, PlaceFault, Received, Squitter,
};

/// A frame has at most one reading.
pub fn one_reading()
    ensures { (f : Frame) (r s : Result Squitter FrameFault) → IsReading f r → IsReading f s → r ≡ s }
{}

/// Each frame has a reading.
pub fn some_reading()
    ensures { (f : Frame) → IsFrame f → (r : Result Squitter FrameFault) × IsReading f r }
{}

/// A squitter has at most one frame.
pub fn one_frame()
    ensures { (f g : Frame) (q : Squitter) → IsFrame f → IsFrame g → Spells f q → Spells g q → f ≡ g }
{}

/// An altitude field has at most one meaning under a type code.
pub fn one_altitude()
    ensures { (code field : ℕ) (a b : Altitude) → IsAltitude code field a → IsAltitude code field b → a ≡ b }
{}

/// Up to type code 18, an altitude field means a number of feet exactly if it is the field of that number.
pub fn feet_exactly()
    ensures { (code field : ℕ) (feet : ℤ) (meaning : Altitude) → code ≤ 18 → IsAltitude code field meaning
        → (meaning ≡ Feet feet) ↔ IsFieldOfFeet field feet }
{}

/// Up to type code 18, a field of 0 is `Missing`, and any other field is `Raw` exactly if Q is 0. From 20 on every
/// field is `Raw`.
pub fn altitude_exactly()
    ensures { AltitudeExactly }
{}

/// A squitter is sent from a point exactly if it has the whole head, the point's parity and a code with the point's
/// numbers.
pub fn squitter_of_exactly()
    ensures { SquitterOfExactly }
{}

/// If one of a pair is no position, the only result is `NotPosition`. If the addresses differ, it is `OtherAddress`.
/// With one address the results are those of the two messages.
pub fn pair_place_exactly()
    ensures { PairPlaceExactly }
{}

/// A head, a parity and a position are sent as at most one frame.
pub fn one_frame_sent<F: Kind>()
    ensures { OneFrameSent F.kind }
{}

/// Decoding a squitter near a reference has at most one result.
pub fn one_local_place()
    ensures { OneLocalPlace }
{}

/// Decoding a pair of squitters has at most one result.
pub fn one_pair_place()
    ensures { OnePairPlace }
{}

/// Decoding a squitter near a reference has a result.
pub fn some_local_place()
    ensures { SomeLocalPlace }
{}

/// Decoding a pair of squitters has a result.
pub fn some_pair_place()
    ensures { SomePairPlace }
{}

/// Compares two squitters by `==`, which is true exactly if they are the same.
pub fn equal_squitters(squitter: &Squitter, other: &Squitter) -> bool
    ensures { IsTrue result ↔ (squitter.now ≡ other.now) }
{
    squitter == other
}

/// Compares two heads in the air by `==`, which is true exactly if they are the same.
pub fn equal_air_heads(head: &AirHead, other: &AirHead) -> bool
    ensures { IsTrue result ↔ (head.now ≡ other.now) }
{
    head == other
}

/// Compares two heads on the ground by `==`, which is true exactly if they are the same.
pub fn equal_ground_heads(ground: &GroundHead, other: &GroundHead) -> bool
    ensures { IsTrue result ↔ (ground.now ≡ other.now) }
{
    ground == other
}

/// Compares two squitters with their timestamps by `==`, which is true exactly if they are the same.
pub fn equal_received(received: &Received, other: &Received) -> bool
    ensures { IsTrue result ↔ (received.now ≡ other.now) }
{
    received == other
}

/// Compares two altitudes by `==`, which is true exactly if they are the same.
pub fn equal_altitudes(altitude: &Altitude, other: &Altitude) -> bool
    ensures { IsTrue result ↔ (altitude.now ≡ other.now) }
{
    altitude == other
}

/// Compares two places by `==`, which is true exactly if they are the same.
pub fn equal_places(place: &Place, other: &Place) -> bool
    ensures { IsTrue result ↔ (place.now ≡ other.now) }
{
    place == other
}

/// Compares two frame errors by `==`, which is true exactly if they are the same.
pub fn equal_frame_faults(fault: &FrameFault, other: &FrameFault) -> bool
    ensures { IsTrue result ↔ (fault.now ≡ other.now) }
{
    fault == other
}

/// Compares two place errors by `==`, which is true exactly if they are the same.
pub fn equal_place_faults(place_fault: &PlaceFault, other: &PlaceFault) -> bool
    ensures { IsTrue result ↔ (place_fault.now ≡ other.now) }
{
    place_fault == other
}

/// A point is strictly near a reference exactly if it is strictly near the reference's latitude and longitude. The
/// points of a pair may lie anywhere in the air, and on the ground less than 45 degrees from the site.
pub fn near_reference_exactly<F: Kind>()
    ensures near { NearReferenceExactly F.kind }
    ensures lie_at { LieAtExactly }
{}

/// A frame has at most one result near a reference. An even and an odd frame have at most one result as a pair, and
/// the newer has at most one place.
pub fn one_answer_of_frames()
    ensures near { OneAnswerNear }
    ensures pair { OneAnswerOfPair }
    ensures newer { OnePlaceOfNewer }
{}

/// A frame is read near a reference as a place exactly if that place is the result of decoding it there. The same
/// holds for a pair of frames. The headline's definitions, over all readings, agree with those of the calls.
pub fn read_exactly()
    ensures near { ReadNearExactly }
    ensures pair { ReadAsPairExactly }
{}

/// Frames have no place exactly if no place is a result of decoding them, near a reference and as a pair.
pub fn no_place_exactly()
    ensures near { NoPlaceNearExactly }
    ensures pair { NoPlaceExactly }
{}

/// The exact condition for sending again: the place is sent as the frame that it came from.
pub fn sent_again_exactly()
    ensures { SentAgainExactly }
{}
