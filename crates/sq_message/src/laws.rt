//! Laws of frames, squitters and altitudes. The contracts of the calls name the same definitions.
//!
//! A function with an empty body does nothing: its contract is the law. The others make the calls that the law is
//! about and return the result of each call.
ghost use Rattle.std.specs.Prelude.{◌≡◌, ◌<◌, ◌^◌, ◌↔◌, None, Some, Result, Ok, Err, IfErr, IfOk, IfSome};
ghost use Rattle.std.specs.Prelude.{option_copied};
ghost use Rattle.sq_bits.specs.declared.frame.Frame.{Frame};
ghost use Rattle.sq_message.specs.declared.squitter.FrameFault.{FrameFault};
ghost use Rattle.sq_message.specs.declared.squitter.Squitter.{Squitter};
ghost use Rattle.sq_zones.specs.declared.parity.Parity.TheVariants.{Even, Odd};
ghost use Rattle.sq_cpr.specs.Near.{IsStrictlyNearPosition};
ghost use Rattle.sq_cpr.specs.Rounds.{PositionRoundsTo};
ghost use Rattle.sq_cpr.specs.Grid.{Point};
ghost use Rattle.sq_cpr.specs.Close.{AreClosePoints};
ghost use Rattle.sq_cpr.specs.Pair.{of_parity};
ghost use Rattle.sq_cpr.specs.Zones.{ZonePair, PositionIsInZones};
ghost use Rattle.sq_message.specs.Kinds.{InAir, OnGround, head_of, place_at, span_of};
ghost use Rattle.sq_message.specs.Calls.{DecodedIsSentAgain, HasNoPlaceNear, HaveNoPlace, IsPlaceOfPair, IsAnswerNear};
ghost use Rattle.sq_message.specs.Calls.{IsPlaceOfNewer, IsAnswerOfPair, IsSentAgain};
ghost use Rattle.sq_message.specs.Headline.{ClosePair, LieAt};
ghost use Rattle.sq_message.specs.Headline.{WrittenAgain, NearReference, SentAgain};
ghost use Rattle.sq_message.specs.Parts.{squitter_parts};
ghost use Rattle.sq_message.specs.Exactly.{DecodedByCalls, EachHasItsZones};
ghost use Rattle.sq_message.specs.Places.{IsLocalPlace, IsSentAt};
ghost use Rattle.sq_message.specs.Sending.{IsFrameOf, SameZones};
ghost use Rattle.sq_message.specs.Spelling.{IsReading, Spells};

use crate::{
    Frame, FrameFault, Head, Kind, Parity, Place, PlaceFault, Position, Squitter, place_local,
    place_pair, read_frame, send_point, send_position, write_frame,
};
use sq_bits::laws::each_frame;

/// A head has a capability below 8 and an address below 2^24. A caller sees this of a head that it owns, and by this
/// call of one that it borrows.
pub fn head_in_range<F: Copy>(head: &Head<F>)
    ensures ca { head.now.ca < 8 }
    ensures address { head.now.address < 2 ^ 24 }
{
    let _ = (head.ca(), head.address());
}

/// A frame that encodes a squitter has no other reading than that squitter.
pub fn spelled_is_read()
    ensures { (f : Frame) (q : Squitter) (r : Result Squitter FrameFault) → Spells f q → IsReading f r → r ≡ Ok q }
{}

/// Writes a squitter and reads the frame, which gives the same squitter. Returns the frame and the result of reading
/// it.
pub fn read_of_written(squitter: &Squitter) -> (Frame, Result<Squitter, FrameFault>)
    ensures written { Spells result.0 squitter.now }
    ensures read { IsReading result.0 result.1 }
    ensures same { result.1 ≡ Ok squitter.now }
{
    let frame = write_frame(squitter);
    let read = read_frame(&frame);
    (frame, read)
}

/// Reads a frame and writes its squitter, which gives the same frame. Returns the squitter and the written frame, or
/// the error of [`read_frame`].
pub fn written_of_read(frame: &Frame) -> Result<(Squitter, Frame), FrameFault>
    ensures read { IfOk result (λ both. IsReading frame.now (Ok both.0)) }
    ensures written { IfOk result (λ both. Spells both.1 both.0) }
    ensures same { IfOk result (λ both. both.1 ≡ frame.now) }
    ensures refused { IfErr result (λ fault. IsReading frame.now (Err fault)) }
{
    each_frame(frame);
    let squitter = read_frame(frame)?;
    let written = write_frame(&squitter);
    each_frame(&written);
    Ok((squitter, written))
}

/// Two positions in the same zones of a parity's grid, sent with one head, have equal frames exactly if they round to
/// one point.
pub fn same_zones<F: Kind>()
    ensures { SameZones F.kind }
{}

/// Encodes two positions with one head and returns their frames in order. If the positions lie in the same zones, the
/// frames are equal exactly if the positions round to one point.
pub fn frames<F: Kind>(
    head: Head<F>,
    parity: Parity,
    here: &Position,
    there: &Position,
) -> (Frame, Frame)
    ensures here { IsFrameOf F.kind (head_of F.kind F.fields head) parity here.now result.0 }
    ensures there { IsFrameOf F.kind (head_of F.kind F.fields head) parity there.now result.1 }
    ensures same { (zones : ZonePair) (p q : Point)
        → PositionIsInZones (span_of F.kind) parity here.now zones
        → PositionIsInZones (span_of F.kind) parity there.now zones
        → p.parity ≡ parity → q.parity ≡ parity
        → PositionRoundsTo (span_of F.kind) here.now p → PositionRoundsTo (span_of F.kind) there.now q
        → (result.0 ≡ result.1) ↔ (p ≡ q) }
{
    let from_here = frame_sent(head, here, parity);
    let from_there = frame_sent(head, there, parity);
    (from_here, from_there)
}

// Encodes a position as a frame.
fn frame_sent<F: Kind>(head: Head<F>, position: &Position, parity: Parity) -> Frame
    ensures sent { IsFrameOf F.kind (head_of F.kind F.fields head) parity position.now result }
    ensures spelled { (q : Squitter) × Spells result q }
{
    let frame = write_frame(&send_position(head, position, parity));
    each_frame(&frame);
    frame
}

/// Sending a place that a squitter decodes to gives that squitter again.
pub fn decoded_is_sent_again()
    ensures { DecodedIsSentAgain }
{}

/// Decodes a squitter near a reference and sends the place, which gives the same squitter. Returns the place and the
/// sent squitter, or the error of [`place_local`].
pub fn local_again(
    squitter: &Squitter,
    reference: &Position,
) -> Result<(Place, Squitter), PlaceFault>
    ensures decoded { IfOk result (λ both. IsLocalPlace (squitter_parts squitter.now).me reference.now (Ok both.0)) }
    ensures sent { IfOk result (λ both. IsSentAt (squitter_parts squitter.now) both.0 (squitter_parts both.1)) }
    ensures same { IfOk result (λ both. both.1 ≡ squitter.now) }
    ensures refused { IfErr result (λ fault. IsLocalPlace (squitter_parts squitter.now).me reference.now (Err fault)) }
{
    let place = place_local(squitter, reference)?;
    let again = send_point(squitter, &place);
    Ok((place, again))
}

/// Decodes a pair and sends the place of the newer squitter, which gives the newer squitter again. Returns the place
/// and the sent squitter, or the error of [`place_pair`].
pub fn pair_again(
    older: &Squitter,
    newer: &Squitter,
    site: Option<&Position>,
) -> Result<(Place, Squitter), PlaceFault>
    ensures decoded { IfOk result (λ both.
        IsPlaceOfPair older.now newer.now (option_copied site.entry) (Ok both.0)) }
    ensures sent { IfOk result (λ both. IsSentAt (squitter_parts newer.now) both.0 (squitter_parts both.1)) }
    ensures same { IfOk result (λ both. both.1 ≡ newer.now) }
    ensures refused { IfErr result (λ fault.
        IsPlaceOfPair older.now newer.now (option_copied site.entry) (Err fault)) }
{
    let place = place_pair(older, newer, site)?;
    let again = send_point(newer, &place);
    Ok((place, again))
}

/// A place that local decoding gives for a squitter is a decoded place in the sense of the headline. So is a place
/// that pair decoding gives for the newer of a pair.
pub fn decoded_by_calls()
    ensures { DecodedByCalls }
{}

/// A position lies in exactly one pair of zones of each parity's grid, in the air and on the ground.
pub fn each_has_its_zones<F: Kind>()
    ensures { EachHasItsZones F.kind }
{}

/// Two positions in the same latitude and longitude zones of a parity's grid are written as the same frame exactly if
/// they round to the same grid point; a frame read with a reference strictly within half a zone of that point in both
/// coordinates gives that point exactly, as does a close even and odd pair with equal zone counts; writing any decoded
/// point again gives the same frame.
///
/// Each part is stated for airborne and for surface positions. Frames that are compared have equal heads. Zones are
/// shifted by half a step, and half a zone is measured in the zones of the point itself. The frames of a pair have
/// one address and one kind; on the ground both points lie less than 45 degrees from the site.
pub fn headline()
    // Two positions in the same zones have one frame exactly if they round to one point.
    ensures same_frame_in_air { SameZones InAir }
    ensures same_frame_on_ground { SameZones OnGround }

    // A frame read with a reference strictly within half a zone of its point gives that point.
    ensures near_reference_in_air { NearReference InAir }
    ensures near_reference_on_ground { NearReference OnGround }

    // An even and an odd frame of close points with one zone count give the point of the newer one.
    ensures close_pair_in_air { ClosePair InAir }
    ensures close_pair_on_ground { ClosePair OnGround }

    // A decoded point is written again as the same frame, and so is the exact position of the point.
    ensures written_again { WrittenAgain }
    ensures sent_again_in_air { SentAgain InAir }
    ensures sent_again_on_ground { SentAgain OnGround }
{}

// Reads a frame that encodes a squitter.
fn read_spelled(frame: &Frame) -> Squitter
    requires { (q : Squitter) × Spells frame.now q }
    ensures { IsReading frame.now (Ok result) }
{
    read_frame(frame).unwrap()
}

/// Sends a position and decodes its frame near a reference. Returns the frame and the result of decoding it.
///
/// If the reference is strictly within half a zone, in both coordinates, of the point to which the position rounds,
/// the result is that point.
pub fn read_near_of_sent<F: Kind>(
    head: Head<F>,
    parity: Parity,
    position: &Position,
    reference: &Position,
) -> (Frame, Result<Place, PlaceFault>)
    ensures sent { IsFrameOf F.kind (head_of F.kind F.fields head) parity position.now result.0 }
    ensures read { IsAnswerNear result.0 reference.now result.1 }
    ensures point { (point : Point) → point.parity ≡ parity → PositionRoundsTo (span_of F.kind) position.now point
        → IsStrictlyNearPosition (span_of F.kind) reference.now point → result.1 ≡ Ok (place_at F.kind point) }
{
    let frame = frame_sent(head, position, parity);
    let squitter = read_spelled(&frame);
    let place = place_local(&squitter, reference);
    (frame, place)
}

// Decodes an even and an odd squitter as a pair; `newest` is the parity of the newer one.
fn place_of_newest(
    newest: Parity,
    even: &Squitter,
    odd: &Squitter,
    site: Option<&Position>,
) -> Result<Place, PlaceFault>
    ensures { IsPlaceOfPair (of_parity newest odd.now even.now) (of_parity newest even.now odd.now)
        (option_copied site.entry) result }
{
    match newest {
        Parity::Even => place_pair(odd, even, site),
        Parity::Odd => place_pair(even, odd, site),
    }
}

/// Sends an even and an odd position and decodes the frames as a pair. Returns the even frame, the odd frame and the
/// result; `newest` is the parity of the newer frame. In the air the site is not used.
///
/// The result is the point of the newer frame if the heads have one address and the positions round to close points.
/// Close points have one zone count. On the ground they also have to lie less than 45 degrees from the site in both
/// coordinates.
pub fn read_pair_of_sent<F: Kind>(
    even_head: Head<F>,
    even_position: &Position,
    odd_head: Head<F>,
    odd_position: &Position,
    newest: Parity,
    site: Option<&Position>,
) -> (Frame, Frame, Result<Place, PlaceFault>)
    ensures even { IsFrameOf F.kind (head_of F.kind F.fields even_head) Even even_position.now result.0 }
    ensures odd { IsFrameOf F.kind (head_of F.kind F.fields odd_head) Odd odd_position.now result.1 }
    ensures read { IsAnswerOfPair newest result.0 result.1 (option_copied site.entry) result.2 }
    ensures point { (a b : Point) → even_head.address ≡ odd_head.address
        → PositionRoundsTo (span_of F.kind) even_position.now a → PositionRoundsTo (span_of F.kind) odd_position.now b
        → AreClosePoints (span_of F.kind) a b → LieAt F.kind (option_copied site.entry) a b
        → result.2 ≡ Ok (place_at F.kind (of_parity newest a b)) }
{
    let even = frame_sent(even_head, even_position, Parity::Even);
    let odd = frame_sent(odd_head, odd_position, Parity::Odd);
    let even_squitter = read_spelled(&even);
    let odd_squitter = read_spelled(&odd);
    let place = place_of_newest(newest, &even_squitter, &odd_squitter, site);
    (even, odd, place)
}

/// Reads a frame, decodes it near a reference and sends the place, which gives the same frame. Returns the squitter,
/// the place and the sent frame.
///
/// Returns `None` exactly if the frame encodes no squitter or the squitter cannot be decoded near the reference.
pub fn sent_again_near(frame: &Frame, reference: &Position) -> Option<(Squitter, Place, Frame)>
    ensures decoded { IfSome result (λ all. IsLocalPlace (squitter_parts all.0).me reference.now (Ok all.1)) }
    ensures again { IfSome result (λ all. IsSentAgain frame.now all.0 all.1 all.2) }
    ensures none { result ≡ None → HasNoPlaceNear frame.now reference.now }
{
    let Ok(squitter) = read_frame(frame) else {
        return None;
    };
    match local_again(&squitter, reference) {
        Ok((place, again)) => Some((squitter, place, written_as(frame, &again))),
        Err(_) => None,
    }
}

/// Reads two frames, decodes them as a pair and sends the place, which gives the newer frame again. Returns the newer
/// squitter, the place and the sent frame.
///
/// Returns `None` exactly if one of the frames encodes no squitter or the pair cannot be decoded.
pub fn sent_again_of_pair(
    older: &Frame,
    newer: &Frame,
    site: Option<&Position>,
) -> Option<(Squitter, Place, Frame)>
    ensures decoded { IfSome result (λ all.
        IsPlaceOfNewer older.now all.0 (option_copied site.entry) all.1) }
    ensures again { IfSome result (λ all. IsSentAgain newer.now all.0 all.1 all.2) }
    ensures none { result ≡ None → HaveNoPlace older.now newer.now (option_copied site.entry) }
{
    let Ok(earlier) = read_frame(older) else {
        return None;
    };
    let Ok(squitter) = read_frame(newer) else {
        return None;
    };
    match pair_again(&earlier, &squitter, site) {
        Ok((place, again)) => Some((squitter, place, written_as(newer, &again))),
        Err(_) => None,
    }
}

// Writes a squitter that `frame` encodes, which gives the same frame.
fn written_as(frame: &Frame, squitter: &Squitter) -> Frame
    requires { Spells frame.now squitter.now }
    ensures written { Spells result squitter.now }
    ensures same { result ≡ frame.now }
{
    let written = write_frame(squitter);
    each_frame(frame);
    each_frame(&written);
    written
}
