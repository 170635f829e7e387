//! Decoding: a frame near a reference, and a pair of frames.
ghost use Rattle.std.specs.Prelude.{option_copied};
ghost use Rattle.squitter_c.specs.Frames.{frame_of};
ghost use Rattle.squitter_c.specs.Decoding.{IsLocal, IsLocalAnswer, IsPair, IsPairAnswer, IsPairAt, IsSiteAnswer};
ghost use Rattle.squitter_c.specs.Decoding.{TellsPosition};

use crate::faults::{Fault, NONE, Reason};
use crate::plain::{PlainPosition, plain_position, position_of};
use sq_angle::Position;
use sq_bits::Frame;
use sq_message::{Place, place_local, place_pair, read_frame};

/// Decodes the position of a frame near a reference, in degrees and in lowest terms. The first fault is that of the
/// reference, then of the frame, then of the position. RTCA DO-260B, appendix on compact position reporting, local
/// decoding.
#[unsafe(no_mangle)]
pub extern "C" fn squitter_local(
    frame: &[u8; 14],
    reference: &PlainPosition,
    out: &mut PlainPosition,
) -> Fault
    ensures { IsLocal (frame_of frame.now) reference.now out.old out.new result }
{
    give(near(&Frame(*frame), reference), out)
}

/// Decodes the position of the newer of an even and an odd airborne frame, in degrees and in lowest terms. The first
/// fault is that of the older frame, then of the newer one, then of the pair. RTCA DO-260B, appendix on compact
/// position reporting, globally unambiguous decoding.
#[unsafe(no_mangle)]
pub extern "C" fn squitter_pair(
    older: &[u8; 14],
    newer: &[u8; 14],
    out: &mut PlainPosition,
) -> Fault
    ensures { IsPair (frame_of older.now) (frame_of newer.now) out.old out.new result }
{
    give(of_two(&Frame(*older), &Frame(*newer), None), out)
}

/// Decodes the position of the newer of two frames with a receiver position (the site), in degrees and in lowest
/// terms. A surface pair gives the position within 45 degrees of the site in both coordinates. The first fault is
/// that of the site, then those of [`squitter_pair`].
#[unsafe(no_mangle)]
pub extern "C" fn squitter_pair_at(
    older: &[u8; 14],
    newer: &[u8; 14],
    site: &PlainPosition,
    out: &mut PlainPosition,
) -> Fault
    ensures { IsPairAt (frame_of older.now) (frame_of newer.now) site.now out.old out.new result }
{
    give(of_two_at(&Frame(*older), &Frame(*newer), site), out)
}

// Writes the position of the place, or reports why there is none.
fn give(answer: Result<Place, Reason>, out: &mut PlainPosition) -> Fault
    ensures { TellsPosition answer out.old out.new result }
{
    match answer {
        Ok(place) => {
            *out = plain_position(&place.position());
            NONE
        }
        Err(reason) => Fault::of(reason),
    }
}

// Decodes the place of a frame near a reference.
#[tactic(auto, unfolding(crate::specs::Decoding::IsLocalAnswer))]
pub(crate) fn near(frame: &Frame, reference: &PlainPosition) -> Result<Place, Reason>
    ensures { IsLocalAnswer frame.now reference.now result }
{
    let Some(reference) = position_of(reference) else {
        return Err(Reason::NoPosition);
    };
    let squitter = match read_frame(frame) {
        Ok(squitter) => squitter,
        Err(fault) => return Err(Reason::Line(fault.into())),
    };
    match place_local(&squitter, &reference) {
        Ok(place) => Ok(place),
        Err(fault) => Err(Reason::Place(fault)),
    }
}

// Decodes the place of the newer of two frames with a site, if the site is a valid position.
fn of_two_at(older: &Frame, newer: &Frame, site: &PlainPosition) -> Result<Place, Reason>
    ensures { IsSiteAnswer older.now newer.now site.now result }
{
    let Some(site) = position_of(site) else {
        return Err(Reason::NoPosition);
    };
    of_two(older, newer, Some(&site))
}

// Decodes the place of the newer of two frames.
#[tactic(auto, unfolding(crate::specs::Decoding::IsPairAnswer))]
fn of_two(older: &Frame, newer: &Frame, site: Option<&Position>) -> Result<Place, Reason>
    ensures { IsPairAnswer older.now newer.now (option_copied site.entry) result }
{
    let older = match read_frame(older) {
        Ok(squitter) => squitter,
        Err(fault) => return Err(Reason::Line(fault.into())),
    };
    let newer = match read_frame(newer) {
        Ok(squitter) => squitter,
        Err(fault) => return Err(Reason::Line(fault.into())),
    };
    match place_pair(&older, &newer, site) {
        Ok(place) => Ok(place),
        Err(fault) => Err(Reason::Place(fault)),
    }
}
