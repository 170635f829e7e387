//! Encoding: the frame for a position.
ghost use Rattle.std.specs.Prelude.{◌≡◌, MatchOption};
ghost use Rattle.sq_message.specs.Kinds.{InAir, OnGround};
ghost use Rattle.sq_message.specs.Parts.{squitter_parts};
ghost use Rattle.sq_message.specs.Places.{Fits, IsPosition};
ghost use Rattle.squitter_c.specs.Frames.{frame_of};
ghost use Rattle.squitter_c.specs.Sending.{IsAgainAnswer, IsFrameFrom, IsRoundedTo, IsSendAnswer, IsSentAgain};
ghost use Rattle.squitter_c.specs.Sending.{IsSentFrame, TellsFrame};

use crate::faults::{Fault, NONE, Reason};
use crate::heads::{PlainAirHead, PlainGroundHead, air_head, ground_head};
use crate::plain::{PlainPosition, parity_of, position_of};
use sq_angle::Position;
use sq_bits::Frame;
use sq_bits::laws::each_frame;
use sq_cpr::{Air, Ground, Parity, nearest};
use sq_message::{
    Me, Place, PlaceFault, Squitter, read_frame, send_air, send_ground, send_point, write_frame,
};

/// Encodes the frame for an airborne position (ICAO Doc 9871, register 0,5). The first fault is that of the head or
/// its parity, then that of the position.
#[unsafe(no_mangle)]
pub extern "C" fn squitter_encode_air(
    head: &PlainAirHead,
    position: &PlainPosition,
    out: &mut [u8; 14],
) -> Fault
    ensures { IsSentFrame InAir head.now position.now out.old out.new result }
{
    give(air_frame(head, position), out)
}

/// Encodes the frame for a surface position (ICAO Doc 9871, register 0,6). The first fault is that of the head or its
/// parity, then that of the position.
#[unsafe(no_mangle)]
pub extern "C" fn squitter_encode_ground(
    head: &PlainGroundHead,
    position: &PlainPosition,
    out: &mut [u8; 14],
) -> Fault
    ensures { IsSentFrame OnGround head.now position.now out.old out.new result }
{
    give(ground_frame(head, position), out)
}

/// Encodes the frame again with this parity and the code of this position; its other fields are unchanged. The first
/// fault is that of the parity, then of the position, then of the frame, and last `NotPosition` if the frame carries
/// no position.
#[unsafe(no_mangle)]
pub extern "C" fn squitter_send_again(
    frame: &[u8; 14],
    odd: u8,
    position: &PlainPosition,
    out: &mut [u8; 14],
) -> Fault
    ensures { IsSentAgain (frame_of frame.now) odd position.now out.old out.new result }
{
    give(again(&Frame(*frame), odd, position), out)
}

// Writes the frame, or reports why there is none.
fn give(answer: Result<Frame, Reason>, out: &mut [u8; 14]) -> Fault
    ensures { TellsFrame answer out.old out.new result }
{
    match answer {
        Ok(frame) => {
            let bytes = frame.0;
            *out = bytes;
            NONE
        }
        Err(reason) => Fault::of(reason),
    }
}

// Encodes the frame for an airborne position.
#[tactic(auto, unfolding(crate::specs::Sending::IsSendAnswer))]
fn air_frame(plain: &PlainAirHead, position: &PlainPosition) -> Result<Frame, Reason>
    ensures { IsSendAnswer InAir plain.now position.now result }
{
    let Some(head) = air_head(plain) else {
        return Err(Reason::NoHead);
    };
    let Some(parity) = parity_of(plain.odd) else {
        return Err(Reason::NoHead);
    };
    let Some(position) = position_of(position) else {
        return Err(Reason::NoPosition);
    };
    let frame = write_frame(&send_air(head, &position, parity));
    each_frame(&frame);
    Ok(frame)
}

// Encodes the frame for a surface position.
#[tactic(auto, unfolding(crate::specs::Sending::IsSendAnswer))]
fn ground_frame(plain: &PlainGroundHead, position: &PlainPosition) -> Result<Frame, Reason>
    ensures { IsSendAnswer OnGround plain.now position.now result }
{
    let Some(head) = ground_head(plain) else {
        return Err(Reason::NoHead);
    };
    let Some(parity) = parity_of(plain.odd) else {
        return Err(Reason::NoHead);
    };
    let Some(position) = position_of(position) else {
        return Err(Reason::NoPosition);
    };
    let frame = write_frame(&send_ground(head, &position, parity));
    each_frame(&frame);
    Ok(frame)
}

// Encodes the frame again.
#[tactic(auto, unfolding(crate::specs::Sending::IsAgainAnswer))]
fn again(frame: &Frame, odd: u8, position: &PlainPosition) -> Result<Frame, Reason>
    ensures { IsAgainAnswer frame.now odd position.now result }
{
    let Some(parity) = parity_of(odd) else {
        return Err(Reason::NoParity);
    };
    let Some(position) = position_of(position) else {
        return Err(Reason::NoPosition);
    };
    let squitter = match read_frame(frame) {
        Ok(squitter) => squitter,
        Err(fault) => return Err(Reason::Line(fault.into())),
    };
    match rounded(&squitter, &position, parity) {
        Some(place) => Ok(frame_from(&squitter, &place)),
        None => Err(Reason::Place(PlaceFault::NotPosition)),
    }
}

// Returns the place of the squitter's kind that a position rounds to; `None` exactly if the squitter carries no
// position.
fn rounded(squitter: &Squitter, position: &Position, parity: Parity) -> Option<Place>
    ensures { MatchOption result (¬ (IsPosition (squitter_parts squitter.now).me))
        (λ place. Fits (squitter_parts squitter.now).me place × IsRoundedTo parity position.now place) }
{
    match squitter.me() {
        Me::Airborne(_) => Some(Place::Air(nearest::<Air>(position, parity))),
        Me::Surface(_) => Some(Place::Ground(nearest::<Ground>(position, parity))),
        Me::Other(_) => None,
    }
}

// Encodes the frame of the squitter at a place of its kind.
fn frame_from(squitter: &Squitter, place: &Place) -> Frame
    requires { Fits (squitter_parts squitter.now).me place.now }
    ensures { IsFrameFrom squitter.now place.now result }
{
    let frame = write_frame(&send_point(squitter, place));
    each_frame(&frame);
    frame
}
