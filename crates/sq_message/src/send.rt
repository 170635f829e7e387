//! Encoding a position as a squitter.
ghost use Rattle.std.specs.Prelude.{◌≡◌};
ghost use Rattle.sq_cpr.specs.Span.{air, ground};
ghost use Rattle.sq_cpr.specs.Rounds.{PositionRoundsTo};
ghost use Rattle.sq_cpr.specs.Grid.{Point};
ghost use Rattle.sq_message.specs.Kinds.{InAir, OnGround, head_of, span_of, squitter_of};
ghost use Rattle.sq_message.specs.Parts.{squitter_parts};
ghost use Rattle.sq_message.specs.Sending.{IsSquitterOf};

use crate::{AirFields, AirHead, GroundFields, GroundHead, Head, Kind, Squitter};
use sq_angle::Position;
use sq_cpr::{Code, Parity, encode};

/// Returns the squitter of a position: the head, and the code of the position rounded to the parity's grid (RTCA
/// DO-260B section 2.2.3.2 and the appendix on compact position reporting).
pub fn send_position<F: Kind>(head: Head<F>, position: &Position, parity: Parity) -> Squitter
    ensures sent { (point : Point) × (point.parity ≡ parity) × PositionRoundsTo (span_of F.kind) position.now point
        × IsSquitterOf F.kind (head_of F.kind F.fields head) point (squitter_parts result) }
    ensures of_each { (point : Point) → point.parity ≡ parity → PositionRoundsTo (span_of F.kind) position.now point
        → IsSquitterOf F.kind (head_of F.kind F.fields head) point (squitter_parts result) }
{
    let code = encode::<F::Span>(position, parity);
    send_code(head, parity, code)
}

/// Returns the airborne squitter of a position, as [`send_position`] does.
pub fn send_air(head: AirHead, position: &Position, parity: Parity) -> Squitter
    ensures sent { (point : Point) × (point.parity ≡ parity) × PositionRoundsTo air position.now point
        × IsSquitterOf InAir head point (squitter_parts result) }
    ensures of_each { (point : Point) → point.parity ≡ parity → PositionRoundsTo air position.now point
        → IsSquitterOf InAir head point (squitter_parts result) }
{
    send_position::<AirFields>(head, position, parity)
}

/// Returns the surface squitter of a position, as [`send_position`] does.
pub fn send_ground(head: GroundHead, position: &Position, parity: Parity) -> Squitter
    ensures sent { (point : Point) × (point.parity ≡ parity) × PositionRoundsTo ground position.now point
        × IsSquitterOf OnGround head point (squitter_parts result) }
    ensures of_each { (point : Point) → point.parity ≡ parity → PositionRoundsTo ground position.now point
        → IsSquitterOf OnGround head point (squitter_parts result) }
{
    send_position::<GroundFields>(head, position, parity)
}

// Returns the squitter of a head, a parity and a code.
#[inline(always)]
pub(crate) fn send_code<F: Kind>(head: Head<F>, parity: Parity, code: Code) -> Squitter
    ensures { squitter_parts result ≡ squitter_of F.kind (head_of F.kind F.fields head) parity code }
{
    Squitter {
        ca: head.ca(),
        address: head.address(),
        me: head.fields().me(parity, code),
    }
}
