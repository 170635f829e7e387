//! The two kinds of position squitter.
ghost use Rattle.std.specs.Prelude.{◌≡◌, ◌<◌, ◌^◌, ℕ, refl};
ghost use Rattle.sq_bits.specs.declared.frame.Frame.{Frame};
ghost use Rattle.sq_bits.specs.Frames.{field_of};
ghost use Rattle.sq_message.specs.Kinds.{Kind, FieldsOf, InAir, OnGround, me_at, span_of};
ghost use Rattle.sq_message.specs.Spelling.{SpellsFields};
ghost use Rattle.sq_message.specs.TypeCodes.{IsAirCode, IsGroundCode};

use crate::read::part;
use crate::{AirFields, Airborne, Frame, GroundFields, Me, Surface};
use sq_cpr::{Air, Code, Ground, Parity, Span};

/// A kind of position squitter, airborne or surface: the type of the message's fields other than the encoded
/// position.
pub trait Kind: Copy {
    /// The span of the kind's grids.
    type Span: Span;

    ghost kind: { Kind };

    ghost fields: { Self → FieldsOf kind };

    ghost is_code: { ℕ → Type 0 };

    /// Returns the message with these fields, this parity and this code.
    fn me(self, parity: Parity, code: Code) -> Me
        ensures { result ≡ me_at kind (record { parity = parity; code = code; fields = fields self }) };

    /// Encodes the fields as bits 33 to 53 of a frame.
    fn bits(&self) -> u64
        ensures small { result < 2 ^ 21 }
        ensures spelled { (frame : Frame) → field_of frame 33 21 ≡ result → SpellsFields kind frame (fields self.now) };

    /// Parses the fields of a frame with a type code of the kind; `me` is bits 33 to 88 of the frame.
    fn read(frame: &Frame, me: u64) -> Self
        requires me { me ≡ field_of frame.now 33 56 }
        requires code { is_code (field_of frame.now 33 5) }
        ensures { SpellsFields kind frame.now (fields result) };

    ghost spans: { Self.Span.span ≡ span_of kind };
}

impl Kind for AirFields {
    type Span = Air;

    ghost kind = { InAir };

    ghost fields = { λ fields. fields };

    ghost is_code = { IsAirCode };

    ghost spans = { refl };

    #[inline(always)]
    fn me(self, parity: Parity, code: Code) -> Me {
        Me::Airborne(Airborne {
            parity,
            code,
            fields: self,
        })
    }

    fn bits(&self) -> u64 {
        (u64::from(self.type_code) << 16)
            + (u64::from(self.status) << 14)
            + (u64::from(self.flag) << 13)
            + (u64::from(self.altitude) << 1)
            + u64::from(self.time)
    }

    #[inline(always)]
    fn read(frame: &Frame, me: u64) -> AirFields {
        AirFields {
            type_code: part(frame, me, 33, 5) as u8,
            status: part(frame, me, 38, 2) as u8,
            flag: part(frame, me, 40, 1) == 1,
            altitude: part(frame, me, 41, 12) as u16,
            time: part(frame, me, 53, 1) == 1,
        }
    }
}

impl Kind for GroundFields {
    type Span = Ground;

    ghost kind = { OnGround };

    ghost fields = { λ fields. fields };

    ghost is_code = { IsGroundCode };

    ghost spans = { refl };

    #[inline(always)]
    fn me(self, parity: Parity, code: Code) -> Me {
        Me::Surface(Surface {
            parity,
            code,
            fields: self,
        })
    }

    fn bits(&self) -> u64 {
        (u64::from(self.type_code) << 16)
            + (u64::from(self.movement) << 9)
            + (u64::from(self.track_status) << 8)
            + (u64::from(self.track) << 1)
            + u64::from(self.time)
    }

    #[inline(always)]
    fn read(frame: &Frame, me: u64) -> GroundFields {
        GroundFields {
            type_code: part(frame, me, 33, 5) as u8,
            movement: part(frame, me, 38, 7) as u8,
            track_status: part(frame, me, 45, 1) == 1,
            track: part(frame, me, 46, 7) as u8,
            time: part(frame, me, 53, 1) == 1,
        }
    }
}
