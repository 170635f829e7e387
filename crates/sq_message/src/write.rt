//! Writing a frame. The 32 bits before the message are one number and the 56 bits of the message are another. The
//! frame is made of both at once: setting each field on its own would convert all 14 bytes to a number and back each
//! time.
ghost use Rattle.std.specs.Prelude.{◌≡◌, ◌<◌, ◌^◌};
ghost use Rattle.sq_bits.specs.declared.frame.Frame.{Frame};
ghost use Rattle.sq_bits.specs.Frames.{IsFrame, field_of};
ghost use Rattle.sq_cpr.specs.Code.{numbers_of};
ghost use Rattle.sq_message.specs.Parts.{squitter_parts};
ghost use Rattle.sq_message.specs.Kinds.{position_of};
ghost use Rattle.sq_message.specs.Spelling.{Spells, SpellsMe, SpellsPlace, SpellsPosition};

use crate::{Kind, Me, PositionMessage, Squitter};
use sq_bits::Frame;
use sq_cpr::{Code, Parity};

/// Writes a squitter as its one correct frame (RTCA DO-260B section 2.2.3.2). No other frame encodes the squitter.
pub fn write_frame(squitter: &Squitter) -> Frame
    ensures written { Spells result squitter.now }
    ensures one { (frame : Frame) → IsFrame frame → Spells frame squitter.now → frame ≡ result }
{
    Frame::of_words(head_bits(squitter), me_bits(&squitter.me))
}

// Returns bits 1 to 32: DF 17, the capability and the address.
fn head_bits(squitter: &Squitter) -> u32
    ensures format { (frame : Frame) → field_of frame 1 32 ≡ result → field_of frame 1 5 ≡ 17 }
    ensures ca { (frame : Frame) → field_of frame 1 32 ≡ result
        → field_of frame 6 3 ≡ (squitter_parts squitter.now).ca }
    ensures address { (frame : Frame) → field_of frame 1 32 ≡ result
        → field_of frame 9 24 ≡ (squitter_parts squitter.now).address }
{
    (17 << 27) + (u32::from(squitter.ca) << 24) + squitter.address
}

// Returns bits 33 to 88: the message.
fn me_bits(me: &Me) -> u64
    ensures small { result < 2 ^ 56 }
    ensures spelled { (frame : Frame) → field_of frame 33 56 ≡ result → SpellsMe frame me.now }
{
    match me {
        Me::Airborne(airborne) => position_bits(airborne),
        Me::Surface(surface) => position_bits(surface),
        Me::Other(other) => other.raw,
    }
}

// Encodes the message of a position.
fn position_bits<F: Kind>(position: &PositionMessage<F>) -> u64
    ensures small { result < 2 ^ 56 }
    ensures spelled { (frame : Frame) → field_of frame 33 56 ≡ result
        → SpellsPosition F.kind frame (position_of F.kind F.fields position.now) }
{
    (position.fields.bits() << 35) + place_bits(position.parity, &position.code)
}

// Returns ME bits 22 to 56: the parity (F bit) and the code.
fn place_bits(parity: Parity, code: &Code) -> u64
    ensures small { result < 2 ^ 35 }
    ensures spelled { (frame : Frame) → field_of frame 54 35 ≡ result
        → SpellsPlace frame parity (numbers_of code.now) }
{
    (u64::from(parity.index()) << 34) + (u64::from(code.lat()) << 17) + u64::from(code.lon())
}
