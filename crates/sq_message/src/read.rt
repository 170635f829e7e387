//! Reading a frame. Every function here is inlined, so that the bytes of a newly made frame stay in registers.
ghost use Rattle.std.specs.Prelude.{◌≡◌, ◌+◌, ◌<◌, ◌≤◌, ◌^◌};
ghost use Rattle.sq_message.specs.declared.squitter.Squitter.{Squitter};
ghost use Rattle.sq_bits.specs.Frames.{field_of};
ghost use Rattle.sq_cpr.specs.Code.{numbers_of};
ghost use Rattle.sq_zones.specs.Zones.{parity_index};
ghost use Rattle.sq_message.specs.Kinds.{position_of};
ghost use Rattle.sq_message.specs.Spelling.{IsReading, Spells, SpellsMe, SpellsPosition};

use crate::{FrameFault, Kind, Me, Other, PositionMessage, Squitter};
use sq_bits::laws::each_frame;
use sq_bits::{Frame, remainder};
use sq_cpr::{Code, Parity};

/// Parses a frame as a squitter (RTCA DO-260B section 2.2.3.2).
///
/// Returns `NotDf17` exactly if bits 1 to 5 are not 17. Otherwise returns `Parity` exactly if the remainder is not 0.
/// Every type code is valid: one that belongs to no position gives kind other.
#[inline(always)]
pub fn read_frame(frame: &Frame) -> Result<Squitter, FrameFault>
    ensures read { IsReading frame.now result }
    ensures exact { (squitter : Squitter) → Spells frame.now squitter → result ≡ Ok squitter }
{
    let format = frame.field(1, 5) as u8;
    if format != 17 {
        return Err(FrameFault::NotDf17(format));
    }
    let remainder = remainder(frame);
    if remainder != 0 {
        return Err(FrameFault::Parity(remainder));
    }
    Ok(Squitter {
        ca: frame.field(6, 3) as u8,
        address: frame.field(9, 24) as u32,
        me: read_me(frame),
    })
}

// Parses the message of a frame.
#[inline(always)]
fn read_me(frame: &Frame) -> Me
    ensures { SpellsMe frame.now result }
{
    let me = frame.field(33, 56);
    match part(frame, me, 33, 5) {
        5..=8 => Me::Surface(read_position(frame, me)),
        9..=18 | 20..=22 => Me::Airborne(read_position(frame, me)),
        _ => Me::Other(Other { raw: me }),
    }
}

// Returns a field of the message. `me` is the whole message, so that the frame is converted to a number only once.
#[inline(always)]
pub(crate) fn part(frame: &Frame, me: u64, first: u8, count: u8) -> u64
    requires me { me ≡ field_of frame.now 33 56 }
    requires begins { 33 ≤ first }
    requires some { 1 ≤ count }
    requires within { first + count ≤ 89 }
    ensures value { result ≡ field_of frame.now first count }
    ensures small { result < 2 ^ count }
{
    each_frame(frame);
    (me >> (89 - first - count)) % (1 << count)
}

// Parses the position message of a frame with a type code of the kind.
#[inline(always)]
fn read_position<F: Kind>(frame: &Frame, me: u64) -> PositionMessage<F>
    requires me { me ≡ field_of frame.now 33 56 }
    requires code { F.is_code (field_of frame.now 33 5) }
    ensures { SpellsPosition F.kind frame.now (position_of F.kind F.fields result) }
{
    PositionMessage {
        parity: read_parity(frame, me),
        code: read_code(frame, me),
        fields: F::read(frame, me),
    }
}

#[inline(always)]
fn read_parity(frame: &Frame, me: u64) -> Parity
    requires { me ≡ field_of frame.now 33 56 }
    ensures { field_of frame.now 54 1 ≡ parity_index result }
{
    if part(frame, me, 54, 1) == 1 {
        Parity::Odd
    } else {
        Parity::Even
    }
}

#[inline(always)]
fn read_code(frame: &Frame, me: u64) -> Code
    requires { me ≡ field_of frame.now 33 56 }
    ensures lat { field_of frame.now 55 17 ≡ (numbers_of result).lat }
    ensures lon { field_of frame.now 72 17 ≡ (numbers_of result).lon }
{
    let lat = part(frame, me, 55, 17) as u32;
    let lon = part(frame, me, 72, 17) as u32;
    Code::new(lat, lon).unwrap()
}
