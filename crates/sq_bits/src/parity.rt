//! The parity of a frame, three bytes at a time.
ghost use Rattle.std.specs.Prelude.{ℕ, ◌+◌, ◌*◌, ◌<◌, ◌^◌};
ghost use Rattle.sq_bits.specs.Frames.{frame_number, IsFrame, KeepsFieldsBefore};
ghost use Rattle.sq_bits.specs.Parity.{IsMultiple, IsRemainder};

use crate::frame::Frame;
use crate::table::{remainder_of_byte, remainder_of_byte_32, remainder_of_byte_40};

// The bits of three bytes.
const WORD_MASK: u128 = 0xFF_FFFF;

/// Returns the remainder of the frame's polynomial by the generator 0x1FFF409, below 2^24. It is 0 exactly for a
/// correct frame (ICAO Annex 10 volume IV, section 3.1.2.3.3).
#[inline(always)]
pub fn remainder(frame: &Frame) -> u32
    ensures { IsRemainder (frame_number frame.now) result }
{
    remainder_of(frame.number())
}

// Returns the remainder of the polynomial of a number of 112 bits, three bytes at a time.
#[inline(always)]
pub(crate) fn remainder_of(number: u128) -> u32
    requires { number < 2 ^ 112 }
    ensures { IsRemainder number result }
{
    let first = (number >> 96) as u32;
    let second = append_word(first, (number >> 72 & WORD_MASK) as u32);
    let third = append_word(second, (number >> 48 & WORD_MASK) as u32);
    let fourth = append_word(third, (number >> 24 & WORD_MASK) as u32);
    append_word(fourth, (number & WORD_MASK) as u32)
}

// Returns the remainder of a polynomial with 24 more coefficients appended, from its remainder without them.
#[inline(always)]
fn append_word(remainder: u32, word: u32) -> u32
    requires small { remainder < 2 ^ 24 }
    requires word { word < 2 ^ 24 }
    ensures { (n : ℕ) → IsRemainder n remainder → IsRemainder (n * 2 ^ 24 + word) result }
{
    let high = remainder_of_byte_40((remainder >> 16) as u8);
    let middle = remainder_of_byte_32((remainder >> 8 & 0xFF) as u8);
    let low = remainder_of_byte((remainder & 0xFF) as u8);
    high ^ (middle ^ (low ^ word))
}

/// Returns the frame with bits 89 to 112, the parity field, set so that the remainder is 0. All other bits are
/// unchanged.
pub fn sealed(frame: &Frame) -> Frame
    ensures multiple { IsMultiple (frame_number result) }
    ensures frame { IsFrame result }
    ensures kept { KeepsFieldsBefore 89 frame.now result }
{
    let number = frame.number_by_words();
    Frame::from_number(number ^ u128::from(remainder_of(number)))
}
