//! Decimal digits at the front of a text, counted in lanes.
ghost use Rattle.std.specs.Prelude.{◌≤◌, ◌<◌, length, slice_index, take};
ghost use Rattle.std.specs.Char.{IsAsciiDigit};
ghost use Rattle.std.specs.List.{AllByRecursion};

use std::simd::prelude::*;

/// The number of bytes that [`count_digits`] reads.
pub const DIGIT_LANES: usize = 16;

/// Returns the number of decimal digits before the first other byte among the first sixteen, or 16 if all are digits.
#[inline(always)]
pub fn count_digits(text: &[u8]) -> usize
    requires room { 16 ≤ length text.now }
    ensures few { result ≤ 16 }
    ensures digits { AllByRecursion IsAsciiDigit (take result text.now) }
    ensures first { result < 16 → ¬ IsAsciiDigit (slice_index text.now result) }
{
    let values = u8x16::from_slice(text) - u8x16::splat(b'0');
    let others = values.simd_gt(u8x16::splat(9)).to_bitmask();
    if others == 0 {
        return DIGIT_LANES;
    }
    others.trailing_zeros() as usize
}
