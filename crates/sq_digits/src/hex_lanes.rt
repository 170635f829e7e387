//! The values of hexadecimal digits, sixteen at a time in lanes.
ghost use Rattle.std.specs.Prelude.{◌≡◌, ◌+◌, ◌*◌, ◌<◌, ℕ, IsTrue, slice_index};
ghost use Rattle.std.specs.Char.{digit_value};

use std::simd::prelude::*;

// The mask that turns a letter into upper case.
const CAPITAL: u8 = !(b'a' - b'A');

// Added to a byte, this takes the digit 9 to 255, so that the bytes above it wrap to 0.
const TO_LAST: u8 = 255 - b'9';

// Returns the value of each hexadecimal digit of either case, and 16 or more for each other byte. A byte is tried as a
// decimal digit and as a letter from A to F; a wrong guess gives 16 or more, so the smaller value is the right one.
#[inline(always)]
pub(crate) fn digit_values(text: u8x16) -> u8x16
    ensures value { (place : ℕ) → place < 16 → slice_index result place < 16
        → digit_value (slice_index text place) ≡ slice_index result place }
    ensures digit { (place : ℕ) → place < 16 → digit_value (slice_index text place) < 16
        → slice_index result place < 16 }
{
    let decimals = (text + u8x16::splat(TO_LAST)).saturating_sub(u8x16::splat(6))
        - u8x16::splat(240);
    let letters = ((text & u8x16::splat(CAPITAL)) - u8x16::splat(b'A')).saturating_add(u8x16::splat(
        10,
    ));
    decimals.simd_min(letters)
}

// Returns whether each byte of both vectors is below 16.
#[inline(always)]
pub(crate) fn are_values(front: u8x16, back: u8x16) -> bool
    ensures front { IsTrue result → (place : ℕ) → place < 16 → slice_index front place < 16 }
    ensures back { IsTrue result → (place : ℕ) → place < 16 → slice_index back place < 16 }
    ensures all { ((place : ℕ) → place < 16 → (slice_index front place < 16) × (slice_index back place < 16))
        → IsTrue result }
{
    (front | back).simd_gt(u8x16::splat(15)).to_bitmask() == 0
}

// Returns the bytes of pairs of values below 16, the high one first.
#[inline(always)]
pub(crate) fn bytes_of(values: u8x16) -> [u8; 8]
    ensures { (place : ℕ) → place < 8 → slice_index values (2 * place) < 16 → slice_index values (2 * place + 1) < 16
        → slice_index result place ≡ slice_index values (2 * place) * 16 + slice_index values (2 * place + 1) }
{
    let high = values.swizzle([0, 2, 4, 6, 8, 10, 12, 14]);
    let low = values.swizzle([1, 3, 5, 7, 9, 11, 13, 15]);
    // One word, so that a register holds all eight.
    u64::from_le_bytes((high << u8x8::splat(4) | low).to_array()).to_le_bytes()
}
