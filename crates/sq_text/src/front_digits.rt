//! Decimal digits at the front of a text, joined eight at a time.
ghost use Rattle.std.specs.Prelude.{◌≡◌, ◌≤◌, ◌^◌, ◌<◌, ℕ, List, length, slice_index, take};
ghost use Rattle.std.specs.Char.{IsAsciiDigit};
ghost use Rattle.std.specs.Int.{w64, from_le_bytes};
ghost use Rattle.std.specs.Int.Digits.{number_from_digits, AllBelowBase};
ghost use Rattle.std.specs.List.{AllByRecursion};
ghost use Rattle.std.specs.Str.Parse.{digits_value};

use std::simd::prelude::*;

// The number of bytes in a word.
const WORD: usize = 8;

// 10 to the number of digits in a word.
const WORD_RANGE: u64 = 100_000_000;

// The low four bits of each byte: the value of an ASCII digit.
const DIGIT_BITS: u64 = 0x0F0F_0F0F_0F0F_0F0F;

// The low byte of each pair.
const PAIR_BITS: u64 = 0x00FF_00FF_00FF_00FF;

// The low two bytes of each four.
const FOUR_BITS: u64 = 0x0000_FFFF_0000_FFFF;

// Adds 10 times each byte to the next byte. This and the two factors below are those of `parse_eight_digits_unrolled`
// in fast_float and simdjson.
const PAIR_FACTOR: u64 = 1 + (10 << 8);

// Adds 100 times each two bytes to the next two.
const FOUR_FACTOR: u64 = 1 + (100 << 16);

// Adds 10,000 times the low four bytes to the high four.
const EIGHT_FACTOR: u64 = 1 + (10_000 << 32);

// Returns the number in the first `count` bytes, 1 to 16 digits.
#[inline(always)]
pub(crate) fn front_number(text: &[u8], count: usize) -> u64
    requires some { 1 ≤ count }
    requires few { count ≤ 16 }
    requires room { 16 ≤ length text.now }
    requires digits { AllByRecursion IsAsciiDigit (take count text.now) }
    ensures { result ≡ digits_value 10 (take count text.now) }
{
    if count <= WORD {
        return few_digits(text, count);
    }
    let first = count - WORD;
    few_digits(text, first) * WORD_RANGE + few_digits(&text[first..], WORD)
}

// Returns the number in the first `count` bytes, 1 to 8 digits. The shift drops the bytes after them and puts zeros
// before them, so eight digits are joined for any count.
#[inline(always)]
fn few_digits(text: &[u8], count: usize) -> u64
    requires some { 1 ≤ count }
    requires few { count ≤ 8 }
    requires room { 8 ≤ length text.now }
    requires digits { AllByRecursion IsAsciiDigit (take count text.now) }
    ensures value { result ≡ digits_value 10 (take count text.now) }
    ensures small { result < 10 ^ 8 }
{
    let word = u64::from_le_bytes(u8x8::from_slice(text).to_array());
    eight_digits(word << (8 * (WORD - count)) & DIGIT_BITS)
}

// Returns the number of eight digit values, the first in the lowest byte. Each step joins neighbours in lanes of
// twice the width. Three products do the work of eight, and no step reads the bits that they drop.
#[inline(always)]
fn eight_digits(word: u64) -> u64
    ensures { (values : List ℕ) → length values ≡ 8 → AllBelowBase 10 values → word ≡ from_le_bytes w64 values
        → result ≡ number_from_digits 10 values }
{
    let pairs = word.wrapping_mul(PAIR_FACTOR) >> 8 & PAIR_BITS;
    let fours = pairs.wrapping_mul(FOUR_FACTOR) >> 16 & FOUR_BITS;
    fours.wrapping_mul(EIGHT_FACTOR) >> 32
}
