//! A frame and its bit fields.
ghost use Rattle.std.specs.Prelude.{◌≡◌, ℕ, ◌+◌, ◌*◌, ◌/◌, ◌%◌, ◌<◌, ◌≤◌, ◌^◌, slice_index};
ghost use Rattle.std.specs.Int.Digits.{AllBelowBase};

use crate::laws::each_frame;
use crate::parity::remainder_of;

// The number of values of three bytes.
const WORD: u128 = 1 << 24;

/// The 112 bits of an extended squitter (ICAO Annex 10 volume IV, section 3.1.2.3), numbered from 1 to 112: bit 1 is
/// the most significant bit of byte 0.
#[derive(Clone, Copy, Debug, PartialEq, Eq)]
pub struct Frame(pub [u8; 14]);

impl Frame {
    ghost use Rattle.sq_bits.specs.Frames.{frame_number, field_of, IsApart, IsFrame, word, word_at};
    ghost use Rattle.sq_bits.specs.Parity.{IsMultiple};

    // Returns the frame as one number of 112 bits, from two numbers of eight and six bytes. This is fast for bytes in
    // memory.
    #[inline(always)]
    pub(crate) fn number(&self) -> u128
        ensures value { result ≡ frame_number self.now }
        ensures small { result < 2 ^ 112 }
        ensures frame { IsFrame self.now }
    {
        each_frame(self);
        u128::from(self.front()) << 48 | u128::from(self.back())
    }

    // Returns the frame as one number of 112 bits, from five words. This is fast if the bytes were just set, since
    // the compiler sees through it.
    #[inline(always)]
    pub(crate) fn number_by_words(&self) -> u128
        ensures value { result ≡ frame_number self.now }
        ensures small { result < 2 ^ 112 }
        ensures frame { IsFrame self.now }
    {
        each_frame(self);
        let bytes = &self.0;
        let head = u128::from(word_of(0, bytes[0], bytes[1]));
        let second = u128::from(word_of(bytes[2], bytes[3], bytes[4]));
        let third = u128::from(word_of(bytes[5], bytes[6], bytes[7]));
        let fourth = u128::from(word_of(bytes[8], bytes[9], bytes[10]));
        let fifth = u128::from(word_of(bytes[11], bytes[12], bytes[13]));
        (((head * WORD + second) * WORD + third) * WORD + fourth) * WORD + fifth
    }

    // Returns the first eight bytes as a number, made of words of two, three and three bytes.
    #[inline(always)]
    pub(crate) fn front(&self) -> u64
        ensures first { result / 2 ^ 48 ≡ word 0 (slice_index self.now.0 0) (slice_index self.now.0 1) }
        ensures second { result / 2 ^ 24 % 2 ^ 24 ≡ word_at self.now.0 2 }
        ensures third { result % 2 ^ 24 ≡ word_at self.now.0 5 }
    {
        let bytes = &self.0;
        u64::from_be_bytes([
            bytes[0], bytes[1], bytes[2], bytes[3], bytes[4], bytes[5], bytes[6], bytes[7],
        ])
    }

    // Returns the last six bytes as a number, made of two words of three bytes.
    #[inline(always)]
    pub(crate) fn back(&self) -> u64
        ensures fourth { result / 2 ^ 24 ≡ word_at self.now.0 8 }
        ensures fifth { result % 2 ^ 24 ≡ word_at self.now.0 11 }
        ensures small { result < 2 ^ 48 }
    {
        let bytes = &self.0;
        u64::from_be_bytes([
            0, 0, bytes[8], bytes[9], bytes[10], bytes[11], bytes[12], bytes[13],
        ])
    }

    // Returns the frame of a number of 112 bits.
    #[inline(always)]
    pub(crate) fn from_number(number: u128) -> Frame
        requires { number < 2 ^ 112 }
        ensures value { frame_number result ≡ number }
        ensures frame { IsFrame result }
    {
        Frame::from_parts(
            (number >> 48) as u64,
            (number >> 16 & 0xFFFF_FFFF) as u32,
            (number & 0xFFFF) as u16,
        )
    }

    // Makes a frame of its first eight bytes, the next four and the last two, each as one number. The bytes are
    // swapped first, since LLVM then stores a number as one word. With `to_be_bytes` it stored single bytes.
    fn from_parts(first: u64, middle: u32, last: u16) -> Frame
        ensures value { frame_number result ≡ (first * 2 ^ 32 + middle) * 2 ^ 16 + last }
        ensures frame { IsFrame result }
    {
        let first = first.swap_bytes().to_le_bytes();
        let middle = middle.swap_bytes().to_le_bytes();
        let last = last.swap_bytes().to_le_bytes();
        Frame([
            first[0], first[1], first[2], first[3], first[4], first[5], first[6], first[7],
            middle[0], middle[1], middle[2], middle[3], last[0], last[1],
        ])
    }

    /// Returns the correct frame with `head` (DF, CA and address) in bits 1 to 32 and `me` in bits 33 to 88 (ICAO Annex
    /// 10 volume IV, section 3.1.2.3). Bits 89 to 112, the parity field, follow from them.
    ///
    /// `me` has to be below 2^56.
    pub fn of_words(head: u32, me: u64) -> Frame
        requires { me < 2 ^ 56 }
        ensures head { field_of result 1 32 ≡ head }
        ensures me { field_of result 33 56 ≡ me }
        ensures multiple { IsMultiple (frame_number result) }
        ensures frame { IsFrame result }
    {
        let number = (u128::from(head) << 80) + (u128::from(me) << 24);
        Frame::from_number(number ^ u128::from(remainder_of(number)))
    }

    /// Returns the bits `first` to `first + count - 1` as a number, the most significant first.
    ///
    /// `first` has to be at least 1 and `count` from 1 to 56. The last bit has to be at most bit 112.
    #[inline(always)]
    pub fn field(&self, first: u8, count: u8) -> u64
        requires begins { 1 ≤ first }
        requires some { 1 ≤ count }
        requires short { count ≤ 56 }
        requires within { first + count ≤ 113 }
        ensures value { result ≡ field_of self.now first count }
        ensures small { result < 2 ^ count }
    {
        let below = 113 - first - count;
        ((self.number() >> below) % (1 << count)) as u64
    }

    /// Returns the frame with `value` in the bits `first` to `first + count - 1`. All other bits are unchanged.
    ///
    /// The limits of the bits are those of [`Frame::field`], and `value` has to be below 2^`count`.
    pub fn with_field(&self, first: u8, count: u8, value: u64) -> Frame
        requires begins { 1 ≤ first }
        requires some { 1 ≤ count }
        requires short { count ≤ 56 }
        requires within { first + count ≤ 113 }
        requires fits { value < 2 ^ count }
        ensures value { field_of result first count ≡ value }
        ensures kept { (start len : ℕ) → IsApart start len first count
            → field_of result start len ≡ field_of self.now start len }
    {
        let below = 113 - first - count;
        let number = self.number_by_words();
        let held = (number >> below) % (1 << count) << below;
        Frame::from_number(number - held + (u128::from(value) << below))
    }
}

// Returns three bytes as one number.
#[inline(always)]
fn word_of(high: u8, middle: u8, low: u8) -> u32
    ensures value { result ≡ (high * 256 + middle) * 256 + low }
    ensures below { result < 2 ^ 24 }
{
    (u32::from(high) * 256 + u32::from(middle)) * 256 + u32::from(low)
}

// States that each byte is below 256, by its type.
pub(crate) fn are_bytes(bytes: &[u8])
    ensures { AllBelowBase 256 bytes.now }
{}
