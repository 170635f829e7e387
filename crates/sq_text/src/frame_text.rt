//! Frame text.
ghost use Rattle.std.specs.Prelude.{◌≡◌, length, Ok, IfSome, MatchOption, MatchResult};
ghost use Rattle.hex.specs.Hex.{decode_of};
ghost use Rattle.sq_text.specs.FrameText.{IsFrameReading, IsBody, IsFirstBadDigit, IsFrameText, IsHalfWrapped};

use crate::faults::LineFault;
use hex::FromHexError;
use sq_bits::Frame;
use sq_digits::decode_28;
use thiserror::Error;

/// Why a text is not a frame text: the first of these that applies.
#[derive(Clone, Copy, Debug, PartialEq, Eq, Error)]
#[error("{fault}", fault = LineFault::from(*self))]
pub enum TextFault {
    /// The text has one of `*` and `;` without the other.
    Wrap,
    /// The body has 14 bytes: a reply of 56 bits.
    Short,
    /// The body has this many bytes, neither 28 nor 14.
    Length(usize),
    /// This byte of the body, counted from 1, is the first that is not a hexadecimal digit.
    Digit(usize),
}

/// Reads a frame text: 28 hexadecimal digits of either case, bare or between `*` and `;`. The text without these two
/// is its body. Does not allocate.
///
/// Errors, in this order: `Wrap`, `Short`, `Length`, `Digit`.
pub fn read_text(text: &[u8]) -> Result<Frame, TextFault>
    ensures { IsFrameReading text.now result }
{
    let Some(body) = body_of(text) else {
        return Err(TextFault::Wrap);
    };
    match body.len() {
        28 => match read_digits(body) {
            Ok(frame) => Ok(frame),
            Err(place) => Err(TextFault::Digit(place + 1)),
        },
        14 => Err(TextFault::Short),
        length => Err(TextFault::Length(length)),
    }
}

// Parses a frame text in the common case that it is valid. `None` proves nothing about the text.
#[inline(always)]
pub(crate) fn frame_of_text(text: &[u8]) -> Option<Frame>
    ensures { IfSome result (IsFrameText text.now) }
{
    frame_of_digits(body_of_28(text)?)
}

// Returns the body if it has 28 bytes. Looks for a wrapped one first, as in most logs: its length shows the wrapping.
#[inline(always)]
fn body_of_28(text: &[u8]) -> Option<&[u8]>
    ensures { IfSome result (λ body. IsBody text.now body.now × (length body.now ≡ 28)) }
{
    if text.len() == 30 {
        return match text {
            [b'*', body @ .., b';'] => Some(body),
            _ => None,
        };
    }
    let body = body_of(text)?;
    if body.len() == 28 { Some(body) } else { None }
}

// Parses 28 digits as a frame, or returns the index of the first byte that is not a digit.
fn read_digits(body: &[u8]) -> Result<Frame, usize>
    requires { length body.now ≡ 28 }
    ensures { MatchResult result (λ frame. decode_of body.now ≡ Ok frame.0) (IsFirstBadDigit body.now) }
{
    match frame_of_digits(body) {
        Some(frame) => Ok(frame),
        None => decode(body),
    }
}

// Parses 28 digits as a frame in lanes, in the common case that all of them are digits.
#[inline(always)]
fn frame_of_digits(body: &[u8]) -> Option<Frame>
    requires { length body.now ≡ 28 }
    ensures { IfSome result (λ frame. decode_of body.now ≡ Ok frame.0) }
{
    Some(Frame(decode_28(body)?))
}

// Parses 28 digits as a frame with the crate `hex`, which finds the first byte that is not a digit.
fn decode(body: &[u8]) -> Result<Frame, usize>
    requires { length body.now ≡ 28 }
    ensures { MatchResult result (λ frame. decode_of body.now ≡ Ok frame.0) (IsFirstBadDigit body.now) }
{
    let mut bytes = [0; 14];
    let Err(error) = hex::decode_to_slice(body, &mut bytes) else {
        return Ok(Frame(bytes));
    };
    match error {
        FromHexError::InvalidHexCharacter { index, .. } => Err(index),
        _ => unreachable!(),
    }
}

// Returns the text without `*` and `;`, or `None` if it has one without the other.
fn body_of(text: &[u8]) -> Option<&[u8]>
    ensures { MatchOption result (IsHalfWrapped text.now) (λ body. IsBody text.now body.now) }
{
    match text {
        [b'*', body @ .., b';'] => Some(body),
        [b'*', ..] | [.., b';'] => None,
        _ => Some(text),
    }
}
