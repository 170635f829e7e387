//! Rows of a table in their usual form, read sixteen bytes at a time: seconds with decimals, a cell, and a long frame.
ghost use Rattle.std.specs.Prelude.{◌≡◌, ◌≢◌, ◌≤◌, ◌<◌, ℕ, IfSome, length, slice_index, take, true};
ghost use Rattle.std.specs.Str.Parse.{digits_value};
ghost use Rattle.sq_feed.specs.Avr.{AreHex, bytes_of};
ghost use Rattle.sq_feed.specs.Cells.{are_digits};
ghost use Rattle.sq_feed.specs.Rows.{IsLineEnd, IsRowAt, csv_start};

use crate::cells::{LANES, position_in_16, ten_digits, thousandths};
use crate::message::{Message, RawFrame, Time};
use sq_digits::{DIGIT_LANES, count_digits, decode_28};

// The maximum number of bytes read: up to 15 decimals, and up to 15 bytes in the second cell.
const NEAR: usize = 73;

// The number of digits of the seconds: from 2001 to 2286.
const SECONDS: usize = 10;

// The number of hexadecimal digits of a long frame.
const LONG: usize = 28;

// The milliseconds in a second.
const SECOND: u64 = 1000;

// Returns the first row's message and its length with the line end, if the row has the usual form, as in
// `1700000000.123,4840d6,8D..`. It may have up to 15 decimals, up to 15 bytes in the second cell, and a carriage
// return.
#[inline(always)]
pub(crate) fn plain_row(piece: &[u8]) -> Option<(Message, usize)>
    ensures { IfSome result (IsRowAt csv_start piece.now) }
{
    if piece.len() < NEAR {
        return None;
    }
    if !has_seconds(piece) {
        return None;
    }
    let after_point = &piece[SECONDS + 1..];
    let decimals = decimals_before_comma(after_point)?;
    let cell = &after_point[decimals + 1..];
    let comma = comma_in(cell)?;
    let word = &cell[comma + 1..];
    let ends = line_end(word)?;
    let frame = frame_at(word)?;
    // Last, so that no register holds the digits through the steps above.
    let millis = seconds_at(piece) * SECOND + thousandths(&after_point[..decimals]);
    let message = Message {
        time: Time::Millis(millis),
        frame: RawFrame::Long(frame),
    };
    Some((message, SECONDS + decimals + comma + LONG + 3 + ends))
}

// Returns whether a text starts with ten digits and a point.
#[inline(always)]
fn has_seconds(text: &[u8]) -> bool
    requires { 16 ≤ length text.now }
    ensures digits { result ≡ true → are_digits (take 10 text.now) ≡ true }
    ensures point { result ≡ true → slice_index text.now 10 ≡ 46 }
{
    count_digits(text) == SECONDS && text[SECONDS] == b'.'
}

// Returns the number with the first ten digits.
#[inline(always)]
fn seconds_at(text: &[u8]) -> u64
    requires room { 16 ≤ length text.now }
    requires digits { are_digits (take 10 text.now) ≡ true }
    ensures value { result ≡ digits_value 10 (take 10 text.now) }
    ensures small { result < 10000000000 }
{
    ten_digits(&text[..SECONDS])
}

// Counts the digits before a comma. Returns `None` if there are more than 15, or another byte follows.
#[inline(always)]
fn decimals_before_comma(text: &[u8]) -> Option<usize>
    requires { 16 ≤ length text.now }
    ensures digits { IfSome result (λ count. are_digits (take count text.now) ≡ true) }
    ensures comma { IfSome result (λ count. slice_index text.now count ≡ 44) }
    ensures few { IfSome result (λ count. count < 16) }
{
    let count = count_digits(text);
    if count == DIGIT_LANES || text[count] != b',' {
        return None;
    }
    Some(count)
}

// Returns the index of the first comma, or `None` if it is above 15, or a line feed comes first, or the text begins
// with a quote.
#[inline(always)]
fn comma_in(text: &[u8]) -> Option<usize>
    requires { 16 ≤ length text.now }
    ensures comma { IfSome result (λ at. slice_index text.now at ≡ 44) }
    ensures before { IfSome result (λ at. (k : ℕ) → k < at
        → (slice_index text.now k ≢ 44) × (slice_index text.now k ≢ 10)) }
    ensures few { IfSome result (λ at. at < 16) }
    ensures bare { IfSome result (λ _. slice_index text.now 0 ≢ 34) }
{
    if text[0] == b'"' {
        return None;
    }
    let comma = position_in_16(b',', text);
    if comma == LANES || position_in_16(b'\n', text) < comma {
        return None;
    }
    Some(comma)
}

// Parses 28 hexadecimal digits.
#[inline(always)]
fn frame_at(text: &[u8]) -> Option<[u8; 14]>
    requires { 28 ≤ length text.now }
    ensures { IfSome result (λ frame. AreHex (take 28 text.now) × (frame ≡ bytes_of (take 28 text.now))) }
{
    decode_28(&text[..LONG])
}

// Returns the length of the line end after 28 bytes, or `None` if there is none.
#[inline(always)]
fn line_end(text: &[u8]) -> Option<usize>
    requires { 30 ≤ length text.now }
    ensures { IfSome result (IsLineEnd text.now 28) }
{
    if text[LONG] == b'\n' {
        return Some(1);
    }
    if text[LONG] == b'\r' && text[LONG + 1] == b'\n' {
        return Some(2);
    }
    None
}
