//! Digits: texts in buffers of fixed size, writing numbers as digits to them, and reading digits in lanes. No call
//! allocates.
#![tactic(auto)]

mod buffer;
mod decimal;
mod digit_counts;
mod hex_lanes;
mod hex_words;
mod hexadecimal;

pub use buffer::TextBuffer;
pub use decimal::{
    push_decimal, push_digit, push_leading, push_short, push_signed_decimal, push_signed_short,
    push_three,
};
pub use digit_counts::{DIGIT_LANES, count_digits};
pub use hex_words::{decode_28, decode_40};
pub use hexadecimal::{push_byte, push_hexadecimal, push_six_places};
