//! Bit fields of a 112-bit frame, and its 24-bit parity (CRC).
//!
//! A field is the number in its bits, the most significant bit first. The remainder of a frame is the one number
//! below 2^24 that makes the frame a multiple of the generator when it is added to the last 24 bits. It is 0 exactly
//! for a correct frame, and it is also called the syndrome or the CRC remainder. No call allocates.
#![tactic(auto)]

mod frame;
pub mod laws;
mod parity;
pub mod pins;
mod table;

pub use frame::Frame;
pub use parity::{remainder, sealed};
