//! Exact angles, and positions made of two angles.
//!
//! An [`Angle`] is a fraction of whole numbers, in degrees. There is no floating point. Two angles compare by value,
//! so 1/2 and 2/4 are equal. Reading a text returns its angle, or the first error in it. An angle is written with
//! seven decimals, as the nearest whole number of ten-millionths. A [`Position`] is a latitude and a longitude within
//! their limits. No call allocates, overflows or panics: errors are results.
//!
//! The crates that depend on this one share its definitions (`specs/`) of fractions, of the nearest whole number of
//! steps and of congruent numbers. They also share the lemmas on these (`specs/Scale.antt`, `proofs/`).
#![tactic(auto)]

pub mod angle;
mod decimal;
pub mod laws;
mod lowest;
mod order;
pub mod pins;
pub mod position;
mod quotients;
pub mod read;

pub use angle::{Angle, MAX_DENOMINATOR};
pub use position::Position;
pub use quotients::quotient;
pub use read::AngleFault;
pub use sq_digits::TextBuffer;
