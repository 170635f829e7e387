//! DF17 extended squitters that carry a position, and their frames.
//!
//! Frames and squitters correspond one to one: `read_frame` returns the squitter of a frame, and `write_frame` the
//! frame of a squitter. A squitter has one of three kinds: air, ground, and other, which is kept raw. Its message
//! ([`Me`]) is the standard's ME field. [`send_air`] and [`send_ground`] make the squitter of a position: a head, and
//! the code of the rounded position. [`place_local`] and [`place_pair`] decode the point again, near a reference or
//! from an even and an odd squitter. [`send_point`] sends that point again. [`laws::headline`] says how all of this
//! fits together. No call allocates.
#![tactic(auto)]

mod air;
mod feet;
mod ground;
mod head;
mod kind;
pub mod laws;
mod message;
mod other;
pub mod pins;
mod place;
mod read;
mod received;
mod send;
mod squitter;
pub mod worked;
mod write;

pub use air::{AirFields, Altitude};
pub use feet::{altitude, field_of_feet};
pub use ground::GroundFields;
pub use head::{AirHead, GroundHead, Head};
pub use kind::Kind;
pub use message::{Airborne, PositionMessage, Surface};
pub use other::Other;
pub use place::{Place, PlaceFault, place_local, place_pair, send_point};
pub use read::read_frame;
pub use received::Received;
pub use send::{send_air, send_ground, send_position};
pub use sq_bits::Frame;
pub use sq_cpr::{Air, Angle, Code, GridPoint, Ground, Parity, Position};
pub use squitter::{FrameFault, Me, Squitter};
pub use write::write_frame;
