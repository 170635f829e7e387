//! Compact position reporting (CPR): grids, rounding to their points, and the codes of points.
//!
//! [`nearest`] rounds a position to a point of a parity's grid. [`encode`] returns the code of that point, two numbers
//! of 17 bits, which the standard calls YZ and XZ. [`local`] decodes a code near a reference, which the standard calls
//! locally unambiguous decoding. [`pair_air`] and [`pair_ground`] decode an even and an odd code, which it calls
//! globally unambiguous. All of this is written and proved once for every lawful span. [`Air`] and [`Ground`] are the
//! two in use. No call allocates.
#![tactic(auto)]

mod code;
mod decode_local;
mod decode_pair;
mod encoding;
mod faults;
mod grid;
mod index;
pub mod laws;
pub mod pins;
mod span;

pub use code::{CODES_OF_ZONE, Code};
pub use decode_local::local;
pub use decode_pair::{pair_air, pair_ground};
pub use encoding::{encode, nearest};
pub use faults::{LocalFault, PairFault};
pub use grid::{GridPoint, lat_zones};
pub use span::{Air, Ground, Span};
pub use sq_angle::{Angle, Position};
pub use sq_zones::Parity;
