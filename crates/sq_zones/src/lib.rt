//! The number of longitude zones at a latitude.
//!
//! Compact position reporting divides each circle of latitude into longitude zones, fewer towards the poles.
//! [`zone_count`] returns their number at a latitude (NL): exactly the count over the standard's table of transition
//! latitudes, for every latitude that an [`Angle`] can be, with no rounding. [`lon_zones`] returns their number on
//! the grid of a [`Parity`]. No call allocates or fails.
#![tactic(auto)]

pub mod laws;
pub mod parity;
pub mod pins;
pub mod zones;

pub use parity::Parity;
pub use sq_angle::Angle;
pub use zones::{lon_zones, zone_count};
