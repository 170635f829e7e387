//! Tracks aircraft from squitters, one after another.
//!
//! A [`Tracker`] hears squitters with their timestamps (ms). It pairs an even and an odd one of one address within a
//! window, and follows an address from its last fix. It drops addresses that were not heard for longer than the
//! window. Its results are a function of the history: the accepted squitters and their timestamps. The time of a call
//! does not grow with the number of addresses.
//!
//! [`laws`] states the consequence: if senders are slow enough, each fix and each followed position is the true one.
#![tactic(auto)]

mod answer;
mod contact;
mod contacts;
mod heard;
pub mod laws;
mod links;
mod listening;
mod owned;
pub mod pins;
mod tracker;
mod watch;
pub mod worked;

pub use contact::{Contact, LastFix, Side};
pub use heard::{Heard, RestoreFault, TrackFault};
pub use listening::hear_each;
pub use sq_message::{Place, Position, Received, Squitter};
pub use tracker::Tracker;
pub use watch::Watch;
