//! An allocator over memory that a caller lends: no heap is asked.
//!
//! A [`Room`] is a block as C lends it. [`Lent`] hands its bytes out once, front to back, and takes none back. It
//! suits a value that takes its memory at once and keeps it, such as a tracker with room for its limit.
#![tactic(auto)]

mod lent;
mod memory;

pub use lent::Lent;
pub use memory::{Memory, Room};
