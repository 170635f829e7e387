//! Squitters with their timestamps.
use crate::squitter::Squitter;

/// A squitter and its timestamp in milliseconds.
#[derive(Clone, Copy, Debug, PartialEq, Eq)]
pub struct Received {
    /// The timestamp (ms).
    pub moment: u64,
    /// The squitter.
    pub squitter: Squitter,
}
