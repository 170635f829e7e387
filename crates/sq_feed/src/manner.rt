//! How a feed hears its source.

/// How a feed gives frames their timestamps, and which frames it gives.
#[derive(Clone, Copy)]
pub struct Manner {
    /// A gap above this (ms) is a jump of the source's clock.
    pub leap: u64,
    /// By how much (ms) a timestamp may be before the latest one. With 0, timestamps never go back.
    pub late: u64,
    /// Whether arrivals say when the bytes of the source were received. Otherwise they are ignored.
    pub is_live: bool,
    /// Whether the receiver's clock is ignored, so that its frames have their arrivals.
    pub ignores_clock: bool,
    /// Whether frames of other downlink formats than 17 are given too.
    pub all_formats: bool,
}
