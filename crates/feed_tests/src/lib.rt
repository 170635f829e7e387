//! Tests of feeds: machines, slots, counts, clocks, orders, and units of timestamps. The vectors have the lines of
//! sources.
#![tactic(auto)]

mod fed;
#[cfg(test)]
mod feeds;
#[cfg(test)]
mod machines;
#[cfg(test)]
mod orders;
#[cfg(test)]
mod units;

// A recorded source: a gap above ten minutes is a jump, and timestamps never go back.
const RECORDED: sq_feed::Manner = sq_feed::Manner {
    leap: 600_000,
    late: 0,
    is_live: false,
    ignores_clock: false,
    all_formats: false,
};
