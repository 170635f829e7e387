//! Tests of the codec's lower crates: bits, angles, zones and the two grids.
#![tactic(auto)]

#[cfg(test)]
mod angles;
#[cfg(test)]
mod bits;
#[cfg(test)]
mod decoding;
#[cfg(test)]
mod digits;
#[cfg(test)]
mod points;
#[cfg(test)]
mod rows;
#[cfg(test)]
mod zones;
