//! Tests of the program on its devices: worked command lines, inputs in pieces, and allocations that fail.
#![tactic(auto)]

#[cfg(test)]
mod growths;
#[cfg(test)]
mod runs;
#[cfg(test)]
mod streams;
#[cfg(test)]
mod words;
