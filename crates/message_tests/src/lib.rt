//! Tests of messages and of their texts, and of the tracker: frames read and written, places decoded, sent again and
//! heard.
#![tactic(auto)]

#[cfg(test)]
mod displays;
#[cfg(test)]
mod frames;
#[cfg(test)]
mod headline;
#[cfg(test)]
mod moments;
#[cfg(test)]
mod places;
#[cfg(test)]
mod samples;
#[cfg(test)]
mod sending;
#[cfg(test)]
mod texts;
#[cfg(test)]
mod tracker;
