//! The lines of a log, one at a time, and an answer to each.
//!
//! [`Log`] is a state machine: it takes pieces of a log, and returns the answers to its lines as values. It owns no
//! device, makes no text and allocates nothing. It handles long lines, empty lines, carriage returns and line numbers;
//! a [`Job`] answers the text of a line, by the texts before it. [`run_log`] is the loop around the machine: it reads
//! from a source, and puts the text of each answer ([`Telling`]) on a sink before the next line is heard. A [`Cutter`]
//! splits an input that comes in pieces into lines of at most 64 bytes.
#![tactic(auto)]

mod cutter;
mod job;
pub mod laws;
mod lines;
mod log;
mod marked_bytes;
pub mod pins;
mod run;
mod state;
mod telling;
mod window;

pub use cutter::Cutter;
pub use job::{Job, Verdict};
pub use lines::{Line, content_of};
pub use log::{Answer, Log, Step, Tally};
pub use run::{RunFault, run_log};
pub use sq_devices::{Sink, Source};
pub use sq_text::LineFault;
pub use state::LogState;
pub use telling::{LineText, Telling};
