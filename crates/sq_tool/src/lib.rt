//! The program `squitter` over its devices: what it writes is a stated function of what it reads.
//!
//! [`run`] does what the words of a command line ask for, and returns the exit status. [`run_live`] does so on a live
//! input with a clock. [`refuse_start`] reports why there are no words. The other names are those that a user of the
//! program as a library needs: devices, lines, the three commands that read a stream, and the texts of frames. Each
//! comes from a crate below.
#![tactic(auto)]

pub mod laws;
pub mod pins;
mod program;

pub use program::{refuse_start, run, run_live};
pub use sq_commands::{Counts, SourceFormat, run_check, run_feed, run_track};
pub use sq_devices::{Clock, Failed, NoClock, Reading, Sink, Source, Trouble, Writing};
pub use sq_log::{Cutter, RunFault, Tally};
pub use sq_text::{Frame, TextFault, read_text};
pub use sq_track::Tracker;
pub use sq_words::{EncodeWords, FeedWords, Refusal, Request, TrackWords, read_request};
