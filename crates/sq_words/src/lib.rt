//! The words of a command line, read by clap as a request.
//!
//! [`read_request`] returns the command that the words name, with its values, exactly as clap reads them. It refuses
//! words only if clap finds an error in them. Words without an error ask for exactly one thing, as [`laws`] states.
//! No type of clap leaves this crate.
#![tactic(auto)]

mod command_line;
pub mod laws;
mod request;

pub use request::{Refusal, read_request};
pub use sq_commands::{EncodeWords, FeedWords, ReplyRequest, Request, TrackWords};
