//! The commands of `squitter` over its devices: the output is a stated function of the request and the input.
//!
//! [`answer`] runs a request and returns how it ended. It knows no command line: crates above read requests from words.
#![tactic(auto)]

mod answer_lines;
mod answers;
mod arguments;
mod check;
mod check_rows;
mod feed;
mod feed_lines;
mod formats;
pub mod laws;
pub mod pins;
mod program;
mod replies;
mod requests;
mod status;
mod summary;
mod track;
mod track_rows;

pub use answers::{HeardSquitter, heard_header, tell_heard};
pub use check::run_check;
pub use feed::{FeedEnd, FeedOptions, run_feed};
pub use formats::{AnswerFormat, CsvRows, Format, Numbered};
pub use program::{answer, answer_live};
pub use replies::{Reply, ReplyText, ReportLine, break_off, deliver, reply_to, report, report_end};
pub use requests::{EncodeWords, FeedWords, ReplyRequest, Request, TrackWords};
pub use sq_devices::{Clock, NoClock, Sink, Source};
pub use sq_feed::{Counts, Format as SourceFormat, Stranger};
pub use sq_log::{Answer, LineText, RunFault, Tally};
pub use sq_track::Tracker;
pub use status::Status;
pub use track::{Hearing, hear_as, run_track};
