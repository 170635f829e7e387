//! The replies of commands. Each command returns a value; one function writes it to the sinks.
ghost use Rattle.std.specs.Prelude.{◌≡◌, ◌<◌, ◌≤◌, ◌++◌, MatchResult, OnErr, OnOk, codes, option_copied};
ghost use Rattle.sq_devices.specs.Changes.{WroteOrFailed, written_on};
ghost use Rattle.sq_digits.specs.Buffer.{text_len};
ghost use Rattle.sq_log.specs.Faults.{run_fault_text};
ghost use Rattle.sq_commands.specs.Faults.{misused};
ghost use Rattle.sq_commands.specs.Frames.{frame_refused};
ghost use Rattle.sq_commands.specs.Local.{IsTextOf, place_refused};
ghost use Rattle.sq_commands.specs.Outputs.{outputs};
ghost use Rattle.sq_commands.specs.Replies.{FailedOn, Got, GotOrFailed, IsAnswer, IsDelivered, answered, bytes_in};
ghost use Rattle.sq_commands.specs.Replies.{broken_off, reply_parts, report_in, reporting, silent};
ghost use Rattle.sq_commands.specs.Requests.{asked_reply};
ghost use Rattle.sq_commands.specs.Runs.{IsReplyOf};
ghost use Rattle.sq_commands.specs.Summary.{summary_text};

mod encode;
mod local;
mod pair;
mod show;

use crate::arguments::ArgumentFault;
use crate::feed::FeedEnd;
use crate::requests::ReplyRequest;
use crate::status::Status;
use crate::summary::summary;
use encode::encode;
use local::local;
use pair::pair;
use show::show;
use sq_devices::{Failed, Sink, put_last};
use sq_digits::TextBuffer;
use sq_log::RunFault;
use sq_message::{Place, PlaceFault};
use sq_text::{LineFault, place_text, push_fault, push_place_fault};

/// A text of a reply, at most 320 bytes.
pub type ReplyText = TextBuffer<320>;

/// The report of a reply.
#[derive(Drop)]
pub enum ReportLine {
    /// A line, with its line feed.
    Line(ReplyText),
    /// The summary of a feed.
    Summary(FeedEnd),
}

/// The result of a command. A command that reads the input writes its output as it reads, so its reply has none.
#[derive(Drop)]
pub struct Reply {
    /// How the command ends.
    pub status: Status,
    /// The text for the output, if there is one.
    pub output: Option<ReplyText>,
    /// The line for the sink for faults, if there is one.
    pub error: Option<ReportLine>,
}

/// Returns the reply to a request that reads no input.
pub fn reply_to(request: ReplyRequest<'_>) -> Reply
    ensures { IsReplyOf (asked_reply request.entry) (reply_parts result) }
{
    match request {
        ReplyRequest::Show { frame } => show(frame),
        ReplyRequest::Encode(words) => encode(&words),
        ReplyRequest::Local { frame, lat, lon } => local(frame, lat, lon),
        ReplyRequest::Pair {
            older,
            newer,
            lat,
            lon,
        } => pair(older, newer, lat, lon),
    }
}

// Returns success with this output.
pub(crate) fn reply_with<const N: usize>(text: &TextBuffer<N>) -> Reply
    requires { N ≤ 320 }
    ensures { reply_parts result ≡ answered text.now.bytes }
{
    let mut output = ReplyText::new();
    output.push_str(text.as_str());
    Reply {
        status: Status::Good,
        output: Some(output),
        error: None,
    }
}

// Returns a reply without output or report.
pub(crate) fn end_silently(status: Status) -> Reply
    ensures { reply_parts result ≡ silent status }
{
    Reply {
        status,
        output: None,
        error: None,
    }
}

// Returns a reply with a report. The line has no line feed yet.
pub(crate) fn end_reporting(status: Status, line: ReplyText) -> Reply
    requires { text_len line < 320 }
    ensures { reply_parts result ≡ reporting status line.bytes }
{
    let mut error = line;
    error.push(b'\n');
    Reply {
        status,
        output: None,
        error: Some(ReportLine::Line(error)),
    }
}

// Returns the error of an invalid argument.
pub(crate) fn refuse_argument(fault: ArgumentFault) -> Reply
    ensures { reply_parts result ≡ misused fault }
{
    let mut line = ReplyText::new();
    fault.push(&mut line);
    end_reporting(Status::Misused, line)
}

// Returns the error of an invalid frame.
pub(crate) fn refuse_frame(fault: LineFault) -> Reply
    ensures { reply_parts result ≡ frame_refused fault }
{
    let mut line = ReplyText::new();
    push_fault(&mut line, fault);
    end_reporting(Status::Refused, line)
}

// Returns the error of squitters that have no place.
fn refuse_place(fault: PlaceFault) -> Reply
    ensures { reply_parts result ≡ place_refused fault }
{
    let mut line = ReplyText::new();
    push_place_fault(&mut line, fault);
    end_reporting(Status::Refused, line)
}

// Returns the reason why a run stopped early.
pub(crate) fn stop(fault: RunFault) -> Reply
    ensures { reply_parts result ≡ broken_off fault }
{
    let mut line = ReplyText::new();
    line.push_str(fault.label());
    end_reporting(Status::Broken, line)
}

// Returns the two lines of a place, or why there is none.
pub(crate) fn reply_place(decoded: Result<Place, PlaceFault>) -> Reply
    ensures { MatchResult decoded (λ place. IsAnswer (IsTextOf place) (reply_parts result))
        (λ fault. reply_parts result ≡ place_refused fault) }
{
    match decoded {
        Ok(place) => reply_with(&place_text(&place.position())),
        Err(fault) => refuse_place(fault),
    }
}

/// Writes each text of a reply to its sink, and finishes that sink once. Leaves a sink without a text alone.
///
/// Returns the reply's status. If the output fails, reports `write failed` in place of the error, and returns `Broken`.
/// A failure of the sink for faults changes no status.
#[tactic(auto, unfolding(crate::specs::Replies::IsDelivered))]
pub fn deliver<K: Sink, F: Sink>(reply: &Reply, output: &mut K, faults: &mut F) -> Status
    ensures { IsDelivered (reply_parts reply.now) result
        (outputs K.Sink F.Sink output.old output.new faults.old faults.new) }
{
    match put_output(reply.output.as_ref(), output) {
        Ok(()) => report_end(reply, faults),
        Err(Failed) => break_off(RunFault::Write, faults),
    }
}

// Writes the text, if there is one, and finishes the sink.
fn put_output<K: Sink>(text: Option<&ReplyText>, output: &mut K) -> Result<(), Failed>
    ensures ok { OnOk result (Got (bytes_in (option_copied text.entry)) (written_on K.Sink output.old output.new)) }
    ensures err { OnErr result (FailedOn (bytes_in (option_copied text.entry))
        (written_on K.Sink output.old output.new)) }
{
    match text {
        Some(text) => put_last(output, text.as_bytes()),
        None => Ok(()),
    }
}

/// Reports the line of a reply, if there is one. Returns the reply's status. A failure of the sink changes nothing.
pub fn report_end<F: Sink>(reply: &Reply, faults: &mut F) -> Status
    ensures status { result ≡ reply.now.status }
    ensures reported { GotOrFailed (report_in reply.now.error) (written_on F.Sink faults.old faults.new) }
{
    put_report(reply.error.as_ref(), faults);
    reply.status
}

// Writes the report, if there is one.
fn put_report<F: Sink>(line: Option<&ReportLine>, faults: &mut F)
    ensures { GotOrFailed (report_in (option_copied line.entry)) (written_on F.Sink faults.old faults.new) }
{
    match line {
        Some(ReportLine::Line(text)) => report(text.as_str(), faults),
        Some(ReportLine::Summary(end)) => report_summary(end, faults),
        None => {}
    }
}

// Writes the summary of a feed. Not inlined, so that no other command pays for its text.
#[inline(never)]
fn report_summary<F: Sink>(end: &FeedEnd, faults: &mut F)
    ensures { WroteOrFailed (written_on F.Sink faults.old faults.new) (summary_text end.now ++ codes "\n") }
{
    let mut text = summary(end);
    text.push(b'\n');
    report(text.as_str(), faults);
}

/// Writes a text to the sink for faults, and finishes that sink. A failure there changes nothing.
pub fn report<F: Sink>(text: &str, faults: &mut F)
    ensures { WroteOrFailed (written_on F.Sink faults.old faults.new) text.now }
{
    match put_last(faults, text.as_bytes()) {
        Ok(()) | Err(Failed) => {}
    }
}

/// Reports in one line why a run stopped early.
pub fn break_off<F: Sink>(fault: RunFault, faults: &mut F) -> Status
    ensures status { result ≡ Status.Broken }
    ensures reported { WroteOrFailed (written_on F.Sink faults.old faults.new) (run_fault_text fault ++ codes "\n") }
{
    report_end(&stop(fault), faults)
}
