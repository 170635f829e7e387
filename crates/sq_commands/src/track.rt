//! The command `track`: a tracker hears each line of a log.
ghost use base.Fml.{GName};
ghost use Rattle.std.specs.Prelude.{◌≡◌, ◌≤◌, IfOk};
ghost use Rattle.sq_devices.specs.Changes.{TookReported, taken_from, written_on};
ghost use Rattle.sq_log.specs.Lines.{lines_of};
ghost use Rattle.sq_commands.specs.Requests.{asked_track};
ghost use Rattle.sq_commands.specs.Faults.{misused};
ghost use Rattle.sq_commands.specs.Formats.{Writers};
ghost use Rattle.sq_commands.specs.Heard.{heard_lines, heard_telling};
ghost use Rattle.sq_commands.specs.Replies.{reply_parts};
ghost use Rattle.sq_commands.specs.SlowAnswers.{AreTrueAnswers};
ghost use Rattle.sq_commands.specs.Holding.{IsTimedHeardBy};
ghost use Rattle.sq_commands.specs.Track.{HasTracked, IsLogRun, IsTrackRun, IsTracked, IsTrackedBy, hearing_manner};
ghost use Rattle.sq_commands.specs.Tracking.{IsTimedHeard, Past};
ghost use Rattle.sq_commands.specs.TrueAnswers.{true_answers};
ghost use Rattle.sq_track.specs.Held.{settings};

use crate::answers::{HeardSquitter, heard_header, refuse_text, tell_found};
use crate::arguments::{ArgumentFault, TrackOptions, read_options};
use crate::check::end_of;
use crate::formats::{AnswerFormat, Format, Numbered, in_format};
use crate::replies::{Reply, refuse_argument};
use crate::requests::TrackWords;
use sq_devices::{Sink, Source};
use sq_log::{Job, LineText, Log, RunFault, Tally, Telling, Verdict, run_log};
use sq_message::Received;
use sq_text::{Form, LineFault, read_timed};
use sq_track::{TrackFault, Tracker};
use std::alloc::{Allocator, Global};

/// The job of `track`: has a tracker hear each text.
#[derive(Drop)]
pub struct Hearing<'a, F: AnswerFormat, A: Allocator = Global> {
    pub(crate) tracker: &'a mut Tracker<A>,
    pub(crate) format: &'a F,
}

impl<F: AnswerFormat, A: Allocator> Job for Hearing<'_, F, A> {
    type Found = HeardSquitter;

    ghost Past = { Past };

    ghost Lasting = { GName };

    ghost how = { hearing_manner };

    ghost lasting = { λ client. client.tracker.ghost_name };

    ghost Promised = { λ start. AreTrueAnswers start.tracker.now };

    ghost promises = { λ start now. true_answers start.tracker.now now.tracker.now };

    #[inline(always)]
    fn hear(&mut self, text: &[u8]) -> Verdict<HeardSquitter> {
        match read_timed(text) {
            Ok(timed) => hear(self.tracker, timed),
            Err(fault) => Verdict::Refused(fault),
        }
    }
}

impl<F: AnswerFormat, A: Allocator> Telling for Hearing<'_, F, A> {
    ghost Writing = { Writers };

    ghost front = { (heard_telling F.chosen).header };

    ghost text = { (heard_telling F.chosen).text };

    fn header(&self) -> &'static str {
        heard_header(self.format.format())
    }

    #[inline(always)]
    fn tell(&self, number: u64, found: &HeardSquitter, into: &mut LineText) {
        tell_found(self.format.format(), number, found, into);
    }

    fn refuse(&self, number: u64, fault: LineFault, into: &mut LineText) {
        refuse_text(self.format.format(), number, fault, into);
    }
}

/// Returns the job of `track` by a tracker. The format is a type, so that each format has a loop of its own, with the
/// step inlined.
pub fn hear_as<'a, F: AnswerFormat, A: Allocator>(
    tracker: &'a mut Tracker<A>,
    format: &'a F,
) -> Hearing<'a, F, A>
    ensures { result.tracker ≡ tracker.entry }
{
    Hearing { tracker, format }
}

// Has the tracker hear a squitter.
#[inline(always)]
fn hear<A: Allocator>(tracker: &mut Tracker<A>, timed: Received) -> Verdict<HeardSquitter>
    ensures heard { IsTimedHeard result timed tracker.old tracker.new }
    ensures entries { IsTimedHeardBy result timed tracker.old tracker.new }
    ensures settings { settings tracker.new ≡ settings tracker.old }
{
    match tracker.hear(timed.moment, &timed.squitter) {
        Ok(heard) => Verdict::Good(HeardSquitter { timed, heard }),
        Err(TrackFault::MomentBack(last)) => Verdict::Refused(LineFault::MomentBack(last)),
        Err(TrackFault::Full) => Verdict::Refused(LineFault::Full),
        // `hear` returns no `NoLimit`: that is a fault of `Tracker::new`.
        Err(TrackFault::Memory | TrackFault::NoLimit) => Verdict::NoMemory,
    }
}

/// Hears each line of the source that is not empty, and writes the answer. Keeps one line. Only the tracker allocates,
/// for a new address.
///
/// Returns the numbers of good and of refused lines at the end of the input. Errors: `Read` if a get failed, after the
/// answers to all complete lines; `Write` if a put or the finish failed, within the answer to the last heard line;
/// `Memory` if an allocation failed, before the line was heard.
pub fn run_track<S: Source, K: Sink>(
    source: &mut S,
    sink: &mut K,
    tracker: &mut Tracker,
) -> Result<Tally, RunFault>
    ensures ran { IsTracked heard_lines result (taken_from S.Source source.old source.new)
        (written_on K.Sink sink.old sink.new) tracker.old tracker.new }

    // Each answer also follows from what the tracker held before its line, whatever that was. This needs no history.
    ensures entries { IsTrackedBy heard_lines result (taken_from S.Source source.old source.new)
        (written_on K.Sink sink.old sink.new) tracker.old tracker.new }

    // If the source reports its bytes, the answers are those to all of them.
    ensures reported { IfOk result (λ tally. TookReported (taken_from S.Source source.old source.new)
        (λ read. HasTracked heard_lines tracker.old tracker.new result (written_on K.Sink sink.old sink.new)
        (lines_of read))) }
{
    run_track_as(&Numbered, source, sink, tracker)
}

// Writes the answers in the format.
fn run_track_as<S: Source, K: Sink, F: AnswerFormat>(
    format: &F,
    source: &mut S,
    sink: &mut K,
    tracker: &mut Tracker,
) -> Result<Tally, RunFault>
    ensures ran { IsTracked (heard_telling F.chosen) result (taken_from S.Source source.old source.new)
        (written_on K.Sink sink.old sink.new) tracker.old tracker.new }
    ensures entries { IsTrackedBy (heard_telling F.chosen) result (taken_from S.Source source.old source.new)
        (written_on K.Sink sink.old sink.new) tracker.old tracker.new }
    ensures reported { IfOk result (λ tally. TookReported (taken_from S.Source source.old source.new)
        (λ read. HasTracked (heard_telling F.chosen) tracker.old tracker.new result
        (written_on K.Sink sink.old sink.new) (lines_of read))) }
{
    run_log(source, sink, &mut Log::new(Hearing { tracker, format }))
}

fn run_track_in<S: Source, K: Sink>(
    format: Format,
    source: &mut S,
    sink: &mut K,
    tracker: &mut Tracker,
) -> Result<Tally, RunFault>
    ensures { IsTracked (heard_telling format) result (taken_from S.Source source.old source.new)
        (written_on K.Sink sink.old sink.new) tracker.old tracker.new }
{
    in_format!(format, run_track_as(source, sink, tracker))
}

// Runs `track` over the input.
pub(crate) fn track<S: Source, K: Sink>(
    alloc: Global,
    words: &TrackWords<'_>,
    input: &mut S,
    output: &mut K,
) -> Reply
    ensures { IsTrackRun (asked_track words.now) (reply_parts result)
        (taken_from S.Source input.old input.new) (written_on K.Sink output.old output.new) }
{
    match read_options(words) {
        Ok(options) => track_with(alloc, &options, input, output),
        Err(fault) => refuse_argument(fault),
    }
}

// Runs `track` with options that were read. A limit of 0 is refused, and the input is unread.
fn track_with<S: Source, K: Sink>(
    alloc: Global,
    options: &TrackOptions,
    input: &mut S,
    output: &mut K,
) -> Reply
    ensures ran { 1 ≤ options.now.limit → IsLogRun options.now (reply_parts result)
        (taken_from S.Source input.old input.new) (written_on K.Sink output.old output.new) }
    ensures refused { options.now.limit ≡ 0 → (input.new ≡ input.old) × (output.new ≡ output.old)
        × (reply_parts result ≡ misused ArgumentFault.NoLimit) }
{
    match Tracker::new(alloc, options.limit, options.window, options.site) {
        Ok(mut tracker) => end_of(run_track_in(options.format, input, output, &mut tracker)),
        Err(_) => refuse_argument(ArgumentFault::NoLimit),
    }
}
