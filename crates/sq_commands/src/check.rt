//! The command `check`: an answer to each line that is not empty.
ghost use Rattle.std.specs.Prelude.{◌≡◌, IfOk, option_copied};
ghost use Rattle.sq_devices.specs.Changes.{TookReported, taken_from, written_on};
ghost use Rattle.sq_log.specs.Lines.{lines_of};
ghost use Rattle.sq_commands.specs.Check.{HasChecked, IsCheckRun, IsChecked, check_manner, run_reply};
ghost use Rattle.sq_commands.specs.Formats.{Writers};
ghost use Rattle.sq_commands.specs.Replies.{reply_parts};
ghost use Rattle.sq_commands.specs.Squitters.{squitter_lines, squitter_telling};
ghost use Rattle.sq_text.specs.Reading.{SquitterReader};

use crate::answers::{refuse_frame, squitter_header, tell_squitter};
use crate::arguments::read_format;
use crate::formats::{AnswerFormat, Format, Numbered, in_format};
use crate::replies::{Reply, end_silently, refuse_argument, stop};
use crate::status::Status;
use sq_devices::{Sink, Source};
use sq_log::{Job, LineText, Log, RunFault, Tally, Telling, Verdict, run_log};
use sq_message::Squitter;
use sq_text::{Form, LineFault, read_squitter};

// The job of `check`: answers each text by itself.
#[derive(Drop)]
struct Checking<'a, F: AnswerFormat> {
    format: &'a F,
}

impl<F: AnswerFormat> Job for Checking<'_, F> {
    type Found = Squitter;

    ghost Past = { SquitterReader };

    ghost Lasting = { Unit {0} };

    ghost how = { check_manner };

    ghost lasting = { λ client. tt };

    // Each answer follows from its own line, so `how` says it all.
    ghost Promised = { λ start answers. Unit {0} };

    ghost promises = { λ start now tally lines answers told. tt };

    #[inline(always)]
    fn hear(&mut self, text: &[u8]) -> Verdict<Squitter> {
        match read_squitter(text) {
            Ok(squitter) => Verdict::Good(squitter),
            Err(fault) => Verdict::Refused(fault),
        }
    }
}

impl<F: AnswerFormat> Telling for Checking<'_, F> {
    ghost Writing = { Writers };

    ghost front = { (squitter_telling F.chosen).header };

    ghost text = { (squitter_telling F.chosen).text };

    fn header(&self) -> &'static str {
        squitter_header(self.format.format())
    }

    #[inline(always)]
    fn tell(&self, number: u64, found: &Squitter, into: &mut LineText) {
        tell_squitter(self.format.format(), number, found, into);
    }

    fn refuse(&self, number: u64, fault: LineFault, into: &mut LineText) {
        refuse_frame(self.format.format(), number, fault, into);
    }
}

/// Writes the answer to each line of the source that is not empty. Keeps one line and allocates nothing.
///
/// Returns the numbers of good and of refused lines at the end of the input. Errors: `Read` if a get failed, after the
/// answers to all lines that were read whole; `Write` if a put or the finish failed, within these answers; never
/// `Memory`.
pub fn run_check<S: Source, K: Sink>(source: &mut S, sink: &mut K) -> Result<Tally, RunFault>
    ensures ran { IsChecked squitter_lines result (taken_from S.Source source.old source.new)
        (written_on K.Sink sink.old sink.new) }

    // If the source reports its bytes, the answers are those to all of them.
    ensures reported { IfOk result (λ tally. TookReported (taken_from S.Source source.old source.new)
        (λ read. HasChecked squitter_lines result (written_on K.Sink sink.old sink.new) (lines_of read))) }
{
    run_check_as(&Numbered, source, sink)
}

// Writes the answers in the format.
fn run_check_as<S: Source, K: Sink, F: AnswerFormat>(
    format: &F,
    source: &mut S,
    sink: &mut K,
) -> Result<Tally, RunFault>
    ensures ran { IsChecked (squitter_telling F.chosen) result (taken_from S.Source source.old source.new)
        (written_on K.Sink sink.old sink.new) }
    ensures reported { IfOk result (λ tally. TookReported (taken_from S.Source source.old source.new)
        (λ read. HasChecked (squitter_telling F.chosen) result (written_on K.Sink sink.old sink.new)
        (lines_of read))) }
{
    run_log(source, sink, &mut Log::new(Checking { format }))
}

fn run_check_in<S: Source, K: Sink>(
    format: Format,
    source: &mut S,
    sink: &mut K,
) -> Result<Tally, RunFault>
    ensures { IsChecked (squitter_telling format) result (taken_from S.Source source.old source.new)
        (written_on K.Sink sink.old sink.new) }
{
    in_format!(format, run_check_as(source, sink))
}

// Runs `check` over the input, in the format with this name.
pub(crate) fn check<S: Source, K: Sink>(
    format: Option<&str>,
    input: &mut S,
    output: &mut K,
) -> Reply
    ensures { IsCheckRun (option_copied format.entry) (reply_parts result)
        (taken_from S.Source input.old input.new) (written_on K.Sink output.old output.new) }
{
    match read_format(format) {
        Ok(format) => end_of(run_check_in(format, input, output)),
        Err(fault) => refuse_argument(fault),
    }
}

// Returns the reply at the end of a run: `Good` if no line was refused, otherwise `Refused`; or the reason why the run
// stopped early.
pub(crate) fn end_of(ran: Result<Tally, RunFault>) -> Reply
    ensures { reply_parts result ≡ run_reply ran }
{
    match ran {
        Ok(tally) if tally.refused == 0 => end_silently(Status::Good),
        Ok(_) => end_silently(Status::Refused),
        Err(fault) => stop(fault),
    }
}
