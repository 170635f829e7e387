//! The loop that runs a log machine over devices.
ghost use Rattle.std.specs.Prelude.{◌≡◌, ◌≤◌, [], List, ℕ, IfOk, length, true};
ghost use Rattle.sq_devices.specs.Changes.{TookReported, taken_from, written_on};
ghost use Rattle.sq_log.specs.Faults.{run_fault_text};
ghost use Rattle.sq_log.specs.Lines.{lines_of};
ghost use Rattle.sq_log.specs.Logs.{HasHeard, IsUpToDate};
ghost use Rattle.sq_log.specs.Runs.{HasToldBy, IsRun, fed};

use crate::log::{Answer, Log, Step, Tally};
use crate::telling::{LineText, Telling, put_answer, put_header};
use sq_devices::{Failed, Sink, Source};
use thiserror::Error;

/// The reason why a run stopped before the end of its input.
#[derive(Clone, Copy, Debug, PartialEq, Eq, Error)]
#[error("{text}", text = self.label())]
pub enum RunFault {
    /// A get of this run failed.
    Read,
    /// A put of this run failed, or the finish at its end.
    Write,
    /// An allocation failed.
    Memory,
}

impl RunFault {
    /// Its text, at most 13 bytes.
    pub fn label(self) -> &'static str
        ensures value { result.now ≡ run_fault_text self }
        ensures short { length result.now ≤ 13 }
    {
        match self {
            RunFault::Read => "read failed",
            RunFault::Write => "write failed",
            RunFault::Memory => "out of memory",
        }
    }
}

// Ends the last line if the input has ended.
#[inline(always)]
fn end_if<J: Telling>(log: &mut Log<J>, ended: bool)
    ensures heard { (start : J) (given : List ℕ) (lines : List (List ℕ)) (answers : List (Answer J.Found))
        → HasHeard J.how start log.old given lines answers
        → (ended ≡ true → IsUpToDate log.old)
        → HasHeard J.how start log.new (fed ended given) lines answers }
    ensures short { length log.old.window.waiting ≤ 64 → length log.new.window.waiting ≤ 64 }
    ensures number { log.new.number ≡ log.old.number }
    ensures lasting { J.lasting log.new.job ≡ J.lasting log.old.job }
{
    if ended {
        log.end();
    }
}

/// Writes the header, and the answer to each line of the source before the next line is heard. Returns the numbers of
/// good and of refused lines once the input has ended and the sink is finished.
///
/// `Read`: a get failed. `Write`: a put or the finish failed. `Memory`: the job had no memory for a line.
pub fn run_log<S: Source, K: Sink, J: Telling>(
    source: &mut S,
    sink: &mut K,
    log: &mut Log<J>,
) -> Result<Tally, RunFault>
    // The machine was given nothing.
    requires { HasHeard J.how log.old.job log.old [] [] [] }

    // Some lines were heard and answered. The result says which, and how much of their answers was written.
    ensures ran { IsRun J.front J.text J.how log.old.job log.new.job result
        (taken_from S.Source source.old source.new) (written_on K.Sink sink.old sink.new) }

    // If the source reports its bytes, the answers are those to all of them.
    ensures reported { IfOk result (λ tally. TookReported (taken_from S.Source source.old source.new)
        (λ read. HasToldBy J.front J.text J.how log.old.job log.new.job result
        (written_on K.Sink sink.old sink.new) (lines_of read))) }
    ensures lasting { J.lasting log.new.job ≡ J.lasting log.old.job }
{
    match put_header(log.job(), sink) {
        Ok(()) => {}
        Err(Failed) => return Err(RunFault::Write),
    }
    let mut text = LineText::new();
    let mut ended = false;
    'steps: loop {
        match log.step(b"") {
            Step::Passed(_) => {}
            Step::Answered(_, answer) => match put_answer(log.job(), &answer, sink, &mut text) {
                Ok(()) => {}
                Err(Failed) => return Err(RunFault::Write),
            },
            Step::NoMemory(_) => return Err(RunFault::Memory),
            Step::Fed => {
                if ended {
                    break;
                }
                let Ok(count) = log.get_from(source) else {
                    return Err(RunFault::Read);
                };
                ended = count == 0;
                end_if(log, ended);
            }
        }
    }
    match sink.finish() {
        Ok(()) => Ok(log.tally()),
        Err(Failed) => Err(RunFault::Write),
    }
}
