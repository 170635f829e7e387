//! The commands over the devices.
ghost use Rattle.sq_devices.specs.Clocks.{times_of};
ghost use Rattle.sq_commands.specs.Requests.{asked_by};
ghost use Rattle.sq_commands.specs.Outputs.{effects, outputs};
ghost use Rattle.sq_commands.specs.Runs.{IsRun, IsTimedRun};

use crate::check::check;
use crate::feed::feed;
use crate::replies::{deliver, reply_to, report_end};
use crate::requests::Request;
use crate::status::Status;
use crate::track::track;
use sq_devices::{Clock, NoClock, Sink, Source};
use std::alloc::Global;

/// Runs a request on a recorded input and returns how it ended.
///
/// Writes an answer to the output, and a fault in one line to the sink for faults. A failure there changes no status.
/// The commands of [`ReplyRequest`](crate::requests::ReplyRequest) leave the input alone.
pub fn answer<S: Source, K: Sink, F: Sink>(
    alloc: Global,
    request: Request<'_>,
    input: &mut S,
    output: &mut K,
    faults: &mut F,
) -> Status
    ensures { IsRun (asked_by request.entry) result
        (effects S.Source input.old input.new (outputs K.Sink F.Sink output.old output.new faults.old faults.new)) }
{
    answer_live(alloc, request, &mut NoClock, input, output, faults)
}

/// Runs a request as [`answer`] does, on an input that is received by a clock. `feed` reads the clock after each get;
/// no other command does.
pub fn answer_live<C: Clock, S: Source, K: Sink, F: Sink>(
    alloc: Global,
    request: Request<'_>,
    clock: &mut C,
    input: &mut S,
    output: &mut K,
    faults: &mut F,
) -> Status
    ensures { IsTimedRun (times_of C.Clock clock.old clock.new) (asked_by request.entry) result
        (effects S.Source input.old input.new (outputs K.Sink F.Sink output.old output.new faults.old faults.new)) }
{
    match request {
        Request::Reply(words) => deliver(&reply_to(words), output, faults),
        Request::Check { format } => report_end(&check(format, input, output), faults),
        Request::Track(words) => report_end(&track(alloc, &words, input, output), faults),
        Request::Feed(words) => report_end(&feed(alloc, &words, clock, input, output), faults),
    }
}
