//! The loop over the lines of a log, which writes their results in a form, as many as fit the output.
ghost use Rattle.sq_log.specs.States.{with_job};
ghost use Rattle.std.specs.Prelude.{◌≡◌, ◌↔◌, ◌+◌, ◌*◌, ◌^◌, ◌<◌, ◌≤◌, [], IsTrue, length, take};
ghost use Rattle.squitter_c.specs.LogCalls.{GoesOn, GoesToTheEnd, HasGoneOn, IsEndTold, IsFinishedBy, IsTakenBy};
ghost use Rattle.squitter_c.specs.LogCalls.{IsTooLong, IsWrittenTo, fault_of_end, held_by};

use crate::faults::{Fault, NONE, Reason};
use crate::forms::Form;
use crate::listener::Listener;
use sq_commands::{Hearing, hear_as};
use sq_log::{Log, LogState, Step};
use sq_track::Tracker;
use std::alloc::Allocator;

/// Progress of a call: how much of the input was taken, and how many elements of the output were written.
#[repr(C)]
#[derive(Clone, Copy)]
pub struct Done {
    pub taken: usize,
    pub written: usize,
}

/// Why a call stopped taking bytes.
#[derive(Clone, Copy)]
pub enum End {
    /// All given lines with a line feed have their results.
    Fed,
    /// There is no room for another result.
    Full,
    /// There was no memory to hear the next line.
    NoMemory,
}

/// Takes a piece.
pub(crate) fn take_by<F: Form>(
    listener: &mut Listener,
    form: &mut F,
    piece: &[u8],
    out: &mut [F::Item],
    done: &mut Done,
) -> Fault
    ensures { IsTakenBy (F.As form.old) F.ROOM listener.old listener.new piece.now out.old out.new done.old done.new
        result }
{
    if is_too_long(&listener.log, piece.len()) {
        return Fault::of(Reason::LongLog);
    }
    let (told, end) = take_with(&mut listener.tracker, &mut listener.log, form, piece, out);
    *done = told;
    fault_at(end)
}

/// Finishes a log.
pub(crate) fn finish_by<F: Form>(
    listener: &mut Listener,
    form: &mut F,
    out: &mut [F::Item],
    done: &mut Done,
) -> Fault
    ensures { IsFinishedBy (F.As form.old) F.ROOM listener.old listener.new out.old out.new done.old done.new result }
{
    if is_too_long(&listener.log, 0) {
        return Fault::of(Reason::LongLog);
    }
    let (told, end) = finish_with(&mut listener.tracker, &mut listener.log, form, out);
    *done = told;
    fault_at(end)
}

// Takes a piece with a tracker and the state of its log.
fn take_with<F: Form, A: Allocator>(
    tracker: &mut Tracker<A>,
    state: &mut LogState,
    form: &mut F,
    piece: &[u8],
    out: &mut [F::Item],
) -> (Done, End)
    requires { ¬ (IsTooLong state.old (length piece.now)) }
    ensures gone { GoesOn (F.As form.old) result.1 (with_job tracker.old state.old) (with_job tracker.new state.new)
        (take result.0.taken piece.now) [] (take result.0.written out.new) }
    ensures written { IsWrittenTo out.old out.new result.0 (length piece.now) }
    ensures end { IsEndTold F.ROOM result.1 result.0 (length piece.now) (length out.new) }
{
    let mut log = Log::resume(hear_as(tracker, F::in_loop()), state);
    let told = write_some(&mut log, form, piece, out, 0);
    *state = log.state();
    told
}

// Finishes a log with a tracker and the state of its log.
fn finish_with<F: Form, A: Allocator>(
    tracker: &mut Tracker<A>,
    state: &mut LogState,
    form: &mut F,
    out: &mut [F::Item],
) -> (Done, End)
    requires { ¬ (IsTooLong state.old 0) }
    ensures gone { GoesToTheEnd (F.As form.old) result.1 (with_job tracker.old state.old)
        (with_job tracker.new state.new) [] (take result.0.written out.new) }
    ensures written { IsWrittenTo out.old out.new result.0 0 }
    ensures end { IsEndTold F.ROOM result.1 result.0 0 (length out.new) }
{
    let mut log = Log::resume(hear_as(tracker, F::in_loop()), state);
    let told = finish_some(&mut log, form, out);
    *state = log.state();
    told
}

// Writes the results of all given lines, and then of the last one, which has no line feed, as many as fit.
fn finish_some<F: Form, A: Allocator>(
    log: &mut Log<Hearing<'_, F::Loop, A>>,
    form: &mut F,
    out: &mut [F::Item],
) -> (Done, End)
    requires few { log.old.number + 200 < 2 ^ 64 }
    requires short { length log.old.window.waiting ≤ 64 }
    ensures gone { GoesToTheEnd (F.As form.old) result.1 (held_by log.old) (held_by log.new) []
        (take result.0.written out.new) }
    ensures written { IsWrittenTo out.old out.new result.0 0 }
    ensures end { IsEndTold F.ROOM result.1 result.0 0 (length out.new) }
    ensures lasting { log.new.job.tracker.ghost_name ≡ log.old.job.tracker.ghost_name }
{
    let (done, end) = write_some(log, form, b"", out, 0);
    match end {
        End::Fed => {
            log.end();
            write_some(log, form, b"", out, done.written)
        }
        End::Full => (done, End::Full),
        End::NoMemory => (done, End::NoMemory),
    }
}

// Writes the results of the next lines from index `from` of the output on.
fn write_some<F: Form, A: Allocator>(
    log: &mut Log<Hearing<'_, F::Loop, A>>,
    form: &mut F,
    piece: &[u8],
    out: &mut [F::Item],
    from: usize,
) -> (Done, End)
    requires few { log.old.number + length log.old.window.waiting + 2 * length piece.now + 1 < 2 ^ 64 }
    requires from { from ≤ length out.old }
    ensures goes_on { HasGoneOn (F.As form.old) result.1 log.old log.new piece.now out.old out.new from result.0 }
    ensures end { IsEndTold F.ROOM result.1 result.0 (length piece.now) (length out.new) }
    ensures long { length out.new ≡ length out.old }
    ensures form { form.new ≡ form.old }
{
    let mut taken = 0;
    let mut written = from;
    while out.len() - written >= F::ROOM {
        match log.step(&piece[taken..]) {
            Step::Fed => return (Done { taken, written }, End::Fed),
            Step::Passed(count) => taken += count,
            Step::Answered(count, answer) => {
                taken += count;
                written = form.put(&answer, out, written);
            }
            Step::NoMemory(count) => {
                taken += count;
                return (Done { taken, written }, End::NoMemory);
            }
        }
    }
    (Done { taken, written }, End::Full)
}

// Returns whether a log has 2^63 lines, or a piece more than 2^61 bytes.
fn is_too_long(state: &LogState, size: usize) -> bool
    ensures { IsTrue result ↔ IsTooLong state.now size }
{
    state.number() >= 1 << 63 || size > 1 << 61
}

// Returns the fault of an end.
fn fault_at(end: End) -> Fault
    ensures { result ≡ fault_of_end end }
{
    match end {
        End::Fed | End::Full => NONE,
        End::NoMemory => Fault::of(Reason::Memory),
    }
}
