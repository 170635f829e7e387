//! The results for the lines of a log as structs, as many as fit an array.
ghost use Rattle.squitter_c.specs.LogCalls.{IsLogFinished, IsLogTaken};
ghost use Rattle.squitter_c.specs.Slots.{held_listener};

use crate::faults::{Fault, Reason};
use crate::forms::Structs;
use crate::log_answer::PlainAnswer;
use crate::log_loop::{Done, finish_by, take_by};
use crate::slot::Slot;

/// Takes the next piece of the log, and writes the results of its lines, as many as fit. `done` has the number of
/// bytes taken, and of results written. If the call returns code 0 and writes fewer results than fit, it took the
/// whole piece. Each line with a line feed then has its result.
///
/// The faults are, in this order: `NoTracker` if there is no log; `LongLog` if the log has 2^63 lines, or the piece
/// more than 2^61 bytes; `Memory` if an allocation fails. After the first two nothing is changed. After `Memory` the
/// earlier results are written, and the line waits for the next call.
#[unsafe(no_mangle)]
pub extern "C" fn squitter_log_take(
    log: &mut Slot,
    piece: &[u8],
    out: &mut [PlainAnswer],
    done: &mut Done,
) -> Fault
    ensures { IsLogTaken (held_listener log.old) (held_listener log.new) piece.now out.old out.new done.old done.new
        result }
{
    match log.take() {
        Some(mut taken) => {
            let fault = take_by(&mut taken, &mut Structs, piece, out, done);
            log.put(taken);
            fault
        }
        None => Fault::of(Reason::NoTracker),
    }
}

/// Writes the results of the lines that still wait, and of a last line without a line feed. If the call returns code
/// 0 and writes fewer results than fit, all results are written; otherwise call again. The faults are those of
/// [`squitter_log_take`].
#[unsafe(no_mangle)]
pub extern "C" fn squitter_log_finish(
    log: &mut Slot,
    out: &mut [PlainAnswer],
    done: &mut Done,
) -> Fault
    ensures { IsLogFinished (held_listener log.old) (held_listener log.new) out.old out.new done.old done.new result }
{
    match log.take() {
        Some(mut taken) => {
            let fault = finish_by(&mut taken, &mut Structs, out, done);
            log.put(taken);
            fault
        }
        None => Fault::of(Reason::NoTracker),
    }
}
