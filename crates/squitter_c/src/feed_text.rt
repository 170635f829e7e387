//! The lines of a source's squitters, pushed in pieces: as many as fit a buffer.
ghost use Rattle.std.specs.Prelude.{◌≡◌, ◌+◌, ◌++◌, ◌≤◌, drop, length, take};
ghost use Rattle.sq_digits.specs.Buffer.{text_len};
ghost use Rattle.sq_feed.specs.Lines.{log_line};
ghost use Rattle.squitter_c.specs.FeedCalls.{HasEndedInText, HasTakenText, IsFeedTextFinished, IsFeedTextTaken};
ghost use Rattle.squitter_c.specs.Slots.{held_feed};

use crate::faults::{Fault, NONE, Reason};
use crate::feed_slot::FeedSlot;
use crate::forms::put_at;
use crate::log_loop::Done;
use sq_feed::{Feed, LINE_LIMIT, TextBuffer, Timed, push_log_line};

// The size of the buffer for several lines.
const LINES: usize = 512;

type Lines = TextBuffer<LINES>;

/// Gives a feed the next bytes of its source, received at `arrival` (ms). Writes its squitters as lines of a log. A
/// line has up to 50 bytes, and is begun only if 50 bytes are free. `done` has the number of bytes taken from the
/// piece, and of bytes written. If 50 bytes are free afterwards, the whole piece was taken, and no line waits.
///
/// The fault is `NoTracker` if there is no feed; nothing is changed then.
#[unsafe(no_mangle)]
pub extern "C" fn squitter_feed_take_text(
    feed: &mut FeedSlot,
    piece: &[u8],
    arrival: u64,
    out: &mut [u8],
    done: &mut Done,
) -> Fault
    ensures { IsFeedTextTaken arrival (held_feed feed.old) (held_feed feed.new) piece.now out.old out.new
        done.old done.new result }
{
    match feed.take() {
        Some(mut taken) => {
            *done = take_by(&mut taken, piece, arrival, out);
            feed.put(taken);
            NONE
        }
        None => Fault::of(Reason::NoTracker),
    }
}

/// Ends the source, and writes the lines of its last squitters, as long as 50 bytes are free. `done` has the number of
/// bytes written. If 50 bytes are free afterwards, these are all, and the next bytes are of another source. Otherwise
/// the others come with further calls, which may have no bytes.
///
/// The fault is `NoTracker` if there is no feed; nothing is changed then.
#[unsafe(no_mangle)]
pub extern "C" fn squitter_feed_finish_text(
    feed: &mut FeedSlot,
    arrival: u64,
    out: &mut [u8],
    done: &mut Done,
) -> Fault
    ensures { IsFeedTextFinished arrival (held_feed feed.old) (held_feed feed.new) out.old out.new done.old done.new
        result }
{
    match feed.take() {
        Some(mut taken) => {
            *done = finish_by(&mut taken, arrival, out);
            feed.put(taken);
            NONE
        }
        None => Fault::of(Reason::NoTracker),
    }
}

// Takes a piece. Several lines are copied together.
fn take_by(feed: &mut Feed, piece: &[u8], arrival: u64, out: &mut [u8]) -> Done
    ensures { HasTakenText arrival feed.old feed.new piece.now out.old out.new result }
{
    let mut slot = Timed::default();
    let mut lines = Lines::new();
    let mut taken = 0;
    let mut at = 0;
    while feed.goes_on(piece.len() - taken) && out.len() - at - lines.len() >= LINE_LIMIT {
        let step = feed.step_into::<1>(&piece[taken..], arrival, &mut slot);
        taken += step.taken;
        if step.is_filled {
            at = put_line(out, at, &mut lines, &slot);
        }
    }
    put_at(out, at, lines.as_bytes());
    let written = at + lines.len();
    Done { taken, written }
}

// Appends the line of a squitter to those in the buffer. If the buffer has no room for the line, the lines in it are
// written first, from index `at` on. Returns the index at which the lines in the buffer belong.
#[inline(always)]
fn put_line(out: &mut [u8], at: usize, lines: &mut Lines, one: &Timed) -> usize
    requires { at + text_len lines.old + 50 ≤ length out.old }
    ensures line { take result out.new ++ lines.new.bytes
        ≡ (take at out.old ++ lines.old.bytes) ++ log_line one.now.moment one.now.frame }
    ensures fits { result + text_len lines.new ≤ length out.new }
    ensures rest { (at ≤ result) × (drop result out.new ≡ drop result out.old) }
    ensures long { length out.new ≡ length out.old }
{
    if lines.len() + LINE_LIMIT <= LINES {
        push_log_line(lines, one.moment, &one.frame);
        return at;
    }
    put_at(out, at, lines.as_bytes());
    let end = at + lines.len();
    lines.clear();
    push_log_line(lines, one.moment, &one.frame);
    end
}

// Ends a source.
fn finish_by(feed: &mut Feed, arrival: u64, out: &mut [u8]) -> Done
    ensures { HasEndedInText arrival feed.old feed.new out.old out.new result }
{
    feed.close();
    let first = take_by(feed, b"", arrival, out);
    if feed.goes_on(0) {
        return first;
    }
    feed.settle();
    let at = first.written;
    let (_, more) = out.split_at_mut(at);
    let second = take_by(feed, b"", arrival, more);
    Done {
        taken: 0,
        written: at + second.written,
    }
}
