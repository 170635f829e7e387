//! The squitters of a source, pushed in pieces, with their timestamps: as many as fit arrays.
ghost use Rattle.std.specs.Prelude.{◌≡◌};
ghost use Rattle.squitter_c.specs.FeedCalls.{HasEndedInFrames, HasTakenFrames, IsFeedFinished, IsFeedTaken};
ghost use Rattle.squitter_c.specs.Slots.{held_feed};

use crate::faults::{Fault, NONE, Reason};
use crate::feed_slot::FeedSlot;
use crate::log_loop::Done;
use sq_feed::{Feed, Timed};

/// Gives a feed the next bytes of its source, received at `arrival` (ms). Stores the timestamps (ms) and the frames of
/// their squitters, as many as fit both arrays. `done` has the number of bytes taken, and of squitters stored. If both
/// arrays have room for one more, the whole piece was taken, and no squitter waits. The arrival of a recorded source is
/// ignored.
///
/// The fault is `NoTracker` if there is no feed; nothing is changed then.
#[unsafe(no_mangle)]
pub extern "C" fn squitter_feed_take(
    feed: &mut FeedSlot,
    piece: &[u8],
    arrival: u64,
    moments: &mut [u64],
    frames: &mut [[u8; 14]],
    done: &mut Done,
) -> Fault
    ensures { IsFeedTaken arrival (held_feed feed.old) (held_feed feed.new) piece.now moments.old moments.new frames.old
        frames.new done.old done.new result }
{
    match feed.take() {
        Some(mut taken) => {
            *done = take_by(&mut taken, piece, arrival, moments, frames);
            feed.put(taken);
            NONE
        }
        None => Fault::of(Reason::NoTracker),
    }
}

/// Ends the source, and stores its last squitters with their timestamps, as many as fit both arrays. Among them are
/// those of rows that waited for others to confirm their times. `done` has the
/// number stored. If both arrays have room for one more, these are all, and the next bytes are of another source.
/// Otherwise the others come with further calls of this.
///
/// The fault is `NoTracker` if there is no feed; nothing is changed then.
#[unsafe(no_mangle)]
pub extern "C" fn squitter_feed_finish(
    feed: &mut FeedSlot,
    arrival: u64,
    moments: &mut [u64],
    frames: &mut [[u8; 14]],
    done: &mut Done,
) -> Fault
    ensures { IsFeedFinished arrival (held_feed feed.old) (held_feed feed.new) moments.old moments.new frames.old
        frames.new done.old done.new result }
{
    match feed.take() {
        Some(mut taken) => {
            *done = finish_by(&mut taken, arrival, moments, frames);
            feed.put(taken);
            NONE
        }
        None => Fault::of(Reason::NoTracker),
    }
}

// Takes a piece.
fn take_by(
    feed: &mut Feed,
    piece: &[u8],
    arrival: u64,
    moments: &mut [u64],
    frames: &mut [[u8; 14]],
) -> Done
    ensures { HasTakenFrames arrival feed.old feed.new piece.now moments.old moments.new frames.old frames.new result }
{
    let room = moments.len().min(frames.len());
    let mut slot = Timed::default();
    let mut taken = 0;
    let mut written = 0;
    while feed.goes_on(piece.len() - taken) && written < room {
        let step = feed.step_into::<0>(&piece[taken..], arrival, &mut slot);
        taken += step.taken;
        if step.is_filled {
            moments[written] = slot.moment;
            frames[written] = slot.frame;
            written += 1;
        }
    }
    Done { taken, written }
}

// Ends a source.
fn finish_by(feed: &mut Feed, arrival: u64, moments: &mut [u64], frames: &mut [[u8; 14]]) -> Done
    ensures { HasEndedInFrames arrival feed.old feed.new moments.old moments.new frames.old frames.new result }
{
    feed.close();
    let first = take_by(feed, b"", arrival, moments, frames);
    if feed.goes_on(0) {
        return first;
    }
    feed.settle();
    let at = first.written;
    let (_, more_moments) = moments.split_at_mut(at);
    let (_, more_frames) = frames.split_at_mut(at);
    let second = take_by(feed, b"", arrival, more_moments, more_frames);
    Done {
        taken: 0,
        written: at + second.written,
    }
}
