//! Hears several squitters in order.
ghost use Rattle.std.specs.Prelude.{◌≡◌, length};
ghost use Rattle.sq_track.specs.ByEntries.{AreHeardByEntries, IsHeardByEntries};
ghost use Rattle.sq_track.specs.History.{History};
ghost use Rattle.sq_track.specs.Held.{StandsFor, settings};
ghost use Rattle.sq_track.specs.Laws.{AreTrueInSlowWorlds};
ghost use Rattle.sq_track.specs.Replies.{AreReplies, IsReply, history_after, history_after_all};

use crate::heard::{Heard, TrackFault};
use crate::tracker::Tracker;
use sq_message::Received;
use std::alloc::Allocator;

/// Hears squitters in order, each with its timestamp (ms). Writes to `heard` the result for each, or why it was
/// refused. `heard` has one slot for each squitter. A refused squitter changes nothing.
pub fn hear_each<A: Allocator>(
    tracker: &mut Tracker<A>,
    received: &[Received],
    heard: &mut [Result<Heard, TrackFault>],
)
    requires { length heard.old ≡ length received.now }

    // In a world that is slow for the tracker's window and site, and slow for following, results are true: each fix
    // and each followed position is the true place, and `Far` does not occur.
    ensures placed { AreTrueInSlowWorlds tracker.old received.now heard.new }

    // For each history that the tracker represents, these are the replies. Afterwards it represents the history after
    // them.
    ensures replies { (h : History) → StandsFor tracker.old h
        → AreReplies (settings tracker.old) h received.now heard.new }
    ensures after { (h : History) → StandsFor tracker.old h
        → StandsFor tracker.new (history_after_all h received.now heard.new) }
    ensures settings { settings tracker.new ≡ settings tracker.old }

    // The replies, and what the tracker holds afterwards, by what it holds now. This needs no history.
    ensures entries { AreHeardByEntries received.now tracker.old tracker.new heard.new }
{
    let mut at = 0;
    while at < received.len() {
        hear_into(tracker, &received[at], &mut heard[at]);
        at += 1;
    }
}

// Hears a squitter, and writes its result to the slot.
fn hear_into<A: Allocator>(
    tracker: &mut Tracker<A>,
    one: &Received,
    slot: &mut Result<Heard, TrackFault>,
)
    ensures reply { (h : History) → StandsFor tracker.old h
        → IsReply (settings tracker.old) h one.now.moment one.now.squitter slot.new }
    ensures after { (h : History) → StandsFor tracker.old h
        → StandsFor tracker.new (history_after h one.now.moment one.now.squitter slot.new) }
    ensures settings { settings tracker.new ≡ settings tracker.old }
    ensures entries { IsHeardByEntries one.now.moment one.now.squitter tracker.old tracker.new slot.new }
{
    *slot = tracker.hear(one.moment, &one.squitter);
}
