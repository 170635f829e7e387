//! Many frames in one call: each element gets the result of the single call.
ghost use Rattle.std.specs.Prelude.{◌≡◌, length, min};
ghost use Rattle.squitter_c.specs.Calls.{IsBelow, Leads, shortest};
ghost use Rattle.squitter_c.specs.Trackers.{IsHeardThere};
ghost use Rattle.squitter_c.specs.Slots.{held_listener};

use crate::faults::Fault;
use crate::heard::PlainHeard;
use crate::slot::Slot;
use crate::tracker_hear::hear_in;

/// Adds frames in order, each with its timestamp, as [`squitter_tracker_hear`] does. After a fault, which `faults`
/// has, the tracker and that element of `out` are unchanged, and the next frame is heard. The shortest of the arrays
/// counts, and is returned; elements beyond it are unchanged.
#[unsafe(no_mangle)]
pub extern "C" fn squitter_tracker_hear_many(
    tracker: &mut Slot,
    moments: &[u64],
    frames: &[[u8; 14]],
    out: &mut [PlainHeard],
    faults: &mut [Fault],
) -> usize
    ensures count { result ≡ min (length moments.now)
        (shortest (length frames.now) (length out.old) (length faults.old)) }
    ensures each { Leads (IsHeardThere moments.now frames.now) (held_listener tracker.old) out.old out.new faults.new
        result (held_listener tracker.new) }
    ensures rest { IsBelow out.old out.new faults.old faults.new result }
{
    let count = moments
        .len()
        .min(frames.len().min(out.len().min(faults.len())));
    let mut held = tracker.take();
    for at in 0..count {
        faults[at] = hear_in(&mut held, moments[at], &frames[at], &mut out[at]);
    }
    tracker.put_back(held);
    count
}
