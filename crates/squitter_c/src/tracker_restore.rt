//! Restoring a saved tracker.
ghost use Rattle.std.specs.Prelude.{◌≡◌, Option, None, Some};
ghost use Rattle.squitter_c.specs.Restoring.{IsLast, IsRestored, IsRestoring};
ghost use Rattle.squitter_c.specs.Slots.{held_listener};

use crate::entry::{PlainEntry, contact_of};
use crate::faults::{Fault, NONE, Reason};
use crate::slot::Slot;
use crate::tracker_save::PlainLast;
use sq_track::{RestoreFault, Tracker};
use std::alloc::Allocator;

/// Replaces a tracker's entries and last timestamp by those that [`squitter_tracker_save`] wrote. Its limit, window
/// and site are unchanged.
///
/// The faults are, in this order: `NoTracker` if there is no tracker; `Entry` with its index, for the first entry
/// that no tracker with this limit, window and last timestamp can hold after the entries before it; `Memory` if an
/// allocation fails. After `Entry` or `Memory` the tracker is as if it had heard no frame.
#[unsafe(no_mangle)]
pub extern "C" fn squitter_tracker_restore(
    tracker: &mut Slot,
    last: &PlainLast,
    entries: &[PlainEntry],
) -> Fault
    ensures { IsRestored last.now entries.now (held_listener tracker.old) (held_listener tracker.new) result }
{
    match tracker.take() {
        Some(taken) => {
            let mut taken = taken;
            let fault = restore(&mut taken.tracker, moment_of(last), entries);
            tracker.put(taken);
            fault
        }
        None => Fault::of(Reason::NoTracker),
    }
}

fn moment_of(last: &PlainLast) -> Option<u64>
    ensures { IsLast last.now result }
{
    if last.heard == 0 {
        None
    } else {
        Some(last.moment)
    }
}

// Replaces a tracker's entries and last timestamp.
fn restore<A: Allocator>(
    tracker: &mut Tracker<A>,
    last: Option<u64>,
    entries: &[PlainEntry],
) -> Fault
    ensures { IsRestoring tracker.old last entries.now tracker.new result }
{
    tracker.resume(last);
    for at in 0..entries.len() {
        let entry = &entries[at];
        let contact = contact_of(entry);
        match tracker.restore(entry.address, &contact) {
            Ok(()) => {}
            Err(RestoreFault::Refused) => {
                tracker.resume(None);
                return Fault::of(Reason::Entry(at as u64));
            }
            Err(RestoreFault::Memory) => {
                tracker.resume(None);
                return Fault::of(Reason::Memory);
            }
        }
    }
    NONE
}
