//! Who is present, the last heard first.
ghost use Rattle.std.specs.Prelude.{◌≡◌, ◌≤◌, ◌-◌, IfSome, drop, length, min};
ghost use Rattle.sq_track.specs.Held.{heard_since};
ghost use Rattle.squitter_c.specs.Present.{IsPresent};
ghost use Rattle.squitter_c.specs.Restoring.{AreTold};
ghost use Rattle.squitter_c.specs.Slots.{held_listener};
ghost use Rattle.squitter_c.specs.Trackers.{present_in};

use crate::entry::{PlainEntry, plain_entry};
use crate::slot::Slot;
use sq_track::Tracker;
use std::alloc::Allocator;

/// Returns the number of present addresses, at most the limit; 0 if there is no tracker.
#[unsafe(no_mangle)]
pub extern "C" fn squitter_tracker_len(tracker: &mut Slot) -> usize
    ensures len { result ≡ length (present_in (held_listener tracker.old)) }
    ensures limit { IfSome (held_listener tracker.old) (λ kept. result ≤ kept.tracker.limit) }
    ensures same { held_listener tracker.new ≡ held_listener tracker.old }
{
    match tracker.take() {
        Some(taken) => {
            let count = taken.tracker.len();
            tracker.put(taken);
            count
        }
        None => 0,
    }
}

/// Writes the state of each address that was heard at or after `since` (ms), the last heard first, from the index
/// `from` on, as many as fit. Returns how many were written: 0 if there is no tracker.
#[unsafe(no_mangle)]
pub extern "C" fn squitter_tracker_present(
    tracker: &mut Slot,
    since: u64,
    from: usize,
    entries: &mut [PlainEntry],
) -> usize
    ensures present { IsPresent (held_listener tracker.old) since from entries.old entries.new result }
    ensures same { held_listener tracker.new ≡ held_listener tracker.old }
{
    match tracker.take() {
        Some(taken) => {
            let count = write_present(&taken.tracker, since, from, entries);
            tracker.put(taken);
            count
        }
        None => 0,
    }
}

/// Does what [`squitter_tracker_present`] does, for the tracker of a log.
#[unsafe(no_mangle)]
pub extern "C" fn squitter_log_present(
    log: &mut Slot,
    since: u64,
    from: usize,
    entries: &mut [PlainEntry],
) -> usize
    ensures present { IsPresent (held_listener log.old) since from entries.old entries.new result }
    ensures same { held_listener log.new ≡ held_listener log.old }
{
    squitter_tracker_present(log, since, from, entries)
}

// Writes the entries from an index on, as many as fit.
fn write_present<A: Allocator>(
    tracker: &Tracker<A>,
    since: u64,
    from: usize,
    entries: &mut [PlainEntry],
) -> usize
    ensures count { result ≡ min (length (heard_since since tracker.now) - from) (length entries.old) }
    ensures told { AreTold (drop from (heard_since since tracker.now)) entries.old entries.new }
{
    // The contract of `len` says that all addresses have an index.
    let _len = tracker.len();
    let mut next = tracker.present(since, from);
    for at in 0..entries.len() {
        let Some((address, contact)) = next else {
            return at;
        };
        entries[at] = plain_entry(address, &contact);
        next = tracker.present_behind(since, from + at, address);
    }
    entries.len()
}
