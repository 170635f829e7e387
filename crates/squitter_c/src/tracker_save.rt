//! Saving a tracker.
ghost use Rattle.std.specs.Prelude.{◌≡◌, length};
ghost use Rattle.squitter_c.specs.Restoring.{AreTold, IsLast, IsSaved};
ghost use Rattle.squitter_c.specs.Trackers.{present_in};
ghost use Rattle.squitter_c.specs.Slots.{held_listener};

use crate::entry::{PlainEntry, plain_entry};
use crate::slot::Slot;
use sq_track::Tracker;
use sq_track::laws::can_be_restored;
use std::alloc::Allocator;

/// The timestamp of the last accepted frame. There is none if `heard` is 0.
#[repr(C)]
#[derive(Clone, Copy)]
pub struct PlainLast {
    pub moment: u64,
    pub heard: u64,
}

/// Writes a tracker's last accepted timestamp, and as many of its entries as fit, the longest silent first. Returns
/// the number of present addresses. Without a tracker it returns 0 and writes nothing.
#[unsafe(no_mangle)]
pub extern "C" fn squitter_tracker_save(
    tracker: &mut Slot,
    last: &mut PlainLast,
    entries: &mut [PlainEntry],
) -> usize
    ensures count { result ≡ length (present_in (held_listener tracker.old)) }
    ensures saved { IsSaved (held_listener tracker.old) last.old last.new entries.old entries.new }
    ensures same { held_listener tracker.new ≡ held_listener tracker.old }
{
    match tracker.take() {
        Some(taken) => {
            can_be_restored(&taken.tracker);
            *last = last_of(taken.tracker.last());
            write_entries(&taken.tracker, entries);
            let count = taken.tracker.len();
            tracker.put(taken);
            count
        }
        None => 0,
    }
}

fn last_of(last: Option<u64>) -> PlainLast
    ensures { IsLast result last }
{
    match last {
        Some(moment) => PlainLast { moment, heard: 1 },
        None => PlainLast {
            moment: 0,
            heard: 0,
        },
    }
}

// Writes as many entries as fit.
fn write_entries<A: Allocator>(tracker: &Tracker<A>, entries: &mut [PlainEntry])
    ensures { AreTold tracker.now.contacts entries.old entries.new }
{
    let mut next = tracker.entry(0);
    for at in 0..entries.len() {
        let Some((address, contact)) = next else {
            return;
        };
        entries[at] = plain_entry(address, &contact);
        next = tracker.entry_behind(at, address);
    }
}
