//! Creating and freeing a tracker.
ghost use Rattle.std.specs.Prelude.{◌≡◌, None};
ghost use Rattle.squitter_c.specs.Sizes.{IsRoomFor};
ghost use Rattle.squitter_c.specs.Trackers.{IsMade, IsMadeAt, IsMadeIn};
ghost use Rattle.squitter_c.specs.Slots.{held_listener};

use crate::faults::{Fault, NONE, Reason};
use crate::listener::{Listener, bytes_for};
use crate::plain::{PlainPosition, position_of};
use crate::slot::Slot;
use crate::tracker_hear::fault_of_tracker;
use sq_angle::Position;
use sq_lent::Room;

/// Returns the size of a tracker in bytes, for a limit of addresses.
#[unsafe(no_mangle)]
pub extern "C" fn squitter_tracker_size(limit: u32) -> usize
    ensures { IsRoomFor limit result }
{
    bytes_for(limit)
}

/// Creates an empty tracker without a site, for up to `limit` addresses. `window` is in the unit of the timestamps,
/// for instance milliseconds. The block belongs to the tracker until the tracker is freed. An existing tracker is
/// freed first.
///
/// The faults are, in this order: `NoLimit` if `limit` is 0; `Memory` if the block is smaller than
/// [`squitter_tracker_size`] of the limit. After a fault there is no tracker.
#[unsafe(no_mangle)]
pub extern "C" fn squitter_tracker_new(
    tracker: &mut Slot,
    block: Room,
    limit: u32,
    window: u64,
) -> Fault
    ensures made { IsMade limit window None (held_listener tracker.new) result }
    ensures room { IsMadeIn limit block.size (held_listener tracker.new) }
{
    make(tracker, block, limit, window, None)
}

/// Creates an empty tracker with a site for surface pairs, otherwise as [`squitter_tracker_new`]. The first fault is
/// `NoPosition` if the site is not a valid position.
#[unsafe(no_mangle)]
pub extern "C" fn squitter_tracker_new_at(
    tracker: &mut Slot,
    block: Room,
    limit: u32,
    window: u64,
    site: &PlainPosition,
) -> Fault
    ensures made { IsMadeAt limit window site.now (held_listener tracker.new) result }
    ensures room { IsMadeIn limit block.size (held_listener tracker.new) }
{
    match position_of(site) {
        Some(site) => make(tracker, block, limit, window, Some(site)),
        None => {
            squitter_tracker_free(tracker);
            Fault::of(Reason::NoPosition)
        }
    }
}

// Creates an empty tracker, in place of an existing one.
fn make(slot: &mut Slot, block: Room, limit: u32, window: u64, site: Option<Position>) -> Fault
    ensures made { IsMade limit window site (held_listener slot.new) result }
    ensures room { IsMadeIn limit block.size (held_listener slot.new) }
{
    squitter_tracker_free(slot);
    match Listener::new(block, limit, window, site) {
        Ok(made) => {
            slot.put(made);
            NONE
        }
        Err(fault) => fault_of_tracker(&fault),
    }
}

/// Frees the tracker. Its block is the caller's again. Safe to call twice, and on a tracker that was never created.
#[unsafe(no_mangle)]
pub extern "C" fn squitter_tracker_free(tracker: &mut Slot)
    ensures { held_listener tracker.new ≡ None }
{
    drop(tracker.take());
}
