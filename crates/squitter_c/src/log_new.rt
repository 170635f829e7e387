//! Creating, counting and freeing a log.
ghost use Rattle.std.specs.Prelude.{◌≡◌, None};
ghost use Rattle.squitter_c.specs.Sizes.{IsRoomFor};
ghost use Rattle.squitter_c.specs.LogCalls.{IsTallied};
ghost use Rattle.squitter_c.specs.Trackers.{IsMade, IsMadeAt, IsMadeIn};
ghost use Rattle.squitter_c.specs.Slots.{held_listener};

use crate::faults::{Fault, NONE, Reason};
use crate::plain::PlainPosition;
use crate::slot::Slot;
use crate::tracker_new::{
    squitter_tracker_free, squitter_tracker_new, squitter_tracker_new_at, squitter_tracker_size,
};
use sq_lent::Room;

/// Numbers of good lines and of refused lines.
#[repr(C)]
#[derive(Clone, Copy)]
pub struct PlainTally {
    pub good: u64,
    pub refused: u64,
}

/// Returns the size of a log in bytes, for a limit of addresses.
#[unsafe(no_mangle)]
pub extern "C" fn squitter_log_size(limit: u32) -> usize
    ensures { IsRoomFor limit result }
{
    squitter_tracker_size(limit)
}

/// Creates an empty log without a site, for up to `limit` addresses and a window in milliseconds. The block belongs
/// to the log until the log is freed. The faults are those of [`squitter_tracker_new`].
#[unsafe(no_mangle)]
pub extern "C" fn squitter_log_new(log: &mut Slot, block: Room, limit: u32, window: u64) -> Fault
    ensures made { IsMade limit window None (held_listener log.new) result }
    ensures room { IsMadeIn limit block.size (held_listener log.new) }
{
    squitter_tracker_new(log, block, limit, window)
}

/// Creates a log with a site for surface pairs. The faults are those of [`squitter_tracker_new_at`].
#[unsafe(no_mangle)]
pub extern "C" fn squitter_log_new_at(
    log: &mut Slot,
    block: Room,
    limit: u32,
    window: u64,
    site: &PlainPosition,
) -> Fault
    ensures made { IsMadeAt limit window site.now (held_listener log.new) result }
    ensures room { IsMadeIn limit block.size (held_listener log.new) }
{
    squitter_tracker_new_at(log, block, limit, window, site)
}

/// Frees the log. Its block is the caller's again. Safe to call twice, and on a log that was never created.
#[unsafe(no_mangle)]
pub extern "C" fn squitter_log_free(log: &mut Slot)
    ensures { held_listener log.new ≡ None }
{
    squitter_tracker_free(log);
}

/// Writes the numbers of good and of refused lines so far. The fault is `NoTracker` if there is no log.
#[unsafe(no_mangle)]
pub extern "C" fn squitter_log_tally(log: &mut Slot, out: &mut PlainTally) -> Fault
    ensures tallied { IsTallied (held_listener log.old) out.old out.new result }
    ensures same { held_listener log.new ≡ held_listener log.old }
{
    match log.take() {
        Some(taken) => {
            let tally = taken.log.tally();
            log.put(taken);
            *out = PlainTally {
                good: tally.good,
                refused: tally.refused,
            };
            NONE
        }
        None => Fault::of(Reason::NoTracker),
    }
}
