//! A tracker in memory that a caller lends, and the log that it may hear.
ghost use Rattle.std.specs.Prelude.{◌≡◌, ◌≤◌, ◌<◌, ◌*◌, ◌^◌, ◌↔◌, ◌⊎◌, ℕ, Err, IfErr, IfOk, []};
ghost use Rattle.sq_log.specs.States.{HasHeardNothing};
ghost use Rattle.squitter_c.specs.Sizes.{AreGroupsFor, IsRoomFor};
ghost use Rattle.sq_track.specs.Held.{StandsFor, made_with, settings};

use sq_angle::Position;
use sq_lent::{Lent, Room};
use sq_log::LogState;
use sq_track::{TrackFault, Tracker};

// The bytes of a listener itself, and of the allocator in front of its tracker's memory.
const HOME: usize = 1024;

const FRONT: usize = 256;

// The addresses that a group of the tracker's table has room for, and the bytes of a group with their entries.
const GROUP_ADDRESSES: usize = 9;

const GROUP_BYTES: usize = 2848;

// The bytes of an address's links.
const LINK_BYTES: usize = 8;

/// A tracker, and the state of a log machine over it.
#[derive(Drop)]
pub struct Listener {
    pub tracker: Tracker<&'static Lent>,
    pub log: LogState,
}

// Returns the number of groups of a table with room for twice as many addresses.
fn groups_for(addresses: usize) -> usize
    requires { addresses ≤ 2 ^ 32 }
    ensures { AreGroupsFor addresses result }
{
    let mut groups = 1;
    while GROUP_ADDRESSES * groups < 2 * addresses {
        groups *= 2;
    }
    groups
}

/// Returns the size of a listener in bytes, for a limit of addresses. Its table has room for twice as many, because
/// removed addresses use up slots until the table is rehashed.
pub fn bytes_for(limit: u32) -> usize
    ensures { IsRoomFor limit result }
{
    let addresses = limit as usize + 1;
    HOME + FRONT + groups_for(addresses) * GROUP_BYTES + addresses * LINK_BYTES
}

impl Listener {
    /// Returns an empty listener in a box over the same memory, for up to `limit` addresses and a window in
    /// milliseconds.
    ///
    /// The faults are, in this order: `NoLimit` if `limit` is 0; `Memory` if the room has fewer bytes than
    /// [`bytes_for`] returns for the limit.
    pub fn new(
        room: Room,
        limit: u32,
        window_ms: u64,
        site: Option<Position>,
    ) -> Result<Box<Listener, Lent>, TrackFault>
        ensures empty { IfOk result (λ b. StandsFor b.value.tracker []) }
        ensures settings { IfOk result (λ b. settings b.value.tracker ≡ made_with limit window_ms site) }
        ensures log { IfOk result (λ b. HasHeardNothing b.value.log) }
        ensures room { IfOk result (λ b. (bytes : ℕ) × IsRoomFor limit bytes × (bytes ≤ room.size)) }
        ensures no_limit { (result ≡ Err TrackFault.NoLimit) ↔ (limit ≡ 0) }
        ensures only { IfErr result (λ fault. (fault ≡ TrackFault.NoLimit) ⊎ (fault ≡ TrackFault.Memory)) }
    {
        if limit == 0 {
            return Err(TrackFault::NoLimit);
        }
        if room.len() < bytes_for(limit) {
            return Err(TrackFault::Memory);
        }
        let Ok((home, rest)) = room.take(HOME) else {
            return Err(TrackFault::Memory);
        };
        let Some(lent) = Lent::settle(rest) else {
            return Err(TrackFault::Memory);
        };
        let tracker = Tracker::with_room(lent, limit, window_ms, site)?;
        let listener = Listener {
            tracker,
            log: LogState::new(),
        };
        match Box::new(Lent::over(HOME, home), listener) {
            Ok(made) => Ok(made),
            Err(_) => Err(TrackFault::Memory),
        }
    }
}
