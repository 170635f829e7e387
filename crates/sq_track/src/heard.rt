//! The result for a squitter, and the reasons why a tracker refuses one.
ghost use Rattle.std.specs.Prelude.{◌≡◌, ◌≤◌, length};
ghost use Rattle.sq_track.specs.Faults.{track_fault_label};

use sq_message::Place;
use thiserror::Error;

/// The result for an accepted squitter: the first of these that applies.
#[derive(Clone, Copy, Debug, PartialEq, Eq)]
pub enum Heard {
    /// The position, decoded from this squitter and its counterpart. The counterpart is the newest squitter of its
    /// address and kind with the other parity, if that is at most the window older.
    Fix(Place),
    /// The position, decoded near the last fix of its address and kind, if that is at most the window older. It is
    /// tried only instead of `Waiting` or `Split`.
    Followed(Place),
    /// There is no counterpart.
    Waiting,
    /// The zone counts (NL) of the pair's latitudes, even first. They differ, so the pair has no position yet.
    Split(u8, u8),
    /// A latitude of the pair lies outside -90 to 90 degrees.
    Far,
    /// The pair is on the ground, and the tracker has no site.
    NoSite,
    /// The squitter carries no position.
    NotPosition,
}

/// Why a tracker refuses a call: the first of these that applies, with `Memory` last.
#[derive(Clone, Copy, Debug, PartialEq, Eq, Error)]
pub enum TrackFault {
    /// The limit of addresses is 0.
    #[error("{text}", text = self.label())]
    NoLimit,
    /// An allocation failed.
    #[error("{text}", text = self.label())]
    Memory,
    /// The timestamp is before the last accepted one, given here.
    #[error("{label}{0}", label = self.label())]
    MomentBack(u64),
    /// The squitter is a position, and as many other addresses as the limit have one that is at most the window
    /// older.
    #[error("{text}", text = self.label())]
    Full,
}

/// Why a tracker does not restore an address.
#[derive(Clone, Copy, Debug, PartialEq, Eq)]
pub enum RestoreFault {
    /// No tracker can hold the contact after the entries before it.
    Refused,
    /// An allocation failed.
    Memory,
}

impl TrackFault {
    /// Returns the text of the fault up to its number, at most 13 bytes.
    pub fn label(self) -> &'static str
        ensures value { result.now ≡ track_fault_label self }
        ensures short { length result.now ≤ 13 }
    {
        match self {
            TrackFault::NoLimit => "limit is 0",
            TrackFault::Memory => "out of memory",
            TrackFault::MomentBack(_) => "moment back ",
            TrackFault::Full => "table full",
        }
    }
}
