//! The result for a frame, as plain numbers.
ghost use Rattle.squitter_c.specs.Heard.{HasNoPlace, HasPlace, IsHeardAs, IsPlainHeard};

use crate::plain::{PlainAngle, PlainPosition, plain_position};
use sq_message::Place;
use sq_track::Heard;

/// The result for a frame.
#[repr(C)]
#[derive(Clone, Copy)]
pub struct PlainHeard {
    /// The position, or 0/0 and 0/0 if there is none.
    pub position: PlainPosition,
    /// 1 for a fix, 2 for a followed position, 3 for waiting, 4 for a split, 5 for far, 6 for no site, 7 for no
    /// position.
    pub what: u8,
    /// The zone counts of the even and the odd latitude for a split, otherwise 0.
    pub even: u8,
    pub odd: u8,
}

/// Returns a result as plain numbers: the position in lowest terms, or 0/0 and 0/0 if there is none, and both zone
/// counts for a split.
#[inline(always)]
pub fn plain_heard(heard: &Heard) -> PlainHeard
    ensures { IsPlainHeard heard.now result }
{
    match heard {
        Heard::Fix(place) => at_place(1, place),
        Heard::Followed(place) => at_place(2, place),
        Heard::Waiting => nowhere(3, 0, 0),
        Heard::Split(even, odd) => nowhere(4, *even, *odd),
        Heard::Far => nowhere(5, 0, 0),
        Heard::NoSite => nowhere(6, 0, 0),
        Heard::NotPosition => nowhere(7, 0, 0),
    }
}

// Returns a result with a position.
fn at_place(what: u8, place: &Place) -> PlainHeard
    ensures { IsHeardAs what 0 0 result × HasPlace place.now result }
{
    PlainHeard {
        position: plain_position(&place.position()),
        what,
        even: 0,
        odd: 0,
    }
}

// Returns a result without a position.
fn nowhere(what: u8, even: u8, odd: u8) -> PlainHeard
    ensures { IsHeardAs what even odd result × HasNoPlace result }
{
    PlainHeard {
        position: PlainPosition {
            lat: PlainAngle { num: 0, den: 0 },
            lon: PlainAngle { num: 0, den: 0 },
        },
        what,
        even,
        odd,
    }
}
