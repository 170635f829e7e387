//! Guards of the definitions: each has one value, some value or an exact condition, so none can be weakened unnoticed.
//! A function with an empty body does nothing: its contract is the statement.
ghost use Rattle.std.specs.Prelude.{◌≡◌, ◌↔◌, IsTrue, false, true};
ghost use Rattle.sq_angle.specs.Fraction.{opposite, whole};
ghost use Rattle.sq_track.specs.ByEntries.{MemoryByEntries, OneByEntries, OneEachByEntries, SomeByEntries};
ghost use Rattle.sq_track.specs.Laws.{OneAddressAlone};
ghost use Rattle.sq_track.specs.Laws.{SlowPairExactly};
ghost use Rattle.sq_track.specs.Laws.{SlowForFollowingPairExactly};
ghost use Rattle.sq_track.specs.Laws.{OneReply, SomeAnswer, SomeReply, OneAnswer, OneAnswerByKept, OneTruePlace};
ghost use Rattle.sq_track.specs.Pinned.{MemoryExactly, OnePositionStands, OneParityIsSlow};
ghost use Rattle.sq_track.specs.Pinned.{HearingKeeps, HearingKeepsNothing, HearingRemembers, OneHearing};
ghost use Rattle.sq_track.specs.Pinned.{OnePlaceAt180, OnePlaceExactly, StandsExactly};
ghost use Rattle.sq_track.specs.Pinned.{PlacesExactly, TamePairExactly};
ghost use Rattle.sq_track.specs.Pinned.{TameForFollowingPairExactly};
ghost use Rattle.sq_track.specs.Watch.{gap, is_longer, parts, round_gap, way_at, whole_miles};

use crate::heard::{Heard, TrackFault};

/// A history gives at most one result for a squitter.
pub fn one_answer()
    ensures { OneAnswer }
{}

/// The stored state of an address, whatever it is, gives at most one result for a squitter.
pub fn one_answer_by_kept()
    ensures { OneAnswerByKept }
{}

/// What a tracker holds, whatever it is, gives one reply to a squitter, or one list of replies to several, and one
/// tracker afterwards. Out of memory is a possible reply exactly at the position of an address without an entry, if the
/// call may be accepted.
pub fn one_reply_by_entries()
    ensures one { OneByEntries }
    ensures each { OneEachByEntries }
    ensures some { SomeByEntries }
    ensures memory { MemoryByEntries }
{}

/// Every history and call has a result, so no statement here is empty.
pub fn some_answer()
    ensures { SomeAnswer }
{}

/// Every history and call has a reply other than out of memory.
pub fn some_reply()
    ensures { SomeReply }
{}

/// There is only one such reply, so the replies to a list of calls are a function of the list.
pub fn one_reply()
    ensures { OneReply }
{}

/// An arrival has at most one true place.
pub fn one_true_place()
    ensures { OneTruePlace }
{}

/// Only the entries of its own address matter for a squitter: they give the same result as the whole history.
pub fn one_address_alone()
    ensures { OneAddressAlone }
{}

/// An even and an odd arrival of one address and kind, at most the window apart, are slow exactly if their positions
/// are.
pub fn slow_pair_exactly()
    ensures { SlowPairExactly }
{}

/// Two arrivals that come together are slow for following exactly if their positions are, each as seen from the
/// other.
pub fn slow_for_following_pair_exactly()
    ensures { SlowForFollowingPairExactly }
{}

/// The exact conditions for slow, tame and near places, for each kind, with a site and without.
pub fn slow_and_tame_places_exactly()
    ensures { PlacesExactly }
{}

/// Two arrivals of one parity are slow wherever they come from: only even and odd arrivals count.
pub fn one_parity_is_slow()
    ensures { OneParityIsSlow }
{}

/// An even and an odd arrival that come together are tame exactly if their true places are.
pub fn tame_pair_exactly()
    ensures { TamePairExactly }
{}

/// Two arrivals that come together are tame for following exactly if their true places are strictly near one another.
pub fn tame_for_following_pair_exactly()
    ensures { TameForFollowingPairExactly }
{}

/// Positions are one place exactly if their latitudes are equal and their longitudes differ by whole turns. An
/// example is half a degree north at 180 degrees, as other fractions and with the other sign. A world stands still
/// exactly if all arrivals of a sender come from one place.
pub fn standing_exactly()
    ensures place { OnePlaceExactly }
    ensures at_180 { OnePlaceAt180 }
    ensures world { StandsExactly }
{}

/// If each sender keeps one position, the world stands still.
pub fn one_position_stands()
    ensures { OnePositionStands }
{}

/// Out of memory is a possible reply exactly if the call may be accepted.
pub fn out_of_memory_exactly()
    ensures { MemoryExactly }
{}

/// A squitter has at most one result, and it is the result by each history that the contact remembers. The contact
/// then holds the squitter under its kind and parity, with its timestamp, and the position of a fix or followed
/// position. All other fields are unchanged. A message without a position changes nothing.
pub fn hearing_exactly()
    ensures one { OneHearing }
    ensures remembers { HearingRemembers }
    ensures keeps { HearingKeeps }
    ensures nothing { HearingKeepsNothing }
{}

/// Compares two results by `==`, which is true exactly if they are the same.
pub fn equal_heard(heard: &Heard, other: &Heard) -> bool
    ensures { IsTrue result ↔ (heard.now ≡ other.now) }
{
    heard == other
}

/// Compares two faults of a tracker by `==`, which is true exactly if they are the same.
pub fn equal_track_faults(fault: &TrackFault, other: &TrackFault) -> bool
    ensures { IsTrue result ↔ (fault.now ≡ other.now) }
{
    fault == other
}

/// A degree of latitude is sixty miles long.
pub fn miles_of_latitude()
    ensures at { is_longer (whole_miles 60) 60 (gap (whole 0) (whole 1)) (parts (whole 0) (whole 1)) ≡ false }
    ensures above { is_longer (whole_miles 59) 60 (gap (whole 0) (whole 1)) (parts (whole 0) (whole 1)) ≡ true }
    ensures south { is_longer (whole_miles 119) 60 (gap (opposite (whole 1)) (whole 1)) 1 ≡ true }
{}

/// Longitudes are compared the shorter way round.
pub fn miles_of_longitude()
    ensures round { round_gap (whole 179) (opposite (whole 179)) ≡ 2 }
    ensures half { round_gap (whole 90) (opposite (whole 90)) ≡ 180 }
{}

/// At 3,600 knots a second is a mile long; one mile more is always allowed.
pub fn miles_of_a_second()
    ensures second { is_longer (way_at 3600 1000) 60 2 60 ≡ false }
    ensures more { is_longer (way_at 3600 999) 60 2 60 ≡ true }
    ensures none { is_longer (way_at 3600 0) 60 1 60 ≡ false }
{}
