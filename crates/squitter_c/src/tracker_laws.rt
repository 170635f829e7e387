//! Laws of the trackers that C holds: what hearing preserves, that a saved tracker can be restored, and what each of
//! them replies, also one that no history explains.
ghost use Rattle.squitter_c.specs.Restoring.{RestoredAsSaved};
ghost use Rattle.squitter_c.specs.OneTrackers.{HearingKeeps};
ghost use Rattle.squitter_c.specs.TrackerLaws.{OneHeardByEntry, RestoredHearsAsSaved};

/// Hearing preserves a tracker's settings, and after a fault all of the tracker. Memory runs out only at a position
/// of an address that is not present.
pub fn hearing_keeps()
    ensures { HearingKeeps }
{}

/// A tracker with the same settings restores all that a tracker saved, unless memory runs out.
pub fn restored_as_saved()
    ensures { RestoredAsSaved }
{}

/// What a tracker holds gives one result for each frame and one tracker afterwards, unless memory runs out. This needs
/// no history, so it holds of each restored tracker.
pub fn one_heard_by_entry()
    ensures { OneHeardByEntry }
{}

/// A tracker that is restored from what another one saved gives the same result for each frame, unless memory runs
/// out.
pub fn restored_hears_as_saved()
    ensures { RestoredHearsAsSaved }
{}
