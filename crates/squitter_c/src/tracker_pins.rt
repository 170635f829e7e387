//! Guards of the definitions: each has one value, some value or an exact condition, so none can be weakened unnoticed.
//! A function with an empty body does nothing: its contract is the statement.
ghost use Rattle.squitter_c.specs.OneTrackers.{OneHearing, OneMade, OneMadeAt, OneOfMany};
ghost use Rattle.squitter_c.specs.Present.{PresentExactly};
ghost use Rattle.squitter_c.specs.Watch.{OneDoubt};

/// A limit and a window give at most one new tracker, with a site and without, unless memory runs out.
pub fn one_tracker()
    ensures made { OneMade }
    ensures with_site { OneMadeAt }
{}

/// A frame has at most one result, unless memory runs out. Afterwards one history explains both trackers.
pub fn one_hearing()
    ensures { OneHearing }
{}

/// In arrays with one frame, the result is that of the single call.
pub fn one_of_many()
    ensures { OneOfMany }
{}

/// Who is present is counted and told in one way.
pub fn present_exactly()
    ensures { PresentExactly }
{}

/// The doubts about a place are determined by the watch, the site, the place before and the place.
pub fn one_doubt()
    ensures { OneDoubt }
{}
