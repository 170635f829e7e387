//! The laws of worlds, of following and of one address, in numbers. In the air 40621D is heard three times within 9
//! seconds, and 484175 in between. On the ground 484175 is on the other side of 180 degrees from its site. It is
//! heard four times within 12 seconds, and 40621D in between.
ghost use Rattle.sq_track.specs.Worked.{SecondIsFixed, SecondIsFixedAmongOthers, ThirdIsFollowed, TruePlaces};
ghost use Rattle.sq_track.specs.Worked.{SomeWorked, TwoAreSlow, TwoAreTrue};
ghost use Rattle.sq_track.specs.WorkedGround.{FourthIsFixed, SecondIsFixed as FixedOnGround, SecondWantsASite};
ghost use Rattle.sq_track.specs.WorkedGround.{SecondIsFixedAmongOthers as FixedAmongOthersOnGround};
ghost use Rattle.sq_track.specs.WorkedGround.{SomeWorked as SomeOnGround, ThirdIsFollowed as FollowedOnGround};
ghost use Rattle.sq_track.specs.WorkedGround.{TruePlaces as PlacesOnGround, TwoAreSlow as SlowOnGround};
ghost use Rattle.sq_track.specs.WorkedGround.{TwoAreTrue as TrueOnGround};

/// Such arrivals exist.
pub fn some_arrivals()
    ensures { SomeWorked }
{}

/// The points of the three positions, latitude index by longitude index: 1141576 by 51372 of the even grid, 1122734
/// by 50194 and 1122825 by 50310 of the odd one.
pub fn true_places()
    ensures { TruePlaces }
{}

/// The world of the first two is slow for a window of 10 seconds, and all its results are true.
pub fn two_are_true()
    ensures slow { TwoAreSlow }
    ensures heard { TwoAreTrue }
{}

/// The second, 6 seconds after the first, gives the fix of its own point, also if another address was heard in
/// between.
pub fn second_is_fixed()
    ensures alone { SecondIsFixed }
    ensures among_others { SecondIsFixedAmongOthers }
{}

/// The third, 3 seconds after that fix, is followed to its own point.
pub fn third_is_followed()
    ensures { ThirdIsFollowed }
{}

/// Such arrivals on the ground, and the site, exist.
pub fn some_arrivals_on_ground()
    ensures { SomeOnGround }
{}

/// The points of the four positions on the ground, latitude index by longitude index: 4572057 by 9685197 and 4571739
/// by 9685544 of the even grid, 4495647 by 9416381 and 4495595 by 9416445 of the odd one.
pub fn true_places_on_ground()
    ensures { PlacesOnGround }
{}

/// The world of the first two on the ground is slow for a window of 10 seconds, with the site 51.99 179.375 and
/// without one. All its results with the site are true.
pub fn two_are_true_on_ground()
    ensures slow { SlowOnGround }
    ensures heard { TrueOnGround }
{}

/// The second on the ground, 6 seconds after the first, gives the fix of its own point if there is a site. This also
/// holds if another address was heard in between. Without a site the result is `NoSite`.
pub fn second_is_fixed_on_ground()
    ensures alone { FixedOnGround }
    ensures among_others { FixedAmongOthersOnGround }
    ensures no_site { SecondWantsASite }
{}

/// The third on the ground, 3 seconds after that fix, is followed to its own point.
pub fn third_is_followed_on_ground()
    ensures { FollowedOnGround }
{}

/// The fourth on the ground is even. With the site it gives the fix of its own point if only the odd one 6 seconds
/// before was heard.
pub fn fourth_is_fixed_on_ground()
    ensures { FourthIsFixed }
{}
