//! Laws of the feeds that C holds: the complete result of each call.
ghost use Rattle.squitter_c.specs.FeedLaws.{AllGiven, AllWritten};

/// A call of a feed with code 0 has fed the bytes that it took. If it left room, these are all bytes of the piece. So
/// the calls of a source meet `FeedsTheWhole`.
pub fn all_given()
    ensures arrays { AllGiven }
    ensures text { AllWritten }
{}
