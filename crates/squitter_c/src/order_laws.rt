//! Laws of the orders that C holds: the complete result of each call.
ghost use Rattle.squitter_c.specs.OrderLaws.{AllFlushed, AllSorted};

/// If a call of an order returns code 0 and leaves room, it took all squitters and stored those that were due. A
/// flush stored all.
pub fn all_sorted()
    ensures taken { AllSorted }
    ensures flushed { AllFlushed }
{}
