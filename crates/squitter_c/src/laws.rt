//! Laws of the texts of faults, and of calls on arrays, over the definitions alone.
ghost use Rattle.squitter_c.specs.Pinned.{OfEach};
ghost use Rattle.squitter_c.specs.Texts.{EachText};

/// The text of a fault is that of its reason.
pub fn each_text()
    ensures { EachText }
{}

/// A call on arrays gives each element the result of the single call.
pub fn of_each()
    ensures { OfEach }
{}
