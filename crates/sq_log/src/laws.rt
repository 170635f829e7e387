//! Laws over the definitions.
//!
//! A function with an empty body does nothing: its contract is the law. The others make the call or the test that the
//! law is about.
ghost use Rattle.std.specs.Prelude.{◌↔◌, ◌∷◌, [], List};
ghost use Rattle.std.specs.Prelude.{take};
ghost use Rattle.sq_log.specs.declared.log.Step.TheVariants as steps;
ghost use Rattle.sq_log.specs.Rests.{HeldLine};
ghost use Rattle.sq_log.specs.Pieces.{AreTakes, GivesTheLines, IsTake, Step};

/// However an input is split into pieces, a cutter completes its lines in order. The last line counts unless it is
/// empty. The cutter holds the first 64 bytes of a long line.
pub fn lines_in_pieces()
    ensures { GivesTheLines }
{}

/// An empty list of takes starts from any state. A longer list is a take, and then takes from the state after it.
pub fn takes_in_turn()
    ensures none { (before : HeldLine) → AreTakes before [] }
    ensures more { (before : HeldLine) (step : Step) (steps : List Step) → AreTakes before (step ∷ steps)
        ↔ (IsTake before step.piece step.after × AreTakes step.after steps) }
{}
