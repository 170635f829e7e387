//! The job of a log machine: it answers the texts of lines.
ghost use Rattle.std.specs.Prelude.{◌≡◌, List, ℕ};
ghost use Rattle.sq_log.specs.Answers.{Manner};
ghost use Rattle.sq_log.specs.Hearings.{IsHeard};
ghost use Rattle.sq_log.specs.Logs.{AreAnswers};
ghost use Rattle.sq_log.specs.declared.log.Answer.{Answer};
ghost use Rattle.sq_log.specs.declared.log.Tally.{Tally};

use sq_text::LineFault;

/// The result of hearing a text.
#[derive(Drop)]
pub enum Verdict<T> {
    /// The text is good, with this result.
    Good(T),
    /// The text is refused, for this reason.
    Refused(LineFault),
    /// Memory ran out. The text was not heard.
    NoMemory,
}

/// Hears the texts of a log in order. Each answer follows from the text and from those before it.
pub trait Job {
    /// The result for a good text.
    type Found: Copy;

    /// The texts before, as far as answers depend on them.
    ghost Past: { Type 0 };

    /// A value that no text changes.
    ghost Lasting: { Type 0 };

    /// The pasts that the job represents; the answer to a text after a past, and the past after it; and the texts that
    /// may need memory.
    ghost how: { Manner Self Past Self.Found };

    ghost lasting: { Self → Lasting };

    /// A property of all answers so far, given the job before the first line.
    ghost Promised: { Self → List (Answer Self.Found) → Type 0 };

    /// Hears a text of at most 64 bytes without a line feed. At `NoMemory` the job is unchanged.
    fn hear(&mut self, text: &[u8]) -> Verdict<Self::Found>
        ensures heard { IsHeard how result text.now self.old self.new }
        ensures lasting { lasting self.new ≡ lasting self.old };

    /// Answers of this manner have the promised property.
    ghost promises: { (start now : Self) (tally : Tally) (lines : List (List ℕ)) (answers : List (Answer Self.Found))
        → AreAnswers how start now tally lines answers → Promised start answers };
}
