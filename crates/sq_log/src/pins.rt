//! Guards of the definitions: each has one value, some value or an exact condition, so none can be weakened unnoticed.
//! A function with an empty body does nothing: its contract is the statement.
ghost use Rattle.std.specs.Prelude.{◌≡◌, ◌↔◌, ◌⊎◌, ◌++◌, ◌+◌, ◌-◌, ◌*◌, ◌<◌, ◌≤◌, ◌∷◌, [], List, ℕ, IsTrue, Ok, Err};
ghost use Rattle.std.specs.Prelude.{None, Result, Some, length, take, true};
ghost use Rattle.std.specs.Io.KnownBytes.{IsAtEnd};
ghost use Rattle.sq_devices.specs.Changes.{Sent, TookAll, TookPart, TookSome, Wrote, taken_from, written_on};
ghost use Rattle.sq_devices.specs.Device.{AppendsOrHides, IsPrefixOf};
ghost use Rattle.sq_text.specs.declared.faults.LineFault.{LineFault as Fault};
ghost use Rattle.sq_log.specs.declared.job.Verdict.TheVariants.{Good, NoMemory, Refused};
ghost use Rattle.sq_log.specs.declared.log.Answer.{Answer};
ghost use Rattle.sq_log.specs.declared.log.Log.{Log};
ghost use Rattle.sq_log.specs.declared.log.Step.TheVariants.{Answered, Fed, Passed};
ghost use Rattle.sq_log.specs.declared.log.Step.TheVariants as steps;
ghost use Rattle.sq_log.specs.declared.log.Tally.{Tally as Counts};
ghost use Rattle.sq_log.specs.Answers.{WantsAt, answers_to, past_after, tally_of, texts_of};
ghost use Rattle.sq_log.specs.Content.{Answer as LineAnswer, Empty, Long, Text, content};
ghost use Rattle.sq_log.specs.Hearings.{IsHeard};
ghost use Rattle.sq_log.specs.Rests.{IsHeldAs, KeepsRest, count_through, has_feed};
ghost use Rattle.sq_log.specs.Lines.{Cuts, HasNoFeed, closed, ended_lines, lines_of};
ghost use Rattle.sq_log.specs.Logs.{AreAnswers, HasHeard, IfAnswered, IsProgress, IsStep, IsWithin};
ghost use Rattle.sq_log.specs.Logs.{told_from};
ghost use Rattle.sq_log.specs.Pieces.{IsTake};
ghost use Rattle.sq_log.specs.Runs.{AreAnswered, HasTold, IsClosedBy, IsRun, OfLines, WroteAnswers, told_in};
ghost use Rattle.sq_log.specs.declared.run.RunFault.{RunFault as Stop};
ghost use Rattle.sq_log.specs.declared.run.RunFault.TheVariants.{Memory, Read, Write};

use crate::cutter::Cutter;
use crate::job::Job;
use crate::log::Tally;
use crate::run::RunFault;
use crate::telling::Telling;
use sq_devices::{Sink, Source};

/// Takes a piece once, as in the law on pieces. Returns how many bytes it took, and whether a line is complete.
pub fn one_take(cutter: &mut Cutter, piece: &[u8]) -> (usize, bool)
    ensures taken { IsTake cutter.old piece.now cutter.new }
    ensures count { result.0 ≡ count_through piece.now }
    ensures complete { result.1 ≡ has_feed piece.now }
{
    cutter.take(piece)
}

/// A line may need memory exactly if its text may.
pub fn wants_exactly<J: Job>()
    ensures text { (job : J) (line text : List ℕ) → content line ≡ Text text
        → WantsAt J.how job line ↔ J.how.wants job text }
    ensures long { (job : J) (line : List ℕ) → content line ≡ Long → ¬ WantsAt J.how job line }
    ensures empty { (job : J) (line : List ℕ) → content line ≡ Empty → ¬ WantsAt J.how job line }
{}

/// Hearing a text: for each past that the job represented, the verdict is the answer after that past, and the job now
/// represents the past after the text. Without memory the job is unchanged.
pub fn heard_exactly<J: Job>()
    ensures good { (found : J.Found) (text : List ℕ) (old new : J) → IsHeard J.how (Good found) text old new
        ↔ ((past : J.Past) → J.how.stands_for old past
        → (J.how.way.answer past text ≡ Ok found) × J.how.stands_for new (J.how.way.after past text)) }
    ensures refused { (fault : Fault) (text : List ℕ) (old new : J) → IsHeard J.how (Refused fault) text old new
        ↔ ((past : J.Past) → J.how.stands_for old past
        → (J.how.way.answer past text ≡ Err fault) × J.how.stands_for new (J.how.way.after past text)) }
    ensures without_memory { (text : List ℕ) (old new : J)
        → IsHeard J.how NoMemory text old new ↔ ((new ≡ old) × J.how.wants old text) }
{}

/// The answers of a machine: for each past that the job represented, these are the answers to the lines and their
/// tally, and the job now represents the past after the lines. Each answer has its line's number, from 1. An empty line
/// has a number and no answer.
pub fn answers_exactly<J: Job>()
    ensures told { (start now : J) (tally : Counts) (lines : List (List ℕ)) (answers : List (Answer J.Found))
        → AreAnswers J.how start now tally lines answers
        ↔ ((past : J.Past) → J.how.stands_for start past → J.how.stands_for now (past_after J.how.way past lines)
        × (answers ≡ told_from 1 (answers_to J.how.way past lines))
        × (tally ≡ tally_of (answers_to J.how.way past lines))) }
    ensures numbered { (first last : Result J.Found Fault) → told_from 1 (Some first ∷ None ∷ Some last ∷ [])
        ≡ record { number = 1; verdict = first } ∷ record { number = 3; verdict = last } ∷ [] }
{}

/// A machine has heard and answered the first lines of what it was given. It numbers them from 1, and holds the bytes
/// behind them.
pub fn machine_exactly<J: Job>()
    ensures heard { (start : J) (log : Log J) (given : List ℕ) (lines : List (List ℕ))
        (answers : List (Answer J.Found)) → HasHeard J.how start log given lines answers
        ↔ (KeepsRest log.window.line log.window.waiting given lines × (log.number ≡ length lines)
        × AreAnswers J.how start log.job log.tally lines answers) }
    ensures kept { (line waiting given : List ℕ) (lines : List (List ℕ)) → KeepsRest line waiting given lines
        ↔ ((read : List ℕ) × (rest : List ℕ) × (given ≡ read ++ waiting) × Cuts read lines rest
        × IsHeldAs line rest) }
{}

/// A step: at `Fed` the machine has heard all lines that line feeds end. Otherwise the step took some bytes, and
/// returned the next answer or none. Without memory for the next line, the machine did not hear it.
pub fn steps_exactly<J: Job>()
    ensures fed { (start : J) (piece given : List ℕ) (new : Log J) (lines : List (List ℕ))
        (answers : List (Answer J.Found)) → IsStep J.how start Fed piece new given lines answers
        ↔ ((piece ≡ []) × HasHeard J.how start new given lines answers × HasNoFeed new.window.waiting
        × (lines ≡ ended_lines given)) }
    ensures passed { (taken : ℕ) (start : J) (piece given : List ℕ) (new : Log J) (lines : List (List ℕ))
        (answers : List (Answer J.Found)) → IsStep J.how start (Passed taken) piece new given lines answers
        ↔ ((more : List (List ℕ)) × HasHeard J.how start new (given ++ take taken piece) (lines ++ more) answers) }
    ensures answered { (taken : ℕ) (answer : Answer J.Found) (start : J) (piece given : List ℕ) (new : Log J)
        (lines : List (List ℕ)) (answers : List (Answer J.Found))
        → IsStep J.how start (Answered taken answer) piece new given lines answers
        ↔ ((line : List ℕ) × HasHeard J.how start new (given ++ take taken piece) (lines ++ line ∷ [])
        (answers ++ answer ∷ [])) }
    ensures without_memory { (taken : ℕ) (start : J) (piece given : List ℕ) (new : Log J) (lines : List (List ℕ))
        (answers : List (Answer J.Found)) → IsStep J.how start (steps.NoMemory taken) piece new given lines answers
        ↔ (HasHeard J.how start new (given ++ take taken piece) lines answers
        × ((next : List ℕ) × IsPrefixOf (lines ++ next ∷ []) (ended_lines (given ++ take taken piece))
        × WantsAt J.how new.job next)) }
{}

/// A property holds of the answer of a step that returned one exactly if it holds of that answer.
pub fn answered_exactly<J: Job>()
    ensures answered { (taken : ℕ) (answer : Answer J.Found) (start : J) (before : List (Answer J.Found))
        → IfAnswered (Answered taken answer) (λ told. J.Promised start (before ++ told ∷ []))
        ↔ J.Promised start (before ++ answer ∷ []) }
{}

/// The progress of a step: the bytes taken are a part of the piece. The waiting bytes are fewer than before plus twice
/// the bytes taken.
pub fn progress_exactly<J: Job>()
    ensures passed { (taken there : ℕ) (old new : Log J)
        → (IsWithin {Found = J.Found} (Passed taken) there ↔ (taken ≤ there))
        × (IsProgress {Found = J.Found} (Passed taken) old new
        ↔ (length new.window.waiting < length old.window.waiting + 2 * taken)) }
    ensures answered { (taken there : ℕ) (answer : Answer J.Found) (old new : Log J)
        → (IsWithin (Answered taken answer) there ↔ (taken ≤ there))
        × (IsProgress (Answered taken answer) old new
        ↔ (length new.window.waiting < length old.window.waiting + 2 * taken)) }
    ensures without_memory { (taken there : ℕ)
        → IsWithin {Found = J.Found} (steps.NoMemory taken) there ↔ (taken ≤ there) }
{}

/// A line feed ends the last line of an input, unless that is empty: `A` is 65, a line feed 10.
pub fn closed_in_numbers()
    ensures nothing { closed [] ≡ [] }
    ensures ended { closed (65 ∷ 10 ∷ []) ≡ 65 ∷ 10 ∷ [] }
    ensures unended { closed (10 ∷ 65 ∷ []) ≡ 10 ∷ 65 ∷ 10 ∷ [] }
{}

/// Lines were told: for each past that the job represented, it now represents the past after these lines. The text of
/// their answers follows the header.
pub fn told_exactly<J: Telling>()
    ensures told { (start now : J) (told : List ℕ) (lines : List (List ℕ))
        → HasTold J.how start now (λ writing answers. told_in J.front J.text writing answers ≡ told) lines
        ↔ ((past : J.Past) (writing : J.Writing) → J.how.stands_for start past
        → J.how.stands_for now (past_after J.how.way past lines)
        × (J.front ++ texts_of (J.text writing) (answers_to J.how.way past lines) ≡ told)) }
{}

/// The lines that a run answered. At the end of the input: all. After a failed get: those that were read whole. After a
/// failed put: the first of those that were read. Without memory: those before a line that may need some.
pub fn answered_lines_exactly<S: Source>()
    ensures whole { (tally : Counts) (from to : S) (wanted : List ℕ) (lines : List (List ℕ))
        → AreAnswered (λ line. line ≡ wanted) (Ok tally) (taken_from S.Source from to) lines
        ↔ TookAll (taken_from S.Source from to) (λ read. lines ≡ lines_of read) }
    ensures unread { (from to : S) (wanted : List ℕ) (lines : List (List ℕ))
        → AreAnswered (λ line. line ≡ wanted) (Err Read) (taken_from S.Source from to) lines
        ↔ TookPart (taken_from S.Source from to) (λ read. lines ≡ ended_lines read) }
    ensures unwritten { (from to : S) (wanted : List ℕ) (lines : List (List ℕ))
        → AreAnswered (λ line. line ≡ wanted) (Err Write) (taken_from S.Source from to) lines
        ↔ TookSome (taken_from S.Source from to) (λ read. IsPrefixOf lines (ended_lines read)
        ⊎ (IsAtEnd (S.to_come to) × IsPrefixOf lines (lines_of read))) }
    ensures unheard { (from to : S) (wanted : List ℕ) (lines : List (List ℕ))
        → AreAnswered (λ line. line ≡ wanted) (Err Memory) (taken_from S.Source from to) lines
        ↔ TookSome (taken_from S.Source from to)
        (λ read. ((next : List ℕ) × IsPrefixOf (lines ++ next ∷ []) (ended_lines read) × (next ≡ wanted))
        ⊎ (IsAtEnd (S.to_come to)
        × ((next : List ℕ) × IsPrefixOf (lines ++ next ∷ []) (lines_of read) × (next ≡ wanted)))) }
{}

/// A run finished its sink once if it came to the end of the input, and else never. At a write fault the sink failed.
pub fn closed_by_exactly<K: Sink>()
    ensures whole { (tally : Counts) (old new : K)
        → IsClosedBy (Ok tally) (written_on K.Sink old new) ↔ (K.finishes new ≡ K.finishes old + 1) }
    ensures unread { (old new : K)
        → IsClosedBy (Err Read) (written_on K.Sink old new) ↔ (K.finishes new ≡ K.finishes old) }
    ensures unwritten { (old new : K) → IsClosedBy (Err Write) (written_on K.Sink old new)
        ↔ ((K.has_failed new ≡ true) × (K.finishes new ≡ K.finishes old)) }
    ensures unheard { (old new : K)
        → IsClosedBy (Err Memory) (written_on K.Sink old new) ↔ (K.finishes new ≡ K.finishes old) }
{}

/// What a run wrote of the text of its answers: all of it, and at the end of the input the tally counts them. At a
/// write fault: a prefix that ends within the last answer's text, or within the header if there is no answer.
pub fn wrote_exactly<K: Sink, J: Telling>()
    ensures whole { (tally : Counts) (old new : K) (writing : J.Writing) (answers : List (LineAnswer J.Found))
        → WroteAnswers (Ok tally) (written_on K.Sink old new) (told_in J.front J.text writing) answers
        ↔ (Sent (written_on K.Sink old new) (told_in J.front J.text writing answers)
        × (tally ≡ tally_of answers)) }
    ensures unread { (old new : K) (writing : J.Writing) (answers : List (LineAnswer J.Found))
        → WroteAnswers (Err Read) (written_on K.Sink old new) (told_in J.front J.text writing) answers
        ↔ Wrote (written_on K.Sink old new) (told_in J.front J.text writing answers) }
    ensures unwritten { (old new : K) (writing : J.Writing) (answers : List (LineAnswer J.Found))
        → WroteAnswers (Err Write) (written_on K.Sink old new) (told_in J.front J.text writing) answers
        ↔ ((part : List ℕ) × (1 ≤ length answers
        → IsPrefixOf (told_in J.front J.text writing (take (length answers - 1) answers)) part)
        × IsPrefixOf part (told_in J.front J.text writing answers)
        × AppendsOrHides (K.written old) (K.written new) part) }
    ensures unheard { (old new : K) (writing : J.Writing) (answers : List (LineAnswer J.Found))
        → WroteAnswers (Err Memory) (written_on K.Sink old new) (told_in J.front J.text writing) answers
        ↔ Wrote (written_on K.Sink old new) (told_in J.front J.text writing answers) }
{}

/// A run answered some lines: these are those that it says, and the sink was closed.
pub fn ran_exactly<S: Source, K: Sink, J: Telling>()
    ensures { (start now : J) (result : Result Counts Stop) (from to : S) (old new : K)
        → IsRun J.front J.text J.how start now result (taken_from S.Source from to) (written_on K.Sink old new)
        ↔ (IsClosedBy result (written_on K.Sink old new) × ((lines : List (List ℕ))
        × AreAnswered (WantsAt J.how now) result (taken_from S.Source from to) lines
        × HasTold J.how start now
        (λ writing. WroteAnswers result (written_on K.Sink old new) (told_in J.front J.text writing)) lines)) }
{}

/// The lines of what was read are those that a line feed ends. At the end of the input the last part is a line too.
pub fn lines_exactly<S: Source>()
    ensures { (old new : S) (lines : List (List ℕ)) (read : List ℕ)
        → OfLines (taken_from S.Source old new) (λ those. those ≡ lines) read
        ↔ ((ended_lines read ≡ lines) ⊎ (IsAtEnd (S.to_come new) × (lines_of read ≡ lines))) }
{}

/// The content of some lines, by their bytes: `A` is 65, a carriage return is 13. One carriage return at the end is
/// dropped. A line of more than 64 bytes is long.
pub fn content_in_numbers()
    ensures empty { content [] ≡ Empty }
    ensures returned { content (13 ∷ []) ≡ Empty }
    ensures text { content (65 ∷ []) ≡ Text (65 ∷ []) }
    ensures one_off { content (65 ∷ 13 ∷ []) ≡ Text (65 ∷ []) }
    ensures one_left { content (65 ∷ 13 ∷ 13 ∷ []) ≡ Text (65 ∷ 13 ∷ []) }
    ensures within { content (13 ∷ 65 ∷ []) ≡ Text (13 ∷ 65 ∷ []) }
    ensures long { (line : List ℕ) → 64 < length line → content line ≡ Long }
{}

/// Compares two tallies by `==`, which is true exactly if they are the same.
pub fn equal_tallies(tally: &Tally, other: &Tally) -> bool
    ensures { IsTrue result ↔ (tally.now ≡ other.now) }
{
    tally == other
}

/// Compares two faults of runs by `==`, which is true exactly if they are the same.
pub fn equal_run_faults(run_fault: &RunFault, other: &RunFault) -> bool
    ensures { IsTrue result ↔ (run_fault.now ≡ other.now) }
{
    run_fault == other
}
