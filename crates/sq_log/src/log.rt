//! A state machine that takes pieces of a log, and returns the answers to its lines as values.
ghost use Rattle.std.specs.Prelude.{◌≡◌, ◌+◌, ◌++◌, ◌^◌, ◌<◌, ◌≤◌, ◌∷◌, [], List, ℕ, IfOk, OnErr, OnOk, length};
ghost use Rattle.std.specs.Io.KnownBytes.{IsAtEnd};
ghost use Rattle.sq_log.specs.Gets.{HasGiven, HasGivenNothing};
ghost use Rattle.sq_log.specs.Hearings.{IsLineHeard};
ghost use Rattle.sq_log.specs.Lines.{closed};
ghost use Rattle.sq_log.specs.Windows.{IsFeedPlace, next_line};

use crate::job::{Job, Verdict};
use crate::lines::{Line, content_in};
use crate::state::LogState;
use crate::window::Window;
use sq_devices::{Failed, Source};
use sq_text::LineFault;

/// The answer to a line.
#[derive(Drop)]
pub struct Answer<T> {
    /// The line's number, from 1.
    pub number: u64,
    /// The result, or why the line is refused.
    pub verdict: Result<T, LineFault>,
}

/// The result of a step.
#[derive(Drop)]
pub enum Step<T> {
    /// The piece is empty, and each line with a line feed is answered.
    Fed,
    /// The step took this many bytes. No answer is due.
    Passed(usize),
    /// The step took this many bytes. This is the next answer.
    Answered(usize, Answer<T>),
    /// The step took this many bytes. There was no memory to hear the next line; the next step tries again.
    NoMemory(usize),
}

/// The numbers of good and of refused lines. An empty line is neither.
#[derive(Clone, Copy, Debug, PartialEq, Eq)]
pub struct Tally {
    pub good: u64,
    pub refused: u64,
}

/// The result of hearing a line.
#[derive(Drop)]
pub(crate) enum LineHeard<T> {
    Nothing,
    Good(T),
    Refused(LineFault),
    NoMemory,
}

/// A log that is heard piece by piece: its job, how many lines were heard, their tally, and the end of the input.
#[derive(Drop)]
pub struct Log<J> {
    job: J,
    number: u64,
    tally: Tally,
    window: Window,
    ghost counted: { tally.good + tally.refused ≤ number },
}

// Hears the unfinished line in the window, up to the first waiting line feed.
#[inline(always)]
fn hear_line<J: Job>(job: &mut J, window: &Window, place: usize) -> LineHeard<J::Found>
    requires { IsFeedPlace window.now.waiting place }
    ensures heard { IsLineHeard J.how result (next_line window.now) job.old job.new }
    ensures lasting { J.lasting job.new ≡ J.lasting job.old }
{
    match content_in(window.line(place)) {
        Line::Empty => LineHeard::Nothing,
        Line::Long => LineHeard::Refused(LineFault::LongLine),
        Line::Text(text) => match job.hear(text) {
            Verdict::Good(found) => LineHeard::Good(found),
            Verdict::Refused(fault) => LineHeard::Refused(fault),
            Verdict::NoMemory => LineHeard::NoMemory,
        },
    }
}

impl<J: Job> Log<J> {
    ghost use Rattle.sq_log.specs.Logs.{HasHeard, IfAnswered, IsProgress, IsStep, IsUpToDate, IsWithin};
    ghost use Rattle.sq_log.specs.States.{with_job};

    /// Creates a machine that was given nothing.
    pub fn new(job: J) -> Self
        ensures job { result.job ≡ job }
        ensures heard { HasHeard J.how result.job result [] [] [] }
    {
        Log {
            job,
            number: 0,
            tally: Tally {
                good: 0,
                refused: 0,
            },
            window: Window::new(),
        }
    }

    /// Creates the machine that goes on from a state.
    pub fn resume(job: J, state: &LogState) -> Self
        ensures log { result ≡ with_job job state.now }
        ensures short { length result.window.waiting ≤ 64 }
    {
        Log {
            job,
            number: state.number,
            tally: state.tally,
            window: state.window.copy(),
        }
    }

    /// Returns what the machine holds besides its job.
    pub fn state(&self) -> LogState
        ensures { with_job self.now.job result ≡ self.now }
    {
        LogState {
            number: self.number,
            tally: self.tally,
            window: self.window.copy(),
        }
    }

    /// Answers at most one line. If no complete line waits, takes up to 64 bytes of the piece first.
    #[inline(always)]
    pub fn step(&mut self, piece: &[u8]) -> Step<J::Found>
        requires { self.old.number + 1 < 2 ^ 64 }
        ensures stepped { (start : J) (given : List ℕ) (lines : List (List ℕ)) (answers : List (Answer J.Found))
            → HasHeard J.how start self.old given lines answers
            → IsStep J.how start result piece.now self.new given lines answers }
        ensures promised { (start : J) (given : List ℕ) (lines : List (List ℕ)) (answers : List (Answer J.Found))
            → HasHeard J.how start self.old given lines answers
            → IfAnswered result (λ answer. J.Promised start (answers ++ answer ∷ [])) }
        ensures number { self.new.number ≤ self.old.number + 1 }
        ensures within { IsWithin result (length piece.now) }
        ensures progress { IsProgress result self.old self.new }
        ensures lasting { J.lasting self.new.job ≡ J.lasting self.old.job }
    {
        let taken = self.window.take(piece);
        if !self.window.has_feed() {
            if taken == 0 {
                return Step::Fed;
            }
            return Step::Passed(taken);
        }
        let place = self.window.feed_place();
        match hear_line(&mut self.job, &self.window, place) {
            LineHeard::Nothing => {
                self.window.pass(place);
                self.number += 1;
                Step::Passed(taken)
            }
            LineHeard::Good(found) => {
                self.window.pass(place);
                self.number += 1;
                self.tally.good += 1;
                Step::Answered(
                    taken,
                    Answer {
                        number: self.number,
                        verdict: Ok(found),
                    },
                )
            }
            LineHeard::Refused(fault) => {
                self.window.pass(place);
                self.number += 1;
                self.tally.refused += 1;
                Step::Answered(
                    taken,
                    Answer {
                        number: self.number,
                        verdict: Err(fault),
                    },
                )
            }
            LineHeard::NoMemory => Step::NoMemory(taken),
        }
    }

    /// Gets the next bytes from the source, at most 64, and returns how many. All lines before them were answered.
    #[inline(always)]
    pub(crate) fn get_from<S: Source>(&mut self, source: &mut S) -> Result<usize, Failed>
        ensures got { (start : J) (given : List ℕ) (lines : List (List ℕ)) (answers : List (Answer J.Found))
            → HasHeard J.how start self.old given lines answers → IsUpToDate self.old
            → OnOk result (HasHeard J.how start self.new (given ++ self.new.window.waiting) lines
            answers) }
        ensures count { IfOk result (λ count. length self.new.window.waiting ≡ count) }
        ensures short { length self.new.window.waiting ≤ 64 }
        ensures end { IfOk result (λ count. count ≡ 0 → IsAtEnd (S.to_come source.new)) }
        ensures ok { OnOk result (HasGiven S.Source source.old source.new self.new.window.waiting) }
        ensures err { OnErr result (HasGivenNothing S.Source source.old source.new) }
        ensures number { self.new.number ≡ self.old.number }
        ensures job { self.new.job ≡ self.old.job }
    {
        self.window.get_from(source)
    }

    /// Ends the last line, unless it is empty, so that the next step answers it. All lines before it were answered.
    pub fn end(&mut self)
        ensures ended { (start : J) (given : List ℕ) (lines : List (List ℕ)) (answers : List (Answer J.Found))
            → HasHeard J.how start self.old given lines answers → IsUpToDate self.old
            → HasHeard J.how start self.new (closed given) lines answers }
        ensures short { length self.new.window.waiting ≤ 64 }
        ensures number { self.new.number ≡ self.old.number }
        ensures lasting { J.lasting self.new.job ≡ J.lasting self.old.job }
    {
        self.window.close();
    }

    /// Answers the last line, unless it is empty. All lines before it were answered.
    pub fn finish(&mut self) -> Step<J::Found>
        requires { self.old.number + 1 < 2 ^ 64 }
        ensures finished { (start : J) (given : List ℕ) (lines : List (List ℕ)) (answers : List (Answer J.Found))
            → HasHeard J.how start self.old given lines answers → IsUpToDate self.old
            → IsStep J.how start result [] self.new (closed given) lines answers }
        ensures promised { (start : J) (given : List ℕ) (lines : List (List ℕ)) (answers : List (Answer J.Found))
            → HasHeard J.how start self.old given lines answers → IsUpToDate self.old
            → IfAnswered result (λ answer. J.Promised start (answers ++ answer ∷ [])) }
        ensures number { self.new.number ≤ self.old.number + 1 }
        ensures lasting { J.lasting self.new.job ≡ J.lasting self.old.job }
    {
        self.end();
        self.step(b"")
    }

    /// Returns the job.
    pub(crate) fn job(&self) -> &J
        ensures { result.now ≡ self.now.job }
    {
        &self.job
    }

    /// Returns the numbers of good and of refused lines.
    pub fn tally(&self) -> Tally
        ensures { result ≡ self.now.tally }
    {
        self.tally
    }
}
