//! The forms in which the results of a log are written: as structs, or as texts.
ghost use Rattle.std.specs.Prelude.{◌≡◌, ◌+◌, ◌++◌, ◌≤◌, [], ◌∷◌, ℕ, List, drop, length, take};
ghost use Rattle.sq_commands.specs.Heard.{heard_telling};
ghost use Rattle.sq_commands.specs.declared.answers.HeardSquitter.{HeardSquitter as Heard};
ghost use Rattle.sq_log.specs.declared.log.Answer.{Answer as Told};
ghost use Rattle.squitter_c.specs.LogCalls.{AsAnswers, AsTexts, Written};

use crate::log_answer::{PlainAnswer, plain_answer};
use sq_commands::{AnswerFormat, CsvRows, Format, HeardSquitter, Numbered, tell_heard};
use sq_log::{Answer, LineText};
use std::marker::Model;

/// A form of results.
pub(crate) trait Form {
    /// An element of the output.
    type Item: Copy;

    /// The format of the loop over a log. It differs by form, so that each loop has the step inlined.
    type Loop: AnswerFormat + 'static;

    /// How many free elements a result needs.
    const ROOM: usize;

    ghost ROOM: { ℕ };

    /// How results are written.
    ghost As: { Self → Written Self.Item };

    /// Returns the format of the loop over a log.
    fn in_loop() -> &'static Self::Loop;

    /// Writes a result at an index, and returns the index behind it.
    fn put(&mut self, answer: &Answer<HeardSquitter>, out: &mut [Self::Item], at: usize) -> usize
        requires { at + ROOM ≤ length out.old }
        ensures put { (told : List (Told Heard)) → As self.old told (take at out.old)
            → As self.old (told ++ answer.now ∷ []) (take result out.new) }
        ensures rest { (at ≤ result) × (drop result out.new ≡ drop result out.old) }
        ensures fits { (result ≤ length out.new) × (length out.new ≡ length out.old) }
        ensures same { self.new ≡ self.old };
}

/// Results as structs.
#[derive(Clone, Copy)]
pub(crate) struct Structs;

impl Form for Structs {
    type Item = PlainAnswer;

    type Loop = Numbered;

    const ROOM: usize = 1;

    ghost ROOM = { 1 };

    ghost As = { λ s. AsAnswers };

    #[inline(always)]
    fn in_loop() -> &'static Numbered {
        &Numbered
    }

    #[inline(always)]
    fn put(&mut self, answer: &Answer<HeardSquitter>, out: &mut [PlainAnswer], at: usize) -> usize {
        let _ = &self;
        out[at] = plain_answer(answer);
        at + 1
    }
}

/// Results as texts of a format.
#[derive(Drop)]
pub(crate) struct Texts {
    format: Format,
    text: LineText,
}

impl Model for Texts {
    ghost use Rattle.sq_commands.specs.declared.formats.Format.{Format as Chosen};

    ghost Value = { Chosen };

    ghost view = { λ s. s.format };
}

impl Texts {
    /// Returns the form of texts of a format.
    pub(crate) fn of(format: Format) -> Texts
        ensures { result ≡ format }
    {
        Texts {
            format,
            text: LineText::new(),
        }
    }
}

impl Form for Texts {
    type Item = u8;

    type Loop = CsvRows;

    const ROOM: usize = 512;

    ghost ROOM = { 512 };

    ghost As = { λ s. AsTexts (heard_telling s) };

    #[inline(always)]
    fn in_loop() -> &'static CsvRows {
        &CsvRows
    }

    #[inline(always)]
    fn put(&mut self, answer: &Answer<HeardSquitter>, out: &mut [u8], at: usize) -> usize {
        self.text.clear();
        tell_heard(self.format, answer, &mut self.text);
        put_at(out, at, self.text.as_bytes());
        at + self.text.len()
    }
}

// Writes a text at an index.
pub(crate) fn put_at(out: &mut [u8], at: usize, text: &[u8])
    requires { at + length text.now ≤ length out.old }
    ensures front { take (at + length text.now) out.new ≡ take at out.old ++ text.now }
    ensures rest { drop (at + length text.now) out.new ≡ drop (at + length text.now) out.old }
    ensures long { length out.new ≡ length out.old }
{
    out[at..at + text.len()].copy_from_slice(text);
}
