//! The answers of `check` and `track` as texts, one at a time, in each format.
ghost use Rattle.std.specs.Prelude.{◌≡◌, [], Ok, Err};
ghost use Rattle.sq_commands.specs.Formats.{Writers};
ghost use Rattle.sq_commands.specs.Heard.{heard_telling};
ghost use Rattle.sq_commands.specs.Squitters.{squitter_telling};

use crate::answer_lines::{push_heard_line, push_refused_line, push_squitter_line};
use crate::check_rows::{push_refused_frame, push_squitter};
use crate::formats::{Format, check_header, in_form, track_header};
use crate::track_rows::{push_heard_row, push_refused_row};
use sq_log::{Answer, LineText};
use sq_message::{Received, Squitter};
use sq_text::{Form, LineFault};
use sq_track::Heard;

/// A squitter with its timestamp, and the tracker's reply.
#[derive(Clone, Copy)]
pub struct HeardSquitter {
    pub timed: Received,
    pub heard: Heard,
}

/// Returns the text before the first answer of a format.
pub(crate) fn squitter_header(format: Format) -> &'static str
    ensures { result.now ≡ (squitter_telling format).header }
{
    match format {
        Format::Lines => "",
        Format::Rows(form) => check_header(form),
    }
}

/// Writes a good frame into an empty text, in a format.
#[inline(always)]
pub(crate) fn tell_squitter(format: Format, number: u64, squitter: &Squitter, into: &mut LineText)
    requires { into.old.bytes ≡ [] }
    ensures { (writers : Writers)
        → into.new.bytes ≡ (squitter_telling format).text writers number (Ok squitter.now) }
{
    match format {
        Format::Lines => push_squitter_line(into, number, squitter),
        Format::Rows(form) => in_form!(form, push_squitter(into, number, squitter)),
    }
}

/// Writes a fault into an empty text, in a format.
#[inline(always)]
pub(crate) fn refuse_frame(format: Format, number: u64, fault: LineFault, into: &mut LineText)
    requires { into.old.bytes ≡ [] }
    ensures { (writers : Writers) → into.new.bytes ≡ (squitter_telling format).text writers number (Err fault) }
{
    match format {
        Format::Lines => push_refused_line(into, number, fault),
        Format::Rows(form) => in_form!(form, push_refused_frame(into, number, fault)),
    }
}

/// Returns the text before the first answer of a format.
pub fn heard_header(format: Format) -> &'static str
    ensures { result.now ≡ (heard_telling format).header }
{
    match format {
        Format::Lines => "",
        Format::Rows(form) => track_header(form),
    }
}

/// Writes an answer of `track` into an empty text, in a format.
pub fn tell_heard(format: Format, answer: &Answer<HeardSquitter>, into: &mut LineText)
    requires { into.old.bytes ≡ [] }
    ensures { (writers : Writers) → into.new.bytes
        ≡ (heard_telling format).text writers answer.now.number answer.now.verdict }
{
    match &answer.verdict {
        Ok(found) => tell_found(format, answer.number, found, into),
        Err(fault) => refuse_text(format, answer.number, *fault, into),
    }
}

/// Writes the reply to a squitter into an empty text, in a format.
#[inline(always)]
pub(crate) fn tell_found(format: Format, number: u64, found: &HeardSquitter, into: &mut LineText)
    requires { into.old.bytes ≡ [] }
    ensures { (writers : Writers)
        → into.new.bytes ≡ (heard_telling format).text writers number (Ok found.now) }
{
    match format {
        Format::Lines => push_heard_line(into, number, found),
        Format::Rows(form) => in_form!(form, push_heard_row(into, number, found)),
    }
}

/// Writes a fault into an empty text, in a format.
#[inline(always)]
pub(crate) fn refuse_text(format: Format, number: u64, fault: LineFault, into: &mut LineText)
    requires { into.old.bytes ≡ [] }
    ensures { (writers : Writers) → into.new.bytes ≡ (heard_telling format).text writers number (Err fault) }
{
    match format {
        Format::Lines => push_refused_line(into, number, fault),
        Format::Rows(form) => in_form!(form, push_refused_row(into, number, fault)),
    }
}
