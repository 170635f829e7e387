//! The content of a line.
ghost use Rattle.std.specs.Prelude.{◌≡◌, List, ℕ};
ghost use Rattle.sq_log.specs.Rests.{Holds};
ghost use Rattle.sq_log.specs.Content.{content_by, content, text_or_empty};

use crate::cutter::Cutter;

/// The maximum length of a line, in bytes.
pub(crate) const LINE_LIMIT: usize = 64;

/// The content of a line, without one carriage return at its end.
#[derive(Clone, Copy, Debug)]
pub enum Line<'a> {
    /// More than 64 bytes, the carriage return included.
    Long,
    /// No text.
    Empty,
    /// A text of at most 64 bytes.
    Text(&'a [u8]),
}

/// Returns the content of the line that the cutter holds.
pub fn content_of(cutter: &Cutter) -> Line<'_>
    ensures { (line : List ℕ) → Holds cutter.now line → content_by result ≡ content line }
{
    if cutter.long() {
        return Line::Long;
    }
    content_in(cutter.line())
}

// Returns the content of a line.
pub(crate) fn content_in(line: &[u8]) -> Line<'_>
    ensures { content_by result ≡ content line.now }
{
    if line.len() > LINE_LIMIT {
        return Line::Long;
    }
    match line {
        [] => Line::Empty,
        [front @ .., b'\r'] => text_of(front),
        _ => Line::Text(line),
    }
}

// Returns the content of a line, given the bytes before its carriage return.
fn text_of(front: &[u8]) -> Line<'_>
    ensures { content_by result ≡ text_or_empty front.now }
{
    if front.is_empty() {
        return Line::Empty;
    }
    Line::Text(front)
}
