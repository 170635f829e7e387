//! The results for the lines of a log as texts, as many as fit a buffer.
ghost use Rattle.std.specs.Prelude.{◌≡◌, ◌<◌, length};
ghost use Rattle.sq_commands.specs.Heard.{heard_telling};
ghost use Rattle.squitter_c.specs.LogTexts.{IsHeader, IsHeaderText, IsTextFinished};
ghost use Rattle.squitter_c.specs.LogTexts.{IsTextFinishedBy, IsTextTaken, IsTextTakenBy};
ghost use Rattle.squitter_c.specs.Slots.{held_listener};

use crate::angles::fill;
use crate::faults::{Fault, Reason};
use crate::forms::Texts;
use crate::listener::Listener;
use crate::log_loop::{Done, finish_by, take_by};
use crate::slot::Slot;
use sq_commands::{Format, heard_header};

/// Writes the header of a format, padded with zeros: the column names for CSV, and an empty text for lines and JSON.
/// Formats are 0 for lines, 1 for CSV and 2 for JSON.
#[unsafe(no_mangle)]
pub extern "C" fn squitter_log_header(format: u32, out: &mut [u8; 64])
    ensures { IsHeader format out.new }
{
    fill(out, header_of(format));
}

/// Takes the next piece of the log, and writes the results of its lines as texts of a format. A result has up to 512
/// bytes, and is begun only if 512 bytes are free. `done` has the number of bytes taken from the piece, and of bytes
/// written. If the call returns code 0 and 512 bytes are free, it took the whole piece. Each line with a line feed
/// then has its result.
///
/// The faults are, in this order: `NoTracker` if there is no log; `NoFormat` if no format has the number; and then
/// those of [`squitter_log_take`]. After each but `Memory` nothing is changed.
#[unsafe(no_mangle)]
pub extern "C" fn squitter_log_take_text(
    log: &mut Slot,
    format: u32,
    piece: &[u8],
    out: &mut [u8],
    done: &mut Done,
) -> Fault
    ensures { IsTextTaken format (held_listener log.old) (held_listener log.new) piece.now out.old out.new
        done.old done.new result }
{
    match log.take() {
        Some(mut taken) => {
            let fault = take_text_by(&mut taken, format, piece, out, done);
            log.put(taken);
            fault
        }
        None => Fault::of(Reason::NoTracker),
    }
}

/// Writes the results of the lines that still wait, and of a last line without a line feed, as texts. If the call
/// returns code 0 and 512 bytes are free, all results are written; otherwise call again. The faults are those of
/// [`squitter_log_take_text`].
#[unsafe(no_mangle)]
pub extern "C" fn squitter_log_finish_text(
    log: &mut Slot,
    format: u32,
    out: &mut [u8],
    done: &mut Done,
) -> Fault
    ensures { IsTextFinished format (held_listener log.old) (held_listener log.new) out.old out.new done.old done.new
        result }
{
    match log.take() {
        Some(mut taken) => {
            let fault = finish_text_by(&mut taken, format, out, done);
            log.put(taken);
            fault
        }
        None => Fault::of(Reason::NoTracker),
    }
}

// Takes a piece, in the format with this number.
fn take_text_by(
    listener: &mut Listener,
    format: u32,
    piece: &[u8],
    out: &mut [u8],
    done: &mut Done,
) -> Fault
    ensures { IsTextTakenBy format listener.old listener.new piece.now out.old out.new done.old done.new result }
{
    match Format::numbered(format) {
        Some(format) => take_by(listener, &mut Texts::of(format), piece, out, done),
        None => Fault::of(Reason::NoFormat),
    }
}

// Finishes a log, in the format with this number.
fn finish_text_by(listener: &mut Listener, format: u32, out: &mut [u8], done: &mut Done) -> Fault
    ensures { IsTextFinishedBy format listener.old listener.new out.old out.new done.old done.new result }
{
    match Format::numbered(format) {
        Some(format) => finish_by(listener, &mut Texts::of(format), out, done),
        None => Fault::of(Reason::NoFormat),
    }
}

// Returns the header of the format with this number, or an empty text if there is no such format.
fn header_of(number: u32) -> &'static str
    ensures header { IsHeaderText number result.now }
    ensures short { length result.now < 64 }
{
    match Format::numbered(number) {
        Some(format) => short_header(format),
        None => "",
    }
}

// Returns the header of a format.
fn short_header(format: Format) -> &'static str
    ensures header { result.now ≡ (heard_telling format).header }
    ensures short { length result.now < 64 }
{
    heard_header(format)
}
