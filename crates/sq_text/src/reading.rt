//! Parsing a text as a squitter.
ghost use Rattle.sq_text.specs.Reading.{IsSquitterReading};

use crate::faults::LineFault;
use crate::frame_text::{frame_of_text, read_text};
use sq_message::{Squitter, read_frame};

/// Parses a frame text as a squitter. Returns the first error of the text, or of its frame if the text is valid. Does
/// not allocate.
#[inline(always)]
pub fn read_squitter(text: &[u8]) -> Result<Squitter, LineFault>
    ensures { IsSquitterReading text.now result }
{
    let Some(frame) = frame_of_text(text) else {
        // The result is taken apart, so that the call does not write to the memory of the common case's result.
        return match read_any(text) {
            Ok(squitter) => Ok(squitter),
            Err(fault) => Err(fault),
        };
    };
    let squitter = read_frame(&frame)?;
    Ok(squitter)
}

// Parses any text as a squitter. This is slower and kept out of line, so that the common case keeps its frame in
// registers.
#[cold]
#[inline(never)]
fn read_any(text: &[u8]) -> Result<Squitter, LineFault>
    ensures { IsSquitterReading text.now result }
{
    let frame = read_text(text)?;
    Ok(read_frame(&frame)?)
}
