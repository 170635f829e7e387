//! Reading: frame text to a frame or to fields, a frame to fields, and a frame's text.
ghost use Rattle.std.specs.Prelude.{◌≡◌, ◌<◌, slice_index};
ghost use Rattle.hex.specs.Hex.{upper_digits};
ghost use Rattle.squitter_c.specs.Frames.{frame_of};
ghost use Rattle.squitter_c.specs.Reading.{IsFrameOfText, IsFrameRead, IsTextRead, text_of};

use crate::faults::{Fault, NONE, Reason};
use crate::fields::{PlainSquitter, plain_squitter};
use sq_bits::Frame;
use sq_message::read_frame;
use sq_text::{read_squitter, read_text};

/// Parses a frame text: 28 hexadecimal digits of either case, bare or between `*` and `;`.
#[unsafe(no_mangle)]
pub extern "C" fn squitter_frame_of_text(text: &[u8], out: &mut [u8; 14]) -> Fault
    ensures { IsFrameOfText text.now out.old out.new result }
{
    match read_text(text) {
        Ok(frame) => {
            let bytes = frame.0;
            *out = bytes;
            NONE
        }
        Err(fault) => Fault::of(Reason::Line(fault.into())),
    }
}

/// Reads the fields of a squitter from a frame text.
#[unsafe(no_mangle)]
pub extern "C" fn squitter_read_text(text: &[u8], out: &mut PlainSquitter) -> Fault
    ensures { IsTextRead text.now out.old out.new result }
{
    match read_squitter(text) {
        Ok(squitter) => {
            *out = plain_squitter(&squitter);
            NONE
        }
        Err(fault) => Fault::of(Reason::Line(fault)),
    }
}

/// Reads the fields of a squitter from a frame.
#[unsafe(no_mangle)]
pub extern "C" fn squitter_read_frame(frame: &[u8; 14], out: &mut PlainSquitter) -> Fault
    ensures { IsFrameRead (frame_of frame.now) out.old out.new result }
{
    match read_frame(&Frame(*frame)) {
        Ok(squitter) => {
            *out = plain_squitter(&squitter);
            NONE
        }
        Err(fault) => Fault::of(Reason::Line(fault.into())),
    }
}

/// Writes the text of a frame: 28 upper-case hexadecimal digits, without a zero at the end.
#[unsafe(no_mangle)]
pub extern "C" fn squitter_text_of_frame(frame: &[u8; 14], out: &mut [u8; 28])
    ensures { out.new ≡ text_of frame.now }
{
    for place in 0..14 {
        let byte = frame[place];
        out[2 * place] = digit_of(byte / 16);
        out[2 * place + 1] = digit_of(byte % 16);
    }
}

// Returns a hexadecimal digit, in upper case.
fn digit_of(value: u8) -> u8
    requires { value < 16 }
    ensures { result ≡ slice_index upper_digits value }
{
    b"0123456789ABCDEF"[usize::from(value)]
}
