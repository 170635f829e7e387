//! The command `show`.
ghost use Rattle.sq_text.specs.Reading.{IsSquitterReading};
ghost use Rattle.sq_commands.specs.Replies.{reply_parts};
ghost use Rattle.sq_commands.specs.Show.{IsShowReply};

use crate::replies::{Reply, refuse_frame, reply_with};
use sq_message::Squitter;
use sq_text::{LineFault, read_squitter, show_text};

/// Returns the fields of a frame text's squitter, or the frame's fault.
pub(crate) fn show(frame: &str) -> Reply
    ensures { IsShowReply frame.now (reply_parts result) }
{
    match read_frame_text(frame) {
        Ok(squitter) => reply_with(&show_text(&squitter)),
        Err(fault) => refuse_frame(fault),
    }
}

/// Reads the squitter of a frame text.
pub(crate) fn read_frame_text(frame: &str) -> Result<Squitter, LineFault>
    ensures { IsSquitterReading frame.now result }
{
    read_squitter(frame.as_bytes())
}
