//! The command `local`.
ghost use Rattle.sq_commands.specs.Local.{IsFrameNearReply, IsLocalReply};
ghost use Rattle.sq_commands.specs.Replies.{reply_parts};

use crate::arguments::read_position;
use crate::replies::show::read_frame_text;
use crate::replies::{Reply, refuse_argument, refuse_frame, reply_place};
use sq_angle::Position;
use sq_message::place_local;

/// Decodes a frame text near the reference, and returns the place.
pub(crate) fn local(frame: &str, lat: &str, lon: &str) -> Reply
    ensures { IsLocalReply frame.now lat.now lon.now (reply_parts result) }
{
    match read_position(lat, lon) {
        Ok(reference) => local_near(frame, &reference),
        Err(fault) => refuse_argument(fault),
    }
}

// Returns the place near this reference.
fn local_near(frame: &str, reference: &Position) -> Reply
    ensures { IsFrameNearReply frame.now reference.now (reply_parts result) }
{
    match read_frame_text(frame) {
        Ok(squitter) => reply_place(place_local(&squitter, reference)),
        Err(fault) => refuse_frame(fault),
    }
}
