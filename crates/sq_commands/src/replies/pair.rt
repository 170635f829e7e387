//! The command `pair`.
ghost use Rattle.std.specs.Prelude.{option_copied};
ghost use Rattle.sq_commands.specs.Frames.{AreReadingsOf};
ghost use Rattle.sq_commands.specs.Pair.{IsFramesReply, IsPairReply};
ghost use Rattle.sq_commands.specs.Replies.{reply_parts};

use crate::arguments::read_site;
use crate::replies::show::read_frame_text;
use crate::replies::{Reply, refuse_argument, refuse_frame, reply_place};
use sq_angle::Position;
use sq_message::{Squitter, place_pair};
use sq_text::LineFault;

/// Decodes two frame texts as a pair, and returns the place of the newer squitter.
pub(crate) fn pair(older: &str, newer: &str, lat: Option<&str>, lon: Option<&str>) -> Reply
    ensures { IsPairReply older.now newer.now (option_copied lat.entry) (option_copied lon.entry)
        (reply_parts result) }
{
    match read_site(lat, lon) {
        Ok(site) => pair_at(older, newer, site.as_ref()),
        Err(fault) => refuse_argument(fault),
    }
}

// Returns the place with this site, or with none.
fn pair_at(older: &str, newer: &str, site: Option<&Position>) -> Reply
    ensures { IsFramesReply older.now newer.now (option_copied site.entry) (reply_parts result) }
{
    match read_both(older, newer) {
        Ok((older, newer)) => reply_place(place_pair(&older, &newer, site)),
        Err(fault) => refuse_frame(fault),
    }
}

// Returns the squitters of both frame texts, or the first fault.
fn read_both(older: &str, newer: &str) -> Result<(Squitter, Squitter), LineFault>
    ensures { AreReadingsOf older.now newer.now result }
{
    let first = read_frame_text(older)?;
    let second = read_frame_text(newer)?;
    Ok((first, second))
}
