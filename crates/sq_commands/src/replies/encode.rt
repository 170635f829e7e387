//! The command `encode`.
ghost use Rattle.std.specs.Prelude.{◌≡◌, ◌<◌, ◌^◌, ◌++◌, codes};
ghost use Rattle.sq_feed.specs.Lines.{frame_digits};
ghost use Rattle.sq_commands.specs.Requests.{asked_encode};
ghost use Rattle.sq_commands.specs.Encode.{IsAirFrame, IsAirHead, IsEncodeReading, IsEncodeReply, IsGroundFrame};
ghost use Rattle.sq_commands.specs.Encode.{IsGroundHead};
ghost use Rattle.sq_commands.specs.Replies.{reply_parts};

use crate::arguments::{
    ArgumentFault, Kind, read_address, read_altitude, read_kind, read_parity, read_position,
};
use crate::replies::{Reply, refuse_argument, reply_with};
use crate::requests::EncodeWords;
use sq_angle::Position;
use sq_bits::laws::each_frame;
use sq_digits::{TextBuffer, push_byte};
use sq_message::{
    AirFields, AirHead, Frame, GroundFields, GroundHead, Parity, send_air, send_ground, write_frame,
};

// The fields besides the position; all others are 0. In the air: barometric altitude (type code 11), an airborne
// aircraft with a transponder that replies (capability 5).
const AIR_TYPE_CODE: u8 = 11;

const AIR_CAPABILITY: u8 = 5;

// On the ground: a surface position (type code 7), an aircraft on the ground with a transponder that replies
// (capability 4).
const GROUND_TYPE_CODE: u8 = 7;

const GROUND_CAPABILITY: u8 = 4;

/// Returns the frame that encodes a position.
pub(crate) fn encode(words: &EncodeWords<'_>) -> Reply
    ensures { IsEncodeReply (asked_encode words.now) (reply_parts result) }
{
    match frame_of(words) {
        Ok(frame) => reply_with(&frame_line(&frame.0)),
        Err(fault) => refuse_argument(fault),
    }
}

// Returns the frame of the values that the words spell, or the first invalid word.
fn frame_of(words: &EncodeWords<'_>) -> Result<Frame, ArgumentFault>
    ensures { IsEncodeReading (asked_encode words.now) result }
{
    let kind = read_kind(words.kind)?;
    let parity = read_parity(words.parity)?;
    let address = read_address(words.address)?;
    let altitude = read_altitude(kind, words.feet)?;
    let position = read_position(words.lat, words.lon)?;
    Ok(match kind {
        Kind::Air => air_frame(address, altitude, parity, &position),
        Kind::Ground => ground_frame(address, parity, &position),
    })
}

// Returns the frame of an airborne position.
fn air_frame(address: u32, altitude: u16, parity: Parity, position: &Position) -> Frame
    requires address { address < 2 ^ 24 }
    requires altitude { altitude < 4096 }
    ensures { IsAirFrame address altitude parity position.now result }
{
    let frame = write_frame(&send_air(air_head(address, altitude), position, parity));
    each_frame(&frame);
    frame
}

fn air_head(address: u32, altitude: u16) -> AirHead
    requires address { address < 2 ^ 24 }
    requires altitude { altitude < 4096 }
    ensures { IsAirHead address altitude result }
{
    let fields = AirFields::new(AIR_TYPE_CODE, 0, false, altitude, false).unwrap();
    AirHead::new(AIR_CAPABILITY, address, fields).unwrap()
}

// Returns the frame of a surface position.
fn ground_frame(address: u32, parity: Parity, position: &Position) -> Frame
    requires address { address < 2 ^ 24 }
    ensures { IsGroundFrame address parity position.now result }
{
    let frame = write_frame(&send_ground(ground_head(address), position, parity));
    each_frame(&frame);
    frame
}

fn ground_head(address: u32) -> GroundHead
    requires address { address < 2 ^ 24 }
    ensures { IsGroundHead address result }
{
    let fields = GroundFields::new(GROUND_TYPE_CODE, 0, false, 0, false).unwrap();
    GroundHead::new(GROUND_CAPABILITY, address, fields).unwrap()
}

// Returns the digits of a frame and a line feed.
fn frame_line(frame: &[u8; 14]) -> TextBuffer<29>
    ensures { result.bytes ≡ frame_digits frame.now ++ codes "\n" }
{
    let mut line = TextBuffer::new();
    for byte in frame {
        push_byte(&mut line, *byte);
    }
    line.push(b'\n');
    line
}
