//! A tracker's entry of an address in plain numbers, and the contact that it represents.
ghost use Rattle.std.specs.Prelude.{◌≡◌};
ghost use Rattle.sq_angle.specs.Angle.{degrees};
ghost use Rattle.squitter_c.specs.Plain.{IsOfDegrees, fraction_of};
ghost use Rattle.squitter_c.specs.Entries.{IsContactOf, IsEntryOf, IsFixOf, IsReceivedOf, IsSideOf};

use crate::plain::{PlainAngle, PlainPosition, position_of};
use sq_angle::{Angle, Position};
use sq_bits::Frame;
use sq_message::{Received, read_frame, write_frame};
use sq_track::{Contact, LastFix, Side};

/// A frame and its timestamp in milliseconds. Invalid frames are skipped.
#[repr(C)]
#[derive(Clone, Copy)]
pub struct PlainReceived {
    pub moment: u64,
    pub frame: [u8; 14],
}

/// The position of a fix and its timestamp in milliseconds. Invalid positions are skipped.
#[repr(C)]
#[derive(Clone, Copy)]
pub struct PlainFix {
    pub moment: u64,
    pub position: PlainPosition,
}

/// Decoder state for one aircraft in the air, or on the ground.
#[repr(C)]
#[derive(Clone, Copy)]
pub struct PlainSide {
    pub even: PlainReceived,
    pub odd: PlainReceived,
    pub fix: PlainFix,
}

/// State of one address of a tracker.
#[repr(C)]
#[derive(Clone, Copy)]
pub struct PlainEntry {
    /// The timestamp of its latest position.
    pub moment: u64,
    pub address: u32,
    pub airborne: PlainSide,
    pub surface: PlainSide,
}

// Returns the contact that an entry represents.
pub(crate) fn contact_of(plain: &PlainEntry) -> Contact
    ensures { IsContactOf plain.now result }
{
    Contact {
        moment: plain.moment,
        airborne: side_of(&plain.airborne),
        surface: side_of(&plain.surface),
    }
}

fn side_of(plain: &PlainSide) -> Side
    ensures { IsSideOf plain.now result }
{
    Side {
        even: received_of(&plain.even),
        odd: received_of(&plain.odd),
        fix: fix_of(&plain.fix),
    }
}

fn received_of(plain: &PlainReceived) -> Option<Received>
    ensures { IsReceivedOf plain.now result }
{
    match read_frame(&Frame(plain.frame)) {
        Ok(squitter) => Some(Received {
            moment: plain.moment,
            squitter,
        }),
        Err(_) => None,
    }
}

// Returns the fix that plain numbers represent, if its position is in range.
pub(crate) fn fix_of(plain: &PlainFix) -> Option<LastFix>
    ensures { IsFixOf plain.now result }
{
    match position_of(&plain.position) {
        Some(position) => Some(LastFix {
            moment: plain.moment,
            position,
        }),
        None => None,
    }
}

// Returns the entry that represents an address and its contact.
pub(crate) fn plain_entry(address: u32, contact: &Contact) -> PlainEntry
    ensures { IsEntryOf result (address, contact.now) }
{
    PlainEntry {
        moment: contact.moment,
        address,
        airborne: plain_side(&contact.airborne),
        surface: plain_side(&contact.surface),
    }
}

fn plain_side(side: &Side) -> PlainSide
    ensures { IsSideOf result side.now }
{
    PlainSide {
        even: plain_received(side.even),
        odd: plain_received(side.odd),
        fix: plain_fix(side.fix),
    }
}

fn plain_received(received: Option<Received>) -> PlainReceived
    ensures { IsReceivedOf result received }
{
    match received {
        Some(received) => {
            let written = write_frame(&received.squitter);
            let frame = written.0;
            PlainReceived {
                moment: received.moment,
                frame,
            }
        }
        None => {
            let frame = [0; 14];
            PlainReceived { moment: 0, frame }
        }
    }
}

fn plain_fix(fix: Option<LastFix>) -> PlainFix
    ensures { IsFixOf result fix }
{
    match fix {
        Some(fix) => PlainFix {
            moment: fix.moment,
            position: as_given(&fix.position),
        },
        None => PlainFix {
            moment: 0,
            position: PlainPosition {
                lat: PlainAngle { num: 0, den: 0 },
                lon: PlainAngle { num: 0, den: 0 },
            },
        },
    }
}

// Returns the fractions of a position, unchanged.
pub(crate) fn as_given(position: &Position) -> PlainPosition
    ensures { IsOfDegrees result position.now }
{
    PlainPosition {
        lat: fraction_as_given(&position.lat()),
        lon: fraction_as_given(&position.lon()),
    }
}

fn fraction_as_given(angle: &Angle) -> PlainAngle
    ensures { fraction_of result ≡ degrees angle.now }
{
    PlainAngle {
        num: angle.num(),
        den: angle.den(),
    }
}
