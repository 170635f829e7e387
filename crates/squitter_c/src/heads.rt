//! Heads: the fields of a position squitter, except its position.
ghost use Rattle.std.specs.Prelude.{◌↔◌, IfSome, IsSome};
ghost use Rattle.squitter_c.specs.Heads.{IsAirHead, IsGroundHead, PlainIsAirHead, PlainIsGroundHead};

use sq_message::{AirFields, AirHead, GroundFields, GroundHead};

/// The fields of an airborne position squitter, except its position.
#[repr(C)]
#[derive(Clone, Copy)]
pub struct PlainAirHead {
    pub address: u32,
    pub altitude: u16,
    pub ca: u8,
    pub type_code: u8,
    pub status: u8,
    pub flag: u8,
    pub time: u8,
    /// 0 even, 1 odd.
    pub odd: u8,
}

/// The fields of a surface position squitter, except its position.
#[repr(C)]
#[derive(Clone, Copy)]
pub struct PlainGroundHead {
    pub address: u32,
    pub ca: u8,
    pub type_code: u8,
    pub movement: u8,
    pub track_status: u8,
    pub track: u8,
    pub time: u8,
    /// 0 even, 1 odd.
    pub odd: u8,
}

// Returns the head of these fields; `None` exactly if a field is out of range.
pub(crate) fn air_head(plain: &PlainAirHead) -> Option<AirHead>
    ensures variant { IsSome result ↔ PlainIsAirHead plain.now }
    ensures value { IfSome result (IsAirHead plain.now) }
{
    if plain.flag > 1 || plain.time > 1 {
        return None;
    }
    let fields = AirFields::new(
        plain.type_code,
        plain.status,
        plain.flag == 1,
        plain.altitude,
        plain.time == 1,
    )?;
    AirHead::new(plain.ca, plain.address, fields)
}

// Returns the head of a surface position; `None` exactly if a field is out of range.
pub(crate) fn ground_head(plain: &PlainGroundHead) -> Option<GroundHead>
    ensures variant { IsSome result ↔ PlainIsGroundHead plain.now }
    ensures value { IfSome result (IsGroundHead plain.now) }
{
    if plain.track_status > 1 || plain.time > 1 {
        return None;
    }
    let fields = GroundFields::new(
        plain.type_code,
        plain.movement,
        plain.track_status == 1,
        plain.track,
        plain.time == 1,
    )?;
    GroundHead::new(plain.ca, plain.address, fields)
}
