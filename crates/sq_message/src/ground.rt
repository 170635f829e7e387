//! The fields of surface positions.
ghost use Rattle.std.specs.Prelude.{◌≡◌, ◌<◌, ◌↔◌, IfSome, IsSome};
ghost use Rattle.sq_message.specs.TypeCodes.{IsGroundCode};

/// The fields of a surface position other than the encoded position (ICAO Doc 9871, register 0,6): the type code,
/// movement, track status, track and T, all raw.
#[derive(Clone, Copy, Debug, PartialEq, Eq)]
pub struct GroundFields {
    pub(crate) type_code: u8,
    pub(crate) movement: u8,
    pub(crate) track_status: bool,
    pub(crate) track: u8,
    pub(crate) time: bool,
    pub ghost type_code_in: { IsGroundCode type_code },
    pub ghost movement_in: { movement < 128 },
    pub ghost track_in: { track < 128 },
}

impl GroundFields {
    ghost use Rattle.sq_message.specs.Parts.{ground_parts};

    /// Returns these fields if the type code is 5 to 8, and movement and track are below 128. Otherwise returns
    /// `None`.
    pub fn new(
        type_code: u8,
        movement: u8,
        track_status: bool,
        track: u8,
        time: bool,
    ) -> Option<GroundFields>
        ensures variant { IsSome result ↔ (IsGroundCode type_code × (movement < 128) × (track < 128)) }
        ensures value { IfSome result (λ fields. ground_parts fields
            ≡ record {
              type_code = type_code;
              movement = movement;
              track_status = track_status;
              track = track;
              time = time;
            }) }
    {
        if matches!(type_code, 5..=8) && movement < 128 && track < 128 {
            Some(GroundFields {
                type_code,
                movement,
                track_status,
                track,
                time,
            })
        } else {
            None
        }
    }

    /// Returns the type code, 5 to 8.
    pub fn type_code(&self) -> u8
        ensures value { result ≡ (ground_parts self.now).type_code }
        ensures surface { IsGroundCode result }
    {
        self.type_code
    }

    /// Returns the movement, raw and below 128.
    pub fn movement(&self) -> u8
        ensures value { result ≡ (ground_parts self.now).movement }
        ensures small { result < 128 }
    {
        self.movement
    }

    /// Returns the track status: whether the track is declared valid.
    pub fn track_status(&self) -> bool
        ensures { result ≡ (ground_parts self.now).track_status }
    {
        self.track_status
    }

    /// Returns the track, raw and below 128.
    pub fn track(&self) -> u8
        ensures value { result ≡ (ground_parts self.now).track }
        ensures small { result < 128 }
    {
        self.track
    }

    /// Returns T: whether the time of the position is synchronised to UTC.
    pub fn time(&self) -> bool
        ensures { result ≡ (ground_parts self.now).time }
    {
        self.time
    }
}
