//! The fields of airborne positions.
ghost use Rattle.std.specs.Prelude.{◌≡◌, ◌<◌, ◌↔◌, IfSome, IsSome};
ghost use Rattle.sq_message.specs.TypeCodes.{IsAirCode};

/// The fields of an airborne position other than the encoded position (ICAO Doc 9871, register 0,5): the type code,
/// the surveillance status, ME bit 8, the altitude field and T, all raw.
#[derive(Clone, Copy, Debug, PartialEq, Eq)]
pub struct AirFields {
    pub(crate) type_code: u8,
    pub(crate) status: u8,
    pub(crate) flag: bool,
    pub(crate) altitude: u16,
    pub(crate) time: bool,
    pub ghost type_code_in: { IsAirCode type_code },
    pub ghost status_in: { status < 4 },
    pub ghost altitude_in: { altitude < 4096 },
}

impl AirFields {
    ghost use Rattle.sq_message.specs.Parts.{air_parts};

    /// Returns these fields. Returns `None` if the type code is not 9 to 18 or 20 to 22, the status is above 3, or
    /// the altitude field is above 4095.
    pub fn new(
        type_code: u8,
        status: u8,
        flag: bool,
        altitude: u16,
        time: bool,
    ) -> Option<AirFields>
        ensures variant { IsSome result ↔ (IsAirCode type_code × (status < 4) × (altitude < 4096)) }
        ensures value { IfSome result (λ fields. air_parts fields
            ≡ record { type_code = type_code; status = status; flag = flag; altitude = altitude; time = time }) }
    {
        if matches!(type_code, 9..=18 | 20..=22) && status < 4 && altitude < 4096 {
            Some(AirFields {
                type_code,
                status,
                flag,
                altitude,
                time,
            })
        } else {
            None
        }
    }

    /// Returns the type code: 9 to 18 with barometric altitude, 20 to 22 with GNSS height.
    pub fn type_code(&self) -> u8
        ensures value { result ≡ (air_parts self.now).type_code }
        ensures air { IsAirCode result }
    {
        self.type_code
    }

    /// Returns the surveillance status, raw and below 4.
    pub fn status(&self) -> u8
        ensures value { result ≡ (air_parts self.now).status }
        ensures small { result < 4 }
    {
        self.status
    }

    /// Returns ME bit 8, the single antenna flag or NIC supplement-B, raw.
    pub fn flag(&self) -> bool
        ensures { result ≡ (air_parts self.now).flag }
    {
        self.flag
    }

    /// Returns the altitude field of 12 bits, raw.
    pub fn altitude(&self) -> u16
        ensures value { result ≡ (air_parts self.now).altitude }
        ensures small { result < 4096 }
    {
        self.altitude
    }

    /// Returns T: whether the time of the position is synchronised to UTC.
    pub fn time(&self) -> bool
        ensures { result ≡ (air_parts self.now).time }
    {
        self.time
    }
}

/// The meaning of an altitude field (ICAO Doc 9871, register 0,5).
#[derive(Clone, Copy, Debug, PartialEq, Eq)]
pub enum Altitude {
    /// No altitude is sent: the barometric field is 0.
    Missing,
    /// Feet, a multiple of 25 from -1000 to 50175.
    Feet(i32),
    /// A field with the Q bit 0, or a GNSS height: the 12 bits, raw.
    Raw(u16),
}
