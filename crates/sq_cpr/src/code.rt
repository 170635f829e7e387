//! The code of a point, as a squitter carries it.
ghost use Rattle.std.specs.Prelude.{◌≡◌, ◌↔◌, ◌<◌, IsSome, IfSome};
ghost use Rattle.sq_cpr.specs.Sizes.{codes_of_zone};

/// The number of codes of a zone, in each coordinate: 2^17.
pub const CODES_OF_ZONE: u64 = 131_072;

/// The code of a position: 17 bits for the latitude (YZ) and 17 bits for the longitude (XZ). RTCA DO-260B, appendix
/// on compact position reporting.
#[derive(Clone, Copy, Debug, PartialEq, Eq)]
pub struct Code {
    lat: u32,
    lon: u32,
    pub ghost lat_below: { lat < codes_of_zone },
    pub ghost lon_below: { lon < codes_of_zone },
}

impl Code {
    ghost use Rattle.sq_cpr.specs.Code.{numbers_of};

    /// Returns the code with these numbers if both are below 2^17, and otherwise `None`.
    pub fn new(lat: u32, lon: u32) -> Option<Code>
        ensures variant { IsSome result ↔ ((lat < codes_of_zone) × (lon < codes_of_zone)) }
        ensures value { IfSome result (λ code. numbers_of code ≡ record { lat = lat; lon = lon }) }
    {
        if u64::from(lat) < CODES_OF_ZONE && u64::from(lon) < CODES_OF_ZONE {
            Some(Code { lat, lon })
        } else {
            None
        }
    }

    /// Returns the latitude number (YZ), below 2^17.
    pub fn lat(&self) -> u32
        ensures value { result ≡ (numbers_of self.now).lat }
        ensures small { result < codes_of_zone }
    {
        self.lat
    }

    /// Returns the longitude number (XZ), below 2^17.
    pub fn lon(&self) -> u32
        ensures value { result ≡ (numbers_of self.now).lon }
        ensures small { result < codes_of_zone }
    {
        self.lon
    }
}
