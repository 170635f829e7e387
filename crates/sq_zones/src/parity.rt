//! The two grids.
ghost use Rattle.std.specs.Prelude.{◌≡◌};

/// The grid of an encoded position, even or odd. RTCA DO-260B calls it the CPR format (F bit).
#[derive(Clone, Copy, Debug, PartialEq, Eq)]
pub enum Parity {
    /// 60 latitude zones, and as many longitude zones as the zone count (NL).
    Even,
    /// 59 latitude zones, and one longitude zone less than the zone count (NL) but at least one.
    Odd,
}

impl Parity {
    ghost use Rattle.sq_zones.specs.Zones.{parity_index};

    /// Returns 0 for even and 1 for odd.
    pub fn index(self) -> u8
        ensures { result ≡ parity_index self }
    {
        match self {
            Parity::Even => 0,
            Parity::Odd => 1,
        }
    }
}
