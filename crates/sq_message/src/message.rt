//! Position messages.
ghost use Rattle.std.specs.Prelude.{◌≡◌};

use crate::{AirFields, GroundFields};
use sq_cpr::{Code, Parity};

/// A position message: the parity (F bit) and the code of a point, and the other fields.
#[derive(Clone, Copy, Debug, PartialEq, Eq)]
pub struct PositionMessage<F> {
    pub parity: Parity,
    pub code: Code,
    pub fields: F,
}

/// An airborne position (ICAO Doc 9871, register 0,5).
pub type Airborne = PositionMessage<AirFields>;

/// A surface position (ICAO Doc 9871, register 0,6).
pub type Surface = PositionMessage<GroundFields>;

impl<F: Copy> PositionMessage<F> {
    /// Returns the fields of the kind: for example the altitude in the air, the movement on the ground.
    pub fn fields(&self) -> F
        ensures { result ≡ self.now.fields }
    {
        self.fields
    }

    /// Returns the parity of the code (F bit).
    pub fn parity(&self) -> Parity
        ensures { result ≡ self.now.parity }
    {
        self.parity
    }

    /// Returns the code of the position.
    pub fn code(&self) -> Code
        ensures { result ≡ self.now.code }
    {
        self.code
    }
}
