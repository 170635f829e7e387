//! Reasons why frame texts cannot be decoded.
ghost use Rattle.std.specs.Prelude.{◌≡◌};
ghost use Rattle.example_place.specs.declared.fault.Fault.TheVariants.{OfPlace, OfText};

use sq_message::PlaceFault;
use sq_text::LineFault;
use thiserror::Error;

/// The reason why frame texts cannot be decoded. Its `Display` text is the one that the program prints.
#[derive(Clone, Copy, Debug, PartialEq, Eq, Error)]
#[error("{0}")]
pub enum Fault {
    /// A text is not a valid frame.
    OfText(LineFault),
    /// The frame or the pair cannot be decoded.
    OfPlace(PlaceFault),
}

impl From<LineFault> for Fault {
    ghost from_gives = { λ fault result. result ≡ OfText fault };

    fn from(fault: LineFault) -> Fault {
        Fault::OfText(fault)
    }
}

impl From<PlaceFault> for Fault {
    ghost from_gives = { λ fault result. result ≡ OfPlace fault };

    fn from(fault: PlaceFault) -> Fault {
        Fault::OfPlace(fault)
    }
}
