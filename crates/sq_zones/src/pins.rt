//! Guards of the definitions: each has one value, some value or an exact condition, so none can be weakened unnoticed.
//! A function with an empty body does nothing: its contract is the statement.
ghost use Rattle.std.specs.Prelude.{◌≡◌, ◌↔◌, IsTrue};

use crate::parity::Parity;

/// Compares two parities by `==`, which is true exactly if they are the same.
pub fn equal_parities(parity: &Parity, other: &Parity) -> bool
    ensures { IsTrue result ↔ (parity.now ≡ other.now) }
{
    parity == other
}
