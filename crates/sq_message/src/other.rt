//! Messages other than positions.
ghost use Rattle.std.specs.Prelude.{◌≡◌, ◌/◌, ◌<◌, ◌^◌, ◌↔◌, IfSome, IsSome};
ghost use Rattle.sq_message.specs.TypeCodes.{IsOtherCode};

/// A message with a type code other than those of positions, as its 56 bits.
#[derive(Clone, Copy, Debug, PartialEq, Eq)]
pub struct Other {
    pub(crate) raw: u64,
    pub ghost raw_in: { raw < 2 ^ 56 },
    pub ghost type_code_in: { IsOtherCode (raw / 2 ^ 51) },
}

impl Other {
    ghost use Rattle.sq_message.specs.Parts.{raw_of};

    /// Returns the message of these bits. Returns `None` if `raw` is 2^56 or more, or if its top five bits are the
    /// type code of an airborne or a surface position.
    pub fn new(raw: u64) -> Option<Other>
        ensures variant { IsSome result ↔ ((raw < 2 ^ 56) × IsOtherCode (raw / 2 ^ 51)) }
        ensures value { IfSome result (λ other. raw_of other ≡ raw) }
    {
        if raw < 1 << 56 && !matches!(raw >> 51, 5..=18 | 20..=22) {
            Some(Other { raw })
        } else {
            None
        }
    }

    /// Returns the 56 bits, below 2^56.
    pub fn raw(&self) -> u64
        ensures value { result ≡ raw_of self.now }
        ensures small { result < 2 ^ 56 }
    {
        self.raw
    }

    /// Returns the type code: the top five of the 56 bits.
    pub fn type_code(&self) -> u8
        ensures value { result ≡ raw_of self.now / 2 ^ 51 }
        ensures small { result < 32 }
        ensures other { IsOtherCode result }
    {
        (self.raw >> 51) as u8
    }
}
