//! A squitter: capability, address and message.
ghost use Rattle.std.specs.Prelude.{◌≡◌, ◌<◌, ◌≤◌, ◌^◌, ◌↔◌, IfSome, IsSome, length};

use crate::{Airborne, Head, Other, Surface};
use thiserror::Error;

// An address has 24 bits.
pub(crate) const ADDRESSES: u32 = 1 << 24;

/// The message of a squitter, by its kind.
#[derive(Clone, Copy, Debug, PartialEq, Eq)]
pub enum Me {
    /// An airborne position, type codes 9 to 18 and 20 to 22.
    Airborne(Airborne),
    /// A surface position, type codes 5 to 8.
    Surface(Surface),
    /// Any other type code: the 56 bits, raw.
    Other(Other),
}

/// The contents of a correct DF17 frame (RTCA DO-260B section 2.2.3.2): the capability (CA), the address and the
/// message (ME).
#[derive(Clone, Copy, Debug, PartialEq, Eq)]
pub struct Squitter {
    pub(crate) ca: u8,
    pub(crate) address: u32,
    pub(crate) me: Me,
    pub ghost ca_in: { ca < 8 },
    pub ghost address_in: { address < 2 ^ 24 },
}

impl Squitter {
    ghost use Rattle.sq_message.specs.Parts.{squitter_parts};

    /// Returns the squitter of these parts if `ca` is below 8 and `address` is below 2^24, and otherwise `None`.
    pub fn new(ca: u8, address: u32, me: Me) -> Option<Squitter>
        ensures variant { IsSome result ↔ ((ca < 8) × (address < 2 ^ 24)) }
        ensures value { IfSome result (λ squitter. squitter_parts squitter
            ≡ record { ca = ca; address = address; me = me }) }
    {
        if ca < 8 && address < ADDRESSES {
            Some(Squitter { ca, address, me })
        } else {
            None
        }
    }

    /// Returns the capability (CA), below 8.
    pub fn ca(&self) -> u8
        ensures value { result ≡ (squitter_parts self.now).ca }
        ensures small { result < 8 }
    {
        self.ca
    }

    /// Returns the 24-bit address.
    pub fn address(&self) -> u32
        ensures value { result ≡ (squitter_parts self.now).address }
        ensures small { result < 2 ^ 24 }
    {
        self.address
    }

    // Returns the head of the squitter: its capability and address, with these fields.
    #[inline(always)]
    pub(crate) fn head<F>(&self, fields: F) -> Head<F>
        ensures { let parts = squitter_parts self.now in
            result ≡ record { ca = parts.ca; address = parts.address; fields = fields } }
    {
        Head {
            ca: self.ca,
            address: self.address,
            fields,
        }
    }

    /// Returns the message.
    pub fn me(&self) -> Me
        ensures { result ≡ (squitter_parts self.now).me }
    {
        self.me
    }
}

/// Why a frame encodes no squitter: the first of these that applies.
#[derive(Clone, Copy, Debug, PartialEq, Eq, Error)]
pub enum FrameFault {
    /// The downlink format (bits 1 to 5) is this number and not 17.
    #[error("{label}{0}", label = self.label())]
    NotDf17(u8),
    /// The CRC remainder is this number and not 0.
    #[error("{label}{0:06X}", label = self.label())]
    Parity(u32),
}

impl FrameFault {
    ghost use Rattle.sq_message.specs.Faults.{frame_fault_label};

    /// Returns the text of the error before its number, at most 9 bytes.
    pub fn label(self) -> &'static str
        ensures value { result.now ≡ frame_fault_label self }
        ensures short { length result.now ≤ 9 }
    {
        match self {
            FrameFault::NotDf17(_) => "not DF17 ",
            FrameFault::Parity(_) => "parity ",
        }
    }
}
