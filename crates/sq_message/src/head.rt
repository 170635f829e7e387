//! Position squitters without the encoded position.
ghost use Rattle.std.specs.Prelude.{◌≡◌, ◌<◌, ◌^◌, ◌↔◌, IfSome, IsSome};
ghost use Rattle.sq_message.specs.Heads.{HeadOf};

use crate::squitter::ADDRESSES;
use crate::{AirFields, GroundFields};
use std::marker::Model;

/// Everything in a position squitter except the encoded position: the capability (CA), the address and the fields.
///
/// The capability is below 8 and the address below 2^24. Where a head is borrowed, the calls [`Head::ca`] and
/// [`Head::address`] say so, and [`crate::laws::head_in_range`].
#[derive(Clone, Copy, Debug, PartialEq, Eq)]
pub struct Head<F> {
    pub(crate) ca: u8,
    pub(crate) address: u32,
    pub(crate) fields: F,
}

/// Everything in an airborne position squitter except the encoded position.
pub type AirHead = Head<AirFields>;

/// Everything in a surface position squitter except the encoded position.
pub type GroundHead = Head<GroundFields>;

impl<F> Model for Head<F> {
    ghost Value = { HeadOf F };

    ghost view = { λ head. record { ca = head.ca; address = head.address; fields = head.fields } };

    ghost invariant = { λ head. (head.ca < 8) × (head.address < 2 ^ 24) };

    ghost inverse = { λ head. record { ca = head.ca; address = head.address; fields = head.fields } };
}

impl<F: Copy> Head<F> {
    /// Returns the head of these parts if `ca` is below 8 and `address` is below 2^24, and otherwise `None`.
    pub fn new(ca: u8, address: u32, fields: F) -> Option<Head<F>>
        ensures variant { IsSome result ↔ ((ca < 8) × (address < 2 ^ 24)) }
        ensures value { IfSome result (λ head. head ≡ record { ca = ca; address = address; fields = fields }) }
    {
        if ca < 8 && address < ADDRESSES {
            Some(Head {
                ca,
                address,
                fields,
            })
        } else {
            None
        }
    }

    /// Returns the capability (CA), below 8.
    pub fn ca(&self) -> u8
        ensures value { result ≡ self.now.ca }
        ensures small { result < 8 }
    {
        self.ca
    }

    /// Returns the 24-bit address.
    pub fn address(&self) -> u32
        ensures value { result ≡ self.now.address }
        ensures small { result < 2 ^ 24 }
    {
        self.address
    }

    /// Returns the fields of the kind: for example the altitude in the air, the movement on the ground.
    pub fn fields(&self) -> F
        ensures { result ≡ self.now.fields }
    {
        self.fields
    }
}
