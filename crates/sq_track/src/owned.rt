//! Checks whether a tracker may hold a contact for an address.
ghost use Rattle.std.specs.Prelude.{◌≡◌, option_copied, true};
ghost use Rattle.sq_angle.specs.Angle.{degrees};
ghost use Rattle.sq_track.specs.Owned.{AreFixesPlaced, IfPlaced, IsPlacedFix, IsPointAt, are_one_parity};
ghost use Rattle.sq_track.specs.Owned.{has_frames_of, has_since, is_contact_of, is_frame_of, is_position_of};
ghost use Rattle.sq_track.specs.Owned.{is_present_at, is_side_of, is_since};

use crate::contact::{Contact, LastFix, Side};
use sq_cpr::{Air, Angle, Ground, Span, nearest};
use sq_message::{Me, Parity, Position, Received};

fn are_one_parity(p: Parity, q: Parity) -> bool
    ensures { result ≡ are_one_parity p q }
{
    match p {
        Parity::Even => match q {
            Parity::Even => true,
            Parity::Odd => false,
        },
        Parity::Odd => match q {
            Parity::Even => false,
            Parity::Odd => true,
        },
    }
}

// Returns whether a message is a position of the parity, in the air or on the ground.
fn is_position_of(in_air: bool, parity: Parity, me: &Me) -> bool
    ensures { result ≡ is_position_of in_air parity me.now }
{
    match me {
        Me::Airborne(airborne) => in_air && are_one_parity(parity, airborne.parity),
        Me::Surface(surface) => !in_air && are_one_parity(parity, surface.parity),
        Me::Other(_) => false,
    }
}

// Returns whether a stored frame is a position of this address, kind and parity, at or before the newest. True if
// there is no frame.
fn is_frame_of(
    address: u32,
    newest: u64,
    in_air: bool,
    parity: Parity,
    frame: Option<&Received>,
) -> bool
    ensures { result ≡ is_frame_of address newest in_air parity (option_copied frame.entry) }
{
    match frame {
        Some(frame) => {
            let squitter = &frame.squitter;
            frame.moment <= newest
                && squitter.address() == address
                && is_position_of(in_air, parity, &squitter.me())
        }
        None => true,
    }
}

// Returns whether there is a frame that was received at or after `moment`.
fn is_since(moment: u64, frame: Option<&Received>) -> bool
    ensures { result ≡ is_since moment (option_copied frame.entry) }
{
    match frame {
        Some(frame) => moment <= frame.moment,
        None => false,
    }
}

// Returns whether the side holds a position that was received at or after `moment`.
fn has_since(moment: u64, side: &Side) -> bool
    ensures { result ≡ has_since moment side.now }
{
    is_since(moment, side.even.as_ref()) || is_since(moment, side.odd.as_ref())
}

fn is_side_of(address: u32, newest: u64, in_air: bool, side: &Side) -> bool
    ensures { result ≡ is_side_of address newest in_air side.now }
{
    is_frame_of(address, newest, in_air, Parity::Even, side.even.as_ref())
        && is_frame_of(address, newest, in_air, Parity::Odd, side.odd.as_ref())
}

/// Returns whether a tracker may hold the frames of this contact for the address.
pub fn is_contact_of(address: u32, contact: &Contact) -> bool
    ensures { result ≡ is_contact_of address contact.now }
{
    is_side_of(address, contact.moment, true, &contact.airborne)
        && is_side_of(address, contact.moment, false, &contact.surface)
        && (has_since(contact.moment, &contact.airborne)
            || has_since(contact.moment, &contact.surface))
}

// Returns whether two angles are the same fraction.
fn is_same_fraction(a: &Angle, b: &Angle) -> bool
    ensures yes { result ≡ true → degrees a.now ≡ degrees b.now }
    ensures no { degrees a.now ≡ degrees b.now → result ≡ true }
{
    a.num() == b.num() && a.den() == b.den()
}

// Returns whether a position is that of a point of the parity's grid.
fn is_point_at<S: Span>(parity: Parity, position: &Position) -> bool
    ensures yes { result ≡ true → IsPointAt S.span parity position.now }
    ensures no { IsPointAt S.span parity position.now → result ≡ true }
{
    let own = nearest::<S>(position, parity).position();
    is_same_fraction(&position.lat(), &own.lat()) && is_same_fraction(&position.lon(), &own.lon())
}

// Returns whether the side holds a frame of this parity since `moment`, and one of the other parity.
fn has_frames_of(parity: Parity, moment: u64, side: &Side) -> bool
    ensures { result ≡ has_frames_of parity moment side.now }
{
    match parity {
        Parity::Even => is_since(moment, side.even.as_ref()) && side.odd.is_some(),
        Parity::Odd => is_since(moment, side.odd.as_ref()) && side.even.is_some(),
    }
}

// Returns whether a fix of the side is at a point of this parity.
fn is_placed_at<S: Span>(parity: Parity, side: &Side, fix: &LastFix) -> bool
    ensures yes { result ≡ true → IsPlacedFix S.span parity side.now fix.now }
    ensures no { IsPlacedFix S.span parity side.now fix.now → result ≡ true }
{
    has_frames_of(parity, fix.moment, side) && is_point_at::<S>(parity, &fix.position)
}

// Returns whether a fix of the side is at a point of either parity. True if there is no fix.
fn is_placed<S: Span>(side: &Side, fix: Option<&LastFix>) -> bool
    ensures yes { result ≡ true → IfPlaced S.span side.now (option_copied fix.entry) }
    ensures no { IfPlaced S.span side.now (option_copied fix.entry) → result ≡ true }
{
    match fix {
        Some(fix) => {
            is_placed_at::<S>(Parity::Even, side, fix) || is_placed_at::<S>(Parity::Odd, side, fix)
        }
        None => true,
    }
}

/// Returns whether each fix of the contact is at a point of its kind's grid, with frames of both parities.
pub fn are_fixes_placed(contact: &Contact) -> bool
    ensures yes { result ≡ true → AreFixesPlaced contact.now }
    ensures no { AreFixesPlaced contact.now → result ≡ true }
{
    is_placed::<Air>(&contact.airborne, contact.airborne.fix.as_ref())
        && is_placed::<Ground>(&contact.surface, contact.surface.fix.as_ref())
}

/// Returns whether an address with its newest position at `moment` is present at the last timestamp.
pub fn is_present_at(window: u64, last: Option<u64>, moment: u64) -> bool
    ensures { result ≡ is_present_at window last moment }
{
    match last {
        Some(last) => moment <= last && last - moment <= window,
        None => false,
    }
}
