//! Places: decoding squitters to points, and sending a point again.
ghost use Rattle.std.specs.Prelude.{◌≡◌, ◌≤◌, ◌↔◌, IsTrue, None, length, option_copied};
ghost use Rattle.sq_cpr.specs.Code.{numbers_of};
ghost use Rattle.sq_message.specs.Parts.{squitter_parts};
ghost use Rattle.sq_message.specs.Kinds.{InAir, OnGround, head_of};
ghost use Rattle.sq_message.specs.Sending.{IsSquitterOf};
ghost use Rattle.sq_message.specs.Places.{Fits, IsLocalPlace, IsPairPlace, IsPlaceOfOneKind, IsPosition, IsPositionOf};
ghost use Rattle.sq_message.specs.Places.{IsSentAt, of_local, of_pair, pair_by_parity};

use crate::send::send_code;
use crate::{Airborne, Head, Kind, Me, Squitter, Surface};
use sq_angle::Position;
use sq_cpr::{
    Air, Code, GridPoint, Ground, LocalFault, PairFault, Parity, local, pair_air, pair_ground,
};
use thiserror::Error;

/// The decoded position of a squitter: a point of an airborne or of a surface grid.
#[derive(Clone, Copy, Debug, PartialEq, Eq)]
pub enum Place {
    /// In the air: a point of the grid of 360 degrees.
    Air(GridPoint<Air>),
    /// On the ground: a point of the grid of 90 degrees.
    Ground(GridPoint<Ground>),
}

impl Place {
    /// Returns the exact position of the point.
    #[inline(always)]
    pub fn position(&self) -> Position
        ensures { IsPositionOf self.now result }
    {
        match self {
            Place::Air(point) => point.position(),
            Place::Ground(point) => point.position(),
        }
    }
}

/// Why squitters cannot be decoded: the first of these that applies.
#[derive(Clone, Copy, Debug, PartialEq, Eq, Error)]
pub enum PlaceFault {
    /// A squitter is not a position: its kind is other.
    #[error("{text}", text = self.label())]
    NotPosition,
    /// The addresses of a pair differ.
    #[error("{text}", text = self.label())]
    OtherAddress,
    /// One squitter of a pair is airborne and one is on the ground.
    #[error("{text}", text = self.label())]
    OtherKind,
    /// Both squitters of a pair are even, or both are odd.
    #[error("{text}", text = self.label())]
    SameParity,
    /// No site is given for a pair on the ground.
    #[error("{text}", text = self.label())]
    NoSite,
    /// The latitude near the reference, or one of the close latitudes of a pair, lies outside -90 to 90 degrees.
    #[error("{text}", text = self.label())]
    OutOfRange,
    /// The zone counts (NL) of a pair differ: the count of the even latitude, then that of the odd one.
    #[error("{label}{0} {1}", label = self.label())]
    ZoneCounts(u8, u8),
}

impl PlaceFault {
    ghost use Rattle.sq_message.specs.Faults.{place_fault_label};

    /// Returns the text of the error before its numbers, at most 21 bytes.
    pub fn label(self) -> &'static str
        ensures value { result.now ≡ place_fault_label self }
        ensures short { length result.now ≤ 21 }
    {
        match self {
            PlaceFault::NotPosition => "not a position",
            PlaceFault::OtherAddress => "other address",
            PlaceFault::OtherKind => "other kind",
            PlaceFault::SameParity => "same parity",
            PlaceFault::NoSite => "no site",
            PlaceFault::OutOfRange => LocalFault::OutOfRange.label(),
            PlaceFault::ZoneCounts(even, odd) => PairFault::ZoneCounts(even, odd).label(),
        }
    }
}

impl From<LocalFault> for PlaceFault {
    ghost from_gives = { λ fault result. result ≡ of_local fault };

    fn from(fault: LocalFault) -> PlaceFault {
        match fault {
            LocalFault::OutOfRange => PlaceFault::OutOfRange,
        }
    }
}

impl From<PairFault> for PlaceFault {
    ghost from_gives = { λ fault result. result ≡ of_pair fault };

    fn from(fault: PairFault) -> PlaceFault {
        match fault {
            PairFault::OutOfRange => PlaceFault::OutOfRange,
            PairFault::ZoneCounts(even, odd) => PlaceFault::ZoneCounts(even, odd),
        }
    }
}

impl Squitter {
    /// Returns whether the squitter is an airborne or a surface position.
    pub fn is_position(&self) -> bool
        ensures { IsTrue result ↔ IsPosition (squitter_parts self.now).me }
    {
        match self.me {
            Me::Airborne(_) | Me::Surface(_) => true,
            Me::Other(_) => false,
        }
    }

    /// Returns whether the place is of the squitter's kind: both are air or both are ground.
    pub fn fits(&self, place: &Place) -> bool
        ensures { IsTrue result ↔ Fits (squitter_parts self.now).me place.now }
    {
        match (&self.me, place) {
            (Me::Airborne(_), Place::Air(_)) | (Me::Surface(_), Place::Ground(_)) => true,
            _ => false,
        }
    }
}

/// Returns the squitter with the parity and the code of a place, and all other fields unchanged (ICAO Doc 9871,
/// registers 0,5 and 0,6). The place has to be of the squitter's kind: see [`Squitter::fits`].
pub fn send_point(squitter: &Squitter, place: &Place) -> Squitter
    requires { Fits (squitter_parts squitter.now).me place.now }
    ensures { IsSentAt (squitter_parts squitter.now) place.now (squitter_parts result) }
{
    match (&squitter.me, place) {
        (Me::Airborne(own), Place::Air(point)) => send_at(squitter.head(own.fields), point),
        (Me::Surface(own), Place::Ground(point)) => send_at(squitter.head(own.fields), point),
        _ => *squitter,
    }
}

// Returns the squitter of a point: the head with the point's parity and code.
#[inline(always)]
fn send_at<F: Kind>(head: Head<F>, point: &GridPoint<F::Span>) -> Squitter
    ensures { IsSquitterOf F.kind (head_of F.kind F.fields head) point.now (squitter_parts result) }
{
    send_code(head, point.parity(), point.code())
}

/// Decodes a squitter near a reference. Returns the one point of the squitter's span and parity with its code that
/// lies within half a zone of the reference in both coordinates.
///
/// Returns `NotPosition` exactly if the squitter's kind is other. Otherwise returns `OutOfRange` exactly if the
/// latitude near the reference lies outside -90 to 90 degrees. RTCA DO-260B, appendix on compact position reporting,
/// local decoding.
pub fn place_local(squitter: &Squitter, reference: &Position) -> Result<Place, PlaceFault>
    ensures { IsLocalPlace (squitter_parts squitter.now).me reference.now result }
{
    match &squitter.me {
        Me::Airborne(airborne) => {
            let point = local::<Air>(airborne.code, airborne.parity, reference)?;
            Ok(Place::Air(point))
        }
        Me::Surface(surface) => {
            let point = local::<Ground>(surface.code, surface.parity, reference)?;
            Ok(Place::Ground(point))
        }
        Me::Other(_) => Err(PlaceFault::NotPosition),
    }
}

/// Decodes two squitters that were sent from nearly the same position, and returns the place of the newer one. In the
/// air, exactly one pair of points is close, and the site is not used. On the ground, the point is within 45 degrees
/// of the site in both coordinates.
///
/// Returns the first error of [`PlaceFault`] that applies. RTCA DO-260B, appendix on compact position reporting,
/// globally unambiguous decoding.
#[inline(always)]
pub fn place_pair(
    older: &Squitter,
    newer: &Squitter,
    site: Option<&Position>,
) -> Result<Place, PlaceFault>
    ensures { IsPairPlace (squitter_parts older.now) (squitter_parts newer.now) (option_copied site.entry) result }
{
    if !older.is_position() || !newer.is_position() {
        return Err(PlaceFault::NotPosition);
    }
    if older.address != newer.address {
        return Err(PlaceFault::OtherAddress);
    }
    match (&older.me, &newer.me) {
        (Me::Airborne(older), Me::Airborne(newer)) => air_pair(older, newer),
        (Me::Surface(older), Me::Surface(newer)) => ground_pair(older, newer, site),
        _ => Err(PlaceFault::OtherKind),
    }
}

// An even and an odd code.
#[derive(Clone, Copy)]
struct Codes {
    even: Code,
    odd: Code,
}

// Orders the codes by parity. `newest` is the parity of the newer code.
fn by_parity(newest: Parity, older: Code, newer: Code) -> Codes
    ensures even { numbers_of result.even ≡ (pair_by_parity newest older newer).even }
    ensures odd { numbers_of result.odd ≡ (pair_by_parity newest older newer).odd }
{
    match newest {
        Parity::Even => Codes {
            even: newer,
            odd: older,
        },
        Parity::Odd => Codes {
            even: older,
            odd: newer,
        },
    }
}

// Decodes two airborne positions as a pair, and returns the place of the newer one.
#[inline(always)]
fn air_pair(older: &Airborne, newer: &Airborne) -> Result<Place, PlaceFault>
    ensures { IsPlaceOfOneKind InAir older.now newer.now None result }
{
    if older.parity == newer.parity {
        return Err(PlaceFault::SameParity);
    }
    let codes = by_parity(newer.parity, older.code, newer.code);
    let point = pair_air(codes.even, codes.odd, newer.parity)?;
    Ok(Place::Air(point))
}

// Decodes two surface positions as a pair, and returns the place of the newer one.
#[inline(never)]
fn ground_pair(
    older: &Surface,
    newer: &Surface,
    site: Option<&Position>,
) -> Result<Place, PlaceFault>
    ensures { IsPlaceOfOneKind OnGround older.now newer.now (option_copied site.entry) result }
{
    if older.parity == newer.parity {
        return Err(PlaceFault::SameParity);
    }
    let Some(site) = site else {
        return Err(PlaceFault::NoSite);
    };
    let codes = by_parity(newer.parity, older.code, newer.code);
    let point = pair_ground(codes.even, codes.odd, newer.parity, site)?;
    Ok(Place::Ground(point))
}
