//! The zones that a place lies in.
ghost use Rattle.squitter_c.specs.Frames.{frame_of};
ghost use Rattle.squitter_c.specs.Zones.{AreZonesOf, AreZonesOfPlace, AreLocalZones, TellsZones};

use crate::decode::near;
use crate::faults::{Fault, NONE, Reason};
use crate::plain::PlainPosition;
use sq_bits::Frame;
use sq_cpr::{CODES_OF_ZONE, GridPoint, Span, lat_zones};
use sq_message::Place;
use sq_zones::zone_count;

/// The zones that a position lies in. YZ and XZ are the CPR code of its frame.
/// Its latitude is `degrees / lat_zones * (lat_zone + YZ / 2^17)`. Its longitude is
/// `degrees / lon_zones * (lon_zone + XZ / 2^17)`, minus 360 degrees if that is 180 or more.
#[repr(C)]
#[derive(Clone, Copy)]
pub struct PlainZones {
    /// The zone of latitude, j: negative in the south.
    pub lat_zone: i32,
    /// The zone of longitude, m: from 0, eastwards from the prime meridian.
    pub lon_zone: u32,
    /// The degrees that the zones divide: 360 in the air, 90 on the ground.
    pub degrees: u32,
    /// The number of zones of latitude: 60 even, 59 odd.
    pub lat_zones: u8,
    /// The zone count of the position's latitude, NL.
    pub zone_count: u8,
    /// The number of zones of longitude: NL even; odd, one less and at least 1.
    pub lon_zones: u8,
    /// The parity of the code: 0 even, 1 odd.
    pub odd: u8,
}

/// Writes the zones that the position of [`squitter_local`] lies in. The faults are those of [`squitter_local`], in
/// the same order. RTCA DO-260B, appendix on compact position reporting, local decoding.
///
/// [`squitter_local`]: crate::decode::squitter_local
#[unsafe(no_mangle)]
pub extern "C" fn squitter_local_zones(
    frame: &[u8; 14],
    reference: &PlainPosition,
    out: &mut PlainZones,
) -> Fault
    ensures { AreLocalZones (frame_of frame.now) reference.now out.old out.new result }
{
    give(near(&Frame(*frame), reference), out)
}

// Writes the zones of the place, or reports why there is none.
fn give(answer: Result<Place, Reason>, out: &mut PlainZones) -> Fault
    ensures { TellsZones answer out.old out.new result }
{
    match answer {
        Ok(place) => {
            *out = zones_of_place(&place);
            NONE
        }
        Err(reason) => Fault::of(reason),
    }
}

fn zones_of_place(place: &Place) -> PlainZones
    ensures { AreZonesOfPlace place.now result }
{
    match place {
        Place::Air(point) => zones_of(point),
        Place::Ground(point) => zones_of(point),
    }
}

// Returns the zones of a point. Each of its indices is 2^17 times the index of its zone, plus its code.
fn zones_of<S: Span>(point: &GridPoint<S>) -> PlainZones
    ensures { AreZonesOf S.span point.now result }
{
    PlainZones {
        lat_zone: point.lat_index().div_euclid(CODES_OF_ZONE as i32),
        lon_zone: point.lon_index() / CODES_OF_ZONE as u32,
        degrees: S::DEGREES,
        lat_zones: lat_zones(point.parity()),
        zone_count: zone_count(&point.position().lat()),
        lon_zones: point.zones(),
        odd: point.parity().index(),
    }
}
