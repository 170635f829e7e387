//! Decoding near a reference.
ghost use Rattle.std.specs.Prelude.{◌≡◌, ◌*◌, ◌<◌, ◌≤◌};
ghost use Rattle.sq_cpr.specs.Code.{numbers_of};
ghost use Rattle.sq_cpr.specs.Local.{LocalAnswerNear};

use crate::code::Code;
use crate::faults::LocalFault;
use crate::grid::{GridPoint, angle_at, lat_zones};
use crate::index::{index_within, on_circle};
use crate::span::{Span, degrees_of, repeats_of};
use sq_angle::Position;
use sq_zones::{Parity, lon_zones};

/// Decodes a code near a reference. Returns the one point with this code within half a latitude zone and, modulo 360
/// degrees, half a longitude zone of the reference. The longitude zones are those of the point's own latitude. If two
/// latitudes or longitudes lie half a zone away on either side, it takes the northern or the eastern one.
///
/// Returns `OutOfRange` exactly if the near latitude lies outside -90 to 90 degrees. RTCA DO-260B, appendix on
/// compact position reporting, local decoding.
pub fn local<S: Span>(
    code: Code,
    parity: Parity,
    reference: &Position,
) -> Result<GridPoint<S>, LocalFault>
    ensures { LocalAnswerNear S.span (numbers_of code) parity reference.now result }
{
    let span = degrees_of::<S>();
    let lat_index = index_within(
        code.lat() as i64,
        1,
        lat_zones(parity),
        span,
        &reference.lat(),
    );
    let Some(lat) = angle_at::<S>(parity, lat_index) else {
        return Err(LocalFault::OutOfRange);
    };
    let zones = lon_zones(&lat, parity);
    let turned = index_within(code.lon() as i64, 1, zones, span, &reference.lon());
    let lon_index = on_circle(i64::from(turned), zones, repeats_of::<S>());
    Ok(GridPoint::of_parts(parity, lat_index, zones, lon_index))
}
