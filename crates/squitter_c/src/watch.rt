//! Whether a place can be true, by a receiver's range and the speed of aircraft.
ghost use Rattle.std.specs.Prelude.{◌≡◌};
ghost use Rattle.squitter_c.specs.Watch.{AreDoubts, IsPlaceOf, known, watch_of};

use crate::entry::{PlainFix, fix_of};
use crate::plain::{PlainPosition, position_of};
use sq_angle::Position;
use sq_track::Watch;

/// What is known of the places of aircraft: nautical miles from the site, and knots. 0 means that it is not known.
#[repr(C)]
#[derive(Clone, Copy)]
pub struct PlainWatch {
    pub range: u32,
    pub speed: u32,
}

/// Returns why a place at `moment` (ms) cannot be true: the sum of 1 if it is further from the site than the range, and
/// 2 if the aircraft would be faster than the speed since its place before; 0 if neither is known to be so. A position
/// that is out of range counts as absent.
#[unsafe(no_mangle)]
pub extern "C" fn squitter_doubts(
    watch: &PlainWatch,
    site: &PlainPosition,
    before: &PlainFix,
    moment: u64,
    place: &PlainPosition,
) -> u32
    ensures { AreDoubts watch.now site.now before.now moment place.now result }
{
    let (site, before) = (place_of(site), fix_of(before));
    let Some(place) = place_of(place) else {
        return 0;
    };
    let watch = watch_of(watch);
    let is_beyond = watch.is_beyond(site.as_ref(), &place);
    let is_too_fast = watch.is_too_fast(before.as_ref(), moment, &place);
    u32::from(is_beyond) + 2 * u32::from(is_too_fast)
}

fn watch_of(plain: &PlainWatch) -> Watch
    ensures { result ≡ watch_of plain.now }
{
    Watch {
        range: known(plain.range),
        speed: known(plain.speed),
    }
}

fn known(number: u32) -> Option<u32>
    ensures { result ≡ known number }
{
    if number == 0 { None } else { Some(number) }
}

fn place_of(plain: &PlainPosition) -> Option<Position>
    ensures { IsPlaceOf plain.now result }
{
    position_of(plain)
}
