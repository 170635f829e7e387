//! The unit of timestamps, by the gaps between those of an aircraft.
ghost use Rattle.std.specs.Prelude.{◌≡◌, ◌==◌, false, not};
ghost use Rattle.sq_feed.specs.Units.{nothing_watched, unit_of};
ghost use Rattle.squitter_c.specs.Units.{unit_number, watched_arrays};

use sq_feed::{Unit, Units};

/// Returns what timestamps (ms) of squitters seem to be, if they are not milliseconds, by the addresses of their
/// aircraft: 0 for milliseconds, or where too few show it. The shorter array counts. Only GPS time is told of a
/// receiver's clock (`clocked` is not 0).
#[unsafe(no_mangle)]
pub extern "C" fn squitter_unit_of(moments: &[u64], addresses: &[u32], clocked: u8) -> u32
    ensures { result ≡ unit_number (unit_of (not (clocked == 0)) false
        (watched_arrays nothing_watched moments.now addresses.now)) }
{
    let mut units = Units::new();
    let count = moments.len().min(addresses.len());
    for at in 0..count {
        units.hear(moments[at], addresses[at]);
    }
    unit_number(units.unit(clocked != 0, false))
}

// Returns the number of a unit.
fn unit_number(unit: Option<Unit>) -> u32
    ensures { result ≡ unit_number unit }
{
    match unit {
        None => 0,
        Some(Unit::Seconds) => 1,
        Some(Unit::Microseconds) => 2,
        Some(Unit::Nanoseconds) => 3,
        Some(Unit::AllZero) => 4,
        Some(Unit::Gps) => 5,
    }
}
