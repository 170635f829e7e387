//! Restoring the entry of an address: which fixes are refused, and what is heard near a fix that no frames gave.
use super::told::{Told, hear};
use crate::samples::{AIR, AIR_EVEN, AIR_ODD, position, read};
use sq_message::{Received, Squitter};
use sq_track::{Contact, LastFix, RestoreFault, Side, Tracker};
use std::alloc::Global;
use std::process::Abort;
use std::test::Fail;

// A fix, whether the even frame is kept beside the odd one, and what the odd frame gives after restoring. That is
// `None` if the contact is refused.
#[derive(Clone, Copy)]
struct Row {
    fix: LastFix,
    has_even: bool,
    told: Option<Told>,
}

// Returns a fix at a moment, at these fractions of a degree.
fn fix(rt: &impl Abort, moment: u64, lat: (i64, u64), lon: (i64, u64)) -> LastFix {
    LastFix {
        moment,
        position: position(rt, lat, lon),
    }
}

// Returns the contact of a worked pair, the even frame at 0 and the odd one at 10, with this fix.
fn contact_of(even: Option<Received>, odd: Squitter, fix: LastFix) -> Contact {
    let none = Side {
        even: None,
        odd: None,
        fix: None,
    };
    Contact {
        moment: 10,
        airborne: Side {
            even,
            odd: Some(Received {
                moment: 10,
                squitter: odd,
            }),
            fix: Some(fix),
        },
        surface: none,
    }
}

// Asserts what a tracker with a window of 15 does with each row. At 20 the even frame is too old for a pair.
fn assert_restored(rt: &impl Abort, alloc: Global, rows: &[Row]) -> Result<(), Fail> {
    let (even, odd) = (read(rt, &AIR_EVEN), read(rt, &AIR_ODD));
    let kept = Received {
        moment: 0,
        squitter: even,
    };
    for row in rows {
        let mut tracker = Tracker::new(alloc, 1, 15, None)?;
        tracker.resume(Some(10));
        let contact = contact_of(row.has_even.then_some(kept), odd, row.fix);
        let restored = tracker.restore(AIR, &contact);
        match row.told {
            Some(told) => {
                assert!(rt; restored.is_ok());
                assert!(rt; hear(&mut tracker, 20, &odd) == told);
            }
            None => assert!(rt; restored == Err(RestoreFault::Refused)),
        }
    }
    Ok(())
}

// The pair's fix is the point of the odd grid with the latitude index 1,122,734 and the longitude index 50,194. There
// are 35 odd zones of longitude there, and 58 at the equator.
#[test]
fn restores_a_fix_of_the_grid(rt: HostRuntime) -> Result<(), Fail> {
    const LAT: u64 = 59 * 131_072;
    const LON: u64 = 35 * 131_072;
    let (north, east) = (1_122_734 * 360, 50_194 * 360);
    let own = fix(&rt, 10, (north, LAT), (east, LON));
    let place = Some(Told::Followed(own.position));
    let equator = fix(&rt, 10, (0, LAT), (0, 58 * 131_072));
    let south = position(&rt, (-56_914 * 360, LAT), (east, 58 * 131_072));
    let of = |fix, has_even, told| Row {
        fix,
        has_even,
        told,
    };
    let rows = [
        of(own, true, place),
        of(fix(&rt, 9, (north, LAT), (east, LON)), true, place),
        of(fix(&rt, 10, (north + 360, LAT), (east, LON)), true, place),
        of(equator, true, Some(Told::Followed(south))),
        of(fix(&rt, 11, (north, LAT), (east, LON)), true, None),
        of(own, false, None),
        of(fix(&rt, 10, (north + 1, LAT), (east, LON)), true, None),
        of(fix(&rt, 10, (north, LAT), (east + 1, LON)), true, None),
        of(fix(&rt, 10, (north / 2, LAT / 2), (east, LON)), true, None),
        of(fix(&rt, 10, (north, LAT), (east, 36 * 131_072)), true, None),
        of(fix(&rt, 10, (1, 3), (1, 3)), true, None),
    ];
    assert_restored(&rt, rt.alloc(), &rows)
}
