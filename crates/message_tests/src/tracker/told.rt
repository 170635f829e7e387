//! The results of a tracker, with positions instead of places.
use sq_angle::Position;
use sq_track::{Heard, Squitter, TrackFault, Tracker};
use std::process::Abort;

// The result of a call.
#[derive(Clone, Copy, PartialEq, Eq)]
pub enum Told {
    Fix(Position),
    Followed(Position),
    Waiting,
    Split(u8, u8),
    Far,
    NoSite,
    NotPosition,
    Refused(TrackFault),
}

impl Told {
    fn of(heard: &Heard) -> Told {
        match heard {
            Heard::Fix(place) => Told::Fix(place.position()),
            Heard::Followed(place) => Told::Followed(place.position()),
            Heard::Waiting => Told::Waiting,
            Heard::Split(even, odd) => Told::Split(*even, *odd),
            Heard::Far => Told::Far,
            Heard::NoSite => Told::NoSite,
            Heard::NotPosition => Told::NotPosition,
        }
    }

    pub fn of_reply(reply: &Result<Heard, TrackFault>) -> Told {
        match reply {
            Ok(heard) => Told::of(heard),
            Err(fault) => Told::Refused(*fault),
        }
    }
}

// Hears a squitter and converts the result here: a function that owns a tracker and also holds a place triggers a bug
// in the toolchain's borrow checker.
pub fn hear(tracker: &mut Tracker, moment: u64, squitter: &Squitter) -> Told {
    Told::of_reply(&tracker.hear(moment, squitter))
}

// Asserts that a tracker shows exactly these addresses in order, each with its timestamp (ms).
pub fn assert_table(rt: &impl Abort, tracker: &Tracker, table: &[(u32, u64)]) {
    assert!(rt; tracker.len() == table.len());
    for index in 0..=table.len() {
        assert!(rt; tracker.get(index) == table.get(index).copied());
    }
    assert_present(rt, tracker, table, 0);
    for (_, moment) in table {
        assert_present(rt, tracker, table, *moment);
        assert_present(rt, tracker, table, moment.saturating_add(1));
    }
}

// Asserts that these addresses are present, the last heard first, and none of them that was heard before `since` (ms).
fn assert_present(rt: &impl Abort, tracker: &Tracker, table: &[(u32, u64)], since: u64) {
    let mut index = 0;
    for behind in 1..=table.len() {
        let (address, moment) = table[table.len() - behind];
        if moment >= since {
            let Some((shown, contact)) = tracker.present(since, index) else {
                return assert!(rt; false);
            };
            assert!(rt; shown == address && contact.moment == moment);
            index = index.saturating_add(1);
        }
    }
    assert!(rt; tracker.present(since, index).is_none());
}
