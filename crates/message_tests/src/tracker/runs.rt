//! Worked runs of a tracker: a pair that is followed, the table, and the errors.
use super::told::{Told, assert_table, hear};
use crate::samples::{
    AIR, AIR_EVEN, AIR_ODD, GROUND_EVEN, IDENTITY, airborne, position, read, sent_in_air,
    sent_on_ground,
};
use sq_message::{Parity, Position};
use sq_track::{Received, Squitter, TrackFault, Tracker, hear_each};
use std::alloc::Global;
use std::process::Abort;
use std::test::Fail;

#[test]
fn makes_trackers(rt: HostRuntime) -> Result<(), Fail> {
    assert!(rt; Tracker::new(rt.alloc(), 0, 10_000, None).err() == Some(TrackFault::NoLimit));
    let tracker = Tracker::new(rt.alloc(), 1, 0, None)?;
    assert!(rt; tracker.len() == 0);
    assert!(rt; tracker.get(0).is_none());
    Ok(())
}

// A call, the expected result, and the whole table after it.
#[derive(Clone, Copy)]
struct Row<'a> {
    moment: u64,
    squitter: Squitter,
    told: Told,
    table: &'a [(u32, u64)],
}

fn heard(moment: u64, squitter: Squitter, told: Told, table: &[(u32, u64)]) -> Row<'_> {
    Row {
        moment,
        squitter,
        told,
        table,
    }
}

// Asserts the results of the calls of a new tracker without a site, and the table after each. The calls are made in a
// loop: the facts of each would burden the proof of all after it.
fn assert_run(
    rt: &impl Abort,
    alloc: Global,
    limit: u32,
    window: u64,
    rows: &[Row<'_>],
) -> Result<(), Fail> {
    let mut tracker = Tracker::new(alloc, limit, window, None)?;
    for row in rows {
        let told = hear(&mut tracker, row.moment, &row.squitter);
        assert!(rt; told == row.told, "at {}", row.moment);
        assert_table(rt, &tracker, row.table);
    }
    Ok(())
}

// The window includes its end. Past the window the address is dropped, and a timestamp before the last one is
// refused.
#[test]
fn pairs_within_the_window(rt: HostRuntime) -> Result<(), Fail> {
    let (even, odd) = (read(&rt, &AIR_EVEN), read(&rt, &AIR_ODD));
    let place = position(&rt, (25_261_515, 483_328), (225_873, 57_344));
    let back = Told::Refused(TrackFault::MomentBack(30_001));
    let rows = [
        heard(0, even, WAITING, &[(AIR, 0)]),
        heard(10_000, odd, Told::Fix(place), &[(AIR, 10_000)]),
        heard(20_000, odd, Told::Followed(place), &[(AIR, 20_000)]),
        heard(30_001, odd, WAITING, &[(AIR, 30_001)]),
        heard(30_000, even, back, &[(AIR, 30_001)]),
    ];
    assert_run(&rt, rt.alloc(), 1000, 10_000, &rows)
}

// Returns an even airborne squitter.
fn even(rt: &impl Abort, address: u32) -> Squitter {
    airborne(address, Parity::Even, 0, 0).expect(rt, "a squitter")
}

const WAITING: Told = Told::Waiting;

const FULL: Told = Told::Refused(TrackFault::Full);

// A table of two, after each of eleven calls: which addresses are dropped, the order of the others, and when it is
// full.
#[test]
fn shows_who_is_present(rt: HostRuntime) -> Result<(), Fail> {
    let [first, second, third] = [even(&rt, 1), even(&rt, 2), even(&rt, 3)];
    let other = read(&rt, &IDENTITY);
    let back = Told::Refused(TrackFault::MomentBack(16));
    let far_back = Told::Refused(TrackFault::MomentBack(27));
    let rows = [
        heard(0, first, WAITING, &[(1, 0)]),
        heard(5, second, WAITING, &[(1, 0), (2, 5)]),
        heard(10, third, FULL, &[(1, 0), (2, 5)]),
        heard(11, third, WAITING, &[(2, 5), (3, 11)]),
        heard(15, first, FULL, &[(2, 5), (3, 11)]),
        heard(16, first, WAITING, &[(3, 11), (1, 16)]),
        heard(16, second, FULL, &[(3, 11), (1, 16)]),
        heard(16, third, WAITING, &[(1, 16), (3, 16)]),
        heard(15, second, back, &[(1, 16), (3, 16)]),
        heard(27, other, Told::NotPosition, &[]),
        heard(26, first, far_back, &[]),
    ];
    assert_run(&rt, rt.alloc(), 2, 10, &rows)
}

// A table of one entry. An address is heard again past the window, another address replaces it, and a message without
// a position then leaves the table empty.
#[test]
fn drops_who_left_the_window(rt: HostRuntime) -> Result<(), Fail> {
    let rows = [
        heard(0, read(&rt, &AIR_EVEN), WAITING, &[(AIR, 0)]),
        heard(11, read(&rt, &AIR_ODD), WAITING, &[(AIR, 11)]),
        heard(22, read(&rt, &GROUND_EVEN), WAITING, &[(0x484175, 22)]),
        heard(33, read(&rt, &IDENTITY), Told::NotPosition, &[]),
    ];
    assert_run(&rt, rt.alloc(), 1, 10, &rows)
}

// The greatest timestamp, with a window of 0.
#[test]
fn hears_at_the_last_moment(rt: HostRuntime) -> Result<(), Fail> {
    let place = position(&rt, (25_261_515, 483_328), (225_873, 57_344));
    let last = u64::MAX;
    let table = [(AIR, last)];
    let rows = [
        heard(last, read(&rt, &AIR_EVEN), WAITING, &table),
        heard(last, read(&rt, &AIR_ODD), Told::Fix(place), &table),
        heard(last, read(&rt, &IDENTITY), Told::NotPosition, &table),
    ];
    assert_run(&rt, rt.alloc(), 1, 0, &rows)
}

// The first and the last timestamp, with the two widest windows.
#[test]
fn hears_over_the_widest_windows(rt: HostRuntime) -> Result<(), Fail> {
    let [first, second] = [even(&rt, 1), even(&rt, 2)];
    let last = u64::MAX;
    let within = [
        heard(0, first, WAITING, &[(1, 0)]),
        heard(last, second, FULL, &[(1, 0)]),
    ];
    assert_run(&rt, rt.alloc(), 1, last, &within)?;
    let table = [(2, last)];
    let past = [
        heard(0, first, WAITING, &[(1, 0)]),
        heard(last, second, WAITING, &table),
    ];
    assert_run(&rt, rt.alloc(), 1, last - 1, &past)
}

// A surface frame between two airborne ones does not disturb their pair.
#[test]
fn pairs_one_kind(rt: HostRuntime) -> Result<(), Fail> {
    let place = position(&rt, (25_261_515, 483_328), (225_873, 57_344));
    let here = position(&rt, (1046, 100), (10, 1));
    let landed = sent_on_ground(AIR, &here, Parity::Odd).expect(&rt, "a squitter");
    let rows = [
        heard(0, read(&rt, &AIR_EVEN), WAITING, &[(AIR, 0)]),
        heard(1, landed, WAITING, &[(AIR, 1)]),
        heard(2, read(&rt, &AIR_ODD), Told::Fix(place), &[(AIR, 2)]),
    ];
    assert_run(&rt, rt.alloc(), 1, 10_000, &rows)
}

// Latitudes that form no pair.
#[test]
fn pairs_no_far_latitudes(rt: HostRuntime) -> Result<(), Fail> {
    let past_the_pole = airborne(1, Parity::Odd, 87_381, 0).expect(&rt, "a squitter");
    let rows = [
        heard(0, even(&rt, 1), WAITING, &[(1, 0)]),
        heard(1, past_the_pole, Told::Far, &[(1, 1)]),
    ];
    assert_run(&rt, rt.alloc(), 1, 10_000, &rows)
}

// A fix is followed across a border of zone counts: to the even latitude of 228,731 steps, and to the odd one of
// 224,918, with 58 zones.
#[test]
fn follows_over_a_border(rt: HostRuntime) -> Result<(), Fail> {
    let here = position(&rt, (1046, 100), (10, 1));
    let before = sent_in_air(AIR, &here, Parity::Even).expect(&rt, "a squitter");
    let fixed = sent_in_air(AIR, &here, Parity::Odd).expect(&rt, "a squitter");
    let even = airborne(AIR, Parity::Even, 97_659, 80_100).expect(&rt, "a squitter");
    let odd = airborne(AIR, Parity::Odd, 93_846, 80_100).expect(&rt, "a squitter");
    let lon = (211_172 * 360, 58 * 131_072);
    let place = position(&rt, (224_694 * 360, 59 * 131_072), lon);
    let even_place = position(&rt, (228_731 * 360, 60 * 131_072), lon);
    let odd_place = position(&rt, (224_918 * 360, 59 * 131_072), lon);
    let rows = [
        heard(0, before, WAITING, &[(AIR, 0)]),
        heard(1, fixed, Told::Fix(place), &[(AIR, 1)]),
        heard(2, even, Told::Followed(even_place), &[(AIR, 2)]),
        heard(3, odd, Told::Followed(odd_place), &[(AIR, 3)]),
    ];
    assert_run(&rt, rt.alloc(), 1, 10_000, &rows)
}

fn is_named(alloc: Global, fault: TrackFault, text: &str) -> bool {
    match fault.to_string(alloc) {
        Ok(name) => name.as_str() == text,
        Err(_) => false,
    }
}

const FAULTS: [(TrackFault, &str); 4] = [
    (TrackFault::NoLimit, "limit is 0"),
    (TrackFault::Memory, "out of memory"),
    (TrackFault::MomentBack(15_000), "moment back 15000"),
    (TrackFault::Full, "table full"),
];

#[test]
fn names_faults(rt: HostRuntime) {
    for (fault, text) in FAULTS {
        assert!(rt; is_named(rt.alloc(), fault, text), "{text}");
    }
}

// Hears three squitters and returns the result for each.
fn told_each(tracker: &mut Tracker, received: &[Received; 3]) -> [Told; 3] {
    let mut heard = [Err(TrackFault::Memory); 3];
    hear_each(tracker, received, &mut heard);
    [
        Told::of_reply(&heard[0]),
        Told::of_reply(&heard[1]),
        Told::of_reply(&heard[2]),
    ]
}

// Asserts the results of three squitters for a new tracker, and its table afterwards.
fn assert_each(
    rt: &impl Abort,
    alloc: Global,
    received: &[Received; 3],
    told: &[Told; 3],
    table: &[(u32, u64)],
) -> Result<(), Fail> {
    let mut tracker = Tracker::new(alloc, 1000, 10_000, None)?;
    assert!(rt; told_each(&mut tracker, received) == *told);
    assert_table(rt, &tracker, table);
    Ok(())
}

fn received(moment: u64, squitter: Squitter) -> Received {
    Received { moment, squitter }
}

#[test]
fn hears_one_after_another(rt: HostRuntime) -> Result<(), Fail> {
    let (even, odd) = (read(&rt, &AIR_EVEN), read(&rt, &AIR_ODD));
    let calls = [received(5, even), received(4, odd), received(6, odd)];
    let place = position(&rt, (25_261_515, 483_328), (225_873, 57_344));
    let back = Told::Refused(TrackFault::MomentBack(5));
    let told = [WAITING, back, Told::Fix(place)];
    assert_each(&rt, rt.alloc(), &calls, &told, &[(AIR, 6)])
}
