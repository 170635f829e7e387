//! Allocations that fail: the clauses `memory`, `known` and `err` of `Tracker::hear`. Each run passes without
//! failures, and also if any one allocation fails, as under `rt try --test --fail-alloc N`. The refused call then
//! changes nothing, and it succeeds when it is repeated.
use super::told::{Told, assert_table, hear};
use crate::samples::{AIR, AIR_EVEN, GROUND_EVEN, GROUND_ODD, airborne, other, read};
use sq_message::Parity;
use sq_track::{Squitter, TrackFault, Tracker};
use std::process::Abort;
use std::test::Fail;

const WAITING: Told = Told::Waiting;

// Returns an even airborne squitter.
fn even(rt: &impl Abort, address: u32) -> Squitter {
    airborne(address, Parity::Even, 0, 0).expect(rt, "a squitter")
}

// Asserts that a tracker shows these addresses, and that its last timestamp is `last`.
fn assert_shown(rt: &impl Abort, tracker: &mut Tracker, last: u64, table: &[(u32, u64)]) {
    assert_table(rt, tracker, table);
    // a squitter at the last timestamp is still heard, and one before it is refused with the last timestamp
    let other = other(1).expect(rt, "a squitter");
    assert!(rt; hear(tracker, last, &other) == Told::NotPosition);
    if last > 0 {
        let back = Told::Refused(TrackFault::MomentBack(last));
        assert!(rt; hear(tracker, last - 1, &other) == back);
    }
}

// Makes a call, and repeats it if an allocation fails. Returns the result.
fn hear_with_memory(
    rt: &impl Abort,
    tracker: &mut Tracker,
    call: (u64, Squitter),
    last: u64,
    table: &[(u32, u64)],
) -> Told {
    let (moment, squitter) = call;
    let told = hear(tracker, moment, &squitter);
    if told != Told::Refused(TrackFault::Memory) {
        return told;
    }
    assert_shown(rt, tracker, last, table);
    hear(tracker, moment, &squitter)
}

#[test]
fn refused_growth_changes_nothing(rt: HostRuntime) -> Result<(), Fail> {
    let mut tracker = Tracker::new(rt.alloc(), 1, 10_000, None)?;
    let air = read(&rt, &AIR_EVEN);
    let (ground_even, ground_odd) = (read(&rt, &GROUND_EVEN), read(&rt, &GROUND_ODD));
    assert!(rt; hear_with_memory(&rt, &mut tracker, (0, air), 0, &[]) == WAITING);
    let before = [(AIR, 0)];
    assert!(rt; hear(&mut tracker, 10_000, &ground_even) == Told::Refused(TrackFault::Full));
    // the room is allocated before the stale address is dropped
    let told = hear_with_memory(&rt, &mut tracker, (10_001, ground_even), 0, &before);
    assert!(rt; told == WAITING);
    // an address that is present needs no allocation
    assert!(rt; hear(&mut tracker, 10_001, &ground_odd) == Told::NoSite);
    assert_shown(&rt, &mut tracker, 10_001, &[(0x484175, 10_001)]);
    Ok(())
}

// A table that grows, one address after another.
#[test]
fn refused_growths_of_a_table(rt: HostRuntime) -> Result<(), Fail> {
    let mut tracker = Tracker::new(rt.alloc(), 100, 10, None)?;
    let mut table = [(0, 0); 40];
    for address in 0..40u32 {
        let index = address as usize;
        let last = if address == 0 { 0 } else { 1 };
        let told = hear_with_memory(
            &rt,
            &mut tracker,
            (1, even(&rt, address)),
            last,
            &table[..index],
        );
        assert!(rt; told == WAITING);
        table[index] = (address, 1);
    }
    assert_shown(&rt, &mut tracker, 1, &table);
    for address in 0..40u32 {
        assert!(rt; hear(&mut tracker, 1, &even(&rt, address)) == WAITING);
    }
    Ok(())
}
