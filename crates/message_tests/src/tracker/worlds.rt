//! Worlds without movement, which are slow by the laws: at a pole, over the 180th meridian and on a border of zone
//! counts, in the air and on the ground. Each has a fix: the point of the odd grid nearest to the sender.
use super::told::Told;
use crate::samples::{AIR, position, sent_in_air, sent_on_ground};
use sq_angle::Position;
use sq_message::Parity;
use sq_track::{Received, Squitter, TrackFault, Tracker, hear_each, worked};
use std::alloc::Global;
use std::process::Abort;
use std::test::Fail;

// Hears an even squitter and, a millisecond later, an odd one. Returns the result for the odd one.
fn told_of_odd(tracker: &mut Tracker, even: Squitter, odd: Squitter) -> Told {
    let received = [
        Received {
            moment: 0,
            squitter: even,
        },
        Received {
            moment: 1,
            squitter: odd,
        },
    ];
    let mut heard = [Err(TrackFault::Memory); 2];
    hear_each(tracker, &received, &mut heard);
    Told::of_reply(&heard[1])
}

// The position of a sender, the site, and the point of the fix.
#[derive(Clone, Copy)]
struct World {
    from: Position,
    site: Position,
    point: Position,
}

fn told_in_air(tracker: &mut Tracker, from: &Position) -> Option<Told> {
    let even = sent_in_air(AIR, from, Parity::Even)?;
    let odd = sent_in_air(AIR, from, Parity::Odd)?;
    Some(told_of_odd(tracker, even, odd))
}

fn told_on_ground(tracker: &mut Tracker, from: &Position) -> Option<Told> {
    let even = sent_on_ground(AIR, from, Parity::Even)?;
    let odd = sent_on_ground(AIR, from, Parity::Odd)?;
    Some(told_of_odd(tracker, even, odd))
}

fn assert_fixed_in_air(rt: &impl Abort, alloc: Global, world: World) -> Result<(), Fail> {
    let mut tracker = Tracker::new(alloc, 1, 10, Some(world.site))?;
    assert!(rt; told_in_air(&mut tracker, &world.from) == Some(Told::Fix(world.point)));
    Ok(())
}

fn assert_fixed_on_ground(rt: &impl Abort, alloc: Global, world: World) -> Result<(), Fail> {
    let mut tracker = Tracker::new(alloc, 1, 10, Some(world.site))?;
    assert!(rt; told_on_ground(&mut tracker, &world.from) == Some(Told::Fix(world.point)));
    Ok(())
}

#[test]
fn fixes_over_the_180th_meridian(rt: HostRuntime) -> Result<(), Fail> {
    let world = World {
        from: position(&rt, (0, 1), (180, 1)),
        site: position(&rt, (1, 1), (-179, 1)),
        point: position(&rt, (0, 1), (-180, 1)),
    };
    assert_fixed_in_air(&rt, rt.alloc(), world)?;
    assert_fixed_on_ground(&rt, rt.alloc(), world)
}

#[test]
fn fixes_at_a_pole(rt: HostRuntime) -> Result<(), Fail> {
    let pole = position(&rt, (90, 1), (0, 1));
    let world = World {
        from: pole,
        site: pole,
        point: pole,
    };
    assert_fixed_in_air(&rt, rt.alloc(), world)?;
    assert_fixed_on_ground(&rt, rt.alloc(), world)
}

// At 87 degrees, beyond which there is one zone, the nearest odd latitude is the one below. It is 1,868,868 of the 59
// * 131,072 steps in 360 degrees, and 7,475,473 of the same number in 90 degrees.
#[test]
fn fixes_on_a_border_of_zone_counts(rt: HostRuntime) -> Result<(), Fail> {
    let in_air = World {
        from: position(&rt, (87, 1), (180, 1)),
        site: position(&rt, (86, 1), (179, 1)),
        point: position(&rt, (672_792_480, 7_733_248), (-180, 1)),
    };
    assert_fixed_in_air(&rt, rt.alloc(), in_air)?;
    let on_ground = World {
        point: position(&rt, (672_792_570, 7_733_248), (-180, 1)),
        ..in_air
    };
    assert_fixed_on_ground(&rt, rt.alloc(), on_ground)
}

#[test]
fn laws_of_worked_arrivals(rt: HostRuntime) {
    worked::some_arrivals();
    worked::true_places();
    worked::two_are_true();
    worked::second_is_fixed();
    worked::third_is_followed();
}

#[test]
fn laws_of_worked_arrivals_on_the_ground(rt: HostRuntime) {
    worked::some_arrivals_on_ground();
    worked::true_places_on_ground();
    worked::two_are_true_on_ground();
    worked::second_is_fixed_on_ground();
    worked::third_is_followed_on_ground();
    worked::fourth_is_fixed_on_ground();
}
