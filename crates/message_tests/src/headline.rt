//! Worked positions sent, read and sent again: the calls of the headline in sequence.
use crate::samples::{AIR_EVEN, AIR_ODD, GROUND_EVEN, GROUND_ODD, IDENTITY, position, read};
use crate::sending::{air_head, ground_head};
use sq_angle::Position;
use sq_message::{Frame, Parity, laws, place_local, place_pair, read_frame, worked};
use std::process::Abort;

// The even position on the ground with this head: 8C4841753800038733C8CDE5B7BB.
const GROUND_WITHOUT_MOVEMENT: Frame = Frame([
    0x8C, 0x48, 0x41, 0x75, 0x38, 0x00, 0x03, 0x87, 0x33, 0xC8, 0xCD, 0xE5, 0xB7, 0xBB,
]);

#[test]
fn reads_near_a_reference_what_was_sent(rt: HostRuntime) {
    let here = position(&rt, (522_572_021, 10_000_000), (39_193_726, 10_000_000));
    let near = position(&rt, (52_258, 1000), (3918, 1000));
    let (frame, place) = laws::read_near_of_sent(air_head(&rt), Parity::Even, &here, &near);
    assert!(rt; frame == AIR_EVEN);
    let point = position(&rt, (428_091, 8192), (64_215, 16_384));
    assert!(rt; place.expect(&rt, "a place").position() == point);
    let here = position(&rt, (523_230_400, 10_000_000), (47_304_726, 10_000_000));
    let near = position(&rt, (5199, 100), (4375, 1000));
    let (frame, place) = laws::read_near_of_sent(ground_head(&rt), Parity::Even, &here, &near);
    assert!(rt; frame == GROUND_WITHOUT_MOVEMENT);
    let point = position(&rt, (13_716_171, 262_144), (1_240_065, 262_144));
    assert!(rt; place.expect(&rt, "a place").position() == point);
}

#[test]
fn reads_pairs_that_were_sent(rt: HostRuntime) {
    let head = air_head(&rt);
    let even = position(&rt, (428_091, 8192), (64_215, 16_384));
    let odd = position(&rt, (25_261_515, 483_328), (225_873, 57_344));
    for (newest, point) in [(Parity::Even, even), (Parity::Odd, odd)] {
        let (first, second, place) = laws::read_pair_of_sent(head, &even, head, &odd, newest, None);
        assert!(rt; first == AIR_EVEN && second == AIR_ODD);
        assert!(rt; place.expect(&rt, "a place").position() == point);
    }
    let head = ground_head(&rt);
    let site = position(&rt, (5199, 100), (4375, 1000));
    let even = position(&rt, (13_716_171, 262_144), (1_240_065, 262_144));
    let odd = position(&rt, (202_304_115, 3_866_624), (2_172_069, 458_752));
    for (newest, point) in [(Parity::Even, even), (Parity::Odd, odd)] {
        let (first, _, place) = laws::read_pair_of_sent(
            head,
            &even,
            head,
            &odd,
            newest,
            Some(&site),
        );
        assert!(rt; first == GROUND_WITHOUT_MOVEMENT);
        assert!(rt; place.expect(&rt, "a place").position() == point);
    }
}

// The points are those of the frames that are worked in the literature.
#[test]
fn reads_worked_positions(rt: HostRuntime) {
    let head = air_head(&rt);
    let even = position(&rt, (428_091, 8192), (64_215, 16_384));
    let odd = position(&rt, (25_261_515, 483_328), (225_873, 57_344));
    let near = worked::read_near(head).expect(&rt, "a place");
    assert!(rt; near.position() == even);
    for (newest, point) in [(Parity::Even, even), (Parity::Odd, odd)] {
        let place = worked::read_pair(head, newest).expect(&rt, "a place");
        assert!(rt; place.position() == point);
    }
}

#[test]
fn reads_worked_positions_on_the_ground(rt: HostRuntime) {
    let head = ground_head(&rt);
    let even = position(&rt, (13_716_171, 262_144), (1_240_065, 262_144));
    let odd = position(&rt, (202_304_115, 3_866_624), (2_172_069, 458_752));
    let near = worked::read_near_on_ground(head).expect(&rt, "a place");
    assert!(rt; near.position() == odd);
    for (newest, point) in [(Parity::Even, even), (Parity::Odd, odd)] {
        let place = worked::read_pair_on_ground(head, newest).expect(&rt, "a place");
        assert!(rt; place.position() == point);
    }
}

// The codes are those of the worked pair on the ground.
#[test]
fn reads_a_worked_pair_across_180_degrees(rt: HostRuntime) {
    let head = ground_head(&rt);
    let even = position(&rt, (13_716_171, 262_144), (-45_945_855, 262_144));
    let odd = position(&rt, (202_304_115, 3_866_624), (-80_403_291, 458_752));
    for (newest, point) in [(Parity::Even, even), (Parity::Odd, odd)] {
        let place = worked::read_pair_across_180_degrees(head, newest).expect(&rt, "a place");
        assert!(rt; place.position() == point);
    }
}

fn assert_sent_again_near(rt: &impl Abort, frame: &Frame, reference: &Position) {
    let sent = laws::sent_again_near(frame, reference);
    let (squitter, place, again) = sent.expect(rt, "a place");
    assert!(rt; read_frame(frame) == Ok(squitter));
    assert!(rt; place_local(&squitter, reference) == Ok(place));
    assert!(rt; again == *frame);
}

fn assert_sent_again_of_pair(rt: &impl Abort, older: &Frame, newer: &Frame, reference: &Position) {
    let sent = laws::sent_again_of_pair(older, newer, Some(reference));
    let (squitter, place, again) = sent.expect(rt, "a place");
    let earlier = read(rt, older);
    assert!(rt; read_frame(newer) == Ok(squitter));
    assert!(rt; place_pair(&earlier, &squitter, Some(reference)) == Ok(place));
    assert!(rt; again == *newer);
}

#[test]
fn sends_read_frames_again(rt: HostRuntime) {
    let reference = position(&rt, (52_258, 1000), (3918, 1000));
    for frame in [AIR_EVEN, AIR_ODD, GROUND_EVEN, GROUND_ODD] {
        assert_sent_again_near(&rt, &frame, &reference);
    }
    assert_sent_again_of_pair(&rt, &AIR_EVEN, &AIR_ODD, &reference);
    assert_sent_again_of_pair(&rt, &AIR_ODD, &AIR_EVEN, &reference);
    assert_sent_again_of_pair(&rt, &GROUND_EVEN, &GROUND_ODD, &reference);
    assert_sent_again_of_pair(&rt, &GROUND_ODD, &GROUND_EVEN, &reference);
}

#[test]
fn sends_nothing_again_where_there_is_no_place(rt: HostRuntime) {
    let reference = position(&rt, (52_258, 1000), (3918, 1000));
    assert!(rt; laws::sent_again_near(&IDENTITY, &reference).is_none());
    assert!(rt; laws::sent_again_near(&Frame([0; 14]), &reference).is_none());
    assert!(rt; laws::sent_again_of_pair(&AIR_EVEN, &AIR_EVEN, None).is_none());
    assert!(rt; laws::sent_again_of_pair(&GROUND_EVEN, &GROUND_ODD, None).is_none());
}
