//! Places of worked frames, the errors in their order, and sending a place. The tables of worked squitters are in
//! `vectors/cases/worked`, which the program and the library run.
use crate::samples::{
    AIR_EVEN, AIR_ODD, GROUND_EVEN, GROUND_ODD, IDENTITY, airborne, other, position, read, surface,
};
use sq_message::{
    Angle, Frame, GridPoint, Parity, Place, PlaceFault, Position, Squitter, laws, pins,
    place_local, place_pair, send_point, write_frame,
};
use std::process::Abort;

// Returns the squitter sent from a place of the squitter's kind.
fn sent(rt: &impl Abort, squitter: &Squitter, place: &Place) -> Squitter {
    if squitter.fits(place) {
        send_point(squitter, place)
    } else {
        panic!(rt; "another kind");
    }
}

// Returns the position of a place, or the error.
fn decoded(answer: Result<Place, PlaceFault>) -> Result<Position, PlaceFault> {
    match answer {
        Ok(place) => Ok(place.position()),
        Err(fault) => Err(fault),
    }
}

#[test]
fn decodes_near_a_reference(rt: HostRuntime) {
    let reference = position(&rt, (52_258, 1000), (3918, 1000));
    let found = decoded(place_local(&read(&rt, &AIR_EVEN), &reference));
    assert!(rt; found == Ok(position(&rt, (428_091, 8192), (64_215, 16_384))));
    let found = decoded(place_local(&read(&rt, &GROUND_ODD), &reference));
    assert!(rt; found == Ok(position(&rt, (202_304_115, 3_866_624), (2_172_069, 458_752))));
    let found = decoded(place_local(&read(&rt, &IDENTITY), &reference));
    assert!(rt; found == Err(PlaceFault::NotPosition));
    let past_the_pole = airborne(1, Parity::Even, 21_845, 0).expect(&rt, "a squitter");
    let pole = position(&rt, (89, 1), (0, 1));
    assert!(rt; decoded(place_local(&past_the_pole, &pole)) == Err(PlaceFault::OutOfRange));
}

#[test]
fn decodes_pairs_in_the_air(rt: HostRuntime) {
    let (even, odd) = (read(&rt, &AIR_EVEN), read(&rt, &AIR_ODD));
    let found = decoded(place_pair(&odd, &even, None));
    assert!(rt; found == Ok(position(&rt, (428_091, 8192), (64_215, 16_384))));
    let found = decoded(place_pair(&even, &odd, None));
    assert!(rt; found == Ok(position(&rt, (25_261_515, 483_328), (225_873, 57_344))));
}

#[test]
fn decodes_pairs_on_the_ground(rt: HostRuntime) {
    let site = position(&rt, (5199, 100), (4375, 1000));
    let (even, odd) = (read(&rt, &GROUND_EVEN), read(&rt, &GROUND_ODD));
    let found = decoded(place_pair(&even, &odd, Some(&site)));
    assert!(rt; found == Ok(position(&rt, (202_304_115, 3_866_624), (2_172_069, 458_752))));
    let found = decoded(place_pair(&odd, &even, Some(&site)));
    assert!(rt; found == Ok(position(&rt, (13_716_171, 262_144), (1_240_065, 262_144))));
}

#[test]
fn needs_no_site_in_the_air(rt: HostRuntime) {
    let (even, odd) = (read(&rt, &AIR_EVEN), read(&rt, &AIR_ODD));
    let far = position(&rt, (-80, 1), (-170, 1));
    let place = place_pair(&even, &odd, None).expect(&rt, "a place");
    assert!(rt; place_pair(&even, &odd, Some(&far)) == Ok(place));
}

// Returns why a pair cannot be decoded, without a site and with one, or `None` if it can.
fn faults_of(older: Option<Squitter>, newer: Option<Squitter>) -> Option<[PlaceFault; 2]> {
    let (older, newer) = (older?, newer?);
    let equator = Position::new(Angle::new(0, 1)?, Angle::new(0, 1)?)?;
    let without = place_pair(&older, &newer, None).err()?;
    let with = place_pair(&older, &newer, Some(&equator)).err()?;
    Some([without, with])
}

// Each pair also has every error that comes after the expected one, as far as two squitters can have them.
#[test]
fn tells_the_first_fault_of_a_pair(rt: HostRuntime) {
    let even = airborne(1, Parity::Even, 0, 0);
    assert!(rt; faults_of(even, other(2)) == Some([PlaceFault::NotPosition; 2]));
    assert!(rt; faults_of(other(2), even) == Some([PlaceFault::NotPosition; 2]));
    let elsewhere = surface(2, Parity::Even, 0, 0);
    assert!(rt; faults_of(even, elsewhere) == Some([PlaceFault::OtherAddress; 2]));
    let landed = surface(1, Parity::Even, 0, 0);
    assert!(rt; faults_of(even, landed) == Some([PlaceFault::OtherKind; 2]));
    assert!(rt; faults_of(even, even) == Some([PlaceFault::SameParity; 2]));
    assert!(rt; faults_of(landed, landed) == Some([PlaceFault::SameParity; 2]));
    let past_the_pole = airborne(1, Parity::Odd, 87_381, 0);
    assert!(rt; faults_of(even, past_the_pole) == Some([PlaceFault::OutOfRange; 2]));
    let (even, odd) = (
        airborne(7, Parity::Even, 97_659, 80_100),
        airborne(7, Parity::Odd, 93_846, 80_100),
    );
    assert!(rt; faults_of(even, odd) == Some([PlaceFault::ZoneCounts(58, 59); 2]));
    assert!(rt; faults_of(odd, even) == Some([PlaceFault::ZoneCounts(58, 59); 2]));
}

// Asserts that the place of a frame is sent as the same frame.
fn assert_local_again(rt: &impl Abort, frame: &Frame, reference: &Position) {
    let squitter = read(rt, frame);
    let place = place_local(&squitter, reference).expect(rt, "a place");
    let again = sent(rt, &squitter, &place);
    assert!(rt; again == squitter);
    assert!(rt; write_frame(&again) == *frame);
    assert!(rt; laws::local_again(&squitter, reference) == Ok((place, squitter)));
}

fn assert_pair_again(rt: &impl Abort, older: &Frame, newer: &Frame, reference: &Position) {
    let (older, newer) = (read(rt, older), read(rt, newer));
    let place = place_pair(&older, &newer, Some(reference)).expect(rt, "a place");
    assert!(rt; laws::pair_again(&older, &newer, Some(reference)) == Ok((place, newer)));
}

#[test]
fn sends_a_place_again(rt: HostRuntime) {
    let reference = position(&rt, (52_258, 1000), (3918, 1000));
    for frame in [AIR_EVEN, AIR_ODD, GROUND_EVEN, GROUND_ODD] {
        assert_local_again(&rt, &frame, &reference);
    }
    assert_pair_again(&rt, &GROUND_EVEN, &GROUND_ODD, &reference);
    assert_pair_again(&rt, &GROUND_ODD, &GROUND_EVEN, &reference);
}

#[test]
fn sends_nothing_again_where_there_is_no_place(rt: HostRuntime) {
    let reference = position(&rt, (52_258, 1000), (3918, 1000));
    let identity = read(&rt, &IDENTITY);
    assert!(rt; laws::local_again(&identity, &reference) == Err(PlaceFault::NotPosition));
    let (older, newer) = (read(&rt, &GROUND_EVEN), read(&rt, &GROUND_ODD));
    assert!(rt; laws::pair_again(&older, &newer, None) == Err(PlaceFault::NoSite));
}

#[test]
fn laws_of_places(rt: HostRuntime) {
    laws::headline();
    pins::one_local_place();
    pins::one_pair_place();
}

// The head is unchanged, and the parity and the code are those of the point.
#[test]
fn sends_another_point(rt: HostRuntime) {
    let point = GridPoint::new(Parity::Odd, 131_075, 5).expect(&rt, "a point");
    let again = sent(&rt, &read(&rt, &AIR_EVEN), &Place::Air(point));
    assert!(rt; Some(again) == airborne(0x40621D, Parity::Odd, 3, 5));
    let point = GridPoint::new(Parity::Even, -1, 131_080).expect(&rt, "a point");
    let squitter = surface(9, Parity::Odd, 1, 2).expect(&rt, "a squitter");
    let again = sent(&rt, &squitter, &Place::Ground(point));
    assert!(rt; Some(again) == surface(9, Parity::Even, 131_071, 8));
}

// Returns whether a squitter fits a place in the air, fits one on the ground, and is a position.
fn fits(rt: &impl Abort, squitter: Option<Squitter>) -> [bool; 3] {
    let squitter = squitter.expect(rt, "a squitter");
    let air = GridPoint::new(Parity::Odd, 0, 0).expect(rt, "a point");
    let ground = GridPoint::new(Parity::Odd, 0, 0).expect(rt, "a point");
    [
        squitter.fits(&Place::Air(air)),
        squitter.fits(&Place::Ground(ground)),
        squitter.is_position(),
    ]
}

#[test]
fn fits_its_kind_alone(rt: HostRuntime) {
    assert!(rt; fits(&rt, airborne(1, Parity::Even, 0, 0)) == [true, false, true]);
    assert!(rt; fits(&rt, surface(1, Parity::Even, 0, 0)) == [false, true, true]);
    assert!(rt; fits(&rt, other(1)) == [false, false, false]);
}
