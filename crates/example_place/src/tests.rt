//! Decoding texts to places. The values are worked examples, which are also in the README.
use super::*;
use sq_message::{Angle, PlaceFault};
use sq_text::LineFault;
use std::alloc::Global;
use std::process::Abort;

fn position(rt: &impl Abort, lat: (i64, u64), lon: (i64, u64)) -> Position {
    let lat = Angle::new(lat.0, lat.1);
    let lon = Angle::new(lon.0, lon.1);
    let (Some(lat), Some(lon)) = (lat, lon) else {
        panic!(rt; "no angles");
    };
    let Some(position) = Position::new(lat, lon) else {
        panic!(rt; "no position");
    };
    position
}

#[test]
fn finds_the_place_of_a_text(rt: HostRuntime) {
    let reference = position(&rt, (52_258, 1000), (3_918, 1000));
    let Ok(place) = place_near("*8D40621D58C382D690C8AC2863A7;", &reference) else {
        panic!(rt; "no place");
    };
    assert!(rt; place.position() == position(&rt, (428_091, 8192), (64_215, 16_384)));
}

#[test]
fn finds_the_place_of_two_texts(rt: HostRuntime) {
    let older = "8C4841753AAB238733C8CD4020B1";
    let newer = "8C4841753A8A35323FAEBDAC702D";
    let site = position(&rt, (51_990, 1000), (4_375, 1000));
    let Ok(place) = place_of_texts(older, newer, Some(&site)) else {
        panic!(rt; "no place");
    };
    assert!(rt; place.position() == position(&rt, (202_304_115, 3_866_624), (2_172_069, 458_752)));
}

#[test]
fn refuses_texts_and_places(rt: HostRuntime) {
    let reference = position(&rt, (52, 1), (4, 1));
    let damaged = place_near("8D40621D58C382D690C8AC2863A6", &reference);
    assert!(rt; damaged == Err(Fault::OfText(LineFault::Parity(1))));
    let other = place_near("8D406B902015A678D4D220AA4BDA", &reference);
    assert!(rt; other == Err(Fault::OfPlace(PlaceFault::NotPosition)));
}

#[test]
fn compares_faults(rt: HostRuntime) {
    let damaged = Fault::OfText(LineFault::Parity(1));
    assert!(rt; laws::equal_faults(&damaged, &Fault::OfText(LineFault::Parity(1))));
    assert!(rt; !laws::equal_faults(&damaged, &Fault::OfText(LineFault::Parity(2))));
    assert!(rt; !laws::equal_faults(&damaged, &Fault::OfPlace(PlaceFault::NotPosition)));
}

// Returns the `Display` text of an error.
fn shown(alloc: Global, fault: Fault) -> String {
    format!(in alloc; "{fault}").unwrap_or(String::new(alloc))
}

#[test]
fn shows_faults_as_the_program_does(rt: HostRuntime) {
    let of_text = shown(rt.alloc(), Fault::OfText(LineFault::Parity(1)));
    assert!(rt; of_text.as_str() == "parity 000001");
    let of_place = shown(rt.alloc(), Fault::OfPlace(PlaceFault::NotPosition));
    assert!(rt; of_place.as_str() == "not a position");
}
