//! The report of a fault is its `Display`: for an angle after the angle's name, and for a run that breaks off.
use crate::faulty_devices::{sink_of, taken};
use crate::outcomes::assert_reported;
use sq_angle::AngleFault;
use sq_commands::{ReplyRequest, Request, RunFault, Status, break_off};
use std::alloc::Global;
use std::fmt;
use std::process::Abort;

// Returns a name and a fault's `Display`, as a line.
fn line_of(alloc: Global, name: &str, fault: impl fmt::Display + Drop) -> String {
    format!(in alloc; "{name}{fault}\n").unwrap_or(String::new(alloc))
}

fn near<'a>(lat: &'a str, lon: &'a str) -> Request<'a> {
    Request::Reply(ReplyRequest::Local {
        frame: "8D40621D58C382D690C8AC2863A7",
        lat,
        lon,
    })
}

// Asserts the report for a word that is neither a latitude nor a longitude.
fn assert_named(rt: &impl Abort, alloc: Global, word: &str, fault: AngleFault) {
    let lat = line_of(alloc, "lat ", fault);
    let lon = line_of(alloc, "lon ", fault);
    let status = Status::Misused;
    assert_reported(rt, alloc, near(word, "0"), status, lat.as_str());
    assert_reported(rt, alloc, near("0", word), status, lon.as_str());
}

#[test]
fn reports_faults_of_angles_by_name(rt: HostRuntime) {
    assert_named(&rt, rt.alloc(), "x", AngleFault::NotANumber);
    assert_named(
        &rt,
        rt.alloc(),
        "0.0000000000001",
        AngleFault::TooManyDecimals,
    );
    assert_named(&rt, rt.alloc(), "361", AngleFault::OutOfRange);
}

// Asserts the report for a run that breaks off.
fn assert_broken_off(rt: &impl Abort, alloc: Global, fault: RunFault) {
    let mut faults = sink_of(Vec::new(alloc));
    break_off(fault, &mut faults);
    let line = line_of(alloc, "", fault);
    assert!(rt; taken(faults).as_slice() == line.as_bytes());
}

#[test]
fn reports_what_breaks_a_run_off(rt: HostRuntime) {
    for fault in [RunFault::Read, RunFault::Write, RunFault::Memory] {
        assert_broken_off(&rt, rt.alloc(), fault);
    }
}
