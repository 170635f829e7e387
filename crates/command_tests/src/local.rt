//! The command `local`: `IsLocalReply`. `tests/worked/local.txt` has the replies to more command lines.
use crate::outcomes::{assert_reported, assert_unreported, assert_unwritten, assert_written};
use sq_commands::{ReplyRequest, Request, Status};

const AIR_EVEN: &str = "8D40621D58C382D690C8AC2863A7";

const OTHER: &str = "8D406B902015A678D4D220AA4BDA";

fn near<'a>(frame: &'a str, lat: &'a str, lon: &'a str) -> Request<'a> {
    Request::Reply(ReplyRequest::Local { frame, lat, lon })
}

#[test]
fn decodes_near_a_reference(rt: HostRuntime) {
    let text = "52.2572021 3.9193726\n428091/8192 64215/16384\n";
    assert_written(&rt, rt.alloc(), near(AIR_EVEN, "52.258", "3.918"), text);
}

#[test]
fn refuses_a_frame(rt: HostRuntime) {
    let request = near(OTHER, "51.990", "4.375");
    assert_reported(
        &rt,
        rt.alloc(),
        request,
        Status::Refused,
        "not a position\n",
    );
}

#[test]
fn meets_an_output_that_fails(rt: HostRuntime) {
    assert_unwritten(&rt, rt.alloc(), near(AIR_EVEN, "52.258", "3.918"));
}

#[test]
fn meets_reports_that_fail(rt: HostRuntime) {
    let damaged = near("zz", "0", "0");
    assert_unreported(&rt, rt.alloc(), damaged, Status::Refused);
    let nowhere = near(OTHER, "0", "0");
    assert_unreported(&rt, rt.alloc(), nowhere, Status::Refused);
    let misspelt = near(AIR_EVEN, "x", "0");
    assert_unreported(&rt, rt.alloc(), misspelt, Status::Misused);
}
