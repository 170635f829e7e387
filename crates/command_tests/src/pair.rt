//! The command `pair`: `IsPairReply`. `tests/worked/pair.txt` has the replies to more command lines.
use crate::outcomes::{assert_reported, assert_unreported, assert_unwritten, assert_written};
use sq_commands::{ReplyRequest, Request, Status};

const AIR_EVEN: &str = "8D40621D58C382D690C8AC2863A7";

const AIR_ODD: &str = "8D40621D58C386435CC412692AD6";

const OTHER: &str = "8D406B902015A678D4D220AA4BDA";

// Returns a request for a pair without a site.
fn bare<'a>(older: &'a str, newer: &'a str) -> Request<'a> {
    Request::Reply(ReplyRequest::Pair {
        older,
        newer,
        lat: None,
        lon: None,
    })
}

#[test]
fn decodes_a_pair(rt: HostRuntime) {
    let text = "52.2572021 3.9193726\n428091/8192 64215/16384\n";
    assert_written(&rt, rt.alloc(), bare(AIR_ODD, AIR_EVEN), text);
}

#[test]
fn refuses_a_pair(rt: HostRuntime) {
    let request = bare(AIR_EVEN, OTHER);
    assert_reported(
        &rt,
        rt.alloc(),
        request,
        Status::Refused,
        "not a position\n",
    );
}

#[test]
fn meets_an_output_that_fails(rt: HostRuntime) {
    assert_unwritten(&rt, rt.alloc(), bare(AIR_ODD, AIR_EVEN));
}

#[test]
fn meets_reports_that_fail(rt: HostRuntime) {
    assert_unreported(&rt, rt.alloc(), bare("zz", AIR_EVEN), Status::Refused);
    assert_unreported(&rt, rt.alloc(), bare(AIR_ODD, "zz"), Status::Refused);
    assert_unreported(&rt, rt.alloc(), bare(AIR_ODD, OTHER), Status::Refused);
    let half = Request::Reply(ReplyRequest::Pair {
        older: AIR_ODD,
        newer: AIR_EVEN,
        lat: Some("0"),
        lon: None,
    });
    assert_unreported(&rt, rt.alloc(), half, Status::Misused);
}
