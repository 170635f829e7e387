//! The command `encode`: `IsEncodeReply`. `tests/worked/encode.txt` has the replies to more command lines.
use crate::outcomes::{assert_reported, assert_written};
use sq_commands::{EncodeWords, ReplyRequest, Request, Status};

// Returns a request for an airborne position, with this kind.
fn position_of(kind: &str) -> Request<'_> {
    Request::Reply(ReplyRequest::Encode(EncodeWords {
        kind,
        parity: "even",
        address: "40621D",
        feet: Some("38000"),
        lat: "10.4704573",
        lon: "10",
    }))
}

#[test]
fn encodes_a_position(rt: HostRuntime) {
    let text = "8D40621D58C382FAF738E411B0AA\n";
    assert_written(&rt, rt.alloc(), position_of("air"), text);
}

#[test]
fn refuses_a_word(rt: HostRuntime) {
    let request = position_of("sea");
    assert_reported(&rt, rt.alloc(), request, Status::Misused, "bad kind\n");
}
