//! Whole requests: `IsRun`, and `WroteOrFailed` for the report if the sink for faults fails. Also the command `show`;
//! `tests/worked/show.txt` has more of it.
use crate::faulty_devices::{sink_of, source_of, taken};
use sq_commands::{ReplyRequest, Request, Status, answer};
use sq_devices::{Sink, Source};
use std::alloc::Global;
use std::io;
use std::io::{ErrorKind, Write};
use std::process::Abort;

// The exit status of a request, its output and its report.
#[derive(Drop)]
pub(crate) struct Outcome {
    pub(crate) status: Status,
    pub(crate) written: Vec<u8>,
    pub(crate) reported: Vec<u8>,
}

// `answer`, without its clauses: no test needs them.
pub(crate) fn status_of(
    alloc: Global,
    request: Request<'_>,
    input: &mut impl Source,
    output: &mut impl Sink,
    faults: &mut impl Sink,
) -> Status {
    answer(alloc, request, input, output, faults)
}

// Returns the outcome of a request with an input.
pub(crate) fn outcome_on(alloc: Global, request: Request<'_>, text: &[u8]) -> Outcome {
    let mut input = source_of(text);
    let mut output = sink_of(Vec::new(alloc));
    let mut faults = sink_of(Vec::new(alloc));
    let status = status_of(alloc, request, &mut input, &mut output, &mut faults);
    Outcome {
        status,
        written: taken(output),
        reported: taken(faults),
    }
}

// Asserts the status, the output and the report.
pub(crate) fn assert_outcome(
    rt: &impl Abort,
    ran: &Outcome,
    status: Status,
    written: &str,
    reported: &str,
) {
    assert!(rt; ran.written.as_slice() == written.as_bytes());
    assert!(rt; ran.reported.as_slice() == reported.as_bytes());
    assert!(rt; ran.status == status);
}

// Asserts the output and the status of a valid request.
pub(crate) fn assert_written(rt: &impl Abort, alloc: Global, request: Request<'_>, text: &str) {
    let ran = outcome_on(alloc, request, b"");
    assert_outcome(rt, &ran, Status::Good, text, "");
}

// Asserts the report and the status of a refused request.
pub(crate) fn assert_reported(
    rt: &impl Abort,
    alloc: Global,
    request: Request<'_>,
    status: Status,
    text: &str,
) {
    let ran = outcome_on(alloc, request, b"");
    assert_outcome(rt, &ran, status, "", text);
}

#[test]
fn shows_a_frame(rt: HostRuntime) {
    let request = Request::Reply(ReplyRequest::Show {
        frame: "8D406B902015A678D4D220AA4BDA",
    });
    let text = "address 406B90\nca 5\ntype 4\nkind other\nme 2015A678D4D220\n";
    assert_written(&rt, rt.alloc(), request, text);
}

#[test]
fn refuses_a_frame(rt: HostRuntime) {
    let request = Request::Reply(ReplyRequest::Show {
        frame: "8D40621D58C382D690C8AC2863A6",
    });
    assert_reported(&rt, rt.alloc(), request, Status::Refused, "parity 000001\n");
}

// Takes no byte.
#[derive(Drop)]
struct Full;

impl Write for Full {
    fn write(&mut self, _bytes: &[u8]) -> io::Result<usize> {
        Err(io::Error::from(ErrorKind::Other))
    }

    fn flush(&mut self) -> io::Result<()> {
        Ok(())
    }
}

// Returns the status of a request if the output takes no byte.
fn status_on_full(alloc: Global, request: Request<'_>, faults: &mut impl Sink) -> Status {
    let mut input = source_of(b"".as_slice());
    let mut output = sink_of(Full);
    status_of(alloc, request, &mut input, &mut output, faults)
}

// Asserts that a result that cannot be written is a fault, which is reported if possible.
pub(crate) fn assert_unwritten(rt: &impl Abort, alloc: Global, request: Request<'_>) {
    let mut faults = sink_of(Vec::new(alloc));
    assert!(rt; status_on_full(alloc, request, &mut faults) == Status::Broken);
    assert!(rt; taken(faults).as_slice() == b"write failed\n".as_slice());
    let mut lost = sink_of(Full);
    assert!(rt; status_on_full(alloc, request, &mut lost) == Status::Broken);
}

// Asserts the status of a request whose fault cannot be reported.
pub(crate) fn assert_unreported(
    rt: &impl Abort,
    alloc: Global,
    request: Request<'_>,
    status: Status,
) {
    let mut input = source_of(b"".as_slice());
    let mut output = sink_of(Vec::new(alloc));
    let mut lost = sink_of(Full);
    let ended = status_of(alloc, request, &mut input, &mut output, &mut lost);
    assert!(rt; ended == status);
    assert!(rt; taken(output).is_empty());
}

#[test]
fn tells_a_writer_that_fails(rt: HostRuntime) {
    let request = Request::Reply(ReplyRequest::Show {
        frame: "8D40621D58C382D690C8AC2863A7",
    });
    assert_unwritten(&rt, rt.alloc(), request);
}
