//! The command `check` over inputs in pieces, and over devices that fail: the clauses `whole`, `unread` and
//! `unwritten` of `run_log`, and `IsCheckRun` at status 3. `tests/worked/check.txt` has the results for odd lines.
use crate::faulty_devices::{
    End, Pieces, Room, lines_in, pieces_of, room_of, sink_of, source_of, taken,
};
use crate::outcomes::{outcome_on, status_of};
use sq_commands::{Request, Status, run_check};
use sq_devices::{Reading, Sink, Source};
use sq_log::{RunFault, Tally};
use std::alloc::Global;
use std::io;
use std::io::Read;
use std::process::Abort;

// Ten lines: two frames, an empty line, six refused or other lines, and a frame with no line feed.
const LINES: &[u8] =
    b"*8D40621D58C382D690C8AC2863A7;\n8d40621d58c386435cc412692ad6\n\n5D40621D000000\n8D40621D58C382D690C8AC2863A6\n90406B902015A678D4D220AA4BDA\n8D406B902015A678D4D220AA4BDA\n8D40621D58C382D690C8AC2863AG\n*8D40621D58C382D690C8AC2863A7\n8C4841753AAB238733C8CD4020B1";

// The results for these lines.
const ANSWERS: &[u8] =
    b"1 ok 40621D air even 93000 51372\n2 ok 40621D air odd 74158 50194\n4 short frame\n5 parity 000001\n6 not DF17 18\n7 ok 406B90 other 4\n8 bad digit 28\n9 bad wrapping\n10 ok 484175 ground even 115609 116941\n";

// `check` with no option.
const AS_LINES: Request<'static> = Request::Check { format: None };

// `run_check` without its clauses.
fn check(source: &mut impl Source, sink: &mut impl Sink) -> Result<Tally, RunFault> {
    run_check(source, sink)
}

const ALL: Tally = Tally {
    good: 4,
    refused: 5,
};

#[test]
fn checks_lines(rt: HostRuntime) {
    let outcome = outcome_on(rt.alloc(), AS_LINES, LINES);
    assert!(rt; outcome.written.as_slice() == ANSWERS);
    assert!(rt; outcome.status == Status::Refused);
    assert!(rt; outcome.reported.is_empty());
}

// Asserts how a run of pieces ends, and how many bytes of the results were written.
fn assert_answered(
    rt: &impl Abort,
    alloc: Global,
    pieces: Pieces,
    ended: Result<Tally, RunFault>,
    written: usize,
) {
    let mut source = source_of(pieces);
    let mut sink = sink_of(Vec::new(alloc));
    assert!(rt; check(&mut source, &mut sink) == ended);
    let front = ANSWERS.get(..written).unwrap_or(b"");
    assert!(rt; taken(sink).as_slice() == front);
}

#[test]
fn checks_lines_in_pieces(rt: HostRuntime) {
    for size in [1, 2, 3, 63, 64, 65] {
        let pieces = pieces_of(LINES, size, usize::MAX);
        assert_answered(&rt, rt.alloc(), pieces, Ok(ALL), ANSWERS.len());
    }
}

// How many bytes the results for the first lines have, by the number of lines.
const ANSWERED: [usize; 11] = [0, 33, 65, 65, 79, 95, 109, 129, 144, 159, 198];

#[test]
fn answers_what_was_read_before_a_fault(rt: HostRuntime) {
    for fails_at in 0..LINES.len() {
        let answered = ANSWERED[lines_in(LINES, fails_at).min(10)].min(ANSWERS.len());
        let pieces = pieces_of(LINES, 64, fails_at);
        assert_answered(&rt, rt.alloc(), pieces, Err(RunFault::Read), answered);
    }
}

// Asserts how a run of the lines into a writer ends, and what the writer took of the results.
fn assert_taken(rt: &impl Abort, room: Room, ended: Result<Tally, RunFault>, count: usize) {
    let mut source = source_of(LINES);
    let mut sink = sink_of(room);
    assert!(rt; check(&mut source, &mut sink) == ended);
    let front = ANSWERS.get(..count).unwrap_or(b"");
    assert!(rt; taken(sink).taken.as_slice() == front);
}

#[test]
fn leaves_what_a_writer_took(rt: HostRuntime) {
    for room in 0..ANSWERS.len() {
        let full = room_of(rt.alloc(), room, End::Error);
        assert_taken(&rt, full, Err(RunFault::Write), room);
        let idle = room_of(rt.alloc(), room, End::Nothing);
        assert_taken(&rt, idle, Err(RunFault::Write), room);
    }
}

#[test]
fn writes_a_byte_a_call(rt: HostRuntime) {
    let mut slow = room_of(rt.alloc(), 1000, End::Error);
    slow.size = 1;
    assert_taken(&rt, slow, Ok(ALL), ANSWERS.len());
}

#[test]
fn reports_a_flush_that_fails(rt: HostRuntime) {
    let mut stuck = room_of(rt.alloc(), 1000, End::Error);
    stuck.flushes = false;
    assert_taken(&rt, stuck, Err(RunFault::Write), ANSWERS.len());
}

// Gives one line feed for each read, without end.
#[derive(Drop)]
struct Feeds;

impl Read for Feeds {
    fn read(&mut self, into: &mut [u8]) -> io::Result<usize> {
        match into.first_mut() {
            Some(first) => {
                *first = b'\n';
                Ok(1)
            }
            None => Ok(0),
        }
    }
}

#[test]
fn ends_where_the_gets_do(rt: HostRuntime) {
    let mut source = Reading::new(Feeds, 5);
    let mut sink = sink_of(Vec::new(rt.alloc()));
    assert!(rt; check(&mut source, &mut sink) == Err(RunFault::Read));
    assert!(rt; taken(sink).is_empty());
}

// Asserts that a run breaks off, and the line that is reported.
fn assert_broken(
    rt: &impl Abort,
    alloc: Global,
    source: &mut impl Source,
    sink: &mut impl Sink,
    text: &str,
) {
    let mut faults = sink_of(Vec::new(alloc));
    let status = status_of(alloc, AS_LINES, source, sink, &mut faults);
    assert!(rt; status == Status::Broken);
    assert!(rt; taken(faults).as_slice() == text.as_bytes());
}

#[test]
fn reports_what_ended_a_run(rt: HostRuntime) {
    let alloc = rt.alloc();
    let mut feeds = Reading::new(Feeds, 5);
    let mut sink = sink_of(Vec::new(alloc));
    assert_broken(&rt, alloc, &mut feeds, &mut sink, "read failed\n");
    let mut source = source_of(LINES);
    let mut full = sink_of(room_of(alloc, 10, End::Error));
    assert_broken(&rt, alloc, &mut source, &mut full, "write failed\n");
}
