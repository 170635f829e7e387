//! The command `track`: `IsTrackRun`, and with devices that fail the clauses `whole`, `unread` and `unwritten` of
//! `run_log`. `tests/worked/track.txt` has the results for other logs and words.
use crate::faulty_devices::{End, Pieces, lines_in, pieces_of, room_of, sink_of, source_of, taken};
use crate::outcomes::{assert_outcome, assert_reported, outcome_on};
use sq_commands::{Request, Status, TrackWords, run_track};
use sq_devices::{Sink, Source};
use sq_log::{RunFault, Tally};
use sq_track::Tracker;
use std::alloc::Global;
use std::process::Abort;
use std::test::Fail;

// Returns a request for a log with this limit.
fn with_limit(limit: Option<&str>) -> Request<'_> {
    Request::Track(TrackWords {
        limit,
        format: None,
        window: None,
        lat: None,
        lon: None,
    })
}

#[test]
fn tracks_a_log(rt: HostRuntime) {
    let log = b"0 8D40621D58C382D690C8AC2863A7\n10000 8D40621D58C386435CC412692AD6\n";
    let answers = "1 waiting 40621D\n2 fix 40621D 52.2657802 3.9389125\n";
    let ran = outcome_on(rt.alloc(), with_limit(None), log);
    assert_outcome(&rt, &ran, Status::Good, answers, "");
}

#[test]
fn refuses_a_word(rt: HostRuntime) {
    let request = with_limit(Some("-1"));
    assert_reported(&rt, rt.alloc(), request, Status::Misused, "bad limit\n");
}

const LOG: &[u8] =
    b"0 8D40621D58C382D690C8AC2863A7\n1 8C4841753AAB238733C8CD4020B1\n2 8D40621D58C386435CC412692AD6\n";

const ANSWERS: &[u8] = b"1 waiting 40621D\n2 waiting 484175\n3 fix 40621D 52.2657802 3.9389125\n";

// Returns how many bytes of the results, how many addresses and which last timestamp there are after this many lines.
fn after(lines: usize) -> (usize, usize, Option<u64>) {
    match lines {
        0 => (0, 0, None),
        1 => (17, 1, Some(0)),
        2 => (34, 2, Some(1)),
        _ => (68, 2, Some(2)),
    }
}

// Returns the timestamp of the address that was heard last.
fn newest(tracker: &Tracker) -> Option<u64> {
    match tracker.get(tracker.len().saturating_sub(1)) {
        Some((_, moment)) => Some(moment),
        None => None,
    }
}

fn tracker_of(alloc: Global) -> Option<Tracker> {
    match Tracker::new(alloc, 1000, 10_000, None) {
        Ok(tracker) => Some(tracker),
        Err(_) => None,
    }
}

// How a log was heard: how the run ended, how many addresses are present, and the timestamp of the last one heard.
#[derive(Drop)]
struct Hearing {
    ended: Result<Tally, RunFault>,
    addresses: usize,
    newest: Option<u64>,
}

// `run_track` with a new tracker, without the clauses.
fn hear_log(alloc: Global, source: &mut impl Source, sink: &mut impl Sink) -> Option<Hearing> {
    let mut tracker = tracker_of(alloc)?;
    let ended = run_track(source, sink, &mut tracker);
    Some(Hearing {
        ended,
        addresses: tracker.len(),
        newest: newest(&tracker),
    })
}

// Asserts how the log was heard.
fn assert_heard(
    rt: &impl Abort,
    hearing: Option<Hearing>,
    ended: Result<Tally, RunFault>,
    addresses: usize,
    moment: Option<u64>,
) {
    let heard = hearing.expect(rt, "a limit");
    assert!(rt; heard.ended == ended);
    assert!(rt; heard.addresses == addresses);
    assert!(rt; heard.newest == moment);
}

const ALL: Tally = Tally {
    good: 3,
    refused: 0,
};

// Asserts how a log in pieces ends, and how many of its lines were heard and have results.
fn assert_lines_heard(
    rt: &impl Abort,
    alloc: Global,
    pieces: Pieces,
    ended: Result<Tally, RunFault>,
    lines: usize,
) {
    let mut sink = sink_of(Vec::new(alloc));
    let hearing = hear_log(alloc, &mut source_of(pieces), &mut sink);
    let (written, addresses, moment) = after(lines);
    assert_heard(rt, hearing, ended, addresses, moment);
    assert!(rt; taken(sink).as_slice() == front_of(written));
}

// Returns the first bytes of the results.
fn front_of(count: usize) -> &'static [u8] {
    ANSWERS.get(..count).unwrap_or(b"")
}

#[test]
fn tracks_lines_in_pieces(rt: HostRuntime) {
    for size in [1, 2, 3, 63, 64, 65] {
        let pieces = pieces_of(LOG, size, usize::MAX);
        assert_lines_heard(&rt, rt.alloc(), pieces, Ok(ALL), 3);
    }
}

#[test]
fn hears_what_was_read_before_a_fault(rt: HostRuntime) {
    for fails_at in 0..LOG.len() {
        let pieces = pieces_of(LOG, 64, fails_at);
        let lines = lines_in(LOG, fails_at);
        assert_lines_heard(&rt, rt.alloc(), pieces, Err(RunFault::Read), lines);
    }
}

// Asserts what a tracker has heard if only `room` bytes of the results can be written.
fn assert_heard_in(rt: &impl Abort, alloc: Global, room: usize, addresses: usize, moment: u64) {
    let mut sink = sink_of(room_of(alloc, room, End::Error));
    let hearing = hear_log(alloc, &mut source_of(LOG), &mut sink);
    let fault = Err(RunFault::Write);
    assert_heard(rt, hearing, fault, addresses, Some(moment));
    assert!(rt; taken(sink).taken.as_slice() == front_of(room));
}

// The first byte of each result fails, and then its last.
#[test]
fn hears_the_line_that_cannot_be_written(rt: HostRuntime) {
    assert_heard_in(&rt, rt.alloc(), 0, 1, 0);
    assert_heard_in(&rt, rt.alloc(), 16, 1, 0);
    assert_heard_in(&rt, rt.alloc(), 17, 2, 1);
    assert_heard_in(&rt, rt.alloc(), 33, 2, 1);
    assert_heard_in(&rt, rt.alloc(), 34, 2, 2);
    assert_heard_in(&rt, rt.alloc(), 67, 2, 2);
}

// A pair within the window, and a log in which the last timestamp goes back.
const PAIR: &[u8] = b"0 8D40621D58C382D690C8AC2863A7\n10000 8D40621D58C386435CC412692AD6\n";

const BACK: &[u8] =
    b"0 8D40621D58C382D690C8AC2863A7\n9000 8D40621D58C382D690C8AC2863A7\n15000 8D40621D58C386435CC412692AD6\n14999 8D40621D58C382D690C8AC2863A7\n";

const BACK_ANSWERS: &[u8] =
    b"1 waiting 40621D\n2 waiting 40621D\n3 fix 40621D 52.2657802 3.9389125\n4 moment back 15000\n";

// A log for a limit of one address: the table is full at first.
const FULL: &[u8] =
    b"0 8D40621D58C382D690C8AC2863A7\n10000 8C4841753AAB238733C8CD4020B1\n10001 8C4841753AAB238733C8CD4020B1\n10001 8C4841753A8A35323FAEBDAC702D\n";

const FULL_ANSWERS: &[u8] = b"1 waiting 40621D\n2 table full\n3 waiting 484175\n4 no site 484175\n";

// Hears a log with an existing tracker, without the clauses.
fn hear_into(
    source: &mut impl Source,
    sink: &mut impl Sink,
    tracker: &mut Tracker,
) -> Result<Tally, RunFault> {
    run_track(source, sink, tracker)
}

// Asserts that a tracker has only this address, with this timestamp.
fn assert_alone(rt: &impl Abort, tracker: &Tracker, address: u32, moment: u64) {
    assert!(rt; tracker.len() == 1);
    assert!(rt; tracker.get(0) == Some((address, moment)));
    assert!(rt; tracker.get(1).is_none());
}

// Asserts the results for a log, and its tally.
fn assert_tracked(
    rt: &impl Abort,
    alloc: Global,
    tracker: &mut Tracker,
    log: &'static [u8],
    tally: Tally,
    answers: &[u8],
) {
    let mut sink = sink_of(Vec::new(alloc));
    assert!(rt; hear_into(&mut source_of(log), &mut sink, tracker) == Ok(tally));
    assert!(rt; taken(sink).as_slice() == answers);
}

#[test]
fn hears_into_the_tracker_that_is_given(rt: HostRuntime) -> Result<(), Fail> {
    let mut back = Tracker::new(rt.alloc(), 1000, 10_000, None)?;
    let one_refused = Tally {
        good: 3,
        refused: 1,
    };
    assert_tracked(&rt, rt.alloc(), &mut back, BACK, one_refused, BACK_ANSWERS);
    assert_alone(&rt, &back, 0x40621D, 15_000);
    let mut full = Tracker::new(rt.alloc(), 1, 10_000, None)?;
    assert_tracked(&rt, rt.alloc(), &mut full, FULL, one_refused, FULL_ANSWERS);
    assert_alone(&rt, &full, 0x484175, 10_001);
    Ok(())
}

#[test]
fn hears_one_line_before_a_write_fails(rt: HostRuntime) -> Result<(), Fail> {
    let mut tracker = Tracker::new(rt.alloc(), 1000, 10_000, None)?;
    let mut sink = sink_of(room_of(rt.alloc(), 0, End::Error));
    let ended = hear_into(&mut source_of(PAIR), &mut sink, &mut tracker);
    assert!(rt; ended == Err(RunFault::Write));
    assert!(rt; taken(sink).taken.is_empty());
    assert_alone(&rt, &tracker, 0x40621D, 0);
    Ok(())
}

// Returns how a log ended, with the room for its results allocated before; `None` if that allocation fails.
fn hear_in_room(
    alloc: Global,
    tracker: &mut Tracker,
    log: &'static [u8],
) -> Option<(Result<Tally, RunFault>, Vec<u8>)> {
    let Ok(room) = Vec::with_capacity(alloc, 256) else {
        return None;
    };
    let mut sink = sink_of(room);
    let ended = hear_into(&mut source_of(log), &mut sink, tracker);
    Some((ended, taken(sink)))
}

// Succeeds with memory. If any one allocation fails, there are no results and the tracker is empty, and the same log
// with memory has its results. `hostile/growths` lets the allocations fail one after another.
#[test]
fn a_log_whose_growths_are_refused(rt: HostRuntime) -> Result<(), Fail> {
    let Ok(mut tracker) = Tracker::new(rt.alloc(), 1000, 10_000, None) else {
        return Ok(());
    };
    let Some((ended, written)) = hear_in_room(rt.alloc(), &mut tracker, BACK) else {
        return Ok(());
    };
    if ended == Err(RunFault::Memory) {
        assert!(rt; written.is_empty());
        assert!(rt; tracker.len() == 0);
        let (ended, written) = hear_in_room(rt.alloc(), &mut tracker, BACK).expect(&rt, "room");
        assert!(rt; ended.is_ok() && written.as_slice() == BACK_ANSWERS);
    } else {
        assert!(rt; ended.is_ok() && written.as_slice() == BACK_ANSWERS);
    }
    assert_alone(&rt, &tracker, 0x40621D, 15_000);
    Ok(())
}
