//! The command `feed` over inputs in pieces, over a live input, and over devices that fail: the clauses of `run_feed`,
//! and `IsFeedRun`. `tests/worked/feed.txt` tries the whole program.
use crate::faulty_devices::{End, Pieces, Room, pieces_of, room_of, sink_of, source_of, taken};
use crate::outcomes::{assert_reported, outcome_on, status_of};
use sq_commands::{
    FeedEnd, FeedOptions, FeedWords, Request, SourceFormat, Status, Stranger, run_feed,
};
use sq_devices::{Clock, NoClock, Sink, Source};
use sq_log::RunFault;
use std::alloc::Global;
use std::process::Abort;

// Two frames without a clock.
const AVR: &[u8] = b"*8D40621D58C382D690C8AC2863A7;\n*8D40621D58C386435CC412692AD6;\n";

// Their lines without arrivals.
const UNTIMED: &[u8] = b"0 8D40621D58C382D690C8AC2863A7\n0 8D40621D58C386435CC412692AD6\n";

// What is reported of them.
const ZEROS: &str =
    "all frames of this file have the timestamp 0, as without times: old ones pair with new\n2 written\n";

// The same frames with clocks of 24,000 and 36,000 ticks.
const BEAST: &[u8] =
    b"\x1a3\x00\x00\x00\x00\x5d\xc0\x10\x8d\x40\x62\x1d\x58\xc3\x82\xd6\x90\xc8\xac\x28\x63\xa7\x1a3\x00\x00\x00\x00\x8c\xa0\x10\x8d\x40\x62\x1d\x58\xc3\x86\x43\x5c\xc4\x12\x69\x2a\xd6";

const LOG: &[u8] = b"2 8D40621D58C382D690C8AC2863A7\n3 8D40621D58C386435CC412692AD6\n";

const CSV: &[u8] =
    b"0.002,40621d,8d40621d58c382d690c8ac2863a7\n0.003999,40621d,8d40621d58c386435cc412692ad6\n";

// The order of arrival, and only extended squitters.
const PLAIN: FeedOptions = FeedOptions {
    format: None,
    reorder: 0,
    leap: 600_000,
    ignores_clock: false,
    all_formats: false,
};

// `run_feed` without its clauses.
fn feed(
    alloc: Global,
    format: Option<SourceFormat>,
    clock: &mut impl Clock,
    source: &mut impl Source,
    sink: &mut impl Sink,
) -> Result<FeedEnd, RunFault> {
    let options = FeedOptions { format, ..PLAIN };
    run_feed(alloc, &options, clock, source, sink)
}

// Asserts the output of a run with a clock, and that it counts two frames.
fn assert_fed(
    rt: &impl Abort,
    alloc: Global,
    format: Option<SourceFormat>,
    clock: &mut impl Clock,
    pieces: Pieces,
    lines: &[u8],
) {
    let mut source = source_of(pieces);
    let mut sink = sink_of(Vec::new(alloc));
    match feed(alloc, format, clock, &mut source, &mut sink) {
        Ok(end) => {
            assert!(rt; end.counts.written() == 2 && end.counts.found() == 2);
            assert!(rt; end.stranger.is_none());
        }
        Err(_) => assert!(rt; false),
    }
    assert!(rt; taken(sink).as_slice() == lines);
}

#[test]
fn feeds_formats_in_pieces(rt: HostRuntime) {
    for size in [1, 2, 3, 22, 23, 31, 64] {
        let alloc = rt.alloc();
        for format in [Some(SourceFormat::Avr), None] {
            let avr = pieces_of(AVR, size, usize::MAX);
            assert_fed(&rt, alloc, format, &mut NoClock, avr, UNTIMED);
        }
        for format in [Some(SourceFormat::Beast), None] {
            let beast = pieces_of(BEAST, size, usize::MAX);
            assert_fed(&rt, alloc, format, &mut NoClock, beast, LOG);
        }
        for format in [Some(SourceFormat::Csv), None] {
            let csv = pieces_of(CSV, size, usize::MAX);
            assert_fed(&rt, alloc, format, &mut NoClock, csv, LOG);
        }
        for format in [Some(SourceFormat::Log), None] {
            let log = pieces_of(LOG, size, usize::MAX);
            assert_fed(&rt, alloc, format, &mut NoClock, log, LOG);
        }
    }
}

#[test]
fn sources_without_frames_are_told(rt: HostRuntime) {
    let mut source = source_of(pieces_of(b"MSG,3\n", 1, usize::MAX));
    let mut sink = sink_of(Vec::new(rt.alloc()));
    match feed(rt.alloc(), None, &mut NoClock, &mut source, &mut sink) {
        Ok(end) => match end.stranger {
            Some(Stranger::Sbs) => assert!(rt;
                end.counts.found() == 1 && end.counts.damaged() == 1
            ),
            _ => assert!(rt; false),
        },
        Err(_) => assert!(rt; false),
    }
    assert!(rt; taken(sink).is_empty());
}

// A clock whose times are a second apart.
#[derive(Drop)]
struct Ticking {
    next: u64,
}

impl Clock for Ticking {
    ghost use Rattle.std.specs.Prelude.{true};

    ghost live = { λ clock. true };

    ghost Told = { λ old moment new. Unit {0} };

    fn is_live(&self) -> bool {
        true
    }

    fn now(&mut self) -> u64 {
        let now = self.next;
        self.next = now.saturating_add(1000);
        now
    }
}

#[test]
fn frames_without_a_time_have_that_of_their_piece(rt: HostRuntime) {
    let lines = b"5000 8D40621D58C382D690C8AC2863A7\n6000 8D40621D58C386435CC412692AD6\n";
    let mut clock = Ticking { next: 5000 };
    let pieces = pieces_of(AVR, 31, usize::MAX);
    assert_fed(
        &rt,
        rt.alloc(),
        Some(SourceFormat::Avr),
        &mut clock,
        pieces,
        lines,
    );
    assert!(rt; clock.now() == 8000);
}

// Asserts that the source fails once `fails_at` bytes were given, and how much of the lines was written before.
fn assert_unread(rt: &impl Abort, alloc: Global, fails_at: usize, written: usize) {
    let mut source = source_of(pieces_of(AVR, 7, fails_at));
    let mut sink = sink_of(Vec::new(alloc));
    match feed(
        alloc,
        Some(SourceFormat::Avr),
        &mut NoClock,
        &mut source,
        &mut sink,
    ) {
        Err(RunFault::Read) => {}
        _ => assert!(rt; false),
    }
    let front = UNTIMED.get(..written).unwrap_or(b"");
    assert!(rt; taken(sink).as_slice() == front);
}

#[test]
fn writes_what_was_read_before_a_fault(rt: HostRuntime) {
    for fails_at in 0..30 {
        assert_unread(&rt, rt.alloc(), fails_at, 0);
    }
    for fails_at in 30..61 {
        assert_unread(&rt, rt.alloc(), fails_at, 31);
    }
    assert_unread(&rt, rt.alloc(), 61, 62);
}

// Asserts that the sink fails, and how much of the lines it took.
fn assert_unwritten(rt: &impl Abort, alloc: Global, room: Room, count: usize) {
    let mut source = source_of(AVR);
    let mut sink = sink_of(room);
    match feed(
        alloc,
        Some(SourceFormat::Avr),
        &mut NoClock,
        &mut source,
        &mut sink,
    ) {
        Err(RunFault::Write) => {}
        _ => assert!(rt; false),
    }
    let front = UNTIMED.get(..count).unwrap_or(b"");
    assert!(rt; taken(sink).taken.as_slice() == front);
}

#[test]
fn leaves_what_a_writer_took_of_a_feed(rt: HostRuntime) {
    for room in 0..UNTIMED.len() {
        assert_unwritten(&rt, rt.alloc(), room_of(rt.alloc(), room, End::Error), room);
        assert_unwritten(
            &rt,
            rt.alloc(),
            room_of(rt.alloc(), room, End::Nothing),
            room,
        );
    }
    let mut stuck = room_of(rt.alloc(), 1000, End::Error);
    stuck.flushes = false;
    assert_unwritten(&rt, rt.alloc(), stuck, UNTIMED.len());
}

// `feed` with a format.
fn request_of(format: Option<&str>) -> Request<'_> {
    Request::Feed(FeedWords {
        format,
        reorder: None,
        leap: None,
        arrival: false,
        all: false,
    })
}

// `feed` with these milliseconds.
fn words_of<'a>(reorder: Option<&'a str>, leap: Option<&'a str>) -> Request<'a> {
    Request::Feed(FeedWords {
        format: None,
        reorder,
        leap,
        arrival: false,
        all: false,
    })
}

// Asserts the output of `feed` for an input, and the summary.
fn assert_summed_up(
    rt: &impl Abort,
    alloc: Global,
    format: Option<&str>,
    text: &[u8],
    lines: &[u8],
    summary: &str,
) {
    let ran = outcome_on(alloc, request_of(format), text);
    assert!(rt; ran.written.as_slice() == lines);
    assert!(rt; ran.reported.as_slice() == summary.as_bytes());
    assert!(rt; ran.status == Status::Good);
}

#[test]
fn reads_the_format_that_a_word_names(rt: HostRuntime) {
    let alloc = rt.alloc();
    assert_summed_up(&rt, alloc, None, BEAST, LOG, "2 written\n");
    assert_summed_up(&rt, alloc, Some("auto"), BEAST, LOG, "2 written\n");
    assert_summed_up(&rt, alloc, Some("beast"), BEAST, LOG, "2 written\n");
    assert_summed_up(&rt, alloc, Some("avr"), AVR, UNTIMED, ZEROS);
    assert_summed_up(&rt, alloc, Some("csv"), CSV, LOG, "2 written\n");
    assert_summed_up(&rt, alloc, Some("log"), LOG, LOG, "2 written\n");
}

#[test]
fn refuses_a_source_of_another_format(rt: HostRuntime) {
    for word in ["", "Beast", "beas", "beasts", "lines", "json"] {
        let request = request_of(Some(word));
        assert_reported(&rt, rt.alloc(), request, Status::Misused, "bad format\n");
    }
}

#[test]
fn refuses_milliseconds_that_are_no_number(rt: HostRuntime) {
    for word in ["", "-1", "1.5", "600 000", "18446744073709551616"] {
        for (request, report) in [
            (words_of(Some(word), None), "bad reorder\n"),
            (words_of(None, Some(word)), "bad leap\n"),
            (words_of(Some(word), Some(word)), "bad reorder\n"),
        ] {
            assert_reported(&rt, rt.alloc(), request, Status::Misused, report);
        }
    }
}

// Two frames with a clock. The second clock is 25 hours later: a day is no jump in a recorded source.
const JUMPING: &[u8] =
    b"@000000002EE08D40621D58C382D690C8AC2863A7;\n@00FB75045EE08D40621D58C386435CC412692AD6;\n";

// The same, and then the first frame two milliseconds after the clock began.
const CONTRADICTED: &[u8] =
    b"@000000002EE08D40621D58C382D690C8AC2863A7;\n@00FB75045EE08D40621D58C386435CC412692AD6;\n@000000005DC08D40621D58C382D690C8AC2863A7;\n";

#[test]
fn a_leap_decides_what_jumps(rt: HostRuntime) {
    let regular = b"1 8D40621D58C382D690C8AC2863A7\n2 8D40621D58C382D690C8AC2863A7\n";
    let jumping = b"1 8D40621D58C382D690C8AC2863A7\n90000001 8D40621D58C386435CC412692AD6\n";
    for (leap, lines) in [
        ("89999999", &regular[..]),
        ("1", &regular[..]),
        ("90000000", &jumping[..]),
    ] {
        let ran = outcome_on(rt.alloc(), words_of(None, Some(leap)), CONTRADICTED);
        assert!(rt; ran.written.as_slice() == lines);
        assert!(rt; ran.reported.as_slice() == &b"2 written, 1 set aside\n"[..]);
    }
}

#[test]
fn arrivals_in_place_of_the_clock(rt: HostRuntime) {
    let options = FeedOptions {
        ignores_clock: true,
        ..PLAIN
    };
    let mut source = source_of(JUMPING);
    let mut sink = sink_of(Vec::new(rt.alloc()));
    assert!(rt;
        run_feed(
            rt.alloc(),
            &options,
            &mut Ticking { next: 7 },
            &mut source,
            &mut sink
        )
        .is_ok()
    );
    let lines = b"7 8D40621D58C382D690C8AC2863A7\n7 8D40621D58C386435CC412692AD6\n";
    assert!(rt; taken(sink).as_slice() == lines.as_slice());
}

#[test]
fn refuses_a_source_without_frames(rt: HostRuntime) {
    let ran = outcome_on(rt.alloc(), request_of(None), b"{}\n{\"now\":1}\n");
    assert!(rt; ran.written.is_empty() && ran.status == Status::Refused);
    assert!(rt;
        ran.reported.as_slice() == b"the input is lines of JSON, which have no frames\n".as_slice()
    );
}

#[test]
fn refuses_an_input_in_which_all_is_damaged(rt: HostRuntime) {
    let lines = b"7 8D40621D58C382D690C8AC2863A7\n";
    for (input, status, written, summary) in [
        (
            b"x\n".as_slice(),
            Status::Refused,
            b"".as_slice(),
            "0 written, 1 damaged: try another --format, or none; the times of a table are seconds\n",
        ),
        (
            b"x\ny\n".as_slice(),
            Status::Refused,
            b"".as_slice(),
            "0 written, 2 damaged: try another --format, or none; the times of a table are seconds\n",
        ),
        (b"".as_slice(), Status::Good, b"".as_slice(), "0 written\n"),
        (
            b"x\n7 8D40621D58C382D690C8AC2863A7\n".as_slice(),
            Status::Good,
            lines.as_slice(),
            "1 written, 1 damaged\n",
        ),
        (
            b"x\n7 5D40621D000000\n".as_slice(),
            Status::Good,
            b"".as_slice(),
            "0 written, 1 of other downlink formats (DF11 1), 1 damaged\n",
        ),
    ] {
        let ran = outcome_on(rt.alloc(), request_of(Some("log")), input);
        assert!(rt; ran.status == status);
        assert!(rt; ran.written.as_slice() == written);
        assert!(rt; ran.reported.as_slice() == summary.as_bytes());
    }
}

// One or more of each kind: a squitter, messages of formats 0, 11 and 20, a reply of Mode A/C, a computed position, a
// time that goes back by two seconds, and damage.
const MIXED: &[u8] =
    b"@0000016E36008D40621D58C382D690C8AC2863A7;\n*A000000000000000000000000000;\n*5D40621D000000;\n*00000000000000;\n*5D40621D000000;\n*2040;\n@FF004D4C41548D40621D58C382D690C8AC2863A7;\n@0000000000018D40621D58C382D690C8AC2863A7;\n*8D;\n*20;\n";

#[test]
fn sums_up_each_kind(rt: HostRuntime) {
    let lines = b"2000 8D40621D58C382D690C8AC2863A7\n";
    let summary =
        "1 written, 4 of other downlink formats (DF0 1, DF11 2, DF20 1), 1 of Mode A/C, 1 multilaterated, 1 set aside, 2 damaged\n";
    assert_summed_up(&rt, rt.alloc(), Some("avr"), MIXED, lines, summary);
    assert_summed_up(&rt, rt.alloc(), Some("avr"), b"", b"", "0 written\n");
}

#[test]
fn reports_a_feed_that_breaks_off(rt: HostRuntime) {
    let mut source = source_of(pieces_of(AVR, 7, 40));
    let mut sink = sink_of(Vec::new(rt.alloc()));
    let mut faults = sink_of(Vec::new(rt.alloc()));
    let request = request_of(Some("avr"));
    let status = status_of(rt.alloc(), request, &mut source, &mut sink, &mut faults);
    assert!(rt; status == Status::Broken);
    assert!(rt; taken(faults).as_slice() == b"read failed\n".as_slice());
}

// A log: its second frame comes 2 ms late, and the third one has downlink format 11.
const LATE: &[u8] =
    b"5 8D40621D58C382D690C8AC2863A7\n3 8D40621D58C386435CC412692AD6\n9 5D40621D000000\n";

// Asserts what a run with these options writes.
fn assert_sorted(rt: &impl Abort, alloc: Global, reorder: u64, all_formats: bool, lines: &[u8]) {
    for size in [1, 7, 64, 128] {
        let options = FeedOptions {
            format: Some(SourceFormat::Log),
            reorder,
            all_formats,
            ..PLAIN
        };
        let mut source = source_of(pieces_of(LATE, size, usize::MAX));
        let mut sink = sink_of(Vec::new(alloc));
        assert!(rt; run_feed(alloc, &options, &mut NoClock, &mut source, &mut sink).is_ok());
        assert!(rt; taken(sink).as_slice() == lines);
    }
}

#[test]
fn sorts_frames_that_come_late(rt: HostRuntime) {
    let sorted = b"3 8D40621D58C386435CC412692AD6\n5 8D40621D58C382D690C8AC2863A7\n";
    assert_sorted(&rt, rt.alloc(), 2, false, sorted);
    assert_sorted(&rt, rt.alloc(), u64::MAX, false, sorted);
    let late = b"5 8D40621D58C382D690C8AC2863A7\n5 8D40621D58C386435CC412692AD6\n";
    assert_sorted(&rt, rt.alloc(), 0, false, late);
}

// Each frame comes before all that came so far, and all wait for the end: the order grows with them.
#[test]
fn sorts_as_many_as_come(rt: HostRuntime) {
    let options = FeedOptions {
        format: Some(SourceFormat::Log),
        reorder: u64::MAX,
        ..PLAIN
    };
    let mut lines = Vec::new(rt.alloc());
    let mut wanted = Vec::new(rt.alloc());
    for number in 0..5_000u64 {
        if !push_line(&mut lines, 9_999 - number) || !push_line(&mut wanted, 5_000 + number) {
            return;
        }
    }
    let mut source = source_of(pieces_of(lines.leak(), 4096, usize::MAX));
    let mut sink = sink_of(Vec::new(rt.alloc()));
    assert!(rt; run_feed(rt.alloc(), &options, &mut NoClock, &mut source, &mut sink).is_ok());
    assert!(rt; taken(sink).as_slice() == wanted.as_slice());
}

// Appends the line of a frame with this timestamp, of four digits. Returns whether there was memory for it.
fn push_line(lines: &mut Vec<u8>, moment: u64) -> bool {
    for scale in [1000, 100, 10, 1] {
        if lines.push(b'0' + (moment / scale % 10) as u8).is_err() {
            return false;
        }
    }
    lines
        .extend_from_slice(b" 8D40621D58C382D690C8AC2863A7\n")
        .is_ok()
}

#[test]
fn writes_frames_of_all_formats(rt: HostRuntime) {
    let all = b"3 8D40621D58C386435CC412692AD6\n5 8D40621D58C382D690C8AC2863A7\n9 5D40621D000000\n";
    assert_sorted(&rt, rt.alloc(), 2, true, all);
}

const FRAMELESS: &[u8] = &[b'x'; 16_448];

// A run on a live source ends once the source is known to have no frames. A recorded source is read on.
#[test]
fn leaves_a_live_source_without_frames(rt: HostRuntime) {
    // It is known once nothing has shown a format within 16,384 bytes. The next get fails.
    let mut source = source_of(pieces_of(FRAMELESS, 64, 16_384));
    let mut sink = sink_of(Vec::new(rt.alloc()));
    let mut clock = Ticking { next: 0 };
    match feed(rt.alloc(), None, &mut clock, &mut source, &mut sink) {
        Ok(end) => assert!(rt; matches!(end.stranger, Some(Stranger::NoFrame))),
        Err(_) => assert!(rt; false),
    }
    let mut recorded = source_of(pieces_of(FRAMELESS, 64, 16_384));
    match feed(rt.alloc(), None, &mut NoClock, &mut recorded, &mut sink) {
        Err(RunFault::Read) => {}
        _ => assert!(rt; false),
    }
    assert!(rt; taken(sink).is_empty());
}

#[test]
fn refuses_the_first_invalid_word(rt: HostRuntime) {
    let request = Request::Feed(FeedWords {
        format: Some("none"),
        reorder: Some("none"),
        leap: None,
        arrival: false,
        all: true,
    });
    assert_reported(&rt, rt.alloc(), request, Status::Misused, "bad format\n");
}
