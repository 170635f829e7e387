//! What feeds offer beside the lines of a source, which the vectors have: slots, lines, counts, formats, and clocks.
use crate::RECORDED;
use crate::fed::{push_last_lines, push_lines};
use sq_digits::TextBuffer;
use sq_feed::{
    Clock, Counts, Fate, Feed, Format, LINE_LIMIT, Manner, Stranger, Timed, push_log_line,
};

const LIVE: Manner = Manner {
    is_live: true,
    ..RECORDED
};

// The ticks of a second.
const SECOND: u64 = 12_000_000;

// A squitter of type 3 with the clock 12,000,000, and one of type 2 of format 11.
const BEAST: &[u8] =
    b"\x1a3\0\0\0\xb7\x1b\0\x80\x8d\x48\x40\xd6\x20\x2c\xc3\x71\xc3\x2c\xe0\x57\x60\x98\x1a2\0\0\0\xb7\x1b\0\x80\x5d\x48\x40\xd6\xf8\x3d\x31";

#[test]
fn a_squitter_in_a_slot(rt: HostRuntime) {
    let mut slot = Timed {
        moment: 5,
        frame: [9; 14],
    };
    let mut feed = Feed::new(Some(Format::Beast), &RECORDED);
    // a status and a message that is not whole have no squitter, and the slot stays as it was
    let status = feed.step_into::<0>(b"\x1a4", 0, &mut slot);
    assert!(rt; status.taken == 2 && !status.is_filled);
    assert!(rt; slot.moment == 5 && slot.frame == [9; 14]);
    // the first item ends with its 23 bytes; a frame of format 11 is counted and not given
    let first = feed.step_into::<0>(BEAST, 0, &mut slot);
    assert!(rt; first.taken == 23 && first.is_filled);
    assert!(rt; slot.moment == 1000);
    assert!(rt; slot.frame == *b"\x8d\x48\x40\xd6\x20\x2c\xc3\x71\xc3\x2c\xe0\x57\x60\x98");
    let other = feed.step_into::<0>(&BEAST[23..], 0, &mut slot);
    assert!(rt; other.taken == 16 && !other.is_filled && slot.moment == 1000);
    assert!(rt; !feed.goes_on(0) && feed.goes_on(1));
    assert!(rt; feed.counts().found() == 2);
}

#[test]
fn a_line(rt: HostRuntime) {
    let mut text = TextBuffer::<LINE_LIMIT>::new();
    let frame = *b"\x8d\x48\x40\xd6\x20\x2c\xc3\x71\xc3\x2c\xe0\x57\x60\x98";
    push_log_line(&mut text, 18_446_744_073_709_551_615, &frame);
    assert!(rt; text.as_str() == "18446744073709551615 8D4840D6202CC371C32CE0576098\n");
}

#[test]
fn a_line_of_a_short_frame(rt: HostRuntime) {
    let mut text = TextBuffer::<LINE_LIMIT>::new();
    // format 15, the last one with seven bytes
    let frame = *b"\x7f\x48\x40\xd6\xf8\x3d\x31\0\0\0\0\0\0\0";
    push_log_line(&mut text, 7, &frame);
    assert!(rt; text.as_str() == "7 7F4840D6F83D31\n");
    // format 16, the first one with fourteen bytes
    text.clear();
    let frame = *b"\x80\x48\x40\xd6\xf8\x3d\x31\0\0\0\0\0\0\x09";
    push_log_line(&mut text, 7, &frame);
    assert!(rt; text.as_str() == "7 804840D6F83D3100000000000009\n");
}

#[test]
fn sources_follow_each_other(rt: HostRuntime) {
    let mut feed = Feed::new(None, &RECORDED);
    let mut text = TextBuffer::<1024>::new();
    push_lines(
        &mut feed,
        b"1000 8D4840D6202CC371C32CE0576098",
        0,
        &mut text,
    );
    push_last_lines(&mut feed, 0, &mut text);
    assert!(rt; text.as_str() == "1000 8D4840D6202CC371C32CE0576098\n");
    push_lines(
        &mut feed,
        b"2.0,x,8D4840D6202CC371C32CE0576098\n3,x",
        0,
        &mut text,
    );
    assert!(rt; matches!(feed.format(), Some(Format::Csv)) && feed.is_dated());
    feed.disconnected();
    assert!(rt;
        feed.counts().damaged() == 1 && feed.format().is_none() && feed.stranger().is_none()
    );
    push_lines(&mut feed, b"{\"now\":1}\n", 0, &mut text);
    push_last_lines(&mut feed, 0, &mut text);
    assert!(rt; matches!(feed.stranger(), Some(Stranger::Json)) && feed.counts().written() == 2);
}

#[test]
fn jumps_and_arrivals(rt: HostRuntime) {
    let mut text = TextBuffer::<1024>::new();
    let mut feed = Feed::new(Some(Format::Avr), &LIVE);
    // Clocks of 1, 601 and 602 seconds that arrive at once: ten minutes ahead of the arrivals, and a second more.
    push_lines(
        &mut feed,
        b"@000000B71B008D4840D6202CC371C32CE0576098;@0001ADDE63008D4840D6202CC371C32CE0576098;",
        1000,
        &mut text,
    );
    assert!(rt; feed.counts().written() == 2 && !feed.is_ahead_of_arrivals());
    push_lines(
        &mut feed,
        b"@0001AE957E008D4840D6202CC371C32CE0576098;",
        1000,
        &mut text,
    );
    assert!(rt; feed.counts().written() == 3 && feed.is_ahead_of_arrivals() && feed.breaks() == 0);
    let mut feed = Feed::new(Some(Format::Log), &RECORDED);
    for line in [9000, 9001, 50, 51, 52] {
        let mut word = TextBuffer::<LINE_LIMIT>::new();
        push_log_line(
            &mut word,
            line,
            b"\x8d\x48\x40\xd6\x20\x2c\xc3\x71\xc3\x2c\xe0\x57\x60\x98",
        );
        push_lines(&mut feed, word.as_str().as_bytes(), 0, &mut text);
    }
    assert!(rt; feed.breaks() == 1);
}

#[test]
fn a_clock_that_turns(rt: HostRuntime) {
    let mut clock = Clock::new();
    assert!(rt; !clock.is_heard());
    clock.go_on((1 << 48) - SECOND, 5 * SECOND);
    assert!(rt; clock.is_heard());
    assert!(rt; clock.count(SECOND) == 7 * SECOND);
    // the same value, whatever is above its 48 bits
    assert!(rt; clock.count((3 << 48) + SECOND) == 7 * SECOND);
    clock.go_on(SECOND, 7 * SECOND);
    assert!(rt; clock.count((1 << 48) - SECOND) == 5 * SECOND);
    // before the first count
    assert!(rt; clock.count((1 << 48) - 7 * SECOND) == 0);
    clock.restart();
    assert!(rt; !clock.is_heard());
}

#[test]
fn counts(rt: HostRuntime) {
    let mut counts = Counts::new();
    counts.count(Fate::Written);
    counts.count(Fate::OtherFormat(31));
    counts.count(Fate::Aside);
    assert!(rt; counts.found() == 3);
    assert!(rt; counts.written() == 1);
    assert!(rt; counts.of_format(24) == 1);
    assert!(rt; counts.of_format(11) == 0);
    assert!(rt; counts.mode_ac() == 0);
    assert!(rt; counts.multilaterated() == 0);
    assert!(rt; counts.damaged() == 0);
    assert!(rt; counts.aside() == 1);
    counts.count_rows(2, 1);
    assert!(rt; counts.found() == 6 && counts.written() == 3 && counts.aside() == 2);
}
