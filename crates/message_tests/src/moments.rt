//! Squitters with their timestamps.
use sq_message::pins::equal_received;
use sq_text::{LineFault, read_squitter, read_timed};

const FRAME: &[u8] = b"8D40621D58C382D690C8AC2863A7";

// A timestamp of twenty digits, a space and the frame text.
const LINE: [u8; 49] = *b"12345678912345678912 8D40621D58C382D690C8AC2863A7";

// The timestamps of the last 1 to 20 digits of the line.
const MOMENTS: [u64; 20] = [
    2,
    12,
    912,
    8912,
    78912,
    678912,
    5678912,
    45678912,
    345678912,
    2345678912,
    12345678912,
    912345678912,
    8912345678912,
    78912345678912,
    678912345678912,
    5678912345678912,
    45678912345678912,
    345678912345678912,
    2345678912345678912,
    12345678912345678912,
];

#[test]
fn reads_moments(rt: HostRuntime) {
    let squitter = read_squitter(FRAME);
    let rows = [
        (b"0 8D40621D58C382D690C8AC2863A7".as_slice(), 0),
        (b"00000000000000000007 *8D40621D58C382D690C8AC2863A7;", 7),
        (
            b"18446744073709551615 8d40621d58c382d690c8ac2863a7",
            u64::MAX,
        ),
    ];
    for (text, moment) in rows {
        let timed = read_timed(text);
        assert!(rt; timed.map(|t| t.moment) == Ok(moment));
        assert!(rt; timed.map(|t| t.squitter) == squitter);
    }
}

#[test]
fn reads_moments_of_each_length(rt: HostRuntime) {
    for count in 1..21usize {
        let timed = read_timed(&LINE[20 - count..]);
        assert!(rt; timed.map(|t| t.moment) == Ok(MOMENTS[count - 1]));
    }
}

#[test]
fn refuses_other_bytes_at_each_place(rt: HostRuntime) {
    // Neighbours of the digits and of the space, and bytes that differ from a digit in one high bit.
    for byte in *b"/:!\x1f\x00\x11\x70\xb0\xb9\xff" {
        for place in 0..21usize {
            let mut line = LINE;
            line[place] = byte;
            // Timestamps of each length that includes this index. The last of twenty digits is read separately.
            for start in 0..place + 1 {
                assert!(rt; read_timed(&line[start..]) == Err(LineFault::Moment));
            }
        }
    }
}

#[test]
fn ends_a_moment_at_the_first_space(rt: HostRuntime) {
    for place in 1..20usize {
        let mut line = LINE;
        line[place] = b' ';
        assert!(rt; read_timed(&line) == Err(LineFault::Length(48 - place)));
    }
}

#[test]
fn reads_moments_of_short_texts(rt: HostRuntime) {
    for count in 0..21usize {
        assert!(rt; read_timed(&LINE[20 - count..20]) == Err(LineFault::Moment));
    }
    for count in 1..21usize {
        assert!(rt; read_timed(&LINE[20 - count..21]) == Err(LineFault::Length(0)));
        assert!(rt; read_timed(&LINE[20 - count..22]) == Err(LineFault::Length(1)));
    }
}

#[test]
fn refuses_texts(rt: HostRuntime) {
    let rows = [
        (b"".as_slice(), LineFault::Moment),
        (FRAME, LineFault::Moment),
        (b" 8D40621D58C382D690C8AC2863A7", LineFault::Moment),
        (b"-1 8D40621D58C382D690C8AC2863A7", LineFault::Moment),
        (b"+1 8D40621D58C382D690C8AC2863A7", LineFault::Moment),
        (b"1x 8D40621D58C382D690C8AC2863A7", LineFault::Moment),
        (
            b"18446744073709551616 8D40621D58C382D690C8AC2863A7",
            LineFault::Moment,
        ),
        (
            b"000000000000000000000 8D40621D58C382D690C8AC2863A7",
            LineFault::Moment,
        ),
        (b"0\t8D40621D58C382D690C8AC2863A7", LineFault::Moment),
        (b"0 ", LineFault::Length(0)),
        (b"0  8D40621D58C382D690C8AC2863A7", LineFault::Length(29)),
        (b"0 *8D40621D58C382D690C8AC2863A7", LineFault::Wrap),
        (b"0 5D40621D000000", LineFault::Short),
        (b"0 8D40621D58C382D690C8AC2863AG", LineFault::Digit(28)),
        (b"0 90406B902015A678D4D220AA4BDA", LineFault::NotDf17(18)),
        (b"0 8D40621D58C382D690C8AC2863A6", LineFault::Parity(1)),
    ];
    for (text, fault) in rows {
        assert!(rt; read_timed(text) == Err(fault));
    }
}

#[test]
fn compares_squitters_with_moments(rt: HostRuntime) {
    let first = read_timed(b"0 8D40621D58C382D690C8AC2863A7").expect(&rt, "a squitter");
    let later = read_timed(b"1 8D40621D58C382D690C8AC2863A7").expect(&rt, "a squitter");
    let other = read_timed(b"0 8D40621D58C386435CC412692AD6").expect(&rt, "a squitter");
    assert!(rt; equal_received(&first, &first));
    assert!(rt; !equal_received(&first, &later));
    assert!(rt; !equal_received(&first, &other));
}
