//! Lines cut out of pieces, and runs over memory and over devices that fail.
use sq_log::laws::takes_in_turn;
use sq_log::pins::{equal_run_faults, equal_tallies, one_take};
use sq_log::{Cutter, Line, RunFault, Tally, content_of};
use std::process::Abort;

// Takes a piece, without the clauses.
fn take(cutter: &mut Cutter, piece: &[u8]) -> (usize, bool) {
    cutter.take(piece)
}

// Asserts how many bytes of a piece are taken, whether they end a line, and what is held of the line.
fn assert_taken(
    rt: &impl Abort,
    cutter: &mut Cutter,
    piece: &[u8],
    answer: (usize, bool),
    line: &[u8],
) {
    assert!(rt; take(cutter, piece) == answer);
    assert!(rt; cutter.line() == line);
}

#[test]
fn cuts_at_line_feeds(rt: HostRuntime) {
    let mut cutter = Cutter::new();
    assert!(rt; cutter.line().is_empty());
    assert_taken(&rt, &mut cutter, b"ab\ncd", (3, true), b"ab");
    assert_taken(&rt, &mut cutter, b"cd", (2, false), b"cd");
    assert_taken(&rt, &mut cutter, b"e\r\n", (3, true), b"cde\r");
    assert_taken(&rt, &mut cutter, b"", (0, false), b"");
    assert!(rt; !cutter.long());
}

// Asserts whether the line is too long, and how many bytes of it are held.
fn assert_holds(rt: &impl Abort, cutter: &Cutter, long: bool, count: usize) {
    assert!(rt; cutter.long() == long);
    assert!(rt; cutter.line().len() == count);
}

#[test]
fn holds_64_bytes(rt: HostRuntime) {
    let mut cutter = Cutter::new();
    take(&mut cutter, &[b'x'; 40]);
    take(&mut cutter, &[b'y'; 24]);
    assert_holds(&rt, &cutter, false, 64);
    take(&mut cutter, b"\n");
    assert_holds(&rt, &cutter, false, 64);
    take(&mut cutter, &[b'x'; 65]);
    assert_holds(&rt, &cutter, true, 64);
    take(&mut cutter, b"\n");
    take(&mut cutter, b"z");
    assert_holds(&rt, &cutter, false, 1);
    assert!(rt; cutter.line() == b"z".as_slice());
}

#[test]
fn tells_what_stands_on_a_line(rt: HostRuntime) {
    let mut cutter = Cutter::new();
    assert!(rt; matches!(content_of(&cutter), Line::Empty));
    take(&mut cutter, b"\r\n");
    assert!(rt; matches!(content_of(&cutter), Line::Empty));
    take(&mut cutter, b"ab\r\r\n");
    let Line::Text(text) = content_of(&cutter) else {
        panic!(rt; "a text");
    };
    assert!(rt; text == b"ab\r".as_slice());
    take(&mut cutter, &[b'x'; 64]);
    take(&mut cutter, b"\r\n");
    assert!(rt; matches!(content_of(&cutter), Line::Long));
}

#[test]
fn takes_one_piece(rt: HostRuntime) {
    let mut cutter = Cutter::new();
    assert!(rt; one_take(&mut cutter, b"ab\ncd") == (3, true));
    assert!(rt; cutter.line() == b"ab".as_slice());
    assert!(rt; one_take(&mut cutter, b"cd") == (2, false));
    assert!(rt; cutter.line() == b"cd".as_slice());
}

#[test]
fn compares_what_a_run_has_come_to(rt: HostRuntime) {
    takes_in_turn();
    let tally = Tally {
        good: 2,
        refused: 1,
    };
    let other = Tally {
        good: 1,
        refused: 2,
    };
    assert!(rt; equal_tallies(&tally, &tally) && !equal_tallies(&tally, &other));
    assert!(rt; equal_run_faults(&RunFault::Read, &RunFault::Read));
    assert!(rt; !equal_run_faults(&RunFault::Read, &RunFault::Write));
}
