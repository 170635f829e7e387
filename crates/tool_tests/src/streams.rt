//! The commands that read lines: worked inputs, and the same in pieces of few bytes.
use crate::runs::{Row, assert_ran, assert_rows, run_on};
use std::alloc::Global;
use std::io;
use std::io::Read;
use std::process::Abort;

const IN_PIECES: [Row; 9] = [
    Row {
        name: "check of ten lines",
        line: "squitter check",
        input: b"*8D40621D58C382D690C8AC2863A7;\n8d40621d58c386435cc412692ad6\n\n5D40621D000000\n8D40621D58C382D690C8AC2863A6\n90406B902015A678D4D220AA4BDA\n8D406B902015A678D4D220AA4BDA\n8D40621D58C382D690C8AC2863AG\n*8D40621D58C382D690C8AC2863A7\n8C4841753AAB238733C8CD4020B1",
        status: 1,
        written: "1 ok 40621D air even 93000 51372\n2 ok 40621D air odd 74158 50194\n4 short frame\n5 parity 000001\n6 not DF17 18\n7 ok 406B90 other 4\n8 bad digit 28\n9 bad wrapping\n10 ok 484175 ground even 115609 116941\n",
        reported: "",
    },
    Row {
        name: "track next to a transition",
        line: "squitter track",
        input: b"0 8D40621D58C382FAF738E411B0AA\n1 8D40621D58C386DD2D38E486BD11\n",
        status: 0,
        written: "1 waiting 40621D\n2 split 40621D 58 59\n",
        reported: "",
    },
    Row {
        name: "track within the window",
        line: "squitter track",
        input: b"0 8D40621D58C382D690C8AC2863A7\n10000 8D40621D58C386435CC412692AD6\n",
        status: 0,
        written: "1 waiting 40621D\n2 fix 40621D 52.2657802 3.9389125\n",
        reported: "",
    },
    Row {
        name: "track past the window",
        line: "squitter track",
        input: b"0 8D40621D58C382D690C8AC2863A7\n10001 8D40621D58C386435CC412692AD6\n",
        status: 0,
        written: "1 waiting 40621D\n2 waiting 40621D\n",
        reported: "",
    },
    Row {
        name: "track of two frames at one moment",
        line: "squitter track",
        input: b"5 8D40621D58C382D690C8AC2863A7\n5 8D40621D58C386435CC412692AD6\n",
        status: 0,
        written: "1 waiting 40621D\n2 fix 40621D 52.2657802 3.9389125\n",
        reported: "",
    },
    Row {
        name: "track of a moment that goes back",
        line: "squitter track",
        input: b"0 8D40621D58C382D690C8AC2863A7\n9000 8D40621D58C382D690C8AC2863A7\n15000 8D40621D58C386435CC412692AD6\n14999 8D40621D58C382D690C8AC2863A7\n",
        status: 1,
        written: "1 waiting 40621D\n2 waiting 40621D\n3 fix 40621D 52.2657802 3.9389125\n4 moment back 15000\n",
        reported: "",
    },
    Row {
        name: "track with a full table",
        line: "squitter track --limit 1",
        input: b"0 8D40621D58C382D690C8AC2863A7\n10000 8C4841753AAB238733C8CD4020B1\n10001 8C4841753AAB238733C8CD4020B1\n10001 8C4841753A8A35323FAEBDAC702D\n",
        status: 1,
        written: "1 waiting 40621D\n2 table full\n3 waiting 484175\n4 no site 484175\n",
        reported: "",
    },
    Row {
        name: "feed of text without a clock",
        line: "squitter feed --format=avr",
        input: b"*8D40621D58C382D690C8AC2863A7;\n*5D40621D000000;\n*8D40621D58C386435CC412692AD6;\n",
        status: 0,
        written: "0 8D40621D58C382D690C8AC2863A7\n0 8D40621D58C386435CC412692AD6\n",
        reported: "all frames of this file have the timestamp 0, as without times: old ones pair with new\n2 written, 1 of other downlink formats (DF11 1)\n",
    },
    Row {
        name: "feed of a log",
        line: "squitter feed --format log",
        input: b"7 8D40621D58C382D690C8AC2863A7\n8 *8D40621D58C386435CC412692AD6;",
        status: 0,
        written: "7 8D40621D58C382D690C8AC2863A7\n8 8D40621D58C386435CC412692AD6\n",
        reported: "2 written\n",
    },
];

// Gives its text in reads of at most `size` bytes.
#[derive(Drop)]
struct Pieces {
    text: &'static [u8],
    size: usize,
}

impl Read for Pieces {
    fn read(&mut self, into: &mut [u8]) -> io::Result<usize> {
        let count = self.text.len().min(self.size).min(into.len());
        let (piece, rest) = self.text.split_at(count);
        into[..count].copy_from_slice(piece);
        self.text = rest;
        Ok(count)
    }
}

// Asserts the outcome of each row if `size` bytes are read at a time.
fn assert_in_pieces(rt: &impl Abort, alloc: Global, size: usize) {
    for row in IN_PIECES {
        let text = row.input;
        assert_ran(rt, &run_on(alloc, row.line, Pieces { text, size }), &row);
    }
}

#[test]
fn answers_lines_in_pieces(rt: HostRuntime) {
    for size in [1, 2, 3, 63, 64, 65, usize::MAX] {
        assert_in_pieces(&rt, rt.alloc(), size);
    }
}

const AT_THE_EDGES: [Row; 13] = [
    Row {
        name: "check of no input",
        line: "squitter check",
        input: b"",
        status: 0,
        written: "",
        reported: "",
    },
    Row {
        name: "check of a line of 65 digits and one of 64",
        line: "squitter check",
        input: b"00000000000000000000000000000000000000000000000000000000000000000\n0000000000000000000000000000000000000000000000000000000000000000\n",
        status: 1,
        written: "1 long line\n2 bad length 64\n",
        reported: "",
    },
    Row {
        name: "track of a pair on the ground",
        line: "squitter track --lat 51.990 --lon 4.375",
        input: b"0 8C4841753AAB238733C8CD4020B1\n1 8C4841753A8A35323FAEBDAC702D\n",
        status: 0,
        written: "1 waiting 484175\n2 fix 484175 52.3206071 4.7347347\n",
        reported: "",
    },
    Row {
        name: "track that follows a fix",
        line: "squitter track",
        input: b"0 8D40621D58C382D690C8AC2863A7\n6000 8D40621D58C386435CC412692AD6\n12000 8D40621D58C386435CC412692AD6\n22000 8D40621D58C386435CC412692AD6\n32001 8D40621D58C386435CC412692AD6\n32001 8D40621D58C382D690C8AC2863A7\n",
        status: 0,
        written: "1 waiting 40621D\n2 fix 40621D 52.2657802 3.9389125\n3 followed 40621D 52.2657802 3.9389125\n4 followed 40621D 52.2657802 3.9389125\n5 waiting 40621D\n6 fix 40621D 52.2572021 3.9193726\n",
        reported: "",
    },
    Row {
        name: "track of a moment of twenty digits",
        line: "squitter track",
        input: b"00000000000000000007 8D40621D58C382D690C8AC2863A7\n",
        status: 0,
        written: "1 waiting 40621D\n",
        reported: "",
    },
    Row {
        name: "track of no moment",
        line: "squitter track",
        input: b"8D40621D58C382D690C8AC2863A7\n 8D40621D58C382D690C8AC2863A7\n-1 8D40621D58C382D690C8AC2863A7\n",
        status: 1,
        written: "1 bad moment\n2 bad moment\n3 bad moment\n",
        reported: "",
    },
    Row {
        name: "track of moments that are too large",
        line: "squitter track",
        input: b"18446744073709551616 8D40621D58C382D690C8AC2863A7\n000000000000000000000 8D40621D58C382D690C8AC2863A7\n",
        status: 1,
        written: "1 bad moment\n2 bad moment\n",
        reported: "",
    },
    Row {
        name: "track of a moment without a frame, and of two spaces",
        line: "squitter track",
        input: b"0 \n0  8D40621D58C382D690C8AC2863A7\n",
        status: 1,
        written: "1 bad length 0\n2 bad length 29\n",
        reported: "",
    },
    Row {
        name: "check of two carriage returns",
        line: "squitter check",
        input: b"8D40621D58C382D690C8AC2863A7\r\r\n",
        status: 1,
        written: "1 bad length 29\n",
        reported: "",
    },
    Row {
        name: "check of a carriage return alone",
        line: "squitter check",
        input: b"\r\n",
        status: 0,
        written: "",
        reported: "",
    },
    Row {
        name: "check of 63 digits and a carriage return, and of 64",
        line: "squitter check",
        input: b"000000000000000000000000000000000000000000000000000000000000000\r\n0000000000000000000000000000000000000000000000000000000000000000\r\n",
        status: 1,
        written: "1 bad length 63\n2 long line\n",
        reported: "",
    },
    Row {
        name: "check of an input that ends before a line feed",
        line: "squitter check",
        input: b"*8D40621D58C382D690C8AC2863A7;",
        status: 0,
        written: "1 ok 40621D air even 93000 51372\n",
        reported: "",
    },
    Row {
        name: "check of an input that ends within a frame",
        line: "squitter check",
        input: b"*8D40621D58C382D690C8AC2863A7",
        status: 1,
        written: "1 bad wrapping\n",
        reported: "",
    },
];

#[test]
fn answers_lines_at_the_edges(rt: HostRuntime) {
    assert_rows(&rt, rt.alloc(), &AT_THE_EDGES);
}
