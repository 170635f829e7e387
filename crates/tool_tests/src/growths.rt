//! Allocations that fail. With memory, each command has the outcome of its row. If any one allocation is refused, the
//! command has the same outcome, or reports that memory ran out after a prefix of its output. `hostile/growths` refuses
//! the allocations one after another.
use crate::runs::{Ran, Row, run_into};
use std::alloc::Global;
use std::process::Abort;

const COMMANDS: [Row; 7] = [
    Row {
        name: "show of an even airborne frame",
        line: "squitter show 8D40621D58C382D690C8AC2863A7",
        input: b"",
        status: 0,
        written: "address 40621D\nca 5\ntype 11\nkind air\nstatus 0\nflag 0\naltitude 38000 ft\ntime 0\nparity even\nlat 93000\nlon 51372\n",
        reported: "",
    },
    Row {
        name: "encode",
        line: "squitter encode --kind air --parity even --address 40621D --feet 38000 --lat 10.4704573 --lon 10",
        input: b"",
        status: 0,
        written: "8D40621D58C382FAF738E411B0AA\n",
        reported: "",
    },
    Row {
        name: "local near a reference in the air",
        line: "squitter local 8D40621D58C382D690C8AC2863A7 --lat 52.258 --lon 3.918",
        input: b"",
        status: 0,
        written: "52.2572021 3.9193726\n428091/8192 64215/16384\n",
        reported: "",
    },
    Row {
        name: "pair on the ground",
        line: "squitter pair 8C4841753AAB238733C8CD4020B1 8C4841753A8A35323FAEBDAC702D --lat 51.990 --lon 4.375",
        input: b"",
        status: 0,
        written: "52.3206071 4.7347347\n202304115/3866624 2172069/458752\n",
        reported: "",
    },
    Row {
        name: "check of ten lines",
        line: "squitter check",
        input: b"*8D40621D58C382D690C8AC2863A7;\n8d40621d58c386435cc412692ad6\n\n5D40621D000000\n8D40621D58C382D690C8AC2863A6\n90406B902015A678D4D220AA4BDA\n8D406B902015A678D4D220AA4BDA\n8D40621D58C382D690C8AC2863AG\n*8D40621D58C382D690C8AC2863A7\n8C4841753AAB238733C8CD4020B1",
        status: 1,
        written: "1 ok 40621D air even 93000 51372\n2 ok 40621D air odd 74158 50194\n4 short frame\n5 parity 000001\n6 not DF17 18\n7 ok 406B90 other 4\n8 bad digit 28\n9 bad wrapping\n10 ok 484175 ground even 115609 116941\n",
        reported: "",
    },
    Row {
        name: "track of a moment that goes back",
        line: "squitter track",
        input: b"0 8D40621D58C382D690C8AC2863A7\n9000 8D40621D58C382D690C8AC2863A7\n15000 8D40621D58C386435CC412692AD6\n14999 8D40621D58C382D690C8AC2863A7\n",
        status: 1,
        written: "1 waiting 40621D\n2 waiting 40621D\n3 fix 40621D 52.2657802 3.9389125\n4 moment back 15000\n",
        reported: "",
    },
    Row {
        name: "feed of text without a clock",
        line: "squitter feed --format=avr",
        input: b"*8D40621D58C382D690C8AC2863A7;\n*2040;\n",
        status: 0,
        written: "0 8D40621D58C382D690C8AC2863A7\n",
        reported: "1 written, 1 of Mode A/C\n",
    },
];

const OUT_OF_MEMORY: &str = "out of memory\n";

// Returns whether a command had its outcome with memory, or reported that memory ran out after a prefix of its output.
fn is_as_with_memory(ran: &Ran, row: &Row) -> bool {
    let (written, reported) = (ran.written.as_slice(), ran.reported.as_slice());
    if ran.status == row.status {
        return written == row.written.as_bytes() && reported == row.reported.as_bytes();
    }
    ran.status == 3
        && reported == OUT_OF_MEMORY.as_bytes()
        && row.written.as_bytes().starts_with(written)
}

// Asserts the outcome of a command. The texts for its output and its report are allocated before it begins, so only
// an allocation of the program can be refused. If one of these texts is refused, there is nothing to assert.
fn assert_with_or_without_memory(rt: &impl Abort, alloc: Global, row: &Row) {
    let Ok(written) = Vec::with_capacity(alloc, 512) else {
        return;
    };
    let Ok(reported) = Vec::with_capacity(alloc, 512) else {
        return;
    };
    let ran = run_into(alloc, row.line, row.input, written, reported);
    assert!(rt; is_as_with_memory(&ran, row), "{}", row.name);
}

#[test]
fn tells_that_memory_ran_out(rt: HostRuntime) {
    for row in COMMANDS {
        assert_with_or_without_memory(&rt, rt.alloc(), &row);
    }
}
