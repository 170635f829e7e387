//! The commands that read no input, and command lines that are refused.
use crate::runs::{Row, assert_rows, run_on, sink_of, source_of, status_of, taken};
use sq_tool::{Trouble, refuse_start};
use std::io;
use std::io::{ErrorKind, Write};

const SHOWN: [Row; 6] = [
    Row {
        name: "show of an even airborne frame",
        line: "squitter show 8D40621D58C382D690C8AC2863A7",
        input: b"",
        status: 0,
        written: "address 40621D\nca 5\ntype 11\nkind air\nstatus 0\nflag 0\naltitude 38000 ft\ntime 0\nparity even\nlat 93000\nlon 51372\n",
        reported: "",
    },
    Row {
        name: "show of a ground frame",
        line: "squitter show 8C4841753AAB238733C8CD4020B1",
        input: b"",
        status: 0,
        written: "address 484175\nca 4\ntype 7\nkind ground\nmovement 42\ntrack status 1\ntrack 50\ntime 0\nparity even\nlat 115609\nlon 116941\n",
        reported: "",
    },
    Row {
        name: "show of a frame without a position",
        line: "squitter show 8D406B902015A678D4D220AA4BDA",
        input: b"",
        status: 0,
        written: "address 406B90\nca 5\ntype 4\nkind other\nme 2015A678D4D220\n",
        reported: "",
    },
    Row {
        name: "show of a frame with a remainder",
        line: "squitter show 8D40621D58C382D690C8AC2863A6",
        input: b"",
        status: 1,
        written: "",
        reported: "parity 000001\n",
    },
    Row {
        name: "show of another format before its parity",
        line: "squitter show 90406B902015A678D4D220AA4BDA",
        input: b"",
        status: 1,
        written: "",
        reported: "not DF17 18\n",
    },
    Row {
        name: "show of a reply of 56 bits",
        line: "squitter show 5D40621D000000",
        input: b"",
        status: 1,
        written: "",
        reported: "short frame\n",
    },
];

#[test]
fn shows_frames(rt: HostRuntime) {
    assert_rows(&rt, rt.alloc(), &SHOWN);
}

const ENCODED: [Row; 14] = [
    Row {
        name: "encode next to a transition, even",
        line: "squitter encode --kind air --parity even --address 40621D --feet 38000 --lat 10.4704573 --lon 10",
        input: b"",
        status: 0,
        written: "8D40621D58C382FAF738E411B0AA\n",
        reported: "",
    },
    Row {
        name: "encode next to a transition, odd",
        line: "squitter encode --kind air --parity odd --address 40621D --feet 38000 --lat 10.4704573 --lon 10",
        input: b"",
        status: 0,
        written: "8D40621D58C386DD2D38E486BD11\n",
        reported: "",
    },
    Row {
        name: "encode on the ground",
        line: "squitter encode --kind ground --parity even --address 484175 --lat 52.3230400 --lon 4.7304726",
        input: b"",
        status: 0,
        written: "8C4841753800038733C8CDE5B7BB\n",
        reported: "",
    },
    Row {
        name: "encode of the position of an airborne frame",
        line: "squitter encode --kind air --parity even --address 40621d --feet 38000 --lat 52.2572021 --lon 3.9193726",
        input: b"",
        status: 0,
        written: "8D40621D58C382D690C8AC2863A7\n",
        reported: "",
    },
    Row {
        name: "encode with twelve decimals",
        line: "squitter encode --kind air --parity even --address 40621D --feet 38000 --lat 52.257202100000 --lon 3.919372600000",
        input: b"",
        status: 0,
        written: "8D40621D58C382D690C8AC2863A7\n",
        reported: "",
    },
    Row {
        name: "encode of a latitude past the pole",
        line: "squitter encode --kind air --parity even --address 40621d --feet 38000 --lat=-90.1 --lon 3.9193726",
        input: b"",
        status: 2,
        written: "",
        reported: "lat out of range\n",
    },
    Row {
        name: "encode of a latitude past the pole in the twelfth decimal",
        line: "squitter encode --kind air --parity even --address 40621D --feet 38000 --lat 90.000000000001 --lon 3.919372600000",
        input: b"",
        status: 2,
        written: "",
        reported: "lat out of range\n",
    },
    Row {
        name: "encode with a bad kind before a bad latitude",
        line: "squitter encode --kind sea --parity even --address 40621D --lat x --lon 0",
        input: b"",
        status: 2,
        written: "",
        reported: "bad kind\n",
    },
    Row {
        name: "encode with a bad parity before a bad address",
        line: "squitter encode --kind air --parity up --address 40621 --lat 0 --lon 0",
        input: b"",
        status: 2,
        written: "",
        reported: "bad parity\n",
    },
    Row {
        name: "encode with an address of five digits",
        line: "squitter encode --kind air --parity even --address 40621 --lat 0 --lon 0",
        input: b"",
        status: 2,
        written: "",
        reported: "bad address\n",
    },
    Row {
        name: "encode with feet that no field means",
        line: "squitter encode --kind air --parity even --address 40621D --feet 38010 --lat 0 --lon 0",
        input: b"",
        status: 2,
        written: "",
        reported: "bad feet\n",
    },
    Row {
        name: "encode with feet on the ground",
        line: "squitter encode --kind ground --parity even --address 40621D --feet 38000 --lat 0 --lon 0",
        input: b"",
        status: 2,
        written: "",
        reported: "bad feet\n",
    },
    Row {
        name: "encode with a bad latitude before a longitude out of range",
        line: "squitter encode --kind air --parity even --address 40621D --lat x --lon 180.1",
        input: b"",
        status: 2,
        written: "",
        reported: "lat not a number\n",
    },
    Row {
        name: "encode with a longitude out of range",
        line: "squitter encode --kind air --parity even --address 40621D --lat 0 --lon 180.1",
        input: b"",
        status: 2,
        written: "",
        reported: "lon out of range\n",
    },
];

#[test]
fn encodes_positions(rt: HostRuntime) {
    assert_rows(&rt, rt.alloc(), &ENCODED);
}

const PLACED: [Row; 18] = [
    Row {
        name: "local near a reference in the air",
        line: "squitter local 8D40621D58C382D690C8AC2863A7 --lat 52.258 --lon 3.918",
        input: b"",
        status: 0,
        written: "52.2572021 3.9193726\n428091/8192 64215/16384\n",
        reported: "",
    },
    Row {
        name: "local near a reference on the ground",
        line: "squitter local 8C4841753A8A35323FAEBDAC702D --lat 51.990 --lon 4.375",
        input: b"",
        status: 0,
        written: "52.3206071 4.7347347\n202304115/3866624 2172069/458752\n",
        reported: "",
    },
    Row {
        name: "local of a frame without a position",
        line: "squitter local 8D406B902015A678D4D220AA4BDA --lat 52.258 --lon 3.918",
        input: b"",
        status: 1,
        written: "",
        reported: "not a position\n",
    },
    Row {
        name: "local with a bad latitude",
        line: "squitter local 8D40621D58C386435CC412692AD6 --lat x --lon 0",
        input: b"",
        status: 2,
        written: "",
        reported: "lat not a number\n",
    },
    Row {
        name: "local of a text of two letters",
        line: "squitter local zz --lat 0 --lon 0",
        input: b"",
        status: 1,
        written: "",
        reported: "bad length 2\n",
    },
    Row {
        name: "pair of an odd and then an even frame",
        line: "squitter pair 8D40621D58C386435CC412692AD6 8D40621D58C382D690C8AC2863A7",
        input: b"",
        status: 0,
        written: "52.2572021 3.9193726\n428091/8192 64215/16384\n",
        reported: "",
    },
    Row {
        name: "pair of an even and then an odd frame",
        line: "squitter pair 8D40621D58C382D690C8AC2863A7 8D40621D58C386435CC412692AD6",
        input: b"",
        status: 0,
        written: "52.2657802 3.9389125\n25261515/483328 225873/57344\n",
        reported: "",
    },
    Row {
        name: "pair on the ground",
        line: "squitter pair 8C4841753AAB238733C8CD4020B1 8C4841753A8A35323FAEBDAC702D --lat 51.990 --lon 4.375",
        input: b"",
        status: 0,
        written: "52.3206071 4.7347347\n202304115/3866624 2172069/458752\n",
        reported: "",
    },
    Row {
        name: "pair on the ground the other way",
        line: "squitter pair 8C4841753A8A35323FAEBDAC702D 8C4841753AAB238733C8CD4020B1 --lat 51.990 --lon 4.375",
        input: b"",
        status: 0,
        written: "52.3230400 4.7304726\n13716171/262144 1240065/262144\n",
        reported: "",
    },
    Row {
        name: "pair on the ground 90 degrees to the east",
        line: "squitter pair 8C4841753AAB238733C8CD4020B1 8C4841753A8A35323FAEBDAC702D --lat 51.990 --lon 94.375",
        input: b"",
        status: 0,
        written: "52.3206071 94.7347347\n202304115/3866624 43459749/458752\n",
        reported: "",
    },
    Row {
        name: "pair on the ground across 180 degrees",
        line: "squitter pair 8C4841753AAB238733C8CD4020B1 8C4841753A8A35323FAEBDAC702D --lat 51.990 --lon 179",
        input: b"",
        status: 0,
        written: "52.3206071 -175.2652653\n202304115/3866624 -80403291/458752\n",
        reported: "",
    },
    Row {
        name: "pair on the ground in the south",
        line: "squitter pair 8C4841753AAB238733C8CD4020B1 8C4841753A8A35323FAEBDAC702D --lat=-38.01 --lon 4.375",
        input: b"",
        status: 0,
        written: "-37.6793929 5.5590373\n-145692045/3866624 16758585/3014656\n",
        reported: "",
    },
    Row {
        name: "pair with two zone counts",
        line: "squitter pair 8D40621D58C382FAF738E411B0AA 8D40621D58C386DD2D38E486BD11",
        input: b"",
        status: 1,
        written: "",
        reported: "zone counts 58 59\n",
    },
    Row {
        name: "pair on the ground without a site",
        line: "squitter pair 8C4841753AAB238733C8CD4020B1 8C4841753A8A35323FAEBDAC702D",
        input: b"",
        status: 1,
        written: "",
        reported: "no site\n",
    },
    Row {
        name: "pair with half a site",
        line: "squitter pair 8C4841753AAB238733C8CD4020B1 8C4841753A8A35323FAEBDAC702D --lat 51.990",
        input: b"",
        status: 2,
        written: "",
        reported: "site needs lat and lon\n",
    },
    Row {
        name: "pair with a frame without a position",
        line: "squitter pair 8D40621D58C382D690C8AC2863A7 8D406B902015A678D4D220AA4BDA",
        input: b"",
        status: 1,
        written: "",
        reported: "not a position\n",
    },
    Row {
        name: "pair of two addresses",
        line: "squitter pair 8D40621D58C382D690C8AC2863A7 8C4841753A8A35323FAEBDAC702D",
        input: b"",
        status: 1,
        written: "",
        reported: "other address\n",
    },
    Row {
        name: "pair of one parity",
        line: "squitter pair 8D40621D58C382D690C8AC2863A7 8D40621D58C382D690C8AC2863A7",
        input: b"",
        status: 1,
        written: "",
        reported: "same parity\n",
    },
];

#[test]
fn decodes_places(rt: HostRuntime) {
    assert_rows(&rt, rt.alloc(), &PLACED);
}

const TRACKER_WORDS: [Row; 4] = [
    Row {
        name: "track with no limit",
        line: "squitter track --limit 0",
        input: b"",
        status: 2,
        written: "",
        reported: "limit is 0\n",
    },
    Row {
        name: "track with a limit of 2^32",
        line: "squitter track --limit 4294967296",
        input: b"",
        status: 2,
        written: "",
        reported: "bad limit\n",
    },
    Row {
        name: "track with a window that is no number",
        line: "squitter track --window x",
        input: b"",
        status: 2,
        written: "",
        reported: "bad window\n",
    },
    Row {
        name: "track with half a site",
        line: "squitter track --lon 4.375",
        input: b"",
        status: 2,
        written: "",
        reported: "site needs lat and lon\n",
    },
];

#[test]
fn refuses_options_of_track(rt: HostRuntime) {
    assert_rows(&rt, rt.alloc(), &TRACKER_WORDS);
}

// Command lines that clap refuses.
const BAD_LINES: [&str; 5] = [
    "squitter",
    "squitter show",
    "squitter fly",
    "squitter check frames.txt",
    "squitter --help",
];

#[test]
fn refuses_command_lines(rt: HostRuntime) {
    for line in BAD_LINES {
        let ran = run_on(rt.alloc(), line, b"".as_slice());
        assert!(rt; ran.status == 2);
        assert!(rt; ran.written.is_empty());
        assert!(rt; !ran.reported.is_empty());
    }
}

// Takes no byte.
#[derive(Drop)]
struct Full;

impl Write for Full {
    fn write(&mut self, _bytes: &[u8]) -> io::Result<usize> {
        Err(io::Error::from(ErrorKind::Other))
    }

    fn flush(&mut self) -> io::Result<()> {
        Ok(())
    }
}

// If the output takes no byte, each of four valid commands reports the failed write, and ends with status 3.
#[test]
fn tells_a_writer_that_fails(rt: HostRuntime) {
    for row in [SHOWN[0], ENCODED[0], PLACED[0], PLACED[5]] {
        let mut input = source_of(b"".as_slice());
        let mut output = sink_of(Full);
        let mut faults = sink_of(Vec::new(rt.alloc()));
        let status = status_of(rt.alloc(), row.line, &mut input, &mut output, &mut faults);
        assert!(rt; status == 3, "{}", row.name);
        assert!(rt;
            taken(faults).as_slice() == b"write failed\n".as_slice(),
            "{}",
            row.name
        );
    }
}

#[test]
fn reports_why_it_cannot_begin(rt: HostRuntime) {
    let mut faults = sink_of(Vec::new(rt.alloc()));
    assert!(rt; refuse_start(Trouble::Words, &mut faults) == 2);
    assert!(rt; refuse_start(Trouble::Memory, &mut faults) == 3);
    let told = b"bad words\nout of memory\n".as_slice();
    assert!(rt; taken(faults).as_slice() == told);
}
