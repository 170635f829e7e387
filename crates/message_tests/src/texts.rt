//! Frame texts and their errors, and the texts of squitters.
use sq_angle::{Angle, Position};
use sq_message::{AirFields, Airborne, Code, Frame, FrameFault, Me, Parity, Squitter, write_frame};
use sq_text::{
    LineFault, ShowText, TextBuffer, TextFault, pins, place_text, push_decimal, push_hexadecimal,
    push_summary, read_squitter, read_text, show_text,
};
use std::process::Abort;

const AIR_EVEN: &str = "8D40621D58C382D690C8AC2863A7";

#[test]
fn reads_frame_texts(rt: HostRuntime) {
    let frame = Frame([
        0x8D, 0x40, 0x62, 0x1D, 0x58, 0xC3, 0x82, 0xD6, 0x90, 0xC8, 0xAC, 0x28, 0x63, 0xA7,
    ]);
    assert!(rt; read_text(AIR_EVEN.as_bytes()) == Ok(frame));
    assert!(rt; read_text(b"*8D40621D58C382D690C8AC2863A7;") == Ok(frame));
    assert!(rt; read_text(b"8d40621d58c382d690c8ac2863a7") == Ok(frame));
}

#[test]
fn refuses_other_texts(rt: HostRuntime) {
    let rows: [(&[u8], TextFault); 11] = [
        (b"", TextFault::Length(0)),
        (b"*;", TextFault::Length(0)),
        (b"*", TextFault::Wrap),
        (b";", TextFault::Wrap),
        (b"*8D40621D58C382D690C8AC2863A7", TextFault::Wrap),
        (b"8D40621D58C382D690C8AC2863A7;", TextFault::Wrap),
        (b"*5D40621D000000;", TextFault::Short),
        (b"zzzzzzzzzzzzzz", TextFault::Short),
        (b"8D40621D58C382D690C8AC2863A7 ", TextFault::Length(29)),
        (b"8D\xFF0621D58C382D690C8AC2863A7", TextFault::Digit(3)),
        (b"8D40621D58C382D690C8AC2863AG", TextFault::Digit(28)),
    ];
    for (text, fault) in rows {
        assert!(rt; read_text(text) == Err(fault));
    }
}

#[test]
fn reads_squitters(rt: HostRuntime) {
    assert!(rt; read_squitter(AIR_EVEN.as_bytes()).is_ok());
    assert!(rt; read_squitter(b"8D40621D58C382D690C8AC2863A6") == Err(LineFault::Parity(1)));
    assert!(rt; read_squitter(b"90406B902015A678D4D220AA4BDA") == Err(LineFault::NotDf17(18)));
    assert!(rt; read_squitter(b"5D40621D000000") == Err(LineFault::Short));
}

#[test]
fn converts_faults(rt: HostRuntime) {
    assert!(rt; LineFault::from(TextFault::Wrap) == LineFault::Wrap);
    assert!(rt; LineFault::from(TextFault::Short) == LineFault::Short);
    assert!(rt; LineFault::from(TextFault::Length(2)) == LineFault::Length(2));
    assert!(rt; LineFault::from(TextFault::Digit(2)) == LineFault::Digit(2));
    assert!(rt; LineFault::from(FrameFault::NotDf17(2)) == LineFault::NotDf17(2));
    assert!(rt; LineFault::from(FrameFault::Parity(2)) == LineFault::Parity(2));
}

#[test]
fn writes_numbers(rt: HostRuntime) {
    let mut text = TextBuffer::<64>::new();
    push_decimal(&mut text, 0);
    text.push(b' ');
    push_decimal(&mut text, 18_446_744_073_709_551_615);
    text.push(b' ');
    push_hexadecimal(&mut text, 0x1A0F, 3);
    push_hexadecimal(&mut text, 0x1A0F, 6);
    assert!(rt; text.as_str() == "0 18446744073709551615 A0F001A0F");
}

fn shown(rt: &impl Abort, text: &str) -> ShowText {
    let squitter = read_squitter(text.as_bytes()).expect(rt, "a squitter");
    show_text(&squitter)
}

// Returns the text of an odd airborne position with this altitude field.
fn shown_with(rt: &impl Abort, type_code: u8, field: u16) -> ShowText {
    let fields = AirFields::new(type_code, 2, true, field, true).expect(rt, "fields");
    let code = Code::new(131_071, 7).expect(rt, "a code");
    let me = Me::Airborne(Airborne {
        fields,
        parity: Parity::Odd,
        code,
    });
    let squitter = Squitter::new(7, 0xABC, me).expect(rt, "a squitter");
    assert!(rt; sq_message::read_frame(&write_frame(&squitter)) == Ok(squitter));
    show_text(&squitter)
}

#[test]
fn shows_each_altitude(rt: HostRuntime) {
    let none = shown_with(&rt, 11, 0);
    assert!(rt;
        none.as_str()
            == "address 000ABC\nca 7\ntype 11\nkind air\nstatus 2\nflag 1\naltitude none\ntime 1\nparity odd\nlat 131071\nlon 7\n"
    );
    let raw = shown_with(&rt, 20, 0x00F);
    assert!(rt;
        raw.as_str()
            == "address 000ABC\nca 7\ntype 20\nkind air\nstatus 2\nflag 1\naltitude raw 00F\ntime 1\nparity odd\nlat 131071\nlon 7\n"
    );
    let low = shown_with(&rt, 18, 0x010);
    assert!(rt;
        low.as_str()
            == "address 000ABC\nca 7\ntype 18\nkind air\nstatus 2\nflag 1\naltitude -1000 ft\ntime 1\nparity odd\nlat 131071\nlon 7\n"
    );
}

fn summary_of(rt: &impl Abort, text: &str) -> TextBuffer<72> {
    let squitter = read_squitter(text.as_bytes()).expect(rt, "a squitter");
    let mut summary = TextBuffer::new();
    push_summary(&mut summary, &squitter);
    summary
}

// A frame and its summary.
const SUMMARIES: &str = "\
8D40621D58C382D690C8AC2863A7 ok 40621D air even 93000 51372
8D40621D58C386435CC412692AD6 ok 40621D air odd 74158 50194
8D406B902015A678D4D220AA4BDA ok 406B90 other 4
8C4841753AAB238733C8CD4020B1 ok 484175 ground even 115609 116941
8C4841753A8A35323FAEBDAC702D ok 484175 ground odd 39199 110269";

fn is_summed_up(rt: &impl Abort, row: &str) -> bool {
    let (frame, text) = row.split_once(' ').expect(rt, "a frame and a text");
    summary_of(rt, frame).as_str() == text
}

#[test]
fn sums_squitters_up(rt: HostRuntime) {
    assert!(rt; SUMMARIES.lines().count() == 5);
    for row in SUMMARIES.lines() {
        assert!(rt; is_summed_up(&rt, row), "{row}");
    }
}

#[test]
fn reads_digits_of_either_case(rt: HostRuntime) {
    for byte in 0..=255u8 {
        let text = [
            b'8', b'D', byte, b'0', b'6', b'2', b'1', b'D', b'5', b'8', b'C', b'3', b'8', b'2',
            b'D', b'6', b'9', b'0', b'C', b'8', b'A', b'C', b'2', b'8', b'6', b'3', b'A', b'7',
        ];
        let digit = byte.is_ascii_hexdigit();
        assert!(rt; read_text(&text).is_ok() == digit, "byte {byte}");
        if !digit {
            assert!(rt; read_text(&text) == Err(TextFault::Digit(3)), "byte {byte}");
        }
    }
}

#[test]
fn tells_places(rt: HostRuntime) {
    let rows = [
        (
            (428091, 8192),
            (64215, 16384),
            "52.2572021 3.9193726\n428091/8192 64215/16384\n",
        ),
        (
            (-90, 1),
            (-180, 1),
            "-90.0000000 -180.0000000\n-90/1 -180/1\n",
        ),
        ((0, 7), (30, 60), "0.0000000 0.5000000\n0/1 1/2\n"),
    ];
    for (lat, lon, text) in rows {
        assert_place(&rt, lat, lon, text);
    }
}

// Asserts the two lines of a position.
fn assert_place(rt: &impl Abort, lat: (i64, u64), lon: (i64, u64), text: &str) {
    let lat = Angle::new(lat.0, lat.1).expect(rt, "a latitude");
    let lon = Angle::new(lon.0, lon.1).expect(rt, "a longitude");
    let position = Position::new(lat, lon).expect(rt, "a position");
    assert!(rt; place_text(&position).as_str() == text, "{text}");
}

// Returns whether the frame in the first line of a text is shown as the other lines.
fn is_shown(rt: &impl Abort, text: &str) -> bool {
    let (frame, lines) = text.split_once('\n').expect(rt, "a frame");
    shown(rt, frame).as_str() == lines
}

// Worked frames, and then frames with different values in all fields, written out by hand from the register tables.
const SHOWN: [&str; 8] = [
    "\
8D40621D58C382D690C8AC2863A7
address 40621D
ca 5
type 11
kind air
status 0
flag 0
altitude 38000 ft
time 0
parity even
lat 93000
lon 51372
",
    "\
8C4841753AAB238733C8CD4020B1
address 484175
ca 4
type 7
kind ground
movement 42
track status 1
track 50
time 0
parity even
lat 115609
lon 116941
",
    "\
8D406B902015A678D4D220AA4BDA
address 406B90
ca 5
type 4
kind other
me 2015A678D4D220
",
    "\
8BABCDEF6312360003800091B9A6
address ABCDEF
ca 3
type 12
kind air
status 1
flag 1
altitude raw 123
time 0
parity odd
lat 65537
lon 98304
",
    "\
8E012345AC9A080003FFFE13ADDC
address 012345
ca 6
type 21
kind air
status 2
flag 0
altitude raw 9A0
time 1
parity even
lat 1
lon 131070
",
    "\
89FEDCBA2FF01D00020010BAB6C8
address FEDCBA
ca 1
type 5
kind ground
movement 127
track status 0
track 1
time 1
parity odd
lat 32769
lon 16
",
    "\
8A100001401FF3FFFF0000F71BBB
address 100001
ca 2
type 8
kind ground
movement 1
track status 1
track 127
time 0
parity even
lat 131071
lon 65536
",
    "\
8F000001FFFFFFFFFFFFFF276C6C
address 000001
ca 7
type 31
kind other
me FFFFFFFFFFFFFF
",
];

#[test]
fn shows_squitters(rt: HostRuntime) {
    for text in SHOWN {
        assert!(rt; is_shown(&rt, text), "{text}");
    }
}

#[test]
fn compares_faults(rt: HostRuntime) {
    assert!(rt; pins::equal_text_faults(&TextFault::Digit(3), &TextFault::Digit(3)));
    assert!(rt; !pins::equal_text_faults(&TextFault::Digit(3), &TextFault::Length(3)));
    assert!(rt; pins::equal_line_faults(&LineFault::Parity(1), &LineFault::Parity(1)));
    assert!(rt; !pins::equal_line_faults(&LineFault::Parity(1), &LineFault::Parity(2)));
}
