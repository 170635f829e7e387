//! The formats of `check` and `track`: rows of CSV and of JSON, and a header that cannot be written. More rows are in
//! `tests/worked/check.txt` and `tests/worked/track.txt`.
use crate::faulty_devices::{End, get, room_of, sink_of, source_of, taken};
use crate::outcomes::{assert_outcome, assert_reported, outcome_on, status_of};
use sq_angle::Angle;
use sq_commands::{Request, Status, TrackWords};
use sq_digits::TextBuffer;
use sq_message::{Me, Squitter};
use sq_text::{
    Form, LineFault, kind_name, push_address, push_airborne_feet, push_bit, push_blank,
    push_degrees, push_end, push_fault_word, push_feet, push_hexadecimal_word, push_line,
    push_number, push_signed, push_word, read_squitter,
};
use std::alloc::Global;
use std::process::Abort;

// The squitter of a frame text.
fn squitter_of(rt: &impl Abort, text: &[u8]) -> Squitter {
    match read_squitter(text) {
        Ok(squitter) => squitter,
        Err(_) => panic!(rt; "a frame"),
    }
}

// Returns a row with a value of each sort.
fn row_of(rt: &impl Abort, form: Form, me: &Me) -> TextBuffer<256> {
    let mut text = TextBuffer::new();
    push_line(&mut text, form, 7);
    push_blank(&mut text, form, "none");
    push_number(&mut text, form, "count", 42);
    push_signed(&mut text, form, "signed", -5);
    push_word(&mut text, form, "kind", kind_name(me));
    push_hexadecimal_word(&mut text, form, "digits", 0x0C3, 3);
    push_address(&mut text, form, "address", 0xFF0A_621D);
    push_bit(&mut text, form, "bit", true);
    push_feet(&mut text, form, me);
    match Angle::read("-0.4500000") {
        Ok(angle) => push_degrees(&mut text, form, "lon", &angle),
        Err(_) => panic!(rt; "an angle"),
    }
    push_fault_word(&mut text, form, "answer", LineFault::Digit(3));
    push_end(&mut text, form);
    text
}

const AIR_FRAME: &[u8] = b"8D40621D58C382D690C8AC2863A7";

#[test]
fn makes_rows(rt: HostRuntime) {
    let me = squitter_of(&rt, AIR_FRAME).me();
    let csv = row_of(&rt, Form::Csv, &me);
    assert!(rt; csv.as_str() == "7,,42,-5,air,0C3,0A621D,1,38000,-0.4500000,bad digit 3\n");
    let json = row_of(&rt, Form::Json, &me);
    assert!(rt;
        json.as_str()
            == "{\"line\":7,\"none\":null,\"count\":42,\"signed\":-5,\"kind\":\"air\",\"digits\":\"0C3\",\"address\":\"0A621D\",\"bit\":1,\"feet\":38000,\"lon\":-0.4500000,\"answer\":\"bad digit 3\"}\n"
    );
}

#[test]
fn signed_values_of_each_length(rt: HostRuntime) {
    let mut text = TextBuffer::<128>::new();
    push_signed(&mut text, Form::Csv, "value", 999_999);
    push_signed(&mut text, Form::Csv, "value", 1_000_000);
    push_signed(&mut text, Form::Csv, "value", -999_999);
    push_signed(&mut text, Form::Csv, "value", -1_000_000);
    push_signed(&mut text, Form::Csv, "value", -2_147_483_648);
    assert!(rt; text.as_str() == ",999999,1000000,-999999,-1000000,-2147483648");
}

#[test]
fn tells_feet_of_airborne_positions_alone(rt: HostRuntime) {
    let mut text = TextBuffer::<64>::new();
    push_feet(
        &mut text,
        Form::Csv,
        &squitter_of(&rt, b"8C4841753AAB238733C8CD4020B1").me(),
    );
    assert!(rt; text.as_str() == ",");
    let Me::Airborne(airborne) = squitter_of(&rt, AIR_FRAME).me() else {
        panic!(rt; "an airborne position");
    };
    push_airborne_feet(&mut text, Form::Json, &airborne);
    assert!(rt; text.as_str() == ",,\"feet\":38000");
}

fn track_as(format: &str) -> Request<'_> {
    Request::Track(TrackWords {
        format: Some(format),
        limit: None,
        window: None,
        lat: None,
        lon: None,
    })
}

fn check_as(format: &str) -> Request<'_> {
    Request::Check {
        format: Some(format),
    }
}

const LOG: &[u8] = b"0 8D40621D58C382D690C8AC2863A7\n\n10000 8D40621D58C386435CC412692AD6\nx\n";

#[test]
fn tracks_in_each_format(rt: HostRuntime) {
    let lines = outcome_on(rt.alloc(), track_as("lines"), LOG);
    let told = "1 waiting 40621D\n3 fix 40621D 52.2657802 3.9389125\n4 bad moment\n";
    assert_outcome(&rt, &lines, Status::Refused, told, "");
    let csv = outcome_on(rt.alloc(), track_as("csv"), LOG);
    let told =
        "line,moment,answer,address,kind,lat,lon,feet\n1,0,waiting,40621D,air,,,38000\n3,10000,fix,40621D,air,52.2657802,3.9389125,38000\n4,,bad moment,,,,,\n";
    assert_outcome(&rt, &csv, Status::Refused, told, "");
    let json = outcome_on(rt.alloc(), track_as("json"), b"x");
    let told =
        "{\"line\":1,\"moment\":null,\"answer\":\"bad moment\",\"address\":null,\"kind\":null,\"lat\":null,\"lon\":null,\"feet\":null}\n";
    assert_outcome(&rt, &json, Status::Refused, told, "");
}

#[test]
fn refuses_another_format(rt: HostRuntime) {
    assert_reported(
        &rt,
        rt.alloc(),
        track_as("CSV"),
        Status::Misused,
        "bad format\n",
    );
    assert_reported(
        &rt,
        rt.alloc(),
        check_as(""),
        Status::Misused,
        "bad format\n",
    );
}

// Asserts that nothing is read if the header fails after `room` of its bytes.
fn assert_unread(rt: &impl Abort, alloc: Global, request: Request<'_>, header: &str, room: usize) {
    let mut source = source_of(b"x\n".as_slice());
    let mut sink = sink_of(room_of(alloc, room, End::Error));
    let mut faults = sink_of(Vec::new(alloc));
    let status = status_of(alloc, request, &mut source, &mut sink, &mut faults);
    assert!(rt; status == Status::Broken);
    assert!(rt; taken(faults).as_slice() == b"write failed\n".as_slice());
    assert!(rt; taken(sink).taken.as_slice() == header.as_bytes().get(..room).unwrap_or(b""));
    let mut next = [0; 4];
    assert!(rt; get(&mut source, &mut next) == Ok(2));
}

const TRACK_HEADER: &str = "line,moment,answer,address,kind,lat,lon,feet\n";

const CHECK_HEADER: &str =
    "line,answer,address,ca,type,kind,parity,lat_code,lon_code,time,feet,altitude,status,flag,movement,track_status,track,me\n";

#[test]
fn reads_nothing_before_the_header_is_written(rt: HostRuntime) {
    for room in 0..TRACK_HEADER.len() {
        assert_unread(&rt, rt.alloc(), track_as("csv"), TRACK_HEADER, room);
    }
    for room in 0..CHECK_HEADER.len() {
        assert_unread(&rt, rt.alloc(), check_as("csv"), CHECK_HEADER, room);
    }
}
