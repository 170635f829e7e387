//! Texts of errors: as they are pushed, and as `Display` writes them.
use arrayvec::ArrayString;
use sq_cpr::{LocalFault, PairFault};
use sq_digits::TextBuffer;
use sq_text::{FrameFault, LineFault, PlaceFault, TextFault, push_fault, push_place_fault};
use sq_track::TrackFault;
use std::fmt;
use std::fmt::Write;

// Returns the `Display` text of an error.
fn shown(fault: impl fmt::Display + Drop) -> ArrayString<32> {
    let mut text = ArrayString::new();
    write!(text, "{fault}").unwrap_or(());
    text
}

fn line_text(fault: LineFault) -> TextBuffer<32> {
    let mut text = TextBuffer::new();
    push_fault(&mut text, fault);
    text
}

fn place_text(fault: PlaceFault) -> TextBuffer<32> {
    let mut text = TextBuffer::new();
    push_place_fault(&mut text, fault);
    text
}

// Returns whether an error is pushed as this text, and its `Display` writes the same text.
fn is_line_text(fault: LineFault, text: &str) -> bool {
    line_text(fault).as_str() == text && shown(fault).as_str() == text
}

fn is_place_text(fault: PlaceFault, text: &str) -> bool {
    place_text(fault).as_str() == text && shown(fault).as_str() == text
}

const LINE_FAULTS: [(LineFault, &str); 11] = [
    (LineFault::LongLine, "long line"),
    (LineFault::Moment, "bad moment"),
    (LineFault::Wrap, "bad wrapping"),
    (LineFault::Short, "short frame"),
    (LineFault::Length(64), "bad length 64"),
    (LineFault::Digit(28), "bad digit 28"),
    (LineFault::NotDf17(18), "not DF17 18"),
    (LineFault::Parity(1), "parity 000001"),
    (LineFault::Parity(0xFFF409), "parity FFF409"),
    (
        LineFault::MomentBack(u64::MAX),
        "moment back 18446744073709551615",
    ),
    (LineFault::Full, "table full"),
];

#[test]
fn tells_faults_of_lines(rt: HostRuntime) {
    for (fault, text) in LINE_FAULTS {
        assert!(rt; is_line_text(fault, text), "{text}");
    }
}

const PLACE_FAULTS: [(PlaceFault, &str); 9] = [
    (PlaceFault::NotPosition, "not a position"),
    (PlaceFault::OtherAddress, "other address"),
    (PlaceFault::OtherKind, "other kind"),
    (PlaceFault::SameParity, "same parity"),
    (PlaceFault::NoSite, "no site"),
    (PlaceFault::OutOfRange, "latitude out of range"),
    (PlaceFault::ZoneCounts(58, 59), "zone counts 58 59"),
    (PlaceFault::ZoneCounts(2, 1), "zone counts 2 1"),
    (PlaceFault::ZoneCounts(2, 59), "zone counts 2 59"),
];

#[test]
fn tells_faults_of_places(rt: HostRuntime) {
    for (fault, text) in PLACE_FAULTS {
        assert!(rt; is_place_text(fault, text), "{text}");
    }
}

#[test]
fn shows_faults_of_frames_as_those_of_lines(rt: HostRuntime) {
    for fault in [
        TextFault::Wrap,
        TextFault::Short,
        TextFault::Length(29),
        TextFault::Digit(28),
    ] {
        assert!(rt; shown(fault).as_str() == line_text(LineFault::from(fault)).as_str());
    }
    for fault in [FrameFault::NotDf17(18), FrameFault::Parity(0xABC)] {
        assert!(rt; shown(fault).as_str() == line_text(LineFault::from(fault)).as_str());
    }
}

const TRACK_FAULTS: [(TrackFault, &str); 4] = [
    (TrackFault::NoLimit, "limit is 0"),
    (TrackFault::Memory, "out of memory"),
    (TrackFault::MomentBack(15000), "moment back 15000"),
    (TrackFault::Full, "table full"),
];

#[test]
fn shows_faults_of_trackers(rt: HostRuntime) {
    for (fault, text) in TRACK_FAULTS {
        assert!(rt; shown(fault).as_str() == text, "{text}");
    }
}

#[test]
fn shows_faults_of_codes_as_those_of_places(rt: HostRuntime) {
    let counts = PairFault::ZoneCounts(58, 59);
    assert!(rt; shown(counts).as_str() == place_text(PlaceFault::from(counts)).as_str());
    let range = LocalFault::OutOfRange;
    assert!(rt; shown(range).as_str() == place_text(PlaceFault::from(range)).as_str());
}
