//! The signs by which a text shows its format.
ghost use Rattle.std.specs.Prelude.{◌≡◌, ◌==◌, ◌++◌, ◌<◌, ◌≤◌, [], ◌∷◌, bytes_eq, length, option_to_list, take};
ghost use Rattle.sq_feed.specs.Finding.{first_shown, has_frame, is_bare_line, is_beast_start, is_framed_line, is_known, is_packed, is_sbs};
ghost use Rattle.sq_feed.specs.Finding.{is_tar, is_utf16, line_sign, marked_sign, other_sign, sign_of_line, sign_of_row};
ghost use Rattle.sq_feed.specs.Finding.{sign_of_word, start_sign, text_sign, told_sign};
ghost use Rattle.sq_feed.specs.Kinds.{kind_of};
ghost use Rattle.sq_feed.specs.Avr.{avr_found};
ghost use Rattle.sq_feed.specs.Rows.{csv_start, row_read, without_mark};
ghost use Rattle.std.specs.Prelude.{if◌then◌else◌, get_or, ◌-◌};

use crate::avr::{Avr, frame_of_word, item_of_word, mark_of};
use crate::machine::Format;
use crate::message::{Found, Kind, Stranger, is_mode_s, kind_of};
use crate::rows::{Columns, LONGEST, Layout, Row, row_read, without_last, without_mark};
use crate::tables::{holds_mode_s, is_row_behind, unread_table};

/// What the first bytes of a source show.
#[derive(Clone, Copy)]
pub(crate) enum Sign {
    /// Nothing.
    Unclear,
    /// A source of this format.
    Shows(Format),
    /// A source of another kind.
    Other(Stranger),
}

// The escape that starts a message of Beast.
const ESCAPE: u8 = 0x1A;

// The index of the name in the header of a tar archive, and the index after it.
const TAR_AT: usize = 257;

const TAR_END: usize = 262;

// Returns the first sign that shows a format, or the other one.
pub(crate) fn first_shown(one: Sign, other: Sign) -> Sign
    ensures { result ≡ first_shown one other }
{
    match one {
        Sign::Unclear => other,
        Sign::Shows(_) => one,
        Sign::Other(_) => other,
    }
}

// Returns the sign of the last byte of a line. `is_framed` says whether an earlier line has a frame, and `is_first`
// whether the source begins with this line.
pub(crate) fn last_byte_sign(line: &[u8], byte: u8, is_framed: bool, is_first: bool) -> Sign
    requires { 0 < length line.now }
    ensures { result ≡ (if byte == 10 then line_sign is_framed (take (length line.now - 1) line.now)
        else (if byte == 59 then marked_sign (take (length line.now - 1) line.now)
        else (if is_first then start_sign line.now else Sign.Unclear))) }
{
    if byte == b'\n' {
        line_sign(is_framed, &line[..line.len() - 1])
    } else if byte == b';' {
        marked_sign(&line[..line.len() - 1])
    } else if is_first {
        start_sign(line)
    } else {
        Sign::Unclear
    }
}

// Returns the sign of a whole line, without its line feed. `is_framed` says whether an earlier line has a frame.
#[tactic(auto, unfolding(crate::specs::Finding::line_sign))]
pub(crate) fn line_sign(is_framed: bool, line: &[u8]) -> Sign
    ensures { result ≡ line_sign is_framed line.now }
{
    first_shown(
        log_sign(line),
        first_shown(
            table_sign(line),
            first_shown(text_sign(is_framed, line), other_sign(without_mark(line))),
        ),
    )
}

// Returns the sign of a line of a log.
fn log_sign(line: &[u8]) -> Sign
    ensures { result ≡ sign_of_line (row_read Layout.Log line.now) }
{
    match row_of(Layout::Log, line) {
        Row::One(Found::Whole(_)) => Sign::Shows(Format::Log),
        Row::One(Found::Damage) => Sign::Unclear,
        Row::One(Found::ReceiverId) => Sign::Unclear,
        Row::One(Found::Foreign(_)) => Sign::Unclear,
        Row::Blank => Sign::Unclear,
        Row::Names(_) => Sign::Unclear,
    }
}

// Returns the sign of a row of a table, or of its names.
fn table_sign(line: &[u8]) -> Sign
    ensures { result ≡ sign_of_row (row_read csv_start line.now) }
{
    let start = Layout::Csv(Columns { time: 0, frame: 2 });
    match row_of(start, line) {
        Row::One(Found::Whole(_)) => Sign::Shows(Format::Csv),
        Row::One(Found::Damage) => Sign::Unclear,
        Row::One(Found::ReceiverId) => Sign::Unclear,
        Row::One(Found::Foreign(_)) => Sign::Unclear,
        Row::Blank => Sign::Unclear,
        Row::Names(_) => Sign::Shows(Format::Csv),
    }
}

// Returns whether a line has a frame, if it is read as AVR text.
pub(crate) fn is_framed_line(line: &[u8]) -> bool
    ensures { result ≡ is_framed_line line.now }
{
    !is_row_behind(b';', line) && has_frame(line)
}

// Returns whether a line is a frame, without a mark or a time.
fn is_bare_line(line: &[u8]) -> bool
    ensures { result ≡ is_bare_line line.now }
{
    holds_mode_s(frame_of_word(without_last(b'\r', without_mark(line))))
}

// Returns the sign of a line that is read as AVR text.
fn text_sign(is_framed: bool, line: &[u8]) -> Sign
    ensures { result ≡ text_sign is_framed line.now }
{
    if is_framed_line(line) && (is_framed || is_bare_line(line)) {
        Sign::Shows(Format::Avr)
    } else {
        Sign::Unclear
    }
}

// Returns whether AVR text has a frame of Mode S.
fn has_frame(text: &[u8]) -> bool
    ensures { result ≡ has_frame (avr_found text.now) }
{
    let mut avr = Avr::new();
    for byte in text {
        if is_framed(avr.take_byte(*byte)) {
            return true;
        }
    }
    is_framed(avr.finish())
}

// Returns whether an item is a message with a frame of Mode S.
fn is_framed(found: Option<Found>) -> bool
    ensures { result ≡ has_frame (option_to_list found) }
{
    match found {
        None => false,
        Some(Found::Whole(message)) => is_mode_s(message.frame),
        Some(Found::Damage) => false,
        Some(Found::ReceiverId) => false,
        Some(Found::Foreign(_)) => false,
    }
}

// Reads a line of any length.
fn row_of(layout: Layout, line: &[u8]) -> Row
    ensures { result ≡ row_read layout line.now }
{
    if line.len() > LONGEST {
        Row::One(Found::Damage)
    } else {
        row_read(layout, line)
    }
}

// Returns the sign of a line of another kind of text, or of a table that is not read.
fn other_sign(line: &[u8]) -> Sign
    ensures { result ≡ other_sign line.now }
{
    if is_sbs(line) {
        Sign::Other(Stranger::Sbs)
    } else if starts(line, b"{") {
        Sign::Other(Stranger::Json)
    } else {
        told_sign(unread_table(line))
    }
}

fn told_sign(stranger: Option<Stranger>) -> Sign
    ensures { result ≡ told_sign stranger }
{
    match stranger {
        Some(stranger) => Sign::Other(stranger),
        None => Sign::Unclear,
    }
}

// Returns whether a line is SBS (BaseStation) text.
fn is_sbs(line: &[u8]) -> bool
    ensures { result ≡ is_sbs line.now }
{
    starts(line, b"MSG,")
        || starts(line, b"SEL,")
        || starts(line, b"ID,")
        || starts(line, b"AIR,")
        || starts(line, b"STA,")
        || starts(line, b"CLK,")
}

// Returns the sign of a marked frame at the start of a line, by the line before its semicolon.
fn marked_sign(line: &[u8]) -> Sign
    ensures { result ≡ marked_sign line.now }
{
    word_sign(without_mark(line))
}

// Returns the sign of a mark and a word.
fn word_sign(text: &[u8]) -> Sign
    ensures { result ≡ sign_of_word text.now }
{
    if text.is_empty() {
        return Sign::Unclear;
    }
    let Some(mark) = mark_of(text[0]) else {
        return Sign::Unclear;
    };
    match item_of_word(mark, &text[1..]) {
        Found::Whole(_) => Sign::Shows(Format::Avr),
        Found::Damage => Sign::Unclear,
        Found::ReceiverId => Sign::Unclear,
        Found::Foreign(_) => Sign::Unclear,
    }
}

// Returns the sign of the first bytes of a source.
#[tactic(auto, unfolding(crate::specs::Finding::start_sign))]
pub(crate) fn start_sign(start: &[u8]) -> Sign
    ensures { result ≡ start_sign start.now }
{
    if is_beast_start(start) {
        Sign::Shows(Format::Beast)
    } else if is_packed(start) {
        Sign::Other(Stranger::Packed)
    } else if is_utf16(start) {
        Sign::Other(Stranger::Utf16)
    } else if is_tar(start) {
        Sign::Other(Stranger::Tar)
    } else {
        Sign::Unclear
    }
}

// Returns whether these two bytes start a message of Beast.
fn is_beast_start(start: &[u8]) -> bool
    ensures { result ≡ is_beast_start start.now }
{
    start.len() == 2 && start[0] == ESCAPE && is_known(kind_of(start[1]))
}

fn is_known(kind: Kind) -> bool
    ensures { result ≡ is_known kind }
{
    match kind {
        Kind::Message(_) => true,
        Kind::Status => true,
        Kind::ReceiverId => true,
        Kind::Unknown => false,
    }
}

// Returns whether these are the first bytes of a packed file.
fn is_packed(start: &[u8]) -> bool
    ensures { result ≡ is_packed start.now }
{
    is_word(start, b"\x1F\x8B\x08")
        || is_word(start, b"BZh")
        || is_word(start, b"\xFD7zXZ")
        || is_word(start, b"\x28\xB5\x2F\xFD")
        || is_word(start, b"PK\x03\x04")
}

// Returns whether these are the first four bytes of text in UTF-16.
fn is_utf16(start: &[u8]) -> bool
    ensures { result ≡ is_utf16 start.now }
{
    start.len() == 4
        && (is_word(&start[..2], b"\xFF\xFE") && is_word(&start[3..], b"\0")
            || is_word(&start[..3], b"\xFE\xFF\0"))
}

// Returns whether these bytes end with the name in the header of a tar archive.
fn is_tar(start: &[u8]) -> bool
    ensures { result ≡ is_tar start.now }
{
    start.len() == TAR_END && is_word(&start[TAR_AT..TAR_END], b"ustar")
}

// Returns whether a text starts with a word.
fn starts(text: &[u8], word: &[u8]) -> bool
    ensures { result ≡ bytes_eq (take (length word.now) text.now) word.now }
{
    text.len() >= word.len() && is_word(&text[..word.len()], word)
}

// Returns whether a text is this word.
fn is_word(text: &[u8], word: &[u8]) -> bool
    ensures { result ≡ bytes_eq text.now word.now }
{
    text == word
}
