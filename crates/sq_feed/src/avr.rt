//! The items of AVR text, which is pushed in pieces of any length.
ghost use Rattle.std.specs.Prelude.{◌≡◌, ◌++◌, ◌<◌, ◌≤◌, ◌*◌, ◌+◌, [], ◌∷◌, None, Some, length, take, option_to_list, OnSome, IfNone, IfSome, slice_index, true, false};
ghost use Rattle.std.specs.Char.{digit_value};
ghost use Rattle.sq_feed.specs.Avr.{AreHex, avr_message, avr_to_come, bytes_of, edge_of, is_hex, item_of, items_at};
ghost use Rattle.sq_feed.specs.Avr.{are_hex, bare, cut_word, frame_of_word, lead, no_word_begun, opened_by, size_of, stray_word, word_of};
ghost use Rattle.sq_feed.specs.Follows.{Follows};
ghost use Rattle.sq_feed.specs.Avr.{IsWholeWord, avr_found, mark_of};
ghost use Rattle.sq_feed.specs.declared.avr.Edge.TheVariants.{LineEnd};
ghost use Rattle.sq_feed.specs.declared.avr.Mark.TheVariants.{Plain, Clocked};
ghost use Rattle.sq_feed.specs.Kinds.{frame_len};

use crate::message::{self, Found, Message, RawFrame, Size, Time};
use arrayvec::ArrayVec;
use sq_digits::{decode_28, decode_40};
use std::marker::Model;

// The most digits between a mark and its semicolon.
const MOST: usize = 42;

// The digits of a long frame.
const LONG: usize = 28;

/// The digits that follow a mark: a frame's; a clock's and a frame's; or a clock's, a signal strength's and a frame's.
#[derive(Clone, Copy)]
pub enum Mark {
    Plain,
    Clocked,
    Signalled,
}

/// What ends a word: the mark of the next one, a semicolon, or the end of the line.
#[derive(Clone, Copy)]
pub enum Edge {
    Opening(Mark),
    Closing,
    LineEnd,
}

/// Splits AVR text into frames and damage. Holds the digits of one unfinished frame, and allocates nothing.
#[derive(Drop)]
pub struct Avr {
    opener: Option<Mark>,
    digits: ArrayVec<u8, 42>,
    is_bad: bool,
}

impl Model for Avr {
    ghost use Rattle.sq_feed.specs.Avr.{AreHex, BegunWord};

    ghost Value = { BegunWord };

    ghost view = { λ s. record { opener = s.opener; digits = s.digits.items; is_bad = s.is_bad } };

    ghost invariant = { λ s. AreHex s.digits.items };
}

impl Avr {
    /// Returns a machine at the start of a text.
    pub fn new() -> Self
        ensures { result ≡ no_word_begun }
    {
        Avr {
            opener: None,
            digits: ArrayVec::new(),
            is_bad: false,
        }
    }

    /// Takes text up to the end of the first item, or all of it. Returns how many bytes it took, and the item. The
    /// items of all calls do not depend on how the text was cut into pieces.
    pub fn take(&mut self, piece: &[u8]) -> (usize, Option<Found>)
        ensures fits { result.0 ≤ length piece.now }
        ensures all { IfNone result.1 (result.0 ≡ length piece.now) }
        ensures some { OnSome result.1 (0 < result.0) }
        ensures hex { AreHex self.new.digits }
        ensures follows { Follows (avr_to_come self.old) (take result.0 piece.now) (option_to_list result.1)
            (avr_to_come self.new) }
    {
        let _ = &self.opener;
        if let Some((message, count)) = self.whole(piece) {
            return (count, Some(Found::Whole(message)));
        }
        self.take_bytes(piece)
    }

    // Does what `take` does, byte by byte.
    #[inline(never)]
    fn take_bytes(&mut self, piece: &[u8]) -> (usize, Option<Found>)
        ensures fits { result.0 ≤ length piece.now }
        ensures all { IfNone result.1 (result.0 ≡ length piece.now) }
        ensures some { OnSome result.1 (0 < result.0) }
        ensures hex { AreHex self.new.digits }
        ensures follows { Follows (avr_to_come self.old) (take result.0 piece.now) (option_to_list result.1)
            (avr_to_come self.new) }
    {
        let _ = &self.opener;
        for (at, byte) in piece.iter().enumerate() {
            if let Some(found) = self.take_byte(*byte) {
                return (at + 1, Some(found));
            }
        }
        (piece.len(), None)
    }

    // Returns whether nothing is begun.
    #[inline(always)]
    fn is_new(&self) -> bool
        ensures opener { result ≡ true → self.now.opener ≡ None }
        ensures digits { result ≡ true → self.now.digits ≡ [] }
        ensures good { result ≡ true → self.now.is_bad ≡ false }
    {
        match self.opener {
            Some(_) => false,
            None => !self.is_bad && self.digits.is_empty(),
        }
    }

    // Returns the first message of a piece and its length, if nothing is begun and it is a long frame after a mark.
    // Line ends may come before the mark.
    #[inline(always)]
    pub(crate) fn whole(&self, piece: &[u8]) -> Option<(Message, usize)>
        ensures { IfSome result (λ p. (0 < p.1) × (p.1 ≤ length piece.now)
            × Follows (avr_to_come self.now) (take p.1 piece.now) (Found.Whole p.0 ∷ []) (avr_to_come self.now)) }
    {
        if !self.is_new() {
            return None;
        }
        let ends = line_ends(piece);
        match marked(&piece[ends..]) {
            Some((message, count)) => Some((message, ends + count)),
            None => None,
        }
    }

    /// Returns the item at the end of the text, if there is one: a frame without a line end, or damage.
    pub fn finish(&self) -> Option<Found>
        ensures { option_to_list result ≡ avr_to_come self.now [] }
    {
        match self.opener {
            Some(_) => Some(Found::Damage),
            None => self.bare(),
        }
    }

    // Returns the items if the text is cut off here: damage, if anything is begun.
    pub(crate) fn cut_off(&self) -> Option<Found>
        ensures { option_to_list result ≡ cut_word self.now }
    {
        self.item(Edge::Opening(Mark::Plain))
    }

    // Takes one byte of the text.
    #[inline(always)]
    pub(crate) fn take_byte(&mut self, byte: u8) -> Option<Found>
        ensures hex { AreHex self.new.digits }
        ensures follows { Follows (avr_to_come self.old) (byte ∷ []) (option_to_list result) (avr_to_come self.new) }
    {
        match edge_of(byte) {
            Some(edge) => self.close(edge),
            None => {
                self.add(byte);
                None
            }
        }
    }

    // Takes a byte of a word. A word with a byte that is not a digit, or with more than 42 digits, cannot be a frame.
    fn add(&mut self, byte: u8)
        requires { edge_of byte ≡ None }
        ensures hex { AreHex self.new.digits }
        ensures follows { Follows (avr_to_come self.old) (byte ∷ []) [] (avr_to_come self.new) }
    {
        if self.is_bad {
            return;
        }
        if !is_hex(byte) {
            self.is_bad = true;
            return;
        }
        if self.digits.len() < MOST {
            self.digits.push(byte);
        } else {
            self.is_bad = true;
        }
    }

    // Ends a word. Returns its item, if it has one.
    fn close(&mut self, edge: Edge) -> Option<Found>
        ensures hex { AreHex self.new.digits }
        ensures items { option_to_list result ≡ items_at self.old.opener
            (word_of self.old.digits self.old.is_bad) edge }
        ensures opener { self.new.opener ≡ opened_by edge }
        ensures word { word_of self.new.digits self.new.is_bad ≡ [] }
    {
        let item = self.item(edge);
        self.opener = opened_by(edge);
        self.digits = ArrayVec::new();
        self.is_bad = false;
        item
    }

    // Returns the item of the word so far, if it has one.
    #[inline(always)]
    fn item(&self, edge: Edge) -> Option<Found>
        ensures { option_to_list result ≡ items_at self.now.opener (word_of self.now.digits self.now.is_bad) edge }
    {
        match self.opener {
            Some(mark) => match edge {
                Edge::Closing => Some(self.item_of(mark)),
                Edge::LineEnd => Some(Found::Damage),
                Edge::Opening(_) => Some(Found::Damage),
            },
            None => match edge {
                Edge::Closing => Some(Found::Damage),
                Edge::LineEnd => self.bare(),
                Edge::Opening(_) => self.stray(),
            },
        }
    }

    // Returns the item of a line without a mark.
    fn bare(&self) -> Option<Found>
        ensures { option_to_list result ≡ bare (word_of self.now.digits self.now.is_bad) }
    {
        if self.is_empty() {
            None
        } else {
            Some(self.item_of(Mark::Plain))
        }
    }

    // Returns the damage of a word that belongs to no frame.
    fn stray(&self) -> Option<Found>
        ensures { option_to_list result ≡ stray_word (word_of self.now.digits self.now.is_bad) }
    {
        if self.is_empty() {
            None
        } else {
            Some(Found::Damage)
        }
    }

    // Returns whether the word so far is empty.
    fn is_empty(&self) -> bool
        ensures empty { result ≡ true → word_of self.now.digits self.now.is_bad ≡ [] }
        ensures some { result ≡ false → 0 < length (word_of self.now.digits self.now.is_bad) }
    {
        !self.is_bad && self.digits.is_empty()
    }

    // Returns the item of the word so far after a mark.
    fn item_of(&self, mark: Mark) -> Found
        ensures { result ≡ item_of mark (word_of self.now.digits self.now.is_bad) }
    {
        if self.is_bad {
            return Found::Damage;
        }
        match size_of(mark, self.digits.len()) {
            Some(size) => {
                let bytes = bytes_of(self.digits.as_slice());
                Found::Whole(message_of(mark, size, bytes.as_slice()))
            }
            None => Found::Damage,
        }
    }
}

// Returns the mark of a byte, if the byte is a mark.
pub(crate) fn mark_of(byte: u8) -> Option<Mark>
    ensures { result ≡ mark_of byte }
{
    match byte {
        b'*' | b':' => Some(Mark::Plain),
        b'@' | b'%' => Some(Mark::Clocked),
        b'<' => Some(Mark::Signalled),
        _ => None,
    }
}

// Returns the edge of a byte, if the byte is an edge.
#[inline(always)]
fn edge_of(byte: u8) -> Option<Edge>
    ensures { result ≡ edge_of byte }
{
    match byte {
        b';' => Some(Edge::Closing),
        b'\n' | b'\r' | 0xEF | 0xBB | 0xBF => Some(Edge::LineEnd),
        b'*' | b':' => Some(Edge::Opening(Mark::Plain)),
        b'@' | b'%' => Some(Edge::Opening(Mark::Clocked)),
        b'<' => Some(Edge::Opening(Mark::Signalled)),
        _ => None,
    }
}

// Returns the mark before the word that an edge begins.
#[inline(always)]
fn opened_by(edge: Edge) -> Option<Mark>
    ensures { result ≡ opened_by edge }
{
    match edge {
        Edge::Opening(mark) => Some(mark),
        Edge::Closing => None,
        Edge::LineEnd => None,
    }
}

// Returns whether a byte is a hexadecimal digit.
#[inline(always)]
fn is_hex(byte: u8) -> bool
    ensures { result ≡ is_hex byte }
{
    matches!(byte, b'0'..=b'9' | b'A'..=b'F' | b'a'..=b'f')
}

// Returns the value of a hexadecimal digit.
#[inline(always)]
fn value_of(byte: u8) -> u8
    requires { is_hex byte ≡ true }
    ensures value { result ≡ digit_value byte }
    ensures small { result < 16 }
{
    if byte <= b'9' {
        byte - b'0'
    } else if byte <= b'F' {
        byte - b'A' + 10
    } else {
        byte - b'a' + 10
    }
}

// Returns the size of the frame with this many digits after a mark.
#[inline(always)]
fn size_of(mark: Mark, digits: usize) -> Option<Size>
    requires { digits ≤ 42 }
    ensures { result ≡ size_of mark digits }
{
    let lead = lead(mark);
    if digits == 2 * (lead + 2) {
        Some(Size::TwoBytes)
    } else if digits == 2 * (lead + 7) {
        Some(Size::SevenBytes)
    } else if digits == 2 * (lead + 14) {
        Some(Size::FourteenBytes)
    } else {
        None
    }
}

// Returns the number of bytes before the frame.
#[inline(always)]
fn lead(mark: Mark) -> usize
    ensures value { result ≡ lead mark }
    ensures small { result ≤ 7 }
{
    match mark {
        Mark::Plain => 0,
        Mark::Clocked => 6,
        Mark::Signalled => 7,
    }
}

// Returns the message of these bytes.
fn message_of(mark: Mark, size: Size, bytes: &[u8]) -> Message
    requires { length bytes.now ≡ lead mark + frame_len size }
    ensures { result ≡ avr_message mark size bytes.now }
{
    let time = match mark {
        Mark::Plain => Time::Unknown,
        Mark::Clocked => Time::Ticks(message::ticks_of(bytes)),
        Mark::Signalled => Time::Ticks(message::ticks_of(bytes)),
    };
    let frame = message::frame_of(size, &bytes[lead(mark)..]);
    Message { time, frame }
}

// Returns the bytes that pairs of digits encode.
fn bytes_of(digits: &[u8]) -> ArrayVec<u8, 21>
    requires hex { AreHex digits.now }
    requires few { length digits.now ≤ 42 }
    ensures { result.items ≡ bytes_of digits.now }
{
    let mut bytes = ArrayVec::new();
    for k in 0..digits.len() / 2 {
        bytes.push(16 * value_of(digits[2 * k]) + value_of(digits[2 * k + 1]));
    }
    bytes
}

// Returns the frame that a word of digits encodes, if it encodes one.
#[inline(always)]
pub(crate) fn frame_of_word(word: &[u8]) -> Option<RawFrame>
    ensures { result ≡ frame_of_word word.now }
{
    if word.len() == LONG {
        if let Some(frame) = decode_28(word) {
            return Some(RawFrame::Long(frame));
        }
    }
    frame_of_any(word)
}

// Does what `frame_of_word` does, whatever the length of the word.
#[inline(never)]
fn frame_of_any(word: &[u8]) -> Option<RawFrame>
    ensures { result ≡ frame_of_word word.now }
{
    if word.len() > MOST || !are_hex(word) {
        return None;
    }
    match size_of(Mark::Plain, word.len()) {
        Some(size) => {
            let bytes = bytes_of(word);
            Some(message_of(Mark::Plain, size, bytes.as_slice()).frame)
        }
        None => None,
    }
}

// Returns the item of a word after a mark.
pub(crate) fn item_of_word(mark: Mark, word: &[u8]) -> Found
    ensures { result ≡ item_of mark word.now }
{
    if word.len() > MOST || !are_hex(word) {
        return Found::Damage;
    }
    match size_of(mark, word.len()) {
        Some(size) => {
            let bytes = bytes_of(word);
            Found::Whole(message_of(mark, size, bytes.as_slice()))
        }
        None => Found::Damage,
    }
}

// Returns whether each byte is a hexadecimal digit.
fn are_hex(word: &[u8]) -> bool
    ensures value { result ≡ are_hex word.now }
    ensures each { result ≡ true → AreHex word.now }
{
    for byte in word {
        if !is_hex(*byte) {
            return false;
        }
    }
    true
}

// Returns the number of line ends at the front of a piece, up to two.
#[inline(always)]
fn line_ends(piece: &[u8]) -> usize
    ensures within { result ≤ length piece.now }
    ensures follows { Follows avr_found (take result piece.now) [] avr_found }
{
    if piece.is_empty() || !is_line_end(piece[0]) {
        return 0;
    }
    if piece.len() < 2 || !is_line_end(piece[1]) {
        return 1;
    }
    2
}

// Returns whether a byte ends a line.
#[inline(always)]
fn is_line_end(byte: u8) -> bool
    ensures { result ≡ true → edge_of byte ≡ Some LineEnd }
{
    byte == b'\n' || byte == b'\r'
}

// Returns the message at the front of a piece and its length, if it is a long frame after a mark.
#[inline(always)]
fn marked(piece: &[u8]) -> Option<(Message, usize)>
    ensures { IfSome result (IsWholeWord piece.now) }
{
    if piece.is_empty() {
        return None;
    }
    match piece[0] {
        b'*' | b':' => plain_word(piece),
        b'@' | b'%' => clocked_word(piece),
        _ => None,
    }
}

// Returns a long frame between a mark and a semicolon.
#[inline(always)]
fn plain_word(piece: &[u8]) -> Option<(Message, usize)>
    requires { mark_of (slice_index piece.now 0) ≡ Some Plain }
    ensures { IfSome result (IsWholeWord piece.now) }
{
    if piece.len() < 30 || piece[29] != b';' {
        return None;
    }
    let bytes = decode_28(&piece[1..29])?;
    Some((message_of(Mark::Plain, Size::FourteenBytes, &bytes), 30))
}

// Returns a clock and a long frame between a mark and a semicolon.
#[inline(always)]
fn clocked_word(piece: &[u8]) -> Option<(Message, usize)>
    requires { mark_of (slice_index piece.now 0) ≡ Some Clocked }
    ensures { IfSome result (IsWholeWord piece.now) }
{
    if piece.len() < 42 || piece[41] != b';' {
        return None;
    }
    let bytes = decode_40(&piece[1..41])?;
    Some((message_of(Mark::Clocked, Size::FourteenBytes, &bytes), 42))
}
