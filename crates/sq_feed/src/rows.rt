//! Reads the lines of a log and the rows of a CSV table, one item a line. The text comes in pieces of any length.
ghost use Rattle.std.specs.Prelude.{◌≡◌, ◌≢◌, ◌≤◌, ◌<◌, Some, [], ◌∷◌, length, take, option_to_list, IfSome, true, false};
ghost use Rattle.sq_feed.specs.Follows.{Follows};
ghost use Rattle.sq_feed.specs.Rows.{IsHeld, columns_of, csv_message, csv_start, cut_row, first_is, frame_in, frame_of_text};
ghost use Rattle.sq_feed.specs.Rows.{last_is, line_of, log_message, millis_in, no_row_begun, row_read, rows_to_come, time_column, without_first, without_last, without_mark};
ghost use Rattle.sq_feed.specs.Avr.{frame_of_word};
ghost use Rattle.sq_feed.specs.Cells.{cell_of};

use crate::avr::frame_of_word;
use crate::cells::{cell_of, column_of, content_of, millis_of, number_of, position_of};
use crate::message::{Found, Message, RawFrame, Time};
use crate::plain_rows::plain_row;
use arrayvec::ArrayVec;
use std::marker::Model;

// The maximum length of a line in bytes.
pub(crate) const LONGEST: usize = 512;

// The maximum number of digits of a timestamp.
const MOMENT: usize = 20;

/// The indices of the columns with the time and the frame, counted from 0.
#[derive(Clone, Copy)]
pub struct Columns {
    pub time: usize,
    pub frame: usize,
}

/// The layout of a text: lines of a log, or rows of a table.
#[derive(Clone, Copy)]
pub enum Layout {
    Log,
    Csv(Columns),
}

/// The content of a line: nothing, column names, or an item.
#[derive(Clone, Copy)]
pub enum Row {
    Blank,
    Names(Columns),
    One(Found),
}

/// Splits a log or a table into messages and damage. Keeps up to 512 bytes of an unfinished line, and does not
/// allocate.
#[derive(Drop)]
pub struct Rows {
    layout: Layout,
    held: ArrayVec<u8, 512>,
    is_long: bool,
}

impl Model for Rows {
    ghost use Rattle.std.specs.Prelude.{◌≡◌, ◌≤◌, length, true};
    ghost use Rattle.sq_feed.specs.Rows.{BegunRow};

    ghost Value = { BegunRow };

    ghost view = { λ s. record { layout = s.layout; held = s.held.items; is_long = s.is_long } };

    ghost invariant = { λ s. s.is_long ≡ true → 512 ≤ length s.held.items };
}

impl Rows {
    /// Creates a machine at the start of a text.
    pub fn new(layout: Layout) -> Self
        ensures { result ≡ no_row_begun layout }
    {
        Rows {
            layout,
            held: ArrayVec::new(),
            is_long: false,
        }
    }

    /// Takes the piece up to the end of its first item, or all of it. Returns the number of bytes taken and the item.
    /// The items do not depend on how the text is cut into pieces.
    pub fn take(&mut self, piece: &[u8]) -> (usize, Option<Found>)
        ensures fits { result.0 ≤ length piece.now }
        ensures some { 0 < length piece.now → 0 < result.0 }
        ensures held { IsHeld self.new }
        ensures follows { Follows (rows_to_come self.old) (take result.0 piece.now) (option_to_list result.1)
            (rows_to_come self.new) }
    {
        let _ = &self.layout;
        if let Some((message, count)) = self.whole(piece) {
            return (count, Some(Found::Whole(message)));
        }
        self.take_bytes(piece)
    }

    // Returns the first row's message and its length with the line end, if no line is begun and the row has the usual
    // form and columns.
    #[inline(always)]
    pub(crate) fn plain(&self, piece: &[u8]) -> Option<(Message, usize)>
        ensures { IfSome result (λ p. (0 < p.1) × (p.1 ≤ length piece.now)
            × Follows (rows_to_come self.now) (take p.1 piece.now) (Found.Whole p.0 ∷ []) (rows_to_come self.now)) }
    {
        if !self.is_new() || !self.has_usual_columns() {
            return None;
        }
        plain_row(piece)
    }

    // Returns whether the text is a table with the time in the first column and the frame in the third.
    #[inline(always)]
    fn has_usual_columns(&self) -> bool
        ensures { result ≡ true → self.now.layout ≡ csv_start }
    {
        match self.layout {
            Layout::Csv(columns) => columns.time == 0 && columns.frame == 2,
            Layout::Log => false,
        }
    }

    // Returns the first line's message and its length with the line feed, if no line is begun and the piece contains
    // all of the line.
    #[inline(always)]
    pub(crate) fn whole(&self, piece: &[u8]) -> Option<(Message, usize)>
        ensures { IfSome result (λ p. (0 < p.1) × (p.1 ≤ length piece.now)
            × Follows (rows_to_come self.now) (take p.1 piece.now) (Found.Whole p.0 ∷ []) (rows_to_come self.now)) }
    {
        if !self.is_new() {
            return None;
        }
        let near = &piece[..piece.len().min(LONGEST)];
        let end = position_of(b'\n', near);
        if end >= near.len() {
            return None;
        }
        match row_read(self.layout, &near[..end]) {
            Row::One(Found::Whole(message)) => Some((message, end + 1)),
            Row::One(Found::Damage) => None,
            Row::One(Found::ReceiverId) => None,
            Row::One(Found::Foreign(_)) => None,
            Row::Blank => None,
            Row::Names(_) => None,
        }
    }

    // Returns whether the last byte was a line feed, or the text has not begun.
    #[inline(always)]
    fn is_new(&self) -> bool
        ensures held { result ≡ true → self.now.held ≡ [] }
        ensures short { result ≡ true → self.now.is_long ≡ false }
    {
        !self.is_long && self.held.is_empty()
    }

    // Does the same as `take`, byte by byte.
    #[inline(never)]
    fn take_bytes(&mut self, piece: &[u8]) -> (usize, Option<Found>)
        ensures fits { result.0 ≤ length piece.now }
        ensures some { 0 < length piece.now → 0 < result.0 }
        ensures held { IsHeld self.new }
        ensures follows { Follows (rows_to_come self.old) (take result.0 piece.now) (option_to_list result.1)
            (rows_to_come self.new) }
    {
        let _ = &self.layout;
        for (at, byte) in piece.iter().enumerate() {
            if let Some(found) = self.take_byte(*byte) {
                return (at + 1, Some(found));
            }
        }
        (piece.len(), None)
    }

    /// Returns the item of a last line without a line feed.
    pub fn finish(&self) -> Option<Found>
        ensures { option_to_list result ≡ rows_to_come self.now [] }
    {
        match self.row() {
            Row::One(found) => Some(found),
            Row::Blank => None,
            Row::Names(_) => None,
        }
    }

    // Returns damage if the connection is lost within a line.
    pub(crate) fn cut_off(&self) -> Option<Found>
        ensures { option_to_list result ≡ cut_row self.now }
    {
        if self.held.is_empty() {
            None
        } else {
            Some(Found::Damage)
        }
    }

    // Starts another text.
    pub(crate) fn restart(&mut self, layout: Layout)
        ensures { self.new ≡ no_row_begun layout }
    {
        self.layout = layout;
        self.held = ArrayVec::new();
        self.is_long = false;
    }

    // Takes one byte of the text, and returns the item that it completes.
    #[inline(always)]
    fn take_byte(&mut self, byte: u8) -> Option<Found>
        ensures held { IsHeld self.new }
        ensures follows { Follows (rows_to_come self.old) (byte ∷ []) (option_to_list result) (rows_to_come self.new) }
    {
        if byte == b'\n' {
            self.end_line()
        } else {
            self.add(byte);
            None
        }
    }

    // Appends a byte to the line.
    #[inline(always)]
    fn add(&mut self, byte: u8)
        requires { byte ≢ 10 }
        ensures held { IsHeld self.new }
        ensures follows { Follows (rows_to_come self.old) (byte ∷ []) [] (rows_to_come self.new) }
    {
        if self.held.len() < LONGEST {
            self.held.push(byte);
        } else {
            self.is_long = true;
        }
    }

    // Ends the line, and returns its item.
    fn end_line(&mut self) -> Option<Found>
        ensures held { IsHeld self.new }
        ensures follows { Follows (rows_to_come self.old) (10 ∷ []) (option_to_list result) (rows_to_come self.new) }
    {
        let row = self.row();
        self.held = ArrayVec::new();
        self.is_long = false;
        match row {
            Row::One(found) => Some(found),
            Row::Blank => None,
            Row::Names(columns) => {
                self.layout = Layout::Csv(columns);
                None
            }
        }
    }

    // Reads the line so far.
    fn row(&self) -> Row
        ensures { result ≡ row_read self.now.layout (line_of self.now.held self.now.is_long) }
    {
        if self.is_long {
            Row::One(Found::Damage)
        } else {
            row_read(self.layout, self.held.as_slice())
        }
    }
}

// Reads a line.
pub(crate) fn row_read(layout: Layout, line: &[u8]) -> Row
    requires { length line.now ≤ 512 }
    ensures { result ≡ row_read layout line.now }
{
    let text = without_mark(without_last(b'\r', line));
    if text.is_empty() {
        return Row::Blank;
    }
    match layout {
        Layout::Log => match log_message(text) {
            Some(message) => Row::One(Found::Whole(message)),
            None => Row::One(Found::Damage),
        },
        Layout::Csv(columns) => match csv_message(columns, text) {
            Some(message) => Row::One(Found::Whole(message)),
            None => match columns_of(text) {
                Some(names) => Row::Names(names),
                None => Row::One(Found::Damage),
            },
        },
    }
}

// Parses a line of a log.
fn log_message(line: &[u8]) -> Option<Message>
    ensures { result ≡ log_message line.now }
{
    let space = position_of(b' ', line);
    let moment = number_of(MOMENT, &line[..space])?;
    let frame = log_frame(&line[(space + 1).min(line.len())..])?;
    Some(Message {
        time: Time::Millis(moment),
        frame,
    })
}

// Parses a frame text: digits, bare or between `*` and `;`.
fn log_frame(text: &[u8]) -> Option<RawFrame>
    ensures { result ≡ frame_of_text text.now }
{
    if first_is(b'*', text) {
        if last_is(b';', text) {
            frame_of_word(without_last(b';', without_first(b'*', text)))
        } else {
            None
        }
    } else if last_is(b';', text) {
        None
    } else {
        frame_of_word(text)
    }
}

// Parses a row of a table.
fn csv_message(columns: Columns, row: &[u8]) -> Option<Message>
    ensures { result ≡ csv_message columns row.now }
{
    let moment = millis_in(columns.time, row)?;
    let frame = frame_in(columns.frame, row)?;
    Some(Message {
        time: Time::Millis(moment),
        frame,
    })
}

// Parses the time in a column, in milliseconds.
fn millis_in(column: usize, row: &[u8]) -> Option<u64>
    ensures { result ≡ millis_in (cell_of column (Some row.now)) }
{
    match cell_of(column, row) {
        Some(cell) => millis_of(content_of(cell)),
        None => None,
    }
}

// Parses the frame in a column.
fn frame_in(column: usize, row: &[u8]) -> Option<RawFrame>
    ensures { result ≡ frame_in (cell_of column (Some row.now)) }
{
    match cell_of(column, row) {
        Some(cell) => frame_of_word(content_of(cell)),
        None => None,
    }
}

// Finds the columns of the time and the frame by their names.
fn columns_of(row: &[u8]) -> Option<Columns>
    ensures { result ≡ columns_of row.now }
{
    let time = time_column(row)?;
    let frame = column_of(b"rawmsg", row)?;
    Some(Columns { time, frame })
}

// Returns the column of the time: `time`, else `mintime`, else `timestamp`.
pub(crate) fn time_column(row: &[u8]) -> Option<usize>
    ensures { result ≡ time_column row.now }
{
    if let Some(column) = column_of(b"time", row) {
        return Some(column);
    }
    if let Some(column) = column_of(b"mintime", row) {
        return Some(column);
    }
    column_of(b"timestamp", row)
}

// Returns whether a text has this first byte.
fn first_is(byte: u8, text: &[u8]) -> bool
    ensures { result ≡ first_is byte text.now }
{
    !text.is_empty() && text[0] == byte
}

// Returns whether a text has this last byte.
fn last_is(byte: u8, text: &[u8]) -> bool
    ensures { result ≡ last_is byte text.now }
{
    !text.is_empty() && text[text.len() - 1] == byte
}

// Drops this byte from the end of a text, if it is there.
pub(crate) fn without_last(byte: u8, text: &[u8]) -> &[u8]
    ensures value { result.now ≡ without_last byte text.now }
    ensures within { length result.now ≤ length text.now }
{
    if last_is(byte, text) {
        &text[..text.len() - 1]
    } else {
        text
    }
}

// Drops a byte order mark from the front of a line, if it is there.
#[inline(always)]
pub(crate) fn without_mark(line: &[u8]) -> &[u8]
    ensures value { result.now ≡ without_mark line.now }
    ensures within { length result.now ≤ length line.now }
{
    if line.len() >= 3 && line[0] == 0xEF && line[1] == 0xBB && line[2] == 0xBF {
        &line[3..]
    } else {
        line
    }
}

// Drops this byte from the front of a text, if it is there.
fn without_first(byte: u8, text: &[u8]) -> &[u8]
    ensures { result.now ≡ without_first byte text.now }
{
    if first_is(byte, text) {
        &text[1..]
    } else {
        text
    }
}
