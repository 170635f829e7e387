//! Tables that are not read, and why.
ghost use Rattle.std.specs.Prelude.{◌≡◌, []};
ghost use Rattle.sq_feed.specs.Avr.{frame_of_word};
ghost use Rattle.sq_feed.specs.Tables.{frame_cell_from, has_column, has_third_frame, holds_mode_s, is_frame_cell};
ghost use Rattle.sq_feed.specs.Tables.{is_row_behind, is_row_of, lacks_rawmsg, lacks_time, unread_row, unread_table};

use crate::avr::frame_of_word;
use crate::cells::{cell_of, column_of, content_of, is_named, position_of};
use crate::message::{RawFrame, Stranger, is_mode_s};
use crate::rows::{LONGEST, time_column};

// The name of the column with the frames.
const RAWMSG: &[u8] = b"rawmsg";

// Returns why a table with this row is not read, if that is known.
pub(crate) fn unread_table(row: &[u8]) -> Option<Stranger>
    ensures { result ≡ unread_table row.now }
{
    if row.len() <= LONGEST {
        unread_row(row)
    } else {
        None
    }
}

// Does what `unread_table` does, for a row of any length.
fn unread_row(row: &[u8]) -> Option<Stranger>
    ensures { result ≡ unread_row row.now }
{
    if is_row_of(b';', row) {
        Some(Stranger::Semicolons)
    } else if is_row_of(b'\t', row) {
        Some(Stranger::Tabs)
    } else if lacks_time(row) {
        Some(Stranger::NoTime)
    } else if lacks_rawmsg(row) {
        Some(Stranger::NoRawmsg)
    } else if has_third_frame(row) {
        Some(Stranger::NoSeconds)
    } else if is_row_of(b',', row) {
        Some(Stranger::NoNames)
    } else {
        None
    }
}

// Returns whether a row has this byte between its columns, and frames in one of them.
fn is_row_of(separator: u8, row: &[u8]) -> bool
    ensures { result ≡ is_row_of separator row.now }
{
    position_of(separator, row) < row.len() && has_frame_cell(separator, row)
}

// Returns whether a row has this byte between its columns, and frames behind the first one.
pub(crate) fn is_row_behind(separator: u8, row: &[u8]) -> bool
    ensures { result ≡ is_row_behind separator row.now }
{
    let at = position_of(separator, row);
    at < row.len() && has_frame_cell(separator, &row[at + 1..])
}

// Returns whether a row with this byte between its cells has a cell with a frame.
fn has_frame_cell(separator: u8, row: &[u8]) -> bool
    ensures { result ≡ frame_cell_from separator [] row.now }
{
    let mut start = 0;
    for (at, byte) in row.iter().enumerate() {
        if *byte == separator {
            if is_frame_cell(&row[start..at]) {
                return true;
            }
            start = at + 1;
        }
    }
    is_frame_cell(&row[start..])
}

// Returns whether a cell has a frame of Mode S, or the name of its column.
fn is_frame_cell(cell: &[u8]) -> bool
    ensures { result ≡ is_frame_cell cell.now }
{
    is_named(RAWMSG, cell) || holds_mode_s(frame_of_word(content_of(cell)))
}

// Returns whether there is a frame of Mode S.
pub(crate) fn holds_mode_s(frame: Option<RawFrame>) -> bool
    ensures { result ≡ holds_mode_s frame }
{
    match frame {
        None => false,
        Some(frame) => is_mode_s(frame),
    }
}

// Returns whether a row names a column `rawmsg`, and no time.
fn lacks_time(row: &[u8]) -> bool
    ensures { result ≡ lacks_time row.now }
{
    has_column(column_of(RAWMSG, row)) && !has_column(time_column(row))
}

// Returns whether a row names a time and `icao24`, and no column `rawmsg`.
fn lacks_rawmsg(row: &[u8]) -> bool
    ensures { result ≡ lacks_rawmsg row.now }
{
    has_column(time_column(row))
        && has_column(column_of(b"icao24", row))
        && !has_column(column_of(RAWMSG, row))
}

fn has_column(column: Option<usize>) -> bool
    ensures { result ≡ has_column column }
{
    match column {
        Some(_) => true,
        None => false,
    }
}

// Returns whether the third cell of a row has a frame of Mode S.
fn has_third_frame(row: &[u8]) -> bool
    ensures { result ≡ has_third_frame row.now }
{
    match cell_of(2, row) {
        Some(cell) => holds_mode_s(frame_of_word(content_of(cell))),
        None => false,
    }
}
