//! Splits an input that comes in pieces of any length into lines.
ghost use Rattle.std.specs.Prelude.{◌≡◌, ◌++◌, ◌||◌, List, ℕ, [], length, take, nat_lt, ◌≤◌, position};
ghost use Rattle.std.specs.List.{before_first, position_or_len};
ghost use Rattle.sq_log.specs.Lines.{is_feed};
ghost use Rattle.sq_log.specs.Rests.{GoesOn, Holds, count_through, empty_line, has_feed};

use crate::lines::LINE_LIMIT;
use arrayvec::ArrayVec;
use std::marker::Model;

/// A line of at most 64 bytes, or the first 64 bytes of a longer one.
#[derive(Drop)]
pub struct Cutter {
    held: ArrayVec<u8, 64>,
    is_long: bool,
    is_complete: bool,
}

impl Model for Cutter {
    ghost use Rattle.sq_log.specs.Rests.{HeldLine};

    ghost Value = { HeldLine };

    ghost view = { λ s. record { line = s.held.items; is_long = s.is_long; is_complete = s.is_complete } };
}

impl Cutter {
    /// Creates a cutter that holds an empty line.
    pub fn new() -> Self
        ensures { result ≡ empty_line }
    {
        Cutter {
            held: ArrayVec::new(),
            is_long: false,
            is_complete: false,
        }
    }

    /// Takes the bytes up to and including the first line feed, or all of them. Returns how many, and whether the line
    /// is complete. If the last call completed a line, drops it first.
    pub fn take(&mut self, piece: &[u8]) -> (usize, bool)
        ensures count { result.0 ≡ count_through piece.now }
        ensures complete { result.1 ≡ has_feed piece.now }
        ensures noted { self.new.is_complete ≡ has_feed piece.now }
        ensures held { (line : List ℕ) → GoesOn self.old line
            → Holds self.new (line ++ before_first is_feed piece.now) }
    {
        let place = feed_place(piece);
        self.begin();
        self.append(&piece[..place]);
        self.is_complete = place < piece.len();
        let count = if self.is_complete { place + 1 } else { place };
        (count, self.is_complete)
    }

    fn begin(&mut self)
        ensures { (line : List ℕ) → GoesOn self.old line → Holds self.new line }
    {
        if self.is_complete {
            self.held = ArrayVec::new();
            self.is_long = false;
        }
    }

    fn append(&mut self, bytes: &[u8])
        ensures { (line : List ℕ) → Holds self.old line → Holds self.new (line ++ bytes.now) }
    {
        let room = LINE_LIMIT - self.held.len();
        if bytes.len() <= room {
            let _ = self.held.try_extend_from_slice(bytes);
        } else {
            let _ = self.held.try_extend_from_slice(&bytes[..room]);
            self.is_long = true;
        }
    }

    /// Returns whether the held line has more than 64 bytes, its line feed not counted.
    pub fn long(&self) -> bool
        ensures { result ≡ self.now.is_long }
    {
        self.is_long
    }

    /// Returns the held line, or the first 64 bytes of a longer one.
    pub fn line(&self) -> &[u8]
        ensures { result.now ≡ self.now.line }
    {
        self.held.as_slice()
    }
}

// Returns the index of the first line feed, or the length if there is none.
fn feed_place(piece: &[u8]) -> usize
    ensures place { result ≡ position_or_len is_feed piece.now }
    ensures fits { result ≤ length piece.now }
{
    match first_feed(piece) {
        Some(at) => at,
        None => piece.len(),
    }
}

fn first_feed(piece: &[u8]) -> Option<usize>
    ensures { result ≡ position is_feed piece.now }
{
    piece.iter().position(|byte| *byte == b'\n')
}
