//! The last bytes that a log machine was given, with marks at the line feeds among those not yet looked at.
ghost use Rattle.std.specs.Prelude.{◌≡◌, ◌+◌, ◌-◌, ◌<◌, ◌≤◌, ◌++◌, ◌^◌, [], List, ℕ, IfOk, OnErr, OnOk};
ghost use Rattle.std.specs.Prelude.{drop, false, length, min, take, true};
ghost use Rattle.std.specs.Int.{bit_at};
ghost use Rattle.std.specs.Io.KnownBytes.{IsAtEnd};
ghost use Rattle.std.specs.List.{before_first};
ghost use Rattle.sq_log.specs.Gets.{HasGiven, HasGivenNothing};
ghost use Rattle.sq_log.specs.Rests.{IsHeldAs, KeepsRest};
ghost use Rattle.sq_log.specs.Lines.{HasNoFeed, MarksFeeds, closed, is_feed};
ghost use Rattle.sq_log.specs.Windows.{IsFeedPlace, feed_place};

use sq_devices::{Failed, Source};
use std::simd::prelude::*;

// The index of the newest bytes, after the 64 bytes before them and one more byte. A line that begins at index 0 has
// more than 64 bytes, for any value of the extra byte.
const FRONT: usize = 65;

// The most bytes that are taken at once.
const PIECE: usize = 64;

/// The newest bytes, at most 64, behind the 64 bytes before them. The line that is begun starts at `begin`, and was
/// looked at up to `at`. `feeds` marks the line feeds from there on.
#[derive(Clone, Copy)]
pub(crate) struct MarkedBytes {
    bytes: [u8; 129],
    begin: usize,
    at: usize,
    count: usize,
    feeds: u64,
    ghost few: { count ≤ 64 },
    ghost begun: { begin ≤ at },
    ghost behind: { 65 ≤ at },
    ghost within: { at ≤ 65 + count },
    ghost marked: { MarksFeeds feeds (take (65 + count - at) (drop at bytes)) },
    ghost small: { feeds < 2 ^ (65 + count - at) },
}

impl MarkedBytes {
    ghost use Rattle.sq_log.specs.Marked.{front_of, waiting_of};

    pub(crate) fn new() -> Self
        ensures front { front_of result ≡ [] }
        ensures waiting { waiting_of result ≡ [] }
    {
        MarkedBytes {
            bytes: [0; 129],
            begin: FRONT,
            at: FRONT,
            count: 0,
            feeds: 0,
        }
    }

    /// Returns whether a line feed waits.
    #[inline(always)]
    pub(crate) fn has_feed(&self) -> bool
        ensures none { result ≡ false → HasNoFeed (waiting_of self.now) }
        ensures some { result ≡ true → feed_place (waiting_of self.now) < length (waiting_of self.now) }
    {
        self.feeds != 0
    }

    /// Returns the place of the first line feed among the bytes that wait.
    #[inline(always)]
    pub(crate) fn feed_place(&self) -> usize
        requires { feed_place (waiting_of self.now) < length (waiting_of self.now) }
        ensures { IsFeedPlace (waiting_of self.now) result }
    {
        self.feeds.trailing_zeros() as usize
    }

    /// Returns the line that is begun, up to the first line feed that waits.
    #[inline(always)]
    pub(crate) fn line(&self, place: usize) -> &[u8]
        requires { IsFeedPlace (waiting_of self.now) place }
        ensures { result.now ≡ front_of self.now ++ before_first is_feed (waiting_of self.now) }
    {
        &self.bytes[self.begin..self.at + place]
    }

    /// Passes over the line that is begun, and its line feed.
    #[inline(always)]
    pub(crate) fn pass(&mut self, place: usize)
        requires { IsFeedPlace (waiting_of self.old) place }
        ensures front { front_of self.new ≡ [] }
        ensures waiting { waiting_of self.new ≡ drop (place + 1) (waiting_of self.old) }
    {
        let next = self.at + place + 1;
        self.at = next;
        self.begin = next;
        self.feeds = self.feeds >> place >> 1;
    }

    // Moves the last 64 bytes to the front. No line feed waits.
    #[inline(always)]
    fn slide(&mut self)
        ensures waiting { waiting_of self.new ≡ [] }
        ensures front { IsHeldAs (front_of self.new) (front_of self.old ++ waiting_of self.old) }
        ensures at { self.new.at ≡ 65 }
        ensures count { self.new.count ≡ 0 }
        ensures all { length self.new.bytes ≡ 129 }
    {
        let count = self.count;
        let last = u8x64::from_slice(&self.bytes[count + 1..count + FRONT]);
        last.copy_to_slice(&mut self.bytes[1..FRONT]);
        self.begin = self.begin.saturating_sub(count);
        self.at = FRONT;
        self.count = 0;
        self.feeds = 0;
    }

    // Marks the line feeds among the first `count` bytes behind the front.
    #[inline(always)]
    fn mark(&mut self, count: usize)
        requires at { self.old.at ≡ 65 }
        requires none { self.old.count ≡ 0 }
        requires few { count ≤ 64 }
        ensures waiting { waiting_of self.new ≡ take count (drop 65 self.old.bytes) }
        ensures front { front_of self.new ≡ front_of self.old }
    {
        self.feeds = front_marks(feeds_of(&self.bytes[FRONT..]), count);
        self.count = count;
    }

    // Takes the first 64 bytes of a piece.
    #[inline(always)]
    fn fill(&mut self, piece: &[u8])
        requires at { self.old.at ≡ 65 }
        requires count { self.old.count ≡ 0 }
        requires long { 64 ≤ length piece.now }
        ensures waiting { waiting_of self.new ≡ take 64 piece.now }
        ensures front { front_of self.new ≡ front_of self.old }
    {
        let front = u8x64::from_slice(piece);
        front.copy_to_slice(&mut self.bytes[FRONT..]);
        self.mark(PIECE);
    }

    // Takes a piece of at most 64 bytes.
    #[cold]
    #[inline(never)]
    fn fill_part(&mut self, piece: &[u8])
        requires at { self.old.at ≡ 65 }
        requires count { self.old.count ≡ 0 }
        requires short { length piece.now ≤ 64 }
        ensures waiting { waiting_of self.new ≡ piece.now }
        ensures front { front_of self.new ≡ front_of self.old }
    {
        let count = piece.len();
        self.bytes[FRONT..FRONT + count].copy_from_slice(piece);
        self.mark(count);
    }

    /// Takes up to 64 bytes of the piece, unless a line feed waits. Returns how many.
    #[inline(always)]
    pub(crate) fn take(&mut self, piece: &[u8]) -> usize
        ensures taken { (given : List ℕ) (lines : List (List ℕ))
            → KeepsRest (front_of self.old) (waiting_of self.old) given lines
            → KeepsRest (front_of self.new) (waiting_of self.new) (given ++ take result piece.now) lines }
        ensures within { result ≤ length piece.now }
        ensures waiting { length (waiting_of self.new) ≤ length (waiting_of self.old) + result }
        ensures none { result ≡ 0 → HasNoFeed (waiting_of self.new) → piece.now ≡ [] }
    {
        if self.has_feed() {
            return 0;
        }
        if piece.is_empty() {
            return 0;
        }
        self.slide();
        if piece.len() < PIECE {
            self.fill_part(piece);
            return piece.len();
        }
        self.fill(piece);
        PIECE
    }

    /// Gets the next bytes from the source, at most 64, and returns how many. No line feed waits.
    #[inline(always)]
    pub(crate) fn get_from<S: Source>(&mut self, source: &mut S) -> Result<usize, Failed>
        ensures got { (given : List ℕ) (lines : List (List ℕ))
            → KeepsRest (front_of self.old) (waiting_of self.old) given lines → HasNoFeed (waiting_of self.old)
            → OnOk result (KeepsRest (front_of self.new) (waiting_of self.new) (given ++ waiting_of self.new) lines) }
        ensures count { IfOk result (λ count. length (waiting_of self.new) ≡ count) }
        ensures short { length (waiting_of self.new) ≤ 64 }
        ensures end { IfOk result (λ count. count ≡ 0 → IsAtEnd (S.to_come source.new)) }
        ensures ok { OnOk result (HasGiven S.Source source.old source.new (waiting_of self.new)) }
        ensures err { OnErr result (HasGivenNothing S.Source source.old source.new) }
    {
        self.slide();
        let Ok(count) = source.get(&mut self.bytes[FRONT..]) else {
            return Err(Failed);
        };
        self.mark(count);
        Ok(count)
    }

    /// Ends the line that is begun with a line feed, unless it is empty. No line feed waits.
    #[cold]
    #[inline(never)]
    pub(crate) fn close(&mut self)
        ensures closed { (given : List ℕ) (lines : List (List ℕ))
            → KeepsRest (front_of self.old) (waiting_of self.old) given lines → HasNoFeed (waiting_of self.old)
            → KeepsRest (front_of self.new) (waiting_of self.new) (closed given) lines }
        ensures short { length (waiting_of self.new) ≤ 64 }
    {
        self.slide();
        if self.begin < FRONT {
            self.fill_part(b"\n");
        }
    }
}

// Returns the mask of 64 bytes: bit k is set exactly if byte k is a line feed.
fn feeds_of(bytes: &[u8]) -> u64
    requires { length bytes.now ≡ 64 }
    ensures { MarksFeeds result bytes.now }
{
    u8x64::from_slice(bytes)
        .simd_eq(u8x64::splat(b'\n'))
        .to_bitmask()
}

// Returns the lowest `count` bits of a mask.
fn front_marks(feeds: u64, count: usize) -> u64
    requires { count ≤ 64 }
    ensures small { result < 2 ^ count }
    ensures same { (k : ℕ) → k < count → bit_at result k ≡ bit_at feeds k }
{
    if count == 64 {
        return feeds;
    }
    feeds & ((1 << count) - 1)
}
