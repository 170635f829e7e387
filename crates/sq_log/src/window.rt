//! The end of what a log machine was given.
ghost use Rattle.std.specs.Prelude.{◌≡◌, ◌+◌, ◌<◌, ◌≤◌, ◌++◌, [], List, ℕ, IfOk, OnErr, OnOk, drop};
ghost use Rattle.std.specs.Prelude.{false, length, take, true};
ghost use Rattle.std.specs.Io.KnownBytes.{IsAtEnd};
ghost use Rattle.sq_log.specs.Gets.{HasGiven, HasGivenNothing};
ghost use Rattle.sq_log.specs.Rests.{KeepsRest};
ghost use Rattle.sq_log.specs.Lines.{HasNoFeed, closed};
ghost use Rattle.sq_log.specs.Windows.{IsFeedPlace, feed_place, next_line};

use crate::marked_bytes::MarkedBytes;
use sq_devices::{Failed, Source};
use std::marker::Model;

/// The line that is begun, and up to 64 bytes behind it that were not yet looked at.
#[derive(Drop)]
pub(crate) struct Window {
    bytes: MarkedBytes,
}

impl Model for Window {
    ghost use Rattle.sq_log.specs.Windows.{Rest};
    ghost use Rattle.sq_log.specs.Marked.{rest_of};

    ghost Value = { Rest };

    ghost view = { λ window. rest_of window.bytes };
}

impl Window {
    /// Creates a window that was given nothing.
    pub(crate) fn new() -> Self
        ensures line { result.line ≡ [] }
        ensures waiting { result.waiting ≡ [] }
    {
        Window {
            bytes: MarkedBytes::new(),
        }
    }

    /// Returns a copy.
    pub(crate) fn copy(&self) -> Window
        ensures same { result ≡ self.now }
        ensures short { length self.now.waiting ≤ 64 }
    {
        Window { bytes: self.bytes }
    }

    /// Returns whether a line feed waits.
    #[inline(always)]
    pub(crate) fn has_feed(&self) -> bool
        ensures none { result ≡ false → HasNoFeed self.now.waiting }
        ensures some { result ≡ true → feed_place self.now.waiting < length self.now.waiting }
    {
        self.bytes.has_feed()
    }

    /// Returns the place of the first line feed among the bytes that wait.
    #[inline(always)]
    pub(crate) fn feed_place(&self) -> usize
        requires { feed_place self.now.waiting < length self.now.waiting }
        ensures { IsFeedPlace self.now.waiting result }
    {
        self.bytes.feed_place()
    }

    /// Returns the line that is begun, up to the first line feed that waits.
    #[inline(always)]
    pub(crate) fn line(&self, place: usize) -> &[u8]
        requires { IsFeedPlace self.now.waiting place }
        ensures { result.now ≡ next_line self.now }
    {
        self.bytes.line(place)
    }

    /// Passes over the line that is begun, and its line feed.
    #[inline(always)]
    pub(crate) fn pass(&mut self, place: usize)
        requires { IsFeedPlace self.old.waiting place }
        ensures line { self.new.line ≡ [] }
        ensures waiting { self.new.waiting ≡ drop (place + 1) self.old.waiting }
    {
        self.bytes.pass(place);
    }

    /// Takes up to 64 bytes of the piece, unless a line feed waits. Returns how many.
    #[inline(always)]
    pub(crate) fn take(&mut self, piece: &[u8]) -> usize
        ensures taken { (given : List ℕ) (lines : List (List ℕ)) → KeepsRest self.old.line self.old.waiting given lines
            → KeepsRest self.new.line self.new.waiting (given ++ take result piece.now) lines }
        ensures within { result ≤ length piece.now }
        ensures waiting { length self.new.waiting ≤ length self.old.waiting + result }
        ensures none { result ≡ 0 → HasNoFeed self.new.waiting → piece.now ≡ [] }
    {
        self.bytes.take(piece)
    }

    /// Gets the next bytes from the source, at most 64, and returns how many. No line feed waits.
    #[inline(always)]
    pub(crate) fn get_from<S: Source>(&mut self, source: &mut S) -> Result<usize, Failed>
        ensures got { (given : List ℕ) (lines : List (List ℕ)) → KeepsRest self.old.line self.old.waiting given lines
            → HasNoFeed self.old.waiting
            → OnOk result (KeepsRest self.new.line self.new.waiting (given ++ self.new.waiting) lines) }
        ensures count { IfOk result (λ count. length self.new.waiting ≡ count) }
        ensures short { length self.new.waiting ≤ 64 }
        ensures end { IfOk result (λ count. count ≡ 0 → IsAtEnd (S.to_come source.new)) }
        ensures ok { OnOk result (HasGiven S.Source source.old source.new self.new.waiting) }
        ensures err { OnErr result (HasGivenNothing S.Source source.old source.new) }
    {
        self.bytes.get_from(source)
    }

    /// Ends the line that is begun with a line feed, unless it is empty. No line feed waits.
    pub(crate) fn close(&mut self)
        ensures closed { (given : List ℕ) (lines : List (List ℕ)) → KeepsRest self.old.line self.old.waiting given lines
            → HasNoFeed self.old.waiting → KeepsRest self.new.line self.new.waiting (closed given) lines }
        ensures short { length self.new.waiting ≤ 64 }
    {
        self.bytes.close();
    }
}
