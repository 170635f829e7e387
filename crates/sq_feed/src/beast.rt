//! The messages of a Beast stream, which is pushed in pieces of any length.
ghost use Rattle.std.specs.Prelude.{◌≡◌, ◌++◌, ◌<◌, ◌≤◌, ℕ, List, [], ◌∷◌, length, take, option_to_list, OnSome, IfNone, IfSome, true, false};
ghost use Rattle.std.specs.Prelude.{IsTrue};
ghost use Rattle.sq_feed.specs.Begun.{Gives, HoldWithRest, IsUnfinished, cut_off, nothing_begun, rest_of};
ghost use Rattle.sq_feed.specs.Stream.{Byte, IsPlain, Start, found_in};

use crate::cells::position_of;
use crate::message::{self, Found, Kind, Message};
use arrayvec::ArrayVec;
use std::marker::Model;
use std::simd::prelude::*;

const ESCAPE: u8 = 0x1A;

// The bytes after the type byte of a message with a long frame.
const LONGEST: usize = 21;

// The bytes that are compared at once.
const LANES: usize = 16;

/// Splits a Beast stream into messages. Holds the bytes of one unfinished message, and allocates nothing.
#[derive(Drop)]
pub struct Beast {
    kind: Option<Kind>,
    held: ArrayVec<u8, 21>,
    is_escaped: bool,
}

impl Model for Beast {
    ghost use Rattle.sq_feed.specs.Begun.{Begun, IsUnfinished};

    ghost Value = { Begun };

    ghost view = { λ s. record { kind = s.kind; held = s.held.items; is_escaped = s.is_escaped } };

    ghost invariant = { λ s. IsUnfinished s.kind s.held.items };
}

impl Beast {
    /// Returns a machine at the start of a stream.
    pub fn new() -> Self
        ensures { result ≡ nothing_begun }
    {
        Beast {
            kind: None,
            held: ArrayVec::new(),
            is_escaped: false,
        }
    }

    /// Takes bytes of a piece up to the end of the first item, or all of them. Returns how many bytes it took, and the
    /// item. The items of all calls do not depend on how the stream was cut into pieces.
    pub fn take(&mut self, piece: &[u8]) -> (usize, Option<Found>)
        ensures fits { result.0 ≤ length piece.now }
        ensures all { IfNone result.1 (result.0 ≡ length piece.now) }
        ensures some { OnSome result.1 (0 < result.0) }
        ensures unfinished { IsUnfinished self.new.kind self.new.held }
        ensures held { HoldWithRest (rest_of self.old ++ take result.0 piece.now) (option_to_list result.1)
            (rest_of self.new) }
    {
        let _ = &self.kind;
        if let Some((message, count)) = self.whole(piece) {
            return (count, Some(Found::Whole(message)));
        }
        self.take_bytes(piece)
    }

    // Returns the message at the front of a piece and its length, if it is whole, without an escape, and nothing is
    // begun.
    #[inline(always)]
    pub(crate) fn whole(&self, piece: &[u8]) -> Option<(Message, usize)>
        ensures fits { IfSome result (λ p. (0 < p.1) × (p.1 ≤ length piece.now)) }
        ensures held { IfSome result (λ p.
            HoldWithRest (rest_of self.now ++ take p.1 piece.now) (Found.Whole p.0 ∷ []) (rest_of self.now)) }
    {
        if self.kind.is_none() && !self.is_escaped {
            whole_message(piece)
        } else {
            None
        }
    }

    /// Returns the item at the end of the stream: damage, if it ends within a message or after an unknown start, or the
    /// id of a receiver.
    pub fn finish(&self) -> Option<Found>
        ensures cut_off { option_to_list result ≡ cut_off self.now.kind }
        ensures rest { option_to_list result ≡ found_in (rest_of self.now ++ []) }
    {
        cut_off(self.kind)
    }

    // Does what `take` does, byte by byte.
    #[inline(never)]
    fn take_bytes(&mut self, piece: &[u8]) -> (usize, Option<Found>)
        ensures fits { result.0 ≤ length piece.now }
        ensures all { IfNone result.1 (result.0 ≡ length piece.now) }
        ensures some { OnSome result.1 (0 < result.0) }
        ensures unfinished { IsUnfinished self.new.kind self.new.held }
        ensures held { HoldWithRest (rest_of self.old ++ take result.0 piece.now) (option_to_list result.1)
            (rest_of self.new) }
    {
        let _ = &self.kind;
        let mut at = 0;
        while at < piece.len() {
            at += self.take_run(&piece[at..]);
            if at < piece.len() {
                if let Some(found) = self.take_byte(piece[at]) {
                    return (at + 1, Some(found));
                }
                at += 1;
            }
        }
        (piece.len(), None)
    }

    // Takes the bytes of a piece that go on with a message: up to an escape, or to the last byte of the message.
    // Returns how many.
    #[inline(always)]
    fn take_run(&mut self, piece: &[u8]) -> usize
        ensures fits { result ≤ length piece.now }
        ensures unfinished { IsUnfinished self.new.kind self.new.held }
        ensures held { HoldWithRest (rest_of self.old ++ take result piece.now) [] (rest_of self.new) }
    {
        let _ = &self.kind;
        if self.is_escaped {
            return 0;
        }
        let Some(Kind::Message(size)) = self.kind else {
            return 0;
        };
        let room = message::message_len(size) - 1 - self.held.len();
        let near = &piece[..piece.len().min(room)];
        let run = &near[..position_of(ESCAPE, near)];
        if self.held.try_extend_from_slice(run).is_err() {
            return 0;
        }
        run.len()
    }

    // Takes one byte of the stream.
    #[inline(never)]
    fn take_byte(&mut self, byte: u8) -> Option<Found>
        ensures unfinished { IsUnfinished self.new.kind self.new.held }
        ensures held { HoldWithRest (rest_of self.old ++ byte ∷ []) (option_to_list result) (rest_of self.new) }
    {
        if self.is_escaped {
            self.is_escaped = false;
            if byte == ESCAPE {
                return self.add(byte);
            }
            return self.start(byte);
        }
        if byte == ESCAPE {
            self.is_escaped = true;
            return None;
        }
        self.add(byte)
    }

    // Takes a type byte. An unfinished message before it is damage.
    fn start(&mut self, byte: u8) -> Option<Found>
        ensures unfinished { IsUnfinished self.new.kind self.new.held }
        ensures same { self.new.is_escaped ≡ self.old.is_escaped }
        ensures gives { Gives self.old (Start byte) (option_to_list result) self.new }
    {
        let found = cut_off(self.kind);
        self.kind = Some(message::kind_of(byte));
        self.held = ArrayVec::new();
        found
    }

    // Takes a byte between starts: the next one of a message, or a stray one.
    #[inline(always)]
    fn add(&mut self, byte: u8) -> Option<Found>
        ensures unfinished { IsUnfinished self.new.kind self.new.held }
        ensures same { self.new.is_escaped ≡ self.old.is_escaped }
        ensures gives { Gives self.old (Byte byte) (option_to_list result) self.new }
    {
        let size = match self.kind {
            Some(Kind::Message(size)) => size,
            Some(Kind::Status) => return None,
            Some(Kind::ReceiverId) => return None,
            Some(Kind::Unknown) => return None,
            None => {
                self.kind = Some(Kind::Status);
                return Some(Found::Damage);
            }
        };
        self.held.push(byte);
        if self.held.len() < message::message_len(size) {
            return None;
        }
        let message = message::message_of(size, self.held.as_slice());
        self.kind = None;
        Some(Found::Whole(message))
    }
}

// Returns what ends with the next start: the id of a receiver, or damage, if that start cuts off an unfinished
// message or follows an unknown one.
#[inline(always)]
fn cut_off(kind: Option<Kind>) -> Option<Found>
    ensures { option_to_list result ≡ cut_off kind }
{
    match kind {
        Some(Kind::Message(_)) => Some(Found::Damage),
        Some(Kind::Status) => None,
        Some(Kind::ReceiverId) => Some(Found::ReceiverId),
        Some(Kind::Unknown) => Some(Found::Damage),
        None => None,
    }
}

// Returns the message at the front of a piece and its length, if it is whole and has no escape among its bytes.
#[inline(always)]
fn whole_message(piece: &[u8]) -> Option<(Message, usize)>
    ensures fits { IfSome result (λ p. (0 < p.1) × (p.1 ≤ length piece.now)) }
    ensures held { IfSome result (λ p. HoldWithRest (take p.1 piece.now) (Found.Whole p.0 ∷ []) []) }
{
    if piece.len() < 2 || piece[0] != ESCAPE {
        return None;
    }
    let Kind::Message(size) = message::kind_of(piece[1]) else {
        return None;
    };
    let count = message::message_len(size);
    if piece.len() < 2 + count {
        return None;
    }
    let bytes = &piece[2..2 + count];
    if !is_plain(bytes) {
        return None;
    }
    Some((message::message_of(size, bytes), 2 + count))
}

// Returns whether no byte is an escape. The 21 bytes of a long message are two overlapping groups of 16.
#[inline(always)]
fn is_plain(bytes: &[u8]) -> bool
    ensures { IsTrue result → IsPlain bytes.now }
{
    if bytes.len() == LONGEST {
        return are_plain(&bytes[..LANES]) && are_plain(&bytes[LONGEST - LANES..]);
    }
    bytes.iter().all(|byte| *byte != ESCAPE)
}

// Returns whether none of 16 bytes is an escape.
#[inline(always)]
fn are_plain(bytes: &[u8]) -> bool
    requires { length bytes.now ≡ 16 }
    ensures { IsTrue result → IsPlain bytes.now }
{
    u8x16::from_slice(bytes)
        .simd_eq(u8x16::splat(ESCAPE))
        .to_bitmask()
        == 0
}
