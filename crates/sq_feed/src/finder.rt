//! Finds the format of a source by its first bytes, and keeps them.
ghost use Rattle.std.specs.Prelude.{◌≡◌, ◌==◌, ◌++◌, ◌||◌, ◌&&◌, ◌+◌, ◌-◌, ◌<◌, ◌≤◌, ℕ, List, [], ◌∷◌, if◌then◌else◌, length, nat_lt, option_to_list, take};
ghost use Rattle.sq_feed.specs.Finding.{HasShown, beast_of, begun_sign, byte_sign, in_turn, in_turn_after, is_framed_line};
ghost use Rattle.sq_feed.specs.Finding.{limit, limit_sign, named, named_after, nothing_seen, remembered, shown_after};

use crate::beast::Beast;
use crate::machine::Format;
use crate::message::{Found, Stranger};
use crate::signs::{Sign, first_shown, is_framed_line, last_byte_sign, line_sign};
use arrayvec::ArrayVec;
use std::marker::Model;

// Two messages in a row show Beast.
const IN_TURN: u8 = 2;

// The number of bytes within which a source has to show its format.
const LIMIT: usize = 16_384;

/// Reads a source as Beast and as text until one of them is shown, and keeps all bytes. Allocates nothing.
#[derive(Drop)]
pub(crate) struct Finder {
    beast: Beast,
    count: u8,
    held: ArrayVec<u8, LIMIT>,
    // Where the unfinished line begins.
    line: usize,
    is_framed: bool,
    stranger: Option<Stranger>,
}

impl Model for Finder {
    ghost use Rattle.std.specs.Prelude.{◌≤◌, drop, length};
    ghost use Rattle.sq_feed.specs.Finding.{Finds};

    ghost Value = { Finds };

    ghost view = { λ s. record {
      beast = s.beast;
      count = s.count;
      text = record {
        line = drop s.line s.held.items;
        count = length s.held.items;
        is_framed = s.is_framed;
        stranger = s.stranger;
      };
      held = s.held.items;
    } };

    ghost invariant = { λ s. s.line ≤ length s.held.items };
}

impl Finder {
    // Returns a finder at the start of a source.
    pub(crate) fn new() -> Finder
        ensures { result ≡ nothing_seen }
    {
        Finder {
            beast: Beast::new(),
            count: 0,
            held: ArrayVec::new(),
            line: 0,
            is_framed: false,
            stranger: None,
        }
    }

    // Takes bytes of a piece up to the first that shows what the source is, or all of them. Returns how many it took,
    // and what they show.
    pub(crate) fn take(&mut self, piece: &[u8]) -> (usize, Sign)
        requires { length self.old.held < limit }
        ensures fits { result.0 ≤ length piece.now }
        ensures some { 0 < length piece.now → 0 < result.0 }
        ensures held { self.new.held ≡ self.old.held ++ take result.0 piece.now }
        ensures room { result.1 ≡ Sign.Unclear → length self.new.held < limit }
        ensures most { length self.new.held ≤ limit }
        ensures shows { HasShown result.1 self.old (take result.0 piece.now) self.new }
    {
        let _ = &self.count;
        for (at, byte) in piece.iter().enumerate() {
            match self.take_byte(*byte) {
                Sign::Unclear => {}
                Sign::Shows(format) => return (at + 1, Sign::Shows(format)),
                Sign::Other(stranger) => return (at + 1, Sign::Other(stranger)),
            }
        }
        (piece.len(), Sign::Unclear)
    }

    // Returns what a source shows that ends here.
    pub(crate) fn finish(&self) -> Sign
        ensures { result ≡ shown_after self.now [] }
    {
        let last = self.begun_sign();
        let otherwise = if self.messages() >= 1 {
            Sign::Shows(Format::Beast)
        } else if self.held.is_empty() {
            Sign::Unclear
        } else {
            self.named_text(last)
        };
        first_shown(last, otherwise)
    }

    // Returns the sign of the unfinished line, as it is.
    fn begun_sign(&self) -> Sign
        ensures { result ≡ begun_sign self.now.text }
    {
        line_sign(true, &self.held.as_slice()[self.line..])
    }

    // Returns what a source is that no byte shows, by the sign of its unfinished line.
    fn named_text(&self, last: Sign) -> Sign
        ensures { result ≡ (if self.now.text.is_framed then Sign.Shows Format.Avr
            else named_after self.now.text.stranger last) }
    {
        if self.is_framed {
            Sign::Shows(Format::Avr)
        } else {
            named_after(self.stranger, last)
        }
    }

    // Returns all bytes that it has taken.
    pub(crate) fn held(&self) -> &[u8]
        ensures { result.now ≡ self.now.held }
    {
        self.held.as_slice()
    }

    // Takes a byte. Returns what it shows.
    fn take_byte(&mut self, byte: u8) -> Sign
        requires { length self.old.held < limit }
        ensures held { self.new.held ≡ self.old.held ++ byte ∷ [] }
        ensures room { result ≡ Sign.Unclear → length self.new.held < limit }
        ensures shows { HasShown result self.old (byte ∷ []) self.new }
    {
        self.take_as_beast(byte);
        let messages = self.messages();
        let sign = self.push(byte);
        if messages >= IN_TURN {
            return Sign::Shows(Format::Beast);
        }
        self.end_byte(byte, sign);
        first_shown(sign, self.limit_sign())
    }

    // Takes a byte of a Beast stream.
    fn take_as_beast(&mut self, byte: u8)
        ensures beast { (bytes : List ℕ) → beast_of self.new bytes ≡ beast_of self.old (byte ∷ bytes) }
        ensures text { (self.new.text ≡ self.old.text) × (self.new.held ≡ self.old.held) }
    {
        let (_count, found) = self.beast.take(&[byte]);
        self.hear(found);
    }

    // Counts an item of Beast, if there is one.
    fn hear(&mut self, found: Option<Found>)
        ensures { self.new ≡ record self.old { count = in_turn self.old.count (option_to_list found) } }
    {
        if let Some(found) = found {
            self.count = in_turn_after(self.count, &found);
        }
    }

    // Returns how many messages are in a row at the end of a Beast stream that ends here.
    fn messages(&self) -> u8
        ensures { result ≡ beast_of self.now [] }
    {
        match self.beast.finish() {
            Some(found) => in_turn_after(self.count, &found),
            None => self.count,
        }
    }

    // Adds a byte to the line. Returns its sign.
    fn push(&mut self, byte: u8) -> Sign
        requires { length self.old.held < limit }
        ensures sign { result ≡ byte_sign self.old.text byte }
        ensures beast { (self.new.beast ≡ self.old.beast) × (self.new.count ≡ self.old.count) }
        ensures held { self.new.held ≡ self.old.held ++ byte ∷ [] }
        ensures text { self.new.text ≡ record self.old.text {
          line = self.old.text.line ++ byte ∷ [];
          count = self.old.text.count + 1;
        } }
    {
        self.held.push(byte);
        let line = &self.held.as_slice()[self.line..];
        last_byte_sign(line, byte, self.is_framed, self.line == 0)
    }

    // Ends the line at a line feed, and remembers what the sign of the byte names. The line has the byte already.
    fn end_byte(&mut self, byte: u8, sign: Sign)
        requires { 0 < length self.old.text.line }
        ensures beast { (self.new.beast ≡ self.old.beast) × (self.new.count ≡ self.old.count) }
        ensures held { self.new.held ≡ self.old.held }
        ensures text { self.new.text ≡ record self.old.text {
          line = if byte == 10 then [] else self.old.text.line;
          is_framed = self.old.text.is_framed
              || (byte == 10) && is_framed_line (take (length self.old.text.line - 1) self.old.text.line);
          stranger = remembered self.old.text.stranger sign;
        } }
        ensures count { self.new.text.count ≡ length self.new.held }
    {
        if byte == b'\n' {
            let line = &self.held.as_slice()[self.line..];
            self.is_framed = self.is_framed || is_framed_line(&line[..line.len() - 1]);
            self.line = self.held.len();
        }
        self.stranger = remembered(self.stranger, sign);
    }

    // Returns the sign of this many bytes: at the limit, that of the line that has begun, or that there are no frames.
    fn limit_sign(&self) -> Sign
        ensures { result ≡ (if length self.now.held == limit then limit_sign self.now.text else Sign.Unclear) }
    {
        if self.held.len() == LIMIT {
            let last = self.begun_sign();
            first_shown(last, self.named_text(last))
        } else {
            Sign::Unclear
        }
    }
}

// Returns the number of messages since the last damage after an item, up to two.
fn in_turn_after(count: u8, found: &Found) -> u8
    ensures { result ≡ in_turn_after count found.now }
{
    match found {
        Found::Whole(_) => { if count < IN_TURN { count + 1 } else { count } }
        Found::ReceiverId => count,
        Found::Damage => 0,
        Found::Foreign(_) => 0,
    }
}

// Returns the first kind of source without frames that was seen.
fn remembered(stranger: Option<Stranger>, sign: Sign) -> Option<Stranger>
    ensures { result ≡ remembered stranger sign }
{
    match (stranger, sign) {
        (Some(stranger), _) => Some(stranger),
        (None, Sign::Other(stranger)) => Some(stranger),
        (None, Sign::Unclear) => None,
        (None, Sign::Shows(_)) => None,
    }
}

// Returns what a source without a format is, by the sign of its last line.
fn named_after(stranger: Option<Stranger>, last: Sign) -> Sign
    ensures { result ≡ named_after stranger last }
{
    Sign::Other(named(remembered(stranger, last)))
}

// Returns what a source without a format is.
fn named(stranger: Option<Stranger>) -> Stranger
    ensures { result ≡ named stranger }
{
    match stranger {
        Some(stranger) => stranger,
        None => Stranger::NoFrame,
    }
}
