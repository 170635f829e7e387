//! A text in a buffer of fixed size.
ghost use Rattle.std.specs.Prelude.{◌≡◌, ◌+◌, ◌<◌, ◌≤◌, ◌==◌, ◌++◌, ◌∷◌, [], length, take};
ghost use Rattle.std.specs.Str.{IsAscii};
ghost use Rattle.sq_digits.specs.Buffer.{text_len};

use std::marker::Model;
use std::str;

/// A text of at most `N` bytes, stored in the value itself.
///
/// Unlike `ArrayString`, it appends by plain stores: bytes behind the text may be overwritten, and a few bytes are
/// stored as one word.
#[derive(Clone, Copy)]
pub struct TextBuffer<const N: usize> {
    cells: [u8; N],
    len: usize,
}

impl<const N: usize> Model for TextBuffer<N> {
    ghost use Rattle.std.specs.Prelude.{◌≡◌, ◌≤◌, ◌++◌, length, take, drop, IsUtf8};
    ghost use Rattle.std.proofs.Common.{arith, take-append-drop, length-take-le};
    ghost use Rattle.sq_digits.specs.Buffer.{TextBuffer as Text};

    ghost Value = { Text };

    ghost view = { λ s. record { bytes = take s.len s.cells; spare = drop s.len s.cells } };

    ghost invariant = { λ s. (s.len ≤ N) × (length s.cells ≡ N) × ∥ IsUtf8 (take s.len s.cells) ∥₁ };

    ghost inverse = { λ s. record { cells = s.bytes ++ s.spare; len = length s.bytes } };

    ghost inverse_ok = { λ s h i. record {
      cells = take-append-drop s.len s.cells i;
      len = length-take-le s.len s.cells (omega (arith, h.0, h.1)) i;
    } };
}

impl<const N: usize> TextBuffer<N> {
    /// Returns an empty text.
    pub fn new() -> Self
        ensures { result.bytes ≡ [] }
    {
        TextBuffer {
            cells: [0; N],
            len: 0,
        }
    }

    /// Returns the length in bytes.
    #[inline]
    pub fn len(&self) -> usize
        ensures value { result ≡ text_len self.now }
        ensures fits { result ≤ N }
    {
        self.len
    }

    /// Returns whether the text is empty.
    #[inline]
    pub fn is_empty(&self) -> bool
        ensures { result ≡ (text_len self.now == 0) }
    {
        self.len == 0
    }

    /// Makes the text empty.
    #[inline]
    pub fn clear(&mut self)
        ensures { self.new.bytes ≡ [] }
    {
        self.len = 0;
    }

    /// Appends a text. The buffer must have room for it.
    #[inline(always)]
    pub fn push_str(&mut self, text: &str)
        requires { text_len self.old + length text.now ≤ N }
        ensures bytes { self.new.bytes ≡ self.old.bytes ++ text.now }
        ensures len { text_len self.new ≡ text_len self.old + length text.now }
    {
        let start = self.len;
        copy_in(&mut self.cells, start, text.as_bytes());
        self.len = start + text.len();
    }

    /// Appends an ASCII character. The buffer must have room for it.
    #[inline(always)]
    pub fn push(&mut self, character: u8)
        requires ascii { character < 128 }
        requires room { text_len self.old < N }
        ensures bytes { self.new.bytes ≡ self.old.bytes ++ character ∷ [] }
        ensures len { text_len self.new ≡ text_len self.old + 1 }
    {
        let place = self.len;
        self.cells[place] = character;
        self.len = place + 1;
    }

    /// Appends the first `count` of some ASCII characters. The buffer must have room for all of the characters, since
    /// they are stored as one word. The bytes behind the text have no meaning.
    #[inline(always)]
    pub fn push_front(&mut self, characters: &[u8], count: usize)
        requires ascii { IsAscii characters.now }
        requires within { count ≤ length characters.now }
        requires room { text_len self.old + length characters.now ≤ N }
        ensures bytes { self.new.bytes ≡ self.old.bytes ++ take count characters.now }
        ensures len { text_len self.new ≡ text_len self.old + count }
    {
        let start = self.len;
        copy_in(&mut self.cells, start, characters);
        self.len = start + count;
    }

    /// Returns the bytes of the text.
    #[inline]
    pub fn as_bytes(&self) -> &[u8]
        ensures value { result.now ≡ self.now.bytes }
        ensures fits { length result.now ≤ N }
    {
        &self.cells[..self.len]
    }

    /// Returns the text.
    #[inline]
    pub fn as_str(&self) -> &str
        ensures value { result.now ≡ self.now.bytes }
        ensures fits { length result.now ≤ N }
    {
        unsafe { str::from_utf8_unchecked(&self.cells[..self.len]) }
    }
}

// Stores the source from index `start` on, byte by byte. A call with a source of known length is compiled to stores
// of words.
#[inline(always)]
fn copy_in<const N: usize>(cells: &mut [u8; N], start: usize, source: &[u8])
    requires { start + length source.now ≤ N }
    ensures front { take (start + length source.now) cells.new ≡ take start cells.old ++ source.now }
    ensures len { length cells.new ≡ N }
{
    for at in 0..source.len() {
        cells[start + at] = source[at];
    }
}
