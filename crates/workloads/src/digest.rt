//! A digest of results: of numbers, and of bytes whatever pieces they come in.
ghost use Rattle.std.specs.Prelude.{◌+◌, ◌≤◌, length};

use std::io;
use std::io::Write;

// How many bytes are held before they are mixed in.
const HELD: usize = 4096;

// A word has so many bytes.
const WORD: usize = 8;

/// A digest of numbers, by their order.
#[derive(Clone, Copy)]
pub(crate) struct Mix(u64);

impl Mix {
    pub(crate) fn new() -> Mix {
        Mix(0xCBF2_9CE4_8422_2325)
    }

    /// Mixes in a number.
    #[inline(always)]
    pub(crate) fn add(&mut self, number: u64) {
        let mixed = (self.0 ^ number).wrapping_mul(0x9E37_79B9_7F4A_7C15);
        self.0 = mixed ^ mixed >> 29;
    }

    /// Mixes in a signed number.
    #[inline(always)]
    pub(crate) fn add_signed(&mut self, number: i64) {
        self.add(u64::from_le_bytes(number.to_le_bytes()));
    }

    pub(crate) fn value(self) -> u64 {
        self.0
    }
}

/// A writer that keeps a digest of what was written.
#[derive(Drop)]
pub(crate) struct Digest {
    mix: Mix,
    total: u64,
    bytes: [u8; HELD],
    held: usize,
    ghost within: { held ≤ 4096 },
}

impl Digest {
    pub(crate) fn new() -> Digest {
        Digest {
            mix: Mix::new(),
            total: 0,
            bytes: [0; HELD],
            held: 0,
        }
    }

    // Mixes in all that is held, with zeros behind it.
    #[inline(never)]
    fn mix_held(&mut self) {
        for at in self.held..HELD {
            self.bytes[at] = 0;
        }
        self.mix = mixed(self.mix, &self.bytes);
        self.held = 0;
    }

    /// Takes all bytes of a text, which is shorter than what is held at once.
    #[inline(always)]
    pub(crate) fn add(&mut self, text: &[u8]) {
        let first = self.take(text);
        if first < text.len() {
            self.take(&text[first..]);
        }
    }

    // Takes the first bytes, and returns how many.
    #[inline(always)]
    fn take(&mut self, from: &[u8]) -> usize
        ensures { result ≤ length from.now }
    {
        if self.held == HELD {
            self.mix_held();
        }
        let count = from.len().min(HELD - self.held);
        let end = self.held + count;
        self.bytes[self.held..end].copy_from_slice(&from[..count]);
        self.held = end;
        self.total = self.total.wrapping_add(count as u64);
        count
    }

    /// The digest of all bytes and of their number.
    pub(crate) fn value(mut self) -> u64 {
        self.mix_held();
        let mut mix = self.mix;
        mix.add(self.total);
        mix.value()
    }
}

// A digest with the words of these bytes mixed in, in four lanes that do not wait for one another.
fn mixed(before: Mix, bytes: &[u8; HELD]) -> Mix {
    let mut mix = before;
    let (mut first, mut second, mut third, mut fourth) = (
        Mix::new(),
        Mix::new(),
        Mix::new(),
        Mix::new(),
    );
    for row in 0..HELD / (4 * WORD) {
        let at = 4 * WORD * row;
        first.add(word_at(bytes, at));
        second.add(word_at(bytes, at + WORD));
        third.add(word_at(bytes, at + 2 * WORD));
        fourth.add(word_at(bytes, at + 3 * WORD));
    }
    for lane in [first, second, third, fourth] {
        mix.add(lane.value());
    }
    mix
}

// Eight bytes as a number.
#[inline(always)]
fn word_at(bytes: &[u8; HELD], at: usize) -> u64
    requires { at + 8 ≤ 4096 }
{
    u64::from_le_bytes([
        bytes[at],
        bytes[at + 1],
        bytes[at + 2],
        bytes[at + 3],
        bytes[at + 4],
        bytes[at + 5],
        bytes[at + 6],
        bytes[at + 7],
    ])
}

impl Write for Digest {
    fn write(&mut self, from: &[u8]) -> io::Result<usize> {
        Ok(self.take(from))
    }

    fn flush(&mut self) -> io::Result<()> {
        Ok(())
    }
}
