//! Lines of a log, in the form that `track` reads.
ghost use Rattle.std.specs.Prelude.{◌≡◌, ◌+◌, ◌*◌, ◌≤◌, ◌++◌, length, take};
ghost use Rattle.sq_digits.specs.Buffer.{text_len};
ghost use Rattle.sq_feed.specs.Lines.{log_line, tail_of};

use sq_digits::{TextBuffer, push_byte, push_decimal};

// The bytes after the timestamp: a space, the digits of a long or of a short frame, and a line feed.
const TAIL: usize = 30;

const SHORT_TAIL: usize = 16;

// The first downlink format of long frames.
const FIRST_LONG: u8 = 16;

/// The most bytes that a line has.
pub const LINE_LIMIT: usize = 50;

/// Appends the line of a frame and its timestamp (ms). A frame of a downlink format below 16 has seven bytes, the first
/// ones. Needs room for `LINE_LIMIT` bytes.
#[inline(never)]
#[tactic(auto, unfolding(crate::specs::Lines::log_line))]
pub fn push_log_line<const N: usize>(text: &mut TextBuffer<N>, moment: u64, frame: &[u8; 14])
    requires { text_len text.old + 50 ≤ N }
    ensures bytes { text.new.bytes ≡ text.old.bytes ++ log_line moment frame.now }
    ensures some { text_len text.old + 16 ≤ text_len text.new }
    ensures len { text_len text.new ≤ text_len text.old + 50 }
{
    push_decimal(text, moment);
    if frame[0] >> 3 < FIRST_LONG {
        push_short_tail(text, frame);
    } else {
        push_tail::<TAIL, N>(text, frame);
    }
}

// Appends the part after the timestamp of a short frame.
#[inline(never)]
fn push_short_tail<const N: usize>(text: &mut TextBuffer<N>, frame: &[u8; 14])
    requires { text_len text.old + 16 ≤ N }
    ensures bytes { text.new.bytes ≡ text.old.bytes ++ tail_of (take 7 frame.now) }
    ensures len { text_len text.new ≡ text_len text.old + 16 }
{
    push_tail::<SHORT_TAIL, N>(text, &frame[..7]);
}

// Appends a space, the digits of bytes, and a line feed: `LEN` bytes. They are built in a separate text, so that the
// compiler knows their number at each byte.
#[inline(always)]
fn push_tail<const LEN: usize, const N: usize>(text: &mut TextBuffer<N>, bytes: &[u8])
    requires all { 2 * length bytes.now + 2 ≡ LEN }
    requires room { text_len text.old + LEN ≤ N }
    ensures bytes { text.new.bytes ≡ text.old.bytes ++ tail_of bytes.now }
    ensures len { text_len text.new ≡ text_len text.old + LEN }
{
    let mut tail = TextBuffer::<LEN>::new();
    tail.push(b' ');
    for byte in bytes {
        push_byte(&mut tail, *byte);
    }
    tail.push(b'\n');
    text.push_front(tail.as_bytes(), LEN);
}
