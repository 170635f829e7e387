//! A squitter in one line.
ghost use Rattle.std.specs.Prelude.{◌≡◌, ◌+◌, ◌≤◌, ◌++◌, codes, length, take};
ghost use Rattle.std.specs.Str.{IsAscii};
ghost use Rattle.sq_digits.specs.Buffer.{text_len};
ghost use Rattle.sq_cpr.specs.Code.{numbers_of};
ghost use Rattle.sq_text.specs.Show.{parity_name};
ghost use Rattle.sq_text.specs.Summary.{code_words, me_words, summary};

use sq_cpr::{Code, Parity};
use sq_digits::{TextBuffer, push_decimal, push_short, push_six_places};
use sq_message::{Me, Squitter};

/// Appends the result of `check` for a valid frame, at most 72 bytes: `ok` and the address. The kind, parity and code
/// follow for a position, and `other` and the type code for another message.
#[inline(always)]
pub fn push_summary<const N: usize>(text: &mut TextBuffer<N>, squitter: &Squitter)
    requires { text_len text.old + 72 ≤ N }
    ensures bytes { text.new.bytes ≡ text.old.bytes ++ summary squitter.now }
    ensures len { text_len text.new ≤ text_len text.old + 72 }
{
    text.push_str("ok ");
    push_six_places(text, squitter.address());
    push_me(text, &squitter.me());
}

#[inline(always)]
fn push_me<const N: usize>(text: &mut TextBuffer<N>, me: &Me)
    requires { text_len text.old + 63 ≤ N }
    ensures bytes { text.new.bytes ≡ text.old.bytes ++ me_words me.now }
    ensures len { text_len text.new ≤ text_len text.old + 63 }
{
    match me {
        Me::Airborne(airborne) => {
            let (words, count) = air_words(airborne.parity);
            text.push_front(words, count);
            push_code(text, &airborne.code);
        }
        Me::Surface(surface) => {
            let (words, count) = ground_words(surface.parity);
            text.push_front(words, count);
            push_code(text, &surface.code);
        }
        Me::Other(other) => {
            text.push_str(" other ");
            push_decimal(text, u64::from(other.type_code()));
        }
    }
}

// The kind and the parity of an airborne position with spaces around them, even and odd, in rows of sixteen characters:
// a row is one load and one store.
const AIR_WORDS: [[u8; 16]; 2] = [*b" air even       ", *b" air odd        "];

// The kind and the parity of a surface position.
const GROUND_WORDS: [[u8; 16]; 2] = [*b" ground even    ", *b" ground odd     "];

// Returns the row of an airborne position, and how many of its characters are the words.
#[inline(always)]
fn air_words(parity: Parity) -> (&'static [u8; 16], usize)
    ensures ascii { IsAscii result.0.now }
    ensures within { result.1 ≤ 10 }
    ensures words { take result.1 result.0.now ≡ codes " air " ++ parity_name parity ++ codes " " }
{
    let odd = usize::from(parity.index());
    (&AIR_WORDS[odd], 10 - odd)
}

// Returns the row of a surface position, and how many of its characters are the words.
#[inline(always)]
fn ground_words(parity: Parity) -> (&'static [u8; 16], usize)
    ensures ascii { IsAscii result.0.now }
    ensures within { result.1 ≤ 13 }
    ensures words { take result.1 result.0.now ≡ codes " ground " ++ parity_name parity ++ codes " " }
{
    let odd = usize::from(parity.index());
    (&GROUND_WORDS[odd], 13 - odd)
}

// Appends a code.
#[inline(always)]
fn push_code<const N: usize>(text: &mut TextBuffer<N>, code: &Code)
    requires { text_len text.old + 41 ≤ N }
    ensures bytes { text.new.bytes ≡ text.old.bytes ++ code_words (numbers_of code.now) }
    ensures len { text_len text.new ≤ text_len text.old + 41 }
{
    push_short(text, u64::from(code.lat()));
    text.push(b' ');
    push_short(text, u64::from(code.lon()));
}
