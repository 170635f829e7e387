//! The answers of `check` and `track` as lines of text: the line's number, and then the result or the error.
ghost use Rattle.std.specs.Prelude.{◌≡◌, ◌+◌, ◌≤◌, ◌++◌, [], Ok, codes, decimal, length};
ghost use Rattle.sq_digits.specs.Buffer.{text_len};
ghost use Rattle.sq_digits.specs.Digits.{hexadecimal};
ghost use Rattle.sq_angle.specs.Decimal.{DecimalWriter};
ghost use Rattle.sq_text.specs.Faults.{fault_text};
ghost use Rattle.sq_commands.specs.Formats.{Writers};
ghost use Rattle.sq_commands.specs.Heard.{heard_lines, heard_words, place_words};
ghost use Rattle.sq_commands.specs.Squitters.{squitter_lines};

use crate::answers::HeardSquitter;
use sq_log::LineText;
use sq_message::Squitter;
use sq_text::{LineFault, push_decimal, push_decimals, push_fault, push_six_places, push_summary};
use sq_track::{Heard, Place};

/// Writes a good frame into an empty text.
#[inline(always)]
pub(crate) fn push_squitter_line(text: &mut LineText, number: u64, squitter: &Squitter)
    requires { text.old.bytes ≡ [] }
    ensures { (writers : Writers) → text.new.bytes ≡ squitter_lines.text writers number (Ok squitter.now) }
{
    push_number(text, number);
    push_summary(text, squitter);
    push_end(text);
}

/// Writes the reply to a squitter into an empty text.
#[inline(always)]
pub(crate) fn push_heard_line(text: &mut LineText, number: u64, found: &HeardSquitter)
    requires { text.old.bytes ≡ [] }
    ensures { (writers : Writers) → text.new.bytes ≡ heard_lines.text writers number (Ok found.now) }
{
    push_number(text, number);
    push_heard(text, found.timed.squitter.address(), &found.heard);
    push_end(text);
}

/// Writes a fault into an empty text.
#[cold]
#[inline(never)]
pub(crate) fn push_refused_line(text: &mut LineText, number: u64, fault: LineFault)
    requires { text.old.bytes ≡ [] }
    ensures { text.new.bytes ≡ decimal number ++ codes " " ++ fault_text fault ++ codes "\n" }
{
    push_number(text, number);
    push_fault(text, fault);
    push_end(text);
}

// Writes the line's number into an empty text.
#[inline(always)]
fn push_number(text: &mut LineText, number: u64)
    requires { text.old.bytes ≡ [] }
    ensures bytes { text.new.bytes ≡ decimal number ++ codes " " }
    ensures len { text_len text.new ≤ 21 }
{
    push_decimal(text, number);
    text.push(b' ');
}

// Appends the line feed.
fn push_end(text: &mut LineText)
    requires { text_len text.old ≤ 93 }
    ensures { text.new.bytes ≡ text.old.bytes ++ codes "\n" }
{
    text.push(b'\n');
}

// Appends the reply for an address, at most 72 bytes.
fn push_heard(text: &mut LineText, address: u32, heard: &Heard)
    requires { text_len text.old ≤ 21 }
    ensures bytes { (decimals : DecimalWriter) → text.new.bytes
        ≡ text.old.bytes ++ heard_words decimals (hexadecimal 6 address) heard.now }
    ensures len { text_len text.new ≤ text_len text.old + 72 }
{
    match heard {
        Heard::Fix(place) => push_place(text, "fix ", address, place),
        Heard::Followed(place) => push_place(text, "followed ", address, place),
        Heard::Waiting => push_address(text, "waiting ", address),
        Heard::Split(even, odd) => push_split(text, address, *even, *odd),
        Heard::Far => push_address(text, "far ", address),
        Heard::NoSite => push_address(text, "no site ", address),
        Heard::NotPosition => push_address(text, "no position ", address),
    }
}

// Appends a word and the address.
#[inline(always)]
fn push_address(text: &mut LineText, word: &str, address: u32)
    requires word { length word.now ≤ 12 }
    requires room { text_len text.old ≤ 21 }
    ensures bytes { text.new.bytes ≡ text.old.bytes ++ (word.now ++ hexadecimal 6 address) }
    ensures len { text_len text.new ≤ text_len text.old + 18 }
{
    text.push_str(word);
    push_six_places(text, address);
}

// Appends a word, the address, and the place with seven decimals.
#[inline(always)]
fn push_place(text: &mut LineText, word: &str, address: u32, place: &Place)
    requires word { length word.now ≤ 12 }
    requires room { text_len text.old ≤ 21 }
    ensures bytes { (decimals : DecimalWriter) → text.new.bytes
        ≡ text.old.bytes ++ (word.now ++ hexadecimal 6 address ++ codes " " ++ place_words decimals place.now) }
    ensures len { text_len text.new ≤ text_len text.old + 72 }
{
    push_address(text, word, address);
    let position = place.position();
    text.push_str(" ");
    push_decimals(text, &position.lat());
    text.push_str(" ");
    push_decimals(text, &position.lon());
}

// Appends the address and both zone counts.
fn push_split(text: &mut LineText, address: u32, even: u8, odd: u8)
    requires { text_len text.old ≤ 21 }
    ensures bytes { text.new.bytes ≡ text.old.bytes
        ++ (codes "split " ++ hexadecimal 6 address ++ codes " " ++ (decimal even ++ codes " " ++ decimal odd)) }
    ensures len { text_len text.new ≤ text_len text.old + 72 }
{
    push_address(text, "split ", address);
    text.push_str(" ");
    push_decimal(text, u64::from(even));
    text.push_str(" ");
    push_decimal(text, u64::from(odd));
}
