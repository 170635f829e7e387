//! Numbers in hexadecimal digits.
ghost use Rattle.std.specs.Prelude.{◌≡◌, ◌+◌, ◌*◌, ◌/◌, ◌<◌, ◌≤◌, ◌^◌, ◌++◌, ◌∷◌, [], true};
ghost use Rattle.std.specs.Fmt.{digit_glyph};
ghost use Rattle.std.specs.Str.{IsAscii};
ghost use Rattle.sq_digits.specs.Buffer.{text_len};
ghost use Rattle.sq_digits.specs.Digits.{hexadecimal};

use crate::buffer::TextBuffer;

// All bytes as two hexadecimal digits each.
const BYTES: &str = "\
000102030405060708090A0B0C0D0E0F101112131415161718191A1B1C1D1E1F202122232425262728292A2B2C2D2E2F\
303132333435363738393A3B3C3D3E3F404142434445464748494A4B4C4D4E4F505152535455565758595A5B5C5D5E5F\
606162636465666768696A6B6C6D6E6F707172737475767778797A7B7C7D7E7F808182838485868788898A8B8C8D8E8F\
909192939495969798999A9B9C9D9E9FA0A1A2A3A4A5A6A7A8A9AAABACADAEAFB0B1B2B3B4B5B6B7B8B9BABBBCBDBEBF\
C0C1C2C3C4C5C6C7C8C9CACBCCCDCECFD0D1D2D3D4D5D6D7D8D9DADBDCDDDEDFE0E1E2E3E4E5E6E7E8E9EAEBECEDEEEF\
F0F1F2F3F4F5F6F7F8F9FAFBFCFDFEFF";

/// Appends the lowest six hexadecimal digits of a number in upper case, two at a time.
#[inline(always)]
pub fn push_six_places<const N: usize>(text: &mut TextBuffer<N>, number: u32)
    requires { text_len text.old + 6 ≤ N }
    ensures bytes { text.new.bytes ≡ text.old.bytes ++ hexadecimal 6 number }
    ensures len { text_len text.new ≡ text_len text.old + 6 }
{
    push_byte(text, (number >> 16 & 0xFF) as u8);
    push_byte(text, (number >> 8 & 0xFF) as u8);
    push_byte(text, (number & 0xFF) as u8);
}

/// Appends a byte as two upper-case hexadecimal digits.
#[inline(always)]
pub fn push_byte<const N: usize>(text: &mut TextBuffer<N>, byte: u8)
    requires { text_len text.old + 2 ≤ N }
    ensures bytes { text.new.bytes ≡ text.old.bytes ++ hexadecimal 2 byte }
    ensures len { text_len text.new ≡ text_len text.old + 2 }
{
    text.push_front(two_digits(byte), 2);
}

// Returns the two digits of a byte.
#[inline(always)]
fn two_digits(byte: u8) -> &'static [u8]
    ensures ascii { IsAscii result.now }
    ensures digits { result.now ≡ hexadecimal 2 byte }
{
    let at = 2 * usize::from(byte);
    &BYTES.as_bytes()[at..at + 2]
}

/// Appends the lowest `places` hexadecimal digits of a number, at most 16, in upper case.
pub fn push_hexadecimal<const N: usize>(text: &mut TextBuffer<N>, number: u64, places: u8)
    requires some { places ≤ 16 }
    requires room { text_len text.old + places ≤ N }
    ensures bytes { text.new.bytes ≡ text.old.bytes ++ hexadecimal places number }
    ensures len { text_len text.new ≡ text_len text.old + places }
{
    for place in 0..places {
        push_nibble(text, (number >> (4 * (places - 1 - place)) & 0xF) as u8);
    }
}

fn push_nibble<const N: usize>(text: &mut TextBuffer<N>, digit: u8)
    requires digit { digit < 16 }
    requires room { text_len text.old + 1 ≤ N }
    ensures bytes { text.new.bytes ≡ text.old.bytes ++ digit_glyph true digit ∷ [] }
    ensures len { text_len text.new ≡ text_len text.old + 1 }
{
    text.push(if digit < 10 {
        b'0' + digit
    } else {
        b'A' - 10 + digit
    });
}
