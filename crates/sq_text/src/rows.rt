//! The values of a row.
ghost use Rattle.std.specs.Prelude.{◌≡◌, ◌+◌, ◌≤◌, ◌++◌, decimal, length};
ghost use Rattle.std.specs.Fmt.{signed_decimal};
ghost use Rattle.sq_digits.specs.Buffer.{text_len};
ghost use Rattle.sq_digits.specs.Digits.{hexadecimal};
ghost use Rattle.sq_text.specs.Rows.{Blank, Number, Word, between, cell, line_number, no_value, quote, row_end};
ghost use Rattle.sq_text.specs.Rows.{row_start, blank_width, end_width, line_width, number_width, signed_width};
ghost use Rattle.sq_text.specs.Rows.{word_width};

use crate::{push_decimal, push_hexadecimal, push_six_places};
use itoa::Buffer;
use sq_digits::{TextBuffer, push_signed_short};

/// The form of a row.
#[derive(Clone, Copy, Debug, PartialEq, Eq)]
pub enum Form {
    /// A record of CSV, with commas between its values (RFC 4180).
    Csv,
    /// An object of JSON (RFC 8259).
    Json,
}

/// Begins the row of the line with this number, with at most 28 bytes.
#[tactic(auto, unfolding(crate::specs::Rows::line_number))]
#[inline(always)]
pub fn push_line<const N: usize>(text: &mut TextBuffer<N>, form: Form, line: u64)
    requires { text_len text.old + line_width ≤ N }
    ensures bytes { text.new.bytes ≡ text.old.bytes ++ line_number form line }
    ensures len { text_len text.new ≤ text_len text.old + line_width }
{
    text.push_str(row_start(form));
    push_decimal(text, line);
}

#[inline(always)]
fn row_start(form: Form) -> &'static str
    ensures text { result.now ≡ row_start form }
    ensures short { length result.now ≤ 8 }
{
    match form {
        Form::Csv => "",
        Form::Json => "{\"line\":",
    }
}

/// Appends an empty value, with at most 8 bytes beside its name: nothing in CSV, `null` in JSON.
#[tactic(auto, unfolding(crate::specs::Rows::cell))]
#[inline(always)]
pub fn push_blank<const N: usize>(text: &mut TextBuffer<N>, form: Form, name: &str)
    requires { text_len text.old + length name.now + blank_width ≤ N }
    ensures bytes { text.new.bytes ≡ text.old.bytes ++ cell form name.now Blank }
    ensures len { text_len text.new ≤ text_len text.old + length name.now + blank_width }
{
    push_name(text, form, name);
    text.push_str(no_value(form));
}

#[inline(always)]
fn no_value(form: Form) -> &'static str
    ensures text { result.now ≡ no_value form }
    ensures short { length result.now ≤ 4 }
{
    match form {
        Form::Csv => "",
        Form::Json => "null",
    }
}

/// Appends a number in decimal digits, with at most 24 bytes beside its name.
#[tactic(auto, unfolding(crate::specs::Rows::cell))]
#[inline(always)]
pub fn push_number<const N: usize>(text: &mut TextBuffer<N>, form: Form, name: &str, number: u64)
    requires { text_len text.old + length name.now + number_width ≤ N }
    ensures bytes { text.new.bytes ≡ text.old.bytes ++ cell form name.now (Number (decimal number)) }
    ensures len { text_len text.new ≤ text_len text.old + length name.now + number_width }
{
    push_name(text, form, name);
    push_decimal(text, number);
}

/// Appends a number with its sign, with at most 15 bytes beside its name.
#[tactic(auto, unfolding(crate::specs::Rows::cell))]
#[inline(always)]
pub fn push_signed<const N: usize>(text: &mut TextBuffer<N>, form: Form, name: &str, number: i32)
    requires { text_len text.old + length name.now + signed_width ≤ N }
    ensures bytes { text.new.bytes ≡ text.old.bytes ++ cell form name.now (Number (signed_decimal number)) }
    ensures len { text_len text.new ≤ text_len text.old + length name.now + signed_width }
{
    push_name(text, form, name);
    // An altitude has at most five digits.
    if number.unsigned_abs() < 1_000_000 {
        push_signed_short(text, i64::from(number));
    } else {
        push_signed_long(text, number);
    }
}

// Appends any number with its sign.
#[cold]
#[inline(never)]
fn push_signed_long<const N: usize>(text: &mut TextBuffer<N>, number: i32)
    requires { text_len text.old + 11 ≤ N }
    ensures bytes { text.new.bytes ≡ text.old.bytes ++ signed_decimal number }
    ensures len { text_len text.new ≤ text_len text.old + 11 }
{
    let mut buffer = Buffer::new();
    text.push_str(buffer.format(number));
}

/// Appends a word, in quotes in JSON, with at most 6 bytes beside it and its name. The word has no comma, quote or
/// backslash.
#[tactic(auto, unfolding(crate::specs::Rows::cell))]
#[inline(always)]
pub fn push_word<const N: usize>(text: &mut TextBuffer<N>, form: Form, name: &str, word: &str)
    requires { text_len text.old + length name.now + word_width (length word.now) ≤ N }
    ensures bytes { text.new.bytes ≡ text.old.bytes ++ cell form name.now (Word word.now) }
    ensures len { text_len text.new ≤ text_len text.old + length name.now + word_width (length word.now) }
{
    push_quoted_name(text, form, name);
    text.push_str(word);
    text.push_str(quote(form));
}

/// Appends the lowest `places` hexadecimal digits of a number, at most 16, as a word in upper case.
#[tactic(auto, unfolding(crate::specs::Rows::cell))]
#[inline(always)]
pub fn push_hexadecimal_word<const N: usize>(
    text: &mut TextBuffer<N>,
    form: Form,
    name: &str,
    number: u64,
    places: u8,
)
    requires some { places ≤ 16 }
    requires room { text_len text.old + length name.now + word_width places ≤ N }
    ensures bytes { text.new.bytes ≡ text.old.bytes ++ cell form name.now (Word (hexadecimal places number)) }
    ensures len { text_len text.new ≤ text_len text.old + length name.now + word_width places }
{
    push_quoted_name(text, form, name);
    push_hexadecimal(text, number, places);
    text.push_str(quote(form));
}

/// Appends the lowest six hexadecimal digits of an address as a word in upper case.
#[tactic(auto, unfolding(crate::specs::Rows::cell))]
#[inline(always)]
pub fn push_address<const N: usize>(text: &mut TextBuffer<N>, form: Form, name: &str, address: u32)
    requires { text_len text.old + length name.now + word_width 6 ≤ N }
    ensures bytes { text.new.bytes ≡ text.old.bytes ++ cell form name.now (Word (hexadecimal 6 address)) }
    ensures len { text_len text.new ≤ text_len text.old + length name.now + word_width 6 }
{
    push_quoted_name(text, form, name);
    push_six_places(text, address);
    text.push_str(quote(form));
}

/// Ends a row with a line feed, with at most 2 bytes.
#[inline(always)]
pub fn push_end<const N: usize>(text: &mut TextBuffer<N>, form: Form)
    requires { text_len text.old + end_width ≤ N }
    ensures bytes { text.new.bytes ≡ text.old.bytes ++ row_end form }
    ensures len { text_len text.new ≤ text_len text.old + end_width }
{
    text.push_str(match form {
        Form::Csv => "\n",
        Form::Json => "}\n",
    });
}

// Appends the separator and the column's name, if the form has it, before a value.
#[inline(always)]
pub(crate) fn push_name<const N: usize>(text: &mut TextBuffer<N>, form: Form, name: &str)
    requires { text_len text.old + length name.now + 4 ≤ N }
    ensures bytes { text.new.bytes ≡ text.old.bytes ++ between form name.now }
    ensures len { text_len text.new ≤ text_len text.old + length name.now + 4 }
{
    match form {
        Form::Csv => text.push_str(","),
        Form::Json => {
            text.push_str(",\"");
            text.push_str(name);
            text.push_str("\":");
        }
    }
}

// Appends the separator, the name and the quote before a word.
#[inline(always)]
pub(crate) fn push_quoted_name<const N: usize>(text: &mut TextBuffer<N>, form: Form, name: &str)
    requires { text_len text.old + length name.now + 5 ≤ N }
    ensures bytes { text.new.bytes ≡ text.old.bytes ++ (between form name.now ++ quote form) }
    ensures len { text_len text.new ≤ text_len text.old + length name.now + 5 }
{
    push_name(text, form, name);
    text.push_str(quote(form));
}

// Returns the quote at both ends of a word, if the form has one.
#[inline(always)]
pub(crate) fn quote(form: Form) -> &'static str
    ensures text { result.now ≡ quote form }
    ensures short { length result.now ≤ 1 }
{
    match form {
        Form::Csv => "",
        Form::Json => "\"",
    }
}
