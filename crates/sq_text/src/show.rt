//! The text of a squitter.
ghost use Rattle.std.specs.Prelude.{◌≡◌, ◌+◌, ◌≤◌, ◌++◌, List, ℕ, codes, length};
ghost use Rattle.sq_digits.specs.Buffer.{text_len};
ghost use Rattle.sq_cpr.specs.Code.{numbers_of};
ghost use Rattle.sq_text.specs.Show.{IsShown, IsShownAirborne, IsShownMe, altitude_line, line, number_line};
ghost use Rattle.sq_text.specs.Show.{other_lines, parity_name, place_lines, surface_lines};
ghost use Rattle.sq_digits.specs.Digits.{hexadecimal};
ghost use Rattle.sq_message.specs.Spelling.{bit};

use itoa::Buffer;
use sq_cpr::{Code, Parity};
use sq_digits::{TextBuffer, push_decimal, push_hexadecimal};
use sq_message::{Airborne, Altitude, Me, Other, Squitter, Surface, altitude};

/// The text of a squitter: one line for each field.
pub type ShowText = TextBuffer<320>;

/// Returns the fields of a squitter, one for each line: its address, capability and type code, its kind, and then the
/// fields of the kind. The address, a raw altitude and the bits of a message of kind other are upper-case hexadecimal
/// digits. Other numbers are decimal.
pub fn show_text(squitter: &Squitter) -> ShowText
    ensures { IsShown squitter.now result.bytes }
{
    let mut text = ShowText::new();
    push_address(&mut text, squitter.address());
    push_number(&mut text, "ca", u32::from(squitter.ca()));
    push_me(&mut text, &squitter.me());
    text
}

#[tactic(auto, unfolding(crate::specs::Show::line))]
fn push_address(text: &mut ShowText, address: u32)
    requires { text_len text.old ≤ 250 }
    ensures bytes { text.new.bytes ≡ text.old.bytes ++ line (codes "address") (hexadecimal 6 address) }
    ensures len { text_len text.new ≤ text_len text.old + 15 }
{
    text.push_str("address ");
    push_hexadecimal(text, u64::from(address), 6);
    text.push_str("\n");
}

fn push_me(text: &mut ShowText, me: &Me)
    requires { text_len text.old ≤ 39 }
    ensures { (rest : List ℕ) × IsShownMe me.now rest × (text.new.bytes ≡ text.old.bytes ++ rest) }
{
    match me {
        Me::Airborne(airborne) => push_airborne(text, airborne),
        Me::Surface(surface) => push_surface(text, surface),
        Me::Other(other) => push_other(text, other),
    }
}

fn push_airborne(text: &mut ShowText, airborne: &Airborne)
    requires { text_len text.old ≤ 39 }
    ensures { (rest : List ℕ) × IsShownAirborne airborne.now rest × (text.new.bytes ≡ text.old.bytes ++ rest) }
{
    let fields = airborne.fields;
    push_number(text, "type", u32::from(fields.type_code()));
    push_line(text, "kind", "air");
    push_number(text, "status", u32::from(fields.status()));
    push_flag(text, "flag", fields.flag());
    push_altitude(text, altitude(airborne));
    push_flag(text, "time", fields.time());
    push_place(text, airborne.parity, &airborne.code);
}

fn push_surface(text: &mut ShowText, surface: &Surface)
    requires { text_len text.old ≤ 39 }
    ensures { text.new.bytes ≡ text.old.bytes ++ surface_lines surface.now }
{
    let fields = surface.fields;
    push_number(text, "type", u32::from(fields.type_code()));
    push_line(text, "kind", "ground");
    push_number(text, "movement", u32::from(fields.movement()));
    push_flag(text, "track status", fields.track_status());
    push_number(text, "track", u32::from(fields.track()));
    push_flag(text, "time", fields.time());
    push_place(text, surface.parity, &surface.code);
}

fn push_other(text: &mut ShowText, other: &Other)
    requires { text_len text.old ≤ 39 }
    ensures { text.new.bytes ≡ text.old.bytes ++ other_lines other.now }
{
    push_number(text, "type", u32::from(other.type_code()));
    push_line(text, "kind", "other");
    push_raw(text, other.raw());
}

fn push_altitude(text: &mut ShowText, altitude: Altitude)
    requires { text_len text.old ≤ 200 }
    ensures bytes { text.new.bytes ≡ text.old.bytes ++ altitude_line altitude }
    ensures len { text_len text.new ≤ text_len text.old + 33 }
{
    match altitude {
        Altitude::Missing => text.push_str("altitude none\n"),
        Altitude::Feet(feet) => {
            text.push_str("altitude ");
            let mut buffer = Buffer::new();
            text.push_str(buffer.format(feet));
            text.push_str(" ft\n");
        }
        Altitude::Raw(field) => {
            text.push_str("altitude raw ");
            push_hexadecimal(text, u64::from(field), 3);
            text.push_str("\n");
        }
    }
}

fn push_place(text: &mut ShowText, parity: Parity, code: &Code)
    requires { text_len text.old ≤ 250 }
    ensures { text.new.bytes ≡ text.old.bytes ++ place_lines parity (numbers_of code.now) }
{
    push_parity(text, parity);
    push_number(text, "lat", code.lat());
    push_number(text, "lon", code.lon());
}

fn push_parity(text: &mut ShowText, parity: Parity)
    requires { text_len text.old ≤ 250 }
    ensures bytes { text.new.bytes ≡ text.old.bytes ++ line (codes "parity") (parity_name parity) }
    ensures len { text_len text.new ≤ text_len text.old + 12 }
{
    match parity {
        Parity::Even => push_line(text, "parity", "even"),
        Parity::Odd => push_line(text, "parity", "odd"),
    }
}

#[tactic(auto, unfolding(crate::specs::Show::line))]
fn push_raw(text: &mut ShowText, raw: u64)
    requires { text_len text.old ≤ 250 }
    ensures { text.new.bytes ≡ text.old.bytes ++ line (codes "me") (hexadecimal 14 raw) }
{
    text.push_str("me ");
    push_hexadecimal(text, raw, 14);
    text.push_str("\n");
}

// Appends a name and a one-bit field as a line.
fn push_flag(text: &mut ShowText, name: &str, flag: bool)
    requires { text_len text.old + length name.now + 22 ≤ 320 }
    ensures bytes { text.new.bytes ≡ text.old.bytes ++ number_line name.now (bit flag) }
    ensures len { text_len text.new ≤ text_len text.old + length name.now + 22 }
{
    push_number(text, name, u32::from(flag));
}

// Appends a name and a number as a line.
#[tactic(auto, unfolding(crate::specs::Show::line))]
fn push_number(text: &mut ShowText, name: &str, number: u32)
    requires { text_len text.old + length name.now + 22 ≤ 320 }
    ensures bytes { text.new.bytes ≡ text.old.bytes ++ number_line name.now number }
    ensures len { text_len text.new ≤ text_len text.old + length name.now + 22 }
{
    text.push_str(name);
    text.push_str(" ");
    push_decimal(text, u64::from(number));
    text.push_str("\n");
}

// Appends a name and a word as a line.
#[tactic(auto, unfolding(crate::specs::Show::line))]
fn push_line(text: &mut ShowText, name: &str, word: &str)
    requires { text_len text.old + length name.now + length word.now + 2 ≤ 320 }
    ensures bytes { text.new.bytes ≡ text.old.bytes ++ line name.now word.now }
    ensures len { text_len text.new ≤ text_len text.old + length name.now + length word.now + 2 }
{
    text.push_str(name);
    text.push_str(" ");
    text.push_str(word);
    text.push_str("\n");
}
