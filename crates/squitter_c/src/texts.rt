//! The texts of faults, and the version.
ghost use Rattle.std.specs.Prelude.{◌≡◌, ◌≤◌, ◌++◌, codes, decimal};
ghost use Rattle.sq_digits.specs.Buffer.{text_len};
ghost use Rattle.sq_message.specs.Faults.{place_fault_text};
ghost use Rattle.sq_text.specs.Faults.{fault_text, fault_label};
ghost use Rattle.squitter_c.specs.Angles.{StandsIn};
ghost use Rattle.squitter_c.specs.Texts.{told_text, version};

use crate::angles::fill;
use crate::faults::Fault;
use sq_angle::AngleFault;
use sq_digits::TextBuffer;
use sq_message::PlaceFault;
use sq_text::{LineFault, push_decimal, push_hexadecimal};
use sq_track::TrackFault;

/// Writes the text of a fault, as the program writes it, at most 63 bytes, and zeros after it.
#[unsafe(no_mangle)]
pub extern "C" fn squitter_text_of_fault(fault: &Fault, out: &mut [u8; 64])
    ensures { StandsIn (told_text fault.now.code fault.now.first fault.now.second) out.new }
{
    let text = text_of(fault.code, fault.first, fault.second);
    fill(out, text.as_str());
}

// Returns the text of a code and its numbers.
fn text_of(code: u32, first: u64, second: u32) -> TextBuffer<63>
    ensures { result.bytes ≡ told_text code first second }
{
    let mut text = TextBuffer::new();
    push_told(&mut text, code, first, second);
    text
}

// Appends the text of a code and its numbers.
#[tactic(auto, unfolding(crate::specs::Texts::told_text))]
fn push_told(text: &mut TextBuffer<63>, code: u32, first: u64, second: u32)
    requires { text_len text.old ≤ 0 }
    ensures { text.new.bytes ≡ text.old.bytes ++ told_text code first second }
{
    match code {
        0 => text.push_str("no fault"),
        1 => text.push_str(LineFault::Wrap.label()),
        2 => text.push_str(LineFault::Short.label()),
        3 => push_named(text, LineFault::Length(0), first),
        4 => push_named(text, LineFault::Digit(0), first),
        5 => push_named(text, LineFault::NotDf17(0), first),
        6 => push_remainder(text, first),
        10 => text.push_str(PlaceFault::NotPosition.label()),
        11 => text.push_str(PlaceFault::OtherAddress.label()),
        12 => text.push_str(PlaceFault::OtherKind.label()),
        13 => text.push_str(PlaceFault::SameParity.label()),
        14 => text.push_str(PlaceFault::NoSite.label()),
        15 => text.push_str(PlaceFault::OutOfRange.label()),
        16 => push_counts(text, first, u64::from(second)),
        20 => text.push_str("bad position"),
        21 => text.push_str("bad fields"),
        22 => text.push_str("bad angle"),
        23 => text.push_str("bad latitude"),
        24 => text.push_str("bad feet"),
        25 => text.push_str("bad parity"),
        30 => text.push_str(AngleFault::NotANumber.label()),
        31 => text.push_str(AngleFault::TooManyDecimals.label()),
        32 => text.push_str(AngleFault::OutOfRange.label()),
        40 => text.push_str(LineFault::LongLine.label()),
        41 => text.push_str(LineFault::Moment.label()),
        42 => push_named(text, LineFault::MomentBack(0), first),
        43 => text.push_str(LineFault::Full.label()),
        44 => text.push_str(TrackFault::Memory.label()),
        45 => text.push_str(TrackFault::NoLimit.label()),
        46 => text.push_str("no tracker"),
        48 => text.push_str("log too long"),
        49 => text.push_str("bad format"),
        50 => push_entry(text, first),
        _ => text.push_str("unknown fault"),
    }
}

// Appends the words of a fault and a number.
fn push_named(text: &mut TextBuffer<63>, fault: LineFault, number: u64)
    requires { text_len text.old ≤ 0 }
    ensures { text.new.bytes ≡ text.old.bytes ++ (fault_label fault ++ decimal number) }
{
    text.push_str(fault.label());
    push_decimal(text, number);
}

// Appends the words of an entry and its index.
fn push_entry(text: &mut TextBuffer<63>, index: u64)
    requires { text_len text.old ≤ 0 }
    ensures { text.new.bytes ≡ text.old.bytes ++ (codes "bad entry " ++ decimal index) }
{
    text.push_str("bad entry ");
    push_decimal(text, index);
}

// Appends the text of a remainder: only its lowest 24 bits are written.
fn push_remainder(text: &mut TextBuffer<63>, remainder: u64)
    requires { text_len text.old ≤ 0 }
    ensures { text.new.bytes ≡ text.old.bytes ++ fault_text (LineFault.Parity remainder) }
{
    text.push_str(LineFault::Parity(0).label());
    push_hexadecimal(text, remainder, 6);
}

// Appends two zone counts.
fn push_counts(text: &mut TextBuffer<63>, even: u64, odd: u64)
    requires { text_len text.old ≤ 0 }
    ensures { text.new.bytes ≡ text.old.bytes ++ place_fault_text (PlaceFault.ZoneCounts even odd) }
{
    text.push_str(PlaceFault::ZoneCounts(0, 0).label());
    push_decimal(text, even);
    text.push_str(" ");
    push_decimal(text, odd);
}

/// Returns the version of the library: 65536 times the major number, 256 times the minor number, and the number of
/// the patch.
#[unsafe(no_mangle)]
pub extern "C" fn squitter_version() -> u32
    ensures { result ≡ version }
{
    256
}
