//! The texts of place errors.
ghost use Rattle.std.specs.Prelude.{◌≡◌, ◌+◌, ◌≤◌, ◌++◌, decimal};
ghost use Rattle.sq_digits.specs.Buffer.{text_len};
ghost use Rattle.sq_message.specs.Faults.{place_fault_text};

use itoa::Buffer;
use sq_digits::TextBuffer;
use sq_message::PlaceFault;

/// Appends the text of a place error, at most 32 bytes.
pub fn push_place_fault<const N: usize>(text: &mut TextBuffer<N>, fault: PlaceFault)
    requires { text_len text.old + 32 ≤ N }
    ensures bytes { text.new.bytes ≡ text.old.bytes ++ place_fault_text fault }
    ensures len { text_len text.new ≤ text_len text.old + 32 }
{
    text.push_str(fault.label());
    if let PlaceFault::ZoneCounts(even, odd) = fault {
        push_count(text, even);
        text.push_str(" ");
        push_count(text, odd);
    }
}

// Appends a zone count, at most 3 digits.
fn push_count<const N: usize>(text: &mut TextBuffer<N>, count: u8)
    requires { text_len text.old + 3 ≤ N }
    ensures bytes { text.new.bytes ≡ text.old.bytes ++ decimal count }
    ensures len { text_len text.new ≤ text_len text.old + 3 }
{
    let mut buffer = Buffer::new();
    text.push_str(buffer.format(count));
}
