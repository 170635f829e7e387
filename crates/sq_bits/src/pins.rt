//! Guards of the definitions: each has one value, some value or an exact condition, so none can be weakened unnoticed.
//! A function with an empty body does nothing: its contract is the statement.
ghost use Rattle.std.specs.Prelude.{◌≡◌, ◌↔◌, ◌+◌, ◌<◌, ◌≤◌, ℕ, IsTrue};
ghost use Rattle.sq_bits.specs.declared.frame.Frame.{Frame};
ghost use Rattle.sq_bits.specs.Frames.{IsApart, KeepsFieldsBefore, bit_of};
ghost use Rattle.sq_bits.specs.Parity.{IsRemainder};

use crate::frame::Frame;

/// A number has at most one remainder.
pub fn one_remainder()
    ensures { (n r s : ℕ) → IsRemainder n r → IsRemainder n s → r ≡ s }
{}

/// A field lies apart from another one exactly if its bits are bits of a frame and the two fields share no bit.
pub fn apart_exactly()
    ensures { (start len first count : ℕ) → 0 < len → 0 < count → IsApart start len first count
        ↔ ((1 ≤ start) × (start + len ≤ 113)
        × ((place : ℕ) → start ≤ place → place < start + len → first ≤ place → place < first + count → ⊥)) }
{}

/// All fields before a bit are unchanged exactly if each bit before it is unchanged.
pub fn fields_kept_exactly()
    ensures { (bit : ℕ) (old new : Frame) → KeepsFieldsBefore bit old new
        ↔ ((place : ℕ) → 1 ≤ place → place < bit → bit_of new place ≡ bit_of old place) }
{}

/// Compares two frames by `==`, which is true exactly if they are the same.
pub fn equal_frames(frame: &Frame, other: &Frame) -> bool
    ensures { IsTrue result ↔ (frame.now ≡ other.now) }
{
    frame == other
}
