//! Laws of frames and of their parity, over the definitions alone.
ghost use Rattle.std.specs.Prelude.{◌≡◌, ℕ, bit_xor};
ghost use Rattle.sq_bits.specs.declared.frame.Frame.{Frame};
ghost use Rattle.sq_bits.specs.Frames.{IsFrame, frame_number, xor_bytes};
ghost use Rattle.sq_bits.specs.Parity.{IsRemainder};

use crate::frame::{Frame, are_bytes};

/// Every frame of a program is 14 bytes.
pub fn each_frame(frame: &Frame)
    ensures { IsFrame frame.now }
{
    are_bytes(&frame.0);
}

/// The remainder of the bitwise exclusive or of two frames is the exclusive or of their remainders.
pub fn sum_of_frames()
    ensures { (f g h : Frame) (r s : ℕ) → IsFrame f → IsFrame g → h.0 ≡ xor_bytes f.0 g.0
        → IsRemainder (frame_number f) r → IsRemainder (frame_number g) s → IsRemainder (frame_number h) (bit_xor r s) }
{}
