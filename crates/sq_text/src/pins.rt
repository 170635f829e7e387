//! Guards of the definitions: each has one value, some value or an exact condition, so none can be weakened unnoticed.
//! A function with an empty body does nothing: its contract is the statement.
ghost use Rattle.std.specs.Prelude.{◌≡◌, ◌↔◌, IsTrue, ℕ, List, Result};
ghost use Rattle.sq_bits.specs.declared.frame.Frame.{Frame};
ghost use Rattle.sq_message.specs.declared.air.AirFields.{AirFields};
ghost use Rattle.sq_message.specs.declared.squitter.Squitter.{Squitter};
ghost use Rattle.sq_text.specs.Altitudes.{AltitudeReader};
ghost use Rattle.sq_text.specs.declared.faults.LineFault.{LineFault};
ghost use Rattle.sq_text.specs.declared.frame_text.TextFault.{TextFault};
ghost use Rattle.sq_text.specs.FrameText.{IsFrameReading};
ghost use Rattle.sq_angle.specs.declared.position.Position.{Position};
ghost use Rattle.sq_text.specs.Place.{IsPlaceText};
ghost use Rattle.sq_text.specs.Reading.{IsSquitterReading, SquitterReader};
ghost use Rattle.sq_text.specs.Show.{IsShown};
ghost use Rattle.sq_text.specs.Timed.{IsTimedReading, TimedReader};
ghost use Rattle.sq_message.specs.declared.received.Received.{Received};

use crate::{LineFault, TextFault};

/// A text has at most one result of `read_text`.
pub fn one_answer()
    ensures { (text : List ℕ) (r s : Result Frame TextFault) → IsFrameReading text r → IsFrameReading text s → r ≡ s }
{}

/// A text has at most one reading as a squitter.
pub fn one_squitter_reading()
    ensures { (text : List ℕ) (r s : Result Squitter LineFault)
        → IsSquitterReading text r → IsSquitterReading text s → r ≡ s }
{}

/// There is a function that reads every text as a squitter.
pub fn some_reader()
    ensures { SquitterReader }
{}

/// A text has at most one reading as a squitter with its timestamp.
pub fn one_timed_reading()
    ensures { (text : List ℕ) (r s : Result Received LineFault)
        → IsTimedReading text r → IsTimedReading text s → r ≡ s }
{}

/// There is a function that reads every text as a squitter with its timestamp.
pub fn some_timed_reader()
    ensures { TimedReader }
{}

/// A squitter is shown as at most one text.
pub fn one_text()
    ensures { (squitter : Squitter) (a b : List ℕ) → IsShown squitter a → IsShown squitter b → a ≡ b }
{}

/// A position has at most one text of two lines.
pub fn one_place_text()
    ensures { (position : Position) (a b : List ℕ) → IsPlaceText position a → IsPlaceText position b → a ≡ b }
{}

/// Compares two errors of frame texts by `==`, which is true exactly if they are the same.
pub fn equal_text_faults(fault: &TextFault, other: &TextFault) -> bool
    ensures { IsTrue result ↔ (fault.now ≡ other.now) }
{
    fault == other
}

/// Compares two errors of lines by `==`, which is true exactly if they are the same.
pub fn equal_line_faults(line_fault: &LineFault, other: &LineFault) -> bool
    ensures { IsTrue result ↔ (line_fault.now ≡ other.now) }
{
    line_fault == other
}

/// There is a function that reads the altitude of every airborne position.
pub fn some_altitude_reader()
    ensures { AltitudeReader }
{}

/// Any two functions that read the altitudes of airborne positions agree.
pub fn one_altitude_reading()
    ensures { (a b : AltitudeReader) (fields : AirFields) → a.read fields ≡ b.read fields }
{}
