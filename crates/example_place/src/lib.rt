//! An example of a program that calls the library: from the text of a frame to the place of the aircraft.
//!
//! [`place_near`] reads a text as a receiver prints it and decodes it near a reference. [`place_of_texts`] decodes
//! two texts as a pair and returns the place of the newer one. Their contracts combine those of the calls in their
//! bodies. [`place_near`] adds the fact that a user needs: the text of a frame sent from near the reference gives
//! exactly the point to which the sent position rounds.
#![tactic(auto)]

ghost use Rattle.std.specs.Prelude.{option_copied};
ghost use Rattle.sq_text.specs.Reading.{IsSquitterReading};
ghost use Rattle.example_place.specs.Places.{IsPairOfTexts, IsPlaceOfText, IsTrueInAir, IsTrueOnGround};

mod fault;
pub mod laws;
#[cfg(test)]
mod tests;

pub use fault::Fault;
pub use sq_angle::Position;
pub use sq_message::Place;
use sq_message::laws::headline;
use sq_message::{Squitter, place_local, place_pair};
use sq_text::pins::one_squitter_reading;
use sq_text::{LineFault, read_squitter};

/// Reads a frame text and decodes its squitter near a reference. Returns the place, or the first error: of the text,
/// or of decoding it.
///
/// For a frame sent from a position, the place is the point to which the position rounds, if the reference is
/// strictly near that point. Strictly near is strictly within half a zone in both coordinates. Does not allocate.
pub fn place_near(text: &str, reference: &Position) -> Result<Place, Fault>
    ensures answer { IsPlaceOfText text.now reference.now result }
    ensures true_in_air { IsTrueInAir text.now reference.now result }
    ensures true_on_ground { IsTrueOnGround text.now reference.now result }
{
    headline();
    one_squitter_reading();
    decoded_near(text, reference)
}

// Parses a text as a squitter.
fn squitter_of(text: &str) -> Result<Squitter, LineFault>
    ensures { IsSquitterReading text.now result }
{
    read_squitter(text.as_bytes())
}

// Parses a text as a squitter and decodes it near a reference.
fn decoded_near(text: &str, reference: &Position) -> Result<Place, Fault>
    ensures { IsPlaceOfText text.now reference.now result }
{
    let squitter = squitter_of(text)?;
    Ok(place_local(&squitter, reference)?)
}

/// Reads an even and an odd frame text of one aircraft, decodes them as a pair, and returns the place of the newer
/// one. On the ground it needs a site, within 45 degrees. Returns the first error: of the older text, of the newer
/// one, and then of the pair. Does not allocate.
pub fn place_of_texts(older: &str, newer: &str, site: Option<&Position>) -> Result<Place, Fault>
    ensures { IsPairOfTexts older.now newer.now (option_copied site.entry) result }
{
    let older = squitter_of(older)?;
    let newer = squitter_of(newer)?;
    Ok(place_pair(&older, &newer, site)?)
}
