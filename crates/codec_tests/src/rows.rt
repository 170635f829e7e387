//! Fractions, angles and positions in the rows of tables.
use sq_angle::{Angle, Position};
use std::str::SplitWhitespace;

// The numerator and the denominator of a fraction.
pub type Fraction = (i64, u64);

// Returns the position of two fractions, or `None` if they are not valid.
pub fn position(lat: Fraction, lon: Fraction) -> Option<Position> {
    let lat = Angle::new(lat.0, lat.1)?;
    let lon = Angle::new(lon.0, lon.1)?;
    Position::new(lat, lon)
}

fn numerator(digits: &str) -> Option<i64> {
    digits.parse::<i64>().ok()
}

fn denominator(digits: &str) -> Option<u64> {
    digits.parse::<u64>().ok()
}

// Parses `num/den` or a whole number.
fn fraction(word: &str) -> Option<Fraction> {
    match word.split_once('/') {
        Some((num, den)) => {
            let num = numerator(num)?;
            let den = denominator(den)?;
            Some((num, den))
        }
        None => {
            let num = numerator(word)?;
            Some((num, 1))
        }
    }
}

pub fn read_fraction(words: &mut SplitWhitespace<'_>) -> Option<Fraction> {
    let word = words.next()?;
    fraction(word)
}

pub fn read_angle(words: &mut SplitWhitespace<'_>) -> Option<Angle> {
    let (num, den) = read_fraction(words)?;
    Angle::new(num, den)
}

pub fn read_position(words: &mut SplitWhitespace<'_>) -> Option<Position> {
    let lat = read_angle(words)?;
    let lon = read_angle(words)?;
    Position::new(lat, lon)
}
