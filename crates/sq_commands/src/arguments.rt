//! The arguments of the commands, read from their words.
ghost use Rattle.std.specs.Prelude.{◌≡◌, ◌≢◌, ◌+◌, ◌≤◌, ◌<◌, ◌^◌, ◌++◌, ◌∷◌, List, ℤ, ℕ, IfErr, IfOk, IfSome, OnErr};
ghost use Rattle.std.specs.Prelude.{length, option_copied, MatchOption, Some};
ghost use Rattle.std.specs.Bool.{OnFalse};
ghost use Rattle.std.specs.Char.{IsAsciiDigit};
ghost use Rattle.std.specs.Int.Digits.{number_from_digits};
ghost use Rattle.sq_angle.specs.Spelling.{minus};
ghost use Rattle.sq_angle.specs.Spelling.{signed as signed_number};
ghost use Rattle.std.specs.List.{AllByRecursion};
ghost use Rattle.std.specs.Str.Parse.{digits_value};
ghost use Rattle.sq_digits.specs.Buffer.{text_len};
ghost use Rattle.sq_angle.specs.Angle.{degrees};
ghost use Rattle.sq_angle.specs.Faults.{angle_fault_text};
ghost use Rattle.sq_angle.specs.Fraction.{IsWithin};
ghost use Rattle.sq_angle.specs.Reading.{IsReading};
ghost use Rattle.sq_zones.specs.declared.parity.Parity.{Parity};
ghost use Rattle.sq_text.specs.Show.{parity_name};
ghost use Rattle.sq_commands.specs.declared.arguments.Kind.{Kind};
ghost use Rattle.sq_commands.specs.Requests.{asked_track};
ghost use Rattle.sq_commands.specs.Check.{IsNoFormat};
ghost use Rattle.sq_commands.specs.declared.formats.Format.{Format};
ghost use Rattle.sq_commands.specs.Encode.{IsAltitudeOf};
ghost use Rattle.sq_commands.specs.Formats.{IsFormatWord};
ghost use Rattle.sq_commands.specs.Faults.{argument_text};
ghost use Rattle.sq_commands.specs.Arguments.{IsAddress, IsAngleFault, IsFeet, IsFeetText, IsFiveDigits};
ghost use Rattle.sq_commands.specs.Arguments.{IsPositionReading, IsSiteReading, kind_name};
ghost use Rattle.sq_commands.specs.Track.{IsLimit, IsTrackReading, IsWindow};

use crate::formats::Format;
use crate::requests::TrackWords;
use sq_angle::{Angle, AngleFault, Position};
use sq_digits::TextBuffer;
use sq_message::{Parity, field_of_feet};
use sq_text::read_decimal;
use sq_track::TrackFault;

/// The kinds of squitter that `encode` writes.
#[derive(Clone, Copy)]
pub(crate) enum Kind {
    Air,
    Ground,
}

/// The options of `track`.
#[derive(Clone, Copy)]
pub(crate) struct TrackOptions {
    pub(crate) format: Format,
    pub(crate) limit: u32,
    pub(crate) window: u64,
    pub(crate) site: Option<Position>,
}

/// An invalid argument of a command, in reading order.
#[derive(Clone, Copy)]
pub(crate) enum ArgumentFault {
    Format,
    Kind,
    Parity,
    Address,
    Feet,
    Limit,
    NoLimit,
    Window,
    Site,
    Lat(AngleFault),
    Lon(AngleFault),
    Reorder,
    Leap,
}

impl ArgumentFault {
    /// Appends the report on the fault, at most 22 bytes.
    pub(crate) fn push<const N: usize>(self, text: &mut TextBuffer<N>)
        requires { text_len text.old + 22 ≤ N }
        ensures bytes { text.new.bytes ≡ text.old.bytes ++ argument_text self }
        ensures len { text_len text.new ≤ text_len text.old + 22 }
    {
        match self {
            ArgumentFault::Format => text.push_str("bad format"),
            ArgumentFault::Kind => text.push_str("bad kind"),
            ArgumentFault::Parity => text.push_str("bad parity"),
            ArgumentFault::Address => text.push_str("bad address"),
            ArgumentFault::Feet => text.push_str("bad feet"),
            ArgumentFault::Limit => text.push_str("bad limit"),
            ArgumentFault::NoLimit => text.push_str(TrackFault::NoLimit.label()),
            ArgumentFault::Window => text.push_str("bad window"),
            ArgumentFault::Site => text.push_str("site needs lat and lon"),
            ArgumentFault::Lat(fault) => push_coordinate(text, "lat ", fault),
            ArgumentFault::Lon(fault) => push_coordinate(text, "lon ", fault),
            ArgumentFault::Reorder => text.push_str("bad reorder"),
            ArgumentFault::Leap => text.push_str("bad leap"),
        }
    }
}

// Appends a coordinate's name of four bytes, and the fault of its angle.
fn push_coordinate<const N: usize>(text: &mut TextBuffer<N>, name: &str, fault: AngleFault)
    requires room { text_len text.old + 22 ≤ N }
    requires short { length name.now ≤ 4 }
    ensures bytes { text.new.bytes ≡ text.old.bytes ++ (name.now ++ angle_fault_text fault) }
    ensures len { text_len text.new ≤ text_len text.old + 22 }
{
    text.push_str(name);
    text.push_str(fault.label());
}

/// Reads a format by its name; lines if no word is given.
pub(crate) fn read_format(word: Option<&str>) -> Result<Format, ArgumentFault>
    ensures ok { IfOk result (IsFormatWord (option_copied word.entry)) }
    ensures err { OnErr result (IsNoFormat (option_copied word.entry)) }
    ensures fault { IfErr result (λ fault. fault ≡ ArgumentFault.Format) }
{
    match word {
        None => Ok(Format::Lines),
        Some(name) => Format::named(name).ok_or(ArgumentFault::Format),
    }
}

/// Reads a kind: `air` or `ground`.
pub(crate) fn read_kind(word: &str) -> Result<Kind, ArgumentFault>
    ensures ok { IfOk result (λ kind. word.now ≡ kind_name kind) }
    ensures err { OnErr result ((kind : Kind) → word.now ≢ kind_name kind) }
    ensures fault { IfErr result (λ fault. fault ≡ ArgumentFault.Kind) }
{
    match word {
        "air" => Ok(Kind::Air),
        "ground" => Ok(Kind::Ground),
        _ => Err(ArgumentFault::Kind),
    }
}

/// Reads a parity: `even` or `odd`.
pub(crate) fn read_parity(word: &str) -> Result<Parity, ArgumentFault>
    ensures ok { IfOk result (λ parity. word.now ≡ parity_name parity) }
    ensures err { OnErr result ((parity : Parity) → word.now ≢ parity_name parity) }
    ensures fault { IfErr result (λ fault. fault ≡ ArgumentFault.Parity) }
{
    match word {
        "even" => Ok(Parity::Even),
        "odd" => Ok(Parity::Odd),
        _ => Err(ArgumentFault::Parity),
    }
}

/// Reads an ICAO address: six hexadecimal digits of either case.
pub(crate) fn read_address(word: &str) -> Result<u32, ArgumentFault>
    ensures ok { IfOk result (IsAddress word.now) }
    ensures small { IfOk result (λ address. address < 2 ^ 24) }
    ensures err { OnErr result ((address : ℕ) → ¬ IsAddress word.now address) }
    ensures fault { IfErr result (λ fault. fault ≡ ArgumentFault.Address) }
{
    let mut bytes = [0; 3];
    match hex::decode_to_slice(word, &mut bytes) {
        Ok(()) => Ok(address_of(&bytes)),
        Err(_) => Err(ArgumentFault::Address),
    }
}

// Returns the number that three bytes encode, the most significant first.
fn address_of(bytes: &[u8]) -> u32
    requires { length bytes.now ≡ 3 }
    ensures value { result ≡ number_from_digits 256 bytes.now }
    ensures small { result < 2 ^ 24 }
{
    let mut address = 0;
    for &byte in bytes {
        address = address * 256 + u32::from(byte);
    }
    address
}

// Reads feet, an optional `-` and one to five digits, and returns their altitude field.
fn read_feet(word: &str) -> Result<u16, ArgumentFault>
    ensures ok { IfOk result (IsFeet word.now) }
    ensures small { IfOk result (λ field. field < 4096) }
    ensures err { OnErr result ((field : ℕ) → ¬ IsFeet word.now field) }
    ensures fault { IfErr result (λ fault. fault ≡ ArgumentFault.Feet) }
{
    match feet_of(word) {
        Some(feet) => match field_of_feet(feet) {
            Some(field) => Ok(field),
            None => Err(ArgumentFault::Feet),
        },
        None => Err(ArgumentFault::Feet),
    }
}

/// Reads an altitude field from feet, for airborne frames alone; 0 if no feet are given.
pub(crate) fn read_altitude(kind: Kind, feet: Option<&str>) -> Result<u16, ArgumentFault>
    ensures ok { IfOk result (IsAltitudeOf kind (option_copied feet.entry)) }
    ensures small { IfOk result (λ altitude. altitude < 4096) }
    ensures err { OnErr result ((altitude : ℕ) → ¬ IsAltitudeOf kind (option_copied feet.entry) altitude) }
    ensures fault { IfErr result (λ fault. fault ≡ ArgumentFault.Feet) }
{
    match (kind, feet) {
        (_, None) => Ok(0),
        (Kind::Air, Some(word)) => read_feet(word),
        (Kind::Ground, Some(_)) => Err(ArgumentFault::Feet),
    }
}

// Reads a number of feet.
fn feet_of(word: &str) -> Option<i32>
    ensures { MatchOption result ((feet : ℤ) → ¬ IsFeetText word.now feet) (IsFeetText word.now) }
{
    let (negative, digits) = without_minus(word);
    match number_of(digits) {
        Some(number) => Some(signed(negative, number)),
        None => None,
    }
}

// Splits off a leading `-`. Returns whether there was one, and the rest.
fn without_minus(word: &str) -> (bool, &str)
    ensures parts { word.now ≡ minus result.0 ++ result.1.now }
    ensures other { OnFalse result.0 ((rest : List ℕ) → ¬ (word.now ≡ 45 ∷ rest)) }
{
    match word.strip_prefix('-') {
        Some(rest) => (true, rest),
        None => (false, word),
    }
}

// Reads one to five digits.
fn number_of(digits: &str) -> Option<u64>
    ensures number { MatchOption result ((n : ℕ) → ¬ IsFiveDigits digits.now n) (IsFiveDigits digits.now) }
    ensures small { IfSome result (λ n. n < 10 ^ 5) }
{
    match read_decimal(digits.as_bytes()) {
        Some(number) if digits.len() <= 5 => Some(number),
        _ => None,
    }
}

// Returns the number with its sign.
fn signed(negative: bool, magnitude: u64) -> i32
    requires { magnitude < 10 ^ 5 }
    ensures { result ≡ signed_number negative magnitude }
{
    let number = magnitude as i32;
    if negative { -number } else { number }
}

/// Reads a latitude and a longitude in degrees.
pub(crate) fn read_position(lat: &str, lon: &str) -> Result<Position, ArgumentFault>
    ensures { IsPositionReading lat.now lon.now result }
{
    let latitude = match read_angle(lat, 90) {
        Ok(angle) => angle,
        Err(fault) => return Err(ArgumentFault::Lat(fault)),
    };
    let longitude = match read_angle(lon, 180) {
        Ok(angle) => angle,
        Err(fault) => return Err(ArgumentFault::Lon(fault)),
    };
    Ok(Position::new(latitude, longitude).unwrap())
}

// Reads an angle of at most `limit` degrees.
fn read_angle(word: &str, limit: u16) -> Result<Angle, AngleFault>
    ensures ok { IfOk result (λ angle. IsReading word.now (Ok angle)) }
    ensures within { IfOk result (λ angle. IsWithin limit (degrees angle)) }
    ensures fault { IfErr result (IsAngleFault limit word.now) }
{
    let angle = Angle::read(word)?;
    if !angle.is_within(limit) {
        return Err(AngleFault::OutOfRange);
    }
    Ok(angle)
}

/// Reads a receiver position: both words or neither.
pub(crate) fn read_site(
    lat: Option<&str>,
    lon: Option<&str>,
) -> Result<Option<Position>, ArgumentFault>
    ensures { IsSiteReading (option_copied lat.entry) (option_copied lon.entry) result }
{
    match (lat, lon) {
        (Some(lat), Some(lon)) => match read_position(lat, lon) {
            Ok(position) => Ok(Some(position)),
            Err(fault) => Err(fault),
        },
        (None, None) => Ok(None),
        _ => Err(ArgumentFault::Site),
    }
}

/// Reads the options of `track`. Defaults: a limit of 1000 addresses, a window of 10000 milliseconds.
pub(crate) fn read_options(words: &TrackWords<'_>) -> Result<TrackOptions, ArgumentFault>
    ensures { IsTrackReading (asked_track words.now) result }
{
    let format = read_format(words.format)?;
    let limit = read_limit(words.limit)?;
    if limit == 0 {
        return Err(ArgumentFault::NoLimit);
    }
    let window = read_window(words.window)?;
    let site = read_site(words.lat, words.lon)?;
    Ok(TrackOptions {
        format,
        limit,
        window,
        site,
    })
}

// Reads one to ten digits of a number below 2^32.
fn read_limit(word: Option<&str>) -> Result<u32, ArgumentFault>
    ensures ok { IfOk result (IsLimit (option_copied word.entry)) }
    ensures err { OnErr result ((n : ℕ) → ¬ IsLimit (option_copied word.entry) n) }
    ensures fault { IfErr result (λ fault. fault ≡ ArgumentFault.Limit) }
{
    match word {
        None => Ok(1000),
        Some(word) => match limit_of(word) {
            Some(limit) => Ok(limit),
            None => Err(ArgumentFault::Limit),
        },
    }
}

fn limit_of(word: &str) -> Option<u32>
    ensures { MatchOption result ((n : ℕ) → ¬ IsLimit (Some word.now) n) (IsLimit (Some word.now)) }
{
    match read_decimal(word.as_bytes()) {
        Some(number) if number <= 0xFFFF_FFFF && word.len() <= 10 => Some(number as u32),
        _ => None,
    }
}

// Reads one to twenty digits of a number below 2^64.
fn read_window(word: Option<&str>) -> Result<u64, ArgumentFault>
    ensures ok { IfOk result (IsWindow (option_copied word.entry)) }
    ensures err { OnErr result ((n : ℕ) → ¬ IsWindow (option_copied word.entry) n) }
    ensures fault { IfErr result (λ fault. fault ≡ ArgumentFault.Window) }
{
    match word {
        None => Ok(10_000),
        Some(word) => match read_decimal(word.as_bytes()) {
            Some(window) => Ok(window),
            None => Err(ArgumentFault::Window),
        },
    }
}
