//! The faults that calls return: code 0 for success, otherwise the code of the first error.
ghost use Rattle.std.specs.Prelude.{◌≡◌};
ghost use Rattle.squitter_c.specs.Faults.{fault_of, fault_of_angle, fault_of_line, fault_of_place, told};

use sq_angle::AngleFault;
use sq_message::PlaceFault;
use sq_text::LineFault;

/// The error that a call returns, or code 0. `squitter.h` names the codes, and says what `first` and `second` hold.
#[repr(C)]
#[derive(Clone, Copy)]
pub struct Fault {
    pub code: u32,
    pub second: u32,
    pub first: u64,
}

/// The reason why a call fails.
#[derive(Clone, Copy)]
pub enum Reason {
    /// A text, a frame or a line is invalid, a timestamp goes back, or the table is full.
    Line(LineFault),
    /// A frame or a pair cannot be decoded.
    Place(PlaceFault),
    /// A text is not a valid angle.
    Angle(AngleFault),
    /// The fractions of a reference, a site or a position are not a valid position.
    NoPosition,
    /// A field of a head, its parity, or an altitude field is out of range.
    NoHead,
    /// The fraction is not a valid angle.
    NoAngle,
    /// The fraction is not a valid latitude.
    NoLatitude,
    /// No altitude field encodes these feet.
    NoFeet,
    /// The parity is neither 0 nor 1.
    NoParity,
    /// An allocation failed.
    Memory,
    /// The limit of a tracker is 0.
    NoLimit,
    /// There is no tracker, log, feed or order.
    NoTracker,
    /// The log has 2^63 lines, or the piece more than 2^61 bytes.
    LongLog,
    /// No format has this number.
    NoFormat,
    /// No tracker can hold the entry at this index after those before it.
    Entry(u64),
}

/// No fault: code 0.
pub const NONE: Fault = Fault {
    code: 0,
    second: 0,
    first: 0,
};

impl Fault {
    /// Returns the code of a reason and its numbers, or 0 for those that it lacks.
    pub fn of(reason: Reason) -> Fault
        ensures { result ≡ fault_of reason }
    {
        match reason {
            Reason::Line(fault) => of_line(fault),
            Reason::Place(fault) => of_place(fault),
            Reason::Angle(fault) => of_angle(fault),
            Reason::NoPosition => plain(20),
            Reason::NoHead => plain(21),
            Reason::NoAngle => plain(22),
            Reason::NoLatitude => plain(23),
            Reason::NoFeet => plain(24),
            Reason::NoParity => plain(25),
            Reason::Memory => plain(44),
            Reason::NoLimit => plain(45),
            Reason::NoTracker => plain(46),
            Reason::LongLog => plain(48),
            Reason::NoFormat => plain(49),
            Reason::Entry(index) => told(50, index, 0),
        }
    }
}

fn of_line(fault: LineFault) -> Fault
    ensures { result ≡ fault_of_line fault }
{
    match fault {
        LineFault::Wrap => plain(1),
        LineFault::Short => plain(2),
        LineFault::Length(length) => told(3, length as u64, 0),
        LineFault::Digit(place) => told(4, place as u64, 0),
        LineFault::NotDf17(format) => told(5, u64::from(format), 0),
        LineFault::Parity(remainder) => told(6, u64::from(remainder), 0),
        LineFault::LongLine => plain(40),
        LineFault::Moment => plain(41),
        LineFault::MomentBack(moment) => told(42, moment, 0),
        LineFault::Full => plain(43),
    }
}

fn of_place(fault: PlaceFault) -> Fault
    ensures { result ≡ fault_of_place fault }
{
    match fault {
        PlaceFault::NotPosition => plain(10),
        PlaceFault::OtherAddress => plain(11),
        PlaceFault::OtherKind => plain(12),
        PlaceFault::SameParity => plain(13),
        PlaceFault::NoSite => plain(14),
        PlaceFault::OutOfRange => plain(15),
        PlaceFault::ZoneCounts(even, odd) => told(16, u64::from(even), u32::from(odd)),
    }
}

fn of_angle(fault: AngleFault) -> Fault
    ensures { result ≡ fault_of_angle fault }
{
    match fault {
        AngleFault::NotANumber => plain(30),
        AngleFault::TooManyDecimals => plain(31),
        AngleFault::OutOfRange => plain(32),
    }
}

// Returns a code without numbers.
fn plain(code: u32) -> Fault
    ensures { result ≡ told code 0 0 }
{
    told(code, 0, 0)
}

// Returns a code with its numbers.
fn told(code: u32, first: u64, second: u32) -> Fault
    ensures { result ≡ told code first second }
{
    Fault {
        code,
        second,
        first,
    }
}
