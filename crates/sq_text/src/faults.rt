//! Why a line is refused.
ghost use Rattle.std.specs.Prelude.{◌≡◌, ◌+◌, ◌≤◌, ◌++◌, length};
ghost use Rattle.sq_digits.specs.Buffer.{text_len};
ghost use Rattle.sq_text.specs.Faults.{fault_text, fault_label, of_frame, of_text};

use crate::frame_text::TextFault;
use sq_digits::{TextBuffer, push_decimal, push_six_places};
use sq_message::FrameFault;
use thiserror::Error;

/// The first error of a line or of a frame argument.
#[derive(Clone, Copy, Debug, PartialEq, Eq, Error)]
pub enum LineFault {
    /// There are more than 64 bytes before the line feed or the end of input.
    #[error("{text}", text = self.label())]
    LongLine,
    /// There is no space, or the text before the first space is not a timestamp.
    #[error("{text}", text = self.label())]
    Moment,
    /// The text has one of `*` and `;` without the other.
    #[error("{text}", text = self.label())]
    Wrap,
    /// The body of the frame text has 14 bytes.
    #[error("{text}", text = self.label())]
    Short,
    /// The body has this many bytes, neither 28 nor 14.
    #[error("{label}{0}", label = self.label())]
    Length(usize),
    /// This byte of the body, counted from 1, is the first that is not a hexadecimal digit.
    #[error("{label}{0}", label = self.label())]
    Digit(usize),
    /// The downlink format is this number and not 17.
    #[error("{label}{0}", label = self.label())]
    NotDf17(u8),
    /// The CRC remainder is this number and not 0.
    #[error("{label}{0:06X}", label = self.label())]
    Parity(u32),
    /// The timestamp is before this one (ms), the last that was accepted.
    #[error("{label}{0}", label = self.label())]
    MomentBack(u64),
    /// The table of addresses is full.
    #[error("{text}", text = self.label())]
    Full,
}

impl LineFault {
    /// Returns the text of the error before its number, at most 12 bytes.
    pub fn label(self) -> &'static str
        ensures value { result.now ≡ fault_label self }
        ensures short { length result.now ≤ 12 }
    {
        match self {
            LineFault::LongLine => "long line",
            LineFault::Moment => "bad moment",
            LineFault::Wrap => "bad wrapping",
            LineFault::Short => "short frame",
            LineFault::Length(_) => "bad length ",
            LineFault::Digit(_) => "bad digit ",
            LineFault::NotDf17(format) => FrameFault::NotDf17(format).label(),
            LineFault::Parity(remainder) => FrameFault::Parity(remainder).label(),
            LineFault::MomentBack(_) => "moment back ",
            LineFault::Full => "table full",
        }
    }
}

impl From<TextFault> for LineFault {
    ghost from_gives = { λ fault result. result ≡ of_text fault };

    fn from(fault: TextFault) -> LineFault {
        match fault {
            TextFault::Wrap => LineFault::Wrap,
            TextFault::Short => LineFault::Short,
            TextFault::Length(length) => LineFault::Length(length),
            TextFault::Digit(place) => LineFault::Digit(place),
        }
    }
}

impl From<FrameFault> for LineFault {
    ghost from_gives = { λ fault result. result ≡ of_frame fault };

    fn from(fault: FrameFault) -> LineFault {
        match fault {
            FrameFault::NotDf17(format) => LineFault::NotDf17(format),
            FrameFault::Parity(remainder) => LineFault::Parity(remainder),
        }
    }
}

/// Appends the text of an error, at most 32 bytes.
pub fn push_fault<const N: usize>(text: &mut TextBuffer<N>, fault: LineFault)
    requires { text_len text.old + 32 ≤ N }
    ensures bytes { text.new.bytes ≡ text.old.bytes ++ fault_text fault }
    ensures len { text_len text.new ≤ text_len text.old + 32 }
{
    text.push_str(fault.label());
    match fault {
        LineFault::Length(length) => push_decimal(text, length as u64),
        LineFault::Digit(place) => push_decimal(text, place as u64),
        LineFault::NotDf17(format) => push_decimal(text, u64::from(format)),
        LineFault::Parity(remainder) => push_six_places(text, remainder),
        LineFault::MomentBack(moment) => push_decimal(text, moment),
        LineFault::LongLine
        | LineFault::Moment
        | LineFault::Wrap
        | LineFault::Short
        | LineFault::Full => {}
    }
}
