//! Why codes cannot be decoded.
ghost use Rattle.std.specs.Prelude.{◌≡◌, ◌≤◌, length};
ghost use Rattle.sq_cpr.specs.Faults.{local_fault_text, pair_fault_label};

use thiserror::Error;

/// Why a code cannot be decoded near a reference.
#[derive(Clone, Copy, Debug, PartialEq, Eq, Error)]
#[error("{text}", text = self.label())]
pub enum LocalFault {
    /// The latitude near the reference lies outside -90 to 90 degrees.
    OutOfRange,
}

impl LocalFault {
    /// Returns the text of the error, at most 21 bytes. It has no number.
    pub fn label(self) -> &'static str
        ensures value { result.now ≡ local_fault_text self }
        ensures short { length result.now ≤ 21 }
    {
        match self {
            LocalFault::OutOfRange => "latitude out of range",
        }
    }
}

/// Why an even and an odd code cannot be decoded as a pair: the first of these that applies.
#[derive(Clone, Copy, Debug, PartialEq, Eq, Error)]
pub enum PairFault {
    /// One of the two close latitudes lies outside -90 to 90 degrees.
    #[error("{text}", text = self.label())]
    OutOfRange,
    /// The zone counts (NL) differ: the count of the even latitude, then that of the odd one.
    #[error("{label}{0} {1}", label = self.label())]
    ZoneCounts(u8, u8),
}

impl PairFault {
    /// Returns the text of the error before its numbers, at most 21 bytes.
    pub fn label(self) -> &'static str
        ensures value { result.now ≡ pair_fault_label self }
        ensures short { length result.now ≤ 21 }
    {
        match self {
            PairFault::OutOfRange => LocalFault::OutOfRange.label(),
            PairFault::ZoneCounts(_, _) => "zone counts ",
        }
    }
}
