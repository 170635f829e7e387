//! What a command line asks for: one of the commands with its values.

/// The values of the command `encode`: texts of the command line.
#[derive(Clone, Copy, Debug)]
pub struct EncodeWords<'a> {
    /// `--kind`
    pub kind: &'a str,
    /// `--parity`
    pub parity: &'a str,
    /// `--address`
    pub address: &'a str,
    /// `--feet`, where it is given
    pub feet: Option<&'a str>,
    /// `--lat`
    pub lat: &'a str,
    /// `--lon`
    pub lon: &'a str,
}

/// The values of the command `track`: texts of the command line, or `None` if not given.
#[derive(Clone, Copy, Debug)]
pub struct TrackWords<'a> {
    /// `--format`
    pub format: Option<&'a str>,
    /// `--limit`
    pub limit: Option<&'a str>,
    /// `--window`
    pub window: Option<&'a str>,
    /// `--lat`
    pub lat: Option<&'a str>,
    /// `--lon`
    pub lon: Option<&'a str>,
}

/// The values of the command `feed`: texts of the command line, or `None` if not given.
#[derive(Clone, Copy, Debug)]
pub struct FeedWords<'a> {
    /// `--format`
    pub format: Option<&'a str>,
    /// `--reorder`
    pub reorder: Option<&'a str>,
    /// `--leap`
    pub leap: Option<&'a str>,
    /// whether there is `--arrival`
    pub arrival: bool,
    /// whether there is `--all`
    pub all: bool,
}

/// A command that reads no input. Its values are the texts of the command line; an option that was not given is `None`.
#[derive(Clone, Copy, Debug)]
pub enum ReplyRequest<'a> {
    /// `show FRAME`
    Show {
        frame: &'a str,
    },
    /// `encode --kind K --parity P --address A [--feet N] --lat LAT --lon LON`
    Encode(EncodeWords<'a>),
    /// `local FRAME --lat LAT --lon LON`
    Local {
        frame: &'a str,
        lat: &'a str,
        lon: &'a str,
    },
    /// `pair OLDER NEWER [--lat LAT] [--lon LON]`
    Pair {
        older: &'a str,
        newer: &'a str,
        lat: Option<&'a str>,
        lon: Option<&'a str>,
    },
}

/// A command. Its values are the texts of the command line; an option that was not given is `None`.
#[derive(Clone, Copy, Debug)]
pub enum Request<'a> {
    /// a command that reads no input
    Reply(ReplyRequest<'a>),
    /// `check [--format FORMAT]`
    Check { format: Option<&'a str> },
    /// `track [--format FORMAT] [--limit N] [--window MS] [--lat LAT] [--lon LON]`
    Track(TrackWords<'a>),
    /// `feed [--format FORMAT] [--reorder MS] [--leap MS] [--arrival] [--all]`
    Feed(FeedWords<'a>),
}
