//! The command line: for each command, its help, its arguments and options as calls of clap, and the request for its
//! values. clap puts the usage and the list of options between the texts of a command.
ghost use Rattle.std.specs.Prelude.{◌≡◌, IfNone, IfOk, IfSome, codes, false, map, option_copied};
ghost use Rattle.clap.specs.Words.{app_of, first_of, found_of, new_app, new_rule, rows_of, rule_of};
ghost use Rattle.clap.specs.declared.builder.Command.TheViews.{out-Command as fields_of};
ghost use Rattle.sq_commands.specs.Requests.{Asked, asked_by};
ghost use Rattle.sq_words.specs.CommandLine.{check as check_line, encode, encode_head as encode_first, feed};
ghost use Rattle.sq_words.specs.CommandLine.{frame_commands as frame_program, line_commands as line_program, local};
ghost use Rattle.sq_words.specs.CommandLine.{flag as flag_rule, is_given as is_given_as, option as option_rule, pair};
ghost use Rattle.sq_words.specs.CommandLine.{only as only_one, program as no_commands, required, show, squitter, track};
ghost use Rattle.sq_words.specs.Requests.{IsAsked, ReadsAlike};

use clap::{Arg, ArgAction, ArgMatches, Command};
use sq_commands::{EncodeWords, FeedWords, ReplyRequest, Request, TrackWords};
use std::alloc::{AllocError, Global};

/// Returns a command line that reads these words as the whole program reads them. If the word after the program's name
/// names a command, it has that command alone, so that a run does not pay for the others.
pub(crate) fn command_line_of<'a>(alloc: Global, words: &[&str]) -> Result<Command<'a>, AllocError>
    ensures { IfOk result (λ c. ReadsAlike (app_of c) (map (λ word. word.now) words.entry.now)) }
{
    let Some(name) = words.get(1) else {
        return squitter_command(alloc);
    };
    match *name {
        "show" => only(alloc, show_command(alloc)?),
        "encode" => only(alloc, encode_command(alloc)?),
        "local" => only(alloc, local_command(alloc)?),
        "pair" => only(alloc, pair_command(alloc)?),
        "check" => only(alloc, check_command(alloc)?),
        "track" => only(alloc, track_command(alloc)?),
        "feed" => only(alloc, feed_command(alloc)?),
        _ => squitter_command(alloc),
    }
}

// Returns the program with one command.
fn only<'a>(alloc: Global, command: Command<'a>) -> Result<Command<'a>, AllocError>
    requires own { (fields_of command).has_globals ≡ false }
    ensures { IfOk result (λ c. app_of c ≡ only_one (app_of command.entry)) }
{
    program(alloc).subcommand(command)
}

// Returns the command line of the whole program.
fn squitter_command<'a>(alloc: Global) -> Result<Command<'a>, AllocError>
    ensures { IfOk result (λ c. app_of c ≡ squitter) }
{
    line_commands(alloc)?
        .subcommand(track_command(alloc)?)?
        .subcommand(feed_command(alloc)?)
}

// Returns the program with its commands on one or two frames, and on lines of frames.
fn line_commands<'a>(alloc: Global) -> Result<Command<'a>, AllocError>
    ensures { IfOk result (λ c. app_of c ≡ line_program) }
{
    frame_commands(alloc)?
        .subcommand(pair_command(alloc)?)?
        .subcommand(check_command(alloc)?)
}

// Returns the program with its commands on one frame.
fn frame_commands<'a>(alloc: Global) -> Result<Command<'a>, AllocError>
    ensures { IfOk result (λ c. app_of c ≡ frame_program) }
{
    program(alloc)
        .subcommand(show_command(alloc)?)?
        .subcommand(encode_command(alloc)?)?
        .subcommand(local_command(alloc)?)
}

/// Returns the request that the values of the command with this name ask for.
pub(crate) fn request_of<'a>(name: &'a str, values: &ArgMatches<'a>) -> Option<Request<'a>>
    ensures some { IfSome result (λ request. IsAsked name.entry.now (rows_of (found_of values.now))
        (asked_by request)) }
    ensures none { IfNone result ((asked : Asked) → ¬ IsAsked name.entry.now (rows_of (found_of values.now)) asked) }
{
    match name {
        "show" => show_request(values),
        "encode" => encode_request(values),
        "local" => local_request(values),
        "pair" => pair_request(values),
        "check" => Some(check_request(values)),
        "track" => Some(track_request(values)),
        "feed" => Some(feed_request(values)),
        _ => None,
    }
}

const SQUITTER: CommandHelp = CommandHelp {
    about: "Decodes and encodes ADS-B position messages (DF17, 112 bits) in exact fractions of a degree",
    usage: "squitter <show|encode|local|pair|check|track|feed> ..",
    after: "A frame is 28 hexadecimal digits, bare or between '*' and ';'.
Angles are in degrees, with up to 12 decimals; south and west need the equals sign: --lat=-33.9.
'check', 'track' and 'feed' read standard input; they take no file name.

Exit status: 0 success; 1 a line, a frame or a position was refused; 2 a bad command line, or help;
3 a read, a write or an allocation failed. Errors and help go to standard error.

Examples:
  squitter show 8D40621D58C382D690C8AC2863A7
  squitter check < frames.txt
  squitter track --lat=52.31 --lon=4.76 < flights.log
  nc localhost 30005 | squitter feed | squitter track
  squitter track --help",
};

// The text after the program's name that `--version` prints.
const VERSION: &str = "0.1.0";

// Returns the program before any command is added. It requires a command.
fn program<'a>(alloc: Global) -> Command<'a>
    ensures app { app_of result ≡ no_commands }
    ensures own { (fields_of result).has_globals ≡ false }
{
    command(alloc, "squitter", SQUITTER)
        .version(VERSION)
        .subcommand_required(true)
}

const SHOW: CommandHelp = CommandHelp {
    about: "Shows the fields of one frame, one on each line",
    usage: "squitter show <FRAME>",
    after: "'lat' and 'lon' are the encoded position: two numbers from 0 to 131071, not degrees. 'local' and
'pair' decode them. A field without a unit is shown as the frame has it.

Example:
  squitter show 8D40621D58C382D690C8AC2863A7",
};

fn show_command<'a>(alloc: Global) -> Result<Command<'a>, AllocError>
    ensures app { IfOk result (λ c. app_of c ≡ show) }
    ensures own { IfOk result (λ c. (fields_of c).has_globals ≡ false) }
{
    command(alloc, "show", SHOW).arg(argument(alloc, "FRAME", FRAME))
}

fn show_request<'a>(values: &ArgMatches<'a>) -> Option<Request<'a>>
    ensures some { IfSome result (λ request. IsAsked (codes "show") (rows_of (found_of values.now))
        (asked_by request)) }
    ensures none { IfNone result ((asked : Asked) → ¬ IsAsked (codes "show") (rows_of (found_of values.now)) asked) }
{
    let frame = value_of(values, "FRAME")?;
    Some(Request::Reply(ReplyRequest::Show { frame }))
}

const ENCODE: CommandHelp = CommandHelp {
    about: "Encodes a position as a frame, rounded as the standard's encoder rounds it",
    usage: "squitter encode --kind=<air|ground> --parity=<even|odd> --address=<HEX6> [--feet=<N>]
                       --lat=<DEGREES> --lon=<DEGREES>
       south and west need the equals sign: --lat=-33.9 --lon=-0.45",
    after: "All other fields are 0, with type code 11 and capability 5 in the air, 7 and 4 on the ground.
'bad feet' means that --feet is not a multiple of 25 from -1000 to 50175, or that the kind is ground.

Examples:
  squitter encode --kind=air --parity=even --address=40621D --feet=38000 --lat=52.2572021 --lon=3.9193726
  squitter encode --kind=ground --parity=odd --address=484175 --lat=-33.9693 --lon=18.5972",
};

fn encode_command<'a>(alloc: Global) -> Result<Command<'a>, AllocError>
    ensures app { IfOk result (λ c. app_of c ≡ encode) }
    ensures own { IfOk result (λ c. (fields_of c).has_globals ≡ false) }
{
    encode_head(alloc)?
        .arg(option(alloc, "feet", "N", FEET))?
        .arg(required_option(alloc, "lat", "DEGREES", LAT))?
        .arg(required_option(alloc, "lon", "DEGREES", LON))
}

// Returns `encode` with its options up to the address.
fn encode_head<'a>(alloc: Global) -> Result<Command<'a>, AllocError>
    ensures app { IfOk result (λ c. app_of c ≡ encode_first) }
    ensures own { IfOk result (λ c. (fields_of c).has_globals ≡ false) }
{
    command(alloc, "encode", ENCODE)
        .arg(required_option(alloc, "kind", "air|ground", KIND))?
        .arg(required_option(alloc, "parity", "even|odd", PARITY))?
        .arg(required_option(alloc, "address", "HEX6", ADDRESS))
}

fn encode_request<'a>(values: &ArgMatches<'a>) -> Option<Request<'a>>
    ensures some { IfSome result (λ request. IsAsked (codes "encode") (rows_of (found_of values.now))
        (asked_by request)) }
    ensures none { IfNone result ((asked : Asked) → ¬ IsAsked (codes "encode") (rows_of (found_of values.now)) asked) }
{
    let words = EncodeWords {
        kind: value_of(values, "kind")?,
        parity: value_of(values, "parity")?,
        address: value_of(values, "address")?,
        feet: value_of(values, "feet"),
        lat: value_of(values, "lat")?,
        lon: value_of(values, "lon")?,
    };
    Some(Request::Reply(ReplyRequest::Encode(words)))
}

const LOCAL: CommandHelp = CommandHelp {
    about: "Decodes the position of one frame near a reference position",
    usage: "squitter local <FRAME> --lat=<DEGREES> --lon=<DEGREES>
       south and west need the equals sign: --lat=-33.9 --lon=-0.45",
    after: "Prints latitude and longitude with seven decimals, and again as exact fractions of a degree. The
reference must be less than half a zone from the aircraft, in latitude and in longitude. Half a zone
is 3 degrees of latitude in the air, and 0.75 on the ground.

Example:
  squitter local 8D40621D58C382D690C8AC2863A7 --lat=52.258 --lon=3.918",
};

fn local_command<'a>(alloc: Global) -> Result<Command<'a>, AllocError>
    ensures app { IfOk result (λ c. app_of c ≡ local) }
    ensures own { IfOk result (λ c. (fields_of c).has_globals ≡ false) }
{
    command(alloc, "local", LOCAL)
        .arg(argument(alloc, "FRAME", FRAME))?
        .arg(required_option(alloc, "lat", "DEGREES", NEAR_LAT))?
        .arg(required_option(alloc, "lon", "DEGREES", NEAR_LON))
}

fn local_request<'a>(values: &ArgMatches<'a>) -> Option<Request<'a>>
    ensures some { IfSome result (λ request. IsAsked (codes "local") (rows_of (found_of values.now))
        (asked_by request)) }
    ensures none { IfNone result ((asked : Asked) → ¬ IsAsked (codes "local") (rows_of (found_of values.now)) asked) }
{
    Some(Request::Reply(ReplyRequest::Local {
        frame: value_of(values, "FRAME")?,
        lat: value_of(values, "lat")?,
        lon: value_of(values, "lon")?,
    }))
}

const PAIR: CommandHelp = CommandHelp {
    about: "Decodes the position of the newer of two frames, one even and one odd",
    usage: "squitter pair <OLDER> <NEWER> [--lat=<DEGREES> --lon=<DEGREES>]
       south and west need the equals sign: --lat=-33.9 --lon=-0.45",
    after: "Prints latitude and longitude with seven decimals, and again as exact fractions of a degree.

Examples:
  squitter pair 8D40621D58C382D690C8AC2863A7 8D40621D58C386435CC412692AD6
  squitter pair 8C4841753AAB238733C8CD4020B1 8C4841753A8A35323FAEBDAC702D --lat=51.99 --lon=4.375",
};

fn pair_command<'a>(alloc: Global) -> Result<Command<'a>, AllocError>
    ensures app { IfOk result (λ c. app_of c ≡ pair) }
    ensures own { IfOk result (λ c. (fields_of c).has_globals ≡ false) }
{
    command(alloc, "pair", PAIR)
        .arg(argument(alloc, "OLDER", OLDER))?
        .arg(argument(alloc, "NEWER", NEWER))?
        .arg(option(alloc, "lat", "DEGREES", SITE_LAT))?
        .arg(option(alloc, "lon", "DEGREES", SITE_LON))
}

fn pair_request<'a>(values: &ArgMatches<'a>) -> Option<Request<'a>>
    ensures some { IfSome result (λ request. IsAsked (codes "pair") (rows_of (found_of values.now))
        (asked_by request)) }
    ensures none { IfNone result ((asked : Asked) → ¬ IsAsked (codes "pair") (rows_of (found_of values.now)) asked) }
{
    Some(Request::Reply(ReplyRequest::Pair {
        older: value_of(values, "OLDER")?,
        newer: value_of(values, "NEWER")?,
        lat: value_of(values, "lat"),
        lon: value_of(values, "lon"),
    }))
}

const CHECK: CommandHelp = CommandHelp {
    about: "Reads frames from standard input, one on each line, and prints each frame's fields or its error",
    usage: "squitter check [--format=<lines|csv|json>] < FRAMES
       it waits for standard input; lines with a time are for 'squitter track'",
    after: "Prints the number of each line, and then 'ok' with the address, the kind, the parity and the encoded
position, or the error:
  long line       more than 64 bytes; for a receiver's bytes, such as Beast, see 'squitter feed'
  bad wrapping    there is '*' without ';', or ';' without '*'
  short frame     14 digits: a message of 56 bits, which carries no position
  bad length N    the frame has N characters, not 28; lines with a time are for 'squitter track'
  bad digit N     character N is no hexadecimal digit
  not DF17 N      a message of downlink format N; only format 17 carries these positions
  parity HEX6     the checksum is wrong: the frame was damaged on its way
CSV and JSON have every field; 'squitter show' explains them. Each line is answered before the next
is read. If the output is closed, as 'head' does, 'write failed' is reported and the status is 3.

Examples:
  squitter check < frames.txt
  squitter check --format=json < frames.txt
  rtl_adsb | squitter check",
};

fn check_command<'a>(alloc: Global) -> Result<Command<'a>, AllocError>
    ensures app { IfOk result (λ c. app_of c ≡ check_line) }
    ensures own { IfOk result (λ c. (fields_of c).has_globals ≡ false) }
{
    command(alloc, "check", CHECK).arg(option(alloc, "format", "FORMAT", FORMAT))
}

fn check_request<'a>(values: &ArgMatches<'a>) -> Request<'a>
    ensures { IsAsked (codes "check") (rows_of (found_of values.now)) (asked_by result) }
{
    Request::Check {
        format: value_of(values, "format"),
    }
}

const TRACK: CommandHelp = CommandHelp {
    about: "Reads a log from standard input, 'MILLISECONDS FRAME' on each line, and prints each position",
    usage: "squitter track [--format=<lines|csv|json>] [--limit=<N>] [--window=<MS>]
                      [--lat=<DEGREES> --lon=<DEGREES>] < LOG
       it waits for standard input; 'squitter-feed' adds times to frames without them
       south and west need the equals sign: --lat=-33.9 --lon=-0.45",
    after: "Prints the number of each line, and then the position in degrees, or why there is none:
  fix             decoded from an even and an odd frame
  followed        decoded near the last fix, as there was no such pair
  waiting         no frame of the other parity within the window, and no fix to follow
  split, far      the even and the odd frame give no position
  no site         an aircraft on the ground; give your receiver's position by --lat and --lon
  no position     a message of another kind
  long line       more than 64 bytes; 'squitter feed' makes a log of a receiver's bytes (Beast, AVR)
  bad moment      the line has no time; 'squitter-feed' adds one
  moment back N   the time is before N, that of an earlier line
  table full      more aircraft than --limit within the window; raise --limit
and the errors of frames that 'squitter check --help' explains. CSV and JSON have line, moment (ms),
answer, address, kind, lat, lon and feet. If the output is closed, as 'head' does, 'write failed' is
reported and the status is 3.

Examples:
  squitter track --lat=52.31 --lon=4.76 < flights.log
  squitter track --format=csv < flights.log > flights.csv
  squitter track --window=20000 --limit=5000 < flights.log",
};

fn track_command<'a>(alloc: Global) -> Result<Command<'a>, AllocError>
    ensures app { IfOk result (λ c. app_of c ≡ track) }
    ensures own { IfOk result (λ c. (fields_of c).has_globals ≡ false) }
{
    command(alloc, "track", TRACK)
        .arg(option(alloc, "format", "FORMAT", FORMAT))?
        .arg(option(alloc, "limit", "N", LIMIT))?
        .arg(option(alloc, "window", "MS", WINDOW))?
        .arg(option(alloc, "lat", "DEGREES", SITE_LAT))?
        .arg(option(alloc, "lon", "DEGREES", SITE_LON))
}

fn track_request<'a>(values: &ArgMatches<'a>) -> Request<'a>
    ensures { IsAsked (codes "track") (rows_of (found_of values.now)) (asked_by result) }
{
    Request::Track(TrackWords {
        format: value_of(values, "format"),
        limit: value_of(values, "limit"),
        window: value_of(values, "window"),
        lat: value_of(values, "lat"),
        lon: value_of(values, "lon"),
    })
}

const FEED: CommandHelp = CommandHelp {
    about: "Reads a receiver's bytes from standard input, and prints a log for 'squitter track'",
    usage: "squitter feed [--format=<auto|beast|avr|csv|log>] [--reorder=<MS>] [--leap=<MS>] [--arrival]
                     [--all] < BYTES
       it waits for standard input; 'nc' or 'squitter-feed' reads a receiver's port",
    after: "Prints 'MILLISECONDS FRAME' for each extended squitter (DF17). The time comes from the receiver's
clock (Beast, AVR with a clock), from the row or line (CSV, log), or on a pipe from the arrival.
The input is one of these; without --format, its first bytes show which one:
  beast   binary messages, as from port 30005 of a dump1090
  avr     frames as '*8D..;', as from its port 30002, bare, or with a clock after '@' or '<'
  csv     rows of time (s), icao24, rawmsg; a first row may name the columns in another order
  log     lines that 'squitter track' reads
If its bytes show none of them, as those of SBS text or a compressed file, an error says what it is,
and the status is 1. Otherwise standard error has the counts of frames at the end, without those of 0;
the status is 1 if all of the input is damaged:
  N written                    lines that were printed
  N of other downlink formats  messages of other formats than DF17, and how many there are of each
  N of Mode A/C                replies to Mode A and Mode C
  N multilaterated             frames with a position that a server computed
  N receiver ids               ids that readsb sends before its messages
  N set aside                  frames with a time that jumps
  N damaged                    bytes that are no message, or messages of a wrong length
  N jumps back                 how often times went back, so that timestamps are moved on
If the output is closed, as 'head' does, 'write failed' is reported and the status is 3.

Examples:
  nc localhost 30005 | squitter feed | squitter track
  squitter feed < states.csv > states.log
  squitter feed --reorder=2000 < merged.txt | squitter track",
};

fn feed_command<'a>(alloc: Global) -> Result<Command<'a>, AllocError>
    ensures app { IfOk result (λ c. app_of c ≡ feed) }
    ensures own { IfOk result (λ c. (fields_of c).has_globals ≡ false) }
{
    command(alloc, "feed", FEED)
        .arg(option(alloc, "format", "FORMAT", SOURCE))?
        .arg(option(alloc, "reorder", "MS", REORDER))?
        .arg(option(alloc, "leap", "MS", LEAP))?
        .arg(flag(alloc, "arrival", ARRIVAL))?
        .arg(flag(alloc, "all", ALL))
}

fn feed_request<'a>(values: &ArgMatches<'a>) -> Request<'a>
    ensures { IsAsked (codes "feed") (rows_of (found_of values.now)) (asked_by result) }
{
    Request::Feed(FeedWords {
        format: value_of(values, "format"),
        reorder: value_of(values, "reorder"),
        leap: value_of(values, "leap"),
        arrival: is_given(value_of(values, "arrival")),
        all: is_given(value_of(values, "all")),
    })
}

// Returns the value that clap has for an argument or an option, if there is one.
fn value_of<'a>(values: &ArgMatches<'a>, name: &str) -> Option<&'a str>
    ensures { first_of name.now (rows_of (found_of values.now)) ≡ option_copied result }
{
    values.get_str(name)
}

// Returns whether this value of clap means that the flag is given.
fn is_given(value: Option<&str>) -> bool
    ensures { result ≡ is_given_as (option_copied value.entry) }
{
    match value {
        Some("true") => true,
        _ => false,
    }
}

// The help of arguments and options; commands share some of these texts.
const FRAME: &str = "28 hexadecimal digits, bare or between '*' and ';'";

const OLDER: &str = "The frame received first: 28 hexadecimal digits, bare or between '*' and ';'";

const NEWER: &str = "The frame received last, of the same aircraft and the other parity";

const KIND: &str = "In the air or on the ground";

const PARITY: &str = "The format (F bit): an aircraft sends even and odd frames in turn";

const ADDRESS: &str = "The ICAO address, six hexadecimal digits, as 40621D";

const FEET: &str = "The altitude in feet, in the air only: a multiple of 25 from -1000
to 50175, as --feet=-25. Without it the frame has no altitude";

const LAT: &str = "The latitude in degrees, from -90 to 90; south as --lat=-33.9";

const LON: &str = "The longitude in degrees, from -180 to 180; west as --lon=-0.45";

const NEAR_LAT: &str = "The reference's latitude in degrees, from -90 to 90; south as --lat=-33.9";

const NEAR_LON: &str =
    "The reference's longitude in degrees, from -180 to 180; west as --lon=-0.45";

const SITE_LAT: &str = "The receiver's latitude in degrees, from -90 to 90; south as --lat=-33.9.
Needed only for aircraft on the ground, within 45 degrees of it";

const SITE_LON: &str = "The receiver's longitude in degrees, from -180 to 180; west as --lon=-0.45.
Give both or neither";

const FORMAT: &str = "The output format: lines, csv, or json (an object a line) [default: lines]";

const SOURCE: &str = "The input format: auto, beast, avr, csv, or log [default: auto]";

const REORDER: &str = "Sort the lines by time, where frames come up to MS milliseconds late
[default: 0, as they come]";

const LEAP: &str = "A time that goes ahead by more than MS milliseconds is a jump: such frames
wait until others confirm them [default: 600000]";

const ARRIVAL: &str =
    "Ignore the receiver's clock: frames get the times of their arrival. For a server
that mixes receivers, and for a clock that does not run at 12 MHz";

const ALL: &str = "Print frames of all downlink formats, not only extended squitters";

const LIMIT: &str = "The most aircraft at once, from 1 to 4294967295 [default: 1000]";

const WINDOW: &str = "The greatest age in milliseconds of a frame to pair or a fix to
follow, from 0 to 18446744073709551615 [default: 10000]";

// The texts of a command: its description, its usage, and the text after the list of its options.
#[derive(Clone, Copy)]
struct CommandHelp {
    about: &'static str,
    usage: &'static str,
    after: &'static str,
}

// Returns a command with its help.
fn command<'a>(alloc: Global, name: &'a str, help: CommandHelp) -> Command<'a>
    ensures app { app_of result ≡ new_app name.entry.now }
    ensures own { (fields_of result).has_globals ≡ false }
{
    Command::new(alloc, name)
        .about(help.about)
        .override_usage(help.usage)
        .after_help(help.after)
}

// Returns a positional argument.
fn argument<'a>(alloc: Global, name: &'a str, help: &'a str) -> Arg<'a>
    ensures rule { rule_of result ≡ required (new_rule name.entry.now) }
    ensures here { result.global ≡ false }
{
    Arg::new(alloc, name).required(true).help(help)
}

// Returns an option that may be left out, `--name VALUE` or `--name=VALUE`. Help has a name of its own for the value.
fn option<'a>(alloc: Global, name: &'a str, value: &'a str, help: &'a str) -> Arg<'a>
    ensures rule { rule_of result ≡ option_rule name.entry.now }
    ensures here { result.global ≡ false }
{
    Arg::new(alloc, name)
        .long(name)
        .value_name(value)
        .help(help)
}

// Returns a flag, `--name`.
fn flag<'a>(alloc: Global, name: &'a str, help: &'a str) -> Arg<'a>
    ensures rule { rule_of result ≡ flag_rule name.entry.now }
    ensures here { result.global ≡ false }
{
    Arg::new(alloc, name)
        .long(name)
        .action(ArgAction::SetTrue)
        .help(help)
}

// Returns a required option, `--name VALUE` or `--name=VALUE`.
fn required_option<'a>(alloc: Global, name: &'a str, value: &'a str, help: &'a str) -> Arg<'a>
    ensures rule { rule_of result ≡ required (option_rule name.entry.now) }
    ensures here { result.global ≡ false }
{
    option(alloc, name, value, help).required(true)
}
