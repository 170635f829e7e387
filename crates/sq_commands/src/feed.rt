//! The command `feed`: the log that `track` reads, from a receiver's bytes.
ghost use Rattle.std.specs.Prelude.{◌≡◌, ℕ, IfErr, IfOk, Ok, OnErr, None, option_copied, Some};
ghost use Rattle.sq_devices.specs.Changes.{TookReported, taken_from, written_on};
ghost use Rattle.sq_devices.specs.Clocks.{times_of};
ghost use Rattle.sq_commands.specs.Requests.{asked_feed};
ghost use Rattle.sq_commands.specs.Feed.{HasFedAll, IsFed, IsFeedReading, IsFeedRun, IsFeedRunIn, IsMillis, IsNoMillis, IsNoSource};
ghost use Rattle.sq_commands.specs.Feed.{IsSourceWord, feed_reply, manner_of};
ghost use Rattle.sq_commands.specs.Replies.{reply_parts};

use crate::arguments::ArgumentFault;
use crate::feed_lines::{FeedText, order_of, put_end, put_piece};
use crate::replies::{Reply, ReplyText, ReportLine, end_reporting, refuse_argument, stop};
use crate::requests::FeedWords;
use crate::status::Status;
use crate::summary::{are_all_damaged, stranger_text};
use sq_devices::{Clock, Sink, Source};
use sq_feed::{Counts, Feed, Format, Manner, Stranger, Unit, Units};
use sq_log::RunFault;
use sq_text::read_decimal;
use std::alloc::{Allocator, Global};

// A gap of more milliseconds is a jump of the receiver's clock, if no other is given: 10 minutes.
const LEAP: u64 = 600_000;

// How many bytes a get asks for.
const PIECE: usize = 16_384;

/// How `feed` reads and writes.
#[derive(Clone, Copy)]
pub struct FeedOptions {
    /// The format of the input. Without one, the first bytes of the input show it.
    pub format: Option<Format>,
    /// By how much (ms) frames may come late. Lines are sorted by time. With 0, they stay in the order of the frames.
    pub reorder: u64,
    /// A gap of more milliseconds is a jump of the source's clock.
    pub leap: u64,
    /// Whether the receiver's clock is ignored, so that frames get the times of their arrival.
    pub ignores_clock: bool,
    /// Whether frames of other downlink formats than 17 are written too.
    pub all_formats: bool,
}

/// The end of a source: the counts of its items, what it is if it has no known format, whether rows stated their times,
/// what its timestamps seem to be, if they are not milliseconds, how often its times went back, and whether its
/// timestamps are ahead of its arrivals.
#[derive(Clone, Copy)]
pub struct FeedEnd {
    pub counts: Counts,
    pub stranger: Option<Stranger>,
    pub is_dated: bool,
    pub unit: Option<Unit>,
    pub breaks: u64,
    pub is_ahead: bool,
}

/// Writes the log that `track` reads: a line for each extended squitter in the source, with its time. The lines of a
/// piece are put before the next get, unless they wait for frames that come late. Keeps one unfinished item, and the
/// squitters that wait. Only these are allocated, so with a `reorder` of 0 nothing is.
///
/// A live source without frames in a known format is read until that is known, and any other source to its end. Returns
/// the counts of all items, what the source is if it has no known format, and what its timestamps seem to be. Errors:
/// `Read` if a get failed, after the lines of all items that were read whole, but for the squitters that wait; `Write`
/// if a put or the finish failed, within these lines; `Memory` if an allocation failed, within these lines.
pub fn run_feed<A: Allocator, C: Clock, S: Source, K: Sink>(
    alloc: A,
    options: &FeedOptions,
    clock: &mut C,
    source: &mut S,
    sink: &mut K,
) -> Result<FeedEnd, RunFault>
    ensures ran { IsFed options.now (times_of C.Clock clock.old clock.new) result
        (taken_from S.Source source.old source.new) (written_on K.Sink sink.old sink.new) }

    // If the source reports its bytes, the lines are those of all of them. A live source may be left early if it holds
    // no frames.
    ensures reported { IfOk result (λ end. end.stranger ≡ None
        → TookReported (taken_from S.Source source.old source.new)
        (HasFedAll options.now (times_of C.Clock clock.old clock.new) end (written_on K.Sink sink.old sink.new))) }
{
    let is_live = clock.is_live();
    let mut feed = Feed::new(options.format, &manner_of(options, is_live));
    let mut order = order_of(alloc, options.reorder);
    let mut units = Units::new();
    let mut piece = [0; PIECE];
    let mut text = FeedText::new();
    loop {
        let Ok(count) = source.get(&mut piece) else {
            return Err(RunFault::Read);
        };
        let arrival = clock.now();
        if count == 0 {
            return put_end(
                &mut feed, &mut order, &mut units, is_live, arrival, &mut text, sink,
            );
        }
        match put_piece(
            &mut feed,
            &mut order,
            &mut units,
            &piece[..count],
            arrival,
            &mut text,
            sink,
        ) {
            Ok(()) => {}
            Err(fault) => return Err(fault),
        }
        if is_live && feed.stranger().is_some() {
            let end = clock.now();
            return put_end(
                &mut feed, &mut order, &mut units, is_live, end, &mut text, sink,
            );
        }
    }
}

// Returns how an input is heard.
fn manner_of(options: &FeedOptions, is_live: bool) -> Manner
    ensures { result ≡ manner_of options.now is_live }
{
    Manner {
        leap: options.leap,
        late: options.reorder,
        is_live,
        ignores_clock: options.ignores_clock,
        all_formats: options.all_formats,
    }
}

// Runs `feed` over the input, with the options that the words spell.
pub(crate) fn feed<C: Clock, S: Source, K: Sink>(
    alloc: Global,
    words: &FeedWords<'_>,
    clock: &mut C,
    input: &mut S,
    output: &mut K,
) -> Reply
    ensures { IsFeedRun (asked_feed words.now) (times_of C.Clock clock.old clock.new) (reply_parts result)
        (taken_from S.Source input.old input.new) (written_on K.Sink output.old output.new) }
{
    match read_feed_options(words) {
        Ok(options) => feed_with(alloc, &options, clock, input, output),
        Err(fault) => refuse_argument(fault),
    }
}

// Runs `feed` with these options. Not inlined, so that no other command pays for its local variables.
#[inline(never)]
fn feed_with<C: Clock, S: Source, K: Sink>(
    alloc: Global,
    options: &FeedOptions,
    clock: &mut C,
    input: &mut S,
    output: &mut K,
) -> Reply
    ensures { IsFeedRunIn options.now (times_of C.Clock clock.old clock.new) (reply_parts result)
        (taken_from S.Source input.old input.new) (written_on K.Sink output.old output.new) }
{
    match run_feed(alloc, options, clock, input, output) {
        Ok(end) => reply_at_end(&end),
        Err(fault) => stop(fault),
    }
}

// Returns the reply at the end of a source, which reports the summary, or what the source is.
fn reply_at_end(end: &FeedEnd) -> Reply
    ensures { reply_parts result ≡ feed_reply (Ok end.now) }
{
    match end.stranger {
        Some(stranger) => {
            let mut line = ReplyText::new();
            line.push_str(stranger_text(stranger));
            end_reporting(Status::Refused, line)
        }
        None => Reply {
            status: if are_all_damaged(&end.counts) {
                Status::Refused
            } else {
                Status::Good
            },
            output: None,
            error: Some(ReportLine::Summary(*end)),
        },
    }
}

// Returns the options that the words spell, or the first invalid word.
fn read_feed_options(words: &FeedWords<'_>) -> Result<FeedOptions, ArgumentFault>
    ensures { IsFeedReading (asked_feed words.now) result }
{
    let format = read_source(words.format)?;
    let reorder = read_millis(words.reorder, 0, ArgumentFault::Reorder)?;
    let leap = read_millis(words.leap, LEAP, ArgumentFault::Leap)?;
    Ok(FeedOptions {
        format,
        reorder,
        leap,
        ignores_clock: words.arrival,
        all_formats: words.all,
    })
}

// Reads one to twenty digits of a number below 2^64, or returns the usual one if no word is given.
fn read_millis(word: Option<&str>, usual: u64, fault: ArgumentFault) -> Result<u64, ArgumentFault>
    ensures ok { IfOk result (IsMillis usual (option_copied word.entry)) }
    ensures err { OnErr result (IsNoMillis usual (option_copied word.entry)) }
    ensures fault { IfErr result (λ f. f ≡ fault) }
{
    match word {
        None => Ok(usual),
        Some(word) => match read_decimal(word.as_bytes()) {
            Some(millis) => Ok(millis),
            None => Err(fault),
        },
    }
}

// Reads a format: `auto`, `beast`, `avr`, `csv` or `log`; `auto` if no word is given.
fn read_source(word: Option<&str>) -> Result<Option<Format>, ArgumentFault>
    ensures ok { IfOk result (IsSourceWord (option_copied word.entry)) }
    ensures err { OnErr result (IsNoSource (option_copied word.entry)) }
    ensures fault { IfErr result (λ fault. fault ≡ ArgumentFault.Format) }
{
    match word {
        None => Ok(None),
        Some(name) => source_named(name),
    }
}

fn source_named(name: &str) -> Result<Option<Format>, ArgumentFault>
    ensures ok { IfOk result (IsSourceWord (Some name.now)) }
    ensures err { OnErr result (IsNoSource (Some name.now)) }
    ensures fault { IfErr result (λ fault. fault ≡ ArgumentFault.Format) }
{
    match name {
        "auto" => Ok(None),
        "beast" => Ok(Some(Format::Beast)),
        "avr" => Ok(Some(Format::Avr)),
        "csv" => Ok(Some(Format::Csv)),
        "log" => Ok(Some(Format::Log)),
        _ => Err(ArgumentFault::Format),
    }
}
