//! The summary of a feed.
ghost use Rattle.std.specs.Prelude.{◌≡◌, ◌+◌, ◌≤◌, ◌++◌, ℕ, List, codes, length, sum};
ghost use Rattle.sq_digits.specs.Buffer.{text_len};
ghost use Rattle.sq_commands.specs.Summary.{advice, are_all_damaged, comma_of, counts_text, format_text, format_texts, joined, other_formats};
ghost use Rattle.sq_commands.specs.Summary.{ahead_advice, back_advice, clocks_advice, has_several_clocks, part, rest_of};
ghost use Rattle.sq_commands.specs.Summary.{stranger_text, summary_text, unit_line};
ghost use Rattle.sq_commands.specs.Summary.{unit_text};

use crate::feed::FeedEnd;
use sq_digits::{TextBuffer, push_decimal};
use sq_feed::{Counts, Stranger, Unit};

// How many downlink formats are counted.
const FORMATS: usize = 25;

// The summary of a feed has fewer bytes.
pub(crate) type SummaryText = TextBuffer<2560>;

// What to do if all items are damaged.
const ADVICE: &str = ": try another --format, or none; the times of a table are seconds";

// What to do if many times were set aside.
const SEVERAL: &str = "; try --arrival: the source seems to have several clocks";

// What to do if the timestamps of a live source are ahead of its arrivals.
const AHEAD: &str =
    "; the clock runs ahead of the arrivals: try --arrival, or read a recording from its file";

// What to do if times went back.
const BACK: &str =
    "; timestamps behind a jump back are moved on: try --leap and --reorder to sort them";

// So few times set aside, or one for so many written, show no second clock in a source.
const FEW: u64 = 4;

const MANY: u64 = 20;

// Returns the summary of a feed: a line on the unit of its timestamps, if they are not milliseconds; the counts; and
// what to do.
pub(crate) fn summary(end: &FeedEnd) -> SummaryText
    ensures bytes { result.bytes ≡ summary_text end.now }
    ensures len { text_len result ≤ 2500 }
{
    let mut text = SummaryText::new();
    push_unit(&mut text, end.unit);
    push_counts(&mut text, &end.counts);
    push_part(&mut text, end.breaks, " jumps back");
    push_advice(&mut text, end);
    text
}

// Appends a line on the unit of timestamps, if they are not milliseconds.
fn push_unit(text: &mut SummaryText, unit: Option<Unit>)
    requires { text_len text.old ≤ 10 }
    ensures bytes { text.new.bytes ≡ text.old.bytes ++ unit_line unit }
    ensures len { text_len text.new ≤ text_len text.old + 151 }
{
    if let Some(unit) = unit {
        text.push_str(unit_text(unit));
        text.push_str("\n");
    }
}

// Returns the line on timestamps that are not milliseconds, at most 150 bytes.
fn unit_text(unit: Unit) -> &'static str
    ensures text { result.now ≡ unit_text unit }
    ensures short { length result.now ≤ 150 }
{
    match unit {
        Unit::Seconds =>
            "the timestamps of this log seem to be seconds; they have to be milliseconds",
        Unit::Microseconds =>
            "the timestamps seem to be microseconds; a log has milliseconds, and a table has seconds",
        Unit::Nanoseconds =>
            "the timestamps seem to be nanoseconds; a log has milliseconds, and a table has seconds",
        Unit::AllZero =>
            "all frames of this file have the timestamp 0, as without times: old ones pair with new",
        Unit::Gps =>
            "the clock of this source seems to be GPS time (Radarcape): set it to 12 MHz, or read its port with --arrival",
    }
}

// Returns whether there were items, and all of them are damaged.
pub(crate) fn are_all_damaged(counts: &Counts) -> bool
    ensures { result ≡ are_all_damaged counts.now }
{
    counts.found() != 0 && counts.damaged() == counts.found()
}

// Returns whether a source with a receiver's clock seems to have several: many times were set aside.
fn has_several_clocks(end: &FeedEnd) -> bool
    ensures { result ≡ has_several_clocks end.now }
{
    let aside = end.counts.aside();
    !end.is_dated && aside > FEW && aside > end.counts.written() / MANY
}

// Appends what to do if all items are damaged, or if times were doubted.
fn push_advice(text: &mut SummaryText, end: &FeedEnd)
    requires { text_len text.old ≤ 2140 }
    ensures bytes { text.new.bytes ≡ text.old.bytes ++ advice end.now }
    ensures len { text_len text.new ≤ text_len text.old + 300 }
{
    if are_all_damaged(&end.counts) {
        text.push_str(ADVICE);
        return;
    }
    push_clocks(text, end);
    push_ahead(text, end.is_ahead);
    push_back(text, end.breaks);
}

// Appends what to do if many times were set aside.
#[tactic(auto, unfolding(crate::specs::Summary::clocks_advice))]
fn push_clocks(text: &mut SummaryText, end: &FeedEnd)
    requires { text_len text.old ≤ 2140 }
    ensures bytes { text.new.bytes ≡ text.old.bytes ++ clocks_advice end.now }
    ensures len { text_len text.new ≤ text_len text.old + 100 }
{
    if has_several_clocks(end) {
        text.push_str(SEVERAL);
    }
}

// Appends what to do if the timestamps of a live source are ahead of its arrivals.
#[tactic(auto, unfolding(crate::specs::Summary::ahead_advice))]
fn push_ahead(text: &mut SummaryText, is_ahead: bool)
    requires { text_len text.old ≤ 2240 }
    ensures bytes { text.new.bytes ≡ text.old.bytes ++ ahead_advice is_ahead }
    ensures len { text_len text.new ≤ text_len text.old + 100 }
{
    if is_ahead {
        text.push_str(AHEAD);
    }
}

// Appends what to do if times went back.
#[tactic(auto, unfolding(crate::specs::Summary::back_advice))]
fn push_back(text: &mut SummaryText, breaks: u64)
    requires { text_len text.old ≤ 2340 }
    ensures bytes { text.new.bytes ≡ text.old.bytes ++ back_advice breaks }
    ensures len { text_len text.new ≤ text_len text.old + 100 }
{
    if breaks != 0 {
        text.push_str(BACK);
    }
}

// Appends the counts of a feed.
fn push_counts(text: &mut SummaryText, counts: &Counts)
    requires { text_len text.old ≤ 200 }
    ensures bytes { text.new.bytes ≡ text.old.bytes ++ counts_text counts.now }
    ensures len { text_len text.new ≤ text_len text.old + 1900 }
{
    push_decimal(text, counts.written());
    text.push_str(" written");
    push_others(text, counts);
    push_part(text, counts.mode_ac(), " of Mode A/C");
    push_part(text, counts.multilaterated(), " multilaterated");
    push_part(text, counts.receiver_ids(), " receiver ids");
    push_part(text, counts.aside(), " set aside");
    push_part(text, counts.damaged(), " damaged");
}

// Appends a count and its name, if the count is not 0.
fn push_part(text: &mut SummaryText, count: u64, name: &str)
    requires { text_len text.old + 22 + length name.now ≤ 2560 }
    ensures bytes { text.new.bytes ≡ text.old.bytes ++ part count name.now }
    ensures len { text_len text.new ≤ text_len text.old + 22 + length name.now }
{
    if count == 0 {
        return;
    }
    text.push_str(", ");
    push_decimal(text, count);
    text.push_str(name);
}

// Appends how many frames have other downlink formats, and which.
fn push_others(text: &mut SummaryText, counts: &Counts)
    requires { text_len text.old ≤ 300 }
    ensures bytes { text.new.bytes ≡ text.old.bytes ++ other_formats counts.now.formats }
    ensures len { text_len text.new ≤ text_len text.old + 1400 }
{
    let others = others_of(counts);
    if others == 0 {
        return;
    }
    text.push_str(", ");
    push_decimal(text, others);
    text.push_str(" of other downlink formats (");
    push_formats(text, &counts.formats());
    text.push_str(")");
}

// Appends the downlink formats that have frames.
fn push_formats(text: &mut SummaryText, formats: &[u64; 25])
    requires { text_len text.old ≤ 400 }
    ensures bytes { text.new.bytes ≡ text.old.bytes ++ joined (format_texts 0 formats.now) }
    ensures len { text_len text.new ≤ text_len text.old + 1125 }
{
    let mut is_first = true;
    let mut format = 0;
    while format < FORMATS {
        is_first = push_format(text, is_first, format, formats[format]);
        format += 1;
    }
}

// Appends a downlink format, if it has frames. Returns whether no format was appended so far.
fn push_format(text: &mut SummaryText, is_first: bool, format: usize, count: u64) -> bool
    requires small { format ≤ 24 }
    requires room { text_len text.old + 45 ≤ 2560 }
    ensures bytes { (more : List (List ℕ)) → text.new.bytes ++ rest_of result more
        ≡ text.old.bytes ++ rest_of is_first (format_text format count ++ more) }
    ensures len { text_len text.new ≤ text_len text.old + 45 }
{
    if count == 0 {
        return is_first;
    }
    push_comma(text, is_first);
    text.push_str("DF");
    push_decimal(text, format as u64);
    text.push_str(" ");
    push_decimal(text, count);
    false
}

// Appends the comma before a text, unless it is the first.
fn push_comma(text: &mut SummaryText, is_first: bool)
    requires { text_len text.old + 2 ≤ 2560 }
    ensures bytes { text.new.bytes ≡ text.old.bytes ++ comma_of is_first }
    ensures len { text_len text.new ≤ text_len text.old + 2 }
{
    if !is_first {
        text.push_str(", ");
    }
}

// Returns how many frames have other downlink formats.
fn others_of(counts: &Counts) -> u64
    ensures { result ≡ sum counts.now.formats }
{
    let others = counts.found() - counts.written() - counts.mode_ac() - counts.receiver_ids();
    others - counts.multilaterated() - counts.damaged() - counts.aside()
}

// Returns the line on a source without frames, at most 140 bytes.
pub(crate) fn stranger_text(stranger: Stranger) -> &'static str
    ensures text { result.now ≡ stranger_text stranger }
    ensures short { length result.now ≤ 140 }
{
    match stranger {
        Stranger::Sbs =>
            "the input is SBS (BaseStation) text, which has no frames: read port 30005 or 30002",
        Stranger::Tar => "the input is a tar archive: try tar -xOf FILE | squitter feed",
        Stranger::Packed => "the input is compressed: try gzip -dc FILE | squitter feed",
        Stranger::Utf16 => "the input is UTF-16: try iconv -f UTF-16 -t UTF-8 FILE | squitter feed",
        Stranger::Json => "the input is lines of JSON, which have no frames",
        Stranger::Semicolons =>
            "the table has semicolons between its columns: they have to be commas, and its decimal commas points",
        Stranger::Tabs => "the table has tabs between its columns: they have to be commas",
        Stranger::NoTime =>
            "the table has no column time (seconds): name its columns time, icao24 and rawmsg in the first row",
        Stranger::NoRawmsg =>
            "the table has no column rawmsg, so it has no frames: take one that has them",
        Stranger::NoSeconds =>
            "the first column of the table has no times in seconds, as 1700000000.25: milliseconds and dates are not read",
        Stranger::NoNames =>
            "the third column of the table has no frames: name its columns time (seconds), icao24 and rawmsg in the first row",
        Stranger::NoFrame =>
            "no frame is in the first 16384 bytes: try --format=beast, avr, csv or log; a table has the columns time (seconds), icao24 and rawmsg",
    }
}
