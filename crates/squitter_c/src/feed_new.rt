//! Creating, counting and freeing a feed.
ghost use Rattle.std.specs.Prelude.{◌≡◌, IfNone, IfSome, None, ◌<◌};
ghost use Rattle.squitter_c.specs.FeedCalls.{AreCounts, IsFeedCounted, IsFeedFormat, IsFeedLost, IsFeedMade};
ghost use Rattle.squitter_c.specs.FeedCalls.{IsSourceNumber, manner_of, source_number};
ghost use Rattle.squitter_c.specs.Slots.{held_feed};

use crate::faults::{Fault, NONE, Reason};
use crate::feed_slot::{FEED_BYTES, FeedSlot, feed_in};
use sq_feed::{Feed, Format, Manner, Stranger};
use sq_lent::Room;

/// Counts of the items of a source. `found` is the sum of all other counts.
#[repr(C)]
#[derive(Clone, Copy)]
pub struct PlainCounts {
    pub found: u64,
    /// Squitters that were written.
    pub written: u64,
    pub mode_ac: u64,
    pub multilaterated: u64,
    /// Ids of receivers, which are no frames.
    pub receiver_ids: u64,
    pub damaged: u64,
    /// Squitters set aside because of their time.
    pub aside: u64,
    /// Frames of each downlink format other than 17. The last one counts formats 24 and above.
    pub formats: [u64; 25],
    /// How often times went back, so that timestamps are moved on. These are no items.
    pub breaks: u64,
    /// 1 if the timestamps of a live source are ahead of its arrivals by more than a leap, otherwise 0.
    pub ahead: u64,
}

/// Returns the size of a feed in bytes.
#[unsafe(no_mangle)]
pub extern "C" fn squitter_feed_size() -> usize
    ensures { result ≡ 20480 }
{
    FEED_BYTES
}

/// Creates a feed at the start of a source. The block belongs to the feed until the feed is freed. An existing feed
/// is freed first. Formats are 0 for Beast, 1 for AVR, 2 for CSV, 3 for a log, and 4 if the first bytes of the source
/// show the format. A gap above `leap` milliseconds is a jump of the source's clock. A timestamp may be before the
/// latest one by `late` milliseconds; with 0, timestamps never go back. `flags` is a sum: 1 for a live source,
/// otherwise arrivals are ignored; 2 to ignore the receiver's clock; 4 for frames of all downlink formats, otherwise
/// those of format 17. Its other bits are ignored.
///
/// The faults are, in this order: `NoFormat` if no format has the number; `Memory` if the block is smaller than
/// [`squitter_feed_size`]. After a fault there is no feed.
#[unsafe(no_mangle)]
pub extern "C" fn squitter_feed_new(
    feed: &mut FeedSlot,
    block: Room,
    format: u32,
    leap: u64,
    late: u64,
    flags: u32,
) -> Fault
    ensures { IsFeedMade format leap late flags block.size (held_feed feed.new) result }
{
    squitter_feed_free(feed);
    let Some(format) = feed_format(format) else {
        return Fault::of(Reason::NoFormat);
    };
    match feed_in(block, format, &manner_of(leap, late, flags)) {
        Some(made) => {
            feed.put(made);
            NONE
        }
        None => Fault::of(Reason::Memory),
    }
}

// Returns how a feed with these flags hears its source.
fn manner_of(leap: u64, late: u64, flags: u32) -> Manner
    ensures { result ≡ manner_of leap late flags }
{
    Manner {
        leap,
        late,
        is_live: flags % 2 == 1,
        ignores_clock: flags / 2 % 2 == 1,
        all_formats: flags / 4 % 2 == 1,
    }
}

/// Frees the feed. Its block is the caller's again. Safe to call twice, and on a feed that was never created.
#[unsafe(no_mangle)]
pub extern "C" fn squitter_feed_free(feed: &mut FeedSlot)
    ensures { held_feed feed.new ≡ None }
{
    drop(feed.take());
}

/// Drops an unfinished frame after a lost connection, and counts it as damaged. The next bytes belong to a new
/// connection: its clock starts afresh. The fault is `NoTracker` if there is no feed.
#[unsafe(no_mangle)]
pub extern "C" fn squitter_feed_disconnected(feed: &mut FeedSlot) -> Fault
    ensures { IsFeedLost (held_feed feed.old) (held_feed feed.new) result }
{
    match feed.take() {
        Some(mut taken) => {
            taken.disconnected();
            feed.put(taken);
            NONE
        }
        None => Fault::of(Reason::NoTracker),
    }
}

/// Writes the counts of the items so far. The fault is `NoTracker` if there is no feed.
#[unsafe(no_mangle)]
pub extern "C" fn squitter_feed_counts(feed: &mut FeedSlot, out: &mut PlainCounts) -> Fault
    ensures counted { IsFeedCounted (held_feed feed.old) out.old out.new result }
    ensures same { held_feed feed.new ≡ held_feed feed.old }
{
    match feed.take() {
        Some(taken) => {
            let counts = plain_counts(&taken);
            feed.put(taken);
            *out = counts;
            NONE
        }
        None => Fault::of(Reason::NoTracker),
    }
}

// Returns the counts of a feed as plain numbers.
fn plain_counts(feed: &Feed) -> PlainCounts
    ensures { AreCounts feed.now.ear result }
{
    let counts = feed.counts();
    PlainCounts {
        found: counts.found(),
        written: counts.written(),
        mode_ac: counts.mode_ac(),
        multilaterated: counts.multilaterated(),
        receiver_ids: counts.receiver_ids(),
        damaged: counts.damaged(),
        aside: counts.aside(),
        formats: counts.formats(),
        breaks: feed.breaks(),
        ahead: u64::from(feed.is_ahead_of_arrivals()),
    }
}

/// Writes what the source is: 0 to 3 for its format; 5 for SBS text, 6 for a tar archive, 7 for a packed file, 8 for
/// UTF-16, 9 for lines of JSON, 10 for bytes without frames, 11 to 16 for tables that are not read; and 4 while none of
/// these is known. At the end of a source it is known, if any byte came. The fault is `NoTracker` if there is no feed.
#[unsafe(no_mangle)]
pub extern "C" fn squitter_feed_format(feed: &mut FeedSlot, out: &mut u32) -> Fault
    ensures number { IsSourceNumber (held_feed feed.old) out.old out.new result }
    ensures same { held_feed feed.new ≡ held_feed feed.old }
{
    match feed.take() {
        Some(taken) => {
            let number = source_number(taken.format(), taken.stranger());
            feed.put(taken);
            *out = number;
            NONE
        }
        None => Fault::of(Reason::NoTracker),
    }
}

// Returns the number of a source.
fn source_number(format: Option<Format>, stranger: Option<Stranger>) -> u32
    ensures { result ≡ source_number format stranger }
{
    match format {
        Some(Format::Beast) => 0,
        Some(Format::Avr) => 1,
        Some(Format::Csv) => 2,
        Some(Format::Log) => 3,
        None => match stranger {
            None => 4,
            Some(Stranger::Sbs) => 5,
            Some(Stranger::Tar) => 6,
            Some(Stranger::Packed) => 7,
            Some(Stranger::Utf16) => 8,
            Some(Stranger::Json) => 9,
            Some(Stranger::NoFrame) => 10,
            Some(Stranger::Semicolons) => 11,
            Some(Stranger::Tabs) => 12,
            Some(Stranger::NoTime) => 13,
            Some(Stranger::NoRawmsg) => 14,
            Some(Stranger::NoSeconds) => 15,
            Some(Stranger::NoNames) => 16,
        },
    }
}

// Returns the format with this number. `None` within `Some` means that the first bytes of the source show the format.
fn feed_format(number: u32) -> Option<Option<Format>>
    ensures some { IfSome result (IsFeedFormat number) }
    ensures none { IfNone result (4 < number) }
{
    match number {
        0 => Some(Some(Format::Beast)),
        1 => Some(Some(Format::Avr)),
        2 => Some(Some(Format::Csv)),
        3 => Some(Some(Format::Log)),
        4 => Some(None),
        _ => None,
    }
}
