//! Laws of streams, texts and clocks. A function with an empty body does nothing: its contract is the law.
ghost use Rattle.std.specs.Prelude.{true};
ghost use Rattle.sq_feed.specs.Laws.{GivesTheStream, SentIsFound};
ghost use Rattle.sq_feed.specs.Laws.{SentIsFoundAnywhere, StartSplits};
ghost use Rattle.sq_feed.specs.Shown.{AvrLineIsShown, AvrLinesAreShown, BeastIsShown, LineIsShown, SentBeastIsShown};
ghost use Rattle.sq_feed.specs.Shown.{SentTextIsShown};
ghost use Rattle.sq_feed.specs.Avr.{BareFrameIsFound, SentFrameIsFound};
ghost use Rattle.sq_feed.specs.Ears.{CountsAtEnd, CountsEach, StaysNear, StaysNearAtEnd};
ghost use Rattle.sq_feed.specs.Feeds.{FeedsBoth, FeedsGoOn, FeedsTheWhole};
ghost use Rattle.sq_feed.specs.Follows.{FollowsMore};
ghost use Rattle.sq_feed.specs.Clock.{KeepsTheTime};
ghost use Rattle.sq_feed.specs.Rows.{LineIsRead};
ghost use Rattle.sq_feed.specs.Orders.{AlwaysRises, CountsAll, CountsTheLate, GivesAll, GivesAtOnce, GivesInOrder};
ghost use Rattle.sq_feed.specs.Orders.{GivesTheFirst, InTimeIsNotLate, SortsStably, SortsTheWhole};

/// Sent messages are found, with any content and between any other bytes.
pub fn sent_is_found()
    ensures alone { SentIsFound }
    ensures anywhere { SentIsFoundAnywhere }
{}

/// A source in a known format is found without `--format`: Beast with any clocks and frames, AVR text with any text
/// before its first frame, and a log or a table by the first line. The whole source is then read in that format.
pub fn sent_is_shown()
    ensures start { BeastIsShown }
    ensures beast { SentBeastIsShown }
    ensures text { SentTextIsShown }
    ensures anywhere { AvrLineIsShown }
    ensures in_turn { AvrLinesAreShown }
    ensures line { LineIsShown }
{}

/// The items before a start and those from it on do not depend on each other.
pub fn start_splits()
    ensures { StartSplits }
{}

/// The items of a stream do not depend on how it is cut into pieces.
pub fn cutting_is_nothing()
    ensures { GivesTheStream }
{}

/// While no gap is half a turn of 48 bits, the counts of a clock are as far apart as the receiver's true counts,
/// however often these bits wrap.
pub fn clock_keeps_the_time()
    ensures { KeepsTheTime }
{}

/// A frame in AVR text is found, between any other text.
pub fn written_is_found()
    ensures marked { SentFrameIsFound }
    ensures bare { BareFrameIsFound }
{}

/// A line of a log or a table is read by itself, whatever follows it.
pub fn line_is_read()
    ensures { LineIsRead }
{}

/// Bytes that are taken in two calls give the items of both: how the source is cut does not matter.
pub fn takes_go_on()
    ensures { FollowsMore }
{}

/// The squitters of a feed, and the items in its source, do not depend on how the source is cut into pieces.
pub fn feed_gives_the_whole()
    ensures on { FeedsGoOn }
    ensures whole { FeedsTheWhole }
    ensures both { FeedsBoth }
{}

/// The timestamps that an order gives rise, and each squitter that came was given, is held or was counted as late. If
/// each is late by at most `reorder`, none is dropped. Then the squitters given, followed by those held, are the
/// input, sorted. How the input is cut into calls does not matter. With a `reorder` of 0, none is held.
pub fn orders_keep_all()
    ensures rises { AlwaysRises }
    ensures counted { CountsAll }
    ensures all { GivesAll }
    ensures late { CountsTheLate }
    ensures sorted { GivesInOrder }
    ensures in_time { InTimeIsNotLate }
    ensures stable { SortsStably }
    ensures whole { SortsTheWhole }
    ensures first { GivesTheFirst }
    ensures at_once { GivesAtOnce }
{}

/// A timestamp of a feed is before the latest one by at most `late`.
pub fn timestamps_stay_near()
    ensures items { StaysNear }
    ensures end { StaysNearAtEnd }
{}

/// Each item is counted once, and each squitter with a timestamp is counted as written. A frame that waits for others
/// to confirm its time is counted when that is decided, at the latest at the end.
pub fn each_item_is_counted()
    ensures items { CountsEach }
    ensures end { CountsAtEnd }
{}
