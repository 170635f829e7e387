//! Guards of the definitions: each has one value, some value or an exact condition, so none can be weakened unnoticed.
//! A function with an empty body does nothing: its contract is the statement.
ghost use Rattle.std.specs.Prelude.{◌≡◌, ◌↔◌, ◌+◌, ◌≤◌, ◌<◌, [], ◌∷◌, Bool, List, ℕ, Option, Some, None, drop, false, length, map};
ghost use Rattle.std.specs.Prelude.{if◌then◌else◌, take, true};
ghost use Rattle.sq_feed.specs.Ears.{Hears};
ghost use Rattle.sq_feed.specs.Times.{is_ahead_of_arrivals};
ghost use Rattle.sq_feed.specs.Feeds.{Feeding, HasClosedFeed, HasLost, HasToldLast, format_of_source, lines_of};
ghost use Rattle.sq_feed.specs.Feeds.{nothing_fed, steps_left};
ghost use Rattle.sq_feed.specs.declared.message.Timed.{Timed};
ghost use Rattle.squitter_c.specs.declared.faults.Fault.{Fault};
ghost use Rattle.squitter_c.specs.Faults.{none};
ghost use Rattle.squitter_c.specs.Seal.{KeptFeed};
ghost use Rattle.squitter_c.specs.declared.feed_new.PlainCounts.{PlainCounts};
ghost use Rattle.squitter_c.specs.declared.log_loop.Done.{Done};
ghost use Rattle.squitter_c.specs.FeedCalls.{AreCounts, HasEndedInFrames, HasEndedInText, squitters_of};
ghost use Rattle.squitter_c.specs.FeedCalls.{IsFeedCounted, IsFeedFinished, IsFeedFormat};
ghost use Rattle.squitter_c.specs.FeedCalls.{IsFeedLost, IsFeedMade, IsFeedTextFinished};
ghost use Rattle.squitter_c.specs.FeedCalls.{IsFilled, IsSourceNumber, feed_number, manner_of, source_number};

use sq_feed::{Format, Stranger};

/// A new feed, and the numbers of the formats.
pub fn made_feeds_exactly()
    ensures made { (number leap late flags size : ℕ) (k : KeptFeed) (fault : Fault)
        → IsFeedMade number leap late flags size (Some k) fault
        ↔ ((format : Option Format) × IsFeedFormat number format
        × (k ≡ nothing_fed format (manner_of leap late flags)) × (20480 ≤ size) × (fault ≡ none)) }
    ensures few { (number : ℕ) (format : Option Format) → IsFeedFormat number format → number ≤ 4 }
    ensures room { (number leap late flags size : ℕ) (k : KeptFeed) (fault : Fault)
        → IsFeedMade number leap late flags size (Some k) fault → (number ≤ 4) × (20480 ≤ size) }
    ensures moments { (leap late flags : ℕ) → ((manner_of leap late flags).leap ≡ leap)
        × ((manner_of leap late flags).late ≡ late) }
    ensures live { (leap late : ℕ) → map (λ flags. (manner_of leap late flags).is_live) (0 ∷ 1 ∷ 2 ∷ 4 ∷ 15 ∷ [])
        ≡ false ∷ true ∷ false ∷ false ∷ true ∷ [] }
    ensures clock { (leap late : ℕ) → map (λ flags. (manner_of leap late flags).ignores_clock)
        (0 ∷ 1 ∷ 2 ∷ 4 ∷ 15 ∷ []) ≡ false ∷ false ∷ true ∷ false ∷ true ∷ [] }
    ensures formats { (leap late : ℕ) → map (λ flags. (manner_of leap late flags).all_formats)
        (0 ∷ 1 ∷ 2 ∷ 4 ∷ 15 ∷ []) ≡ false ∷ false ∷ false ∷ true ∷ true ∷ [] }
    ensures numbers { IsFeedFormat 0 (Some Format.Beast) × IsFeedFormat 1 (Some Format.Avr)
        × IsFeedFormat 2 (Some Format.Csv) × IsFeedFormat 3 (Some Format.Log) × IsFeedFormat 4 None }
{}

/// An array after a call wrote its first elements.
pub fn filled_exactly()
    ensures { (was is : List ℕ) (count : ℕ) → IsFilled was is count
        ↔ ((count ≤ length is) × (length is ≡ length was) × (drop count is ≡ drop count was)) }
{}

/// The end of a source, in arrays and in a text.
pub fn ends_exactly()
    ensures arrays { (arrival : ℕ) (old new : Feeding) (moments_were moments : List ℕ)
        (frames_were frames : List (List ℕ)) (done : Done)
        → HasEndedInFrames arrival old new moments_were moments frames_were frames done ↔ ((closed : Feeding)
        × HasClosedFeed old closed × (done.taken ≡ 0)
        × ((settled : Bool)
        × HasToldLast settled arrival closed (squitters_of (take done.written moments) (take done.written frames)) new
        × (done.written < length moments → done.written < length frames
        → (settled ≡ true) × (steps_left new ≡ 0))
        × IsFilled moments_were moments done.written × IsFilled frames_were frames done.written)) }
    ensures text { (arrival : ℕ) (old new : Feeding) (was is : List ℕ) (done : Done)
        → HasEndedInText arrival old new was is done ↔ ((closed : Feeding) × HasClosedFeed old closed
        × (done.taken ≡ 0) × ((settled : Bool) × (told : List Timed) × HasToldLast settled arrival closed told new
        × (take done.written is ≡ lines_of told)
        × (done.written + 50 ≤ length is → (settled ≡ true) × (steps_left new ≡ 0))
        × IsFilled was is done.written)) }
    ensures finished { (arrival : ℕ) (k : KeptFeed) (new : Option KeptFeed) (moments_were moments : List ℕ)
        (frames_were frames : List (List ℕ)) (before after : Done) (fault : Fault)
        → IsFeedFinished arrival (Some k) new moments_were moments frames_were frames before after fault
        ↔ ((next : KeptFeed) × (new ≡ Some next)
        × HasEndedInFrames arrival k next moments_were moments frames_were frames after × (fault ≡ none)) }
    ensures texts { (arrival : ℕ) (k : KeptFeed) (new : Option KeptFeed) (was is : List ℕ) (before after : Done)
        (fault : Fault) → IsFeedTextFinished arrival (Some k) new was is before after fault
        ↔ ((next : KeptFeed) × (new ≡ Some next) × HasEndedInText arrival k next was is after × (fault ≡ none)) }
{}

/// A lost connection, and the counts, if there is a feed.
pub fn counts_exactly()
    ensures lost { (k : KeptFeed) (new : Option KeptFeed) (fault : Fault) → IsFeedLost (Some k) new fault
        ↔ ((next : KeptFeed) × (new ≡ Some next) × HasLost k next × (fault ≡ none)) }
    ensures counted { (k : KeptFeed) (was is : PlainCounts) (fault : Fault) → IsFeedCounted (Some k) was is fault
        ↔ (AreCounts k.ear is × (fault ≡ none)) }
    ensures numbers { (ear : Hears) (is : PlainCounts) → AreCounts ear is ↔ ((is.found ≡ ear.counts.found)
        × (is.written ≡ ear.counts.written) × (is.mode_ac ≡ ear.counts.mode_ac)
        × (is.multilaterated ≡ ear.counts.multilaterated) × (is.receiver_ids ≡ ear.counts.receiver_ids)
        × (is.damaged ≡ ear.counts.damaged) × (is.aside ≡ ear.counts.aside) × (is.formats ≡ ear.counts.formats)
        × (is.breaks ≡ ear.dates.breaks) × (is.ahead ≡ (if is_ahead_of_arrivals ear.times then 1 else 0))) }
{}

/// The source of a feed, if there is a feed, and the numbers of all sources.
pub fn sources_exactly()
    ensures number { (k : KeptFeed) (was is : ℕ) (fault : Fault) → IsSourceNumber (Some k) was is fault
        ↔ ((is ≡ source_number (format_of_source k) k.ear.stranger) × (fault ≡ none)) }
    ensures formats { (format : Format) (other : Option Stranger)
        → source_number (Some format) other ≡ feed_number (Some format) }
    ensures strangers { map (λ stranger. source_number None (Some stranger)) (Stranger.Sbs ∷ Stranger.Tar
        ∷ Stranger.Packed ∷ Stranger.Utf16 ∷ Stranger.Json ∷ Stranger.NoFrame ∷ []) ≡ 5 ∷ 6 ∷ 7 ∷ 8 ∷ 9 ∷ 10 ∷ [] }
    ensures tables { map (λ stranger. source_number None (Some stranger)) (Stranger.Semicolons ∷ Stranger.Tabs
        ∷ Stranger.NoTime ∷ Stranger.NoRawmsg ∷ Stranger.NoSeconds ∷ Stranger.NoNames ∷ [])
        ≡ 11 ∷ 12 ∷ 13 ∷ 14 ∷ 15 ∷ 16 ∷ [] }
    ensures none { source_number None None ≡ 4 }
{}
