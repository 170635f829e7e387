//! Guards of the definitions: each has one value, some value or an exact condition, so none can be weakened unnoticed.
//! A function with an empty body does nothing: its contract is the statement.
ghost use Rattle.std.specs.Prelude.{◌≡◌, ◌≢◌, ◌↔◌, ◌++◌, codes, ◌+◌, ◌-◌, ◌*◌, ◌^◌, ◌%◌, ◌<◌, ◌≤◌, ℕ, List, [], ◌∷◌, length};
ghost use Rattle.std.specs.Prelude.{◌⊎◌, None, false, replicate, take};
ghost use Rattle.std.specs.Prelude.{max, Option, Some, map, option_to_list, true};
ghost use Rattle.sq_feed.specs.declared.message.Found.{Found as Item};
ghost use Rattle.sq_feed.specs.Laws.{AreSent, AreTakes, IsFoundOnce, IsReadOnce, Sent};
ghost use Rattle.sq_feed.specs.Avr.{AreHex, AvrSent, IsSent, avr_found, lead, mark_of};
ghost use Rattle.sq_feed.specs.Dates.{HasRoom, waiting};
ghost use Rattle.sq_feed.specs.declared.dates.Dates.{Dates as Waits};
ghost use Rattle.sq_feed.specs.Ears.{AreNear, clock_item, clock_times, ear_after_all, ear_ended, live_times, lost};
ghost use Rattle.sq_feed.specs.Ears.{new_source, row_at, row_times};
ghost use Rattle.sq_feed.specs.Ears.{told_ended, told_of_all};
ghost use Rattle.sq_feed.specs.Feeds.{AreFed, Fed, Feeding, HasClosedFeed, HasFed};
ghost use Rattle.sq_feed.specs.Feeds.{HasLost, HasSettled, HasTold, HasToldLast, steps_left, stored};
ghost use Rattle.sq_feed.specs.Finding.{any_found, bare_item, has_frame, marked_sign, millis_item, sign_of_line};
ghost use Rattle.sq_feed.specs.Finding.{sign_of_row};
ghost use Rattle.sq_feed.specs.Kinds.{frame_len, message_len};
ghost use Rattle.sq_feed.specs.Readers.{HasClosed, HasEnded, IsEnding, IsNew, Reads, awaited, calls_left, items_as};
ghost use Rattle.sq_feed.specs.Readers.{lost_items};
ghost use Rattle.sq_feed.specs.Shown.{IsAvrLine, IsTextLine};
ghost use Rattle.sq_feed.specs.Tables.{is_row_behind, unread_table};
ghost use Rattle.std.specs.List.{AllByRecursion};
ghost use Rattle.sq_feed.specs.Clock.{AreNearby, Counted, HasCounted, count_of, counted_at, counts_of};
ghost use Rattle.sq_feed.specs.Rows.{BegunRow, IsHeld, csv_start, row_read, rows_from};
ghost use Rattle.sq_feed.specs.declared.message.Timed.{Timed};
ghost use Rattle.sq_feed.specs.Orders.{AreCalled, AreSorted, HasFlushed, HasSorted, IsCalled, RiseFrom, Sorted, Sorting};
ghost use Rattle.sq_feed.specs.Orders.{given_all, last_given, late_all, nothing_sorted, sorted_all, timed_at};
ghost use Rattle.sq_feed.specs.Units.{nothing_watched, regular, told_unit, unit_of, watched_all, watched_one};
ghost use Rattle.sq_feed.specs.Stream.{Hold, Spell, Symbol, found_in};

use crate::beast::Beast;
use crate::machine::Format;
use crate::message::{Found, RawFrame, Stranger, Time};
use crate::rows::Layout;
use crate::signs::Sign;
use crate::units::Unit;

/// Any bytes encode exactly one list of symbols, and exactly one list of items is found in them.
pub fn one_reading()
    ensures read { (bytes : List ℕ) → IsReadOnce bytes }
    ensures found { (bytes : List ℕ) → IsFoundOnce bytes }
{}

/// A call of `Beast::take` meets the premise of `cutting_is_nothing`.
pub fn one_take(beast: &mut Beast, piece: &[u8]) -> (usize, Option<Found>)
    ensures { AreTakes beast.old
        (record { taken = take result.0 piece.now; found = option_to_list result.1; after = beast.new } ∷ []) }
{
    beast.take(piece)
}

/// Frames with timestamps near the latest one.
pub fn nearness_exactly()
    ensures none { (late latest : ℕ) → AreNear late latest [] }
    ensures more { (late latest : ℕ) (one : Timed) (more : List Timed) → AreNear late latest (one ∷ more)
        ↔ ((latest ≤ one.moment + late) × AreNear late (max latest one.moment) more) }
    ensures first { (late latest : ℕ) (one : Timed) (more : List Timed) → AreNear late latest (one ∷ more)
        → latest ≤ one.moment + late }
{}

/// The one reading of bytes: they encode these symbols and no others, and hold these items and no others.
pub fn readings_exactly()
    ensures read { (bytes : List ℕ) → IsReadOnce bytes ↔ ((symbols : List Symbol) × Spell bytes symbols
        × ((others : List Symbol) → Spell bytes others → others ≡ symbols)) }
    ensures found { (bytes : List ℕ) → IsFoundOnce bytes ↔ (Hold bytes (found_in bytes)
        × ((found : List Item) → Hold bytes found → found ≡ found_in bytes)) }
{}

/// Sent bytes: a Beast message has the bytes of its size, and AVR text a mark and the digits of its size.
pub fn sent_exactly()
    ensures none { AreSent [] }
    ensures more { (sent : Sent) (more : List Sent)
        → AreSent (sent ∷ more) ↔ ((length sent.bytes ≡ message_len sent.size) × AreSent more) }
    ensures text { (sent : AvrSent) → IsSent sent ↔ ((mark_of sent.first ≡ Some sent.mark) × AreHex sent.digits
        × (length sent.digits ≡ 2 * (lead sent.mark + frame_len sent.size))) }
{}

/// Successive true counts of a receiver: each is within half a turn of the previous one, and is counted from 0 on. The
/// state of a clock agrees with them.
pub fn counts_exactly()
    ensures none { (start first ticks : ℕ) → AreNearby start first ticks [] }
    ensures more { (start first ticks next : ℕ) (more : List ℕ) → AreNearby start first ticks (next ∷ more)
        ↔ ((next < ticks + 2 ^ 47) × (ticks < next + 2 ^ 47) × (first ≤ start + next)
        × (start + next < first + 2 ^ 64) × AreNearby start first next more) }
    ensures agrees { (counted : Counted) (start first ticks : ℕ) → HasCounted counted start first ticks
        ↔ ((counted.last ≡ ticks % 2 ^ 48) × (counted.elapsed + first ≡ start + ticks)) }
{}

/// The counts of 48-bit values: behind a wrap, before one, half a turn away, and beyond both limits.
pub fn counts_in_numbers()
    ensures wraps { counts_of (counted_at (2 ^ 48 - 1) 7) (0 ∷ (2 ^ 48 - 2) ∷ 5 ∷ []) ≡ 8 ∷ 6 ∷ 13 ∷ [] }
    ensures forward { count_of (counted_at 5 (2 ^ 48)) (5 + 2 ^ 47 - 1) ≡ 2 ^ 48 + 2 ^ 47 - 1 }
    ensures back { count_of (counted_at 5 (2 ^ 48)) (5 + 2 ^ 47) ≡ 2 ^ 47 }
    ensures zero { count_of (counted_at 5 5) 0 ≡ 0 }
    ensures below { count_of (counted_at 5 4) 0 ≡ 0 }
    ensures most { count_of (counted_at 5 (2 ^ 64 - 2)) 9 ≡ 2 ^ 64 - 1 }
{}

/// The calls of a feed: the squitters that they give, and the state that they leave.
pub fn feeds_exactly()
    ensures none { (before : Feeding) → AreFed before [] }
    ensures more { (before : Feeding) (one : Fed) (more : List Fed) → AreFed before (one ∷ more)
        ↔ (HasFed one.arrival before one.bytes one.found one.after × AreFed one.after more) }
    ensures told { (arrival : ℕ) (old new : Feeding) (bytes : List ℕ) (told : List Timed)
        → HasTold arrival old bytes told new ↔ ((found : List Item) × HasFed arrival old bytes found new
        × (told ++ new.ready ≡ old.ready ++ told_of_all arrival old.ear found)) }
    ensures stored { (slot : Timed) → (stored true slot ≡ slot ∷ []) × (stored false slot ≡ []) }
    ensures room { (ready : List Timed) (d : Waits) → HasRoom ready d
        ↔ ((length ready + length (waiting d) ≤ 4) × (length (waiting d) ≤ 3)) }
    ensures closed { (old new : Feeding) → HasClosedFeed old new
        ↔ (HasClosed old.reader new.reader × (new.ear ≡ old.ear) × (new.ready ≡ old.ready)) }
    ensures settled { (old new : Feeding) → HasSettled old new ↔ ((new.reader ≡ old.reader)
        × (new.ear ≡ ear_ended old.ear) × (new.ready ≡ old.ready ++ told_ended old.ear)) }
    ensures last { (arrival : ℕ) (old new : Feeding) (told : List Timed)
        → HasToldLast false arrival old told new ↔ HasTold arrival old [] told new }
    ensures whole { (arrival : ℕ) (old new : Feeding) (told : List Timed) → HasToldLast true arrival old told new
        ↔ ((mid : Feeding) × (settled : Feeding) × (first : List Timed) × (second : List Timed)
        × HasTold arrival old [] first mid × (steps_left mid ≡ 0) × HasSettled mid settled
        × HasTold arrival settled [] second new × (told ≡ first ++ second)) }
    ensures lost { (old new : Feeding) → HasLost old new ↔ (IsNew old.reader.asked new.reader
        × (new.ear ≡ lost (ear_after_all 0 old.ear (lost_items old.reader)))
        × (new.ready ≡ old.ready ++ told_ended (ear_after_all 0 old.ear (lost_items old.reader)))) }
{}

/// The timestamps of rows in a recording, with a leap of ten minutes: regular rows; a first row alone, and before
/// regular ones if its time is far ahead; one wild row after the first, among those that jump, and behind them; rows
/// that jump ahead by an hour, and each by an hour; rows that go back; and late rows.
pub fn rows_in_times()
    ensures regular { row_times (1000 ∷ 2000 ∷ 601000 ∷ []) ≡ 1000 ∷ 2000 ∷ 601000 ∷ [] }
    ensures first { row_times (1000 ∷ []) ≡ 1000 ∷ [] }
    ensures waits { told_of_all 0 (new_source false) (map row_at (1000 ∷ [])) ≡ [] }
    ensures wild { row_times (90000000 ∷ 1000 ∷ 2000 ∷ 3000 ∷ []) ≡ 1000 ∷ 2000 ∷ 3000 ∷ [] }
    ensures second { row_times (1000 ∷ 90000000 ∷ 2000 ∷ []) ≡ 1000 ∷ 2000 ∷ [] }
    ensures ahead { row_times (1000 ∷ 2000 ∷ 3602001 ∷ 3603000 ∷ 3604000 ∷ [])
        ≡ 1000 ∷ 2000 ∷ 3602001 ∷ 3603000 ∷ 3604000 ∷ [] }
    ensures hours { row_times (1000 ∷ 3600000 ∷ 7200000 ∷ 10800000 ∷ 14400000 ∷ [])
        ≡ 1000 ∷ 3600000 ∷ 7200000 ∷ 10800000 ∷ 14400000 ∷ [] }
    ensures between { row_times (1000 ∷ 1001 ∷ 1512549 ∷ 1285015 ∷ 1512550 ∷ [])
        ≡ 1000 ∷ 1001 ∷ 1512549 ∷ 1512550 ∷ [] }
    ensures behind { row_times (1000 ∷ 1001 ∷ 3602001 ∷ 90000000 ∷ 3602002 ∷ 3602003 ∷ [])
        ≡ 1000 ∷ 1001 ∷ 3602001 ∷ 3602002 ∷ 3602003 ∷ [] }
    ensures third { row_times (1000 ∷ 1001 ∷ 3602001 ∷ 3603000 ∷ 90000000 ∷ 3604000 ∷ [])
        ≡ 1000 ∷ 1001 ∷ 3602001 ∷ 3603000 ∷ 3604000 ∷ [] }
    ensures sparse { row_times (1000 ∷ 1001 ∷ 3602001 ∷ 90000000 ∷ 7203001 ∷ 7203002 ∷ [])
        ≡ 1000 ∷ 1001 ∷ 3602001 ∷ 7203001 ∷ 7203002 ∷ [] }
    ensures torn { row_times (1000 ∷ 1001 ∷ 90000000 ∷ 80000000 ∷ []) ≡ 1000 ∷ 1001 ∷ [] }
    ensures two { row_times (1000 ∷ 2000 ∷ 602001 ∷ 3000 ∷ []) ≡ 1000 ∷ 2000 ∷ 3000 ∷ [] }
    ensures back { row_times (9000000 ∷ 9001000 ∷ 5000 ∷ 6000 ∷ 7000 ∷ [])
        ≡ 9000000 ∷ 9001000 ∷ 9601001 ∷ 9602001 ∷ 9603001 ∷ [] }
    ensures late { row_times (5000 ∷ 6000 ∷ 5000 ∷ 4999 ∷ 7000 ∷ []) ≡ 5000 ∷ 6000 ∷ 6000 ∷ 7000 ∷ [] }
{}

/// The timestamps of frames with a clock. These wait and are confirmed as rows are, but the first frame does not wait.
/// In a live source, the first timestamp is the arrival, and a clock that starts again goes on by the arrival.
pub fn clocks_in_times()
    ensures wild { clock_times (1000 ∷ 3601000 ∷ 1100 ∷ 1200 ∷ []) ≡ 1000 ∷ 1100 ∷ 1200 ∷ [] }
    ensures first { clock_times (90000000 ∷ 1000 ∷ 2000 ∷ 3000 ∷ [])
        ≡ 90000000 ∷ 90600001 ∷ 90601001 ∷ 90602001 ∷ [] }
    ensures night { clock_times (1000 ∷ 90001000 ∷ 180001000 ∷ 180002000 ∷ [])
        ≡ 1000 ∷ 90001000 ∷ 180001000 ∷ 180002000 ∷ [] }
    ensures back { clock_times (9000000 ∷ 9001000 ∷ 5000 ∷ 6000 ∷ 7000 ∷ [])
        ≡ 9000000 ∷ 9001000 ∷ 9601001 ∷ 9602001 ∷ 9603001 ∷ [] }
    ensures live { live_times (50 ∷ 60 ∷ []) ≡ 100000000 ∷ 100000010 ∷ [] }
    ensures at_once { length (told_of_all 0 (new_source false) (map clock_item (50 ∷ []))) ≡ 1 }
    ensures restarted { live_times (9000000 ∷ 9000100 ∷ 5000 ∷ 5001 ∷ 5002 ∷ 5003 ∷ [])
        ≡ 100000000 ∷ 100000100 ∷ 100000100 ∷ 100000101 ∷ 100000102 ∷ 100000103 ∷ [] }
    ensures recorded { live_times (9000000 ∷ 9601000 ∷ 9601001 ∷ 9601002 ∷ 5000 ∷ 5001 ∷ 5002 ∷ [])
        ≡ 100000000 ∷ 100601000 ∷ 100601001 ∷ 100601002 ∷ 101201003 ∷ 101201004 ∷ 101201005 ∷ [] }
    ensures breaks { (ear_after_all 0 (new_source false)
        (map clock_item (9000000 ∷ 9001000 ∷ 5000 ∷ 6000 ∷ 7000 ∷ []))).dates.breaks ≡ 1 }
{}

/// A reader at the start of a source, and one after the end of its source.
pub fn readers_exactly()
    ensures start { (asked : Option Format) (reads : Reads) → IsNew asked reads
        ↔ ((reads.asked ≡ asked) × ((bytes : List ℕ) → awaited reads bytes ≡ items_as asked bytes)) }
    ensures closed { (old new : Reads) → HasClosed old new ↔ ((new.asked ≡ old.asked)
        × ((bytes : List ℕ) → awaited new bytes ≡ awaited old [] ++ items_as old.asked bytes)) }
    ensures ended { (reads : Reads) → HasEnded reads → calls_left reads ≡ 0 → awaited reads [] ≡ [] }
    ensures ending { (reads : Reads) → IsEnding reads.stage → 0 < calls_left reads }
{}

/// A line of text can show a format, and one of AVR text shows it with any text before its frame.
pub fn lines_exactly()
    ensures avr { (line : List ℕ) → IsAvrLine line ↔ ((length line < 16384)
        × AllByRecursion (λ byte. byte ≢ 10) line × AllByRecursion (λ byte. byte ≢ 26) line
        × (sign_of_line (row_read Layout.Log line) ≡ Sign.Unclear)
        × (sign_of_row (row_read csv_start line) ≡ Sign.Unclear) × (is_row_behind 59 line ≡ false)
        × (has_frame (avr_found line) ≡ true)) }
    ensures prefix { IsAvrLine (codes "rx1: *02E197B00179C3;") }
    ensures carriage { IsAvrLine (13 ∷ codes "*8D40621D58C382D690C8AC2863A7;") }
    ensures text { (line : List ℕ) → IsTextLine line ↔ ((length line ≤ 512) × AllByRecursion (λ byte. byte ≢ 10) line
        × AllByRecursion (λ byte. byte ≢ 26) line
        × ((front back : List ℕ) → line ≡ front ++ 59 ∷ back → marked_sign front ≡ Sign.Unclear)) }
{}

/// The items of short sources of unknown format.
#[tactic(auto, unfolding(crate::specs::Finding::line_sign, crate::specs::Finding::start_sign))]
pub fn formats_in_letters()
    ensures log { any_found (codes "x" ++ 10 ∷ codes "7 2040" ++ 10 ∷ codes "8 2041")
        ≡ Found.Damage ∷ millis_item 7 64 ∷ millis_item 8 65 ∷ [] }
    ensures table { any_found (codes "rawmsg,time" ++ 10 ∷ codes "2040,.5" ++ 10 ∷ codes "2040,1.5")
        ≡ Found.Damage ∷ millis_item 1500 64 ∷ [] }
    ensures beast { any_found (26 ∷ 49 ∷ 10 ∷ 123 ∷ 10 ∷ 0 ∷ 0 ∷ 0 ∷ 5 ∷ 32 ∷ 64 ∷ [])
        ≡ found_in (26 ∷ 49 ∷ 10 ∷ 123 ∷ 10 ∷ 0 ∷ 0 ∷ 0 ∷ 5 ∷ 32 ∷ 64 ∷ []) }
    ensures text { any_found (codes "*2040;*2041;") ≡ bare_item 64 ∷ bare_item 65 ∷ [] }
    ensures none { any_found (codes "2040") ≡ Found.Foreign Stranger.NoFrame ∷ [] }
    ensures nothing { any_found [] ≡ [] }
    ensures other { any_found (codes "MSG,3" ++ 10 ∷ codes "{}") ≡ Found.Foreign Stranger.Sbs ∷ [] }
    ensures last { any_found (codes "{}") ≡ Found.Foreign Stranger.Json ∷ [] }
    ensures outweighed { any_found (codes "MSG,3" ++ 10 ∷ codes "7 2040")
        ≡ Found.Damage ∷ millis_item 7 64 ∷ [] }
    ensures carriage { any_found (13 ∷ codes "*8D40621D58C382D690C8AC2863A7;" ++ 10 ∷ [])
        ≡ avr_found (codes "*8D40621D58C382D690C8AC2863A7;") }
    ensures indented { any_found (codes "  *02E197B00179C3;" ++ 10 ∷ [])
        ≡ Found.Damage ∷ avr_found (codes "*02E197B00179C3;") }
    ensures behind { any_found (codes "rx1: *02E197B00179C3;")
        ≡ Found.Damage ∷ Found.Damage ∷ avr_found (codes "*02E197B00179C3;") }
    ensures cut { any_found (codes "02E197B00179C3;*02E197B00179C3;")
        ≡ Found.Damage ∷ avr_found (codes "*02E197B00179C3;") }
    ensures at_once { any_found (codes "02E197B00179C3" ++ 10 ∷ codes "7 *2040;")
        ≡ avr_found (codes "*02E197B00179C3;") ++ Found.Damage ∷ bare_item 64 ∷ [] }
    ensures by_itself { any_found (codes "02E197B00179C3") ≡ avr_found (codes "*02E197B00179C3;") }
    ensures in_json { any_found (codes "{}*02E197B00179C3;" ++ 10 ∷ codes "{}*02E197B00179C3;")
        ≡ Found.Damage ∷ avr_found (codes "*02E197B00179C3;")
        ++ Found.Damage ∷ avr_found (codes "*02E197B00179C3;") }
    ensures cut_log { any_found (codes "x *02E197B00179C3;" ++ 10 ∷ codes "7 *2040;")
        ≡ Found.Damage ∷ millis_item 7 64 ∷ [] }
    ensures earlier { any_found (codes " *02E197B00179C3;" ++ 10 ∷ codes "x")
        ≡ Found.Damage ∷ avr_found (codes "*02E197B00179C3;") ++ Found.Damage ∷ [] }
    ensures four { any_found (codes "x *2040;" ++ 10 ∷ codes "7 *2040;") ≡ Found.Damage ∷ millis_item 7 64 ∷ [] }
{}

/// The first row with a frame, or with names of columns, shows what kind a table is that cannot be read.
#[tactic(auto, unfolding(crate::specs::Finding::line_sign, crate::specs::Finding::start_sign))]
pub fn tables_in_letters()
    ensures semicolons { any_found (codes "time;rawmsg") ≡ Found.Foreign Stranger.Semicolons ∷ [] }
    ensures decimals { any_found (codes "1,5;x;02E197B00179C3") ≡ Found.Foreign Stranger.Semicolons ∷ [] }
    ensures tabs { any_found (codes "1.5" ++ 9 ∷ codes "02E197B00179C3") ≡ Found.Foreign Stranger.Tabs ∷ [] }
    ensures no_time { any_found (codes "icao24,RawMsg" ++ 10 ∷ codes "x;rawmsg")
        ≡ Found.Foreign Stranger.NoTime ∷ [] }
    ensures no_rawmsg { any_found (codes "time,icao24,lat") ≡ Found.Foreign Stranger.NoRawmsg ∷ [] }
    ensures millis { any_found (codes "1700000000000,x,02E197B00179C3")
        ≡ Found.Foreign Stranger.NoSeconds ∷ [] }
    ensures dates { any_found (codes "2023-11-14T22:13:20Z,x,02E197B00179C3")
        ≡ Found.Foreign Stranger.NoSeconds ∷ [] }
    ensures no_names { any_found (codes "1.5,02E197B00179C3") ≡ Found.Foreign Stranger.NoNames ∷ [] }
    ensures without { any_found (codes "time,lat") ≡ Found.Foreign Stranger.NoFrame ∷ [] }
    ensures outweighed { any_found (codes "rawmsg;time" ++ 10 ∷ codes "1.5,x,2040")
        ≡ Found.Damage ∷ millis_item 1500 64 ∷ [] }
    ensures longest { unread_table (codes "1.5x,x,02E197B00179C3," ++ replicate 490 120) ≡ Some Stranger.NoSeconds }
    ensures longer { unread_table (codes "1.5x,x,02E197B00179C3," ++ replicate 491 120) ≡ None }
{}

/// The definition of timestamps that rise.
pub fn orders_exactly()
    ensures nothing { (moment : ℕ) → RiseFrom moment [] }
    ensures rising { (moment : ℕ) (one : Timed) (more : List Timed)
        → RiseFrom moment (one ∷ more) ↔ ((moment ≤ one.moment) × RiseFrom one.moment more) }
    ensures first { (moment : ℕ) (one : Timed) (more : List Timed) → RiseFrom moment (one ∷ more)
        → moment ≤ one.moment }
{}

/// Calls of an order: squitters that came and were given, in parts of any size, and what a flush gives.
pub fn sortings_exactly()
    ensures sorted { (old new : Sorting) (came given : List Timed) → HasSorted old came given new
        ↔ (((more : List Timed) → given_all old (came ++ more) ≡ given ++ given_all new more)
        × ((more : List Timed) → sorted_all old (came ++ more) ≡ sorted_all new more)
        × (new.given ≡ last_given old.given given)) }
    ensures flushed { (old new : Sorting) (given : List Timed) → HasFlushed old given new
        ↔ ((given ++ new.held ≡ old.held) × (new.given ≡ last_given old.given given)
        × (new.reorder ≡ old.reorder) × (new.latest ≡ old.latest) × (new.late ≡ old.late)) }
    ensures none { (before : Sorting) → AreSorted before [] }
    ensures calls { (before : Sorting) (one : Sorted) (more : List Sorted) → AreSorted before (one ∷ more)
        ↔ (HasSorted before one.came one.given one.after × AreSorted one.after more) }
    ensures called { (before : Sorting) (one : Sorted) → IsCalled before one
        ↔ (HasSorted before one.came one.given one.after
        ⊎ ((one.came ≡ []) × HasFlushed before one.given one.after)) }
    ensures all_called { (before : Sorting) (one : Sorted) (more : List Sorted) → AreCalled before (one ∷ more)
        ↔ (IsCalled before one × AreCalled one.after more) }
    ensures none_called { (before : Sorting) → AreCalled before [] }
{}

/// Examples of an order with a delay of 5 ms: at 12, 8 is not due, and at 13 it is. Then 7 is late, and 8 is not.
pub fn orders_in_numbers()
    ensures given { given_all (nothing_sorted 5) (map timed_at (10 ∷ 8 ∷ 12 ∷ 9 ∷ 13 ∷ 7 ∷ 8 ∷ []))
        ≡ map timed_at (8 ∷ 8 ∷ []) }
    ensures held { (sorted_all (nothing_sorted 5) (map timed_at (10 ∷ 8 ∷ 12 ∷ 13 ∷ 7 ∷ []))).held
        ≡ map timed_at (10 ∷ 12 ∷ 13 ∷ []) }
    ensures late { late_all (nothing_sorted 5) (map timed_at (10 ∷ 8 ∷ 12 ∷ 7 ∷ 13 ∷ 6 ∷ 7 ∷ 8 ∷ []))
        ≡ map timed_at (6 ∷ 7 ∷ []) }
    ensures counted { (sorted_all (nothing_sorted 5) (map timed_at (10 ∷ 8 ∷ 13 ∷ 7 ∷ 6 ∷ 8 ∷ []))).late ≡ 2 }
    ensures last { (sorted_all (nothing_sorted 5) (map timed_at (10 ∷ 8 ∷ 12 ∷ 13 ∷ []))).given ≡ 8 }
    ensures waiting { given_all (nothing_sorted 5) (map timed_at (10 ∷ 8 ∷ 12 ∷ [])) ≡ [] }
{}

/// A row counts as too long only once it holds 512 bytes.
pub fn rows_exactly()
    ensures { (begun : BegunRow) → IsHeld begun ↔ (begun.is_long ≡ true → 512 ≤ length begun.held) }
{}

/// The items of eight short streams: an escape is 26, and `1` is 49.
pub fn streams_in_numbers()
    ensures empty { found_in [] ≡ [] }
    ensures message { found_in (26 ∷ 49 ∷ 0 ∷ 0 ∷ 0 ∷ 0 ∷ 1 ∷ 5 ∷ 128 ∷ 32 ∷ 64 ∷ [])
        ≡ Found.Whole (record { time = Time.Ticks (261); frame = RawFrame.ModeAc (32 ∷ 64 ∷ []) }) ∷ [] }
    ensures doubled { found_in (26 ∷ 49 ∷ 26 ∷ 26 ∷ 0 ∷ 0 ∷ 0 ∷ 0 ∷ 5 ∷ 128 ∷ 26 ∷ 26 ∷ 64 ∷ [])
        ≡ Found.Whole (record { time = Time.Ticks (26 * 2 ^ 40 + 5); frame = RawFrame.ModeAc (26 ∷ 64 ∷ []) }) ∷ [] }
    ensures cut_off { found_in (26 ∷ 51 ∷ 7 ∷ 26 ∷ 49 ∷ 0 ∷ 0 ∷ 0 ∷ 0 ∷ 0 ∷ 5 ∷ 128 ∷ 32 ∷ 64 ∷ [])
        ≡ Found.Damage ∷ Found.Whole (record { time = Time.Ticks (5); frame = RawFrame.ModeAc (32 ∷ 64 ∷ []) }) ∷ [] }
    ensures behind { found_in (26 ∷ 49 ∷ 0 ∷ 0 ∷ 0 ∷ 0 ∷ 0 ∷ 5 ∷ 128 ∷ 32 ∷ 64 ∷ 9 ∷ 9 ∷ [])
        ≡ Found.Whole (record { time = Time.Ticks (5); frame = RawFrame.ModeAc (32 ∷ 64 ∷ []) }) ∷ Found.Damage ∷ [] }
    ensures status { found_in (26 ∷ 52 ∷ 1 ∷ 2 ∷ 3 ∷ []) ≡ [] }
    ensures receiver { found_in (26 ∷ 0xE3 ∷ 1 ∷ 2 ∷ 3 ∷ []) ≡ Found.ReceiverId ∷ [] }
    ensures unknown { found_in (26 ∷ 57 ∷ 1 ∷ 2 ∷ 3 ∷ []) ≡ Found.Damage ∷ [] }
    ensures stray { found_in (1 ∷ 2 ∷ 3 ∷ []) ≡ Found.Damage ∷ [] }
{}

/// The items of short texts of AVR.
pub fn texts_in_letters()
    ensures empty { avr_found [] ≡ [] }
    ensures marked { avr_found (codes "*2040;") ≡ Found.Whole (record {
      time = Time.Unknown;
      frame = RawFrame.ModeAc (32 ∷ 64 ∷ []);
    }) ∷ [] }
    ensures clocked { avr_found (codes "@00000000001A2040;") ≡ Found.Whole (record {
      time = Time.Ticks 26;
      frame = RawFrame.ModeAc (32 ∷ 64 ∷ []);
    }) ∷ [] }
    ensures signalled { avr_found (codes "<00000000001a802040;") ≡ Found.Whole (record {
      time = Time.Ticks 26;
      frame = RawFrame.ModeAc (32 ∷ 64 ∷ []);
    }) ∷ [] }
    ensures bare { avr_found (codes "2040") ≡ Found.Whole (record {
      time = Time.Unknown;
      frame = RawFrame.ModeAc (32 ∷ 64 ∷ []);
    }) ∷ [] }
    ensures damaged { avr_found (codes "*20;2040;*") ≡ Found.Damage ∷ Found.Damage ∷ Found.Damage ∷ [] }
{}

/// The items of a short log and of short tables.
pub fn rows_in_letters()
    ensures log { rows_from Layout.Log [] (codes "7 *2040;") ≡ Found.Whole (record {
      time = Time.Millis 7;
      frame = RawFrame.ModeAc (32 ∷ 64 ∷ []);
    }) ∷ [] }
    ensures table { rows_from csv_start [] (codes "1.5,x,2040") ≡ Found.Whole (record {
      time = Time.Millis 1500;
      frame = RawFrame.ModeAc (32 ∷ 64 ∷ []);
    }) ∷ [] }
    ensures names { rows_from csv_start [] (codes "RawMsg,mintime"
        ++ 10 ∷ codes "2040,2.00099") ≡ Found.Whole (record {
          time = Time.Millis 2000;
          frame = RawFrame.ModeAc (32 ∷ 64 ∷ []);
        }) ∷ [] }
    ensures damaged { rows_from csv_start [] (codes "1.5x,x,2040") ≡ Found.Damage ∷ [] }
{}

/// The unit of recordings with the squitters of one aircraft, which come at regular times. Sixteen gaps are the fewest.
pub fn units_exactly()
    ensures seconds { told_unit false (regular 17 1795965328 10) ≡ Some Unit.Seconds }
    ensures few { told_unit false (regular 16 1795965328 10) ≡ None }
    ensures slow { told_unit false (regular 17 1795965328 99) ≡ Some Unit.Seconds }
    ensures dense { told_unit false (regular 17 1795965328 100) ≡ None }
    ensures from_zero { told_unit false (regular 17 5 49) ≡ Some Unit.Seconds }
    ensures usual { told_unit false (regular 17 5 50) ≡ None }
    ensures micros { told_unit false (regular 17 0 100000) ≡ Some Unit.Microseconds }
    ensures sparse { told_unit false (regular 17 0 99999) ≡ None }
    ensures hours { told_unit false (regular 17 0 43200000) ≡ None }
    ensures nanos { told_unit false (regular 17 0 100000000) ≡ Some Unit.Nanoseconds }
    ensures days { told_unit false (regular 17 0 86400000) ≡ None }
    ensures in_ms { told_unit false (regular 17 1795965328000 500000) ≡ None }
    ensures in_us { told_unit false (regular 17 1795965328000000 50000) ≡ Some Unit.Microseconds }
    ensures in_ns { told_unit false (regular 17 1795965328000000000 50000) ≡ Some Unit.Nanoseconds }
    ensures zeros { told_unit true (regular 2 0 0) ≡ Some Unit.AllZero }
    ensures one { told_unit true (regular 1 0 0) ≡ None }
    ensures gps { told_unit true (regular 17 0 89479) ≡ Some Unit.Gps }
    ensures clock { told_unit true (regular 17 0 9999) ≡ None }
    ensures unclocked { told_unit false (regular 17 0 89479) ≡ None }
    ensures live { unit_of true true (watched_all nothing_watched (regular 640 5 10007)) ≡ None }
    ensures gps_live { unit_of true true (watched_all nothing_watched (regular 640 88000 89479))
        ≡ Some Unit.Gps }
    ensures begins { told_unit true (regular 17 89478 89479) ≡ Some Unit.Gps }
    ensures left_out { told_unit true (regular 17 83886 89479) ≡ None }
    ensures others { watched_one nothing_watched (record { moment = 5; frame = replicate 14 0 }) ≡ nothing_watched }
{}
