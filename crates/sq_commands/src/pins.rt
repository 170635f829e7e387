//! Guards of the definitions: each has one value, some value or an exact condition, so none can be weakened unnoticed.
//! A function with an empty body does nothing: its contract is the statement.
ghost use Rattle.std.specs.Prelude.{◌≡◌, ◌≢◌, ◌≤◌, ◌↔◌, ◌⊎◌, ◌++◌, ◌∷◌, [], List, ℕ, Contains, Err, IsTrue, MatchOption, None, Ok};
ghost use Rattle.std.specs.Prelude.{◌==◌, Option, Result, Some, codes, false, find, if◌then◌else◌, map, true};
ghost use Rattle.std.specs.List.{AllZip};
ghost use Rattle.sq_text.specs.declared.rows.Form.TheVariants as forms;
ghost use Rattle.sq_text.specs.Rows.{Blank, Number, Word, cells, header_text, row_room};
ghost use Rattle.sq_devices.specs.Changes.{FailedWithin, WroteLast, WroteNothing, WroteOrFailed, taken_from};
ghost use Rattle.sq_devices.specs.Changes.{written_on};
ghost use Rattle.sq_devices.specs.Clocks.{times_of};
ghost use Rattle.sq_feed.specs.declared.machine.Format.{Format as SourceFormat};
ghost use Rattle.sq_log.specs.Answers.{WantsAt};
ghost use Rattle.sq_log.specs.Content.{Answer as Answered, Text, answer_by, content};
ghost use Rattle.sq_log.specs.Runs.{AreAnswered, IsClosedBy, WroteAnswers};
ghost use Rattle.sq_log.specs.Faults.{run_fault_text};
ghost use Rattle.sq_log.specs.declared.run.RunFault.{RunFault};
ghost use Rattle.sq_log.specs.declared.run.RunFault.TheVariants.{Memory, Read, Write};
ghost use Rattle.sq_log.specs.declared.log.Tally.{Tally};
ghost use Rattle.sq_message.specs.Parts.{squitter_parts};
ghost use Rattle.sq_message.specs.Places.{IsPosition};
ghost use Rattle.sq_message.specs.declared.received.Received.{Received};
ghost use Rattle.sq_text.specs.Timed.{IsTimedText, TimedReader};
ghost use Rattle.sq_text.specs.declared.faults.LineFault.{LineFault};
ghost use Rattle.sq_track.specs.Faults.{track_fault_label};
ghost use Rattle.sq_track.specs.declared.heard.TrackFault.TheVariants as tracks;
ghost use Rattle.sq_track.specs.ByEntries.{IsWelcomeTo};
ghost use Rattle.sq_track.specs.Held.{Held, StandsFor, made_with, present_of, settings};
ghost use Rattle.sq_track.specs.History.{History};
ghost use Rattle.sq_track.specs.Replies.{IsAcceptable};
ghost use Rattle.sq_track.specs.Tame.{IsSlow, IsSlowForFollowing};
ghost use Rattle.sq_track.specs.Worlds.{Arrival, ArisesFrom, IfHeard, IsTruePlaceHeard, World, received_of};
ghost use Rattle.sq_commands.specs.declared.arguments.TrackOptions.{TrackOptions as Options};
ghost use Rattle.sq_commands.specs.declared.formats.Format.{Format};
ghost use Rattle.sq_commands.specs.declared.status.Status.{Status as Ending};
ghost use Rattle.sq_commands.specs.declared.status.Status.TheVariants.{Broken, Good, Misused, Refused};
ghost use Rattle.sq_commands.specs.BrokenOff.{BrokenAside, BrokenFeeds};
ghost use Rattle.sq_commands.specs.Check.{Checks, IsCheckRunIn, IsChecked, IsNoFormat, run_reply};
ghost use Rattle.sq_commands.specs.declared.feed.FeedOptions.{FeedOptions};
ghost use Rattle.sq_commands.specs.Feed.{IsFed, IsFeedRunIn, IsNoSource, IsSourceWord};
ghost use Rattle.sq_commands.specs.Formats.{IsFormatWord, Writers, format_number, told_by};
ghost use Rattle.sq_commands.specs.Heard.{heard_telling, track_columns};
ghost use Rattle.sq_commands.specs.Laws.{OneEncodeFault, OneFeedFault, OnePositionFault, OneSiteFault, OneTrackFault};
ghost use Rattle.sq_commands.specs.Outputs.{effects, outputs};
ghost use Rattle.sq_commands.specs.Replies.{IsDelivered, IsReported, ReplyParts, answered, reporting};
ghost use Rattle.sq_commands.specs.Runs.{IsStreamed};
ghost use Rattle.sq_commands.specs.Squitters.{check_columns, squitter_telling};
ghost use Rattle.sq_commands.specs.SlowAnswers.{AreTrueAfter, AreTrueAnswers, heard_in, received_in};
ghost use Rattle.sq_commands.specs.Summary.{advice, are_all_damaged, counts_text, part, stranger_text, summary_text};
ghost use Rattle.sq_commands.specs.Summary.{summed, unit_line};
ghost use Rattle.sq_commands.specs.declared.feed.FeedEnd.{FeedEnd};
ghost use Rattle.sq_commands.specs.Holding.{AreHeardLinesBy, OneListOfAnswers, SomeHolding};
ghost use Rattle.sq_commands.specs.Track.{HasTracked, IsLogRun, IsTracked, IsTrackedBy};
ghost use Rattle.sq_log.specs.declared.log.Answer.{Answer};
ghost use Rattle.sq_commands.specs.Tracking.{OnePast, PastExactly, SomeTracking, track_manner};

use crate::answers::HeardSquitter;
use crate::status::Status;
use sq_devices::{Clock, Sink, Source};
use sq_feed::Unit;

/// There is a way to write places and altitudes.
pub fn some_writers()
    ensures { Writers }
{}

/// The arguments of a position, of a site, of `encode`, of `track` and of `feed` have at most one first fault.
pub fn one_argument_fault()
    ensures position { OnePositionFault }
    ensures site { OneSiteFault }
    ensures encode { OneEncodeFault }
    ensures track { OneTrackFault }
    ensures feed { OneFeedFault }
{}

/// A word names at most one format, and a number of the library too. A format is `lines`, `csv` or `json`, and one of
/// `feed` is `auto`, `beast`, `avr`, `csv` or `log`.
pub fn one_format()
    ensures one { (word : Option (List ℕ)) (a b : Format) → IsFormatWord word a → IsFormatWord word b → a ≡ b }
    ensures none { (word : Option (List ℕ)) → IsNoFormat word
        ↔ (word ≢ None) × (word ≢ Some (codes "lines")) × (word ≢ Some (codes "csv")) × (word ≢ Some (codes "json")) }
    ensures number { (number : ℕ) (a b : Format) → number ≡ format_number a → number ≡ format_number b → a ≡ b }
    ensures one_source { (word : Option (List ℕ)) (a b : Option SourceFormat) → IsSourceWord word a
        → IsSourceWord word b → a ≡ b }
    ensures no_source { (word : Option (List ℕ)) → IsNoSource word ↔ (word ≢ None) × (word ≢ Some (codes "auto"))
        × (word ≢ Some (codes "beast")) × (word ≢ Some (codes "avr")) × (word ≢ Some (codes "csv"))
        × (word ≢ Some (codes "log")) }
{}

/// The header of each table, column by column. A row of each table fits a line's text.
pub fn columns_exactly()
    ensures check { header_text forms.Csv check_columns
        ≡ codes "line,answer,address,ca,type,kind,parity,lat_code,lon_code,time,"
        ++ codes "feet,altitude,status,flag,movement,track_status,track,me\n" }
    ensures track { header_text forms.Csv track_columns ≡ codes "line,moment,answer,address,kind,lat,lon,feet\n" }
    ensures room { (row_room check_columns ≤ 512) × (row_room track_columns ≤ 512) }
{}

/// A row of `track` in JSON: each value follows the name of its column.
#[tactic(auto, unfolding(sq_text::specs::Rows::cell))]
pub fn track_row_in_letters()
    ensures { cells forms.Json track_columns (record {
      moment = Number (codes "1");
      answer = Word (codes "fix");
      address = Word (codes "4840D6");
      kind = Word (codes "air");
      lat = Number (codes "2");
      lon = Number (codes "3");
      feet = Blank;
    })
        ≡ codes ",\"moment\":1,\"answer\":\"fix\",\"address\":\"4840D6\",\"kind\":\"air\","
        ++ codes "\"lat\":2,\"lon\":3,\"feet\":null" }
{}

/// A row of `check` in JSON: each value follows the name of its column.
#[tactic(auto, unfolding(sq_text::specs::Rows::cell))]
pub fn check_row_in_letters()
    ensures { cells forms.Json check_columns (record {
      answer = Word (codes "ok");
      address = Word (codes "4840D6");
      ca = Number (codes "1");
      type_code = Number (codes "2");
      kind = Word (codes "air");
      parity = Word (codes "odd");
      lat_code = Number (codes "3");
      lon_code = Number (codes "4");
      time = Number (codes "5");
      feet = Number (codes "6");
      altitude = Word (codes "7");
      status = Number (codes "8");
      flag = Number (codes "9");
      movement = Number (codes "10");
      track_status = Number (codes "11");
      track = Number (codes "12");
      me = Blank;
    })
        ≡ codes ",\"answer\":\"ok\",\"address\":\"4840D6\",\"ca\":1,\"type\":2,\"kind\":\"air\","
        ++ codes "\"parity\":\"odd\",\"lat_code\":3,\"lon_code\":4,\"time\":5,\"feet\":6,\"altitude\":\"7\","
        ++ codes "\"status\":8,\"flag\":9,\"movement\":10,\"track_status\":11,\"track\":12,\"me\":null" }
{}

/// Compares two statuses by `==`, which is true exactly if they are the same.
pub fn equal_statuses(status: &Status, other: &Status) -> bool
    ensures { IsTrue result ↔ (status.now ≡ other.now) }
{
    status == other
}

/// A tracker has a past for each history that it represents, and one for its contents. Its contents give one list of
/// answers to lines.
pub fn pasts_exactly()
    ensures history { SomeTracking }
    ensures holding { SomeHolding }
    ensures past { PastExactly }
    ensures one { OneListOfAnswers }
{}

/// The reply of `track` to a squitter follows from the tracker's settings and its history alone.
pub fn one_past()
    ensures { OnePast }
{}

/// A run of `check`: some lines were answered, each by itself, and none needs memory. The result says which, and how
/// much of their answers was written.
pub fn checked_exactly<S: Source, K: Sink>()
    ensures { (format : Format) (result : Result Tally RunFault) (from to : S) (old new : K)
        → IsChecked (squitter_telling format) result (taken_from S.Source from to) (written_on K.Sink old new)
        ↔ (IsClosedBy result (written_on K.Sink old new) × ((lines : List (List ℕ))
        × AreAnswered (λ line. ⊥) result (taken_from S.Source from to) lines
        × ((by : Checks) → WroteAnswers result (written_on K.Sink old new)
        (told_by (squitter_telling format) by.writers) (map (answer_by by.reader.read) lines)))) }
{}

/// A run of `track`: the tracker heard some lines, and may want memory for the next one if the run stopped there. The
/// result says which lines, and how much of their answers was written.
pub fn tracked_exactly<S: Source, K: Sink>()
    ensures ran { (format : Format) (result : Result Tally RunFault) (from to : S) (old new : K) (first last : Held)
        → IsTracked (heard_telling format) result (taken_from S.Source from to) (written_on K.Sink old new) first last
        ↔ (IsClosedBy result (written_on K.Sink old new) × ((lines : List (List ℕ))
        × AreAnswered (WantsAt track_manner last) result (taken_from S.Source from to) lines
        × HasTracked (heard_telling format) first last result (written_on K.Sink old new) lines)) }
    ensures wants { (tracker : Held) (line : List ℕ) → WantsAt track_manner tracker line
        ↔ ((text : List ℕ) × (content line ≡ Text text) × ((timed : Received) × IsTimedText text timed
        × (IsPosition (squitter_parts timed.squitter).me
        × (find (λ entry. entry.0 == (squitter_parts timed.squitter).address) (present_of tracker) ≡ None))
        × ((h : History) → StandsFor tracker h
        → IsAcceptable (settings tracker) h timed.moment timed.squitter)
        × IsWelcomeTo timed.moment timed.squitter tracker)) }
    ensures entries { (format : Format) (result : Result Tally RunFault) (from to : S) (old new : K)
        (first last : Held) → IsTrackedBy (heard_telling format) result (taken_from S.Source from to)
        (written_on K.Sink old new) first last
        ↔ (IsClosedBy result (written_on K.Sink old new) × ((lines : List (List ℕ))
        × AreAnswered (WantsAt track_manner last) result (taken_from S.Source from to) lines
        × ((reader : TimedReader) (writers : Writers) → (answers : List (Answered HeardSquitter))
        × AreHeardLinesBy reader first lines answers last
        × WroteAnswers result (written_on K.Sink old new) (told_by (heard_telling format) writers) answers))) }
{}

/// The reply of a run of `check` or of `track`. At the end of its input it is good exactly if no line was refused, with
/// nothing reported. If it stopped early it is broken, and the reason is reported in one line.
pub fn ended_exactly<S: Source, K: Sink, F: Sink>()
    ensures whole { (tally : Tally) (status : Ending) (before after : F)
        → IsReported (run_reply (Ok tally)) status (written_on F.Sink before after)
        ↔ ((status ≡ (if tally.refused == 0 then Good else Refused)) × WroteNothing (written_on F.Sink before after)) }
    ensures broken { (fault : RunFault) (status : Ending) (before after : F)
        → IsReported (run_reply (Err fault)) status (written_on F.Sink before after)
        ↔ ((status ≡ Broken)
        × WroteOrFailed (written_on F.Sink before after) (run_fault_text fault ++ codes "\n")) }
    ensures words { (run_fault_text Read ≡ codes "read failed") × (run_fault_text Write ≡ codes "write failed")
        × (run_fault_text Memory ≡ codes "out of memory") }
    ensures memory { run_fault_text Memory ≡ track_fault_label tracks.Memory }
    ensures checked { (format : Format) (reply : ReplyParts) (from to : S) (old new : K)
        → IsCheckRunIn format reply (taken_from S.Source from to) (written_on K.Sink old new)
        ↔ ((result : Result Tally RunFault)
        × IsChecked (squitter_telling format) result (taken_from S.Source from to) (written_on K.Sink old new)
        × (reply ≡ run_reply result)) }
    ensures tracked { (options : Options) (reply : ReplyParts) (from to : S) (old new : K)
        → IsLogRun options reply (taken_from S.Source from to) (written_on K.Sink old new)
        ↔ ((first last : Held) × StandsFor first []
        × (settings first ≡ made_with options.limit options.window options.site) × ((result : Result Tally RunFault)
        × IsTracked (heard_telling options.format) result (taken_from S.Source from to) (written_on K.Sink old new)
        first last × (reply ≡ run_reply result))) }
{}

/// A run of a command that reads the input: its reply is reported, and nothing else is written to the sink for faults.
pub fn streamed_exactly<S: Source, K: Sink, F: Sink>()
    ensures { (reply : ReplyParts) (status : Ending) (from to : S) (old new : K) (before after : F)
        → IsStreamed (λ one input output. one ≡ reply) status
        (effects S.Source from to (outputs K.Sink F.Sink old new before after))
        ↔ IsReported reply status (written_on F.Sink before after) }
{}

/// The delivery of a reply. An output was written whole and finished, with nothing reported; or its sink failed within
/// it, and that was reported. An error was reported, whole or up to where its sink failed, with nothing written.
#[tactic(auto, unfolding(crate::specs::Replies::IsDelivered))]
pub fn delivered_exactly<K: Sink, F: Sink>()
    ensures answer { (text : List ℕ) (status : Ending) (old new : K) (before after : F)
        → IsDelivered (answered text) status (outputs K.Sink F.Sink old new before after)
        ↔ (((status ≡ Good) × WroteLast (written_on K.Sink old new) text
        × WroteNothing (written_on F.Sink before after))
        ⊎ ((status ≡ Broken) × FailedWithin (written_on K.Sink old new) text
        × WroteOrFailed (written_on F.Sink before after) (codes "write failed\n"))) }
    ensures refusal { (ending status : Ending) (line : List ℕ) (old new : K) (before after : F)
        → IsDelivered (reporting ending line) status (outputs K.Sink F.Sink old new before after)
        ↔ ((status ≡ ending) × WroteNothing (written_on K.Sink old new)
        × WroteOrFailed (written_on F.Sink before after) (line ++ codes "\n")) }
{}

/// A command that reads no input and stopped early left the input alone. Its output failed, and that was reported in
/// one line.
pub fn broken_aside_exactly<S: Source, K: Sink, F: Sink>()
    ensures { BrokenAside S.Source K.Sink F.Sink }
{}

/// A run of `feed` is good only if all lines were written, not all items are damaged, and the summary was reported. It
/// is refused only if the input is no feed, or all its items are damaged, which was reported. It never ends as misused.
/// A broken run wrote the lines of all items that were read until a get failed, or a prefix of them.
pub fn feed_ended_exactly<C: Clock, S: Source, K: Sink, F: Sink>()
    ensures good { (options : FeedOptions) (first last : C) (from to : S) (old new : K) (before after : F)
        → IsStreamed (IsFeedRunIn options (times_of C.Clock first last)) Good
        (effects S.Source from to (outputs K.Sink F.Sink old new before after))
        → (end : FeedEnd) × IsFed options (times_of C.Clock first last) (Ok end)
        (taken_from S.Source from to) (written_on K.Sink old new)
        × (end.stranger ≡ None) × (are_all_damaged end.counts ≡ false)
        × WroteOrFailed (written_on F.Sink before after) (summary_text end ++ codes "\n") }
    ensures refused { (options : FeedOptions) (first last : C) (from to : S) (old new : K) (before after : F)
        → IsStreamed (IsFeedRunIn options (times_of C.Clock first last)) Refused
        (effects S.Source from to (outputs K.Sink F.Sink old new before after))
        → (end : FeedEnd) × IsFed options (times_of C.Clock first last) (Ok end)
        (taken_from S.Source from to) (written_on K.Sink old new)
        × MatchOption end.stranger ((are_all_damaged end.counts ≡ true)
        × WroteOrFailed (written_on F.Sink before after) (summary_text end ++ codes "\n"))
        (λ one. WroteOrFailed (written_on F.Sink before after) (stranger_text one ++ codes "\n")) }
    ensures used { (options : FeedOptions) (first last : C) (from to : S) (old new : K) (before after : F)
        → ¬ IsStreamed (IsFeedRunIn options (times_of C.Clock first last)) Misused
        (effects S.Source from to (outputs K.Sink F.Sink old new before after)) }
    ensures broken { (first last : C) → BrokenFeeds S.Source K.Sink F.Sink (times_of C.Clock first last) }
{}

/// Answers are true if each `fix` or `followed` is the true place and `far` does not occur, in each world that is slow
/// for the tracker and for following. The history and the good lines come from that world.
pub fn true_exactly()
    ensures after { (tracker : Held) (history : History) (answers : List (Answer HeardSquitter))
        → AreTrueAfter tracker history answers ↔ ((world arrivals : World) → ArisesFrom world history
        → IsSlow tracker.window tracker.site world → IsSlowForFollowing tracker.window world
        → ((arrival : Arrival) → Contains arrivals arrival → Contains world arrival)
        → map received_of arrivals ≡ received_in answers
        → AllZip (IfHeard IsTruePlaceHeard) arrivals (heard_in answers)) }
    ensures answers { (tracker : Held) (answers : List (Answer HeardSquitter)) → AreTrueAnswers tracker answers
        ↔ ((history : History) → StandsFor tracker history → AreTrueAfter tracker history answers) }
    ensures good { (first last : HeardSquitter) (fault : LineFault)
        → (let one : Answer HeardSquitter = record { number = 1; verdict = Ok first } in
        let two : Answer HeardSquitter = record { number = 2; verdict = Err fault } in
        let three : Answer HeardSquitter = record { number = 3; verdict = Ok last } in
        (received_in (one ∷ two ∷ three ∷ []) ≡ first.timed ∷ last.timed ∷ [])
        × (heard_in (one ∷ two ∷ three ∷ []) ≡ Ok first.heard ∷ Ok last.heard ∷ [])) }
{}

/// The summary is a line on the unit, the counts, how often times went back, and what to do. Times that were set aside
/// show several clocks only where a clock told them, and where they are more than four, and more than one for 20 that
/// were written.
pub fn summary_exactly()
    ensures whole { (end : FeedEnd) → summary_text end
        ≡ unit_line end.unit ++ counts_text end.counts ++ part end.breaks (codes " jumps back") ++ advice end }
    ensures back { advice (record (summed 9 0 true) { breaks = 2 })
        ≡ codes "; timestamps behind a jump back are moved on: try --leap and --reorder to sort them" }
    ensures ahead { advice (record (summed 9 0 false) { is_ahead = true })
        ≡ codes "; the clock runs ahead of the arrivals: try --arrival, or read a recording from its file" }
    ensures unit { unit_line (Some Unit.Seconds)
        ≡ codes "the timestamps of this log seem to be seconds; they have to be milliseconds\n" }
    ensures none { unit_line None ≡ [] }
    ensures clocks { advice (summed 100 6 false) ≡ codes "; try --arrival: the source seems to have several clocks" }
    ensures few { advice (summed 100 5 false) ≡ [] }
    ensures four { advice (summed 9 4 false) ≡ [] }
    ensures dated { advice (summed 100 6 true) ≡ [] }
{}
