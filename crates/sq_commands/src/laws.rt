//! Laws over the definitions that the contracts name.
ghost use Rattle.std.specs.Prelude.{◌≡◌, ◌∷◌, [], List, ℕ, IfSome, None, Option, Result, Some, false};
ghost use Rattle.sq_devices.specs.Changes.{written_on};
ghost use Rattle.sq_devices.specs.Clocks.{times_of};
ghost use Rattle.sq_log.specs.declared.run.RunFault.{RunFault};
ghost use Rattle.sq_log.specs.declared.log.Tally.{Tally};
ghost use Rattle.sq_text.specs.Timed.{TimedReader};
ghost use Rattle.sq_track.specs.Held.{Held, StandsFor, settings};
ghost use Rattle.sq_track.specs.History.{History};
ghost use Rattle.sq_commands.specs.Feed.{WritesAllSorted};
ghost use Rattle.sq_commands.specs.Requests.{Asked};
ghost use Rattle.sq_commands.specs.declared.status.Status.{Status as Ending};
ghost use Rattle.sq_commands.specs.Formats.{Telling, Writers};
ghost use Rattle.sq_commands.specs.OneRun.{AlikeOutputsEndAlike, AnyDevices, OneRun, OneRunAside};
ghost use Rattle.sq_commands.specs.Outputs.{effects, outputs};
ghost use Rattle.sq_commands.specs.SlowAnswers.{AreTrueAfter, AreTrueAnswers};
ghost use Rattle.sq_commands.specs.Runs.{IsRun, IsTimedRun};
ghost use Rattle.sq_log.specs.Content.{Answer as LineAnswer};
ghost use Rattle.sq_log.specs.Logs.{AreAnswers, told_from};
ghost use Rattle.sq_log.specs.declared.log.Answer.{Answer};
ghost use Rattle.sq_commands.specs.Track.{HasTracked};
ghost use Rattle.sq_commands.specs.Holding.{AreHeardLinesBy};
ghost use Rattle.sq_commands.specs.Tracking.{AreHeardLines, track_manner};

use crate::answers::HeardSquitter;
use crate::formats::Numbered;
use crate::track::Hearing;
use sq_devices::{Clock, Sink, Source};
use sq_log::{Log, Step};
use sq_track::Tracker;

/// A request has one run, whatever the devices are. If no device failed and memory was granted, two runs on the same
/// recorded input have one status, write the same, report the same, and leave the same of the input. Commands that read
/// no input may have any.
pub fn one_run<S: Source, K: Sink, F: Sink, T: Source, L: Sink, G: Sink>()
    ensures alike { OneRun S.Source K.Sink F.Sink T.Source L.Sink G.Sink }
    ensures aside { OneRunAside S.Source K.Sink F.Sink T.Source L.Sink G.Sink }
{}

/// On an input that is not live a clock changes nothing: a run by it is a run on a recorded input.
pub fn recorded_has_no_arrivals<C: Clock, S: Source, K: Sink, F: Sink>()
    ensures { (words : Asked) (status : Ending) (first last : C) (from to : S) (old new : K) (before after : F)
        → C.live first ≡ false → IsTimedRun (times_of C.Clock first last) words status
        (effects S.Source from to (outputs K.Sink F.Sink old new before after))
        → IsRun words status (effects S.Source from to (outputs K.Sink F.Sink old new before after)) }
{}

/// Any input, output and sink for faults can be used together, so the law of one run covers all devices.
pub fn any_devices<S: Source, K: Sink, F: Sink>()
    ensures { AnyDevices S K F }
{}

/// The same writing to two outputs with the same bytes leaves them with the same bytes.
pub fn alike_outputs_end_alike<K: Sink, L: Sink>()
    ensures { AlikeOutputsEndAlike K.Sink L.Sink }
{}

/// In a slow world, all answers of a log machine of `track` are true, whatever lines it was given, in pieces of any
/// size.
pub fn true_answers()
    ensures { (start now : Held) (tally : Tally) (lines : List (List ℕ)) (answers : List (Answer HeardSquitter))
        → AreAnswers track_manner start now tally lines answers → AreTrueAnswers start answers }
{}

/// All answers of a log machine of `track` follow from what its tracker held at the start, whatever that was, and in
/// pieces of any size. This needs no history, so it holds of each restored tracker.
pub fn answers_by_entries()
    ensures { (start now : Held) (tally : Tally) (lines : List (List ℕ)) (answers : List (Answer HeardSquitter))
        (reader : TimedReader) → AreAnswers track_manner start now tally lines answers
        → (list : List (LineAnswer HeardSquitter)) × AreHeardLinesBy reader start lines list now
        × (answers ≡ told_from 1 list) }
{}

/// Takes the first step of a log machine of `track`. Its answer is true in a slow world, by the promise of the step.
pub fn first_answer_is_true(
    tracker: &mut Tracker,
    piece: &[u8],
) -> Option<sq_log::Answer<HeardSquitter>>
    ensures { IfSome result (λ answer. AreTrueAnswers tracker.old (answer ∷ [])) }
{
    let job = Hearing {
        tracker,
        format: &Numbered,
    };
    match Log::new(job).step(piece) {
        Step::Answered(_, answer) => Some(answer),
        _ => None,
    }
}

/// In a slow world, the answers of a tracker to lines after a history are true.
pub fn heard_lines_are_true<K: Sink>()
    ensures { (telling : Telling HeardSquitter) (old new : Held) (lines : List (List ℕ)) (reader : TimedReader)
        (writers : Writers) (history : History) (result : Result Tally RunFault) (first last : K)
        → HasTracked telling old new result (written_on K.Sink first last) lines → StandsFor old history
        → (answers : List (LineAnswer HeardSquitter)) × (next : History)
        × AreHeardLines reader (settings old) history lines answers next
        × AreTrueAfter old history (told_from 1 answers) }
{}

/// The lines that a whole run of `feed` writes are those of all its squitters, sorted by timestamp. So none is late,
/// with any `reorder`.
pub fn feed_writes_all_sorted()
    ensures { WritesAllSorted }
{}
