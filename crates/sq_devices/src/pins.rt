//! Guards of the definitions: each has one value, some value or an exact condition, so none can be weakened unnoticed.
//! A function with an empty body does nothing: its contract is the statement.
ghost use Rattle.std.specs.Prelude.{◌≡◌, ◌↔◌, ◌⊎◌, ◌+◌, ◌++◌, ◌<◌, ◌≤◌, ◌∷◌, [], List, ℕ, Some, length, take, true};
ghost use Rattle.std.specs.Prelude.{Ok, Err};
ghost use Rattle.std.specs.List.{All, concat};
ghost use Rattle.std.specs.Io.KnownBytes.{Appends, Consumes, IsAtEnd, Keeps};
ghost use Rattle.sq_devices.specs.Calls.{Calls, HasPut, HasSent};
ghost use Rattle.sq_devices.specs.Changes.{FailedWithin, FinishedOnce, Sent, Unfinished, Wrote, WroteLast};
ghost use Rattle.sq_devices.specs.Changes.{WroteNothing};
ghost use Rattle.sq_devices.specs.Changes.{GotAtMost, GotUpToEnd, TookAll, TookNothing, TookPart, TookReported};
ghost use Rattle.sq_devices.specs.Changes.{TookSome};
ghost use Rattle.sq_devices.specs.Changes.{WroteOrFailed, taken_from, written_on};
ghost use Rattle.sq_devices.specs.Device.{AppendsOrHides, ConsumesOrHides, IsPrefixOf, KeepsOrHides, UsesGet};
ghost use Rattle.sq_devices.specs.Device.{WroteFront, most_gets};
ghost use Rattle.sq_devices.specs.Clocks.{recorded, times_of};
ghost use Rattle.sq_devices.specs.declared.readers.Reading.{Reading};
ghost use Rattle.sq_devices.specs.declared.writers.Writing.{Writing};
ghost use Rattle.sq_devices.specs.Streams.{IsFinish, IsGiven, IsTaken, finishes_of, gets_of, reader_of, writer_of};

use crate::{Clock, NoClock, Reading, Sink, Source, Writing};
use std::io::{Read, Write};

/// The words for a sink in terms of its bytes and finishes: it appended the text, and it was finished once or not.
pub fn written_exactly<K: Sink>()
    ensures wrote { (old new : K) (text : List ℕ) → Wrote (written_on K.Sink old new) text
        ↔ Appends (K.written old) (K.written new) text }
    ensures finished { (old new : K) → FinishedOnce (written_on K.Sink old new)
        ↔ (K.finishes new ≡ K.finishes old + 1) }
    ensures unfinished { (old new : K) → Unfinished (written_on K.Sink old new) ↔ (K.finishes new ≡ K.finishes old) }
    ensures nothing { (old new : K) → WroteNothing (written_on K.Sink old new)
        ↔ (Appends (K.written old) (K.written new) [] × (K.finishes new ≡ K.finishes old)) }
{}

/// The words for whole texts in terms of calls: puts of their parts, and then a finish.
pub fn sent_exactly<K: Sink>()
    ensures put { (old new : K) (text : List ℕ) → HasPut K.Sink old new text
        ↔ (Appends (K.written old) (K.written new) text
        × ((texts : List (List ℕ)) × Calls K.Took old new texts × (concat texts ≡ text))) }
    ensures then_finished { (old new : K) (text : List ℕ) → HasSent K.Sink old new text
        ↔ ((last : K) × HasPut K.Sink old last text × K.Finished last new) }
    ensures sent { (old new : K) (text : List ℕ) → Sent (written_on K.Sink old new) text
        ↔ (Appends (K.written old) (K.written new) text × HasSent K.Sink old new text) }
    ensures last { (old new : K) (text : List ℕ) → WroteLast (written_on K.Sink old new) text
        ↔ (Sent (written_on K.Sink old new) text × (K.finishes new ≡ K.finishes old + 1)) }
{}

/// The words for a failed sink: it appended a prefix of the text.
pub fn failed_exactly<K: Sink>()
    ensures within { (old new : K) (text : List ℕ) → FailedWithin (written_on K.Sink old new) text
        ↔ ((K.has_failed new ≡ true) × WroteFront (K.written old) (K.written new) text
        × (K.finishes new ≡ K.finishes old)) }
    ensures either { (old new : K) (text : List ℕ) → WroteOrFailed (written_on K.Sink old new) text
        ↔ (WroteLast (written_on K.Sink old new) text ⊎ FailedWithin (written_on K.Sink old new) text) }
{}

/// The words for a source in terms of its bytes and gets: it was left alone, or read a number of times at most.
pub fn taken_exactly<S: Source>()
    ensures nothing { (old new : S) → TookNothing (taken_from S.Source old new) ↔ ((S.to_come new ≡ S.to_come old)
        × (S.has_failed new ≡ S.has_failed old) × (S.gets_left new ≡ S.gets_left old)) }
    ensures most { (old new : S) (n : ℕ) → GotAtMost (taken_from S.Source old new) n
        ↔ (S.gets_left old ≤ S.gets_left new + n) }
    ensures up_to_end { (old new : S) (pieces : List (List ℕ)) → GotUpToEnd (taken_from S.Source old new) pieces
        ↔ (Calls S.Gave old new (pieces ++ [] ∷ []) × All (λ piece. 0 < length piece) pieces
        × (S.gets_left old ≡ S.gets_left new + (length pieces + 1))) }
    ensures reported { (old new : S) (bytes came : List ℕ) → S.to_come old ≡ Some bytes
        → TookReported (taken_from S.Source old new) (λ taken. taken ≡ came)
        ↔ ((S.to_come new ≡ Some []) × (bytes ≡ came)) }
{}

/// The words for the bytes taken from a source, to its end or in part.
pub fn bytes_taken_exactly<S: Source>()
    ensures all { (old new : S) (came : List ℕ) → TookAll (taken_from S.Source old new) (λ bytes. bytes ≡ came)
        ↔ ((pieces : List (List ℕ)) × GotUpToEnd (taken_from S.Source old new) pieces
        × Consumes (S.to_come old) (S.to_come new) came × IsAtEnd (S.to_come new) × (concat pieces ≡ came)) }
    ensures some { (old new : S) (came : List ℕ) → TookSome (taken_from S.Source old new) (λ bytes. bytes ≡ came)
        ↔ (Consumes (S.to_come old) (S.to_come new) came × (S.gets_left old ≤ S.gets_left new + (length came + 1))) }
    ensures part { (old new : S) (came : List ℕ) → TookPart (taken_from S.Source old new) (λ bytes. bytes ≡ came)
        ↔ ((S.has_failed new ≡ true) × ConsumesOrHides (S.to_come old) (S.to_come new) came
        × (S.gets_left old ≤ S.gets_left new + length came)) }
{}

/// A text begins with a part exactly if its first bytes are that part. If a device reports its bytes, a failed call
/// kept, appended or consumed these bytes. If a sink reports its bytes, it wrote a prefix of a text.
pub fn reported_bytes()
    ensures front { (part text : List ℕ) → IsPrefixOf part text ↔ (take (length part) text ≡ part) }
    ensures kept { (old new : List ℕ) → KeepsOrHides (Some old) (Some new) ↔ (new ≡ old) }
    ensures appended { (old new bytes : List ℕ) → AppendsOrHides (Some old) (Some new) bytes ↔ (new ≡ old ++ bytes) }
    ensures consumed { (old new bytes : List ℕ) → ConsumesOrHides (Some old) (Some new) bytes ↔ (old ≡ bytes ++ new) }
    ensures wrote { (old new text : List ℕ) → WroteFront (Some old) (Some new) text
        ↔ ((count : ℕ) × (new ≡ old ++ take count text)) }
{}

/// A get that succeeds uses up one of the gets left, and a failed one uses up none. A source has at most 10^12 gets.
pub fn gets_are_used_up()
    ensures succeeded { (count old new : ℕ) → UsesGet {Error = ℕ} (Ok count) old new ↔ (new + 1 ≡ old) }
    ensures failed { (error old new : ℕ) → UsesGet {Value = ℕ} (Err error) old new ↔ (new ≡ old) }
    ensures most { most_gets ≡ 1000000000000 }
{}

/// One get of a source over a reader takes the returned bytes from the front of the reader, if that reports its bytes.
/// It uses up one get.
pub fn one_get<R: Read>()
    ensures { (old new : Reading R) (bytes : List ℕ) → IsGiven R.remaining old bytes new
        ↔ (Consumes (R.remaining (reader_of old)) (R.remaining (reader_of new)) bytes
        × (gets_of new + 1 ≡ gets_of old)) }
{}

/// One put of a sink over a writer appends the bytes that it took, if the writer reports its bytes. One finish appends
/// nothing and is counted.
pub fn one_put<W: Write>()
    ensures took { (old new : Writing W) (bytes : List ℕ) → IsTaken W.contents old bytes new
        ↔ (Appends (W.contents (writer_of old)) (W.contents (writer_of new)) bytes
        × (finishes_of new ≡ finishes_of old)) }
    ensures finished { (old new : Writing W) → IsFinish W.contents old new
        ↔ (Keeps (W.contents (writer_of old)) (W.contents (writer_of new)) × (finishes_of new ≡ finishes_of old + 1)) }
{}

/// Without a clock an input counts as recorded, and all readings are 0.
pub fn no_clock_is_recorded()
    ensures live { (old new : NoClock) → (times_of (⟦<NoClock as Clock>⟧) old new).is_live ≡ recorded.is_live }
    ensures told { (old new : NoClock) (moments : List ℕ)
        → (times_of (⟦<NoClock as Clock>⟧) old new).told moments ↔ recorded.told moments }
{}
