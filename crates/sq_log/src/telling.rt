//! The answers of a job as texts.
ghost use Rattle.std.specs.Prelude.{◌≡◌, ◌≤◌, [], List, ℕ, Ok, Err, OnErr, OnOk, drop, length, true};
ghost use Rattle.sq_devices.specs.Calls.{HasPut};
ghost use Rattle.sq_devices.specs.Device.{WroteFront};
ghost use Rattle.sq_log.specs.Runs.{Texts};

use crate::job::Job;
use crate::log::Answer;
use sq_devices::{Failed, Sink, put_all};
use sq_digits::TextBuffer;
use sq_text::LineFault;

/// The text of one line of output.
pub type LineText = TextBuffer<512>;

/// Writes the answers of a job as texts.
pub trait Telling: Job {
    /// How numbers are written in texts.
    ghost Writing: { Type 0 };

    /// The text before the first answer.
    ghost front: { List ℕ };

    /// The text of a verdict on the line with this number.
    ghost text: { Texts Writing Self.Found };

    /// Returns the text before the first answer.
    fn header(&self) -> &'static str
        ensures { result.now ≡ front };

    /// Writes the result for the line with this number into an empty text.
    fn tell(&self, number: u64, found: &Self::Found, into: &mut LineText)
        requires { into.old.bytes ≡ [] }
        ensures { (writing : Writing) → into.new.bytes ≡ text writing number (Ok found.now) };

    /// Writes why the line with this number is refused into an empty text.
    fn refuse(&self, number: u64, fault: LineFault, into: &mut LineText)
        requires { into.old.bytes ≡ [] }
        ensures { (writing : Writing) → into.new.bytes ≡ text writing number (Err fault) };
}

// Writes an answer into an empty text.
#[inline(always)]
fn tell_answer<J: Telling>(job: &J, answer: &Answer<J::Found>, into: &mut LineText)
    requires { into.old.bytes ≡ [] }
    ensures { (writing : J.Writing) → into.new.bytes ≡ J.text writing answer.now.number answer.now.verdict }
{
    match &answer.verdict {
        Ok(found) => job.tell(answer.number, found, into),
        Err(fault) => job.refuse(answer.number, *fault, into),
    }
}

// Puts a text.
#[inline(always)]
fn put_text<K: Sink>(sink: &mut K, text: &LineText) -> Result<(), Failed>
    ensures put { OnOk result (HasPut K.Sink sink.old sink.new text.now.bytes) }
    ensures part { OnErr result (WroteFront (K.written sink.old) (K.written sink.new) text.now.bytes) }
    ensures failed { OnErr result (K.has_failed sink.new ≡ true) }
    ensures unfinished { K.finishes sink.new ≡ K.finishes sink.old }
{
    put_bytes(sink, text.as_bytes())
}

// Puts the bytes of a text. Most puts take all of them.
#[inline(always)]
fn put_bytes<K: Sink>(sink: &mut K, bytes: &[u8]) -> Result<(), Failed>
    ensures put { OnOk result (HasPut K.Sink sink.old sink.new bytes.now) }
    ensures part { OnErr result (WroteFront (K.written sink.old) (K.written sink.new) bytes.now) }
    ensures failed { OnErr result (K.has_failed sink.new ≡ true) }
    ensures unfinished { K.finishes sink.new ≡ K.finishes sink.old }
{
    match sink.put(bytes) {
        Ok(count) => {
            if count == bytes.len() {
                return Ok(());
            }
            put_rest(sink, bytes, count)
        }
        Err(Failed) => Err(Failed),
    }
}

// Puts the bytes from `count` on.
#[cold]
#[inline(never)]
fn put_rest<K: Sink>(sink: &mut K, bytes: &[u8], count: usize) -> Result<(), Failed>
    requires { count ≤ length bytes.now }
    ensures put { OnOk result (HasPut K.Sink sink.old sink.new (drop count bytes.now)) }
    ensures part { OnErr result (WroteFront (K.written sink.old) (K.written sink.new) (drop count bytes.now)) }
    ensures failed { OnErr result (K.has_failed sink.new ≡ true) }
    ensures unfinished { K.finishes sink.new ≡ K.finishes sink.old }
{
    put_all(sink, &bytes[count..])
}

// Puts the text before the first answer.
pub(crate) fn put_header<J: Telling, K: Sink>(job: &J, sink: &mut K) -> Result<(), Failed>
    ensures put { OnOk result (HasPut K.Sink sink.old sink.new J.front) }
    ensures part { OnErr result (WroteFront (K.written sink.old) (K.written sink.new) J.front) }
    ensures failed { OnErr result (K.has_failed sink.new ≡ true) }
    ensures unfinished { K.finishes sink.new ≡ K.finishes sink.old }
{
    put_all(sink, job.header().as_bytes())
}

// Puts the text of an answer.
#[inline(always)]
pub(crate) fn put_answer<J: Telling, K: Sink>(
    job: &J,
    answer: &Answer<J::Found>,
    sink: &mut K,
    text: &mut LineText,
) -> Result<(), Failed>
    ensures put { (writing : J.Writing) → OnOk result (HasPut K.Sink sink.old sink.new
        (J.text writing answer.now.number answer.now.verdict)) }
    ensures part { (writing : J.Writing) → OnErr result (WroteFront (K.written sink.old) (K.written sink.new)
        (J.text writing answer.now.number answer.now.verdict)) }
    ensures failed { OnErr result (K.has_failed sink.new ≡ true) }
    ensures unfinished { K.finishes sink.new ≡ K.finishes sink.old }
{
    text.clear();
    tell_answer(job, answer, text);
    put_text(sink, text)
}
