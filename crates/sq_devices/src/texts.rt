//! Whole texts to a sink.
ghost use Rattle.std.specs.Prelude.{◌≡◌, List, ℕ, OnOk, OnErr, true};
ghost use Rattle.std.specs.Io.KnownBytes.{Appends};
ghost use Rattle.sq_devices.specs.Calls.{HasPut, HasSent};
ghost use Rattle.sq_devices.specs.Changes.{FinishedOnce, Unfinished, written_on};
ghost use Rattle.sq_devices.specs.Device.{AppendsOrHides, IsPrefixOf};

use crate::{Failed, Sink};

/// Appends the whole text, in as many puts as it takes.
///
/// `Err` if one of the puts failed. The sink is then marked as failed, and has a prefix of the text.
pub fn put_all<K: Sink>(sink: &mut K, text: &[u8]) -> Result<(), Failed>
    ensures appended { OnOk result (Appends (K.written sink.old) (K.written sink.new) text.now) }
    ensures unmarked { OnOk result (K.has_failed sink.new ≡ K.has_failed sink.old) }
    ensures failed { OnErr result (K.has_failed sink.new ≡ true) }
    ensures part { OnErr result ((part : List ℕ) × IsPrefixOf part text.now
        × AppendsOrHides (K.written sink.old) (K.written sink.new) part) }
    ensures uncounted { K.finishes sink.new ≡ K.finishes sink.old }
    ensures put { OnOk result (HasPut K.Sink sink.old sink.new text.now) }
{
    let mut at = 0;
    while at < text.len() {
        at += sink.put(&text[at..])?;
    }
    Ok(())
}

/// Appends the whole text, and then finishes the sink once.
///
/// `Err` if one of the puts or the finish failed. The sink is then marked as failed, and has a prefix of the text.
pub fn put_last<K: Sink>(sink: &mut K, text: &[u8]) -> Result<(), Failed>
    ensures appended { OnOk result (Appends (K.written sink.old) (K.written sink.new) text.now) }
    ensures unmarked { OnOk result (K.has_failed sink.new ≡ K.has_failed sink.old) }
    ensures failed { OnErr result (K.has_failed sink.new ≡ true) }
    ensures part { OnErr result ((part : List ℕ) × IsPrefixOf part text.now
        × AppendsOrHides (K.written sink.old) (K.written sink.new) part) }
    ensures finished { OnOk result (FinishedOnce (written_on K.Sink sink.old sink.new)) }
    ensures unfinished { OnErr result (Unfinished (written_on K.Sink sink.old sink.new)) }
    ensures sent { OnOk result (HasSent K.Sink sink.old sink.new text.now) }
{
    put_all(sink, text)?;
    sink.finish()
}
