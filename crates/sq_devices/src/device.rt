//! The three kinds of device.
ghost use Rattle.std.specs.Prelude.{◌≡◌, ◌+◌, ◌<◌, ◌≤◌, ℕ, Bool, List, true, length, take, Option};
ghost use Rattle.std.specs.Prelude.{IfOk, OnOk, OnErr};
ghost use Rattle.std.specs.Io.KnownBytes.{Appends, Consumes, IsAtEnd, Keeps};
ghost use Rattle.sq_devices.specs.Device.{KeepsOrHides, UsesGet, most_gets};

use thiserror::Error;

/// A call of a device that failed. The device counts as failed from then on.
#[derive(Clone, Copy, Debug, PartialEq, Eq, Error)]
#[error("the device failed")]
pub struct Failed;

/// An input.
///
/// At most 10^12 gets of a source return data.
pub trait Source {
    /// The bytes that are still to come, where the source reports them.
    ghost to_come: { Self → Option (List ℕ) };

    /// Whether a get has failed.
    ghost has_failed: { Self → Bool };

    /// The number of gets that can still succeed.
    ghost gets_left: { Self → ℕ };

    /// One get returned these bytes: the source is in the first state before it, and in the second one after it. Each
    /// source defines this relation. Only a get can show that it holds.
    ghost Gave: { Self → List ℕ → Self → Type 0 };

    /// Moves the next bytes to the front of `into`, and returns how many. Returns 0 into a buffer with room only at the
    /// end of the input. A success uses up one get.
    ///
    /// `Err` marks the source as failed, and uses up no get. Its bytes are unchanged, or it does not report them.
    fn get(&mut self, into: &mut [u8]) -> Result<usize, Failed>
        ensures fits { IfOk result (λ n. n ≤ length into.new) }
        ensures gave { IfOk result (λ n. Gave self.old (take n into.new) self.new) }
        ensures moved { IfOk result (λ n. Consumes (to_come self.old) (to_come self.new) (take n into.new)) }
        ensures end { IfOk result (λ n. n ≡ 0 → 0 < length into.new → IsAtEnd (to_come self.new)) }
        ensures unmarked { OnOk result (has_failed self.new ≡ has_failed self.old) }
        ensures failed { OnErr result (has_failed self.new ≡ true) }
        ensures kept { OnErr result (KeepsOrHides (to_come self.old) (to_come self.new)) }
        ensures used { UsesGet result (gets_left self.old) (gets_left self.new) };

    ghost few_gets: { (s : Self) → gets_left s ≤ most_gets };
}

/// Where bytes go to.
pub trait Sink {
    /// The bytes that were written, where the sink reports them.
    ghost written: { Self → Option (List ℕ) };

    /// Whether a put or a finish has failed.
    ghost has_failed: { Self → Bool };

    /// How often the sink was finished.
    ghost finishes: { Self → ℕ };

    /// One put took these bytes: the sink is in the first state before it, and in the second one after it. Each sink
    /// defines this relation. Only a put can show that it holds.
    ghost Took: { Self → List ℕ → Self → Type 0 };

    /// Whether one finish led from the one sink to the other.
    ghost Finished: { Self → Self → Type 0 };

    /// Appends the first bytes of `from`, at least one if there is one, and returns how many.
    ///
    /// `Err` marks the sink as failed. Its bytes are unchanged, or the sink does not report them.
    fn put(&mut self, from: &[u8]) -> Result<usize, Failed>
        ensures fits { IfOk result (λ n. n ≤ length from.now) }
        ensures took { IfOk result (λ n. Took self.old (take n from.now) self.new) }
        ensures some { IfOk result (λ n. 0 < length from.now → 0 < n) }
        ensures appended { IfOk result (λ n. Appends (written self.old) (written self.new) (take n from.now)) }
        ensures unmarked { OnOk result (has_failed self.new ≡ has_failed self.old) }
        ensures failed { OnErr result (has_failed self.new ≡ true) }
        ensures kept { OnErr result (KeepsOrHides (written self.old) (written self.new)) }
        ensures uncounted { finishes self.new ≡ finishes self.old };

    /// Flushes everything that was put, at the end of the output. It changes no bytes.
    ///
    /// `Err` marks the sink as failed, and does not count as a finish. Its bytes are unchanged, or the sink does not
    /// report them.
    fn finish(&mut self) -> Result<(), Failed>
        ensures bytes { OnOk result (Keeps (written self.old) (written self.new)) }
        ensures unmarked { OnOk result (has_failed self.new ≡ has_failed self.old) }
        ensures failed { OnErr result (has_failed self.new ≡ true) }
        ensures kept { OnErr result (KeepsOrHides (written self.old) (written self.new)) }
        ensures sent { OnOk result (Finished self.old self.new) }
        ensures counted { OnOk result (finishes self.new ≡ finishes self.old + 1) }
        ensures uncounted { OnErr result (finishes self.new ≡ finishes self.old) };
}

/// Where times come from.
pub trait Clock {
    /// Whether the input is received while it is read. A recorded input has no arrivals.
    ghost live: { Self → Bool };

    /// One reading returned this time: the clock is in the first state before it, and in the second one after it. Each
    /// clock defines this relation. Only a reading can show that it holds.
    ghost Told: { Self → ℕ → Self → Type 0 };

    /// Returns whether the input is received while it is read.
    fn is_live(&self) -> bool
        ensures { result ≡ live self.now };

    /// Returns the time in milliseconds since 1970. A time may be before an earlier one.
    fn now(&mut self) -> u64
        ensures told { Told self.old result self.new }
        ensures kept { live self.new ≡ live self.old };
}
