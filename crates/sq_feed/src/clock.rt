//! Continues the count of a receiver's clock beyond its 48 bits.
ghost use Rattle.std.specs.Prelude.{◌≡◌, ◌%◌, ◌^◌, true};
ghost use Rattle.std.specs.Prelude.{Some, None, nat_lt, if◌then◌else◌};
ghost use Rattle.sq_feed.specs.Clock.{ahead_of, back_of, count_of, counted_at, restarted, unheard};

use std::marker::Model;

// The ticks after which a clock sends the same value again.
pub(crate) const TURN: u64 = 1 << 48;

// The ticks of a millisecond.
pub(crate) const RATE: u64 = 12_000;

/// Continues the count of a receiver's clock, which sends the low 48 bits of its count at 12 MHz.
#[derive(Drop)]
pub struct Clock {
    last: u64,
    elapsed: u64,
    is_heard: bool,
}

impl Model for Clock {
    ghost use Rattle.std.specs.Prelude.{◌<◌, ◌^◌};
    ghost use Rattle.sq_feed.specs.Clock.{Counted};

    ghost Value = { Counted };

    ghost view = { λ s. record { last = s.last; elapsed = s.elapsed; is_heard = s.is_heard } };

    ghost invariant = { λ s. s.last < 2 ^ 48 };
}

impl Clock {
    /// Returns a clock before its first value.
    pub fn new() -> Clock
        ensures { result ≡ unheard }
    {
        Clock {
            last: 0,
            elapsed: 0,
            is_heard: false,
        }
    }

    /// Returns whether a value has a count.
    #[inline(always)]
    pub fn is_heard(&self) -> bool
        ensures { result ≡ self.now.is_heard }
    {
        let Clock { is_heard, .. } = self;
        *is_heard
    }

    // Returns the ticks from the latest value to this one, counted forwards.
    #[inline(always)]
    fn ahead(&self, ticks: u64) -> u64
        ensures { result ≡ ahead_of self.now.last (ticks % 2 ^ 48) }
    {
        (ticks % TURN + TURN - self.last) % TURN
    }

    /// Returns the count (ticks) of a value, by its low 48 bits: of the counts with these bits, the one nearest to the
    /// latest count. A count below 0 is 0, and one above 2^64 - 1 is 2^64 - 1.
    #[inline(always)]
    pub fn count(&self, ticks: u64) -> u64
        ensures { result ≡ count_of self.now (ticks % 2 ^ 48) }
    {
        match self.count_on(ticks) {
            Some(count) => count,
            None => self.elapsed.saturating_sub(self.back(ticks)),
        }
    }

    /// Returns the count (ticks) of a value that is less than half a turn after the latest one.
    #[inline(always)]
    pub(crate) fn count_on(&self, ticks: u64) -> Option<u64>
        ensures { result ≡ (if nat_lt (ahead_of self.now.last (ticks % 2 ^ 48)) (2 ^ 47)
            then Some (count_of self.now (ticks % 2 ^ 48)) else None) }
    {
        let ahead = self.ahead(ticks);
        if ahead < TURN / 2 {
            Some(self.elapsed.saturating_add(ahead))
        } else {
            None
        }
    }

    // Returns the ticks from the latest value back to this one, or 0 if it is nearer ahead.
    fn back(&self, ticks: u64) -> u64
        ensures { result ≡ back_of self.now.last (ticks % 2 ^ 48) }
    {
        let ahead = self.ahead(ticks);
        if ahead < TURN / 2 { 0 } else { TURN - ahead }
    }

    /// Returns the ticks back to a value that counts back beyond 0, or 0 if it does not.
    pub(crate) fn back_beyond_zero(&self, ticks: u64) -> u64
        ensures { result ≡ (if nat_lt self.now.elapsed (back_of self.now.last (ticks % 2 ^ 48))
            then back_of self.now.last (ticks % 2 ^ 48) else 0) }
    {
        let back = self.back(ticks);
        if self.elapsed < back { back } else { 0 }
    }

    /// Counts on from a value, by its low 48 bits, that has this count (ticks).
    #[inline(always)]
    pub fn go_on(&mut self, ticks: u64, count: u64)
        ensures { self.new ≡ counted_at (ticks % 2 ^ 48) count }
    {
        self.last = ticks % TURN;
        self.elapsed = count;
        self.is_heard = true;
    }

    // Does what `go_on` does, once a value has a count.
    #[inline(always)]
    pub(crate) fn advance(&mut self, ticks: u64, count: u64)
        requires { self.old.is_heard ≡ true }
        ensures { self.new ≡ counted_at (ticks % 2 ^ 48) count }
    {
        self.last = ticks % TURN;
        self.elapsed = count;
    }

    /// Forgets the latest value: the next one starts the count anew.
    pub fn restart(&mut self)
        ensures { self.new ≡ restarted self.old }
    {
        self.is_heard = false;
    }
}
