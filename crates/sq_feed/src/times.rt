//! The timestamps of frames: by their own times or by their arrival.
ghost use Rattle.std.specs.Prelude.{◌≡◌, ◌&&◌, nat_le, nat_lt, true, ◌+◌, ◌%◌, ◌^◌, ◌≤◌, Some, None, if◌then◌else◌};
ghost use Rattle.sq_feed.specs.Clock.{ahead_of, count_of, counted_at};
ghost use Rattle.sq_feed.specs.Times.{anew_of, beyond, by_arrival, due, gone_on, is_beyond_zero};
ghost use Rattle.sq_feed.specs.Times.{is_ahead_of_arrivals, is_awaited, is_clockless, is_near, no_times, other_times};
ghost use Rattle.sq_feed.specs.Times.{resumed, start_of, told_as};

use crate::clock::{Clock, RATE, TURN};
use crate::manner::Manner;
use std::marker::Model;

// A time may always be late by this many milliseconds.
const JITTER: u64 = 1000;

/// Gives frames their timestamps (ms). Each is before the latest one by at most `Manner::late`.
#[derive(Drop)]
pub struct Times {
    clock: Clock,
    is_live: bool,
    ignores_clock: bool,
    leap: u64,
    late: u64,
    latest: u64,
    arrival: u64,
}

impl Model for Times {
    ghost use Rattle.sq_feed.specs.Times.{Timing};

    ghost Value = { Timing };

    ghost view = { λ s. record {
      clock = s.clock;
      is_live = s.is_live;
      ignores_clock = s.ignores_clock;
      leap = s.leap;
      late = s.late;
      latest = s.latest;
      arrival = s.arrival;
    } };
}

impl Times {
    /// Returns the times of a source before its first frame.
    pub(crate) fn new(manner: &Manner) -> Times
        ensures { result ≡ no_times manner.now }
    {
        Times {
            clock: Clock::new(),
            is_live: manner.is_live,
            ignores_clock: manner.ignores_clock,
            leap: manner.leap,
            late: manner.late,
            latest: 0,
            arrival: 0,
        }
    }

    /// Returns whether a time is at or after the latest timestamp, by at most a leap.
    #[inline(always)]
    pub(crate) fn follows(&self, moment: u64) -> bool
        ensures { result ≡ nat_le self.now.latest moment && nat_le moment (self.now.latest + self.now.leap) }
    {
        self.latest <= moment && moment - self.latest <= self.leap
    }

    /// Takes the time (ms) of a frame that is at or after the latest timestamp. Its clock, which has started, counts on
    /// from its value with this count (ticks).
    #[inline(always)]
    pub(crate) fn advance(&mut self, ticks: u64, count: u64, moment: u64, arrival: u64)
        requires { self.old.clock.is_heard ≡ true }
        ensures { self.new ≡ record self.old {
          clock = counted_at (ticks % 2 ^ 48) count;
          latest = moment;
          arrival = arrival;
        } }
    {
        self.clock.advance(ticks, count);
        self.latest = moment;
        self.arrival = arrival;
    }

    /// Starts the receiver's clock anew, after a lost connection.
    pub(crate) fn restart(&mut self)
        ensures { self.new ≡ other_times self.old }
    {
        self.clock.restart();
    }

    /// Takes the arrival (ms) of a frame without a time, and returns its timestamp. In a live source, it is as much
    /// after the latest frame as their arrivals are apart. In a recorded source it is the latest timestamp, or 0.
    pub(crate) fn hear_arrival(&mut self, arrival: u64) -> u64
        ensures kept { self.new ≡ by_arrival self.old arrival }
        ensures told { result ≡ told_as self.old (due self.old arrival) }
    {
        let moment = self.due(arrival);
        self.go_on(moment, arrival)
    }

    /// Returns whether a value of the receiver's clock counts as none.
    #[inline(always)]
    pub(crate) fn is_clockless(&self, ticks: u64) -> bool
        ensures { result ≡ is_clockless self.now ticks }
    {
        ticks == 0 || self.ignores_clock
    }

    /// Returns whether the receiver's clock has started.
    #[inline(always)]
    pub(crate) fn has_clock(&self) -> bool
        ensures { result ≡ self.now.clock.is_heard }
    {
        self.clock.is_heard()
    }

    /// Returns the count (ticks) of a value of the receiver's clock, once that has started.
    #[inline(always)]
    pub(crate) fn count(&self, ticks: u64) -> u64
        ensures { result ≡ count_of self.now.clock (ticks % 2 ^ 48) }
    {
        self.clock.count(ticks)
    }

    /// Returns the count (ticks) of a value that is less than half a turn after the latest one.
    #[inline(always)]
    pub(crate) fn count_on(&self, ticks: u64) -> Option<u64>
        ensures { result ≡ (if nat_lt (ahead_of self.now.clock.last (ticks % 2 ^ 48)) (2 ^ 47)
            then Some (count_of self.now.clock (ticks % 2 ^ 48)) else None) }
    {
        self.clock.count_on(ticks)
    }

    /// Returns whether a value of the receiver's clock counts back beyond 0, by more than times may be late.
    pub(crate) fn is_beyond_zero(&self, ticks: u64) -> bool
        ensures { result ≡ is_beyond_zero self.now (ticks % 2 ^ 48) }
    {
        self.clock.back_beyond_zero(ticks) / RATE > self.late.max(JITTER)
    }

    /// Counts on from a value of the receiver's clock with this count (ticks).
    #[inline(always)]
    pub(crate) fn follow(&mut self, ticks: u64, count: u64)
        ensures { self.new ≡ record self.old { clock = counted_at (ticks % 2 ^ 48) count } }
    {
        self.clock.go_on(ticks, count);
    }

    /// Returns the count (ticks) at which the receiver's clock starts with this value: in a recorded source the first
    /// value itself.
    pub(crate) fn start(&self, ticks: u64, arrival: u64) -> u64
        ensures { result ≡ start_of self.now (ticks % 2 ^ 48) arrival }
    {
        if !self.is_live && self.latest == 0 {
            ticks % TURN
        } else {
            self.resumed(arrival).saturating_mul(RATE)
        }
    }

    /// Returns whether a time is after another by at most a leap, or late by at most `late` or a second.
    #[inline(always)]
    pub(crate) fn is_near(&self, base: u64, moment: u64) -> bool
        ensures { result ≡ is_near self.now base moment }
    {
        if base <= moment {
            moment - base <= self.leap
        } else {
            base - moment <= self.late.max(JITTER)
        }
    }

    /// Returns whether a time is at or after the latest timestamp by as much as the arrivals of a live source are
    /// apart, within a leap.
    pub(crate) fn is_awaited(&self, arrival: u64, moment: u64) -> bool
        ensures { result ≡ is_awaited self.now arrival moment }
    {
        let due = self.due(arrival);
        self.is_live && self.latest <= moment && moment.abs_diff(due) <= self.leap
    }

    /// Returns the timestamp (ms) at which times go on after a step back.
    pub(crate) fn anew(&self, arrival: u64) -> u64
        ensures { result ≡ anew_of self.now arrival }
    {
        if self.clock.is_heard() {
            self.resumed(arrival)
        } else {
            self.beyond()
        }
    }

    // Returns the timestamp (ms) at which a clock goes on after it has started again.
    fn resumed(&self, arrival: u64) -> u64
        ensures { result ≡ resumed self.now arrival }
    {
        if self.is_live && !self.is_ahead_of_arrivals() {
            self.due(arrival)
        } else {
            self.beyond()
        }
    }

    // Returns a timestamp (ms) that is more than a leap after the latest one.
    fn beyond(&self) -> u64
        ensures { result ≡ beyond self.now }
    {
        self.latest.saturating_add(self.leap).saturating_add(1)
    }

    /// Returns whether the timestamps of a live source are ahead of its arrivals by more than a leap.
    pub(crate) fn is_ahead_of_arrivals(&self) -> bool
        ensures { result ≡ is_ahead_of_arrivals self.now }
    {
        self.is_live && self.latest.saturating_sub(self.arrival) > self.leap
    }

    /// Returns the latest timestamp (ms).
    #[inline(always)]
    pub(crate) fn latest(&self) -> u64
        ensures { result ≡ self.now.latest }
    {
        self.latest
    }

    /// Returns the arrival (ms) of the frame with the latest timestamp.
    pub(crate) fn arrival(&self) -> u64
        ensures { result ≡ self.now.arrival }
    {
        self.arrival
    }

    /// Takes the time (ms) of a frame, and returns its timestamp. A time that is before the latest timestamp by more
    /// than `late` is moved to `late` before it.
    #[inline(always)]
    pub(crate) fn go_on(&mut self, moment: u64, arrival: u64) -> u64
        ensures kept { self.new ≡ gone_on self.old moment arrival }
        ensures told { result ≡ told_as self.old moment }
    {
        if self.latest <= moment {
            self.latest = moment;
            self.arrival = arrival;
            return moment;
        }
        moment.max(self.latest.saturating_sub(self.late))
    }

    // Returns the present timestamp, by the time that has passed since the latest frame arrived.
    #[inline(always)]
    fn due(&self, arrival: u64) -> u64
        ensures { result ≡ due self.now arrival }
    {
        if self.is_live {
            self.latest
                .saturating_add(arrival.saturating_sub(self.arrival))
        } else {
            self.latest
        }
    }
}
