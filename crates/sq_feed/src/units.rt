//! The unit of timestamps, by how far apart the squitters of an aircraft are.
ghost use Rattle.std.specs.Prelude.{◌≡◌, ◌<◌, ◌^◌, ◌%◌};
ghost use Rattle.sq_feed.specs.Units.{address_in, beyond_in_nanos, heard_again, is_gps};
ghost use Rattle.sq_feed.specs.Units.{is_in_micros, is_in_nanos, is_in_seconds, is_since, leaves_out, no_gaps};
ghost use Rattle.sq_feed.specs.Units.{nothing_watched, one_gap, part_of, placed, timed, unit_by_gaps, unit_of};
ghost use Rattle.sq_feed.specs.Units.{watched, watched_one};

use crate::message::Timed;
use std::marker::Model;

// So many squitters are looked at.
const WATCHED: u32 = 16_384;

// So many gaps show a unit.
const FEW: u32 = 16;

// The ticks at 12 MHz that the low 30 bits count, and a 32nd of them.
const TURN: u64 = 1 << 30;

const PART: u64 = 1 << 25;

// The milliseconds that 10 * 2^30 ticks take.
const TEN_TURNS: u64 = 894_785;

// The downlink format of extended squitters.
const SQUITTER: u8 = 17;

/// What the timestamps of a source seem to be, if they are not milliseconds.
#[derive(Clone, Copy)]
pub enum Unit {
    Seconds,
    Microseconds,
    Nanoseconds,
    /// Several frames, and all of them have the timestamp 0.
    AllZero,
    /// The receiver's clock counts GPS time, and not 12 MHz.
    Gps,
}

// Gaps between the timestamps of an aircraft: how many there are, and sums that cap each at 10^3, 10^6 and 10^9.
#[derive(Drop)]
struct Gaps {
    pairs: u32,
    apart: u32,
    near: u64,
    middle: u64,
    far: u64,
    micros: u32,
    nanos: u32,
}

impl Model for Gaps {
    ghost use Rattle.std.specs.Prelude.{◌*◌, ◌≤◌};
    ghost use Rattle.sq_feed.specs.Units.{Gaps as Counted};

    ghost Value = { Counted };

    ghost view = { λ s. record {
      pairs = s.pairs;
      apart = s.apart;
      near = s.near;
      middle = s.middle;
      far = s.far;
      micros = s.micros;
      nanos = s.nanos;
    } };

    ghost invariant = { λ s. (s.apart ≤ s.pairs) × (s.micros ≤ s.pairs) × (s.nanos ≤ s.pairs)
        × (s.near ≤ 1000 * s.pairs) × (s.middle ≤ 1000000 * s.pairs) × (s.far ≤ 1000000000 * s.pairs) };
}

impl Gaps {
    fn new() -> Gaps
        ensures { result ≡ no_gaps }
    {
        Gaps {
            pairs: 0,
            apart: 0,
            near: 0,
            middle: 0,
            far: 0,
            micros: 0,
            nanos: 0,
        }
    }

    // Counts a gap.
    fn count(&mut self, gap: u64)
        requires { self.old.pairs < 16384 }
        ensures { self.new ≡ one_gap self.old gap }
    {
        self.pairs += 1;
        self.apart += u32::from(gap > 0);
        self.near += gap.min(1000);
        self.middle += gap.min(1_000_000);
        self.far += gap.min(1_000_000_000);
        self.micros += u32::from(10_000 <= gap && gap < 10_000_000);
        self.nanos += u32::from(10_000_000 <= gap);
    }
}

/// Watches the first squitters of a source, and tells if their timestamps seem to be no milliseconds. Allocates
/// nothing.
#[derive(Drop)]
pub struct Units {
    heard: u32,
    first: u64,
    latest: u64,
    is_timed: bool,
    parts: [u8; 32],
    filled: u32,
    addresses: [u32; 256],
    moments: [u64; 256],
    gaps: Gaps,
}

impl Model for Units {
    ghost use Rattle.std.specs.Prelude.{◌*◌, ◌≤◌};
    ghost use Rattle.sq_feed.specs.Units.{Watched};

    ghost Value = { Watched };

    ghost view = { λ s. record {
      heard = s.heard;
      first = s.first;
      latest = s.latest;
      is_timed = s.is_timed;
      parts = s.parts;
      filled = s.filled;
      addresses = s.addresses;
      moments = s.moments;
      gaps = s.gaps;
    } };

    ghost invariant = { λ s. (s.heard ≤ 16384) × (s.gaps.pairs ≤ s.heard) × (s.filled ≤ s.heard) };
}

impl Units {
    /// Creates a watch that has heard nothing.
    pub fn new() -> Units
        ensures { result ≡ nothing_watched }
    {
        Units {
            heard: 0,
            first: 0,
            latest: 0,
            is_timed: false,
            parts: [0; 32],
            filled: 0,
            addresses: [0; 256],
            moments: [0; 256],
            gaps: Gaps::new(),
        }
    }

    /// Takes a frame with its timestamp. Frames of other downlink formats than 17 do not count.
    #[inline(always)]
    pub fn hear_frame(&mut self, one: &Timed)
        ensures { self.new ≡ watched_one self.old one.now }
    {
        if one.frame[0] >> 3 == SQUITTER {
            self.hear(one.moment, address_in(&one.frame));
        }
    }

    /// Takes the timestamp of a squitter, and its address. Looks at the first 16,384 squitters. Of the aircraft with
    /// the same last eight bits, the first one is watched.
    #[inline(always)]
    pub fn hear(&mut self, moment: u64, address: u32)
        ensures { self.new ≡ watched self.old moment address }
    {
        if self.heard < WATCHED {
            self.watch(moment, address);
        }
    }

    // Takes one of the first squitters.
    #[inline(never)]
    fn watch(&mut self, moment: u64, address: u32)
        requires { self.old.heard < 16384 }
        ensures { self.new ≡ placed (timed self.old moment) (address % 256) moment address }
    {
        self.time(moment);
        let place = (address % 256) as usize;
        if self.addresses[place] == address {
            self.hear_again(place, moment);
        } else if self.addresses[place] == 0 {
            self.addresses[place] = address;
            self.moments[place] = moment;
        }
    }

    // Takes a timestamp.
    fn time(&mut self, moment: u64)
        requires { self.old.heard < 16384 }
        ensures timed { self.new ≡ timed self.old moment }
        ensures few { self.new.gaps.pairs < self.new.heard }
    {
        if self.heard == 0 {
            self.first = moment;
        }
        self.heard += 1;
        self.latest = moment;
        self.is_timed = self.is_timed || moment != 0;
        let part = part_of(moment);
        self.filled += u32::from(self.parts[part] == 0);
        self.parts[part] = 1;
    }

    // Takes a timestamp of the aircraft in this place.
    fn hear_again(&mut self, place: usize, moment: u64)
        requires place { place < 256 }
        requires few { self.old.gaps.pairs < self.old.heard }
        ensures { self.new ≡ heard_again self.old place moment }
    {
        let before = self.moments[place];
        if before <= moment {
            self.gaps.count(moment - before);
        }
        self.moments[place] = moment;
    }

    /// Returns what the timestamps seem to be, if they are not milliseconds. At least 16 gaps between squitters of one
    /// aircraft show it, or two squitters with the timestamp 0. Those of a receiver's clock can only be GPS time.
    pub fn unit(&self, is_clocked: bool, is_live: bool) -> Option<Unit>
        ensures { result ≡ unit_of is_clocked is_live self.now }
    {
        if self.heard >= 2 && !self.is_timed {
            Some(Unit::AllZero)
        } else if self.gaps.pairs < FEW {
            None
        } else if !is_clocked {
            self.unit_by_gaps()
        } else if self.is_gps(is_live) {
            Some(Unit::Gps)
        } else {
            None
        }
    }

    // Returns whether the clock of a source seems to count GPS time.
    fn is_gps(&self, is_live: bool) -> bool
        ensures { result ≡ is_gps is_live self.now }
    {
        8_000 * u64::from(self.gaps.pairs) <= self.gaps.middle
            && self.gaps.pairs <= 4 * self.gaps.micros
            && self.leaves_out(is_live)
    }

    // Returns whether no timestamp is in the numbers from 10^9 to 2^30 of each 2^30 ticks.
    fn leaves_out(&self, is_live: bool) -> bool
        ensures { result ≡ leaves_out is_live self.now }
    {
        if is_live {
            self.heard >= 640
                && self.latest.saturating_sub(self.first) >= TEN_TURNS
                && self.filled < 32
        } else {
            self.parts[30] == 0 && self.parts[31] == 0
        }
    }

    // Returns the unit of timestamps that a source states itself.
    fn unit_by_gaps(&self) -> Option<Unit>
        ensures { result ≡ unit_by_gaps self.now }
    {
        if self.is_since(1_000_000_000_000) {
            None
        } else if self.latest >= 10_000_000_000_000 {
            Some(if self.beyond_in_nanos() {
                Unit::Nanoseconds
            } else {
                Unit::Microseconds
            })
        } else if self.is_in_seconds() {
            Some(Unit::Seconds)
        } else if self.is_in_micros() {
            Some(Unit::Microseconds)
        } else if self.is_in_nanos() {
            Some(Unit::Nanoseconds)
        } else {
            None
        }
    }

    // Returns whether the timestamps are from this number on, and below four times as much.
    fn is_since(&self, power: u64) -> bool
        requires { power < 2 ^ 60 }
        ensures { result ≡ is_since power self.now }
    {
        power <= self.first
            && self.first < 4 * power
            && power <= self.latest
            && self.latest < 4 * power
    }

    fn beyond_in_nanos(&self) -> bool
        ensures { result ≡ beyond_in_nanos self.now }
    {
        self.latest >= 100_000_000_000_000_000
            || !self.is_since(1_000_000_000_000_000) && self.is_in_nanos()
    }

    fn is_in_seconds(&self) -> bool
        ensures { result ≡ is_in_seconds self.now }
    {
        self.gaps.near < 50 * u64::from(self.gaps.pairs)
            || self.is_since(1_000_000_000) && self.gaps.near < 100 * u64::from(self.gaps.pairs)
    }

    fn is_in_micros(&self) -> bool
        ensures { result ≡ is_in_micros self.now }
    {
        100_000 * u64::from(self.gaps.apart) <= self.gaps.middle
            && self.gaps.apart < 2 * self.gaps.micros
    }

    fn is_in_nanos(&self) -> bool
        ensures { result ≡ is_in_nanos self.now }
    {
        100_000_000 * u64::from(self.gaps.apart) <= self.gaps.far
            && self.gaps.apart < 2 * self.gaps.nanos
    }
}

// Returns in which of 32 parts of 2^30 ticks the last tick of a millisecond lies.
fn part_of(moment: u64) -> usize
    ensures value { result ≡ part_of moment }
    ensures small { result < 32 }
{
    ((moment % TURN * 12_000 + 11_999) % TURN / PART) as usize
}

// Returns the address in a frame of format 17.
#[inline(always)]
fn address_in(frame: &[u8; 14]) -> u32
    ensures { result ≡ address_in frame.now }
{
    u32::from_be_bytes([0, frame[1], frame[2], frame[3]])
}
