//! What becomes of each item: a squitter with its timestamp, or a count.
ghost use Rattle.std.specs.Prelude.{◌≡◌, ◌≤◌, ◌%◌, ◌^◌, ◌+◌, ◌++◌, [], ◌∷◌, Bool, List, MatchOption, None, ℕ, false, if◌then◌else◌, length, true};
ghost use Rattle.sq_feed.specs.Counts.{counted_rows};
ghost use Rattle.sq_feed.specs.Dates.{HasRoom, IsVerdict, gone_all, judged, timed_all, waiting};
ghost use Rattle.sq_feed.specs.Ears.{clock_judged, ear_after, ear_arrived, ear_at, ear_clocked, ear_ended, ear_judged, fate_of};
ghost use Rattle.sq_feed.specs.Ears.{fate_of_long, fate_of_short, frame_in, is_multilaterated, judged_with, padded};
ghost use Rattle.sq_feed.specs.Ears.{told_at, told_clocked, told_ended, told_judged, told_of, untouched};
ghost use Rattle.sq_feed.specs.Ears.{whole_of, with_row};
ghost use Rattle.sq_feed.specs.Times.{due, is_ahead_of_arrivals, is_clockless, other_times, told_as};

use crate::clock::RATE;
use crate::counts::{Counts, Fate};
use crate::dates::{Dates, Verdict};
use crate::manner::Manner;
use crate::message::{Found, Message, RawFrame, Stranger, Time, Timed};
use crate::times::Times;
use arrayvec::ArrayVec;
use std::marker::Model;

// The clock of frames that a server computed: FF 00 and "MLAT".
const MULTILATERATED: u64 = 0xFF00_4D4C_4154;

// The downlink format of extended squitters.
const SQUITTER: u8 = 17;

// The first downlink format of long frames.
const FIRST_LONG: u8 = 16;

/// Squitters with their timestamps that wait to be given.
pub(crate) type Ready = ArrayVec<Timed, 4>;

/// Gives each squitter its timestamp, and counts what becomes of every item.
#[derive(Drop)]
pub struct Ear {
    times: Times,
    dates: Dates,
    is_dated: bool,
    all_formats: bool,
    counts: Counts,
    stranger: Option<Stranger>,
}

impl Model for Ear {
    ghost use Rattle.sq_feed.specs.Ears.{Hears};

    ghost Value = { Hears };

    ghost view = { λ s. record {
      times = s.times;
      dates = s.dates;
      is_dated = s.is_dated;
      all_formats = s.all_formats;
      counts = s.counts;
      stranger = s.stranger;
    } };
}

impl Ear {
    /// Returns an ear that has heard nothing.
    pub fn new(manner: &Manner) -> Ear
        ensures { result ≡ untouched manner.now }
    {
        Ear {
            times: Times::new(manner),
            dates: Dates::new(),
            is_dated: false,
            all_formats: manner.all_formats,
            counts: Counts::new(),
            stranger: None,
        }
    }

    /// Returns the counts. They add up to the items found.
    pub fn counts(&self) -> Counts
        ensures { result ≡ self.now.counts }
    {
        self.counts
    }

    /// Returns what the last source without frames was, if there was one.
    pub fn stranger(&self) -> Option<Stranger>
        ensures { result ≡ self.now.stranger }
    {
        self.stranger
    }

    /// Returns whether the first time that a frame stated was that of a row.
    pub fn is_dated(&self) -> bool
        ensures { result ≡ self.now.is_dated }
    {
        let Ear { is_dated, .. } = self;
        *is_dated
    }

    /// Returns how often the times of frames went back.
    pub fn breaks(&self) -> u64
        ensures { result ≡ self.now.dates.breaks }
    {
        self.dates.breaks()
    }

    /// Returns whether the timestamps of a live source are ahead of its arrivals by more than a leap.
    pub fn is_ahead_of_arrivals(&self) -> bool
        ensures { result ≡ is_ahead_of_arrivals self.now.times }
    {
        self.times.is_ahead_of_arrivals()
    }

    /// Hears an item that arrived at `arrival` (ms). Returns the timestamp of its frame, if it has one at once. Appends
    /// the squitters that it confirms to those that are ready, itself the last.
    #[inline(never)]
    pub fn hear(&mut self, found: &Found, arrival: u64, ready: &mut Ready) -> Option<u64>
        requires { length ready.old.items + length (waiting self.old.dates) ≤ 3 }
        ensures kept { self.new ≡ ear_after arrival self.old found.now }
        ensures told { MatchOption result (ready.new.items ≡ ready.old.items ++ told_of arrival self.old found.now)
            (λ moment. (ready.new ≡ ready.old) × (told_of arrival self.old found.now
            ≡ record { moment = moment; frame = frame_in found.now } ∷ [])) }
        ensures room { HasRoom ready.new.items self.new.dates }
    {
        match found {
            Found::Damage => {
                self.counts.count(Fate::Damaged);
                None
            }
            Found::ReceiverId => {
                self.counts.count(Fate::ReceiverId);
                None
            }
            Found::Foreign(stranger) => {
                self.counts.count(Fate::Damaged);
                self.stranger = Some(*stranger);
                None
            }
            Found::Whole(message) => self.hear_message(message, arrival, ready),
        }
    }

    /// Decides about frames that wait, since no other frame comes. Appends the squitters that get timestamps.
    pub fn end(&mut self, ready: &mut Ready)
        requires { length ready.old.items + length (waiting self.old.dates) ≤ 3 }
        ensures kept { self.new ≡ ear_ended self.old }
        ensures told { ready.new.items ≡ ready.old.items ++ told_ended self.old }
        ensures room { (waiting self.new.dates ≡ []) × (length ready.new.items ≤ 3) }
    {
        let verdict = self.dates.end(&self.times);
        let arrival = self.times.arrival();
        self.tell(&verdict, arrival, ready);
    }

    /// Starts the receiver's clock anew, after a lost connection.
    pub fn restart(&mut self)
        ensures { self.new ≡ record self.old { times = other_times self.old.times } }
    {
        self.times.restart();
    }

    /// Hears an extended squitter whose timestamp waits for no other frame, as most do, and returns it. Any other
    /// message changes nothing. A short way, so that the squitter goes from the source's bytes into its slot.
    #[inline(always)]
    pub(crate) fn hear_next(&mut self, message: &Message, arrival: u64) -> Option<Timed>
        ensures { MatchOption result (self.new ≡ self.old)
            (λ one. (self.new ≡ ear_after arrival self.old (Found.Whole message.now))
            × (told_of arrival self.old (Found.Whole message.now) ≡ one ∷ [])) }
    {
        match message.frame {
            RawFrame::Long(frame) => self.hear_squitter(message.time, frame, arrival),
            RawFrame::Short(_) => None,
            RawFrame::ModeAc(_) => None,
        }
    }

    // Does what `hear_next` does, for a long frame.
    #[inline(always)]
    fn hear_squitter(&mut self, time: Time, frame: [u8; 14], arrival: u64) -> Option<Timed>
        ensures { MatchOption result (self.new ≡ self.old)
            (λ one. (fate_of_long self.old.all_formats time frame ≡ None)
            × (self.new ≡ ear_at time arrival self.old frame)
            × (told_at time arrival self.old frame ≡ one ∷ [])) }
    {
        if !is_squitter(&frame) {
            return None;
        }
        let moment = match time {
            Time::Unknown => None,
            Time::Ticks(MULTILATERATED) => None,
            Time::Ticks(ticks) => self.follow_clock(ticks, arrival),
            Time::Millis(moment) => self.follow_row(moment, arrival),
        }?;
        Some(Timed { moment, frame })
    }

    /// Hears a message that arrived at `arrival` (ms).
    #[inline(always)]
    pub(crate) fn hear_message(
        &mut self,
        message: &Message,
        arrival: u64,
        ready: &mut Ready,
    ) -> Option<u64>
        requires { length ready.old.items + length (waiting self.old.dates) ≤ 3 }
        ensures kept { self.new ≡ ear_after arrival self.old (Found.Whole message.now) }
        ensures told { MatchOption result
            (ready.new.items ≡ ready.old.items ++ told_of arrival self.old (Found.Whole message.now))
            (λ moment. (ready.new ≡ ready.old) × (told_of arrival self.old (Found.Whole message.now)
            ≡ record { moment = moment; frame = whole_of message.now.frame } ∷ [])) }
        ensures room { HasRoom ready.new.items self.new.dates }
    {
        match fate_of(self.all_formats, message.time, &message.frame) {
            Some(fate) => {
                self.counts.count(fate);
                None
            }
            None => self.hear_timed(message, arrival, ready),
        }
    }

    // Hears a message whose time decides what becomes of it.
    #[inline(always)]
    fn hear_timed(&mut self, message: &Message, arrival: u64, ready: &mut Ready) -> Option<u64>
        requires fate { fate_of self.old.all_formats message.now.time message.now.frame ≡ None }
        requires room { length ready.old.items + length (waiting self.old.dates) ≤ 3 }
        ensures kept { self.new ≡ ear_after arrival self.old (Found.Whole message.now) }
        ensures told { MatchOption result
            (ready.new.items ≡ ready.old.items ++ told_of arrival self.old (Found.Whole message.now))
            (λ moment. (ready.new ≡ ready.old) × (told_of arrival self.old (Found.Whole message.now)
            ≡ record { moment = moment; frame = whole_of message.now.frame } ∷ [])) }
        ensures room { HasRoom ready.new.items self.new.dates }
    {
        match message.time {
            Time::Unknown => Some(self.hear_arrival(arrival)),
            Time::Ticks(ticks) => {
                if self.times.is_clockless(ticks) {
                    Some(self.hear_arrival(arrival))
                } else {
                    self.hear_clock(ticks, &message.frame, arrival, ready)
                }
            }
            Time::Millis(moment) => self.hear_row(moment, &message.frame, arrival, ready),
        }
    }

    // Hears a frame without a time, and returns its timestamp.
    fn hear_arrival(&mut self, arrival: u64) -> u64
        ensures kept { self.new ≡ ear_arrived arrival self.old }
        ensures told { result ≡ told_as self.old.times (due self.old.times arrival) }
    {
        self.counts.count(Fate::Written);
        self.times.hear_arrival(arrival)
    }

    // Takes the value of a clock that has started, while no frame waits, if its time follows the latest timestamp by at
    // most a leap. Returns the timestamp. Any other value changes nothing.
    #[inline(always)]
    fn follow_clock(&mut self, ticks: u64, arrival: u64) -> Option<u64>
        ensures same { self.new.dates ≡ self.old.dates }
        ensures heard { MatchOption result (self.new ≡ self.old) (λ moment. (frame : List ℕ)
            → (self.new ≡ ear_at (Time.Ticks ticks) arrival self.old frame)
            × (told_at (Time.Ticks ticks) arrival self.old frame ≡ record { moment = moment; frame = frame } ∷ [])) }
    {
        if self.times.is_clockless(ticks) || !self.dates.is_calm() || !self.times.has_clock() {
            return None;
        }
        let count = self.times.count_on(ticks)?;
        let moment = self.dates.own(count / RATE);
        if !self.times.follows(moment) {
            return None;
        }
        self.counts.count_rows(1, 0);
        self.times.advance(ticks, count, moment, arrival);
        Some(moment)
    }

    // Hears a frame with a clock.
    #[inline(always)]
    fn hear_clock(
        &mut self,
        ticks: u64,
        frame: &RawFrame,
        arrival: u64,
        ready: &mut Ready,
    ) -> Option<u64>
        requires clock { is_clockless self.old.times ticks ≡ false }
        requires room { length ready.old.items + length (waiting self.old.dates) ≤ 3 }
        ensures kept { self.new ≡ ear_at (Time.Ticks ticks) arrival self.old (whole_of frame.now) }
        ensures told { MatchOption result
            (ready.new.items ≡ ready.old.items ++ told_at (Time.Ticks ticks) arrival self.old (whole_of frame.now))
            (λ told. (ready.new ≡ ready.old) × (told_at (Time.Ticks ticks) arrival self.old (whole_of frame.now)
            ≡ record { moment = told; frame = whole_of frame.now } ∷ [])) }
        ensures room { HasRoom ready.new.items self.new.dates }
    {
        if let Some(moment) = self.follow_clock(ticks, arrival) {
            return Some(moment);
        }
        let frame = whole_of(frame);
        self.hear_clock_jump(ticks, frame, arrival, ready);
        None
    }

    // Hears a frame with a clock that does not fit, or comes while others wait.
    #[cold]
    #[inline(never)]
    fn hear_clock_jump(&mut self, ticks: u64, frame: [u8; 14], arrival: u64, ready: &mut Ready)
        requires { length ready.old.items + length (waiting self.old.dates) ≤ 3 }
        ensures kept { self.new ≡ ear_clocked self.old (ticks % 2 ^ 48) arrival
            (clock_judged self.old (ticks % 2 ^ 48) arrival frame) }
        ensures told { ready.new.items ≡ ready.old.items ++ told_clocked self.old (ticks % 2 ^ 48) arrival
            (clock_judged self.old (ticks % 2 ^ 48) arrival frame) }
        ensures room { HasRoom ready.new.items self.new.dates }
    {
        let count = if self.times.has_clock() {
            self.times.count(ticks)
        } else {
            self.times.start(ticks, arrival)
        };
        let one = Timed {
            moment: count / RATE,
            frame,
        };
        let verdict = self.judge_clock(ticks, arrival, one);
        if self.dates.is_calm() {
            self.times.follow(ticks, count);
        }
        self.tell(&verdict, arrival, ready);
    }

    // Decides about a frame with a clock, which starts it, goes on with it, or counts back far beyond 0.
    fn judge_clock(&mut self, ticks: u64, arrival: u64, one: Timed) -> Verdict
        ensures verdict { IsVerdict (judged_with self.old.times (ticks % 2 ^ 48) self.old.dates arrival one)
            result self.new.dates }
        ensures same { self.new ≡ record self.old { dates = self.new.dates } }
    {
        if !self.times.has_clock() {
            self.dates.start(one)
        } else if self.times.is_beyond_zero(ticks) {
            self.dates.lengthen(&self.times, arrival, one)
        } else {
            self.dates.judge(&self.times, arrival, one)
        }
    }

    // Takes the time (ms) of a row that fits, while no frame waits. Returns the timestamp. Any other time changes
    // nothing.
    #[inline(always)]
    fn follow_row(&mut self, moment: u64, arrival: u64) -> Option<u64>
        ensures same { self.new.dates ≡ self.old.dates }
        ensures heard { MatchOption result (self.new ≡ self.old) (λ told. (frame : List ℕ)
            → (self.new ≡ ear_at (Time.Millis moment) arrival self.old frame)
            × (told_at (Time.Millis moment) arrival self.old frame ≡ record { moment = told; frame = frame } ∷ [])) }
    {
        if self.dates.is_calm() && self.dates.is_fit(&self.times, arrival, moment) {
            self.counts.count_rows(1, 0);
            return Some(self.times.go_on(self.dates.own(moment), arrival));
        }
        None
    }

    // Hears a row with its own time (ms).
    #[inline(always)]
    fn hear_row(
        &mut self,
        moment: u64,
        frame: &RawFrame,
        arrival: u64,
        ready: &mut Ready,
    ) -> Option<u64>
        requires { length ready.old.items + length (waiting self.old.dates) ≤ 3 }
        ensures kept { self.new ≡ ear_at (Time.Millis moment) arrival self.old (whole_of frame.now) }
        ensures told { MatchOption result
            (ready.new.items ≡ ready.old.items ++ told_at (Time.Millis moment) arrival self.old (whole_of frame.now))
            (λ told. (ready.new ≡ ready.old) × (told_at (Time.Millis moment) arrival self.old (whole_of frame.now)
            ≡ record { moment = told; frame = whole_of frame.now } ∷ [])) }
        ensures room { HasRoom ready.new.items self.new.dates }
    {
        if let Some(told) = self.follow_row(moment, arrival) {
            return Some(told);
        }
        let frame = whole_of(frame);
        self.note_row();
        self.hear_jump(Timed { moment, frame }, arrival, ready);
        None
    }

    // Notes that a row stated its time, if it is the first time.
    fn note_row(&mut self)
        ensures { self.new ≡ with_row self.old }
    {
        if !self.dates.is_timed() {
            self.is_dated = true;
        }
    }

    // Hears a row that does not fit, or comes while others wait.
    #[cold]
    #[inline(never)]
    fn hear_jump(&mut self, one: Timed, arrival: u64, ready: &mut Ready)
        requires { length ready.old.items + length (waiting self.old.dates) ≤ 3 }
        ensures kept { self.new ≡ ear_judged arrival self.old (judged self.old.times self.old.dates arrival one) }
        ensures told { ready.new.items
            ≡ ready.old.items ++ told_judged arrival self.old (judged self.old.times self.old.dates arrival one) }
        ensures room { HasRoom ready.new.items self.new.dates }
    {
        let verdict = self.dates.judge(&self.times, arrival, one);
        self.tell(&verdict, arrival, ready);
    }

    // Gives frames their timestamps, and counts them and those that are left out.
    fn tell(&mut self, verdict: &Verdict, arrival: u64, ready: &mut Ready)
        requires { length ready.old.items + length verdict.now.told.items ≤ 4 }
        ensures times { self.new.times
            ≡ gone_all self.old.dates arrival self.old.times verdict.now.told.items }
        ensures counts { self.new.counts
            ≡ counted_rows self.old.counts (length verdict.now.told.items) verdict.now.aside }
        ensures same { (self.new.dates ≡ self.old.dates) × (self.new.is_dated ≡ self.old.is_dated)
            × (self.new.all_formats ≡ self.old.all_formats) × (self.new.stranger ≡ self.old.stranger) }
        ensures told { ready.new.items ≡ ready.old.items
            ++ timed_all self.old.dates arrival self.old.times verdict.now.told.items }
    {
        self.counts
            .count_rows(verdict.told.len() as u8, verdict.aside);
        tell_from(
            &mut self.times,
            &self.dates,
            verdict.told.as_slice(),
            arrival,
            ready,
        );
    }
}

// Gives frames their timestamps, in order.
fn tell_from(times: &mut Times, dates: &Dates, told: &[Timed], arrival: u64, ready: &mut Ready)
    requires { length ready.old.items + length told.now ≤ 4 }
    ensures times { times.new ≡ gone_all dates.now arrival times.old told.now }
    ensures told { ready.new.items ≡ ready.old.items ++ timed_all dates.now arrival times.old told.now }
{
    if let Some((one, more)) = told.split_first() {
        let moment = times.go_on(dates.own(one.moment), arrival);
        ready.push(Timed {
            moment,
            frame: one.frame,
        });
        tell_from(times, dates, more, arrival, ready);
    }
}

// Returns the frame of an item.
pub(crate) fn frame_in(found: &Found) -> [u8; 14]
    ensures { result ≡ frame_in found.now }
{
    match found {
        Found::Whole(message) => whole_of(&message.frame),
        Found::Damage => [0; 14],
        Found::ReceiverId => [0; 14],
        Found::Foreign(_) => [0; 14],
    }
}

// Returns a frame, followed by zeros.
#[inline(always)]
pub(crate) fn whole_of(frame: &RawFrame) -> [u8; 14]
    ensures { result ≡ whole_of frame.now }
{
    match frame {
        RawFrame::Long(frame) => *frame,
        RawFrame::Short(frame) => padded(frame),
        RawFrame::ModeAc(frame) => padded(frame),
    }
}

// Returns the bytes of a frame, followed by zeros.
fn padded(frame: &[u8]) -> [u8; 14]
    requires { length frame.now ≤ 14 }
    ensures { result ≡ padded frame.now }
{
    let mut whole = [0; 14];
    whole[..frame.len()].copy_from_slice(frame);
    whole
}

// Returns what becomes of a frame, or `None` if that depends on its time.
#[inline(always)]
fn fate_of(all_formats: bool, time: Time, frame: &RawFrame) -> Option<Fate>
    ensures { result ≡ fate_of all_formats time frame.now }
{
    match frame {
        RawFrame::ModeAc(_) => Some(Fate::ModeAc),
        RawFrame::Short(frame) => fate_of_short(all_formats, time, frame),
        RawFrame::Long(frame) => fate_of_long(all_formats, time, frame),
    }
}

// Returns what becomes of a short frame, or `None` if that depends on its time.
fn fate_of_short(all_formats: bool, time: Time, frame: &[u8; 7]) -> Option<Fate>
    ensures { result ≡ fate_of_short all_formats time frame.now }
{
    let format = frame[0] >> 3;
    if format >= FIRST_LONG {
        Some(Fate::Damaged)
    } else if is_multilaterated(time) {
        Some(Fate::Multilaterated)
    } else if all_formats {
        None
    } else {
        Some(Fate::OtherFormat(format))
    }
}

// Returns what becomes of a long frame, or `None` if that depends on its time.
#[inline(always)]
fn fate_of_long(all_formats: bool, time: Time, frame: &[u8; 14]) -> Option<Fate>
    ensures { result ≡ fate_of_long all_formats time frame.now }
{
    let format = frame[0] >> 3;
    if format < FIRST_LONG {
        Some(Fate::Damaged)
    } else if is_multilaterated(time) {
        Some(Fate::Multilaterated)
    } else if format != SQUITTER && !all_formats {
        Some(Fate::OtherFormat(format))
    } else {
        None
    }
}

// Returns whether a long frame is an extended squitter.
#[inline(always)]
fn is_squitter(frame: &[u8; 14]) -> bool
    ensures { result ≡ true → (all : Bool) (time : Time) → is_multilaterated time ≡ false
        → fate_of_long all time frame.now ≡ None }
{
    frame[0] >> 3 == SQUITTER
}

// Returns whether a server computed this time by multilateration.
#[inline(always)]
fn is_multilaterated(time: Time) -> bool
    ensures { result ≡ is_multilaterated time }
{
    match time {
        Time::Ticks(ticks) => ticks == MULTILATERATED,
        Time::Unknown => false,
        Time::Millis(_) => false,
    }
}
