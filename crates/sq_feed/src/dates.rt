//! The own times of frames: which are believed, and which frames wait until other frames confirm theirs.
ghost use Rattle.std.specs.Prelude.{◌≡◌, ◌++◌, ◌≤◌, [], ◌∷◌, if◌then◌else◌, length, option_to_list};
ghost use Rattle.sq_feed.specs.Dates.{IsVerdict, base_of, confirmed, confirmed_by, ended, ended_run, first_waiting, follows};
ghost use Rattle.sq_feed.specs.Dates.{goes_on_from, is_ahead, is_beside, is_calm, is_empty_run, is_fit, is_shown_at, is_timed, joined, judged};
ghost use Rattle.sq_feed.specs.Dates.{judged_later, longer_run, new_dates, own, replaced, run_waiting, shifted, started, waiting};

use crate::message::Timed;
use crate::times::Times;
use arrayvec::ArrayVec;

/// The first frame of a source with a time of its own. Its time is believed once a later one fits it.
#[derive(Clone, Copy)]
pub enum First {
    NoTime,
    Waits(Timed),
    Believed,
}

/// Frames in succession with times that jump. They wait until another one confirms them.
#[derive(Clone, Copy)]
pub enum Run {
    Empty,
    One(Timed),
    /// The second follows the first.
    Two(Timed, Timed),
    /// The second does not follow the first.
    Torn(Timed, Timed),
}

/// The state of a source whose frames have times of their own (ms). Frames that wait keep these times.
#[derive(Clone, Copy)]
pub struct Dates {
    pub first: First,
    pub run: Run,
    /// Added to each own time, since times that went back go on after the latest timestamp.
    pub ahead: u64,
    /// How often times went back.
    pub breaks: u64,
}

impl Dates {
    /// Returns the state before the first frame.
    pub(crate) fn new() -> Dates
        ensures { result ≡ new_dates }
    {
        Dates {
            first: First::NoTime,
            run: Run::Empty,
            ahead: 0,
            breaks: 0,
        }
    }

    /// Returns whether a time is believed and no frame waits.
    #[inline(always)]
    pub(crate) fn is_calm(&self) -> bool
        ensures { result ≡ is_calm self.now }
    {
        match self.first {
            First::NoTime => false,
            First::Waits(_) => false,
            First::Believed => is_empty(&self.run),
        }
    }

    /// Returns whether a frame with a time of its own came.
    pub(crate) fn is_timed(&self) -> bool
        ensures { result ≡ is_timed self.now }
    {
        match self.first {
            First::NoTime => false,
            First::Waits(_) => true,
            First::Believed => true,
        }
    }

    /// Returns how often times went back.
    pub(crate) fn breaks(&self) -> u64
        ensures { result ≡ self.now.breaks }
    {
        self.breaks
    }

    /// Returns an own time (ms) as a timestamp.
    #[inline(always)]
    pub(crate) fn own(&self, moment: u64) -> u64
        ensures { result ≡ own self.now moment }
    {
        moment.saturating_add(self.ahead)
    }

    /// Returns whether a time follows the latest believed time by at most a leap, is late by no more than frames may
    /// be, or agrees with the arrivals of a live source. Until a time is believed, the first frame's time is compared.
    #[inline(always)]
    pub(crate) fn is_fit(&self, times: &Times, arrival: u64, moment: u64) -> bool
        ensures { result ≡ is_fit times.now self.now arrival moment }
    {
        let own = self.own(moment);
        times.is_near(self.base(times), own) || self.is_shown(times, arrival, own)
    }

    // Returns whether the arrivals of a live source show this time.
    fn is_shown(&self, times: &Times, arrival: u64, moment: u64) -> bool
        ensures { result ≡ is_shown_at self.now.first times.now arrival moment }
    {
        match self.first {
            First::NoTime => false,
            First::Waits(_) => false,
            First::Believed => times.is_awaited(arrival, moment),
        }
    }

    // Returns whether a time is near that of this frame.
    fn is_beside(&self, times: &Times, last: &Timed, moment: u64) -> bool
        ensures { result ≡ is_beside times.now self.now last.now moment }
    {
        times.is_near(self.own(last.moment), self.own(moment))
    }

    // Returns whether a time is near that of this frame, or later in the same direction.
    fn follows(&self, times: &Times, last: &Timed, moment: u64) -> bool
        ensures { result ≡ follows times.now self.now last.now moment }
    {
        let own = self.own(moment);
        self.is_beside(times, last, moment)
            || self.own(last.moment) <= own
                && (self.is_ahead(times, last) || own < self.base(times))
    }

    /// Takes a frame with its own time, and decides which frames get timestamps and which are left out.
    pub(crate) fn judge(&mut self, times: &Times, arrival: u64, one: Timed) -> Verdict
        ensures { IsVerdict (judged times.now self.old arrival one) result self.new }
    {
        match self.first {
            First::NoTime => {
                self.first = First::Waits(one);
                Verdict::without(0)
            }
            First::Waits(_) => self.judge_later(times, arrival, one),
            First::Believed => self.judge_later(times, arrival, one),
        }
    }

    // Does what `judge` does for a frame that is not the first one.
    fn judge_later(&mut self, times: &Times, arrival: u64, one: Timed) -> Verdict
        ensures { IsVerdict (judged_later times.now self.old arrival one) result self.new }
    {
        if self.is_fit(times, arrival, one.moment) {
            let mut verdict = Verdict::without(run_len(&self.run));
            self.tell_first(&mut verdict);
            self.run = Run::Empty;
            verdict.told.push(one);
            return verdict;
        }
        self.lengthen(times, arrival, one)
    }

    /// Starts a clock: the frame's time is a timestamp. Frames that wait are left out.
    pub(crate) fn start(&mut self, one: Timed) -> Verdict
        ensures { IsVerdict (started self.old one) result self.new }
    {
        let mut verdict = Verdict::without(self.waiting_len());
        self.first = First::Believed;
        self.run = Run::Empty;
        self.ahead = 0;
        verdict.told.push(one);
        verdict
    }

    /// Appends a frame that jumps to the run, or tells the run.
    pub(crate) fn lengthen(&mut self, times: &Times, arrival: u64, one: Timed) -> Verdict
        ensures { IsVerdict (longer_run self.old.run times.now self.old arrival one) result self.new }
    {
        match self.run {
            Run::Empty => self.wait(Run::One(one), 0),
            Run::One(a) => {
                let run = self.joined(times, a, one);
                self.wait(run, 0)
            }
            Run::Two(a, b) => {
                if self.follows(times, &b, one.moment) {
                    self.confirm_by(times, arrival, a, b, one)
                } else {
                    self.replace(times, a, b, one)
                }
            }
            Run::Torn(a, b) => self.replace(times, a, b, one),
        }
    }

    // Returns the run of two frames.
    fn joined(&self, times: &Times, a: Timed, one: Timed) -> Run
        ensures { result ≡ joined times.now self.now a one }
    {
        if self.follows(times, &a, one.moment) {
            Run::Two(a, one)
        } else {
            Run::Torn(a, one)
        }
    }

    // Takes a third frame that does not confirm two: in place of the second if it goes on from the first, otherwise in
    // place of the first.
    fn replace(&mut self, times: &Times, a: Timed, b: Timed, one: Timed) -> Verdict
        ensures { IsVerdict (replaced times.now self.old a b one) result self.new }
    {
        let run = if self.goes_on_from(times, &a, &b, one.moment) {
            Run::Two(a, one)
        } else {
            self.joined(times, b, one)
        };
        self.wait(run, 1)
    }

    // Returns whether a time goes on from the first of two frames: it is near the first, or it follows the first and
    // not the second.
    fn goes_on_from(&self, times: &Times, a: &Timed, b: &Timed, moment: u64) -> bool
        ensures { result ≡ goes_on_from times.now self.now a.now b.now moment }
    {
        self.is_beside(times, a, moment)
            || self.follows(times, a, moment) && !self.follows(times, b, moment)
    }

    // Keeps a run that waits. So many frames are left out.
    fn wait(&mut self, run: Run, aside: u8) -> Verdict
        ensures after { self.new ≡ record self.old { run = run } }
        ensures told { result.told.items ≡ [] }
        ensures aside { result.aside ≡ aside }
    {
        self.run = run;
        Verdict::without(aside)
    }

    // Believes two frames of a run, since a third one follows them. If its time is near, it is returned with them.
    fn confirm_by(&mut self, times: &Times, arrival: u64, a: Timed, b: Timed, one: Timed) -> Verdict
        ensures { IsVerdict (confirmed_by times.now self.old arrival a b one) result self.new }
    {
        let is_beside = self.is_beside(times, &b, one.moment);
        let mut verdict = self.confirm(times, arrival, a, b);
        if is_beside {
            verdict.told.push(one);
        } else {
            self.run = Run::One(one);
        }
        verdict
    }

    /// Decides about the frames that wait, at the end of the source.
    pub(crate) fn end(&mut self, times: &Times) -> Verdict
        ensures { IsVerdict (ended times.now self.old) result self.new }
    {
        match self.first {
            First::NoTime => {
                let aside = run_len(&self.run);
                self.wait(Run::Empty, aside)
            }
            First::Waits(_) => self.end_run(times),
            First::Believed => self.end_run(times),
        }
    }

    // Does what `end` does after a first frame.
    fn end_run(&mut self, times: &Times) -> Verdict
        ensures { IsVerdict (ended_run self.old.run times.now self.old) result self.new }
    {
        match self.run {
            Run::Empty => self.end_first(None, 0),
            Run::One(a) => {
                if self.is_ahead(times, &a) {
                    self.end_first(Some(a), 0)
                } else {
                    self.end_first(None, 1)
                }
            }
            Run::Two(a, b) => self.confirm(times, times.arrival(), a, b),
            Run::Torn(_, _) => self.end_first(None, 2),
        }
    }

    // Tells the first frame, if it waits, and another one. So many frames are left out.
    fn end_first(&mut self, last: Option<Timed>, aside: u8) -> Verdict
        ensures after { self.new ≡ record self.old { first = First.Believed; run = Run.Empty } }
        ensures told { result.told.items ≡ first_waiting self.old.first ++ option_to_list last }
        ensures aside { result.aside ≡ aside }
    {
        let mut verdict = Verdict::without(aside);
        self.tell_first(&mut verdict);
        self.run = Run::Empty;
        if let Some(last) = last {
            verdict.told.push(last);
        }
        verdict
    }

    // Believes the times of a run. A run that goes ahead is returned with the source's first frame, and one that goes
    // back without it.
    fn confirm(&mut self, times: &Times, arrival: u64, a: Timed, b: Timed) -> Verdict
        ensures { IsVerdict (confirmed times.now self.old arrival a (a ∷ b ∷ []) Run.Empty) result self.new }
    {
        let mut verdict = Verdict::without(0);
        if self.is_ahead(times, &a) {
            self.tell_first(&mut verdict);
        } else {
            verdict.aside = first_len(&self.first);
            self.shift(times, arrival, &a);
            self.first = First::Believed;
        }
        self.run = Run::Empty;
        verdict.told.push(a);
        verdict.told.push(b);
        verdict
    }

    // Tells the first frame if it waits, and believes the times.
    fn tell_first(&mut self, verdict: &mut Verdict)
        requires { verdict.old.told.items ≡ [] }
        ensures told { verdict.new.told.items ≡ first_waiting self.old.first }
        ensures aside { verdict.new.aside ≡ verdict.old.aside }
        ensures after { self.new ≡ record self.old { first = First.Believed } }
    {
        match self.first {
            First::NoTime => {}
            First::Waits(first) => verdict.told.push(first),
            First::Believed => {}
        }
        self.first = First::Believed;
    }

    // Adds the distance from a run that goes back to the timestamp at which it starts anew to all later times.
    fn shift(&mut self, times: &Times, arrival: u64, one: &Timed)
        ensures { self.new ≡ shifted times.now self.old arrival one.now }
    {
        let own = self.own(one.moment);
        if times.latest() > own {
            let back = times.anew(arrival).saturating_sub(own);
            self.ahead = self.ahead.saturating_add(back);
            self.breaks = self.breaks.saturating_add(1);
        }
    }

    // Returns whether a frame of a run goes ahead.
    fn is_ahead(&self, times: &Times, one: &Timed) -> bool
        ensures { result ≡ is_ahead times.now self.now one.now }
    {
        self.base(times) <= self.own(one.moment)
    }

    // Returns the timestamp (ms) that a time is compared with.
    #[inline(always)]
    fn base(&self, times: &Times) -> u64
        ensures { result ≡ base_of times.now self.now }
    {
        match self.first {
            First::NoTime => times.latest(),
            First::Waits(one) => self.own(one.moment),
            First::Believed => times.latest(),
        }
    }

    // Returns how many frames wait.
    fn waiting_len(&self) -> u8
        ensures { result ≡ length (waiting self.now) }
    {
        first_len(&self.first) + run_len(&self.run)
    }
}

/// Frames that get timestamps, with their own times, and how many frames are left out.
#[derive(Drop)]
pub(crate) struct Verdict {
    pub(crate) told: ArrayVec<Timed, 4>,
    pub(crate) aside: u8,
}

impl Verdict {
    // Returns a verdict that leaves out so many frames.
    fn without(aside: u8) -> Verdict
        ensures told { result.told.items ≡ [] }
        ensures aside { result.aside ≡ aside }
    {
        Verdict {
            told: ArrayVec::new(),
            aside,
        }
    }
}

// Returns how many frames wait in a run.
fn run_len(run: &Run) -> u8
    ensures value { result ≡ length (run_waiting run.now) }
    ensures few { result ≤ 2 }
{
    match run {
        Run::Empty => 0,
        Run::One(_) => 1,
        Run::Two(_, _) => 2,
        Run::Torn(_, _) => 2,
    }
}

// Returns how many frames wait as the first one: 1 or 0.
fn first_len(first: &First) -> u8
    ensures value { result ≡ length (first_waiting first.now) }
    ensures few { result ≤ 1 }
{
    match first {
        First::NoTime => 0,
        First::Waits(_) => 1,
        First::Believed => 0,
    }
}

#[inline(always)]
fn is_empty(run: &Run) -> bool
    ensures { result ≡ is_empty_run run.now }
{
    match run {
        Run::Empty => true,
        Run::One(_) => false,
        Run::Two(_, _) => false,
        Run::Torn(_, _) => false,
    }
}
