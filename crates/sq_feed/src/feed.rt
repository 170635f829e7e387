//! Squitters and their timestamps from a source's bytes, as they come.
ghost use Rattle.std.specs.Prelude.{◌≡◌, ◌⊎◌, ◌+◌, ◌++◌, ◌≤◌, ◌<◌, [], ◌∷◌, false, length, take, true};
ghost use Rattle.sq_feed.specs.Ears.{ear_after, told_of};
ghost use Rattle.sq_feed.specs.Feeds.{HasClosedFeed, HasLost, HasSettled, HasTold, format_of_source, nothing_fed};
ghost use Rattle.sq_feed.specs.Feeds.{steps_for, steps_left, stored};
ghost use Rattle.sq_feed.specs.Readers.{HasEnded, IsEnding};
ghost use Rattle.sq_feed.specs.Times.{is_ahead_of_arrivals};

use crate::counts::Counts;
use crate::ear::{Ear, Ready, frame_in, whole_of};
use crate::machine::Format;
use crate::manner::Manner;
use crate::message::{Found, Message, Stranger, Timed};
use crate::reader::Reader;
use std::marker::Model;

/// What a step did: how many bytes it took, and whether it stored a squitter in the slot.
#[derive(Clone, Copy)]
pub struct Step {
    pub taken: usize,
    pub is_filled: bool,
}

/// Gives the squitters in a source's bytes, one at a time, and counts what it leaves out. Allocates nothing.
#[derive(Drop)]
pub struct Feed {
    reader: Reader,
    ear: Ear,
    ready: Ready,
}

impl Model for Feed {
    ghost use Rattle.std.specs.Prelude.{◌+◌, ◌≤◌, length};
    ghost use Rattle.sq_feed.specs.Dates.{waiting};
    ghost use Rattle.sq_feed.specs.Feeds.{Feeding};

    ghost Value = { Feeding };

    ghost view = { λ s. record { reader = s.reader; ear = s.ear; ready = s.ready.items } };

    ghost invariant = { λ s. length s.ready.items + length (waiting s.ear.dates) ≤ 3 };
}

impl Feed {
    /// Returns a feed at the start of a source of this format. Without a format, the first bytes of the source show it.
    pub fn new(format: Option<Format>, manner: &Manner) -> Feed
        ensures { result ≡ nothing_fed format manner.now }
    {
        Feed {
            reader: Reader::new(format),
            ear: Ear::new(manner),
            ready: Ready::new(),
        }
    }

    /// Takes bytes of a piece that arrived at `arrival` (ms), up to the end of the first item, or all of them. Stores
    /// the item's squitter in the slot, if it has one. While the format is unknown, bytes are taken without squitters.
    /// Those of the first items follow in later steps, which may have no bytes. So do squitters that waited for others
    /// to confirm their times.
    ///
    /// `COPY` changes nothing. LLVM inlines a step that has one caller, and each number is a copy of its own: two
    /// loops of one program take two numbers.
    #[inline(always)]
    pub fn step_into<const COPY: usize>(
        &mut self,
        piece: &[u8],
        arrival: u64,
        into: &mut Timed,
    ) -> Step
        ensures fits { result.taken ≤ length piece.now }
        ensures goes_on { (0 < length piece.now) ⊎ (0 < steps_left self.old)
            → steps_left self.new < steps_left self.old + steps_for result.taken }
        ensures ended { IsEnding self.old.reader.stage → HasEnded self.new.reader }
        ensures told { HasTold arrival self.old (take result.taken piece.now) (stored result.is_filled into.new)
            self.new }
        ensures kept { result.is_filled ≡ false → into.new ≡ into.old }
        ensures ready { 0 < length self.old.ready → self.new.reader ≡ self.old.reader }
    {
        if !self.ready.is_empty() {
            return self.step_ready(into);
        }
        if let Some((message, taken)) = self.reader.whole_message(piece) {
            let is_filled = self.store(&message, arrival, into);
            return Step { taken, is_filled };
        }
        if let Some((message, taken)) = self.reader.whole_row(piece) {
            let is_filled = self.store(&message, arrival, into);
            return Step { taken, is_filled };
        }
        if let Some((message, taken)) = self.reader.whole_line(piece) {
            let is_filled = self.store(&message, arrival, into);
            return Step { taken, is_filled };
        }
        self.step_other(piece, arrival, into)
    }

    /// Ends the source: its last squitters come with the next calls, which may have no bytes. Bytes after them belong
    /// to another source.
    pub fn close(&mut self)
        ensures closed { HasClosedFeed self.old self.new }
        ensures ended { HasEnded self.new.reader }
    {
        self.reader.close();
    }

    /// Decides about frames that wait for others to confirm their times, since none comes: at the end of a source, once
    /// all its squitters are given. Those that get timestamps come with the next steps.
    pub fn settle(&mut self)
        ensures { HasSettled self.old self.new }
    {
        let Feed { ear, ready, .. } = self;
        ear.end(ready);
    }

    /// Returns the format of the source, once it is known.
    pub fn format(&self) -> Option<Format>
        ensures { result ≡ format_of_source self.now }
    {
        self.reader.format()
    }

    /// Returns what the last source without frames was, if there was one. It is known by the first bytes or lines of
    /// the source, or at its end.
    pub fn stranger(&self) -> Option<Stranger>
        ensures { result ≡ self.now.ear.stranger }
    {
        self.ear.stranger()
    }

    /// Returns whether timestamps are the source's own, and not those of a receiver's clock or of arrivals.
    pub fn is_dated(&self) -> bool
        ensures { result ≡ self.now.ear.is_dated }
    {
        self.ear.is_dated()
    }

    /// Returns how often the times of a source went back. Behind such a break, timestamps go on after the latest one:
    /// in a live source with a clock by the arrival, otherwise by more than a leap.
    pub fn breaks(&self) -> u64
        ensures { result ≡ self.now.ear.dates.breaks }
    {
        self.ear.breaks()
    }

    /// Returns whether the timestamps of a live source are ahead of its arrivals by more than a leap. Then it is a
    /// recording, or its clock does not run at 12 MHz.
    pub fn is_ahead_of_arrivals(&self) -> bool
        ensures { result ≡ is_ahead_of_arrivals self.now.ear.times }
    {
        self.ear.is_ahead_of_arrivals()
    }

    /// Drops an unfinished frame after a lost connection, and counts it as damaged. Decides about frames that wait:
    /// those that get timestamps come with the next steps. The next bytes belong to a new connection: its clock starts
    /// afresh.
    pub fn disconnected(&mut self)
        ensures { HasLost self.old self.new }
    {
        let last = self.reader.cut_off();
        if let Some(found) = last {
            let _ = self.ear.hear(&found, 0, &mut self.ready);
        }
        self.ear.end(&mut self.ready);
        self.ear.restart();
        self.reader.restart();
    }

    /// Returns the counts. Each item found is counted once: the other counts add up to `found`.
    pub fn counts(&self) -> Counts
        ensures { result ≡ self.now.ear.counts }
    {
        self.ear.counts()
    }

    /// Returns whether a call with this many bytes has work to do: there are bytes, or squitters wait.
    pub fn goes_on(&self, bytes: usize) -> bool
        ensures more { result ≡ true → (0 < bytes) ⊎ (0 < steps_left self.now) }
        ensures done { result ≡ false → (bytes ≡ 0) × (steps_left self.now ≡ 0) }
    {
        self.reader.goes_on(bytes) || !self.ready.is_empty()
    }

    // Stores the first squitter that is ready.
    #[cold]
    #[inline(never)]
    fn step_ready(&mut self, into: &mut Timed) -> Step
        requires { 0 < length self.old.ready }
        ensures taken { result.taken ≡ 0 }
        ensures filled { result.is_filled ≡ true }
        ensures same { (self.new.reader ≡ self.old.reader) × (self.new.ear ≡ self.old.ear) }
        ensures told { into.new ∷ self.new.ready ≡ self.old.ready }
    {
        *into = self.ready.remove(0);
        Step {
            taken: 0,
            is_filled: true,
        }
    }

    // Hears a message, and stores its squitter, if it has one. Returns whether it has.
    #[inline(always)]
    fn store(&mut self, message: &Message, arrival: u64, into: &mut Timed) -> bool
        requires { self.old.ready ≡ [] }
        ensures reader { self.new.reader ≡ self.old.reader }
        ensures heard { self.new.ear ≡ ear_after arrival self.old.ear (Found.Whole message.now) }
        ensures told { stored result into.new ++ self.new.ready
            ≡ told_of arrival self.old.ear (Found.Whole message.now) }
        ensures kept { result ≡ false → into.new ≡ into.old }
        ensures few { length self.new.ready ≤ 3 }
    {
        if let Some(one) = self.ear.hear_next(message, arrival) {
            *into = one;
            return true;
        }
        match self.ear.hear_message(message, arrival, &mut self.ready) {
            Some(moment) => {
                into.moment = moment;
                into.frame = whole_of(&message.frame);
                true
            }
            None => give_first(&mut self.ready, into),
        }
    }

    // Does what `step_into` does, for any piece.
    #[inline(never)]
    fn step_other(&mut self, piece: &[u8], arrival: u64, into: &mut Timed) -> Step
        requires { self.old.ready ≡ [] }
        ensures fits { result.taken ≤ length piece.now }
        ensures goes_on { (0 < length piece.now) ⊎ (0 < steps_left self.old)
            → steps_left self.new < steps_left self.old + steps_for result.taken }
        ensures ended { IsEnding self.old.reader.stage → HasEnded self.new.reader }
        ensures told { HasTold arrival self.old (take result.taken piece.now) (stored result.is_filled into.new)
            self.new }
        ensures kept { result.is_filled ≡ false → into.new ≡ into.old }
    {
        let (taken, found) = self.reader.take(piece);
        match found {
            Some(found) => {
                let is_filled = self.store_item(&found, arrival, into);
                Step { taken, is_filled }
            }
            None => Step {
                taken,
                is_filled: false,
            },
        }
    }

    // Does what `store` does, for any item.
    fn store_item(&mut self, found: &Found, arrival: u64, into: &mut Timed) -> bool
        requires { self.old.ready ≡ [] }
        ensures reader { self.new.reader ≡ self.old.reader }
        ensures heard { self.new.ear ≡ ear_after arrival self.old.ear found.now }
        ensures told { stored result into.new ++ self.new.ready ≡ told_of arrival self.old.ear found.now }
        ensures kept { result ≡ false → into.new ≡ into.old }
        ensures few { length self.new.ready ≤ 3 }
    {
        match self.ear.hear(found, arrival, &mut self.ready) {
            Some(moment) => {
                into.moment = moment;
                into.frame = frame_in(found);
                true
            }
            None => give_first(&mut self.ready, into),
        }
    }
}

// Stores the first squitter that is ready, if there is one. Returns whether there is.
fn give_first(ready: &mut Ready, into: &mut Timed) -> bool
    ensures told { stored result into.new ++ ready.new.items ≡ ready.old.items }
    ensures none { result ≡ false → ready.new.items ≡ [] }
    ensures fewer { result ≡ true → length ready.new.items + 1 ≡ length ready.old.items }
    ensures kept { result ≡ false → into.new ≡ into.old }
{
    if ready.is_empty() {
        return false;
    }
    *into = ready.remove(0);
    true
}
