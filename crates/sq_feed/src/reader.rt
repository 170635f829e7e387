//! Splits a source of a known or an unknown format into items.
ghost use Rattle.std.specs.Prelude.{◌≡◌, ◌⊎◌, ◌+◌, ◌-◌, ◌<◌, ◌≤◌, [], ◌∷◌, IfSome, None, false, if◌then◌else◌, length, nat_lt, take, true, option_to_list};
ghost use Rattle.sq_feed.specs.Follows.{Follows};
ghost use Rattle.sq_feed.specs.Readers.{HasClosed, HasEnded, IsEnding, IsNew, awaited, calls_for, calls_left, format_at};
ghost use Rattle.sq_feed.specs.Readers.{lost_items, new_reads, unread};
ghost use Rattle.sq_feed.specs.Machines.{new_machine, to_come};

use crate::finder::Finder;
use crate::machine::{Format, Machine};
use crate::message::{Found, Message, Stranger};
use crate::signs::Sign;
use std::marker::Model;

/// The stage of reading a source.
#[derive(Clone, Copy)]
pub(crate) enum Stage {
    /// Its first bytes have not shown the format yet.
    Finding,
    /// The machine reads it.
    Reading,
    /// The machine reads the bytes that showed the format, before it goes on.
    Replaying,
    /// The source has ended: the machine reads what is left, and then another source begins.
    Ending,
    /// The source has ended: what it was is to be given, and then another source begins.
    Naming(Stranger),
    /// It is of no known format: the rest is left out.
    Over,
}

/// Splits a source into items, and finds its format first if none is asked for.
#[derive(Drop)]
pub(crate) struct Reader {
    asked: Option<Format>,
    stage: Stage,
    finder: Finder,
    at: usize,
    machine: Machine,
}

impl Model for Reader {
    ghost use Rattle.std.specs.Prelude.{◌≤◌, length};
    ghost use Rattle.sq_feed.specs.Finding.{limit};
    ghost use Rattle.sq_feed.specs.Readers.{HasRoomAt, Reads};

    ghost Value = { Reads };

    ghost view = { λ s. record {
      asked = s.asked;
      stage = s.stage;
      finder = s.finder;
      at = s.at;
      machine = s.machine;
    } };

    ghost invariant = { λ s. (s.at ≤ length s.finder.held) × (length s.finder.held ≤ limit)
        × HasRoomAt s.stage s.finder };
}

impl Reader {
    // Returns a reader at the start of a source of this format. Without a format, the first bytes show it.
    pub(crate) fn new(asked: Option<Format>) -> Reader
        ensures value { result ≡ new_reads asked }
        ensures new { IsNew asked result }
    {
        match asked {
            Some(format) => Reader {
                asked,
                stage: Stage::Reading,
                finder: Finder::new(),
                at: 0,
                machine: Machine::new(format),
            },
            None => Reader {
                asked,
                stage: Stage::Finding,
                finder: Finder::new(),
                at: 0,
                machine: Machine::new(Format::Log),
            },
        }
    }

    // Returns the first message of a piece and its length, if the format is Beast, no message is begun, and it is
    // whole, without an escape.
    #[inline(always)]
    pub(crate) fn whole_message(&self, piece: &[u8]) -> Option<(Message, usize)>
        ensures reading { IfSome result (λ p. self.now.stage ≡ Stage.Reading) }
        ensures follows { IfSome result (λ p. (0 < p.1) × (p.1 ≤ length piece.now)
            × Follows (awaited self.now) (take p.1 piece.now) (Found.Whole p.0 ∷ []) (awaited self.now)) }
    {
        match self.stage {
            Stage::Reading => self.machine.whole_message(piece),
            Stage::Finding => None,
            Stage::Replaying => None,
            Stage::Ending => None,
            Stage::Naming(_) => None,
            Stage::Over => None,
        }
    }

    // Returns the first row's message and its length with the line end, if no line is begun. The format must be CSV,
    // and the row must have the usual form.
    #[inline(always)]
    pub(crate) fn whole_row(&self, piece: &[u8]) -> Option<(Message, usize)>
        ensures reading { IfSome result (λ p. self.now.stage ≡ Stage.Reading) }
        ensures follows { IfSome result (λ p. (0 < p.1) × (p.1 ≤ length piece.now)
            × Follows (awaited self.now) (take p.1 piece.now) (Found.Whole p.0 ∷ []) (awaited self.now)) }
    {
        match self.stage {
            Stage::Reading => self.machine.whole_row(piece),
            Stage::Finding => None,
            Stage::Replaying => None,
            Stage::Ending => None,
            Stage::Naming(_) => None,
            Stage::Over => None,
        }
    }

    // Returns the first message of a piece and its length, if no message is begun, and it is whole in a text, in its
    // usual form.
    #[inline(always)]
    pub(crate) fn whole_line(&self, piece: &[u8]) -> Option<(Message, usize)>
        ensures reading { IfSome result (λ p. self.now.stage ≡ Stage.Reading) }
        ensures follows { IfSome result (λ p. (0 < p.1) × (p.1 ≤ length piece.now)
            × Follows (awaited self.now) (take p.1 piece.now) (Found.Whole p.0 ∷ []) (awaited self.now)) }
    {
        match self.stage {
            Stage::Reading => self.machine.whole_line(piece),
            Stage::Finding => None,
            Stage::Replaying => None,
            Stage::Ending => None,
            Stage::Naming(_) => None,
            Stage::Over => None,
        }
    }

    // Takes bytes of a piece up to the end of the first item, or all of them. Bytes that were taken before the format
    // was known, or before the source ended, come first. Returns how many bytes of the piece it took, and the item.
    #[inline(always)]
    pub(crate) fn take(&mut self, piece: &[u8]) -> (usize, Option<Found>)
        ensures fits { result.0 ≤ length piece.now }
        ensures asked { self.new.asked ≡ self.old.asked }
        ensures follows { Follows (awaited self.old) (take result.0 piece.now) (option_to_list result.1)
            (awaited self.new) }
        ensures goes_on { (0 < length piece.now) ⊎ (0 < calls_left self.old)
            → calls_left self.new < calls_left self.old + calls_for result.0 }
        ensures ended { IsEnding self.old.stage → HasEnded self.new }
    {
        match self.stage {
            Stage::Reading => self.machine.take(piece),
            Stage::Finding => self.find(piece),
            Stage::Replaying => (0, self.replay()),
            Stage::Ending => (0, self.end()),
            Stage::Naming(stranger) => (0, self.name(stranger)),
            Stage::Over => (piece.len(), None),
        }
    }

    // Returns whether more calls are needed for this many bytes: there are some, or bytes are to be read again.
    #[inline(always)]
    pub(crate) fn goes_on(&self, bytes: usize) -> bool
        ensures more { result ≡ true → (0 < bytes) ⊎ (0 < calls_left self.now) }
        ensures done { result ≡ false → (bytes ≡ 0) × (calls_left self.now ≡ 0) }
    {
        bytes > 0 || self.is_behind()
    }

    // Returns whether calls without a byte are needed.
    #[inline(always)]
    fn is_behind(&self) -> bool
        ensures { result ≡ nat_lt 0 (calls_left self.now) }
    {
        match self.stage {
            Stage::Finding => false,
            Stage::Reading => false,
            Stage::Replaying => true,
            Stage::Ending => true,
            Stage::Naming(_) => true,
            Stage::Over => false,
        }
    }

    // Ends the source: its last items wait to be given, and another source comes after them.
    pub(crate) fn close(&mut self)
        ensures closed { HasClosed self.old self.new }
        ensures ended { HasEnded self.new }
    {
        match self.stage {
            Stage::Finding => self.close_finding(),
            Stage::Reading => {
                self.at = self.finder.held().len();
                self.stage = Stage::Ending;
            }
            Stage::Replaying => self.stage = Stage::Ending,
            Stage::Ending => {}
            Stage::Naming(_) => {}
            Stage::Over => self.restart(),
        }
    }

    // Goes to the start of another source.
    pub(crate) fn restart(&mut self)
        ensures new { IsNew self.old.asked self.new }
        ensures done { calls_left self.new ≡ 0 }
    {
        *self = Reader::new(self.asked);
    }

    // Returns damage if the source is lost here and anything is begun or not read.
    pub(crate) fn cut_off(&self) -> Option<Found>
        ensures { option_to_list result ≡ lost_items self.now }
    {
        match self.stage {
            Stage::Finding => damage_if(!self.finder.held().is_empty()),
            Stage::Reading => self.machine.cut_off(),
            Stage::Replaying => Some(Found::Damage),
            Stage::Ending => Some(Found::Damage),
            Stage::Naming(_) => Some(Found::Damage),
            Stage::Over => None,
        }
    }

    // Returns the format of the source, once it is known.
    pub(crate) fn format(&self) -> Option<Format>
        ensures { result ≡ format_at self.now.stage self.now }
    {
        match self.stage {
            Stage::Finding => None,
            Stage::Reading => Some(self.machine.format()),
            Stage::Replaying => Some(self.machine.format()),
            Stage::Ending => Some(self.machine.format()),
            Stage::Naming(_) => None,
            Stage::Over => None,
        }
    }

    // Takes bytes of a piece while the format is unknown.
    #[inline(never)]
    fn find(&mut self, piece: &[u8]) -> (usize, Option<Found>)
        requires { self.old.stage ≡ Stage.Finding }
        ensures fits { result.0 ≤ length piece.now }
        ensures some { 0 < length piece.now → 0 < result.0 }
        ensures asked { self.new.asked ≡ self.old.asked }
        ensures follows { Follows (awaited self.old) (take result.0 piece.now) (option_to_list result.1)
            (awaited self.new) }
        ensures few { calls_left self.new ≤ 16385 }
    {
        let (count, sign) = self.finder.take(piece);
        match sign {
            Sign::Unclear => (count, None),
            Sign::Shows(format) => {
                self.stage = Stage::Replaying;
                self.read_again(format);
                (count, None)
            }
            Sign::Other(stranger) => {
                self.stage = Stage::Over;
                (count, Some(Found::Foreign(stranger)))
            }
        }
    }

    // Starts the machine of this format, which is to read the first bytes of the source again.
    fn read_again(&mut self, format: Format)
        ensures { self.new ≡ record self.old { at = 0; machine = new_machine format } }
    {
        self.machine = Machine::new(format);
        self.at = 0;
    }

    // Has the machine read the bytes that showed the format, up to the end of the first item.
    #[inline(never)]
    fn replay(&mut self) -> Option<Found>
        requires { self.old.stage ≡ Stage.Replaying }
        ensures asked { self.new.asked ≡ self.old.asked }
        ensures follows { Follows (awaited self.old) [] (option_to_list result) (awaited self.new) }
        ensures fewer { calls_left self.new < calls_left self.old }
    {
        if self.at == self.finder.held().len() {
            self.stage = Stage::Reading;
            return None;
        }
        self.read_held()
    }

    // Has the machine read bytes that were taken before, up to the end of the first item.
    fn read_held(&mut self) -> Option<Found>
        requires { self.old.at < length self.old.finder.held }
        ensures at { (self.old.at < self.new.at) × (self.new.at ≤ length self.old.finder.held) }
        ensures same { self.new ≡ record self.old { at = self.new.at; machine = self.new.machine } }
        ensures follows { Follows (to_come self.old.machine) (take (self.new.at - self.old.at) (unread self.old))
            (option_to_list result) (to_come self.new.machine) }
    {
        let (count, found) = self.machine.take(&self.finder.held()[self.at..]);
        self.at += count;
        found
    }

    // Gives the last items of a source, one a call, and begins another source after them.
    #[inline(never)]
    fn end(&mut self) -> Option<Found>
        requires { self.old.stage ≡ Stage.Ending }
        ensures asked { self.new.asked ≡ self.old.asked }
        ensures follows { Follows (awaited self.old) [] (option_to_list result) (awaited self.new) }
        ensures fewer { calls_left self.new < calls_left self.old }
        ensures ended { HasEnded self.new }
    {
        if self.at < self.finder.held().len() {
            return self.read_held();
        }
        let last = self.machine.finish();
        self.restart();
        last
    }

    // Gives what a source was, and begins another one.
    fn name(&mut self, stranger: Stranger) -> Option<Found>
        requires { self.old.stage ≡ Stage.Naming stranger }
        ensures asked { self.new.asked ≡ self.old.asked }
        ensures follows { Follows (awaited self.old) [] (option_to_list result) (awaited self.new) }
        ensures fewer { calls_left self.new < calls_left self.old }
        ensures ended { HasEnded self.new }
    {
        self.restart();
        Some(Found::Foreign(stranger))
    }

    // Ends a source before its format is known.
    fn close_finding(&mut self)
        requires { self.old.stage ≡ Stage.Finding }
        ensures closed { HasClosed self.old self.new }
        ensures ended { HasEnded self.new }
    {
        match self.finder.finish() {
            Sign::Unclear => self.restart(),
            Sign::Shows(format) => {
                self.stage = Stage::Ending;
                self.read_again(format);
            }
            Sign::Other(stranger) => self.stage = Stage::Naming(stranger),
        }
    }
}

// Returns damage, if there is any.
fn damage_if(is_damaged: bool) -> Option<Found>
    ensures { option_to_list result ≡ (if is_damaged then Found.Damage ∷ [] else []) }
{
    if is_damaged {
        Some(Found::Damage)
    } else {
        None
    }
}
