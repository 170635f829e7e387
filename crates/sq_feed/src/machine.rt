//! The machine of each format.
ghost use Rattle.std.specs.Prelude.{◌≡◌, ◌<◌, ◌≤◌, [], ◌∷◌, IfSome, length, take, option_to_list};
ghost use Rattle.sq_feed.specs.Follows.{Follows};
ghost use Rattle.sq_feed.specs.Machines.{dropped, layout_of, new_machine, to_come};

use crate::avr::Avr;
use crate::beast::Beast;
use crate::message::{Found, Message};
use crate::rows::{Columns, Layout, Rows};
use std::marker::Model;

/// The format of a source.
#[derive(Clone, Copy)]
pub enum Format {
    /// Beast binary.
    Beast,
    /// AVR text.
    Avr,
    /// Rows of CSV with the columns `time` and `rawmsg`.
    Csv,
    /// The log that `track` reads.
    Log,
}

/// Splits a source of one format into items.
#[derive(Drop)]
pub(crate) struct Machine {
    format: Format,
    beast: Beast,
    avr: Avr,
    rows: Rows,
}

impl Model for Machine {
    ghost use Rattle.sq_feed.specs.Follows.{Follows};
    ghost use Rattle.sq_feed.specs.Machines.{Begins};

    ghost Value = { Begins };

    ghost view = { λ s. record { format = s.format; beast = s.beast; avr = s.avr; rows = s.rows } };
}

impl Machine {
    // Returns the machine of a format, at the start of a source.
    pub(crate) fn new(format: Format) -> Machine
        ensures { result ≡ new_machine format }
    {
        Machine {
            format,
            beast: Beast::new(),
            avr: Avr::new(),
            rows: Rows::new(layout_of(format)),
        }
    }

    // Returns the format.
    pub(crate) fn format(&self) -> Format
        ensures { result ≡ self.now.format }
    {
        self.format
    }

    // Returns the first message of a piece and its length, if the format is Beast, no message is begun, and it is
    // whole, without an escape.
    #[inline(always)]
    pub(crate) fn whole_message(&self, piece: &[u8]) -> Option<(Message, usize)>
        ensures { IfSome result (λ p. (0 < p.1) × (p.1 ≤ length piece.now)
            × Follows (to_come self.now) (take p.1 piece.now) (Found.Whole p.0 ∷ []) (to_come self.now)) }
    {
        match self.format {
            Format::Beast => self.beast.whole(piece),
            Format::Avr => None,
            Format::Csv => None,
            Format::Log => None,
        }
    }

    // Returns the first row's message and its length with the line end, if no line is begun. The format must be CSV,
    // and the row must have the usual form.
    #[inline(always)]
    pub(crate) fn whole_row(&self, piece: &[u8]) -> Option<(Message, usize)>
        ensures { IfSome result (λ p. (0 < p.1) × (p.1 ≤ length piece.now)
            × Follows (to_come self.now) (take p.1 piece.now) (Found.Whole p.0 ∷ []) (to_come self.now)) }
    {
        match self.format {
            Format::Csv => self.rows.plain(piece),
            Format::Beast => None,
            Format::Avr => None,
            Format::Log => None,
        }
    }

    // Returns the first message of a piece and its length, if no message is begun, and it is whole in a text, in its
    // usual form.
    #[inline(always)]
    pub(crate) fn whole_line(&self, piece: &[u8]) -> Option<(Message, usize)>
        ensures { IfSome result (λ p. (0 < p.1) × (p.1 ≤ length piece.now)
            × Follows (to_come self.now) (take p.1 piece.now) (Found.Whole p.0 ∷ []) (to_come self.now)) }
    {
        match self.format {
            Format::Beast => None,
            Format::Avr => self.avr.whole(piece),
            Format::Csv => self.rows.whole(piece),
            Format::Log => self.rows.whole(piece),
        }
    }

    // Takes bytes of a piece up to the end of the first item, or all of them. Returns how many, and the item.
    #[inline(always)]
    pub(crate) fn take(&mut self, piece: &[u8]) -> (usize, Option<Found>)
        ensures fits { result.0 ≤ length piece.now }
        ensures some { 0 < length piece.now → 0 < result.0 }
        ensures format { self.new.format ≡ self.old.format }
        ensures follows { Follows (to_come self.old) (take result.0 piece.now) (option_to_list result.1)
            (to_come self.new) }
    {
        match self.format {
            Format::Beast => self.beast.take(piece),
            Format::Avr => self.avr.take(piece),
            Format::Csv => self.rows.take(piece),
            Format::Log => self.rows.take(piece),
        }
    }

    // Returns the item at the end of the source, if there is one.
    pub(crate) fn finish(&self) -> Option<Found>
        ensures { option_to_list result ≡ to_come self.now [] }
    {
        match self.format {
            Format::Beast => self.beast.finish(),
            Format::Avr => self.avr.finish(),
            Format::Csv => self.rows.finish(),
            Format::Log => self.rows.finish(),
        }
    }

    // Returns damage if the source is lost here and anything is begun.
    pub(crate) fn cut_off(&self) -> Option<Found>
        ensures { option_to_list result ≡ dropped self.now }
    {
        match self.format {
            Format::Beast => self.beast.finish(),
            Format::Avr => self.avr.cut_off(),
            Format::Csv => self.rows.cut_off(),
            Format::Log => self.rows.cut_off(),
        }
    }
}

// Returns the layout of lines in a format.
fn layout_of(format: Format) -> Layout
    ensures { result ≡ layout_of format }
{
    match format {
        Format::Csv => Layout::Csv(Columns { time: 0, frame: 2 }),
        Format::Log => Layout::Log,
        Format::Beast => Layout::Log,
        Format::Avr => Layout::Log,
    }
}
