//! How many items were found, and what became of each.
ghost use Rattle.std.specs.Prelude.{◌≡◌, ◌<◌, slice_index, min};
ghost use Rattle.sq_feed.specs.Counts.{AddsUp, counted, counted_rows, nothing_counted};

use std::marker::Model;

// The number of downlink formats. Formats 24 and above count as one.
const FORMATS: usize = 25;

/// What became of an item.
#[derive(Clone, Copy)]
pub enum Fate {
    /// Its frame was written.
    Written,
    /// Its frame is of another downlink format than 17.
    OtherFormat(u8),
    /// Its frame is a reply of Mode A/C.
    ModeAc,
    /// A server computed its time by multilateration.
    Multilaterated,
    /// It is the id of a receiver, and no frame.
    ReceiverId,
    /// It is damage, or a frame of the wrong length for its downlink format.
    Damaged,
    /// Its time was set aside.
    Aside,
}

/// Counts of items, by their fates. They add up to the items found, up to 2^64 - 1.
#[derive(Clone, Copy)]
pub struct Counts {
    found: u64,
    written: u64,
    mode_ac: u64,
    multilaterated: u64,
    receiver_ids: u64,
    damaged: u64,
    aside: u64,
    formats: [u64; 25],
}

impl Model for Counts {
    ghost use Rattle.std.specs.Prelude.{◌<◌, ◌^◌};
    ghost use Rattle.sq_feed.specs.Counts.{AddsUp, Tally};

    ghost Value = { Tally };

    ghost view = { λ s. record {
      found = s.found;
      written = s.written;
      mode_ac = s.mode_ac;
      multilaterated = s.multilaterated;
      receiver_ids = s.receiver_ids;
      damaged = s.damaged;
      aside = s.aside;
      formats = s.formats;
    } };

    ghost invariant = { λ s. AddsUp (record {
      found = s.found;
      written = s.written;
      mode_ac = s.mode_ac;
      multilaterated = s.multilaterated;
      receiver_ids = s.receiver_ids;
      damaged = s.damaged;
      aside = s.aside;
      formats = s.formats;
    }) };

    ghost inverse = { λ s. record {
      found = s.found;
      written = s.written;
      mode_ac = s.mode_ac;
      multilaterated = s.multilaterated;
      receiver_ids = s.receiver_ids;
      damaged = s.damaged;
      aside = s.aside;
      formats = s.formats;
    } };

    ghost inverse_ok = { λ s h i. s };
}

impl Counts {
    /// Returns counts of nothing.
    pub fn new() -> Counts
        ensures { result ≡ nothing_counted }
    {
        Counts {
            found: 0,
            written: 0,
            mode_ac: 0,
            multilaterated: 0,
            receiver_ids: 0,
            damaged: 0,
            aside: 0,
            formats: [0; 25],
        }
    }

    /// Counts an item by its fate. Counts nothing more after 2^64 - 1 items.
    #[inline(always)]
    pub fn count(&mut self, fate: Fate)
        ensures { self.new ≡ counted self.old fate }
    {
        if self.found == u64::MAX {
            return;
        }
        self.found += 1;
        match fate {
            Fate::Written => self.written += 1,
            Fate::OtherFormat(format) => self.formats[usize::from(format).min(FORMATS - 1)] += 1,
            Fate::ModeAc => self.mode_ac += 1,
            Fate::Multilaterated => self.multilaterated += 1,
            Fate::ReceiverId => self.receiver_ids += 1,
            Fate::Damaged => self.damaged += 1,
            Fate::Aside => self.aside += 1,
        }
    }

    /// Counts rows that were written, and rows that were set aside. Counts none if more than 2^64 - 1 items were found.
    #[inline(always)]
    pub fn count_rows(&mut self, written: u8, aside: u8)
        ensures { self.new ≡ counted_rows self.old written aside }
    {
        let (written, aside) = (u64::from(written), u64::from(aside));
        let Some(found) = self.found.checked_add(written + aside) else {
            return;
        };
        self.found = found;
        self.written += written;
        self.aside += aside;
    }

    /// Returns how many items were found: the sum of all other counts.
    pub fn found(&self) -> u64
        ensures value { result ≡ self.now.found }
        ensures sum { AddsUp self.now }
    {
        let Counts { found, .. } = self;
        *found
    }

    /// Returns how many frames were written.
    pub fn written(&self) -> u64
        ensures { result ≡ self.now.written }
    {
        let Counts { written, .. } = self;
        *written
    }

    /// Returns how many frames were of a downlink format other than 17. All formats from 24 up are counted as 24.
    pub fn of_format(&self, format: u8) -> u64
        ensures { result ≡ slice_index self.now.formats (min format 24) }
    {
        self.formats[usize::from(format).min(FORMATS - 1)]
    }

    /// Returns the number of frames of each downlink format from 0 to 24, other than 17. Format 24 includes all above.
    pub fn formats(&self) -> [u64; 25]
        ensures { result ≡ self.now.formats }
    {
        let Counts { formats, .. } = self;
        *formats
    }

    /// Returns how many frames were replies of Mode A/C.
    pub fn mode_ac(&self) -> u64
        ensures { result ≡ self.now.mode_ac }
    {
        self.mode_ac
    }

    /// Returns how many frames were multilaterated.
    pub fn multilaterated(&self) -> u64
        ensures { result ≡ self.now.multilaterated }
    {
        self.multilaterated
    }

    /// Returns how many items were ids of receivers.
    pub fn receiver_ids(&self) -> u64
        ensures { result ≡ self.now.receiver_ids }
    {
        self.receiver_ids
    }

    /// Returns how many items were damage, or frames of the wrong length for their downlink format.
    pub fn damaged(&self) -> u64
        ensures { result ≡ self.now.damaged }
    {
        self.damaged
    }

    /// Returns how many frames had a time that was set aside.
    pub fn aside(&self) -> u64
        ensures { result ≡ self.now.aside }
    {
        let Counts { aside, .. } = self;
        *aside
    }
}
