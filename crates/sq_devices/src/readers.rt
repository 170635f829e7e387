//! A source over any reader.
ghost use Rattle.std.specs.Prelude.{◌≡◌, ◌≤◌, false};
ghost use Rattle.sq_devices.specs.Device.{most_gets};

use crate::{Failed, Source};
use std::io::Read;

/// A source over a reader, for a bounded number of gets.
#[derive(Drop)]
pub struct Reading<R> {
    reader: R,
    gets: u64,
    failed: bool,
    ghost few: { gets ≤ most_gets },
}

impl<R: Read> Reading<R> {
    ghost use Rattle.sq_devices.specs.Streams.{reader_of};

    /// Returns a source that has not failed. At most `gets` of its gets succeed (10^12 at most).
    ///
    /// Each later get fails. A get also fails if the reader returns an error.
    pub fn new(reader: R, gets: u64) -> Self
        requires { gets ≤ most_gets }
        ensures reader { reader_of result ≡ reader }
        ensures to_come { ⟦<Reading<R> as Source>⟧.to_come result ≡ R.remaining reader }
        ensures gets { ⟦<Reading<R> as Source>⟧.gets_left result ≡ gets }
        ensures unfailed { ⟦<Reading<R> as Source>⟧.has_failed result ≡ false }
    {
        Reading {
            reader,
            gets,
            failed: false,
        }
    }

    /// Returns the reader. The next read returns the bytes after those of the gets.
    pub fn into_inner(self) -> R
        ensures { result ≡ reader_of self }
    {
        let Reading { reader, .. } = self;
        reader
    }
}

impl<R: Read> Source for Reading<R> {
    ghost use Rattle.sq_devices.specs.Streams.{IsGiven, get_failed, gets_of, reader_of};

    ghost to_come = { λ s. R.remaining (reader_of s) };

    ghost has_failed = { λ s. get_failed s };

    ghost gets_left = { λ s. gets_of s };

    ghost Gave = { IsGiven R.remaining };

    ghost few_gets = { λ s. s.few };

    fn get(&mut self, into: &mut [u8]) -> Result<usize, Failed> {
        if self.gets == 0 {
            self.failed = true;
            return Err(Failed);
        }
        match self.reader.read(into) {
            Ok(count) => {
                self.gets -= 1;
                Ok(count)
            }
            Err(_) => {
                self.failed = true;
                Err(Failed)
            }
        }
    }
}
