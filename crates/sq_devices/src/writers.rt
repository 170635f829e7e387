//! A sink over any writer.
ghost use Rattle.std.specs.Prelude.{◌≡◌, false};

use crate::{Failed, Sink};
use std::io::Write;

/// A sink over a writer.
#[derive(Drop)]
pub struct Writing<W> {
    writer: W,
    failed: bool,
    finishes: u64,
}

impl<W: Write> Writing<W> {
    ghost use Rattle.sq_devices.specs.Streams.{writer_of};

    /// Returns a sink that has not failed.
    ///
    /// A put fails if the writer returns an error, or 0 for a text that is not empty. `finish` flushes the writer. It
    /// fails if that does, and after 2^64 - 1 finishes.
    pub fn new(writer: W) -> Self
        ensures writer { writer_of result ≡ writer }
        ensures written { ⟦<Writing<W> as Sink>⟧.written result ≡ W.contents writer }
        ensures unfailed { ⟦<Writing<W> as Sink>⟧.has_failed result ≡ false }
        ensures finishes { ⟦<Writing<W> as Sink>⟧.finishes result ≡ 0 }
    {
        Writing {
            writer,
            failed: false,
            finishes: 0,
        }
    }

    /// Returns the writer.
    pub fn into_inner(self) -> W
        ensures { result ≡ writer_of self }
    {
        let Writing { writer, .. } = self;
        writer
    }
}

impl<W: Write> Sink for Writing<W> {
    ghost use Rattle.sq_devices.specs.Streams.{IsFinish, IsTaken, finishes_of, put_failed, writer_of};

    ghost written = { λ s. W.contents (writer_of s) };

    ghost has_failed = { λ s. put_failed s };

    ghost finishes = { λ s. finishes_of s };

    ghost Took = { IsTaken W.contents };

    ghost Finished = { IsFinish W.contents };

    fn put(&mut self, from: &[u8]) -> Result<usize, Failed> {
        match self.writer.write(from) {
            Ok(count) if count > 0 || from.is_empty() => Ok(count),
            _ => {
                self.failed = true;
                Err(Failed)
            }
        }
    }

    fn finish(&mut self) -> Result<(), Failed> {
        if self.finishes < u64::MAX && self.writer.flush().is_ok() {
            self.finishes += 1;
            return Ok(());
        }
        self.failed = true;
        Err(Failed)
    }
}
