//! Readers and writers for tests, which move few bytes at a time and fail at a known place, and the calls of devices.
use sq_devices::{Failed, Reading, Sink, Source, Writing};
use std::alloc::Global;
use std::io;
use std::io::{ErrorKind, Read, Write};

// Gives its text in reads of at most `size` bytes. Fails once `fails_at` bytes were given, and ends where the text
// ends.
#[derive(Drop)]
pub(crate) struct Pieces {
    text: &'static [u8],
    at: usize,
    size: usize,
    fails_at: usize,
}

pub(crate) fn pieces_of(text: &'static [u8], size: usize, fails_at: usize) -> Pieces {
    Pieces {
        text,
        at: 0,
        size,
        fails_at,
    }
}

impl Read for Pieces {
    fn read(&mut self, into: &mut [u8]) -> io::Result<usize> {
        if self.at >= self.fails_at {
            return Err(io::Error::from(ErrorKind::Other));
        }
        let rest = self.text.get(self.at..).unwrap_or(b"");
        let count = rest
            .len()
            .min(self.size)
            .min(into.len())
            .min(self.fails_at - self.at);
        into[..count].copy_from_slice(&rest[..count]);
        self.at += count;
        Ok(count)
    }
}

// The result of a write when the writer is full.
#[derive(Clone, Copy, Debug, PartialEq, Eq)]
pub(crate) enum End {
    Error,
    Nothing,
}

// Takes `room` bytes in all, and at most `size` for each call; it may refuse to be flushed.
#[derive(Drop)]
pub(crate) struct Room {
    room: usize,
    pub(crate) size: usize,
    end: End,
    pub(crate) flushes: bool,
    pub(crate) taken: Vec<u8>,
}

impl Write for Room {
    fn write(&mut self, bytes: &[u8]) -> io::Result<usize> {
        let count = bytes.len().min(self.room).min(self.size);
        if count == 0 && !bytes.is_empty() && self.end == End::Error {
            return Err(io::Error::from(ErrorKind::Other));
        }
        self.taken.extend_from_slice(&bytes[..count])?;
        self.room -= count;
        Ok(count)
    }

    fn flush(&mut self) -> io::Result<()> {
        if self.flushes {
            Ok(())
        } else {
            Err(io::Error::from(ErrorKind::Other))
        }
    }
}

pub(crate) fn room_of(alloc: Global, room: usize, end: End) -> Room {
    Room {
        room,
        size: usize::MAX,
        end,
        flushes: true,
        taken: Vec::new(alloc),
    }
}

// Returns the number of line feeds in the first `count` bytes.
pub(crate) fn lines_in(text: &[u8], count: usize) -> usize {
    text.iter()
        .take(count)
        .filter(|byte| **byte == b'\n')
        .count()
}

// Devices and their calls, without the clauses: a test looks only at results, and is proved sooner without.
pub(crate) fn source_of<R: Read>(reader: R) -> Reading<R> {
    Reading::new(reader, 1_000_000)
}

pub(crate) fn sink_of<W: Write>(writer: W) -> Writing<W> {
    Writing::new(writer)
}

pub(crate) fn get(source: &mut impl Source, into: &mut [u8]) -> Result<usize, Failed> {
    source.get(into)
}

pub(crate) fn put(sink: &mut impl Sink, text: &[u8]) -> Result<usize, Failed> {
    sink.put(text)
}

pub(crate) fn finish(sink: &mut impl Sink) -> Result<(), Failed> {
    sink.finish()
}

// Returns the writer, with what it took.
pub(crate) fn taken<W: Write>(sink: Writing<W>) -> W {
    sink.into_inner()
}
