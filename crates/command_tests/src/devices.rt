//! Devices over memory, and over readers and writers that fail: the clauses of `Source` and `Sink`, and `part` of
//! `put_all` and `put_last`. Also what no clause states: a sink is finished once, and nothing is tried again.
use crate::faulty_devices::{finish, get, put, sink_of, source_of, taken};
use sq_devices::{Failed, Reading, Sink, Source, put_all, put_last};
use std::alloc::Global;
use std::io;
use std::io::{ErrorKind, Read, Write};
use std::process::Abort;

/// Fails at each call.
#[derive(Drop)]
struct Broken;

impl Read for Broken {
    fn read(&mut self, _buf: &mut [u8]) -> io::Result<usize> {
        Err(io::Error::from(ErrorKind::Other))
    }
}

impl Write for Broken {
    fn write(&mut self, _buf: &[u8]) -> io::Result<usize> {
        Err(io::Error::from(ErrorKind::Other))
    }

    fn flush(&mut self) -> io::Result<()> {
        Err(io::Error::from(ErrorKind::Other))
    }
}

/// Takes no byte of any text, and returns 0.
#[derive(Drop)]
struct Idle;

impl Write for Idle {
    fn write(&mut self, _buf: &[u8]) -> io::Result<usize> {
        Ok(0)
    }

    fn flush(&mut self) -> io::Result<()> {
        Ok(())
    }
}

/// Takes at most three bytes for each write and `room` in all, and then fails.
#[derive(Drop)]
struct Narrow {
    room: usize,
    taken: Vec<u8>,
}

impl Write for Narrow {
    fn write(&mut self, buf: &[u8]) -> io::Result<usize> {
        let count = buf.len().min(self.room).min(3);
        if count == 0 && !buf.is_empty() {
            return Err(io::Error::from(ErrorKind::Other));
        }
        self.taken.extend_from_slice(&buf[..count])?;
        self.room -= count;
        Ok(count)
    }

    fn flush(&mut self) -> io::Result<()> {
        Ok(())
    }
}

fn narrow_of(alloc: Global, room: usize) -> Narrow {
    Narrow {
        room,
        taken: Vec::new(alloc),
    }
}

/// Fails at its first read, its first write and its first flush, and then works. It counts the calls, and keeps what it
/// takes.
#[derive(Drop)]
struct Once {
    text: &'static [u8],
    reads: u32,
    writes: u32,
    flushes: u32,
    taken: Vec<u8>,
}

impl Read for Once {
    fn read(&mut self, buf: &mut [u8]) -> io::Result<usize> {
        self.reads = self.reads.saturating_add(1);
        if self.reads == 1 {
            return Err(io::Error::from(ErrorKind::Other));
        }
        let count = buf.len().min(self.text.len());
        let (front, rest) = self.text.split_at(count);
        buf[..count].copy_from_slice(front);
        self.text = rest;
        Ok(count)
    }
}

impl Write for Once {
    fn write(&mut self, buf: &[u8]) -> io::Result<usize> {
        self.writes = self.writes.saturating_add(1);
        if self.writes == 1 {
            return Err(io::Error::from(ErrorKind::Other));
        }
        self.taken.extend_from_slice(buf)?;
        Ok(buf.len())
    }

    fn flush(&mut self) -> io::Result<()> {
        self.flushes = self.flushes.saturating_add(1);
        if self.flushes == 1 {
            return Err(io::Error::from(ErrorKind::Other));
        }
        Ok(())
    }
}

/// Takes all, and counts the writes and the flushes.
#[derive(Drop)]
struct Counting {
    writes: u32,
    flushes: u32,
    taken: Vec<u8>,
}

impl Write for Counting {
    fn write(&mut self, buf: &[u8]) -> io::Result<usize> {
        self.writes = self.writes.saturating_add(1);
        self.taken.extend_from_slice(buf)?;
        Ok(buf.len())
    }

    fn flush(&mut self) -> io::Result<()> {
        self.flushes = self.flushes.saturating_add(1);
        Ok(())
    }
}

// `put_all` without its clauses.
fn put_whole(sink: &mut impl Sink, text: &[u8]) -> Result<(), Failed> {
    put_all(sink, text)
}

// `put_last` without its clauses.
pub(crate) fn end_with(sink: &mut impl Sink, text: &[u8]) -> Result<(), Failed> {
    put_last(sink, text)
}

// Asserts the text that a get writes into a piece.
fn assert_got(rt: &impl Abort, source: &mut impl Source, piece: &mut [u8], text: &[u8]) {
    assert!(rt; get(source, piece) == Ok(text.len()));
    assert!(rt; piece.starts_with(text));
}

#[test]
fn gets_the_bytes_of_a_slice(rt: HostRuntime) {
    let mut source = source_of(&b"squitter"[..]);
    assert_got(&rt, &mut source, &mut [0; 5], b"squit");
    assert_got(&rt, &mut source, &mut [0; 5], b"ter");
    assert_got(&rt, &mut source, &mut [0; 5], b"");
}

#[test]
fn refuses_the_get_after_the_last(rt: HostRuntime) {
    let mut source = Reading::new(&b"squitter"[..], 2);
    for answer in [Ok(2), Ok(2), Err(Failed), Err(Failed)] {
        assert!(rt; get(&mut source, &mut [0; 2]) == answer);
    }
    assert!(rt; source.into_inner() == b"tter".as_slice());
}

#[test]
fn puts_into_a_vector(rt: HostRuntime) {
    let mut sink = sink_of(Vec::new(rt.alloc()));
    for part in [b"8D40".as_slice(), b"", b"621D"] {
        assert!(rt; put(&mut sink, part) == Ok(part.len()));
    }
    assert!(rt; finish(&mut sink) == Ok(()));
    assert!(rt; taken(sink).as_slice() == b"8D40621D".as_slice());
}

#[test]
fn fails_where_the_reader_does(rt: HostRuntime) {
    assert!(rt; get(&mut source_of(Broken), &mut [0; 4]) == Err(Failed));
}

#[test]
fn fails_where_the_writer_does(rt: HostRuntime) {
    let mut sink = sink_of(Broken);
    assert!(rt; put(&mut sink, b"8D40") == Err(Failed));
    assert!(rt; finish(&mut sink) == Err(Failed));
    assert!(rt; put_whole(&mut sink, b"8D40") == Err(Failed));
}

#[test]
fn fails_where_the_writer_takes_nothing(rt: HostRuntime) {
    let mut sink = sink_of(Idle);
    assert!(rt; put(&mut sink, b"") == Ok(0));
    assert!(rt; put(&mut sink, b"8D40") == Err(Failed));
    assert!(rt; finish(&mut sink) == Ok(()));
    assert!(rt; put_whole(&mut sink, b"8D40") == Err(Failed));
}

#[test]
fn puts_a_whole_text_in_parts(rt: HostRuntime) {
    let mut sink = sink_of(narrow_of(rt.alloc(), 10));
    assert!(rt; put_whole(&mut sink, b"8D40621D") == Ok(()));
    assert!(rt; taken(sink).taken.as_slice() == b"8D40621D".as_slice());
}

#[test]
fn leaves_a_prefix_where_a_put_fails(rt: HostRuntime) {
    let mut sink = sink_of(narrow_of(rt.alloc(), 5));
    assert!(rt; put_whole(&mut sink, b"8D40621D") == Err(Failed));
    assert!(rt; taken(sink).taken.as_slice() == b"8D406".as_slice());
}

fn once_of(alloc: Global, text: &'static [u8]) -> Once {
    Once {
        text,
        reads: 0,
        writes: 0,
        flushes: 0,
        taken: Vec::new(alloc),
    }
}

// A failed call is reported, and not tried again.
#[test]
fn tries_no_read_again(rt: HostRuntime) {
    let mut source = source_of(once_of(rt.alloc(), b"8D40"));
    let mut piece = [0; 4];
    assert!(rt; get(&mut source, &mut piece) == Err(Failed));
    assert_got(&rt, &mut source, &mut piece, b"8D40");
    assert!(rt; source.into_inner().reads == 2);
}

// Asserts how many writes and flushes there were, and what was taken.
fn assert_once(rt: &impl Abort, once: &Once, writes: u32, flushes: u32, text: &[u8]) {
    assert!(rt; once.writes == writes);
    assert!(rt; once.flushes == flushes);
    assert!(rt; once.taken.as_slice() == text);
}

// Asserts that a finish fails, and the next one does not.
fn assert_second_finish(rt: &impl Abort, sink: &mut impl Sink) {
    assert!(rt; finish(sink) == Err(Failed));
    assert!(rt; finish(sink) == Ok(()));
}

#[test]
fn tries_no_write_again(rt: HostRuntime) {
    let mut sink = sink_of(once_of(rt.alloc(), b""));
    assert!(rt; put(&mut sink, b"8D40") == Err(Failed));
    assert!(rt; put(&mut sink, b"621D") == Ok(4));
    assert_second_finish(&rt, &mut sink);
    assert_once(&rt, &taken(sink), 2, 2, b"621D");
}

#[test]
fn puts_no_text_again(rt: HostRuntime) {
    let mut sink = sink_of(once_of(rt.alloc(), b""));
    assert!(rt; put_whole(&mut sink, b"8D40") == Err(Failed));
    for (text, answer) in [(b"621D", Err(Failed)), (b"58C3", Ok(()))] {
        assert!(rt; end_with(&mut sink, text) == answer);
    }
    assert_once(&rt, &taken(sink), 3, 2, b"621D58C3");
}

#[test]
fn finishes_no_text_after_a_failed_put(rt: HostRuntime) {
    let mut sink = sink_of(once_of(rt.alloc(), b""));
    assert!(rt; end_with(&mut sink, b"8D40") == Err(Failed));
    assert_once(&rt, &taken(sink), 1, 0, b"");
}

fn counting_of(alloc: Global) -> Counting {
    Counting {
        writes: 0,
        flushes: 0,
        taken: Vec::new(alloc),
    }
}

// Asserts how many writes and flushes were counted, and what was taken.
fn assert_counted(rt: &impl Abort, counted: &Counting, writes: u32, flushes: u32, text: &[u8]) {
    assert!(rt; counted.writes == writes);
    assert!(rt; counted.flushes == flushes);
    assert!(rt; counted.taken.as_slice() == text);
}

// Each last text is finished once, also an empty one. A text that is not the last is not finished.
#[test]
fn finishes_no_other_text(rt: HostRuntime) {
    let mut sink = sink_of(counting_of(rt.alloc()));
    assert!(rt; put_whole(&mut sink, b"8D40") == Ok(()));
    assert_counted(&rt, &taken(sink), 1, 0, b"8D40");
}

#[test]
fn finishes_the_last_text_once(rt: HostRuntime) {
    let mut sink = sink_of(counting_of(rt.alloc()));
    assert!(rt; put_whole(&mut sink, b"8D40") == Ok(()));
    assert!(rt; end_with(&mut sink, b"621D") == Ok(()));
    assert!(rt; end_with(&mut sink, b"") == Ok(()));
    assert_counted(&rt, &taken(sink), 2, 2, b"8D40621D");
}

// Asserts how much of a text of ten bytes is written into this room. Only the whole text is a success.
fn assert_prefix(rt: &impl Abort, alloc: Global, room: usize) {
    let text = b"8D40621D58".as_slice();
    let mut sink = sink_of(narrow_of(alloc, room));
    assert!(rt; end_with(&mut sink, text).is_ok() == (room == 10));
    assert!(rt; taken(sink).taken.as_slice() == text.get(..room).unwrap_or(b""));
}

// The writer fails at each byte in turn, up to and including the last, and then takes the whole text.
#[test]
fn leaves_each_prefix_where_a_put_fails(rt: HostRuntime) {
    for room in 0..11usize {
        assert_prefix(&rt, rt.alloc(), room);
    }
}
