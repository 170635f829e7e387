//! The devices over readers and writers that keep a log: the clauses of `Source` and `Sink`, and one thing that no
//! clause states, that the output is flushed before input is awaited. Also the words of a made-up command line.
use crate::devices::end_with;
use crate::faulty_devices::{finish, get, put};
use sq_devices::console_pins::equal_troubles;
use sq_devices::{
    Failed, PromptInput, PromptOutput, SharedOutput, Sink, Source, Trouble, arguments,
};
use std::alloc::{AllocError, Global};
use std::cell::RefCell;
use std::env::{Env, FillError};
use std::io;
use std::io::{ErrorKind, Read, Write};
use std::process::Abort;

/// What was read and written, in order.
type Log = RefCell<Vec<u8>>;

/// Notes bytes in the log.
fn note(log: &Log, bytes: &[u8]) -> io::Result<()> {
    match log.try_borrow_mut() {
        Ok(mut noted) => Ok(noted.extend_from_slice(bytes)?),
        Err(_) => Err(io::Error::from(ErrorKind::Other)),
    }
}

/// Gives its text one line for each read, and notes each read as `<`.
#[derive(Drop)]
struct Lines<'a> {
    log: &'a Log,
    text: &'a [u8],
}

impl Read for Lines<'_> {
    fn read(&mut self, buf: &mut [u8]) -> io::Result<usize> {
        note(self.log, b"<")?;
        let count = buf.len().min(self.text.len()).min(2);
        let (line, rest) = self.text.split_at(count);
        buf[..count].copy_from_slice(line);
        self.text = rest;
        Ok(count)
    }
}

/// Notes what is written, and takes no more than `room` bytes in all.
#[derive(Drop)]
struct Noted<'a> {
    log: &'a Log,
    room: usize,
}

impl Write for Noted<'_> {
    fn write(&mut self, buf: &[u8]) -> io::Result<usize> {
        if buf.len() > self.room {
            return Err(io::Error::from(ErrorKind::Other));
        }
        self.room -= buf.len();
        note(self.log, buf)?;
        Ok(buf.len())
    }

    fn flush(&mut self) -> io::Result<()> {
        Ok(())
    }
}

// An input over a shared output, without the clauses.
fn input_of<'a, R: Read + Drop, W: Write + Drop>(
    alloc: Global,
    reader: R,
    shared: &'a SharedOutput<W>,
) -> Result<PromptInput<'a, R, W>, AllocError> {
    PromptInput::new(alloc, reader, shared, 10)
}

// Asserts that each of four bytes is read, and written back.
fn assert_echoed(rt: &impl Abort, input: &mut impl Source, output: &mut impl Sink) {
    let mut piece = [0; 1];
    for _ in 0..4 {
        assert!(rt; get(input, &mut piece) == Ok(1));
        assert!(rt; put(output, &piece) == Ok(1));
    }
}

// Asserts that the input has ended, and writes `end`.
fn assert_ended(rt: &impl Abort, input: &mut impl Source, output: &mut impl Sink) {
    assert!(rt; get(input, &mut [0; 1]) == Ok(0));
    assert!(rt; put(output, b"end") == Ok(3));
    assert!(rt; finish(output) == Ok(()));
}

// Echoes four bytes from a reader to a writer, and writes `end`.
fn echo(
    rt: &impl Abort,
    alloc: Global,
    reader: impl Read + Drop,
    writer: impl Write + Drop,
) -> Result<(), AllocError> {
    let shared = SharedOutput::new(alloc, writer)?;
    let mut input = input_of(alloc, reader, &shared)?;
    let mut output = PromptOutput::new(&shared);
    assert_echoed(rt, &mut input, &mut output);
    assert_ended(rt, &mut input, &mut output);
    Ok(())
}

#[test]
fn lets_each_answer_go_before_it_reads_more(rt: HostRuntime) -> Result<(), AllocError> {
    let log = RefCell::new(Vec::new(rt.alloc()));
    let writer = Noted {
        log: &log,
        room: 100,
    };
    let lines = Lines {
        log: &log,
        text: b"a\nb\n",
    };
    echo(&rt, rt.alloc(), lines, writer)?;
    assert!(rt; log.into_inner().as_slice() == b"<a\n<b\n<end".as_slice());
    Ok(())
}

/// Notes each write in parentheses, and takes no more than `size` bytes a call.
#[derive(Drop)]
struct Marked<'a> {
    log: &'a Log,
    size: usize,
}

impl Write for Marked<'_> {
    fn write(&mut self, buf: &[u8]) -> io::Result<usize> {
        let count = buf.len().min(self.size);
        note(self.log, b"(")?;
        note(self.log, &buf[..count])?;
        note(self.log, b")")?;
        Ok(count)
    }

    fn flush(&mut self) -> io::Result<()> {
        Ok(())
    }
}

// The output is flushed before a read, and not at each get: the replies to two gets from one read are one write.
#[test]
fn writes_once_for_each_read(rt: HostRuntime) -> Result<(), AllocError> {
    let log = RefCell::new(Vec::new(rt.alloc()));
    let writer = Marked {
        log: &log,
        size: 100,
    };
    let lines = Lines {
        log: &log,
        text: b"a\nb\n",
    };
    echo(&rt, rt.alloc(), lines, writer)?;
    assert!(rt; log.into_inner().as_slice() == b"<(a\n)<(b\n)<(end)".as_slice());
    Ok(())
}

// Asserts that a text goes whole to a sink, which is then finished.
fn assert_put_last(rt: &impl Abort, output: &mut impl Sink, text: &[u8]) {
    assert!(rt; end_with(output, text) == Ok(()));
}

// Returns the number of bytes `a` in the log.
fn letters_in(log: &[u8]) -> usize {
    log.iter().filter(|byte| **byte == b'a').count()
}

// A text that is larger than the output's buffer goes through, three bytes a write.
#[test]
fn writes_a_text_larger_than_its_buffer(rt: HostRuntime) -> Result<(), AllocError> {
    let log = RefCell::new(Vec::new(rt.alloc()));
    let text = vec![in rt.alloc(); b'a'; 140_000]?;
    let writer = Marked { log: &log, size: 3 };
    let shared = SharedOutput::new(rt.alloc(), writer)?;
    assert_put_last(&rt, &mut PromptOutput::new(&shared), text.as_slice());
    drop(shared);
    assert!(rt; letters_in(log.into_inner().as_slice()) == 140_000);
    Ok(())
}

// Asserts that the flush of a text fails at a get, and that the next put and the finish report it.
fn assert_told_at_the_put(rt: &impl Abort, input: &mut impl Source, output: &mut impl Sink) {
    assert!(rt; put(output, b"abc") == Ok(3));
    assert!(rt; get(input, &mut [0; 2]) == Ok(2));
    assert!(rt; put(output, b"d") == Err(Failed));
    assert!(rt; finish(output) == Err(Failed));
}

// Asserts the same over a writer.
fn assert_told_over(
    rt: &impl Abort,
    alloc: Global,
    writer: impl Write + Drop,
) -> Result<(), AllocError> {
    let shared = SharedOutput::new(alloc, writer)?;
    let mut input = input_of(alloc, b"ab".as_slice(), &shared)?;
    assert_told_at_the_put(rt, &mut input, &mut PromptOutput::new(&shared));
    Ok(())
}

#[test]
fn tells_a_failed_flush_at_the_next_put(rt: HostRuntime) -> Result<(), AllocError> {
    let log = RefCell::new(Vec::new(rt.alloc()));
    assert_told_over(&rt, rt.alloc(), Noted { log: &log, room: 2 })
}

// Asserts that the flush of a text fails at the finish.
fn assert_told_at_the_finish(rt: &impl Abort, output: &mut impl Sink) {
    assert!(rt; put(output, b"abc") == Ok(3));
    assert!(rt; finish(output) == Err(Failed));
}

#[test]
fn tells_a_failed_flush_at_the_finish(rt: HostRuntime) -> Result<(), AllocError> {
    let log = RefCell::new(Vec::new(rt.alloc()));
    let shared = SharedOutput::new(rt.alloc(), Noted { log: &log, room: 2 })?;
    assert_told_at_the_finish(&rt, &mut PromptOutput::new(&shared));
    Ok(())
}

// Asserts that two bytes are got, and then no more.
fn assert_one_get(rt: &impl Abort, input: &mut impl Source) {
    assert!(rt; get(input, &mut [0; 2]) == Ok(2));
    assert!(rt; get(input, &mut [0; 2]) == Err(Failed));
}

#[test]
fn refuses_the_get_after_the_last(rt: HostRuntime) -> Result<(), AllocError> {
    let shared = SharedOutput::new(rt.alloc(), Vec::new(rt.alloc()))?;
    let mut input = PromptInput::new(rt.alloc(), b"abc".as_slice(), &shared, 1)?;
    assert_one_get(&rt, &mut input);
    Ok(())
}

/// A command line of the program's name and one more word.
#[derive(Drop)]
struct CommandLine {
    word: &'static [u8],
}

impl Env for CommandLine {
    fn arg(&self, i: usize, buf: &mut [u8]) -> Result<usize, FillError> {
        let word = match i {
            0 => b"squitter".as_slice(),
            1 => self.word,
            _ => return Err(FillError::NotPresent),
        };
        if buf.len() < word.len() {
            return Err(FillError::TooLong);
        }
        buf[..word.len()].copy_from_slice(word);
        Ok(word.len())
    }

    fn var(&self, _name: &str, _buf: &mut [u8]) -> Result<usize, FillError> {
        Err(FillError::NotPresent)
    }

    fn var_at(&self, _i: usize, _buf: &mut [u8]) -> Result<usize, FillError> {
        Err(FillError::NotPresent)
    }
}

// The words of a command line.
fn words_of(alloc: Global, env: impl Env + Drop) -> Result<Vec<String>, Trouble> {
    arguments(&(env, alloc))
}

// Returns whether these are the program's name and one more word.
fn are_words(words: &[String], word: &str) -> bool {
    match words {
        [name, given] => name.as_str() == "squitter" && given.as_str() == word,
        _ => false,
    }
}

#[test]
fn reads_the_words(rt: HostRuntime) {
    let Ok(words) = words_of(rt.alloc(), CommandLine { word: b"check" }) else {
        panic!(rt; "no words");
    };
    assert!(rt; are_words(words.as_slice(), "check"));
}

#[test]
fn refuses_a_word_that_is_no_text(rt: HostRuntime) {
    let bad = words_of(rt.alloc(), CommandLine { word: b"\xFF" });
    assert!(rt; matches!(bad, Err(Trouble::Words)));
}

/// A command line with an empty name and `count` more words, each a letter longer than the one before.
#[derive(Drop)]
struct LongLine {
    count: usize,
}

const LETTERS: &[u8] = b"abcdefghijklmnopqrstuvwxyzabcdefghijklmnopqrstuvwxyz";

impl Env for LongLine {
    fn arg(&self, i: usize, buf: &mut [u8]) -> Result<usize, FillError> {
        if i > self.count {
            return Err(FillError::NotPresent);
        }
        let word = &LETTERS[..i.min(LETTERS.len())];
        if buf.len() < word.len() {
            return Err(FillError::TooLong);
        }
        buf[..word.len()].copy_from_slice(word);
        Ok(word.len())
    }

    fn var(&self, _name: &str, _buf: &mut [u8]) -> Result<usize, FillError> {
        Err(FillError::NotPresent)
    }

    fn var_at(&self, _i: usize, _buf: &mut [u8]) -> Result<usize, FillError> {
        Err(FillError::NotPresent)
    }
}

// Returns whether each word is a letter longer than the one before.
fn are_letters(words: &[String]) -> bool {
    words.iter().enumerate().all(|(i, word)| word.as_bytes() == &LETTERS[..i.min(LETTERS.len())])
}

// All words of a long command line, whole and in order, the last one too.
#[test]
fn reads_a_long_command_line(rt: HostRuntime) {
    for count in [0, 1, 2, 3, 4, 11, 40] {
        let Ok(words) = words_of(rt.alloc(), LongLine { count }) else {
            panic!(rt; "no words");
        };
        assert!(rt; words.len() == count.saturating_add(1));
        assert!(rt; are_letters(words.as_slice()));
    }
}

/// Fails at its first read or write and then works, and notes each read as `<`, a failed write as `!` and a flush as
/// `|`.
#[derive(Drop)]
struct Once<'a> {
    log: &'a Log,
    failed: bool,
}

impl Read for Once<'_> {
    fn read(&mut self, buf: &mut [u8]) -> io::Result<usize> {
        note(self.log, b"<")?;
        if !self.failed {
            self.failed = true;
            return Err(io::Error::from(ErrorKind::Other));
        }
        let count = buf.len().min(2);
        buf[..count].copy_from_slice(&b"ab"[..count]);
        Ok(count)
    }
}

impl Write for Once<'_> {
    fn write(&mut self, buf: &[u8]) -> io::Result<usize> {
        if !self.failed {
            self.failed = true;
            note(self.log, b"!")?;
            return Err(io::Error::from(ErrorKind::Other));
        }
        note(self.log, buf)?;
        Ok(buf.len())
    }

    fn flush(&mut self) -> io::Result<()> {
        note(self.log, b"|")
    }
}

fn once_of(log: &Log) -> Once<'_> {
    Once { log, failed: false }
}

// Asserts that the first get fails, and the next one gets two bytes.
fn assert_second_get(rt: &impl Abort, input: &mut impl Source) {
    let mut piece = [0; 2];
    assert!(rt; get(input, &mut piece) == Err(Failed));
    assert!(rt; get(input, &mut piece) == Ok(2));
    assert!(rt; &piece[..] == b"ab".as_slice());
}

// Asserts the same over a reader.
fn assert_second_get_over(
    rt: &impl Abort,
    alloc: Global,
    reader: impl Read + Drop,
) -> Result<(), AllocError> {
    let shared = SharedOutput::new(alloc, Vec::new(alloc))?;
    assert_second_get(rt, &mut input_of(alloc, reader, &shared)?);
    Ok(())
}

// A failed read is reported, and not tried again.
#[test]
fn tells_a_failed_read(rt: HostRuntime) -> Result<(), AllocError> {
    let log = RefCell::new(Vec::new(rt.alloc()));
    assert_second_get_over(&rt, rt.alloc(), once_of(&log))?;
    assert!(rt; log.into_inner().as_slice() == b"<<".as_slice());
    Ok(())
}

// Asserts that a flush that failed at a get is reported at the finish, even if the writer would take the text by
// then.
fn assert_told_late(rt: &impl Abort, input: &mut impl Source, output: &mut impl Sink) {
    assert!(rt; put(output, b"end") == Ok(3));
    assert!(rt; get(input, &mut [0; 2]) == Ok(2));
    assert!(rt; finish(output) == Err(Failed));
}

#[test]
fn tells_a_flush_that_failed_before_the_finish(rt: HostRuntime) -> Result<(), AllocError> {
    let log = RefCell::new(Vec::new(rt.alloc()));
    let shared = SharedOutput::new(rt.alloc(), once_of(&log))?;
    let mut input = input_of(rt.alloc(), b"ab".as_slice(), &shared)?;
    assert_told_late(&rt, &mut input, &mut PromptOutput::new(&shared));
    Ok(())
}

// Asserts that the first finish fails, and the next one does not.
fn assert_second_finish(rt: &impl Abort, output: &mut impl Sink) {
    assert!(rt; put(output, b"end") == Ok(3));
    assert!(rt; finish(output) == Err(Failed));
    assert!(rt; finish(output) == Ok(()));
}

// A failed write at the finish is reported, and the finish reaches the writer.
#[test]
fn tells_a_failed_write_and_finishes(rt: HostRuntime) -> Result<(), AllocError> {
    let log = RefCell::new(Vec::new(rt.alloc()));
    let shared = SharedOutput::new(rt.alloc(), once_of(&log))?;
    assert_second_finish(&rt, &mut PromptOutput::new(&shared));
    drop(shared);
    assert!(rt; log.into_inner().as_slice() == b"!end|".as_slice());
    Ok(())
}

#[test]
fn compares_troubles(rt: HostRuntime) {
    assert!(rt; equal_troubles(&Trouble::Words, &Trouble::Words));
    assert!(rt; !equal_troubles(&Trouble::Words, &Trouble::Memory));
}
