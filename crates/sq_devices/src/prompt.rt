//! An input that flushes the output before it waits for more.
ghost use Rattle.std.specs.Prelude.{◌≡◌, ◌<◌, ◌≤◌, IfOk, IfSome, OnErr, OnOk, None, false, length, take, true};
ghost use Rattle.std.specs.Io.Buffered.{reader_buffer, reader_remaining};
ghost use Rattle.std.specs.Io.KnownBytes.{Consumes, IsAtEnd};
ghost use Rattle.sq_devices.specs.Device.{KeepsOrHides, UsesGet, most_gets};

use crate::{Failed, Sink, Source};
use std::alloc::{AllocError, Global};
use std::cell::RefCell;
use std::io;
use std::io::{BufRead, BufReader, BufWriter, Read, Write};
use std::simd::prelude::*;

// The most bytes of one read.
const INPUT_BYTES: usize = 65536;

// The size of the output buffer. The answers to the input of one read fit, so a file takes one write for each read.
const OUTPUT_BYTES: usize = 2 * INPUT_BYTES;

// The size of the array in front of the writer's buffer.
const FRONT_BYTES: usize = 4096;

// The number of bytes that are moved at once.
const PIECE: usize = 64;

// Half of a piece: a text of 32 to 64 bytes is copied by its first half and its last half, which may overlap.
const HALF: usize = 32;

// A buffered writer, and whether a flush has failed. Texts are collected in an array, because copying a short text into
// it takes a few moves. The writer gets many texts at a time.
struct Buffered<W: Write + Drop> {
    front: [u8; FRONT_BYTES],
    held: usize,
    writer: BufWriter<W>,
    flush_failed: bool,
    ghost within: { held ≤ 4096 },
}

impl<W: Write + Drop> Buffered<W> {
    // Takes the first bytes of a text, and returns how many. Returns `None` if the writer fails, or takes nothing of a
    // text that is not empty.
    #[inline(always)]
    fn take(&mut self, text: &[u8]) -> Option<usize>
        ensures fits { IfSome result (λ count. count ≤ length text.now) }
        ensures some { IfSome result (λ count. 0 < length text.now → 0 < count) }
    {
        let end = self.held + text.len();
        if end > FRONT_BYTES {
            return self.take_far(text);
        }
        copy_text(&mut self.front[self.held..end], text);
        self.held = end;
        Some(text.len())
    }

    // Does the same for a text that does not fit into the array.
    #[cold]
    #[inline(never)]
    fn take_far(&mut self, text: &[u8]) -> Option<usize>
        ensures fits { IfSome result (λ count. count ≤ length text.now) }
        ensures some { IfSome result (λ count. 0 < length text.now → 0 < count) }
    {
        if !self.send_front() {
            return None;
        }
        match self.writer.write(text) {
            Ok(count) if count > 0 || text.is_empty() => Some(count),
            _ => None,
        }
    }

    // Moves the bytes of the array to the writer. The writer's buffer is longer, so it takes all of them or fails.
    fn send_front(&mut self) -> bool {
        match self.writer.write(&self.front[..self.held]) {
            Ok(count) if count == self.held => {
                self.held = 0;
                true
            }
            _ => false,
        }
    }

    // Writes the array and the writer's buffer.
    fn flush(&mut self) -> bool {
        self.send_front() && self.writer.flush().is_ok()
    }
}

impl<W: Write + Drop> Drop for Buffered<W> {
    fn drop(mut self) {
        let _ = self.send_front();
        let Buffered {
            front: _,
            held: _,
            writer: _writer,
            flush_failed: _,
        } = self;
    }
}

// Copies a text. Nearly every row has 32 to 64 bytes, and is copied in two moves.
#[inline(always)]
fn copy_text(into: &mut [u8], text: &[u8])
    requires { length into.old ≡ length text.now }
    ensures { into.new ≡ text.now }
{
    let len = text.len();
    if len < HALF || len > PIECE {
        into.copy_from_slice(text);
        return;
    }
    let last = u8x32::from_slice(&text[len - HALF..]);
    u8x32::from_slice(text).copy_to_slice(into);
    last.copy_to_slice(&mut into[len - HALF..]);
}

// Moves a piece out of the reader's buffer.
#[inline(always)]
fn move_piece<R: Read>(reader: &mut BufReader<R>, into: &mut [u8])
    requires room { length into.old ≡ 64 }
    requires held { 64 ≤ length (reader_buffer reader.old) }
    ensures room { length into.new ≡ 64 }
    ensures bytes { Consumes (reader_remaining R.remaining reader.old) (reader_remaining R.remaining reader.new)
        (take 64 into.new) }
{
    u8x64::from_slice(reader.buffer()).copy_to_slice(into);
    reader.consume(PIECE);
}

/// A buffered writer that an input and an output share.
///
/// Dropping it writes the rest of the buffer.
#[derive(Drop)]
pub struct SharedOutput<W: Write + Drop> {
    buffered: RefCell<Buffered<W>>,
}

impl<W: Write + Drop> SharedOutput<W> {
    /// Creates an empty buffer over the writer. Returns `Err` if an allocation fails.
    pub fn new(alloc: Global, writer: W) -> Result<Self, AllocError> {
        let Ok(writer) = BufWriter::with_capacity(alloc, OUTPUT_BYTES, writer) else {
            return Err(AllocError);
        };
        let buffered = Buffered {
            front: [0; FRONT_BYTES],
            held: 0,
            writer,
            flush_failed: false,
        };
        Ok(SharedOutput {
            buffered: RefCell::new(buffered),
        })
    }

    // Writes the buffer. Marks a failure, so that the next put or finish reports it.
    fn flush(&self) {
        if let Ok(mut buffered) = self.buffered.try_borrow_mut() {
            if !buffered.flush() {
                buffered.flush_failed = true;
            }
        }
    }
}

/// A source over a buffered reader. If its buffer is empty, it flushes the output before it reads.
#[derive(Drop)]
pub struct PromptInput<'a, R, W: Write + Drop> {
    reader: BufReader<R>,
    output: &'a SharedOutput<W>,
    gets: u64,
    failed: bool,
    ghost few: { gets ≤ most_gets },
}

impl<'a, R: Read + Drop, W: Write + Drop> PromptInput<'a, R, W> {
    /// Returns a source that has not failed. At most `gets` of its gets succeed (10^12 at most). `Err`: no memory.
    pub fn new(
        alloc: Global,
        reader: R,
        output: &'a SharedOutput<W>,
        gets: u64,
    ) -> Result<Self, AllocError>
        requires { gets ≤ most_gets }
        ensures to_come { IfOk result (λ input. ⟦<PromptInput<'a, R, W> as Source>⟧.to_come input
            ≡ R.remaining reader) }
        ensures gets { IfOk result (λ input. ⟦<PromptInput<'a, R, W> as Source>⟧.gets_left input ≡ gets) }
        ensures unfailed { IfOk result (λ input. ⟦<PromptInput<'a, R, W> as Source>⟧.has_failed input ≡ false) }
    {
        let Ok(reader) = BufReader::with_capacity(alloc, INPUT_BYTES, reader) else {
            return Err(AllocError);
        };
        Ok(PromptInput {
            reader,
            output,
            gets,
            failed: false,
        })
    }
}

impl<R: Read, W: Write + Drop> PromptInput<'_, R, W> {
    ghost use Rattle.sq_devices.specs.Prompt.{IsGiven, to_come_of};

    // Reads from the buffer, or from the reader if the buffer is empty. Flushes the output before it waits.
    #[cold]
    #[inline(never)]
    fn get_far(&mut self, into: &mut [u8]) -> Result<usize, Failed>
        ensures fits { IfOk result (λ n. n ≤ length into.new) }
        ensures gave { IfOk result (λ n. IsGiven R.remaining self.old (take n into.new) self.new) }
        ensures end { IfOk result (λ n. n ≡ 0 → 0 < length into.new → IsAtEnd (to_come_of R.remaining self.new)) }
        ensures unmarked { OnOk result (self.new.failed ≡ self.old.failed) }
        ensures failed { OnErr result (self.new.failed ≡ true) }
        ensures kept { OnErr result (KeepsOrHides (to_come_of R.remaining self.old)
            (to_come_of R.remaining self.new)) }
        ensures used { UsesGet result self.old.gets self.new.gets }
    {
        if self.reader.buffer().is_empty() {
            self.output.flush();
        }
        if self.gets == 0 {
            self.failed = true;
            return Err(Failed);
        }
        match self.reader.read(into) {
            Ok(count) => {
                self.gets -= 1;
                Ok(count)
            }
            Err(_) => {
                self.failed = true;
                Err(Failed)
            }
        }
    }
}

impl<R: Read, W: Write + Drop> Source for PromptInput<'_, R, W> {
    ghost use Rattle.sq_devices.specs.Prompt.{IsGiven, get_failed, gets_of, to_come_of};

    ghost to_come = { λ s. to_come_of R.remaining s };

    ghost has_failed = { λ s. get_failed s };

    ghost gets_left = { λ s. gets_of s };

    ghost Gave = { IsGiven R.remaining };

    ghost few_gets = { λ s. s.few };

    fn get(&mut self, into: &mut [u8]) -> Result<usize, Failed> {
        // Nearly every get asks for a piece that is in the buffer. It is moved without a call.
        if self.gets > 0 && into.len() == PIECE && self.reader.buffer().len() >= PIECE {
            move_piece(&mut self.reader, into);
            self.gets -= 1;
            return Ok(PIECE);
        }
        self.get_far(into)
    }
}

/// A sink over the shared output. It does not report the bytes that were written.
#[derive(Drop)]
pub struct PromptOutput<'a, W: Write + Drop> {
    output: &'a SharedOutput<W>,
    failed: bool,
    finishes: u64,
}

impl<'a, W: Write + Drop> PromptOutput<'a, W> {
    /// Returns a sink that has not failed.
    ///
    /// A put fails if the writer fails, if it takes nothing of a text that is not empty, or if a flush has failed
    /// before. `finish` flushes, and fails if that fails, if a flush has failed before, or after 2^64 - 1 finishes.
    pub fn new(output: &'a SharedOutput<W>) -> Self
        ensures unfailed { ⟦<PromptOutput<'a, W> as Sink>⟧.has_failed result ≡ false }
        ensures finishes { ⟦<PromptOutput<'a, W> as Sink>⟧.finishes result ≡ 0 }
    {
        PromptOutput {
            output,
            failed: false,
            finishes: 0,
        }
    }
}

impl<W: Write + Drop> Sink for PromptOutput<'_, W> {
    ghost use Rattle.sq_devices.specs.Prompt.{IsFinish, IsTaken, finishes_of, put_failed};

    ghost written = { λ _. None };

    ghost has_failed = { λ s. put_failed s };

    ghost finishes = { λ s. finishes_of s };

    ghost Took = { IsTaken };

    ghost Finished = { IsFinish };

    fn put(&mut self, from: &[u8]) -> Result<usize, Failed> {
        if let Ok(mut buffered) = self.output.buffered.try_borrow_mut() {
            if !buffered.flush_failed {
                if let Some(count) = buffered.take(from) {
                    return Ok(count);
                }
            }
        }
        self.failed = true;
        Err(Failed)
    }

    fn finish(&mut self) -> Result<(), Failed> {
        if let Ok(mut buffered) = self.output.buffered.try_borrow_mut() {
            if self.finishes < u64::MAX && !buffered.flush_failed && buffered.flush() {
                self.finishes += 1;
                return Ok(());
            }
        }
        self.failed = true;
        Err(Failed)
    }
}
