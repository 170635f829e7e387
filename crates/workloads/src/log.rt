//! A receiver's log, made line by line: about half positions; the rest are other squitters, other downlink formats and
//! damaged frames.
ghost use Rattle.std.specs.Prelude.{◌≡◌, ◌+◌, ◌≤◌};

use crate::changes::{BLOCK, Changes, Template};
use crate::dice::Dice;
use crate::templates::Templates;
use std::alloc::{AllocError, Global};
use std::io;
use std::io::Read;
use std::simd::prelude::*;

// A line has at most so many bytes.
const LINE: usize = 128;

// A moment has so many digits, a space behind it, and room for two more.
const DIGITS: usize = 13;

const FIRST_MOMENT: [u8; 16] = *b"1790000000000   ";

// Where the frame stands in a line with a moment, and in one without.
const AFTER_MOMENT: usize = 14;

const AFTER_STAR: usize = 1;

/// The form of a log.
#[derive(Clone, Copy)]
pub(crate) enum Form {
    /// A moment and a frame a line, as `track` reads them.
    Timed,
    /// The same, where every frame is good and a position in the air.
    Positions,
    /// Frames between `*` and `;`, as receivers print them, with some junk between.
    Raw,
}

/// A log that a reader gives.
#[derive(Drop)]
pub(crate) struct Log {
    form: Form,
    templates: Templates,
    changes: Changes,
    dice: Dice,
    aircraft: u32,
    // The lines that are still to come, and those that were made.
    left: u64,
    made: u32,
    moment: [u8; 16],
    bytes: [u8; BLOCK],
    at: usize,
    end: usize,
    ghost before: { at ≤ end },
    ghost within: { end ≤ 4096 },
}

// What a line has beside a good frame of its own.
#[derive(Clone, Copy)]
enum Kind {
    Position,
    Other,
    CommB,
    Short,
    Damaged,
}

// The kind of a line by a number below 256, in the proportions of a receiver's own log.
fn kind_of(number: u32) -> Kind {
    match number {
        0..141 => Kind::Position,
        141..205 => Kind::Other,
        205..218 => Kind::CommB,
        218..249 => Kind::Short,
        _ => Kind::Damaged,
    }
}

// A frame of the kind is printed in so many digits.
fn digits_of(kind: Kind) -> usize
    ensures few { result ≤ 28 }
    ensures some { 14 ≤ result }
{
    match kind {
        Kind::Short => 14,
        _ => 28,
    }
}

// Which frame is written.
#[derive(Clone, Copy)]
struct Which {
    kind: Kind,
    roll: u32,
    aircraft: u32,
    may_be_ground: bool,
}

// The template of a frame. Of a receiver's aircraft one in sixteen is on the ground.
#[inline(always)]
fn template_of(templates: &Templates, which: Which) -> Option<&Template> {
    let odd = which.roll & 1 == 1;
    match which.kind {
        Kind::Other => templates.other(which.roll >> 16),
        _ => {
            if which.may_be_ground && which.aircraft % 16 == 15 {
                templates.ground(which.aircraft / 16, odd)
            } else {
                templates.air(which.aircraft, odd)
            }
        }
    }
}

// Writes the digits of a frame from a place on.
#[inline(always)]
fn write_frame_of(
    bytes: &mut [u8; BLOCK],
    first: usize,
    templates: &Templates,
    changes: &Changes,
    which: Which,
    moved: u32,
)
    requires { first + 32 ≤ 4096 }
{
    if let Some(template) = template_of(templates, which) {
        changes.write(bytes, first, template, address_of(which.aircraft), moved);
    }
}

// The address of an aircraft: no two of the first 2^24 have the same.
fn address_of(aircraft: u32) -> u32 {
    aircraft.wrapping_mul(0x9E_3779) & 0xFF_FFFF
}

// Writes a moment, a space and two more bytes.
#[inline(always)]
fn write_moment(bytes: &mut [u8; BLOCK], first: usize, moment: &[u8; 16])
    requires { first + 16 ≤ 4096 }
{
    u8x16::from_slice(moment).copy_to_slice(&mut bytes[first..first + 16]);
}

// Gives the digits of a frame another downlink format, or damages one of them.
#[inline(always)]
fn spoil(bytes: &mut [u8; BLOCK], first: usize, kind: Kind, roll: u32)
    requires { first + 32 ≤ 4096 }
{
    match kind {
        Kind::CommB => {
            bytes[first] = b'A';
            bytes[first + 1] = b'0';
        }
        Kind::Damaged => bytes[first + 9 + (roll >> 8 & 15) as usize] = b'7',
        Kind::Position | Kind::Other | Kind::Short => {}
    }
}

// Ends a line of a receiver behind its digits, or makes junk of it, and returns where it ends.
#[inline(always)]
fn end_line(bytes: &mut [u8; BLOCK], first: usize, digits_end: usize, junk: u32) -> usize
    requires begins { first + 15 ≤ digits_end }
    requires near { digits_end ≤ first + 29 }
    requires room { first + 128 ≤ 4096 }
    ensures ahead { first ≤ result }
    ensures within { result ≤ first + 128 }
{
    bytes[digits_end] = b';';
    match junk {
        0 => {
            bytes[first + 10] = b'\n';
            first + 11
        }
        1 => {
            bytes[first] = b'\n';
            first + 1
        }
        2 => {
            for place in 0..40usize {
                bytes[digits_end + place] = b'0';
            }
            bytes[digits_end + 40] = b'\n';
            digits_end + 41
        }
        3 => {
            bytes[digits_end + 1] = b'\r';
            bytes[digits_end + 2] = b'\n';
            digits_end + 3
        }
        _ => {
            bytes[digits_end + 1] = b'\n';
            digits_end + 2
        }
    }
}

// Counts a number in decimal digits up by one.
fn count_up(digits: &mut [u8; 16]) {
    for back in 0..DIGITS {
        let at = DIGITS - 1 - back;
        if digits[at] < b'9' {
            digits[at] += 1;
            return;
        }
        digits[at] = b'0';
    }
}

impl Log {
    /// A log of so many lines, of this many aircraft.
    pub(crate) fn new(
        alloc: Global,
        seed: u64,
        form: Form,
        aircraft: u32,
        lines: u64,
    ) -> Result<Log, AllocError> {
        let mut dice = Dice::new(seed);
        let templates = Templates::new(alloc, &mut dice)?;
        Ok(Log {
            form,
            templates,
            changes: Changes::new(),
            dice,
            aircraft,
            left: lines,
            made: 0,
            moment: FIRST_MOMENT,
            bytes: [0; BLOCK],
            at: 0,
            end: 0,
        })
    }

    // Writes a frame of an aircraft, which moves as the log goes on, so many bytes behind the end.
    #[inline(always)]
    fn write_frame(&mut self, behind: usize, kind: Kind, roll: u32)
        requires { self.old.end + behind + 32 ≤ 4096 }
        ensures { self.new.end ≡ self.old.end }
    {
        let first = self.end + behind;
        let aircraft = self.dice.below(self.aircraft);
        let moved = (self.made >> 6).wrapping_add(aircraft.wrapping_mul(0x85EB)) & 0xFFFF;
        let may_be_ground = !matches!(&self.form, Form::Positions);
        let which = Which {
            kind,
            roll,
            aircraft,
            may_be_ground,
        };
        write_frame_of(
            &mut self.bytes,
            first,
            &self.templates,
            &self.changes,
            which,
            moved,
        );
        spoil(&mut self.bytes, first, kind, roll);
    }

    // Makes the next line.
    #[inline(always)]
    fn push_line(&mut self)
        requires room { self.old.end + 128 ≤ 4096 }
        ensures end { self.new.end ≤ self.old.end + 128 }
    {
        let roll = self.dice.roll();
        let kind = self.kind(roll >> 24);
        self.go_on(roll >> 14 & 1 == 1);
        match &self.form {
            Form::Timed | Form::Positions => self.push_timed(kind, roll),
            Form::Raw => self.push_raw(kind, roll),
        }
    }

    // The kind of a line, by a number below 256.
    fn kind(&self, number: u32) -> Kind {
        match &self.form {
            Form::Positions => Kind::Position,
            Form::Timed | Form::Raw => kind_of(number),
        }
    }

    // Counts a line, and a millisecond if one has passed.
    #[inline(always)]
    fn go_on(&mut self, has_passed: bool)
        ensures { self.new.end ≡ self.old.end }
    {
        self.made = self.made.wrapping_add(1);
        if has_passed {
            count_up(&mut self.moment);
        }
    }

    // Makes a line with a moment.
    #[inline(always)]
    fn push_timed(&mut self, kind: Kind, roll: u32)
        requires room { self.old.end + 128 ≤ 4096 }
        ensures end { self.new.end ≤ self.old.end + 128 }
    {
        let first = self.end;
        write_moment(&mut self.bytes, first, &self.moment);
        self.write_frame(AFTER_MOMENT, kind, roll);
        let end = first + AFTER_MOMENT + digits_of(kind);
        self.bytes[end] = b'\n';
        self.end = end + 1;
    }

    // Makes a line of a receiver. One in 64 is junk: cut, empty, too long, or with a carriage return.
    #[inline(always)]
    fn push_raw(&mut self, kind: Kind, roll: u32)
        requires room { self.old.end + 128 ≤ 4096 }
        ensures end { self.new.end ≤ self.old.end + 128 }
    {
        let first = self.end;
        self.bytes[first] = b'*';
        self.write_frame(AFTER_STAR, kind, roll);
        let digits_end = first + AFTER_STAR + digits_of(kind);
        self.end = end_line(&mut self.bytes, first, digits_end, roll >> 15 & 0xFF);
    }

    // Makes the next block, empty at the end of the log.
    fn make_block(&mut self) {
        self.at = 0;
        self.end = 0;
        for _ in 0..BLOCK {
            if self.left == 0 || self.end > BLOCK - LINE {
                break;
            }
            self.left -= 1;
            self.push_line();
        }
    }
}

impl Read for Log {
    fn read(&mut self, into: &mut [u8]) -> io::Result<usize> {
        if self.at == self.end {
            self.make_block();
        }
        let count = into.len().min(self.end - self.at);
        into[..count].copy_from_slice(&self.bytes[self.at..self.at + count]);
        self.at += count;
        Ok(count)
    }
}
