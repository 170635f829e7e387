//! Frames made of others, with another address and another code, as bytes and as text.
ghost use Rattle.std.specs.Prelude.{◌+◌, ◌<◌, ◌≤◌};

use sq_bits::{Frame, remainder};
use std::simd::prelude::*;

/// So many bytes of a log are made at once.
pub(crate) const BLOCK: usize = 4096;

const HEXADECIMAL: [u8; 16] = *b"0123456789ABCDEF";

/// A correct frame of address 0.
#[derive(Clone, Copy)]
pub(crate) struct Template {
    bytes: [u8; 14],
    text: [u8; 32],
    parity: u32,
}

impl Template {
    /// The template of a frame.
    pub(crate) fn new(frame: &Frame) -> Template {
        let bytes = frame.0;
        let mut text = [b'0'; 32];
        for place in 0..14usize {
            let [high, low] = digits_of(bytes[place]);
            text[2 * place] = high;
            text[2 * place + 1] = low;
        }
        Template {
            bytes,
            text,
            parity: u32::from_be_bytes([0, bytes[11], bytes[12], bytes[13]]),
        }
    }
}

// A byte in two hexadecimal digits.
fn digits_of(byte: u8) -> [u8; 2] {
    [
        HEXADECIMAL[usize::from(byte >> 4)],
        HEXADECIMAL[usize::from(byte & 15)],
    ]
}

/// What another address and code change: a remainder for each place that changes and each value, and the digits of all
/// bytes.
#[derive(Drop)]
pub(crate) struct Changes {
    high: [u32; 256],
    middle: [u32; 256],
    low: [u32; 256],
    lat: [u32; 256],
    lon: [u32; 256],
    digits: [[u8; 2]; 256],
}

// The remainders of the frames that have but this byte.
fn remainders_at(place: usize) -> [u32; 256]
    requires { place < 14 }
{
    let mut remainders = [0; 256];
    for value in 0..256usize {
        let mut bytes = [0; 14];
        bytes[place] = value as u8;
        remainders[value] = remainder(&Frame(bytes));
    }
    remainders
}

// The bytes of a frame that differ from its template's.
#[derive(Clone, Copy)]
struct Changed {
    high: u8,
    middle: u8,
    low: u8,
    lat: u8,
    lon: u8,
    parity: [u8; 3],
}

impl Changes {
    pub(crate) fn new() -> Changes {
        let high = remainders_at(1);
        let middle = remainders_at(2);
        let low = remainders_at(3);
        let lat = remainders_at(8);
        let lon = remainders_at(10);
        let mut digits = [[0; 2]; 256];
        for value in 0..256usize {
            digits[value] = digits_of(value as u8);
        }
        Changes {
            high,
            middle,
            low,
            lat,
            lon,
            digits,
        }
    }

    #[inline(always)]
    fn changed(&self, template: &Template, address: u32, change: u32) -> Changed {
        let [_, high, middle, low] = address.to_be_bytes();
        let [_, _, lat, lon] = (change & 0xFEFF).to_be_bytes();
        let parity = template.parity
            ^ self.high[usize::from(high)]
            ^ self.middle[usize::from(middle)]
            ^ self.low[usize::from(low)]
            ^ self.lat[usize::from(lat)]
            ^ self.lon[usize::from(lon)];
        let [_, first, second, third] = parity.to_be_bytes();
        Changed {
            high,
            middle,
            low,
            lat: template.bytes[8] ^ lat,
            lon: template.bytes[10] ^ lon,
            parity: [first, second, third],
        }
    }

    /// The correct frame of another address, with the last seven bits of the latitude's code and the last eight of the
    /// longitude's changed by those of a number.
    #[inline(always)]
    pub(crate) fn frame(&self, template: &Template, address: u32, change: u32) -> Frame {
        let changed = self.changed(template, address, change);
        let mut bytes = template.bytes;
        bytes[1] = changed.high;
        bytes[2] = changed.middle;
        bytes[3] = changed.low;
        bytes[8] = changed.lat;
        bytes[10] = changed.lon;
        bytes[11] = changed.parity[0];
        bytes[12] = changed.parity[1];
        bytes[13] = changed.parity[2];
        Frame(bytes)
    }

    /// Writes the digits of the same frame from a place on, and four more bytes behind them.
    #[inline(always)]
    pub(crate) fn write(
        &self,
        bytes: &mut [u8; BLOCK],
        first: usize,
        template: &Template,
        address: u32,
        change: u32,
    )
        requires { first + 32 ≤ 4096 }
    {
        let changed = self.changed(template, address, change);
        u8x32::from_slice(&template.text).copy_to_slice(&mut bytes[first..first + 32]);
        self.write_byte(bytes, first + 2, changed.high);
        self.write_byte(bytes, first + 4, changed.middle);
        self.write_byte(bytes, first + 6, changed.low);
        self.write_byte(bytes, first + 16, changed.lat);
        self.write_byte(bytes, first + 20, changed.lon);
        self.write_byte(bytes, first + 22, changed.parity[0]);
        self.write_byte(bytes, first + 24, changed.parity[1]);
        self.write_byte(bytes, first + 26, changed.parity[2]);
    }

    // Writes the two digits of a byte.
    #[inline(always)]
    fn write_byte(&self, bytes: &mut [u8; BLOCK], at: usize, byte: u8)
        requires { at + 2 ≤ 4096 }
    {
        let digits = self.digits[usize::from(byte)];
        bytes[at] = digits[0];
        bytes[at + 1] = digits[1];
    }
}
