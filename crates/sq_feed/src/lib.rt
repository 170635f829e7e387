//! Squitters and their timestamps from the bytes of a receiver.
//!
//! A [`Feed`] takes a source's bytes in pieces of any length, each with its arrival. It gives the squitters in them,
//! one at a time ([`Timed`]), and counts what becomes of every item ([`Counts`]). [`push_log_line`] makes the line of a
//! squitter that `track` reads. [`Beast`], [`Avr`] and [`Rows`] split bytes into items: messages, and damage between
//! them. How the bytes are cut into pieces never matters. Each squitter has a timestamp by its receiver's [`Clock`], by
//! its row, or by its arrival. Times that jump are believed once others confirm them. A feed without a format finds it
//! by the first bytes, and names a source without frames ([`Stranger`]). An [`Order`] sorts squitters by their
//! timestamps, in memory that it is given. [`Units`] tells timestamps that are no milliseconds. No other call allocates
//! memory.
#![tactic(auto)]

mod avr;
mod beast;
mod cells;
mod clock;
mod counts;
mod dates;
mod ear;
mod feed;
mod finder;
pub mod laws;
mod lines;
mod machine;
mod manner;
mod message;
mod order;
pub mod pins;
mod plain_rows;
mod reader;
mod rows;
mod signs;
mod tables;
mod times;
mod units;

pub use avr::Avr;
pub use beast::Beast;
pub use clock::Clock;
pub use counts::{Counts, Fate};
pub use feed::{Feed, Step};
pub use lines::{LINE_LIMIT, push_log_line};
pub use machine::Format;
pub use manner::Manner;
pub use message::{Found, Message, RawFrame, Stranger, Time, Timed};
pub use order::Order;
pub use rows::{Columns, Layout, Rows};
pub use sq_digits::TextBuffer;
pub use units::{Unit, Units};
