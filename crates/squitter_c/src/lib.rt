//! The exports of `libsquitter`: frames, squitters and places, as C calls them.
//!
//! A frame is passed as its 14 bytes; any 14 bytes are allowed. Angles are exact fractions, and all other numbers are
//! plain or fields of plain structs. Every value is allowed: an invalid position or head is refused with a code. So a
//! caller only has to keep its pointers valid. No call allocates, and every call returns. A tracker, a log, a feed or
//! an order uses a block that the caller lends. A call that writes to `out` returns code 0; with any other code `out`
//! is unchanged. The one exception is a log call that returns `Memory`, after it wrote earlier results.
#![tactic(auto)]

mod altitudes;
mod angles;
mod decode;
mod e7;
mod entry;
mod faults;
pub mod feed_laws;
mod feed_new;
pub mod feed_pins;
mod feed_slot;
mod feed_take;
mod feed_text;
mod fields;
mod forms;
mod heads;
mod heard;
pub mod laws;
mod listener;
mod log_answer;
pub mod log_laws;
mod log_loop;
mod log_new;
pub mod log_pins;
mod log_take;
mod log_text;
mod many;
mod order;
pub mod order_laws;
pub mod order_pins;
mod order_slot;
mod parts;
pub mod pins;
mod plain;
pub mod plain_pins;
mod read;
mod seal;
pub mod seal_pins;
mod send;
mod slot;
mod texts;
mod tracker_hear;
pub mod tracker_laws;
mod tracker_many;
mod tracker_new;
pub mod tracker_pins;
mod tracker_present;
mod tracker_restore;
mod tracker_save;
mod units;
mod watch;
mod zones;
