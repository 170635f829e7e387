//! The texts of the program: parsing frames, showing squitters and places, rows, and the errors of lines and of
//! places.
//!
//! A frame text is 28 hexadecimal digits of either case, bare or between `*` and `;`. For any other text the first
//! error is returned. Texts are made in buffers of fixed size: no call allocates.
//!
//! Rows are records of CSV (RFC 4180) and objects of JSON (RFC 8259), each on a line. A row begins with the number of
//! its line ([`push_line`]). Values follow by name, and [`push_end`] ends it.
#![tactic(auto)]

mod faults;
mod frame_text;
mod front_digits;
pub mod pins;
mod place;
mod place_faults;
mod reading;
mod rows;
mod show;
mod squitters;
mod summary;
mod timed;

pub use faults::{LineFault, push_fault};
pub use frame_text::{TextFault, read_text};
pub use place::{PlaceText, place_text, push_decimals};
pub use place_faults::push_place_fault;
pub use reading::read_squitter;
pub use rows::{
    Form, push_address, push_blank, push_end, push_hexadecimal_word, push_line, push_number,
    push_signed, push_word,
};
pub use show::{ShowText, show_text};
pub use sq_angle::Angle;
pub use sq_digits::{TextBuffer, push_decimal, push_hexadecimal, push_six_places};
pub use sq_message::{Airborne, Frame, FrameFault, Me, PlaceFault, Position, Received, Squitter};
pub use squitters::{
    kind_name, push_airborne_feet, push_bit, push_degrees, push_fault_word, push_feet,
};
pub use summary::push_summary;
pub use timed::{read_decimal, read_timed};
