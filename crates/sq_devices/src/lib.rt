//! Devices: inputs and outputs of bytes, clocks, and the console of a program.
//!
//! A [`Source`] is an input and a [`Sink`] an output. Contracts see the bytes of a device, still to come or written, if
//! it reports them. They also see whether it has failed, and how many more gets of a source can succeed. [`Reading`] is
//! a source over any reader, and [`Writing`] a sink over any writer. [`put_all`] puts a whole text, and [`put_last`]
//! the last one. A [`Clock`] tells when bytes arrived. [`NoClock`] is the clock of a recorded input.
//!
//! The console is the words of the command line ([`arguments`]) and the standard streams. [`PromptInput`] and
//! [`PromptOutput`] are buffered, so that a file goes through in large blocks. The output is flushed before the input
//! really waits, so that a slow pipe sees each answer at once. If a flush fails, the next put fails, or the finish.
#![tactic(auto)]

mod clocks;
mod console_clock;
pub mod console_pins;
mod device;
pub mod laws;
pub mod pins;
mod prompt;
mod readers;
mod start;
mod texts;
mod writers;

pub use clocks::NoClock;
pub use console_clock::{ConsoleClock, is_input_live};
pub use device::{Clock, Failed, Sink, Source};
pub use prompt::{PromptInput, PromptOutput, SharedOutput};
pub use readers::Reading;
pub use start::{Trouble, arguments};
pub use texts::{put_all, put_last};
pub use writers::Writing;
