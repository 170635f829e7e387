//! The program `squitter` over the process's own streams: quick on a file, prompt on a slow pipe.
#![tactic(auto)]

ghost use Rattle.std.specs.Prelude.{◌≡◌, IfOk};
ghost use Rattle.sq_devices.specs.Device.{most_gets};

use sq_devices::{
    ConsoleClock, PromptInput, PromptOutput, SharedOutput, Trouble, arguments, is_input_live,
};
use sq_tool::{Sink, Source, Writing, refuse_start, run_live};
use std::alloc::{AllocError, Global};
use std::io::{Read, Write};
use std::process::ExitCode;

// The most reads of the input.
const GETS: u64 = 1_000_000_000_000;

fn main(rt: HostRuntime) -> ExitCode {
    let mut faults = Writing::new(rt.stderr());
    let status = match start(&rt, &mut faults) {
        Ok(status) => status,
        Err(trouble) => refuse_start(trouble, &mut faults),
    };
    ExitCode::from(status)
}

// Runs the program on the words of the command line, and returns its exit status.
fn start<F: Sink>(rt: &HostRuntime, faults: &mut F) -> Result<u8, Trouble> {
    let alloc = rt.alloc();
    let arguments = arguments(rt)?;
    let words: Vec<&str> = arguments.iter().map(|word| word.as_str()).collect(alloc)?;
    let shared = SharedOutput::new(alloc, rt.stdout())?;
    let mut input = input_of(alloc, rt.stdin(), &shared)?;
    let mut output = PromptOutput::new(&shared);
    let mut clock = ConsoleClock::new(rt, is_input_live(rt));
    Ok(run_live(
        alloc,
        words.as_slice(),
        &mut clock,
        &mut input,
        &mut output,
        faults,
    ))
}

// Returns the input, with as many gets as any source may have.
fn input_of<'a, R: Read + Drop, W: Write + Drop>(
    alloc: Global,
    reader: R,
    shared: &'a SharedOutput<W>,
) -> Result<PromptInput<'a, R, W>, AllocError>
    ensures { IfOk result (λ input. ⟦<PromptInput<'a, R, W> as Source>⟧.gets_left input ≡ most_gets) }
{
    PromptInput::new(alloc, reader, shared, GETS)
}
