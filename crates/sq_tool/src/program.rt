//! The whole program over its devices.
ghost use Rattle.std.specs.Prelude.{◌≡◌, ◌++◌, codes, map};
ghost use Rattle.sq_devices.specs.Changes.{WroteOrFailed, written_on};
ghost use Rattle.sq_devices.specs.Clocks.{times_of};
ghost use Rattle.sq_commands.specs.Outputs.{effects, outputs};
ghost use Rattle.sq_commands.specs.Statuses.{exit_status};
ghost use Rattle.sq_commands.specs.declared.status.Status.{Status};
ghost use Rattle.sq_tool.specs.Program.{IsProgramRun, IsTimedProgramRun, trouble_status, trouble_text};

use sq_commands::{Status, answer_live, break_off, report};
use sq_devices::{Clock, NoClock, Sink, Source, Trouble};
use sq_log::RunFault;
use sq_words::{Refusal, read_request};
use std::alloc::Global;

/// Does what the words ask for, and returns the exit status: 0 success; 1 a line, a frame or a position was refused;
/// 2 a bad command line, or help; 3 a read, a write or an allocation failed. The first word is the program's name.
/// The input is recorded: `feed` reads no clock.
///
/// Results go to the output. To the sink `faults` go one line for an error, clap's text for words that it refuses,
/// and the summary of `feed`. A failure to write there changes no status.
pub fn run<S: Source, K: Sink, F: Sink>(
    alloc: Global,
    words: &[&str],
    input: &mut S,
    output: &mut K,
    faults: &mut F,
) -> u8
    ensures { (status : Status) × (result ≡ exit_status status)
        × IsProgramRun (map (λ word. word.now) words.entry.now) status
        (effects S.Source input.old input.new (outputs K.Sink F.Sink output.old output.new faults.old faults.new)) }
{
    run_live(alloc, words, &mut NoClock, input, output, faults)
}

/// Does what [`run`] does, on a live input with a clock. `feed` reads the clock after each get; no other command
/// reads it.
pub fn run_live<C: Clock, S: Source, K: Sink, F: Sink>(
    alloc: Global,
    words: &[&str],
    clock: &mut C,
    input: &mut S,
    output: &mut K,
    faults: &mut F,
) -> u8
    ensures { (status : Status) × (result ≡ exit_status status)
        × IsTimedProgramRun (times_of C.Clock clock.old clock.new) (map (λ word. word.now) words.entry.now) status
        (effects S.Source input.old input.new (outputs K.Sink F.Sink output.old output.new faults.old faults.new)) }
{
    follow(alloc, words, clock, input, output, faults).exit_status()
}

// Does what the words ask for, or reports why they cannot be read.
fn follow<C: Clock, S: Source, K: Sink, F: Sink>(
    alloc: Global,
    words: &[&str],
    clock: &mut C,
    input: &mut S,
    output: &mut K,
    faults: &mut F,
) -> Status
    ensures { IsTimedProgramRun (times_of C.Clock clock.old clock.new) (map (λ word. word.now) words.entry.now) result
        (effects S.Source input.old input.new (outputs K.Sink F.Sink output.old output.new faults.old faults.new)) }
{
    match read_request(alloc, words) {
        Ok(request) => answer_live(alloc, request, clock, input, output, faults),
        Err(Refusal::Words(text)) => refuse_words(text.as_str(), faults),
        Err(Refusal::Memory) => break_off(RunFault::Memory, faults),
    }
}

// Reports what is wrong with the words of the command line.
fn refuse_words<F: Sink>(report_text: &str, faults: &mut F) -> Status
    ensures status { result ≡ Status.Misused }
    ensures reported { WroteOrFailed (written_on F.Sink faults.old faults.new) report_text.now }
{
    report(report_text, faults);
    Status::Misused
}

/// Reports in one line why the program cannot start, `bad words` or `out of memory`. Returns the exit status, 2 or 3.
/// A failure of the sink changes no status.
pub fn refuse_start<F: Sink>(trouble: Trouble, faults: &mut F) -> u8
    ensures status { result ≡ exit_status (trouble_status trouble) }
    ensures told { WroteOrFailed (written_on F.Sink faults.old faults.new) (trouble_text trouble ++ codes "\n") }
{
    report_trouble(trouble, faults).exit_status()
}

// Reports why the program cannot start.
fn report_trouble<F: Sink>(trouble: Trouble, faults: &mut F) -> Status
    ensures status { result ≡ trouble_status trouble }
    ensures told { WroteOrFailed (written_on F.Sink faults.old faults.new) (trouble_text trouble ++ codes "\n") }
{
    match trouble {
        Trouble::Words => refuse_words("bad words\n", faults),
        Trouble::Memory => break_off(RunFault::Memory, faults),
    }
}
