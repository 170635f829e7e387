//! What the words of a command line ask for.
ghost use Rattle.std.specs.Prelude.{◌≡◌, ◌≢◌, IfErr, IfOk, map};
ghost use Rattle.clap.specs.Words.{kind_of};
ghost use Rattle.sq_commands.specs.Requests.{asked_by};
ghost use Rattle.sq_words.specs.Requests.{Asks, IsFaulty};

use crate::command_line::{command_line_of, request_of};
use clap::error::ErrorKind;
use sq_commands::{Request, RunFault};
use std::alloc::{AllocError, Global};
use thiserror::Error;

/// The reason why no request was read.
#[derive(Debug, Drop, Error)]
pub enum Refusal {
    /// An allocation failed.
    #[error("{text}", text = RunFault::Memory.label())]
    Memory,
    /// clap found an error in the words, or they ask for help: clap's text without its tips, in whole lines.
    #[error("{0}")]
    Words(String),
}

impl From<AllocError> for Refusal {
    ghost use Rattle.sq_words.specs.declared.request.Refusal.TheVariants.{Memory};

    ghost from_gives = { λ _ e. e ≡ Memory };

    fn from(_error: AllocError) -> Refusal {
        Refusal::Memory
    }
}

/// Returns the command that the words name, with its values. The first word is the program's name.
///
/// Returns `Words` only if clap finds an error in the words, or if they ask for help, and `Memory` if an allocation
/// fails.
pub fn read_request<'a>(alloc: Global, words: &'a [&'a str]) -> Result<Request<'a>, Refusal>
    ensures asks { IfOk result (λ request. Asks (map (λ word. word.now) words.entry.now) (asked_by request)) }
    ensures refused { IfErr result (λ refusal. (text : _) → refusal ≡ Refusal.Words text
        → IsFaulty (map (λ word. word.now) words.entry.now)) }
{
    let command = command_line_of(alloc, words)?;
    let matches = match command.try_get_matches_from(words) {
        Ok(matches) => matches,
        Err(error) => return Err(refusal_of(alloc, &error)),
    };
    let Some((name, values)) = matches.subcommand() else {
        unreachable!()
    };
    match request_of(name, values) {
        Some(request) => Ok(request),
        None => unreachable!(),
    }
}

// The start of clap's tips, and of the usage that follows them.
const TIPS: &str = "\n\n  tip:";

const USAGE: &str = "\n\nUsage:";

// Returns clap's error as a refusal: its text without tips, or a lack of memory.
fn refusal_of(alloc: Global, error: &clap::Error) -> Refusal
    ensures { (text : _) → result ≡ Refusal.Words text → kind_of error.now ≢ ErrorKind.OutOfMemory }
{
    if error.kind() == ErrorKind::OutOfMemory {
        return Refusal::Memory;
    }
    match text_without_tips(alloc, error) {
        Ok(text) => Refusal::Words(text),
        Err(_) => Refusal::Memory,
    }
}

// Returns clap's text without its tips. clap guesses: it offers `encode` for `decode`, and `-- -4` for a longitude,
// which no option takes. The usage below the tips says what to type.
fn text_without_tips(alloc: Global, error: &clap::Error) -> Result<String, AllocError> {
    let text = error.to_string(alloc)?;
    let Some((reason, tips)) = text.split_once(TIPS) else {
        return Ok(text);
    };
    let Some((_, usage)) = tips.rsplit_once(USAGE) else {
        return Ok(text);
    };
    format!(in alloc; "{reason}{USAGE}{usage}")
}
