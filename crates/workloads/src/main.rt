//! The jobs that a user of Squitter waits for, on inputs that are made of a seed, for bench/run. The words are a job, a
//! seed below 2^32 and the size of the input; a digest of all results is printed.
#![tactic(auto)]

mod arrays;
mod changes;
mod dice;
mod digest;
mod fields;
mod log;
mod positions;
mod streams;
mod templates;

use digest::Mix;
use std::alloc::{AllocError, Global};
use std::env;
use std::process::ExitCode;

// The digest of a job's results. None where there is no such job.
fn digest_of(alloc: Global, job: &str, seed: u64, size: u64) -> Result<Option<u64>, AllocError> {
    let digest = match job {
        "track" => streams::track(alloc, seed, size)?,
        "rows" => streams::rows(alloc, seed, size)?,
        "crowd" => streams::crowd(alloc, seed, size)?,
        "check" => streams::check(alloc, seed, size)?,
        "decode" => arrays::decode(alloc, seed, size)?,
        "read" => fields::read(alloc, seed, size)?,
        "encode" => positions::encode_all(seed, size),
        "all" => all(alloc, seed, size)?,
        _ => return Ok(None),
    };
    Ok(Some(digest))
}

// The digest of all jobs on inputs of one size.
fn all(alloc: Global, seed: u64, size: u64) -> Result<u64, AllocError> {
    let mut mix = Mix::new();
    mix.add(streams::track(alloc, seed, size)?);
    mix.add(streams::rows(alloc, seed, size)?);
    mix.add(streams::crowd(alloc, seed, size)?);
    mix.add(streams::check(alloc, seed, size)?);
    mix.add(arrays::decode(alloc, seed, size)?);
    mix.add(fields::read(alloc, seed, size)?);
    mix.add(positions::encode_all(seed, size));
    Ok(mix.value())
}

// Does the job of the words, and returns its digest. None where the words are no job, or memory runs out.
fn start(rt: &HostRuntime) -> Option<u64> {
    let words: Vec<String> = env::args(rt).ok()?.collect(rt.alloc()).ok()?;
    let job = words.get(1)?.as_str();
    let seed = u64::from(words.get(2)?.as_str().parse::<u32>().ok()?);
    let size = words.get(3)?.as_str().parse::<u64>().ok()?;
    digest_of(rt.alloc(), job, seed, size).ok()?
}

fn main(rt: HostRuntime) -> ExitCode {
    match start(&rt) {
        Some(digest) => match println!(rt; "{digest:016X}") {
            Ok(()) => ExitCode::from(0),
            Err(_) => ExitCode::from(3),
        },
        None => ExitCode::from(2),
    }
}
