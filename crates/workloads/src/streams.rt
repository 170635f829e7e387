//! The jobs that read a log: the program's commands `track` and `check`.
use crate::digest::{Digest, Mix};
use crate::log::{Form, Log};
use sq_tool::{Reading, Writing, run};
use std::alloc::{AllocError, Global};

// How often a log is read from at most.
const GETS: u64 = 1_000_000_000_000;

// The aircraft that one receiver hears at a time.
const AIRCRAFT: u32 = 500;

// Runs the program with these words on a log, and mixes in its status and what it wrote.
fn run_on(mix: &mut Mix, alloc: Global, words: &[&str], log: Log) {
    let mut input = Reading::new(log, GETS);
    let mut output = Writing::new(Digest::new());
    let mut faults = Writing::new(Digest::new());
    let status = run(alloc, words, &mut input, &mut output, &mut faults);
    mix.add(u64::from(status));
    mix.add(output.into_inner().value());
    mix.add(faults.into_inner().value());
}

/// A day's archive through `track`, in lines.
pub(crate) fn track(alloc: Global, seed: u64, lines: u64) -> Result<u64, AllocError> {
    let mut mix = Mix::new();
    let words = ["squitter", "track", "--lat=52.31", "--lon=4.76"];
    let log = Log::new(alloc, seed, Form::Timed, AIRCRAFT, lines)?;
    run_on(&mut mix, alloc, &words, log);
    Ok(mix.value())
}

/// The same in rows: one half in CSV, the other in JSON.
pub(crate) fn rows(alloc: Global, seed: u64, lines: u64) -> Result<u64, AllocError> {
    let mut mix = Mix::new();
    let csv = [
        "squitter",
        "track",
        "--format=csv",
        "--lat=52.31",
        "--lon=4.76",
    ];
    let log = Log::new(alloc, seed, Form::Timed, AIRCRAFT, lines / 2)?;
    run_on(&mut mix, alloc, &csv, log);
    let json = [
        "squitter",
        "track",
        "--format=json",
        "--lat=52.31",
        "--lon=4.76",
    ];
    let log = Log::new(alloc, seed ^ 1, Form::Timed, AIRCRAFT, lines / 2)?;
    run_on(&mut mix, alloc, &json, log);
    Ok(mix.value())
}

/// Very many aircraft through `track`: half of the lines of aircraft that are all kept, some of aircraft that leave and
/// come back, and some in a table that is full.
pub(crate) fn crowd(alloc: Global, seed: u64, lines: u64) -> Result<u64, AllocError> {
    let mut mix = Mix::new();
    let kept = ["squitter", "track", "--limit=1000000", "--window=100000000"];
    let log = Log::new(alloc, seed, Form::Positions, 200_000, lines / 2)?;
    run_on(&mut mix, alloc, &kept, log);
    let leaving = ["squitter", "track", "--limit=1000000", "--window=10000"];
    let log = Log::new(alloc, seed ^ 1, Form::Positions, 100_000, lines / 3)?;
    run_on(&mut mix, alloc, &leaving, log);
    let full = ["squitter", "track", "--limit=10000", "--window=30000"];
    let log = Log::new(alloc, seed ^ 2, Form::Positions, 100_000, lines / 6)?;
    run_on(&mut mix, alloc, &full, log);
    Ok(mix.value())
}

/// A receiver's raw log through `check`: half of it in lines, a quarter in CSV and one in JSON.
pub(crate) fn check(alloc: Global, seed: u64, lines: u64) -> Result<u64, AllocError> {
    let mut mix = Mix::new();
    let log = Log::new(alloc, seed, Form::Raw, AIRCRAFT, lines / 2)?;
    run_on(&mut mix, alloc, &["squitter", "check"], log);
    let log = Log::new(alloc, seed ^ 1, Form::Raw, AIRCRAFT, lines / 4)?;
    run_on(&mut mix, alloc, &["squitter", "check", "--format=csv"], log);
    let log = Log::new(alloc, seed ^ 2, Form::Raw, AIRCRAFT, lines / 4)?;
    run_on(
        &mut mix,
        alloc,
        &["squitter", "check", "--format=json"],
        log,
    );
    Ok(mix.value())
}
