//! The outcome of the program for a command line and an input.
use arrayvec::ArrayVec;
use sq_devices::{Reading, Sink, Source, Writing};
use sq_tool::run;
use std::alloc::Global;
use std::io::{Read, Write};
use std::process::Abort;

/// A command line with its input, and its outcome: the exit status, the output and the report.
#[derive(Clone, Copy)]
pub(crate) struct Row {
    pub(crate) name: &'static str,
    pub(crate) line: &'static str,
    pub(crate) input: &'static [u8],
    pub(crate) status: u8,
    pub(crate) written: &'static str,
    pub(crate) reported: &'static str,
}

/// The outcome of a run.
#[derive(Drop)]
pub(crate) struct Ran {
    pub(crate) status: u8,
    pub(crate) written: Vec<u8>,
    pub(crate) reported: Vec<u8>,
}

// The most words of a command line.
const MOST_WORDS: usize = 16;

/// Returns the status that `run` returns for the words of a command line, which spaces separate. Allocates nothing
/// for them.
pub(crate) fn status_of(
    alloc: Global,
    line: &str,
    input: &mut impl Source,
    output: &mut impl Sink,
    faults: &mut impl Sink,
) -> u8 {
    let mut words = ArrayVec::<&str, MOST_WORDS>::new();
    for word in line.split(' ') {
        let _ = words.try_push(word);
    }
    run(alloc, words.as_slice(), input, output, faults)
}

// A source and a sink, without the clauses.
pub(crate) fn source_of<R: Read>(reader: R) -> Reading<R> {
    Reading::new(reader, 1_000_000)
}

pub(crate) fn sink_of<W: Write>(writer: W) -> Writing<W> {
    Writing::new(writer)
}

pub(crate) fn taken<W: Write>(sink: Writing<W>) -> W {
    sink.into_inner()
}

/// Returns the outcome of a command line on an input, with these texts for the output and the report.
pub(crate) fn run_into(
    alloc: Global,
    line: &str,
    reader: impl Read + Drop,
    written: Vec<u8>,
    reported: Vec<u8>,
) -> Ran {
    let mut input = source_of(reader);
    let mut output = sink_of(written);
    let mut faults = sink_of(reported);
    let status = status_of(alloc, line, &mut input, &mut output, &mut faults);
    Ran {
        status,
        written: taken(output),
        reported: taken(faults),
    }
}

/// Returns the outcome of a command line on an input.
pub(crate) fn run_on(alloc: Global, line: &str, reader: impl Read + Drop) -> Ran {
    run_into(alloc, line, reader, Vec::new(alloc), Vec::new(alloc))
}

/// Asserts the outcome of a run.
pub(crate) fn assert_ran(rt: &impl Abort, ran: &Ran, row: &Row) {
    assert!(rt;
        ran.written.as_slice() == row.written.as_bytes(),
        "{}",
        row.name
    );
    assert!(rt;
        ran.reported.as_slice() == row.reported.as_bytes(),
        "{}",
        row.name
    );
    assert!(rt; ran.status == row.status, "{}", row.name);
}

/// Asserts the outcome of each command line.
pub(crate) fn assert_rows(rt: &impl Abort, alloc: Global, rows: &[Row]) {
    for row in rows {
        assert_ran(rt, &run_on(alloc, row.line, row.input), row);
    }
}
