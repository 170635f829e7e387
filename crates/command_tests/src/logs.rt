//! The log machine with a job of its own: pieces in, results out, however the log is cut into pieces.
ghost use Rattle.std.specs.Prelude.{◌≡◌, Err, List, ℕ, ⊤};
ghost use Rattle.sq_text.specs.declared.faults.LineFault.TheVariants.{Full};

use sq_log::{Answer, Job, LineFault, Log, Step, Tally, Verdict};
use std::process::Abort;

// Finds the first byte of a text; refuses a text that begins with `?`, and has no memory for one that begins with
// `!`.
#[derive(Drop)]
struct FirstBytes;

impl Job for FirstBytes {
    type Found = u8;

    ghost Past = { Unit {0} };

    ghost Lasting = { Unit {0} };

    // A test looks only at results: the job represents no past, so nothing is stated about them.
    ghost how = { record {
      stands_for = λ state past. ⊥;
      way = record { answer = λ past text. Err Full; after = λ past text. past };
      wants = λ state text. ⊤;
    } };

    ghost lasting = { λ state. tt };

    ghost Promised = { λ start answers. Unit {0} };

    ghost promises = { λ start now tally lines answers told. tt };

    fn hear(&mut self, text: &[u8]) -> Verdict<u8> {
        match text.first() {
            Some(b'?') => Verdict::Refused(LineFault::Full),
            Some(b'!') => Verdict::NoMemory,
            Some(byte) => Verdict::Good(*byte),
            None => Verdict::Refused(LineFault::Full),
        }
    }
}

fn machine() -> Log<FirstBytes>
    ensures { result.number ≡ 0 }
{
    Log::new(FirstBytes)
}

// Asserts that a step took this many bytes and gave the result for the line with this number.
fn assert_answered(
    rt: &impl Abort,
    step: Step<u8>,
    taken: usize,
    number: u64,
    verdict: Result<u8, LineFault>,
) {
    let Step::Answered(count, answer) = step else {
        panic!(rt; "an answer");
    };
    assert!(rt; count == taken);
    assert!(rt; answer.number == number);
    assert!(rt; answer.verdict == verdict);
}

#[test]
fn answers_lines_in_turn(rt: HostRuntime) {
    let mut log = machine();
    assert_answered(&rt, log.step(b"ab\n\n?c\nd"), 8, 1, Ok(b'a'));
    assert!(rt; matches!(log.step(b""), Step::Passed(0)));
    assert_answered(&rt, log.step(b""), 0, 3, Err(LineFault::Full));
    assert!(rt; matches!(log.step(b""), Step::Fed));
    assert!(rt; matches!(log.step(b"e"), Step::Passed(1)));
    assert!(rt; matches!(log.step(b""), Step::Fed));
    assert_answered(&rt, log.finish(), 0, 4, Ok(b'd'));
    assert!(rt; matches!(log.finish(), Step::Fed));
    let tally = Tally {
        good: 2,
        refused: 1,
    };
    assert!(rt; log.tally() == tally);
}

#[test]
fn takes_64_bytes_at_once(rt: HostRuntime) {
    let mut log = machine();
    assert!(rt; matches!(log.step(&[b'x'; 65]), Step::Passed(64)));
    assert_answered(&rt, log.step(b"\ny\n"), 3, 1, Ok(b'x'));
    assert_answered(&rt, log.step(b""), 0, 2, Ok(b'y'));
    assert!(rt; matches!(log.step(&[b'x'; 64]), Step::Passed(64)));
    assert!(rt; matches!(log.step(b"x"), Step::Passed(1)));
    assert_answered(&rt, log.step(b"\nz\n"), 3, 3, Err(LineFault::LongLine));
    assert_answered(&rt, log.step(b""), 0, 4, Ok(b'z'));
}

#[test]
fn waits_with_a_line_without_memory(rt: HostRuntime) {
    let mut log = machine();
    assert_answered(&rt, log.step(b"a\n!\n"), 4, 1, Ok(b'a'));
    assert!(rt; matches!(log.step(b""), Step::NoMemory(0)));
    assert!(rt; matches!(log.step(b"b\n"), Step::NoMemory(0)));
}
