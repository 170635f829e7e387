//! Laws of the program, over the definitions that its contracts cite, and the laws below that a reader of them needs.

ghost use Rattle.std.specs.Prelude.{◌≡◌, List, false};
ghost use Rattle.sq_devices.specs.Clocks.{times_of};
ghost use Rattle.sq_commands.specs.Requests.{Text};
ghost use Rattle.sq_commands.specs.Outputs.{effects, outputs};
ghost use Rattle.sq_commands.specs.declared.status.Status.{Status};
ghost use Rattle.sq_tool.specs.OneProgram.{OneProgramRun};
ghost use Rattle.sq_tool.specs.Program.{IsProgramRun, IsTimedProgramRun};

use sq_devices::{Clock, Sink, Source};
pub use sq_log::laws::lines_in_pieces;
pub use sq_words::laws::{accepted_words_ask, one_request, refused_words_ask_nothing};

/// On an input that is not live, a clock changes nothing: it does not matter when the bytes of a file were read. So
/// `one_program_run` also covers a run with a clock on such an input.
pub fn recorded_has_no_arrivals<C: Clock, S: Source, K: Sink, F: Sink>()
    ensures { (words : List Text) (status : Status) (first last : C) (from to : S) (old new : K) (before after : F)
        → C.live first ≡ false → IsTimedProgramRun (times_of C.Clock first last) words status
        (effects S.Source from to (outputs K.Sink F.Sink old new before after))
        → IsProgramRun words status (effects S.Source from to (outputs K.Sink F.Sink old new before after)) }
{}

/// A command line has one run, whatever the devices are. Suppose the same bytes are to come, no device fails, and
/// memory is granted. Then two runs have the same status, write the same text or nothing to the output, and leave the
/// same input. If clap finds no error in the words, they also report the same line or nothing.
pub fn one_program_run<S: Source, K: Sink, F: Sink, T: Source, L: Sink, G: Sink>()
    ensures { OneProgramRun S.Source K.Sink F.Sink T.Source L.Sink G.Sink }
{
    one_request();
}
