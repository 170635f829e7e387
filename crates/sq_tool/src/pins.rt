//! Guards of the definitions: each has one value, some value or an exact condition, so none can be weakened unnoticed.
//! A function with an empty body does nothing: its contract is the statement.
ghost use Rattle.sq_tool.specs.OneProgram.{BrokenProgram};

use sq_devices::{Sink, Source};

/// If a device or memory failed, the program ran the request that the words ask for until then. Or there was no
/// memory to read the words: then it read nothing, wrote nothing to the output, and tried to report `out of memory`.
pub fn broken_program_exactly<S: Source, K: Sink, F: Sink>()
    ensures { BrokenProgram S.Source K.Sink F.Sink }
{}
