//! Guards of the definitions: each has one value, some value or an exact condition, so none can be weakened unnoticed.
//! A function with an empty body does nothing: its contract is the statement.
ghost use Rattle.std.specs.Prelude.{◌≡◌, ◌+◌, ◌≤◌, ◌<◌, ◌↔◌, IsTrue, List, ℕ};
ghost use Rattle.std.specs.Io.KnownBytes.{Consumes};
ghost use Rattle.sq_devices.specs.ConsoleClock.{IsTold, is_live, latest_of};
ghost use Rattle.sq_devices.specs.declared.console_clock.ConsoleClock.{ConsoleClock};
ghost use Rattle.sq_devices.specs.Prompt.{IsFinish, IsGiven, IsTaken, finishes_of, gets_of, to_come_of};
ghost use Rattle.sq_devices.specs.declared.prompt.PromptInput.{PromptInput};
ghost use Rattle.sq_devices.specs.declared.prompt.PromptOutput.{PromptOutput};

use crate::start::Trouble;
use std::io::{Read, Write};
use std::time;

/// One get of the input takes the returned bytes from the front of the bytes to come, if these are reported. It uses up
/// one get.
pub fn one_get<R: Read, W: Write + Drop>()
    ensures { (old new : PromptInput R W W.Write) (bytes : List ℕ) → IsGiven R.remaining old bytes new
        ↔ (Consumes (to_come_of R.remaining old) (to_come_of R.remaining new) bytes × (gets_of new < gets_of old)
        × (gets_of old ≤ gets_of new + 1)) }
{}

/// One put of the output counts no finish, and one finish counts one.
pub fn one_put<W: Write + Drop>()
    ensures took { (old new : PromptOutput W W.Write) (bytes : List ℕ) → IsTaken old bytes new
        ↔ (finishes_of old ≡ finishes_of new) }
    ensures finished { (old new : PromptOutput W W.Write) → IsFinish old new
        ↔ ((finishes_of old < finishes_of new) × (finishes_of new ≤ finishes_of old + 1)) }
{}

/// One reading of the clock returns its latest time. It does not change whether the input is live.
pub fn one_time<T: time::Clock>()
    ensures { (old new : ConsoleClock T) (moment : ℕ) → IsTold old moment new
        ↔ ((latest_of new ≡ moment) × (is_live new ≡ is_live old)) }
{}

/// Compares two troubles by `==`, which is true exactly if they are the same.
pub fn equal_troubles(trouble: &Trouble, other: &Trouble) -> bool
    ensures { IsTrue result ↔ (trouble.now ≡ other.now) }
{
    trouble == other
}
