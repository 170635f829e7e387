//! The words of the command line, and the errors of a start.
ghost use Rattle.std.specs.Prelude.{◌≡◌};

use std::alloc::{Alloc, AllocError};
use std::env;
use std::env::Env;
use std::io::ErrorKind;

/// Why the program cannot start.
#[derive(Clone, Copy, Debug, PartialEq, Eq)]
pub enum Trouble {
    /// A word of the command line is not UTF-8.
    Words,
    /// An allocation failed.
    Memory,
}

impl From<AllocError> for Trouble {
    ghost use Rattle.sq_devices.specs.declared.start.Trouble.TheVariants.{Memory};

    ghost from_gives = { λ _ e. e ≡ Memory };

    fn from(_error: AllocError) -> Trouble {
        Trouble::Memory
    }
}

/// Returns the words of the command line. The first is the program's name. Errors: `Words` if a word is not UTF-8,
/// `Memory` if an allocation failed.
pub fn arguments<T: Env + Alloc>(rt: &T) -> Result<Vec<String<T::A>, T::A>, Trouble> {
    match env::args(rt) {
        Ok(words) => Ok(words.collect(rt.alloc())?),
        Err(error) if error.kind() == ErrorKind::OutOfMemory => Err(Trouble::Memory),
        Err(_) => Err(Trouble::Words),
    }
}
