//! The clock of a recorded input.
ghost use Rattle.std.specs.Prelude.{◌≡◌, false};

use crate::Clock;

/// A clock for a recorded input, which needs no times: each reading is 0.
#[derive(Clone, Copy, Debug, Drop)]
pub struct NoClock;

impl Clock for NoClock {
    ghost use Rattle.std.specs.Prelude.{◌≡◌, false};

    ghost live = { λ clock. false };

    ghost Told = { λ old moment new. moment ≡ 0 };

    fn is_live(&self) -> bool {
        false
    }

    fn now(&mut self) -> u64 {
        0
    }
}
