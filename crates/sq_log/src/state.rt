//! A log machine between two pieces, apart from its job.
ghost use Rattle.std.specs.Prelude.{◌≡◌, ◌+◌, ◌≤◌};

use crate::log::Tally;
use crate::window::Window;

/// What a log machine holds besides its job: the number of lines, their tally, and the bytes behind them.
#[derive(Drop)]
pub struct LogState {
    pub(crate) number: u64,
    pub(crate) tally: Tally,
    pub(crate) window: Window,
    ghost counted: { tally.good + tally.refused ≤ number },
}

impl LogState {
    ghost use Rattle.sq_log.specs.States.{HasHeardNothing};

    /// Creates the state of a machine that was given nothing.
    pub fn new() -> LogState
        ensures { HasHeardNothing result }
    {
        LogState {
            number: 0,
            tally: Tally {
                good: 0,
                refused: 0,
            },
            window: Window::new(),
        }
    }

    /// Returns how many lines were heard.
    pub fn number(&self) -> u64
        ensures { result ≡ self.now.number }
    {
        self.number
    }

    /// Returns how many lines were good, and how many were refused.
    pub fn tally(&self) -> Tally
        ensures { result ≡ self.now.tally }
    {
        self.tally
    }
}
