//! The clock of a console's input.
ghost use Rattle.std.specs.Prelude.{◌≡◌};

use crate::Clock;
use std::fs::Files;
use std::time::Duration;
use std::{fs, time};

/// A clock of the system: milliseconds since 1970 at the start, and by the monotonic clock from there on.
#[derive(Drop)]
pub struct ConsoleClock<'a, T> {
    system: &'a T,
    live: bool,
    // When the clock was created: milliseconds since 1970, and the time of the monotonic clock.
    start: u64,
    begun: Duration,
    latest: u64,
}

impl<'a, T: time::Clock> ConsoleClock<'a, T> {
    ghost use Rattle.sq_devices.specs.ConsoleClock.{is_live};

    /// Returns a clock for an input that is live or recorded. It starts at 0 if the system does not know the time since
    /// 1970.
    pub fn new(system: &'a T, live: bool) -> Self
        ensures { is_live result ≡ live }
    {
        let start = system.since_1970().unwrap_or(Duration::ZERO);
        let begun = system.monotonic().unwrap_or(Duration::ZERO);
        let start = millis(start);
        ConsoleClock {
            system,
            live,
            start,
            begun,
            latest: start,
        }
    }
}

impl<T: time::Clock> Clock for ConsoleClock<'_, T> {
    ghost use Rattle.std.specs.Prelude.{◌≡◌};
    ghost use Rattle.sq_devices.specs.ConsoleClock.{IsTold, is_live};

    ghost live = { λ clock. is_live clock };

    ghost Told = { IsTold };

    fn is_live(&self) -> bool {
        self.live
    }

    // If the system's clock cannot be read, the latest time is returned again.
    fn now(&mut self) -> u64 {
        if let Ok(now) = self.system.monotonic() {
            let since = millis(now.saturating_sub(self.begun));
            self.latest = self.start.saturating_add(since);
        }
        self.latest
    }
}

fn millis(time: Duration) -> u64 {
    u64::try_from(time.as_millis()).unwrap_or(u64::MAX)
}

/// Returns whether the standard input is received while it is read, because it is not a regular file.
pub fn is_input_live<T: Files>(files: &T) -> bool {
    match fs::metadata(files, "/dev/stdin") {
        Ok(input) => !input.is_file(),
        Err(_) => true,
    }
}
