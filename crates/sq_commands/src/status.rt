//! How a command ends.
ghost use Rattle.std.specs.Prelude.{◌≡◌};
ghost use Rattle.sq_commands.specs.Statuses.{exit_status as status_of};

/// How a command ends.
#[derive(Clone, Copy, Debug, PartialEq, Eq)]
pub enum Status {
    /// Success.
    Good,
    /// A line, a frame or a place was refused.
    Refused,
    /// A bad command line, or an invalid argument.
    Misused,
    /// A read, write or memory fault.
    Broken,
}

impl Status {
    /// Returns the exit status of the process: 0, 1, 2 or 3, in the order above.
    pub fn exit_status(self) -> u8
        ensures { result ≡ status_of self }
    {
        match self {
            Status::Good => 0,
            Status::Refused => 1,
            Status::Misused => 2,
            Status::Broken => 3,
        }
    }
}
