// What a call answers.
ghost use Rattle.std.specs.Prelude.{◌≡◌};
ghost use Rattle.pat_front.specs.exit_answers.Statuses.{status_code};

use crate::Verdict;

/// What a call of `pat` came to.
#[derive(Clone, Copy, Debug, PartialEq, Eq)]
pub enum Status {
    /// It did its work; a run is done.
    Ok,
    Refused(Verdict),
    /// The words are no command.
    Usage,
    ReadFault,
    WriteFault,
    NoMemory,
    /// The steps of a run are spent.
    Budget,
    /// A run has threads left, and none of them can go on.
    Waiting,
    /// A run is at its limit on messages, and only a send could go on.
    Full,
}

impl Status {
    /// The exit status.
    pub fn code(&self) -> u8
        ensures { result ≡ status_code self.now }
    {
        match self {
            Status::Ok => 0,
            Status::Refused(_) => 1,
            Status::Usage => 2,
            Status::ReadFault => 3,
            Status::WriteFault => 4,
            Status::NoMemory => 5,
            Status::Budget => 6,
            Status::Waiting => 7,
            Status::Full => 8,
        }
    }
}
