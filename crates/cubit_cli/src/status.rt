//! How a call of the program ends.
ghost use Rattle.std.specs.Prelude.{◌≡◌, Err};
ghost use Rattle.cubit_cli.specs.Status.{status_of, exit_code};

use crate::halt::Halt;

/// How a call of the program ends; the number is its exit status.
#[derive(Clone, Copy, Debug, PartialEq, Eq)]
pub enum Status {
    /// The whole text was written.
    Done = 0,
    /// The words are no command.
    Usage = 2,
    /// A file cannot be read.
    FileFault = 3,
    /// The output cannot be written.
    SinkFault = 4,
    /// A file has a fault.
    Refused = 5,
    /// Memory ran out.
    Memory = 8,
}

impl Status {
    /// The status of a call that stopped so.
    pub(crate) fn of(halt: &Halt<'_>) -> Status
        ensures { result ≡ status_of (Err halt.now) }
    {
        match halt {
            Halt::Usage => Status::Usage,
            Halt::FileFault(_) => Status::FileFault,
            Halt::Refused(_, _) => Status::Refused,
            Halt::SinkFault => Status::SinkFault,
            Halt::Memory => Status::Memory,
        }
    }

    /// The exit status of the process.
    pub fn code(self) -> u8
        ensures { result ≡ exit_code self }
    {
        self as u8
    }
}
