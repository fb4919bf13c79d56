ghost use Rattle.std.specs.Prelude.{◌≡◌};

/// How a command ended; `code` is the exit status.
#[derive(Clone, Copy, Debug, PartialEq, Eq)]
pub enum Status {
    /// The command did what it says.
    Done,
    /// The pool has a fault, or a value is refused.
    Refused,
    /// The words are faulty.
    Usage,
    /// A name could not be read.
    ReadFault,
    /// A name could not be written, or a line not be printed.
    WriteFault,
    /// There was no memory.
    NoMemory,
    /// The script has a bad line.
    BadScript,
}

impl Status {
    ghost use Rattle.pm_commands.specs.Statuses.{code};

    /// The exit status, 0 to 6.
    pub fn code(self) -> u8
        ensures { result ≡ code self }
    {
        match self {
            Status::Done => 0,
            Status::Refused => 1,
            Status::Usage => 2,
            Status::ReadFault => 3,
            Status::WriteFault => 4,
            Status::NoMemory => 5,
            Status::BadScript => 6,
        }
    }
}
