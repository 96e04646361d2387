//! How a call ended.
ghost use Rattle.std.specs.Prelude.{◌≡◌};
ghost use Rattle.rdm_top.specs.Exits.{exit_code, has_line};

use rdm_script::BadScript;
use std::fmt;

/// How a call ended.
#[derive(Clone, Copy, Debug, PartialEq, Eq)]
pub enum Status {
    /// Every program ended.
    Done,
    /// Some program has instructions left, and no step is possible.
    Stuck,
    /// The words are no command.
    Usage,
    BadScript(BadScript),
    ReadFault,
    WriteFault,
    Memory,
}

impl Status {
    /// The exit status of the program.
    pub fn exit_code(self) -> u8
        ensures { result ≡ exit_code self }
    {
        match self {
            Status::Done => 0,
            Status::Stuck => 1,
            Status::Usage => 2,
            Status::BadScript(_) => 3,
            Status::ReadFault => 4,
            Status::WriteFault => 5,
            Status::Memory => 6,
        }
    }

    /// The program prints a line. At Done and Stuck the report says by itself how its job ended.
    pub fn has_line(self) -> bool
        ensures { result ≡ has_line self }
    {
        !matches!(self, Status::Done | Status::Stuck)
    }
}

impl fmt::Display for Status {
    ghost use Rattle.std.specs.Prelude.{Some};
    ghost use Rattle.rdm_top.specs.Exits.{status_text};

    ghost output = { λ status. Some (status_text status) };

    fn fmt<W: fmt::Write>(&self, f: &mut fmt::Formatter<W>) -> fmt::Result {
        match self {
            Status::Done => write!(f, "done"),
            Status::Stuck => write!(f, "stuck"),
            Status::Usage => write!(f, "usage: rdm replay"),
            Status::BadScript(bad) => write!(f, "bad script: {bad}"),
            Status::ReadFault => write!(f, "read fault"),
            Status::WriteFault => write!(f, "write fault"),
            Status::Memory => write!(f, "out of memory"),
        }
    }
}
