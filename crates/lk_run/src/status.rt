//! How a run ends.

ghost use Rattle.std.specs.Prelude.{◌≡◌};
ghost use Rattle.std.specs.Process.{exit_status};
ghost use Rattle.lk_run.specs.Status.{code_of};

use std::process::ExitCode;

/// How a run ended, and what it wrote.
#[derive(Clone, Copy, Debug, PartialEq, Eq)]
pub enum Status {
    /// The command is done; what it tells is written: a report, a line, a path, what a map has, or an image.
    Done = 0,
    /// What the command speaks of is refused; the text of the fault is written.
    Refused = 1,
    /// The words are no command; the usage text is written.
    Usage = 2,
    /// The input is too long, is not JSON, describes no link, or is no map; a text says which.
    Unreadable = 3,
    /// The source failed; nothing is written.
    ReadFault = 4,
    /// The sink failed; a prefix of the answer is written.
    WriteFault = 5,
    /// Memory ran out; nothing is written.
    NoMemory = 6,
}

impl Status {
    /// The number that the program ends with.
    pub fn code(self) -> u8
        ensures { result ≡ code_of self }
    {
        self as u8
    }

    /// That number, as `main` gives it on.
    pub fn exit_code(self) -> ExitCode
        ensures { exit_status result ≡ code_of self }
    {
        ExitCode::from(self.code())
    }
}
