//! How a run ends.
ghost use Rattle.std.specs.Prelude.{◌≡◌};
ghost use Rattle.flow_cli.specs.Outcome.{number_of};

/// How a run ended. Its number is the program's exit status.
#[derive(Clone, Copy, Debug, PartialEq, Eq)]
pub enum Status {
    /// The whole output was written.
    Done = 0,
    /// A file is missing, too large or refused for what it holds; its line was written.
    Refused = 1,
    /// The words ask for nothing that the program does; nothing was written.
    Usage = 2,
    /// A call on the folder failed; nothing was written.
    ReadFault = 3,
    /// A call on the sink failed; a part of the output was written.
    WriteFault = 4,
    /// Memory ran out; nothing was written.
    NoMemory = 5,
}

impl Status {
    /// The exit status, from 0 to 5.
    pub fn code(self) -> u8
        ensures { result ≡ number_of self }
    {
        self as u8
    }
}
