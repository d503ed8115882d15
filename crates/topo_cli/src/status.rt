//! How a run ended.

/// How a run ended; the exit status of the program is the place in this list, from 0.
#[derive(Clone, Copy, Debug, PartialEq, Eq)]
pub enum Status {
    /// All was done, and the script was read to its end.
    Done,
    /// The words are of no form.
    Usage,
    /// The tables are no map: the line names the first fault.
    TablesRefused,
    /// A built file is refused: the line names the first fault.
    FileRefused,
    /// A table or the script could not be read.
    ReadFault,
    /// The answers could not be written.
    WriteFault,
    /// An allocation failed.
    Memory,
    /// A needed table is not held: the line names it.
    Missing,
    /// A table or the script has more than 1,073,741,824 bytes.
    TooLong,
}

impl Status {
    ghost use Rattle.std.specs.Prelude.{◌≡◌};
    ghost use Rattle.topo_cli.specs.Exit.{exit_status};

    /// The exit status of the program.
    pub fn exit_status(self) -> u8
        ensures { result ≡ exit_status self }
    {
        self as u8
    }
}
