//! `Status`: how a run of the program ended. `run` answers it, and the program ends with its number.
ghost use Rattle.std.specs.Prelude.{◌≡◌};

/// How a run of the program ended.
#[derive(Clone, Copy, Debug, PartialEq, Eq)]
pub enum Status {
    /// All that the words ask for was done.
    Done,
    /// The words are no command line.
    Usage,
    /// A call of the source failed.
    SourceFault,
    /// A call of the disk failed.
    DiskFault,
    /// A call of the sink failed.
    SinkFault,
    /// The file isn't one of a store.
    NotAStore,
    /// Memory ran out before the script was asked for.
    NoMemory,
    /// The file to be formatted has bytes.
    NotEmpty,
    /// The script has too many bytes.
    TooLong,
}

impl Status {
    ghost use Rattle.rb_shell.specs.Statuses.{status_code, status_name};

    /// The number that the process ends with, 0 to 8.
    pub fn code(self) -> u8
        ensures { result ≡ status_code self }
    {
        self as u8
    }

    /// The name that is written to standard error.
    pub fn name(self) -> &'static str
        ensures { result.now ≡ status_name self }
    {
        match self {
            Status::Done => "Done",
            Status::Usage => "Usage",
            Status::SourceFault => "SourceFault",
            Status::DiskFault => "DiskFault",
            Status::SinkFault => "SinkFault",
            Status::NotAStore => "NotAStore",
            Status::NoMemory => "NoMemory",
            Status::NotEmpty => "NotEmpty",
            Status::TooLong => "TooLong",
        }
    }
}
