//! How a run ended.

ghost use Rattle.std.specs.Prelude.{◌≡◌};
ghost use Rattle.mm_main.specs.Codes.{code_of};

/// How a run ended.
#[derive(Clone, Copy, Debug, PartialEq, Eq)]
pub enum Status {
    /// It is done.
    Done,
    /// The words give no command.
    Usage,
    /// A line of the script is refused.
    ScriptRefused,
    /// The disk failed.
    DiskFault,
    /// The source failed.
    SourceFault,
    /// The sink failed.
    SinkFault,
    /// Memory ran out.
    NoMemory,
    /// A file is there that shouldn't be, or something is wrong in the data file.
    FilesRefused,
}

impl Status {
    /// The status of the process.
    pub fn code(&self) -> u8
        ensures { result ≡ code_of self.now }
    {
        match self {
            Status::Done => 0,
            Status::Usage => 2,
            Status::ScriptRefused => 3,
            Status::DiskFault => 4,
            Status::SourceFault => 5,
            Status::SinkFault => 6,
            Status::NoMemory => 7,
            Status::FilesRefused => 8,
        }
    }
}
