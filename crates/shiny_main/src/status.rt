ghost use Rattle.std.specs.Prelude.{◌≡◌};
ghost use Rattle.shiny_main.specs.Statuses.{status_number};

/// How the program ends.
#[derive(Clone, Copy, Debug, PartialEq, Eq)]
pub enum Status {
    /// The command was done.
    Done,
    /// The words are none of the commands.
    WrongWords,
    /// The app file is refused.
    AppRefused,
    /// There is no such file.
    FileAbsent,
    /// The file could not be read.
    FileFault,
    /// A line of the transcript is refused.
    LineRefused,
    /// The input could not be read.
    ReadFault,
    /// The output could not be written.
    WriteFault,
    Memory,
}

impl Status {
    /// The exit status of the process.
    pub fn number(self) -> u8
        ensures { result ≡ status_number self }
    {
        match self {
            Status::Done => 0,
            Status::WrongWords => 2,
            Status::AppRefused => 3,
            Status::FileAbsent => 4,
            Status::FileFault => 5,
            Status::LineRefused => 6,
            Status::ReadFault => 7,
            Status::WriteFault => 8,
            Status::Memory => 9,
        }
    }
}
