ghost use Rattle.std.specs.Prelude.{◌≡◌};
ghost use Rattle.shiny_main.specs.Ends.{status_of, ended_by};

use crate::status::Status;
use crate::transcript::Replayed;
use rx_value::RxText;

/// How the program's work ended, with all that its note tells.
#[derive(Debug, Drop)]
pub enum Ended {
    /// The command was done.
    Done,
    /// The words are none of the commands.
    WrongWords,
    /// The app file is refused, for this reason.
    AppRefused(RxText),
    /// There is no such file.
    FileAbsent,
    /// The file could not be read.
    FileFault,
    /// This line of the transcript, counted from 1, has not the form that is taken.
    BadLine(u64),
    /// This line of the transcript is for a session that is over.
    NoSession(u64),
    /// The input could not be read.
    ReadFault,
    /// The output could not be written.
    WriteFault,
    Memory,
}

impl Ended {
    pub fn status(&self) -> Status
        ensures { result ≡ status_of self.now }
    {
        match self {
            Ended::Done => Status::Done,
            Ended::WrongWords => Status::WrongWords,
            Ended::AppRefused(_) => Status::AppRefused,
            Ended::FileAbsent => Status::FileAbsent,
            Ended::FileFault => Status::FileFault,
            Ended::BadLine(_) | Ended::NoSession(_) => Status::LineRefused,
            Ended::ReadFault => Status::ReadFault,
            Ended::WriteFault => Status::WriteFault,
            Ended::Memory => Status::Memory,
        }
    }
}

/// How the program ends where a replay ended so.
pub fn ended_by(replayed: Replayed) -> Ended
    ensures { result ≡ ended_by replayed }
{
    match replayed {
        Replayed::Done => Ended::Done,
        Replayed::BadLine(number) => Ended::BadLine(number),
        Replayed::NoSession(number) => Ended::NoSession(number),
        Replayed::ReadFault => Ended::ReadFault,
        Replayed::WriteFault => Ended::WriteFault,
        Replayed::Memory => Ended::Memory,
    }
}
