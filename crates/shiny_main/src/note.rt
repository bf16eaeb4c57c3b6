ghost use Rattle.std.specs.Prelude.{◌≡◌, ◌⊎◌, ◌++◌, IfOk, codes};
ghost use Rattle.shiny_main.specs.Ports.{HasFailed};
ghost use Rattle.shiny_main.specs.Notes.{note_on, line_head, line_text, IsNoted, Tells, TellsMade};

use crate::ended::Ended;
use crate::status::Status;
use rx_ports::{Put, Sink};
use rx_value::{Memory, RxText};
use std::alloc::Global;

const USAGE: &str =
    "usage: check FILE | print FILE | fresh FILE | replay FILE | gen SEED SIZE | serve FILE [options]\n";

const OUT_OF_MEMORY: &str = "out of memory\n";

/// A text with words before it and a line feed behind it.
fn line_with(alloc: Global, before: &str, text: &str) -> Result<RxText, Memory>
    ensures { IfOk result (λ line. line ≡ before.now ++ text.now ++ codes "\n") }
{
    let mut line = RxText::from_str(alloc, before)?;
    line.push_str(text)?;
    line.push_str("\n")?;
    Ok(line)
}

fn line_head(alloc: Global, number: u64) -> Result<RxText, Memory>
    ensures { IfOk result (λ head. head ≡ line_head number) }
{
    match format!(in alloc; "line {number}: ") {
        Ok(head) => RxText::from_str(alloc, head.as_str()),
        Err(_) => Err(Memory),
    }
}

/// What is told of a line of the transcript.
fn line_note(alloc: Global, number: u64, what: &str) -> Result<RxText, Memory>
    ensures { IfOk result (λ line. line ≡ line_text number what.now) }
{
    let mut line = line_head(alloc, number)?;
    line.push_str(what)?;
    line.push_str("\n")?;
    Ok(line)
}

/// The note of an end; nothing where none is written.
fn note_on(alloc: Global, file: &str, ended: &Ended) -> Result<RxText, Memory>
    ensures { IfOk result (λ text. text ≡ note_on file.now ended.now) }
{
    match ended {
        Ended::Done | Ended::WriteFault => Ok(RxText::new(alloc)),
        Ended::WrongWords => RxText::from_str(alloc, USAGE),
        Ended::AppRefused(why) => line_with(alloc, "app refused: ", why.as_str()),
        Ended::FileAbsent => line_with(alloc, "file absent: ", file),
        Ended::FileFault => line_with(alloc, "file fault: ", file),
        Ended::BadLine(number) => line_note(alloc, *number, "bad line"),
        Ended::NoSession(number) => line_note(alloc, *number, "no session"),
        Ended::ReadFault => RxText::from_str(alloc, "read fault\n"),
        Ended::Memory => RxText::from_str(alloc, OUT_OF_MEMORY),
    }
}

/// Writes the note of an end that has this status; where it can't be written, that is the status.
fn put_note<N: Sink>(text: &str, end: Status, note: &mut N) -> Status
    ensures gives { IsNoted text.now end (N.held note.old) (N.held note.new) result }
    ensures failed { result ≡ Status.WriteFault
        → (end ≡ Status.WriteFault) ⊎ HasFailed N.faults note.old note.new }
{
    match note.put(text.as_bytes()) {
        Put::Ok => end,
        Put::Failed => Status::WriteFault,
    }
}

fn put_made<N: Sink>(text: Result<RxText, Memory>, end: Status, note: &mut N) -> Status
    ensures gives { TellsMade text end (N.held note.old) (N.held note.new) result }
    ensures failed { result ≡ Status.WriteFault
        → (end ≡ Status.WriteFault) ⊎ HasFailed N.faults note.old note.new }
{
    match text {
        Ok(text) => put_note(text.as_str(), end, note),
        Err(Memory) => put_note(OUT_OF_MEMORY, Status::Memory, note),
    }
}

/// Writes the note of an end, and gives the status: that of the end, that the note couldn't be
/// written, or that there was no memory to make it.
pub fn tell<N: Sink>(alloc: Global, file: &str, ended: &Ended, note: &mut N) -> Status
    ensures gives { Tells file.now ended.now (N.held note.old) (N.held note.new) result }
    ensures failed { result ≡ Status.WriteFault
        → (ended.now ≡ Ended.WriteFault) ⊎ HasFailed N.faults note.old note.new }
{
    match ended {
        Ended::Done | Ended::WriteFault => ended.status(),
        Ended::WrongWords => put_note(USAGE, Status::WrongWords, note),
        Ended::ReadFault => put_note("read fault\n", Status::ReadFault, note),
        Ended::Memory => put_note(OUT_OF_MEMORY, Status::Memory, note),
        Ended::AppRefused(_)
        | Ended::FileAbsent
        | Ended::FileFault
        | Ended::BadLine(_)
        | Ended::NoSession(_) => put_made(note_on(alloc, file, ended), ended.status(), note),
    }
}
