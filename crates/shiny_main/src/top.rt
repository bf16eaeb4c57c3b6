ghost use Rattle.std.specs.Prelude.{◌≡◌, ◌⊎◌};
ghost use Rattle.shiny_main.specs.Ports.{ports, HasFailed, CountsFaults};
ghost use Rattle.shiny_main.specs.Words.{words_of};
ghost use Rattle.shiny_main.specs.Notes.{file_of};
ghost use Rattle.shiny_main.specs.Top.{FileGives, WordsGive, RunGives, IsTaken, IsDoneOrMemory};

use crate::commands::run_app;
use crate::ended::Ended;
use crate::note::tell;
use crate::status::Status;
use crate::words::{Command, words_of};
use app_check::FILE_LIMIT;
use rx_ports::{FileRead, Files, Sink, Source};
use std::alloc::Global;

fn run_file<F: Files, S: Source, K: Sink>(
    alloc: Global,
    command: Command,
    file: &str,
    files: &mut F,
    input: &mut S,
    out: &mut K,
) -> Ended
    ensures gives { FileGives command file.now (F.told files.old)
        (ports S.left K.held input.old input.new out.old out.new) result }
    ensures files { F.told files.new ≡ F.told files.old }
    ensures file { CountsFaults F.faults files.old files.new (result ≡ Ended.FileFault) }
    ensures read { CountsFaults S.faults input.old input.new (result ≡ Ended.ReadFault) }
    ensures write { CountsFaults K.faults out.old out.new (result ≡ Ended.WriteFault) }
{
    match files.read(alloc, file, FILE_LIMIT) {
        FileRead::Found(bytes) => run_app(alloc, command, bytes.as_slice(), input, out),
        FileRead::Absent => Ended::FileAbsent,
        FileRead::Failed => Ended::FileFault,
        FileRead::Memory => Ended::Memory,
    }
}

fn run_words<F: Files, S: Source, K: Sink>(
    alloc: Global,
    words: &[String],
    files: &mut F,
    input: &mut S,
    out: &mut K,
) -> Ended
    ensures gives { WordsGive (words_of words.now) (F.told files.old)
        (ports S.left K.held input.old input.new out.old out.new) result }
    ensures files { F.told files.new ≡ F.told files.old }
    ensures file { CountsFaults F.faults files.old files.new (result ≡ Ended.FileFault) }
    ensures read { CountsFaults S.faults input.old input.new (result ≡ Ended.ReadFault) }
    ensures write { CountsFaults K.faults out.old out.new (result ≡ Ended.WriteFault) }
{
    match words_of(words) {
        Some(words) => run_file(alloc, words.command, words.file, files, input, out),
        None => Ended::WrongWords,
    }
}

/// The file that the words name; nothing where they are no command's.
fn file_of(words: &[String]) -> &str
    ensures { result.now ≡ file_of (words_of words.now) }
{
    match words_of(words) {
        Some(words) => words.file,
        None => "",
    }
}

fn run_and_tell<F: Files, S: Source, K: Sink, N: Sink>(
    alloc: Global,
    words: &[String],
    files: &mut F,
    input: &mut S,
    out: &mut K,
    note: &mut N,
) -> Status
    ensures gives { RunGives words.now (F.told files.old)
        (ports S.left K.held input.old input.new out.old out.new)
        (N.held note.old) (N.held note.new) result }
    ensures files { F.told files.new ≡ F.told files.old }
    ensures file { CountsFaults F.faults files.old files.new (result ≡ Status.FileFault) }
    ensures read { CountsFaults S.faults input.old input.new (result ≡ Status.ReadFault) }
    ensures write { result ≡ Status.WriteFault
        → HasFailed K.faults out.old out.new ⊎ HasFailed N.faults note.old note.new }
{
    let ended = run_words(alloc, words, files, input, out);
    tell(alloc, file_of(words), &ended, note)
}

/// All that the program does: takes the words of the command line without the program's name, and
/// the files, the input, the output and the note that it is handed.
///
/// `check FILE` says how many items the app in FILE has, `print FILE` writes its canonical text, and
/// `replay FILE` replays the transcript on the input with it. Where it can't be done the note tells
/// why, in one line.
pub fn run_text<F: Files, S: Source, K: Sink, N: Sink>(
    alloc: Global,
    words: &[String],
    files: &mut F,
    input: &mut S,
    out: &mut K,
    note: &mut N,
) -> Status
    ensures gives { RunGives words.now (F.told files.old)
        (ports S.left K.held input.old input.new out.old out.new)
        (N.held note.old) (N.held note.new) result }
    ensures files { F.told files.new ≡ F.told files.old }
    ensures file { CountsFaults F.faults files.old files.new (result ≡ Status.FileFault) }
    ensures read { CountsFaults S.faults input.old input.new (result ≡ Status.ReadFault) }
    ensures write { result ≡ Status.WriteFault
        → HasFailed K.faults out.old out.new ⊎ HasFailed N.faults note.old note.new }
    ensures complete { IsTaken words.now (F.told files.old) (S.left input.old)
        → ¬ HasFailed F.faults files.old files.new → ¬ HasFailed S.faults input.old input.new
        → ¬ HasFailed K.faults out.old out.new → ¬ HasFailed N.faults note.old note.new
        → IsDoneOrMemory result }
{
    run_and_tell(alloc, words, files, input, out, note)
}
