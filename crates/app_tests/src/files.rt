//! What an app file comes to at each stage, as a text, and tables of files.

use app_check::{LoadError, load};
use app_printer::print;
use app_reader::read;
use app_tokens::{Kind, TokenList, tokens};
use rx_value::Memory;
use std::alloc::Global;
use std::process::Abort;

/// How far a file is taken.
#[derive(Clone, Copy, Debug)]
pub enum Stage {
    /// Cut into tokens, which are told each with its place.
    Tokens,
    /// Read as a draft, of which it is told only that it is one.
    Draft,
    /// Checked as an app, of which it is told only that it is one.
    App,
    /// Printed as the app that it stands for.
    Canonical,
}

/// The tokens as a line, each with its place: words and symbols by their names, and a name, a number
/// and a text by its content.
fn line(alloc: Global, list: &TokenList<'_>) -> Result<String, Memory> {
    let mut line = String::new(alloc);
    for token in list.as_slice() {
        let shown = match &token.kind {
            Kind::Word(word) => format!(in alloc; "{word:?}")?,
            Kind::Name => format!(in alloc; "name {}", token.spelling.as_str())?,
            Kind::Number(number) => format!(in alloc; "{}", number.value())?,
            Kind::Text(text) => format!(in alloc; "text [{}]", text.as_str())?,
            Kind::Symbol(symbol) => format!(in alloc; "{symbol:?}")?,
        };
        let placed = format!(in alloc; "{} {shown}, ", token.place)?;
        line.push_str(placed.as_str())?;
    }
    let end = format!(in alloc; "{} end", list.end())?;
    line.push_str(end.as_str())?;
    Ok(line)
}

fn reply_to_tokens(alloc: Global, file: &[u8]) -> Result<String, Memory> {
    match tokens(alloc, file) {
        Ok(list) => line(alloc, &list),
        Err(error) => Ok(format!(in alloc; "{error:?}")?),
    }
}

fn reply_to_draft(alloc: Global, file: &[u8]) -> Result<String, Memory> {
    match tokens(alloc, file) {
        Ok(list) => match read(alloc, &list) {
            Ok(_) => Ok(String::from_str(alloc, "ok")?),
            Err(error) => Ok(format!(in alloc; "{error:?}")?),
        },
        Err(error) => Ok(format!(in alloc; "{error:?}")?),
    }
}

fn note_of(alloc: Global, error: LoadError) -> Result<String, Memory> {
    let note = error.note(alloc)?;
    Ok(String::from_str(alloc, note.as_str())?)
}

fn reply_to_app(alloc: Global, file: &[u8]) -> Result<String, Memory> {
    match load(alloc, file) {
        Ok(_) => Ok(String::from_str(alloc, "accepted")?),
        Err(error) => note_of(alloc, error),
    }
}

fn reply_to_canonical(alloc: Global, file: &[u8]) -> Result<String, Memory> {
    match load(alloc, file) {
        Ok(app) => {
            let text = print(alloc, &app)?;
            Ok(String::from_str(alloc, text.as_str())?)
        }
        Err(error) => note_of(alloc, error),
    }
}

/// What a file comes to at a stage: a refusal with its place, or else what the stage tells.
pub fn reply(alloc: Global, stage: Stage, file: &[u8]) -> Result<String, Memory> {
    match stage {
        Stage::Tokens => reply_to_tokens(alloc, file),
        Stage::Draft => reply_to_draft(alloc, file),
        Stage::App => reply_to_app(alloc, file),
        Stage::Canonical => reply_to_canonical(alloc, file),
    }
}

/// A file, and what it comes to.
pub type Case = (&'static [u8], &'static str);

pub fn compare(rt: &impl Abort, alloc: Global, stage: Stage, cases: &[Case]) -> Result<(), Memory> {
    for (file, want) in cases {
        let got = reply(alloc, stage, file)?;
        assert_eq!(rt; got.as_str(), *want, "{file:?}");
    }
    Ok(())
}

/// The parts of a file: its head, what is repeated, how often, the middle, what is repeated behind
/// it as often, and the tail; then what the file comes to.
pub type Repeated = (
    &'static str,
    &'static str,
    usize,
    &'static str,
    &'static str,
    &'static str,
    &'static str,
);

pub fn compare_repeated(
    rt: &impl Abort,
    alloc: Global,
    stage: Stage,
    cases: &[Repeated],
) -> Result<(), Memory> {
    for (head, piece, count, middle, behind, tail, want) in cases {
        let file = format!(in alloc;
            "{head}{}{middle}{}{tail}",
            piece.repeat(alloc, *count)?,
            behind.repeat(alloc, *count)?
        )?;
        let got = reply(alloc, stage, file.as_bytes())?;
        assert_eq!(rt; got.as_str(), *want, "{head}{piece} {count}");
    }
    Ok(())
}
