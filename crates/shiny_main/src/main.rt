//! `check FILE`, `print FILE` and `replay FILE`: an app file checked, printed in its canonical text,
//! or run on a transcript.
#![tactic(auto)]

mod commands;
mod ended;
mod line;
mod lines;
mod note;
mod pieces;
mod real;
mod replay;
mod session;
mod status;
#[cfg(test)]
mod tests;
mod top;
mod transcript;
mod words;

use crate::ended::Ended;
use crate::note::tell;
use crate::real::{Reading, RealFiles, Writing};
use crate::status::Status;
use crate::top::run_text;
use rx_value::Memory;
use std::env::Env;
use std::process::ExitCode;
use std::{env, io};

/// The words of the command line, without the program's name. Words that aren't text are no
/// command's: there are none then.
fn given_words(rt: &(impl Env + AllocGlobal)) -> Result<Vec<String>, Memory> {
    let mut words = Vec::new(rt.alloc());
    match env::args(rt) {
        Ok(args) => {
            for word in args.skip(1) {
                if words.push(word).is_err() {
                    return Err(Memory);
                }
            }
        }
        Err(error) => {
            if error.kind() == io::ErrorKind::OutOfMemory {
                return Err(Memory);
            }
        }
    }
    Ok(words)
}

fn run(rt: &HostRuntime, words: &[String]) -> Status {
    let mut files = RealFiles::new(rt);
    let mut input = Reading::new(rt.reader());
    let mut out = Writing::new(io::writer(rt));
    let mut note = Writing::new(rt.stderr());
    run_text(
        rt.alloc(),
        words,
        &mut files,
        &mut input,
        &mut out,
        &mut note,
    )
}

fn main(rt: HostRuntime) -> ExitCode {
    let status = match given_words(&rt) {
        Ok(words) => run(&rt, words.as_slice()),
        Err(Memory) => tell(
            rt.alloc(),
            "",
            &Ended::Memory,
            &mut Writing::new(rt.stderr()),
        ),
    };
    ExitCode::from(status.number())
}
