//! The lines of a transcript, read from a source one at a time.

ghost use Rattle.std.specs.Prelude.{◌≡◌, ◌≤◌, ◌+◌, length, IfOk};
ghost use Rattle.shiny_main.specs.inner.Lines.{at_start, IsOfSource, NextGives, TellGives, PastIsHere};
ghost use Rattle.shiny_main.specs.Ports.{CountsFaults};

use crate::line::{Line, spoken_line};
use crate::pieces::{Cut, Pieces};
use rx_ports::Source;
use rx_value::Memory;
use session_model::{LINE_LIMIT, TRANSCRIPT_LIMIT};
use std::alloc::Global;
use std::marker::Model;

/// The lines of a source, one at a time.
#[derive(Debug, Drop)]
pub struct Lines {
    pieces: Pieces,
    number: u64,
    behind: usize,
    ended: bool,
}

impl Model for Lines {
    ghost use Rattle.std.specs.Prelude.{suc, ◌≤◌};
    ghost use Rattle.shiny_main.specs.inner.Lines.{LinesState};
    ghost use Rattle.session_model.specs.declared.limits.TheConstants.{TRANSCRIPT_LIMIT};

    ghost Value = { LinesState };

    ghost view = { λ l. record { taken = l.pieces; number = l.number; behind = l.behind; ended = l.ended } };

    ghost invariant = { λ l. (l.number ≤ suc l.behind) × (l.behind ≤ TRANSCRIPT_LIMIT) };
}

/// The next line of a source.
#[derive(Debug, Drop)]
pub enum LineRead {
    /// What the line of this number says. Lines are numbered from 1.
    Line(u64, Line),
    /// The line of this number has no such form, or a byte past the most of a transcript.
    Bad(u64),
    /// There is no more line.
    End,
    /// The source failed.
    ReadFault,
    Memory,
}

impl Lines {
    /// Before line 1 of a source from which nothing was taken.
    pub fn new(alloc: Global) -> Result<Lines, Memory>
        ensures { IfOk result (λ lines. lines ≡ at_start) }
    {
        Ok(Lines {
            pieces: Pieces::new(alloc)?,
            number: 1,
            behind: 0,
            ended: false,
        })
    }

    /// The next line, of the source that it was always asked of. After any answer but `Line` no
    /// further call is of use.
    pub fn next<S: Source>(&mut self, alloc: Global, input: &mut S) -> LineRead
        requires { IsOfSource self.old (S.left input.old) }
        ensures gives { NextGives self.old self.new (S.left input.old) (S.left input.new) result }
        ensures faults { CountsFaults S.faults input.old input.new (result ≡ LineRead.ReadFault) }
    {
        if self.ended {
            return LineRead::End;
        }
        let most = LINE_LIMIT.min(TRANSCRIPT_LIMIT - self.behind);
        match self.pieces.next(alloc, input, most) {
            Cut::Line(line) => self.tell(alloc, line.as_slice(), 1),
            Cut::Last(line) => {
                self.ended = true;
                self.tell(alloc, line.as_slice(), 0)
            }
            Cut::TooLong => LineRead::Bad(self.number),
            Cut::End => LineRead::End,
            Cut::Failed => LineRead::ReadFault,
            Cut::Memory => LineRead::Memory,
        }
    }

    /// What the next line says, whose bytes so many line feeds end.
    fn tell(&mut self, alloc: Global, line: &[u8], feeds: usize) -> LineRead
        requires { 1 ≤ length line.now + feeds }
        ensures { TellGives line.now feeds self.old self.new result }
    {
        let room = TRANSCRIPT_LIMIT - self.behind;
        if line.len() > room || room - line.len() < feeds {
            return LineRead::Bad(self.number);
        }
        match spoken_line(alloc, line) {
            Ok(Some(said)) => {
                let number = self.number;
                self.number += 1;
                self.behind += line.len() + feeds;
                LineRead::Line(number, said)
            }
            Ok(None) => LineRead::Bad(self.number),
            Err(Memory) => LineRead::Memory,
        }
    }
}

/// Does nothing: it is there for its contract. A reader of lines, which counts the bytes behind it, comes to a byte
/// past the limit of a transcript in the line in which the whole transcript goes past it.
pub fn limit_laws()
    ensures { PastIsHere }
{}
