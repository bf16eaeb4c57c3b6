//! The bytes of a source, cut at line feeds.

ghost use Rattle.std.specs.Prelude.{◌≡◌, ◌==◌, ◌<◌, ◌≤◌, [], length, position, IfOk};
ghost use Rattle.shiny_main.specs.inner.Pieces.{is_feed, feed_place, Moves, Replaces, RefillGives, Grows, StepGives, last_line, CutGives, content};
ghost use Rattle.shiny_main.specs.Ports.{CountsFaults};
ghost use Rattle.std.specs.Io.KnownBytes.{prepend_known};
ghost use Rattle.session_model.specs.Lines.{HasNoFeed};

use rx_ports::{RxBytes, Source, Take};
use rx_value::Memory;
use std::alloc::Global;
use std::marker::Model;

/// The most bytes that are taken from the source at once.
const PIECE: usize = 4_096;

/// The bytes that were taken from a source and belong to no line yet.
#[derive(Debug, Drop)]
pub struct Pieces {
    piece: Vec<u8>,
    start: usize,
}

impl Model for Pieces {
    ghost use Rattle.std.specs.Prelude.{List, ℕ, ◌≤◌, drop, length};

    ghost Value = { List ℕ };

    ghost view = { λ p. drop p.start p.piece.items };

    ghost invariant = { λ p. p.start ≤ length p.piece.items };
}

/// What comes next.
#[derive(Debug, Drop)]
pub enum Cut {
    /// The bytes of a line, without the line feed that ends it.
    Line(RxBytes),
    /// The last bytes of all, which no line feed ends.
    Last(RxBytes),
    /// A line that is longer than was asked for. The source is in the midst of it.
    TooLong,
    /// No byte is left.
    End,
    /// The source failed.
    Failed,
    Memory,
}

/// What one step towards the end of a line came to.
#[derive(Clone, Copy, Debug, PartialEq, Eq)]
pub enum Step {
    /// The line has more bytes now.
    More,
    /// The line is whole.
    Found,
    /// There are no more bytes.
    End,
    Failed,
    Memory,
}

fn feed_at(bytes: &[u8]) -> Option<usize>
    ensures { result ≡ position is_feed bytes.now }
{
    bytes.iter().position(|byte| *byte == b'\n')
}

fn feed_place(bytes: &[u8]) -> usize
    ensures place { result ≡ feed_place bytes.now }
    ensures within { result ≤ length bytes.now }
{
    match feed_at(bytes) {
        Some(place) => place,
        None => bytes.len(),
    }
}

impl Pieces {
    /// Before the first byte of a source. The memory for a piece is taken here.
    pub fn new(alloc: Global) -> Result<Pieces, Memory>
        ensures { IfOk result (λ pieces. pieces ≡ []) }
    {
        Ok(Pieces {
            piece: Vec::with_capacity(alloc, PIECE)?,
            start: 0,
        })
    }

    fn move_line(&mut self, line: &mut RxBytes) -> Result<bool, Memory>
        ensures { IfOk result (λ found. Moves found self.old self.new line.old line.new) }
    {
        let bytes = &self.piece.as_slice()[self.start..];
        let place = feed_place(bytes);
        line.extend(&bytes[..place])?;
        if place < bytes.len() {
            self.start += place + 1;
            Ok(true)
        } else {
            self.start = self.piece.len();
            Ok(false)
        }
    }

    fn refill<S: Source>(&mut self, source: &mut S) -> Step
        requires { self.old ≡ [] }
        ensures gives { RefillGives (S.left source.old) self.new (S.left source.new) result }
        ensures faults { CountsFaults S.faults source.old source.new (result ≡ Step.Failed) }
    {
        let mut buffer = [0u8; PIECE];
        match source.take(&mut buffer) {
            Take::Bytes(count) => self.replace(&buffer[..count]),
            Take::End => Step::End,
            Take::Failed => Step::Failed,
        }
    }

    fn replace(&mut self, bytes: &[u8]) -> Step
        ensures more { result ≡ Step.More → self.new ≡ bytes.now }
        ensures answers { Replaces result }
    {
        self.piece.clear();
        self.start = 0;
        match self.piece.extend_from_slice(bytes) {
            Ok(()) => Step::More,
            Err(_) => Step::Memory,
        }
    }

    fn is_empty(&self) -> bool
        ensures { result ≡ (length self.now == 0) }
    {
        let bytes = &self.piece.as_slice()[self.start..];
        bytes.is_empty()
    }

    fn step<S: Source>(&mut self, source: &mut S, line: &mut RxBytes) -> Step
        requires { HasNoFeed line.old }
        ensures gives { StepGives (content line.old self.old (S.left source.old)) line.old line.new self.new
            (S.left source.new) result }
        ensures faults { CountsFaults S.faults source.old source.new (result ≡ Step.Failed) }
    {
        if !self.is_empty() {
            return self.grow(line);
        }
        match self.refill(source) {
            Step::More => self.grow(line),
            other => other,
        }
    }

    fn grow(&mut self, line: &mut RxBytes) -> Step
        requires some { 0 < length self.old }
        requires no_feed { HasNoFeed line.old }
        ensures { Grows line.old self.old line.new self.new result }
    {
        match self.move_line(line) {
            Ok(true) => Step::Found,
            Ok(false) => Step::More,
            Err(Memory) => Step::Memory,
        }
    }

    /// The next line, where it has at most so many bytes. After any answer but `Line` no further call
    /// is of use.
    pub fn next<S: Source>(&mut self, alloc: Global, source: &mut S, most: usize) -> Cut
        ensures gives { CutGives most (prepend_known self.old (S.left source.old)) self.new
            (S.left source.new) result }
        ensures faults { CountsFaults S.faults source.old source.new (result ≡ Cut.Failed) }
    {
        let mut line = RxBytes::new(alloc);
        'growing: while line.len() <= most {
            match self.step(source, &mut line) {
                Step::More => {}
                Step::Found => return Cut::Line(line),
                Step::End => return last_line(line),
                Step::Failed => return Cut::Failed,
                Step::Memory => return Cut::Memory,
            }
        }
        Cut::TooLong
    }
}

fn last_line(line: RxBytes) -> Cut
    ensures { result ≡ last_line line }
{
    if line.len() == 0 {
        Cut::End
    } else {
        Cut::Last(line)
    }
}
