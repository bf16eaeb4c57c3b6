//! The real files, standard input and standard output, as the program's ports. They tell no
//! contents, and count their faults.

ghost use Rattle.std.specs.Prelude.{◌≡◌, ◌≤◌, None};
ghost use Rattle.shiny_main.specs.inner.Fronts.{IsWithin};
ghost use Rattle.rx_ports.specs.Faults.{one_more};

use rx_ports::{FileRead, Files, Put, RxBytes, Sink, Source, Take};
use std::alloc::Global;
use std::io::{ErrorKind, Read, Write};
use std::{fs, io, rt};

/// The most bytes that are read at once.
const PIECE: usize = 4_096;

/// The files of the system.
#[derive(Drop)]
pub struct RealFiles<'a, R> {
    runtime: &'a R,
    faults: u64,
}

impl<'a, R: rt::Files> RealFiles<'a, R> {
    pub fn new(runtime: &'a R) -> RealFiles<'a, R>
        ensures { ⟦<RealFiles<'a, R> as Files>⟧.faults result ≡ 0 }
    {
        RealFiles { runtime, faults: 0 }
    }

    fn failed(&mut self) -> FileRead
        ensures answer { result ≡ FileRead.Failed }
        ensures counted { self.new.faults ≡ one_more self.old.faults }
        ensures later { self.old.faults ≤ self.new.faults }
    {
        self.faults = self.faults.saturating_add(1);
        FileRead::Failed
    }
}

/// What the reading of an open file comes to.
#[derive(Drop)]
enum Front {
    Read(RxBytes),
    Failed,
    Memory,
}

/// The first bytes of a file, so many at most.
fn read_front<F: Read>(alloc: Global, file: &mut F, most: usize) -> Front
    ensures { IsWithin most result }
{
    let mut bytes = RxBytes::new(alloc);
    let mut buffer = [0u8; PIECE];
    'reading: while bytes.len() < most {
        let room = PIECE.min(most - bytes.len());
        match file.read(&mut buffer[..room]) {
            Ok(0) => return Front::Read(bytes),
            Ok(count) => {
                if bytes.extend(&buffer[..count]).is_err() {
                    return Front::Memory;
                }
            }
            Err(_) => return Front::Failed,
        }
    }
    Front::Read(bytes)
}

impl<'a, R: rt::Files> Files for RealFiles<'a, R> {
    ghost told = { λ f. None };

    ghost faults = { λ f. f.faults };

    fn read(&mut self, alloc: Global, name: &str, limit: usize) -> FileRead {
        let mut file = match fs::open(self.runtime, name) {
            Ok(file) => file,
            Err(error) if error.kind() == ErrorKind::NotFound => return FileRead::Absent,
            Err(_) => return self.failed(),
        };
        match read_front(alloc, &mut file, limit.saturating_add(1)) {
            Front::Read(bytes) => FileRead::Found(bytes),
            Front::Failed => self.failed(),
            Front::Memory => FileRead::Memory,
        }
    }

    fn faults(&self) -> u64 {
        self.faults
    }
}

/// A reader as a source.
#[derive(Drop)]
pub struct Reading<R> {
    reader: R,
    faults: u64,
}

impl<R: Read> Reading<R> {
    pub fn new(reader: R) -> Reading<R>
        ensures { ⟦<Reading<R> as Source>⟧.faults result ≡ 0 }
    {
        Reading { reader, faults: 0 }
    }
}

impl<R: Read> Source for Reading<R> {
    ghost left = { λ s. None };

    ghost faults = { λ s. s.faults };

    fn take(&mut self, buf: &mut [u8]) -> Take {
        match self.reader.read(buf) {
            Ok(0) => Take::End,
            Ok(count) => Take::Bytes(count),
            Err(_) => {
                self.faults = self.faults.saturating_add(1);
                Take::Failed
            }
        }
    }

    fn faults(&self) -> u64 {
        self.faults
    }
}

/// A writer as a sink.
#[derive(Drop)]
pub struct Writing<W> {
    writer: W,
    faults: u64,
}

impl<W: Write> Writing<W> {
    pub fn new(writer: W) -> Writing<W>
        ensures { ⟦<Writing<W> as Sink>⟧.faults result ≡ 0 }
    {
        Writing { writer, faults: 0 }
    }
}

impl<W: Write> Sink for Writing<W> {
    ghost held = { λ s. None };

    ghost faults = { λ s. s.faults };

    fn put(&mut self, bytes: &[u8]) -> Put {
        match write_through(&mut self.writer, bytes) {
            Ok(()) => Put::Ok,
            Err(_) => {
                self.faults = self.faults.saturating_add(1);
                Put::Failed
            }
        }
    }

    fn faults(&self) -> u64 {
        self.faults
    }
}

/// Writes all the bytes through to the reader's end.
fn write_through<W: Write>(writer: &mut W, bytes: &[u8]) -> io::Result<()> {
    writer.write_all(bytes)?;
    writer.flush()
}
