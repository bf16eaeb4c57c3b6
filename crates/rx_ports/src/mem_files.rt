ghost use Rattle.std.specs.Prelude.{◌≡◌, ℕ, ◌≤◌, ◌+◌, [], ◌++◌, find, position, take, bytes_eq, OnOk, OnErr, Some, option_copied};
ghost use Rattle.rx_ports.specs.Faults.{no_faults, with_failing, next_fails};
ghost use Rattle.rx_ports.specs.Files.{ReadGives, ReadFaults};
ghost use Rattle.rx_ports.specs.MemoryForms.{with_file, is_failed_read, after_read};

use crate::bytes::RxBytes;
use crate::fault_plan::FaultPlan;
use crate::files::{FileRead, Files, NamedFile};
use rx_value::{Memory, RxList, RxText};
use std::alloc::Global;
use std::marker::Model;

/// Files that live in memory.
#[derive(Debug, Drop)]
pub struct MemFiles {
    files: RxList<NamedFile>,
    plan: FaultPlan,
}

impl Model for MemFiles {
    ghost use Rattle.rx_ports.specs.MemoryForms.{FilesState};

    ghost Value = { FilesState };

    ghost view = { λ m. record { files = m.files; plan = m.plan } };
}

fn find_file<'a>(files: &'a [NamedFile], name: &str) -> Option<&'a NamedFile>
    ensures { option_copied result ≡ find (λ file. bytes_eq file.name name.now) files.now }
{
    files.iter().find(|file| file.name.as_str() == name)
}

fn place_of(files: &[NamedFile], name: &str) -> Option<usize>
    ensures { result ≡ position (λ file. bytes_eq file.name name.now) files.now }
{
    files.iter().position(|file| file.name.as_str() == name)
}

/// The bytes up to one more than the limit.
fn front(bytes: &[u8], limit: usize) -> &[u8]
    ensures { result.now ≡ take (limit + 1) bytes.now }
{
    if bytes.len() <= limit {
        bytes
    } else {
        &bytes[..limit + 1]
    }
}

/// Puts a file in the place of the one of its name, or behind all. Without memory the files stay.
fn put_file(files: &mut RxList<NamedFile>, file: NamedFile) -> Result<(), Memory>
    ensures ok { OnOk result (files.new ≡ with_file files.old file) }
    ensures err { OnErr result (files.new ≡ files.old) }
{
    match place_of(files.as_slice(), file.name.as_str()) {
        Some(place) => {
            files.set(place, file);
            Ok(())
        }
        None => files.push(file),
    }
}

impl MemFiles {
    /// No files, which takes no memory until one is added.
    pub fn new(alloc: Global) -> MemFiles
        ensures { result ≡ record { files = []; plan = no_faults } }
    {
        MemFiles {
            files: RxList::new(alloc),
            plan: FaultPlan::new(),
        }
    }

    /// Adds a file, in the place of the one of that name if there is one. Without memory all stays.
    pub fn add(&mut self, alloc: Global, name: &str, bytes: &[u8]) -> Result<(), Memory>
        ensures ok { OnOk result
            (self.new ≡ record self.old {
              files = with_file self.old.files (record { name = name.now; content = bytes.now });
            }) }
        ensures err { OnErr result (self.new ≡ self.old) }
    {
        let file = NamedFile {
            name: RxText::from_str(alloc, name)?,
            content: RxBytes::from_slice(alloc, bytes)?,
        };
        put_file(&mut self.files, file)
    }

    /// Makes the calls of `read` with these numbers fail, counted from 1 and over the whole life of
    /// the object, besides those named before. Without memory all stays.
    pub fn fail_read(&mut self, alloc: Global, calls: &[u64]) -> Result<(), Memory>
        ensures ok { OnOk result (self.new ≡ record self.old { plan = with_failing calls.now self.old.plan }) }
        ensures err { OnErr result (self.new ≡ self.old) }
    {
        self.plan.fail(alloc, calls)
    }
}

impl Files for MemFiles {
    ghost told = { λ m. Some m.files };

    ghost faults = { λ m. m.plan.faults };

    fn read(&mut self, alloc: Global, name: &str, limit: usize) -> FileRead
        ensures stays { self.new.files ≡ self.old.files }
        ensures gives { ReadGives (Some self.old.files) name.now limit result }
        ensures later { self.old.plan.faults ≤ self.new.plan.faults }
        ensures failed { ReadFaults self.old.plan.faults self.new.plan.faults result }
        ensures planned { is_failed_read result ≡ next_fails self.old.plan }
        ensures after { self.new ≡ after_read self.old }
    {
        let fails = self.plan.next_fails();
        self.plan.count_call(fails);
        if fails {
            return FileRead::Failed;
        }
        let Some(file) = find_file(self.files.as_slice(), name) else {
            return FileRead::Absent;
        };
        let Ok(bytes) = RxBytes::from_slice(alloc, front(file.content.as_slice(), limit)) else {
            return FileRead::Memory;
        };
        FileRead::Found(bytes)
    }

    fn faults(&self) -> u64 {
        self.plan.faults()
    }
}
