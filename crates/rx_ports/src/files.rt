ghost use Rattle.std.specs.Prelude.{◌≡◌, ℕ, ◌≤◌, List, Option};
ghost use Rattle.rx_ports.specs.Files.{ReadGives, ReadFaults};
ghost use Rattle.rx_ports.specs.declared.files.NamedFile.{NamedFile};

use crate::bytes::RxBytes;
use rx_value::RxText;
use std::alloc::Global;

/// A file as contracts see it: its name and the whole of its bytes.
#[derive(Debug, Drop)]
pub struct NamedFile {
    pub name: RxText,
    pub content: RxBytes,
}

/// What a read of a file comes to.
#[derive(Debug, Drop)]
pub enum FileRead {
    /// The front of the file, up to one byte more than the limit: so a file that is too long shows.
    Found(RxBytes),
    /// There is no file of that name.
    Absent,
    /// There may be such a file, and it could not be read.
    Failed,
    /// There was no memory for what was read.
    Memory,
}

/// Files that are read by name.
pub trait Files {
    ghost told: { Self → Option (List NamedFile) };

    ghost faults: { Self → ℕ };

    /// Reads the front of a file, at most `limit + 1` bytes of it.
    fn read(&mut self, alloc: Global, name: &str, limit: usize) -> FileRead
        ensures stays { told self.new ≡ told self.old }
        ensures gives { ReadGives (told self.old) name.now limit result }
        ensures later { faults self.old ≤ faults self.new }
        ensures failed { ReadFaults (faults self.old) (faults self.new) result };

    /// The count of faults so far, which stops at the largest number.
    fn faults(&self) -> u64
        ensures { result ≡ faults self.now };
}
