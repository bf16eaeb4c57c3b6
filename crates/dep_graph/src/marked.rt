ghost use Rattle.std.specs.Prelude.{◌≡◌, [], ◌∷◌, ◌++◌, length, ◌<◌, ◌≤◌, IfOk, OnOk, OnErr, IsOk, slice_get, Some};

use rx_value::Memory;
use std::alloc::Global;
use std::marker::Model;

/// Reader numbers, with room reserved.
#[derive(Debug, Drop)]
pub struct Marked {
    readers: Vec<u32>,
}

impl Model for Marked {
    ghost use Rattle.std.specs.Prelude.{vec_capacity};
    ghost use Rattle.dep_graph.specs.MarkedReaders.{MarkedReaders};

    ghost Value = { MarkedReaders };

    ghost view = { λ m. record { list = m.readers.items; room = vec_capacity m.readers } };
}

impl Marked {
    /// An empty list with room for this many readers.
    pub fn new(alloc: Global, readers: u32) -> Result<Marked, Memory>
        ensures list { IfOk result (λ m. m.list ≡ []) }
        ensures room { IfOk result (λ m. m.room ≡ readers) }
    {
        Ok(Marked {
            readers: Vec::with_capacity(alloc, readers as usize)?,
        })
    }

    /// How many numbers are listed.
    pub fn len(&self) -> usize
        ensures { result ≡ length self.now.list }
    {
        self.readers.len()
    }

    /// The number at a place.
    pub fn get(&self, place: usize) -> u32
        requires { place < length self.now.list }
        ensures { slice_get self.now.list place ≡ Some result }
    {
        self.readers[place]
    }

    /// The numbers in their order.
    pub fn as_slice(&self) -> &[u32]
        ensures { result.now ≡ self.now.list }
    {
        self.readers.as_slice()
    }

    /// Empties the list. The room stays.
    pub fn clear(&mut self)
        ensures list { self.new.list ≡ [] }
        ensures room { self.old.room ≤ self.new.room }
    {
        self.readers.clear();
    }

    /// Puts a number at the end. Where there is room it takes no memory.
    pub fn push(&mut self, reader: u32) -> Result<(), Memory>
        ensures ok { OnOk result (self.new.list ≡ self.old.list ++ reader ∷ []) }
        ensures err { OnErr result (self.new.list ≡ self.old.list) }
        ensures room { self.old.room ≤ self.new.room }
        ensures ok_with_room { length self.old.list < self.old.room → IsOk result }
    {
        match self.readers.push(reader) {
            Ok(()) => Ok(()),
            Err(_) => Err(Memory),
        }
    }
}
