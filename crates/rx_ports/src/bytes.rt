ghost use Rattle.std.specs.Prelude.{◌≡◌, [], ◌∷◌, ◌++◌, ◌<◌, IfOk, OnOk, OnErr, length, slice_index};

use rx_value::Memory;
use std::alloc::Global;
use std::marker::Model;

/// A list of bytes, which need not be UTF-8. Contracts see it as the list.
#[derive(Debug, Drop)]
pub struct RxBytes {
    bytes: Vec<u8>,
}

impl Model for RxBytes {
    ghost use Rattle.std.specs.Prelude.{List, ℕ};

    ghost Value = { List ℕ };

    ghost view = { λ it. it.bytes.items };
}

impl RxBytes {
    /// The empty list, which takes no memory until something is pushed to it.
    pub fn new(alloc: Global) -> RxBytes
        ensures { result ≡ [] }
    {
        RxBytes {
            bytes: Vec::new(alloc),
        }
    }

    pub fn from_slice(alloc: Global, bytes: &[u8]) -> Result<RxBytes, Memory>
        ensures { IfOk result (λ list. list ≡ bytes.now) }
    {
        match Vec::from_slice(alloc, bytes) {
            Ok(bytes) => Ok(RxBytes { bytes }),
            Err(_) => Err(Memory),
        }
    }

    /// The count of bytes.
    pub fn len(&self) -> usize
        ensures { result ≡ length self.now }
    {
        self.bytes.len()
    }

    /// The byte at `place`, counted from 0.
    pub fn get(&self, place: usize) -> u8
        requires { place < length self.now }
        ensures { result ≡ slice_index self.now place }
    {
        self.bytes[place]
    }

    pub fn as_slice(&self) -> &[u8]
        ensures { result.now ≡ self.now }
    {
        self.bytes.as_slice()
    }

    /// Puts a byte at the end. Without memory the list stays as it was.
    pub fn push(&mut self, byte: u8) -> Result<(), Memory>
        ensures ok { OnOk result (self.new ≡ self.old ++ byte ∷ []) }
        ensures err { OnErr result (self.new ≡ self.old) }
    {
        match self.bytes.push(byte) {
            Ok(()) => Ok(()),
            Err(_) => Err(Memory),
        }
    }

    /// Puts bytes at the end, in their order. Without memory the list stays as it was.
    pub fn extend(&mut self, more: &[u8]) -> Result<(), Memory>
        ensures ok { OnOk result (self.new ≡ self.old ++ more.now) }
        ensures err { OnErr result (self.new ≡ self.old) }
    {
        match self.bytes.extend_from_slice(more) {
            Ok(()) => Ok(()),
            Err(_) => Err(Memory),
        }
    }
}
