ghost use Rattle.std.specs.Prelude.{◌≡◌, ◌↔◌, [], ◌++◌, ◌<◌, IfOk, OnOk, OnErr, IsTrue, length, bytes_eq, slice_index, encode_utf8};

use crate::memory::Memory;
use std::alloc::Global;
use std::marker::Model;

/// A text, which contracts see as the list of its bytes. The bytes are always UTF-8.
#[derive(Debug, Drop)]
pub struct RxText {
    text: String,
}

impl Model for RxText {
    ghost use Rattle.std.specs.Prelude.{List, ℕ, string_bytes};

    ghost Value = { List ℕ };

    ghost view = { λ t. string_bytes t.text };
}

impl RxText {
    /// The empty text, which takes no memory until something is pushed to it.
    pub fn new(alloc: Global) -> RxText
        ensures { result ≡ [] }
    {
        RxText {
            text: String::new(alloc),
        }
    }

    pub fn from_str(alloc: Global, text: &str) -> Result<RxText, Memory>
        ensures { IfOk result (λ t. t ≡ text.now) }
    {
        match String::from_str(alloc, text) {
            Ok(text) => Ok(RxText { text }),
            Err(_) => Err(Memory),
        }
    }

    pub fn as_str(&self) -> &str
        ensures { result.now ≡ self.now }
    {
        self.text.as_str()
    }

    /// The length in bytes.
    pub fn len(&self) -> usize
        ensures { result ≡ length self.now }
    {
        self.text.len()
    }

    /// The byte at `place`, counted from 0.
    pub fn get(&self, place: usize) -> u8
        requires { place < length self.now }
        ensures { result ≡ slice_index self.now place }
    {
        self.text.as_bytes()[place]
    }

    /// Puts a character at the end. Without memory the text stays as it was.
    pub fn push(&mut self, character: char) -> Result<(), Memory>
        ensures ok { OnOk result (self.new ≡ self.old ++ encode_utf8 character) }
        ensures err { OnErr result (self.new ≡ self.old) }
    {
        match self.text.push(character) {
            Ok(()) => Ok(()),
            Err(_) => Err(Memory),
        }
    }

    /// Puts a text at the end. Without memory the text stays as it was.
    pub fn push_str(&mut self, more: &str) -> Result<(), Memory>
        ensures ok { OnOk result (self.new ≡ self.old ++ more.now) }
        ensures err { OnErr result (self.new ≡ self.old) }
    {
        match self.text.push_str(more) {
            Ok(()) => Ok(()),
            Err(_) => Err(Memory),
        }
    }

    /// An equal text.
    pub fn copy(&self, alloc: Global) -> Result<RxText, Memory>
        ensures { IfOk result (λ t. t ≡ self.now) }
    {
        RxText::from_str(alloc, self.as_str())
    }

    /// Whether both have the same bytes.
    #[tactic(auto, using(crate::proofs::Sameness::same_texts))]
    pub fn same(&self, other: &RxText) -> bool
        ensures test { result ≡ bytes_eq self.now other.now }
        ensures equal { IsTrue result ↔ (self.now ≡ other.now) }
    {
        self.as_str() == other.as_str()
    }
}
