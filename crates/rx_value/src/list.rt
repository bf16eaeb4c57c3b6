ghost use Rattle.std.specs.Prelude.{◌≡◌, [], ◌∷◌, ◌++◌, ◌<◌, IfOk, OnOk, OnErr, length, Some, slice_get, slice_set};

use crate::memory::Memory;
use crate::value::Value;
use std::alloc::Global;
use std::marker::Model;

/// A list, which contracts see as the list of its elements, so that a copy equals what it copies.
#[derive(Debug, Drop)]
pub struct RxList<T> {
    elements: Vec<T>,
}

/// A list of whole numbers.
pub type RxInts = RxList<i64>;

/// A list of values.
pub type Values = RxList<Value>;

impl<T> Model for RxList<T> {
    ghost use Rattle.std.specs.Prelude.{List};
    ghost use Rattle.std.specs.Coded.{coded_list};

    ghost Value = { List T };

    ghost coded = { coded_list T.code };

    ghost view = { λ it. it.elements.items };
}

impl<T> RxList<T> {
    /// The empty list, which takes no memory until something is pushed to it.
    pub fn new(alloc: Global) -> RxList<T>
        ensures { result ≡ [] }
    {
        RxList {
            elements: Vec::new(alloc),
        }
    }

    /// The count of elements.
    pub fn len(&self) -> usize
        ensures { result ≡ length self.now }
    {
        self.elements.len()
    }

    /// The element at `place`, counted from 0.
    pub fn get(&self, place: usize) -> &T
        requires { place < length self.now }
        ensures { slice_get self.now place ≡ Some result.now }
    {
        &self.elements[place]
    }

    pub fn as_slice(&self) -> &[T]
        ensures { result.now ≡ self.now }
    {
        self.elements.as_slice()
    }
}

impl<T: Drop> RxList<T> {
    /// Puts an element at the end. Without memory the list stays as it was, and the element is lost.
    pub fn push(&mut self, element: T) -> Result<(), Memory>
        ensures ok { OnOk result (self.new ≡ self.old ++ element ∷ []) }
        ensures err { OnErr result (self.new ≡ self.old) }
    {
        match self.elements.push(element) {
            Ok(()) => Ok(()),
            Err(_) => Err(Memory),
        }
    }

    /// Puts an element in the place of the one at `place`, counted from 0.
    pub fn set(&mut self, place: usize, element: T)
        requires { place < length self.old }
        ensures { self.new ≡ slice_set self.old place element }
    {
        self.elements[place] = element;
    }
}

impl<T: Copy> RxList<T> {
    /// An equal list.
    pub fn copy(&self, alloc: Global) -> Result<RxList<T>, Memory>
        ensures { IfOk result (λ list. list ≡ self.now) }
    {
        match Vec::from_slice(alloc, self.elements.as_slice()) {
            Ok(elements) => Ok(RxList { elements }),
            Err(_) => Err(Memory),
        }
    }
}

impl RxList<Value> {
    /// An equal list of values.
    pub fn copy_values(&self, alloc: Global) -> Result<Values, Memory>
        ensures { IfOk result (λ list. list ≡ self.now) }
    {
        let mut copied = Values::new(alloc);
        for value in self.as_slice() {
            copied.push(value.copy(alloc)?)?;
        }
        Ok(copied)
    }
}
