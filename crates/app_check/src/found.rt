//! The first of the checks that fail.

ghost use Rattle.std.specs.Prelude.{◌≡◌, IfOk};
ghost use Rattle.app_tree.specs.Faults.{refused, name_refused, where_fails, fault_order, precedes, earlier, first_with};
ghost use Rattle.app_check.specs.Load.{of_refusal};

use crate::error::LoadError;
use app_tree::{Fault, Name};
use rx_value::{Memory, RxText};
use std::alloc::Global;
use std::marker::Model;

/// A check that fails. It borrows the name that is refused, so that none is copied while a better
/// refusal may come.
#[derive(Drop)]
pub struct Found<'a> {
    place: usize,
    fault: Fault,
    name: &'a str,
}

impl<'a> Model for Found<'a> {
    ghost use Rattle.app_tree.specs.declared.refusal.Refusal.{Refusal};

    ghost Value = { Refusal };

    ghost view = { λ f. record { place = f.place; fault = f.fault; name = f.name.now } };
}

/// The place of a fault among those of one place.
fn fault_order(fault: Fault) -> u32
    ensures { result ≡ fault_order fault }
{
    match fault {
        Fault::TooManyItems => 0,
        Fault::NameTwice => 1,
        Fault::NameUnknown => 2,
        Fault::ArgCount => 3,
        Fault::ReadInTask => 4,
        Fault::ForwardRead => 5,
        Fault::IsolateInFold => 6,
        Fault::WriteInExpr => 7,
        Fault::FoldTooDeep => 8,
    }
}

impl<'a> Found<'a> {
    /// A check that fails at a place.
    pub fn at(fault: Fault, place: usize) -> Found<'a>
        ensures { result ≡ refused fault place }
    {
        Found {
            place,
            fault,
            name: "",
        }
    }

    /// A check of a name that fails.
    pub fn of(fault: Fault, name: &'a Name) -> Found<'a>
        ensures { result ≡ name_refused fault name.now }
    {
        Found {
            place: name.place,
            fault,
            name: name.text.as_str(),
        }
    }

    fn precedes(&self, other: &Found<'_>) -> bool
        ensures { result ≡ precedes self.now other.now }
    {
        self.place < other.place
            || self.place == other.place && fault_order(self.fault) < fault_order(other.fault)
    }

    /// The error that a file is refused with.
    pub fn error(&self, alloc: Global) -> Result<LoadError, Memory>
        ensures { IfOk result (λ error. error ≡ of_refusal self.now) }
    {
        let place = self.place;
        let name = RxText::from_str(alloc, self.name)?;
        Ok(match self.fault {
            Fault::TooManyItems => LoadError::TooManyItems(place),
            Fault::NameTwice => LoadError::NameTwice(name, place),
            Fault::NameUnknown => LoadError::NameUnknown(name, place),
            Fault::ArgCount => LoadError::ArgCount(name, place),
            Fault::ReadInTask => LoadError::ReadInTask(place),
            Fault::ForwardRead => LoadError::ForwardRead(name, place),
            Fault::IsolateInFold => LoadError::IsolateInFold(place),
            Fault::WriteInExpr => LoadError::WriteInExpr(place),
            Fault::FoldTooDeep => LoadError::FoldTooDeep(place),
        })
    }
}

fn earlier<'a>(best: Option<Found<'a>>, found: Found<'a>) -> Option<Found<'a>>
    ensures { result ≡ earlier best.entry found.entry }
{
    match best {
        None => Some(found),
        Some(best) => {
            if found.precedes(&best) {
                Some(found)
            } else {
                Some(best)
            }
        }
    }
}

/// The first of what was found before and of this check, where it fails.
pub fn where_fails<'a>(best: Option<Found<'a>>, fails: bool, found: Found<'a>) -> Option<Found<'a>>
    ensures { result ≡ first_with best.entry (where_fails fails found.entry) }
{
    if fails { earlier(best, found) } else { best }
}
