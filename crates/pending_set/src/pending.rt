ghost use Rattle.std.specs.Prelude.{◌≡◌, ℕ, ◌<◌, ◌≤◌, ◌^◌, true, false, IfOk, IfSome, IfNone, length, slice_index, slice_index_or};
ghost use Rattle.pending_set.specs.Waiting.{none_waiting, with_waiting, after_next, next_waiting, waits_at, IsNextWaiting, NoneWaits};

use crate::order::{precedence, ranks};
use crate::tree::PlaceTree;
use rx_value::Memory;
use std::alloc::Global;
use std::marker::Model;

/// The numbers that wait. Contracts see the priority of each number, and whether it waits. A call
/// takes as many steps as the count of numbers has binary digits, however many wait; making a set
/// sorts them.
#[derive(Drop)]
pub struct Pending {
    /// What the order was made from. Only contracts read it.
    priorities: Vec<i64>,
    /// All numbers, each behind those that come before it.
    order: Vec<u32>,
    /// By number: its place in the order.
    ranks: Vec<u32>,
    /// By number: whether it waits.
    waits: Vec<bool>,
    /// By place of the order: whether the number there waits.
    places: PlaceTree,
}

impl Model for Pending {
    ghost use Rattle.pending_set.specs.Waiting.{Waiting};

    ghost Value = { Waiting };

    ghost use Rattle.pending_set.specs.Kept.{IsKept};

    ghost view = { λ a. record { priorities = a.priorities.items; waits = a.waits.items } };

    ghost invariant = { IsKept };
}

impl Pending {
    /// The empty set of the numbers below the count of priorities, by number. The count is one of 32
    /// bits, as each number is.
    pub fn new(alloc: Global, priorities: &[i64]) -> Result<Pending, Memory>
        requires { length priorities.now < 2 ^ 32 }
        ensures { IfOk result (λ p. p ≡ none_waiting priorities.now) }
    {
        let order = precedence(alloc, priorities)?;
        let ranks = ranks(alloc, order.as_slice())?;
        let waits = vec![in alloc; false; priorities.len()]?;
        let places = PlaceTree::new(alloc, priorities.len())?;
        let priorities = Vec::from_slice(alloc, priorities)?;
        Ok(Pending {
            priorities,
            order,
            ranks,
            waits,
            places,
        })
    }

    /// Makes a number wait, once, also where it waits already.
    pub fn add(&mut self, n: u32)
        requires { n < length self.old.priorities }
        ensures { self.new ≡ with_waiting true n self.old }
    {
        self.places.put(self.ranks[n as usize] as usize, true);
        self.waits[n as usize] = true;
    }

    /// Lets a number wait no longer, also where it does not wait.
    pub fn drop_node(&mut self, n: u32)
        requires { n < length self.old.priorities }
        ensures { self.new ≡ with_waiting false n self.old }
    {
        self.places.put(self.ranks[n as usize] as usize, false);
        self.waits[n as usize] = false;
    }

    /// Takes out the number of highest priority that waits, and of equal priority the least. There
    /// is none exactly where none waits.
    pub fn next(&mut self) -> Option<u32>
        ensures next { result ≡ next_waiting self.old }
        ensures some { IfSome result (λ n. IsNextWaiting self.old n) }
        ensures none { IfNone result (NoneWaits self.old) }
        ensures after { self.new ≡ after_next result self.old }
    {
        let Some(place) = self.places.first() else {
            return None;
        };
        let number = self.order[place];
        self.drop_node(number);
        Some(number)
    }
}
