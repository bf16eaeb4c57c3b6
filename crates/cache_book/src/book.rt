ghost use Rattle.std.specs.Prelude.{◌≡◌, ◌<◌, ◌≤◌, ◌+◌, ◌++◌, ◌∷◌, [], true, length, take, Some, None, IfOk, OnOk, OnErr, IsTrue, ◌↔◌};
ghost use Rattle.std.specs.Map.{lookup};
ghost use Rattle.rx_value.specs.Value.{key_eq};
ghost use Rattle.rx_value.specs.Weight.{entry_weight};
ghost use Rattle.cache_book.specs.Machine.{CacheState, CacheCall, claims, fills, abandons, abandoned, empty_cache, owner_in_flight, cache_after, IsAllowed, are_within, without_last};
ghost use Rattle.cache_book.specs.Answers.{AnswersCall, IsSound, AreInRange, IsLeastFit, Stores, reply_of_claim, reply_of_fill};

use crate::answer::{BookClaim, Filled};
use crate::limits::{BYTE_LIMIT, CacheLimits, ENTRY_LIMIT};
use crate::shelf::Shelf;
use indexmap::IndexMap;
use rx_value::{Key, Memory, Outcome};
use std::alloc::Global;
use std::marker::Model;

/// A cache of outcomes, which contracts see as the state of the cache machine.
#[derive(Debug, Drop)]
pub struct Book {
    limits: CacheLimits,
    shelf: Shelf,
    in_flight: IndexMap<Key, u64>,
}

impl Model for Book {
    ghost use Rattle.std.specs.Prelude.{◌≡◌, true};
    ghost use Rattle.cache_book.specs.Machine.{CacheState, are_within};
    ghost use Rattle.cache_book.specs.Answers.{AreInRange, AreApart};

    ghost Value = { CacheState };

    ghost view = { λ b. record { limits = b.limits; entries = b.shelf; in_flight = b.in_flight.entries } };

    ghost invariant = { λ b. AreInRange b.limits × (are_within b.limits b.shelf ≡ true)
        × AreApart b.in_flight.entries b.shelf };
}

/// Puts a key that is not in flight there. Without memory nothing changes.
fn take_off(
    alloc: Global,
    in_flight: &mut IndexMap<Key, u64>,
    key: &Key,
    owner: u64,
) -> Result<(), Memory>
    requires { lookup (key_eq key.now) in_flight.old.entries ≡ None }
    ensures ok { OnOk result (in_flight.new.entries ≡ in_flight.old.entries ++ (key.now, owner) ∷ []) }
    ensures err { OnErr result (in_flight.new.entries ≡ in_flight.old.entries) }
{
    match in_flight.insert(key.copy(alloc)?, owner) {
        Ok(_) => Ok(()),
        Err(_) => Err(Memory),
    }
}

/// Drops entries from the back until the rest are within the limits, and tells how many.
fn evict(shelf: &mut Shelf, limits: &CacheLimits) -> usize
    requires some { 0 < length shelf.old }
    requires small { length shelf.old ≤ ENTRY_LIMIT + 1 }
    requires first { are_within limits.now (take 1 shelf.old) ≡ true }
    ensures least { IsLeastFit limits.now shelf.old result }
    ensures after { shelf.new ≡ without_last result shelf.old }
{
    let mut dropped = 0;
    while !shelf.is_within(limits) {
        shelf.drop_last();
        dropped += 1;
    }
    dropped
}

/// Keeps an outcome that is light enough under a key that has none.
fn store(alloc: Global, shelf: &mut Shelf, limits: &CacheLimits, key: Key, got: &Outcome) -> Filled
    requires in_range { AreInRange limits.now }
    requires within { are_within limits.now shelf.old ≡ true }
    requires new { lookup (key_eq key) shelf.old ≡ None }
    requires light { entry_weight key got.now ≤ limits.now.bytes }
    ensures { Stores limits.now (key, got.now) shelf.old result shelf.new }
{
    let Ok(outcome) = got.copy(alloc) else {
        return Filled::Dropped;
    };
    match shelf.put(key, outcome) {
        Ok(()) => Filled::Stored(evict(shelf, limits)),
        Err(Memory) => Filled::Dropped,
    }
}

impl Book {
    /// An empty cache that keeps at most this many entries, and entries of at most this weight
    /// together.
    pub fn new(alloc: Global, entries: usize, bytes: u64) -> Result<Book, Memory>
        requires entries_in_range { (0 < entries) × (entries ≤ ENTRY_LIMIT) }
        requires bytes_in_range { (0 < bytes) × (bytes ≤ BYTE_LIMIT) }
        ensures { IfOk result (λ b. b ≡ empty_cache (record { entries = entries; bytes = bytes })) }
    {
        Ok(Book {
            limits: CacheLimits { entries, bytes },
            shelf: Shelf::new(alloc)?,
            in_flight: IndexMap::new(alloc),
        })
    }

    /// How many entries are kept.
    pub fn len(&self) -> usize
        ensures len { result ≡ length self.now.entries }
        ensures sound { IsSound self.now }
    {
        let _claims = self.in_flight.len();
        self.shelf.len()
    }

    /// Whether this owner has the key in flight. It takes no memory.
    pub fn holds(&self, key: &Key, owner: u64) -> bool
        ensures { IsTrue result ↔ (owner_in_flight self.now key.now ≡ Some owner) }
    {
        match self.in_flight.get(key) {
            Some(other) => *other == owner,
            None => false,
        }
    }

    /// Asks for the outcome of a key. Where it is neither kept nor in flight, the key goes in flight
    /// with this owner, which is to fill or to abandon it.
    pub fn claim(&mut self, alloc: Global, key: &Key, owner: u64) -> BookClaim
        ensures { AnswersCall self.old (claims key.now owner) (reply_of_claim result) self.new }
    {
        match self.shelf.hit(alloc, key) {
            Err(Memory) => BookClaim::Memory,
            Ok(Some(outcome)) => BookClaim::Hit(outcome),
            Ok(None) => match self.in_flight.get(key) {
                Some(other) => BookClaim::Busy(*other),
                None => match take_off(alloc, &mut self.in_flight, key, owner) {
                    Ok(()) => BookClaim::Mine,
                    Err(Memory) => BookClaim::Memory,
                },
            },
        }
    }

    /// Hands in the outcome of a key that the owner has in flight, which then leaves flight. The
    /// outcome goes in front of the entries, and as many go from the back as the limits ask for.
    pub fn fill(&mut self, alloc: Global, key: &Key, owner: u64, got: &Outcome) -> Filled
        requires { IsAllowed self.old (fills key.now owner got.now) }
        ensures { AnswersCall self.old (fills key.now owner got.now) (Some (reply_of_fill result)) self.new }
    {
        let Some((key, _)) = self.in_flight.shift_remove_entry(key) else {
            unreachable!()
        };
        if key.weight().saturating_add(got.weight()) > self.limits.bytes {
            return Filled::TooHeavy;
        }
        store(alloc, &mut self.shelf, &self.limits, key, got)
    }

    /// Gives a key up that the owner has in flight. It takes no memory.
    pub fn abandon(&mut self, key: &Key, owner: u64)
        requires { IsAllowed self.old (abandons key.now owner) }
        ensures { self.new ≡ cache_after self.old (abandons key.now owner) abandoned }
    {
        let _owner = self.in_flight.shift_remove(key);
    }
}
