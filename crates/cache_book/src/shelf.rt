ghost use Rattle.std.specs.Prelude.{◌≡◌, ◌∷◌, [], ◌+◌, ◌-◌, ◌^◌, ◌<◌, length, take, Some, None, IfOk, IfSome, OnOk, OnErr, MatchOption, true};
ghost use Rattle.std.specs.List.{IsDistinct};
ghost use Rattle.std.specs.Map.{lookup, keys_of};
ghost use Rattle.rx_value.specs.Value.{key_eq};
ghost use Rattle.rx_value.specs.Weight.{entry_weight};
ghost use Rattle.cache_book.specs.Machine.{total_weight, are_within, entries_after_use, without_last};

use crate::limits::CacheLimits;
use lru::LruCache;
use rx_value::{Key, Memory, Outcome};
use std::alloc::Global;
use std::marker::Model;

/// The outcomes that are kept, which contracts see as a list with the one that was used last in
/// front. It knows its weight. It has no limit of its own.
#[derive(Debug, Drop)]
pub struct Shelf {
    kept: LruCache<Key, Outcome>,
    weight: u64,
}

impl Model for Shelf {
    ghost use Rattle.std.specs.Prelude.{◌≡◌, List, ◌-◌, ◌^◌};
    ghost use Rattle.rx_value.specs.declared.key.Key.{Key};
    ghost use Rattle.rx_value.specs.declared.outcome.Outcome.{Outcome};
    ghost use Rattle.cache_book.specs.Machine.{total_weight};

    ghost Value = { List (Key × Outcome) };

    ghost view = { λ s. s.kept.entries };

    ghost invariant = { λ s. (s.kept.cap ≡ 2 ^ 64 - 1) × (s.weight ≡ total_weight s.kept.entries) };
}

/// What an outcome counts under this key.
fn weight_of(key: &Key, outcome: &Outcome) -> u64
    ensures { result ≡ entry_weight key.now outcome.now }
{
    key.weight().saturating_add(outcome.weight())
}

/// A copy of what is kept under the key.
fn copied(
    alloc: Global,
    kept: &LruCache<Key, Outcome>,
    key: &Key,
) -> Result<Option<Outcome>, Memory>
    ensures { IfOk result (λ o. o ≡ lookup (key_eq key.now) kept.now.entries) }
{
    match kept.peek(key) {
        Some(outcome) => Ok(Some(outcome.copy(alloc)?)),
        None => Ok(None),
    }
}

impl Shelf {
    pub fn new(alloc: Global) -> Result<Shelf, Memory>
        ensures { IfOk result (λ s. s ≡ []) }
    {
        Ok(Shelf {
            kept: LruCache::unbounded(alloc)?,
            weight: 0,
        })
    }

    /// A copy of what is kept under the key, which then stands in front. Without memory nothing
    /// changes.
    pub fn hit(&mut self, alloc: Global, key: &Key) -> Result<Option<Outcome>, Memory>
        ensures found { IfOk result (λ o. o ≡ lookup (key_eq key.now) self.old) }
        ensures ok { OnOk result
            (MatchOption (lookup (key_eq key.now) self.old) (self.new ≡ self.old)
            (λ o. self.new ≡ entries_after_use key.now o self.old)) }
        ensures err { OnErr result (self.new ≡ self.old) }
    {
        let outcome = copied(alloc, &self.kept, key)?;
        self.kept.promote(key);
        Ok(outcome)
    }

    /// Puts an outcome in front, under a key that has none. Without memory nothing changes.
    pub fn put(&mut self, key: Key, outcome: Outcome) -> Result<(), Memory>
        requires new { lookup (key_eq key) self.old ≡ None }
        requires room { total_weight self.old + entry_weight key outcome < 2 ^ 64 }
        ensures ok { OnOk result (self.new ≡ (key, outcome) ∷ self.old) }
        ensures err { OnErr result (self.new ≡ self.old) }
    {
        let weight = weight_of(&key, &outcome);
        let _count = self.kept.len();
        match self.kept.put(key, outcome) {
            Ok(_) => {
                self.weight += weight;
                Ok(())
            }
            Err(_) => Err(Memory),
        }
    }

    /// Drops the outcome that was used longest ago.
    pub fn drop_last(&mut self)
        requires { 0 < length self.old }
        ensures { self.new ≡ without_last 1 self.old }
    {
        if let Some((key, outcome)) = self.kept.pop_lru() {
            self.weight -= weight_of(&key, &outcome);
        }
    }

    /// How many outcomes are kept.
    pub fn len(&self) -> usize
        ensures len { result ≡ length self.now }
        ensures small { result < 2 ^ 63 }
        ensures kept_once { IsDistinct key_eq (keys_of self.now) }
    {
        self.kept.len()
    }

    /// Whether all entries are within the limits.
    pub fn is_within(&self, limits: &CacheLimits) -> bool
        ensures within { result ≡ are_within limits.now self.now }
        ensures empty { self.now ≡ [] → result ≡ true }
        ensures small { length self.now < 2 ^ 63 }
    {
        self.len() <= limits.entries && self.weight <= limits.bytes
    }
}
