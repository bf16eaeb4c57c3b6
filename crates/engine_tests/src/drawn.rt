//! An asker that asks a cache or passes it by, as numbers are drawn.

ghost use Rattle.std.proofs.Props.{props};
ghost use Rattle.std.specs.Prelude.{◌≡◌, ◌++◌, ◌∷◌, [], Bool, IfSome, OnOk, OnErr, is_some};
ghost use Rattle.app_tree.specs.View.{shape_of};
ghost use Rattle.rx_value.specs.declared.key.Key.{Key};
ghost use Rattle.term_eval.specs.Claims.{Claims};
ghost use Rattle.term_eval.specs.Lent.{IsFree};
ghost use Rattle.book_asker.specs.Keyed.{IsAtRest};
ghost use Rattle.book_asker.specs.Leaves.{leaves_out};
ghost use Rattle.engine_tests.specs.inner.DrawnLeaves.{drawn_lent, drawn_out, given_out};

use book_asker::{BookAsker, BookLeave};
use indexmap::IndexMap;
use rx_value::{Key, Memory, Outcome};
use std::alloc::Global;
use term_eval::{Asked, Asker};

/// A linear congruential generator, which draws the same numbers for the same seed.
#[derive(Drop)]
struct Draws {
    state: u64,
}

impl Draws {
    /// Whether the next number is even. The upper half of the state is drawn, since the lowest bit
    /// of such a state changes each time.
    fn is_even(&mut self) -> bool {
        self.state = self
            .state
            .wrapping_mul(6_364_136_223_846_793_005)
            .wrapping_add(1_442_695_040_888_963_407);
        (self.state >> 32) % 2 == 0
    }
}

/// A key's Leave, with the cache's own one where the cache was asked.
pub struct DrawnLeave {
    key: Key,
    given: Option<BookLeave>,
    ghost same: { IfSome given (λ leave. leave.key ≡ key) } by { Prim.hlevel props },
}

/// How the claims of an asker were answered.
#[derive(Clone, Copy, Debug, PartialEq, Eq)]
pub struct Answers {
    pub hits: u32,
    /// Leaves that the cache gave.
    pub given: u32,
    /// Leaves for which the cache was not asked.
    pub free: u32,
}

/// An asker that asks one over a cache where an even number is drawn, and else answers with a Leave of
/// its own, of which the cache never hears. It holds the keys for which a Leave is out, each with
/// whether the cache gave that.
pub struct DrawnAsker<'a> {
    pub asker: BookAsker<'a>,
    draws: Draws,
    held: IndexMap<Key, bool>,
    pub answers: Answers,
    ghost given: { leaves_out asker.book.now ≡ given_out held.entries },
}

/// Holds a key for which no Leave is out. Without memory nothing changes.
fn hold(held: &mut IndexMap<Key, bool>, key: Key, given: bool) -> Result<(), Memory>
    requires { IsFree key (drawn_out held.old.entries) }
    ensures ok { OnOk result (held.new.entries ≡ held.old.entries ++ (key, given) ∷ []) }
    ensures err { OnErr result (held.new.entries ≡ held.old.entries) }
{
    match held.insert(key, given) {
        Ok(_) => Ok(()),
        Err(_) => Err(Memory),
    }
}

impl<'a> DrawnAsker<'a> {
    /// An asker over this one, of which no Leave may be out. What it draws follows from the seed.
    pub fn new(alloc: Global, asker: BookAsker<'a>, seed: u64) -> DrawnAsker<'a>
        requires { leaves_out asker.book.now ≡ [] }
        ensures asker { result.asker ≡ asker.entry }
        ensures none_out { ⟦<DrawnAsker<'a> as Asker>⟧.out result ≡ [] }
    {
        DrawnAsker {
            asker,
            draws: Draws { state: seed },
            held: IndexMap::new(alloc),
            answers: Answers {
                hits: 0,
                given: 0,
                free: 0,
            },
        }
    }

    /// Asks the cache.
    fn ask(&mut self, alloc: Global, key: &Key) -> Asked<DrawnLeave>
        requires { IsFree key.now (drawn_out self.old.held.entries) }
        ensures app { shape_of self.new.asker.app.now ≡ shape_of self.old.asker.app.now }
        ensures loan { self.new.asker.book.ghost_name ≡ self.old.asker.book.ghost_name }
        ensures gives { Claims (λ leave. drawn_lent (leave.key, is_some leave.given)) (shape_of self.old.asker.app.now) key.now (drawn_out self.old.held.entries) result (drawn_out self.new.held.entries) }
    {
        let (Ok(held), Ok(own)) = (key.copy(alloc), key.copy(alloc)) else {
            return Asked::Memory;
        };
        match self.asker.claim(alloc, key) {
            Asked::Hit(outcome) => {
                self.answers.hits = self.answers.hits.saturating_add(1);
                Asked::Hit(outcome)
            }
            Asked::Go(leave) => match hold(&mut self.held, held, true) {
                Ok(()) => {
                    self.answers.given = self.answers.given.saturating_add(1);
                    Asked::Go(DrawnLeave {
                        key: own,
                        given: Some(leave),
                    })
                }
                Err(Memory) => {
                    self.asker.abandon(leave);
                    Asked::Memory
                }
            },
            Asked::Memory => Asked::Memory,
        }
    }

    /// Passes the cache by.
    fn pass_by(&mut self, alloc: Global, key: &Key) -> Asked<DrawnLeave>
        requires { IsFree key.now (drawn_out self.old.held.entries) }
        ensures app { shape_of self.new.asker.app.now ≡ shape_of self.old.asker.app.now }
        ensures loan { self.new.asker.book.ghost_name ≡ self.old.asker.book.ghost_name }
        ensures gives { Claims (λ leave. drawn_lent (leave.key, is_some leave.given)) (shape_of self.old.asker.app.now) key.now (drawn_out self.old.held.entries) result (drawn_out self.new.held.entries) }
    {
        let (Ok(held), Ok(own)) = (key.copy(alloc), key.copy(alloc)) else {
            return Asked::Memory;
        };
        match hold(&mut self.held, held, false) {
            Ok(()) => {
                self.answers.free = self.answers.free.saturating_add(1);
                Asked::Go(DrawnLeave {
                    key: own,
                    given: None,
                })
            }
            Err(Memory) => Asked::Memory,
        }
    }

    /// Lets the asker go. None of its Leaves may be out, and so the cache is again one that an asker
    /// may be made over.
    pub fn finish(self)
        requires { drawn_out self.held.entries ≡ [] }
        ensures { IsAtRest (shape_of self.entry.asker.app.now) self.entry.asker.book.now }
    {
        let DrawnAsker {
            asker,
            draws: _,
            held: _,
            answers: _,
        } = self;
        asker.finish();
    }
}

impl<'a> Asker for DrawnAsker<'a> {
    ghost use Rattle.std.specs.Prelude.{◌≡◌, refl, is_some};
    ghost use Rattle.std.proofs.Common.{◌∙◌};
    ghost use Rattle.app_tree.specs.View.{shape_of};
    ghost use Rattle.engine_tests.specs.inner.DrawnLeaves.{drawn_lent, drawn_out};

    type Leave = DrawnLeave;

    ghost app = { λ a. shape_of a.asker.app.now };

    ghost lent = { λ leave. drawn_lent (leave.key, is_some leave.given) };

    ghost out = { λ a. drawn_out a.held.entries };

    ghost follows = { λ a b. (shape_of a.asker.app.now ≡ shape_of b.asker.app.now) × (a.asker.book.ghost_name ≡ b.asker.book.ghost_name) };

    fn claim(&mut self, alloc: Global, key: &Key) -> Asked<DrawnLeave> {
        if self.draws.is_even() {
            self.ask(alloc, key)
        } else {
            self.pass_by(alloc, key)
        }
    }

    fn fill(&mut self, alloc: Global, leave: DrawnLeave, got: &Outcome) {
        let DrawnLeave { key, given } = leave;
        let _given = self.held.shift_remove(&key);
        match given {
            Some(leave) => self.asker.fill(alloc, leave, got),
            None => {}
        }
    }

    fn abandon(&mut self, leave: DrawnLeave) {
        let DrawnLeave { key, given } = leave;
        let _given = self.held.shift_remove(&key);
        match given {
            Some(leave) => self.asker.abandon(leave),
            None => {}
        }
    }

    ghost stays = { λ a. (refl, refl) };

    ghost chains = { λ a b c p q. (q.0 ∙ p.0, q.1 ∙ p.1) };

    ghost same_app = { λ a b p. p.0 };
}
