//! An asker that counts what another one is asked.

ghost use Rattle.std.specs.Prelude.{◌≡◌};

use rx_value::{Key, Outcome};
use std::alloc::Global;
use term_eval::{Asked, Asker};

/// How often an asker was asked, and how it answered.
#[derive(Clone, Copy, Debug, PartialEq, Eq)]
pub struct Counts {
    pub hits: u32,
    /// Claims that were answered by a Leave.
    pub leaves: u32,
    pub filled: u32,
    pub abandoned: u32,
}

/// Nothing was asked.
pub const NOTHING: Counts = Counts {
    hits: 0,
    leaves: 0,
    filled: 0,
    abandoned: 0,
};

/// An asker with the counts of what it was asked.
#[derive(Drop)]
pub struct Watched<A: Asker> {
    pub asker: A,
    pub counts: Counts,
}

impl<A: Asker> Watched<A> {
    pub fn new(asker: A) -> Watched<A>
        ensures { result.asker ≡ asker }
    {
        Watched {
            asker,
            counts: NOTHING,
        }
    }
}

impl<A: Asker> Asker for Watched<A> {
    type Leave = A::Leave;

    ghost app = { λ w. A.app w.asker };

    ghost lent = { λ leave. A.lent leave };

    ghost out = { λ w. A.out w.asker };

    ghost follows = { λ later earlier. A.follows later.asker earlier.asker };

    fn claim(&mut self, alloc: Global, key: &Key) -> Asked<A::Leave> {
        let asked = self.asker.claim(alloc, key);
        match &asked {
            Asked::Hit(_) => self.counts.hits = self.counts.hits.saturating_add(1),
            Asked::Go(_) => self.counts.leaves = self.counts.leaves.saturating_add(1),
            Asked::Memory => {}
        }
        asked
    }

    fn fill(&mut self, alloc: Global, leave: A::Leave, got: &Outcome) {
        self.counts.filled = self.counts.filled.saturating_add(1);
        self.asker.fill(alloc, leave, got);
    }

    fn abandon(&mut self, leave: A::Leave) {
        self.counts.abandoned = self.counts.abandoned.saturating_add(1);
        self.asker.abandon(leave);
    }

    ghost stays = { λ a. A.stays a.asker };

    ghost chains = { λ a b c ba cb. A.chains a.asker b.asker c.asker ba cb };

    ghost same_app = { λ a b ba. A.same_app a.asker b.asker ba };
}
