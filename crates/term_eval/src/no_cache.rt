ghost use Rattle.std.specs.Prelude.{◌≡◌, [], map, position};
ghost use Rattle.rx_value.specs.Value.{key_eq};
ghost use Rattle.app_tree.specs.View.{shape_of};
ghost use Rattle.term_eval.specs.Lent.{without};
ghost use Rattle.term_eval.specs.Tickets.{lent_for};

use crate::asker::{Asked, Asker};
use app_tree::App;
use rx_value::{Key, Outcome};
use sqlite_items::Items;
use std::alloc::Global;

/// The Leave of [`NoCache`].
pub struct Ticket {
    key: Key,
}

/// An asker that keeps no outcome. It holds the keys for which a Leave is out; a claim takes memory for
/// its key, and nothing else does.
#[derive(Drop)]
pub struct NoCache<'a> {
    app: &'a App,
    claimed: Items<Key>,
}

impl<'a> NoCache<'a> {
    /// An asker of this app, of which no Leave is out. It takes no memory.
    pub fn new(alloc: Global, app: &'a App) -> NoCache<'a>
        ensures app { ⟦<NoCache<'a> as Asker>⟧.app result ≡ shape_of app.now }
        ensures none_out { ⟦<NoCache<'a> as Asker>⟧.out result ≡ [] }
    {
        NoCache {
            app,
            claimed: Items::new(alloc),
        }
    }
}

fn place_of(claimed: &[Key], key: &Key) -> Option<usize>
    ensures { result ≡ position (λ held. key_eq key.now held) claimed.now }
{
    claimed.iter().position(|held| key.same(held))
}

/// Takes off the first key that is the same as this one.
fn take_off(claimed: &mut Items<Key>, key: &Key)
    ensures { map lent_for claimed.new ≡ without key.now (map lent_for claimed.old) }
{
    if let Some(place) = place_of(claimed.as_slice(), key) {
        claimed.remove(place);
    }
}

impl<'a> Asker for NoCache<'a> {
    ghost use Rattle.std.specs.Prelude.{◌≡◌, refl};
    ghost use Rattle.std.proofs.Common.{◌∙◌};

    type Leave = Ticket;

    ghost app = { λ s. shape_of s.app.now };

    ghost lent = { λ t. lent_for t.key };

    ghost out = { λ s. map lent_for s.claimed };

    ghost follows = { λ later earlier. shape_of later.app.now ≡ shape_of earlier.app.now };

    fn claim(&mut self, alloc: Global, key: &Key) -> Asked<Ticket> {
        match (key.copy(alloc), key.copy(alloc)) {
            (Ok(held), Ok(key)) => match self.claimed.push(held) {
                Ok(()) => Asked::Go(Ticket { key }),
                Err(_) => Asked::Memory,
            },
            _ => Asked::Memory,
        }
    }

    fn fill(&mut self, _alloc: Global, leave: Ticket, _got: &Outcome) {
        self.abandon(leave);
    }

    fn abandon(&mut self, leave: Ticket) {
        let Ticket { key } = leave;
        take_off(&mut self.claimed, &key);
    }

    ghost stays = { λ a. refl };

    ghost chains = { λ a b c ba cb. cb ∙ ba };

    ghost same_app = { λ a b ba. ba };
}
