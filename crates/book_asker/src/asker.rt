ghost use Rattle.std.specs.Prelude.{◌≡◌, [], Some, None, IfSome, OnSome, IfNone};
ghost use Rattle.app_tree.specs.View.{shape_of};
ghost use Rattle.term_eval.specs.Claims.{Claims, key_outcome};
ghost use Rattle.term_eval.specs.Lent.{IsFree, IsOut, without};
ghost use Rattle.cache_book.specs.Machine.{owner_in_flight, without_flight};
ghost use Rattle.book_asker.specs.Keyed.{IsKeyed, IsAtRest};
ghost use Rattle.book_asker.specs.Leaves.{lent_of, leaves_out, IsOwnedBy};
ghost use Rattle.book_asker.specs.Asks.{AsksCache, FillsCache};
ghost use Rattle.book_asker.specs.declared.owner.TheConstants.{OWNER};

use crate::owner::OWNER;
use app_tree::App;
use cache_book::{Book, BookClaim};
use rx_value::{Key, Memory, Outcome};
use std::alloc::Global;
use term_eval::{Asked, Asker};

/// The leave to evaluate the body of a key's reader. It is spent by the asker that gave it.
pub struct BookLeave {
    key: Key,
}

/// Who asks one cache for the outcomes of an app's keys. What is in flight there was claimed by this
/// asker, so no claim of it waits for another one.
pub struct BookAsker<'a> {
    pub app: &'a App,
    pub book: &'a mut Book,
    ghost keyed: { IsKeyed (shape_of app.now) book.now },
    ghost owned: { IsOwnedBy OWNER book.now },
}

/// The leave of a key that was claimed; without memory the claim is given up.
fn leave_of(alloc: Global, book: &mut Book, key: &Key) -> Option<BookLeave>
    requires { owner_in_flight book.old key.now ≡ Some OWNER }
    ensures key { IfSome result (λ leave. leave.key ≡ key.now) }
    ensures some { OnSome result (book.new ≡ book.old) }
    ensures none { IfNone result (book.new ≡ without_flight key.now book.old) }
{
    match key.copy(alloc) {
        Ok(key) => Some(BookLeave { key }),
        Err(Memory) => {
            book.abandon(key, OWNER);
            None
        }
    }
}

impl<'a> BookAsker<'a> {
    /// Who asks this cache for the outcomes of the app's keys. Nothing may be in flight there, and what
    /// is kept there must be the app's.
    pub fn new(app: &'a App, book: &'a mut Book) -> BookAsker<'a>
        requires { IsAtRest (shape_of app.now) book.old }
        ensures app { ⟦<BookAsker<'a> as Asker>⟧.app result ≡ shape_of app.now }
        ensures none_out { ⟦<BookAsker<'a> as Asker>⟧.out result ≡ [] }
        ensures book { result.book.now ≡ book.old }
        ensures loan { result.book.ghost_name ≡ book.entry.ghost_name }
    {
        BookAsker { app, book }
    }

    /// Lets the asker go. None of its Leaves may be out, and so the cache is again one that an asker may
    /// be made over.
    pub fn finish(self)
        requires { leaves_out self.book.now ≡ [] }
        ensures at_rest { IsAtRest (shape_of self.entry.app.now) self.entry.book.now }
        // the second field at the return: what the cache is left as
        ensures unchanged { self.exit.1.0.now ≡ self.entry.book.now }
    {
        let BookAsker { app: _, book: _ } = self;
    }
}

impl<'a> Asker for BookAsker<'a> {
    ghost use Rattle.std.specs.Prelude.{◌≡◌, refl};
    ghost use Rattle.std.proofs.Common.{◌∙◌};
    ghost use Rattle.app_tree.specs.View.{shape_of};
    ghost use Rattle.book_asker.specs.Leaves.{leaves_out, lent_of};
    ghost use Rattle.book_asker.specs.declared.owner.TheConstants.{OWNER};

    type Leave = BookLeave;

    ghost app = { λ a. shape_of a.app.now };

    ghost lent = { λ leave. lent_of (leave.key, OWNER) };

    ghost out = { λ a. leaves_out a.book.now };

    ghost follows = { λ a b. (shape_of a.app.now ≡ shape_of b.app.now) × (a.book.ghost_name ≡ b.book.ghost_name) };

    fn claim(&mut self, alloc: Global, key: &Key) -> Asked<BookLeave>
        requires { IsFree key.now (leaves_out self.old.book.now) }
        ensures follows { (shape_of self.new.app.now ≡ shape_of self.old.app.now) × (self.new.book.ghost_name ≡ self.old.book.ghost_name) }
        ensures gives { Claims (λ leave. lent_of (leave.key, OWNER)) (shape_of self.old.app.now) key.now (leaves_out self.old.book.now) result (leaves_out self.new.book.now) }
        ensures asks { AsksCache key.now OWNER self.old.book.now result self.new.book.now }
    {
        match self.book.claim(alloc, key, OWNER) {
            BookClaim::Hit(outcome) => Asked::Hit(outcome),
            BookClaim::Mine => match leave_of(alloc, self.book, key) {
                Some(leave) => Asked::Go(leave),
                None => Asked::Memory,
            },
            BookClaim::Busy(_) => unreachable!(),
            BookClaim::Memory => Asked::Memory,
        }
    }

    fn fill(&mut self, alloc: Global, leave: BookLeave, got: &Outcome)
        requires out { IsOut (lent_of (leave.key, OWNER)) (leaves_out self.old.book.now) }
        requires keyed { got.now ≡ key_outcome (shape_of self.old.app.now) leave.key }
        ensures follows { (shape_of self.new.app.now ≡ shape_of self.old.app.now) × (self.new.book.ghost_name ≡ self.old.book.ghost_name) }
        ensures back { leaves_out self.new.book.now ≡ without leave.key (leaves_out self.old.book.now) }
        ensures fills { FillsCache leave.key OWNER got.now self.old.book.now self.new.book.now }
    {
        let BookLeave { key } = leave;
        let _filled = self.book.fill(alloc, &key, OWNER, got);
    }

    fn abandon(&mut self, leave: BookLeave)
        requires { IsOut (lent_of (leave.key, OWNER)) (leaves_out self.old.book.now) }
        ensures follows { (shape_of self.new.app.now ≡ shape_of self.old.app.now) × (self.new.book.ghost_name ≡ self.old.book.ghost_name) }
        ensures back { leaves_out self.new.book.now ≡ without leave.key (leaves_out self.old.book.now) }
        ensures gives_up { self.new.book.now ≡ without_flight leave.key self.old.book.now }
    {
        let BookLeave { key } = leave;
        self.book.abandon(&key, OWNER);
    }

    ghost stays = { λ a. (refl, refl) };

    ghost chains = { λ a b c p q. (q.0 ∙ p.0, q.1 ∙ p.1) };

    ghost same_app = { λ a b p. p.0 };
}
