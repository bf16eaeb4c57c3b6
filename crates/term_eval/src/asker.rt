ghost use Rattle.std.specs.Prelude.{◌≡◌, List};
ghost use Rattle.app_tree.specs.Tree.{Shape};
ghost use Rattle.term_eval.specs.Claims.{Claims, key_outcome};
ghost use Rattle.term_eval.specs.Lent.{Lent, IsFree, IsOut, without};

use rx_value::{Key, Outcome};
use std::alloc::Global;

/// What a claim of a key is answered.
pub enum Asked<L> {
    /// The outcome of the key, which is kept.
    Hit(Outcome),
    /// No outcome is kept: with this Leave the body is evaluated.
    Go(L),
    /// Neither an outcome nor a Leave could be made.
    Memory,
}

/// Who is asked for the outcomes of cached readers, by their keys.
///
/// An asker is of one app. It knows which of its Leaves are out, each by its key and its number. A
/// Leave is made by a claim alone, and cannot be let go: it is spent by `fill` or by `abandon`. So a
/// cached body is evaluated only where its key was claimed, and no claim stays open. What follows from
/// an earlier state is a relation between a later and an earlier state of the asker; at least its app
/// is the same.
pub trait Asker {
    type Leave;

    ghost app: { Self → Shape };

    ghost lent: { Self.Leave → Lent };

    ghost out: { Self → List Lent };

    ghost follows: { Self → Self → Type 0 };

    /// Asks for the outcome of a key for which no Leave is out.
    fn claim(&mut self, alloc: Global, key: &Key) -> Asked<Self::Leave>
        requires { IsFree key.now (out self.old) }
        ensures follows { follows self.new self.old }
        ensures gives { Claims lent (app self.old) key.now (out self.old) result (out self.new) };

    /// Hands in the outcome of the Leave's key. Whether it is kept is not said.
    fn fill(&mut self, alloc: Global, leave: Self::Leave, got: &Outcome)
        requires out { IsOut (lent leave) (out self.old) }
        requires keyed { got.now ≡ key_outcome (app self.old) (lent leave).key }
        ensures follows { follows self.new self.old }
        ensures back { out self.new ≡ without (lent leave).key (out self.old) };

    /// Hands the Leave back without an outcome.
    fn abandon(&mut self, leave: Self::Leave)
        requires { IsOut (lent leave) (out self.old) }
        ensures follows { follows self.new self.old }
        ensures back { out self.new ≡ without (lent leave).key (out self.old) };

    ghost stays: { (a : Self) → follows a a };

    ghost chains: { (a b c : Self) → follows b a → follows c b → follows c a };

    ghost same_app: { (a b : Self) → follows b a → app b ≡ app a };
}
