ghost use Rattle.std.specs.Prelude.{◌≡◌, [], ◌∷◌, ◌++◌, OnOk};
ghost use Rattle.app_tree.specs.declared.term.Read.TheVariants as read;
ghost use Rattle.app_tree.specs.Evaluate.{reads};
ghost use Rattle.app_tree.specs.View.{shape_of};
ghost use Rattle.term_eval.specs.Told.{TellsRead};
ghost use Rattle.react_session.specs.inner.Reading.{answering_by};
ghost use Rattle.react_session.specs.inner.Trail.{IsNoted, reached_at, noted_stays, noted_chains, on_of_read};

use crate::reached::add;
use crate::session::Session;
use app_tree::Read;
use dep_graph::On;
use rx_value::{Memory, Outcome, RxList};
use std::alloc::Global;
use term_eval::{Answer, Entered, Reader};

/// One evaluation over a session, with its notes: what it has read outside of isolated sites, and what its sites came to.
#[derive(Drop)]
pub struct Reading<'a> {
    pub session: &'a Session,
    /// The site that is not evaluated but stopped: the body of an event on the first run that it ignores.
    pub ignored: Option<usize>,
    /// In how many isolated sites the evaluation stands.
    pub depth: usize,
    pub reached: RxList<On>,
    pub isolated: RxList<(usize, Outcome)>,
}

impl Reading<'_> {
    fn note(&mut self, on: On) -> Result<(), Memory>
        ensures session { self.new.session.now ≡ self.old.session.now }
        ensures ignored { self.new.ignored ≡ self.old.ignored }
        ensures depth { self.new.depth ≡ self.old.depth }
        ensures isolated { self.new.isolated ≡ self.old.isolated }
        ensures reached { OnOk result (self.new.reached ≡ reached_at self.old.depth self.old.reached on) }
    {
        if self.depth == 0 {
            add(&mut self.reached, on)
        } else {
            Ok(())
        }
    }

    fn keep(&mut self, site: usize, outcome: Outcome) -> Result<(), Memory>
        ensures session { self.new.session.now ≡ self.old.session.now }
        ensures ignored { self.new.ignored ≡ self.old.ignored }
        ensures depth { self.new.depth ≡ self.old.depth }
        ensures reached { self.new.reached ≡ self.old.reached }
        ensures isolated { OnOk result (self.new.isolated ≡ self.old.isolated ++ (site, outcome) ∷ []) }
    {
        self.isolated.push((site, outcome))
    }
}

impl Reader for Reading<'_> {
    ghost answers = { λ s. answering_by s.session.now s.ignored };

    ghost noted = { λ a asked b. IsNoted (shape_of a.session.now.app) (answering_by a.session.now a.ignored) (record { depth = a.depth; reached = a.reached; isolated = a.isolated }) asked (shape_of b.session.now.app) (answering_by b.session.now b.ignored) (record { depth = b.depth; reached = b.reached; isolated = b.isolated }) };

    fn read(&mut self, alloc: Global, what: Read) -> Answer {
        let outcome = match self.session.kept_answer(alloc, what) {
            Answer::Given(outcome) => outcome,
            Answer::Wants(m) => return Answer::Wants(m),
            Answer::Memory => return Answer::Memory,
        };
        let on = self.session.on_of(what);
        match self.note(on) {
            Ok(()) => Answer::Given(outcome),
            Err(Memory) => Answer::Memory,
        }
    }

    fn enter(&mut self, _alloc: Global, site: usize) -> Entered {
        if self.ignored == Some(site) {
            return match self.keep(site, Outcome::Stop) {
                Ok(()) => Entered::Given(Outcome::Stop),
                Err(Memory) => Entered::Memory,
            };
        }
        match self.depth.checked_add(1) {
            Some(depth) => {
                self.depth = depth;
                Entered::Run
            }
            None => Entered::Memory,
        }
    }

    fn exit(&mut self, alloc: Global, site: usize, got: &Outcome) -> Result<(), Memory> {
        let outcome = got.copy(alloc)?;
        self.keep(site, outcome)?;
        self.depth = self.depth.saturating_sub(1);
        Ok(())
    }

    ghost stays = { λ s. noted_stays (shape_of s.session.now.app) (answering_by s.session.now s.ignored) (record { depth = s.depth; reached = s.reached; isolated = s.isolated }) };

    ghost chains = { λ a b c xs ys p q. noted_chains xs ys p q };
}
