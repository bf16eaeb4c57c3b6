ghost use Rattle.std.specs.Prelude.{◌≡◌, IfOk, slice_get, unwrap_or};
ghost use Rattle.rx_value.specs.declared.outcome.Outcome.TheVariants.{Stop};
ghost use Rattle.fresh_eval.specs.inner.Answering.{answer_by, site_by, answering_by};

use app_tree::Read;
use rx_source::Sources;
use rx_value::{Memory, Outcome, RxList};
use std::alloc::Global;
use term_eval::{Answer, Entered, Reader};

/// What one reader is evaluated over: the current values, and what the expressions before it came to.
#[derive(Clone, Copy, Drop)]
pub struct Reading<'a> {
    pub sources: &'a Sources,
    /// By reader number; a reader that is no expression counts as stopped.
    pub known: &'a RxList<Outcome>,
    /// The site that is not evaluated but stopped: the body of an event that ignores its first run.
    pub ignored: Option<usize>,
}

fn known_at(alloc: Global, known: &RxList<Outcome>, n: u32) -> Result<Outcome, Memory>
    ensures { IfOk result (λ outcome. outcome ≡ unwrap_or (slice_get known.now n) Stop) }
{
    match known.as_slice().get(n as usize) {
        Some(outcome) => outcome.copy(alloc),
        None => Ok(Outcome::Stop),
    }
}

impl Reading<'_> {
    fn answer(&self, alloc: Global, what: Read) -> Result<Outcome, Memory>
        ensures { IfOk result (λ outcome. outcome ≡ answer_by self.now.sources.now self.now.known.now what) }
    {
        match what {
            Read::Expr(n) => known_at(alloc, self.known, n),
            _ => self.sources.answer(alloc, what),
        }
    }

    /// The outcome of a site that is not evaluated.
    pub fn at_site(&self, site: usize) -> Option<Outcome>
        ensures { result ≡ site_by self.now.ignored site }
    {
        match self.ignored {
            Some(ignored) if ignored == site => Some(Outcome::Stop),
            _ => None,
        }
    }
}

impl Reader for Reading<'_> {
    ghost answers = { λ s. answering_by s.sources.now s.known.now s.ignored };

    ghost noted = { λ a asked b. Unit {0} };

    fn read(&mut self, alloc: Global, what: Read) -> Answer {
        match self.answer(alloc, what) {
            Ok(outcome) => Answer::Given(outcome),
            Err(Memory) => Answer::Memory,
        }
    }

    fn enter(&mut self, _alloc: Global, site: usize) -> Entered {
        match self.at_site(site) {
            Some(outcome) => Entered::Given(outcome),
            None => Entered::Run,
        }
    }

    fn exit(&mut self, _alloc: Global, _site: usize, _got: &Outcome) -> Result<(), Memory> {
        Ok(())
    }

    ghost stays = { λ s. tt };

    ghost chains = { λ a b c xs ys p q. tt };
}
