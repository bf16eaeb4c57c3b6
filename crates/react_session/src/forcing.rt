//! The calls that answer what a reader comes to.

ghost use Rattle.std.specs.Prelude.{◌≡◌, ◌<◌, ◌+◌, [], length, true, false, is_ok, IfOk, OnOk, OnErr};
ghost use Rattle.app_tree.specs.View.{shape_of};
ghost use Rattle.app_tree.specs.Numbering.{readers, reader};
ghost use Rattle.app_tree.specs.Fresh.{is_expression_at};
ghost use Rattle.session_model.specs.Standing.{kept_reader};
ghost use Rattle.session_steps.specs.Bringing.{reading, running};
ghost use Rattle.react_session.specs.Forcing.{is_output_at, Forces};

use crate::session::Session;
use rx_value::{Memory, Outcome};
use std::alloc::Global;
use std::sync::ledger::Ledger;
use term_eval::{Asker, Steps};

impl Session {
    /// A copy of the outcome that is kept of a reader.
    fn outcome_kept(&mut self, alloc: Global, n: u32) -> Result<Outcome, Memory>
        requires { n < length (readers (shape_of self.old.app)) }
        ensures app { self.new.app ≡ self.old.app }
        ensures session { self.new.session ≡ self.old.session }
        ensures outcome { IfOk result (λ outcome. outcome ≡ (kept_reader self.old.session n).outcome) }
        ensures whole { OnOk result (self.new.whole ≡ self.old.whole) }
        ensures broken { OnErr result (self.new.whole ≡ false) }
    {
        match self.kept[n as usize].outcome.copy(alloc) {
            Ok(outcome) => Ok(outcome),
            Err(Memory) => Err(self.lose()),
        }
    }

    /// What an expression comes to. Where it isn't alive, it is run first, and before it each expression that it wants and that
    /// isn't alive. Of those that are run, each without keys has its body evaluated. Where the keys of a cached one all come to
    /// values, the asker may know the outcome, and then the body is not evaluated; where it is, a claim of the key gave a Leave.
    ///
    /// The outcome is that of evaluating the expression afresh on the current values, where each isolated site keeps what its
    /// reader's last run saw (`session_steps`, `stand_laws`). After want of memory only `source`, `alive` and `ran` may be
    /// called.
    pub fn force<A: Asker, L: Ledger>(
        &mut self,
        alloc: Global,
        n: u32,
        asker: &mut A,
        steps: &mut Steps<L>,
    ) -> Result<Outcome, Memory>
        requires expression { is_expression_at (reader (shape_of self.old.app) n) ≡ true }
        requires whole { self.old.whole ≡ true }
        requires of_app { A.app asker.old ≡ shape_of self.old.app }
        requires none_out { A.out asker.old ≡ [] }
        ensures app { self.new.app ≡ self.old.app }
        ensures forces { Forces (shape_of self.old.app) reading n
            self.old.session self.new.session steps.old steps.new result }
        ensures values { self.new.session.values ≡ self.old.session.values }
        ensures running { self.new.session.running ≡ self.old.session.running }
        ensures whole { self.new.whole ≡ is_ok result }
        ensures follows { A.follows asker.new asker.old }
        ensures none_out { A.out asker.new ≡ [] }
    {
        self.settle(alloc, n, asker, steps)?;
        self.outcome_kept(alloc, n)
    }

    /// Runs an output, alive or not, and answers what it comes to. Bodies are run as by `force`, the output being taken as not
    /// alive.
    pub fn run_reader<A: Asker, L: Ledger>(
        &mut self,
        alloc: Global,
        n: u32,
        asker: &mut A,
        steps: &mut Steps<L>,
    ) -> Result<Outcome, Memory>
        requires output { is_output_at (reader (shape_of self.old.app) n) ≡ true }
        requires whole { self.old.whole ≡ true }
        requires of_app { A.app asker.old ≡ shape_of self.old.app }
        requires none_out { A.out asker.old ≡ [] }
        ensures app { self.new.app ≡ self.old.app }
        ensures forces { Forces (shape_of self.old.app) running n
            self.old.session self.new.session steps.old steps.new result }
        ensures values { self.new.session.values ≡ self.old.session.values }
        ensures running { self.new.session.running ≡ self.old.session.running }
        ensures whole { self.new.whole ≡ is_ok result }
        ensures follows { A.follows asker.new asker.old }
        ensures none_out { A.out asker.new ≡ [] }
    {
        self.run(alloc, n, asker, steps)?;
        self.outcome_kept(alloc, n)
    }
}
