ghost use Rattle.std.specs.Prelude.{◌≡◌, List, [], ◌∷◌, ◌++◌, OnOk};
ghost use Rattle.app_tree.specs.Evaluate.{TraceEntry, reads, leaves};
ghost use Rattle.app_tree.specs.Wanted.{Answering};
ghost use Rattle.term_eval.specs.Told.{TellsRead, TellsSite};

use app_tree::Read;
use rx_value::{Memory, Outcome};
use std::alloc::Global;

/// What a read is answered.
#[derive(Debug, Drop)]
pub enum Answer {
    Given(Outcome),
    /// The expression of this reader number must be run first.
    Wants(u32),
    Memory,
}

/// What is done at an isolated site.
#[derive(Debug, Drop)]
pub enum Entered {
    /// The site's outcome is this one, and its term is not evaluated.
    Given(Outcome),
    /// The site's term is evaluated.
    Run,
    Memory,
}

/// What an evaluation reads from.
///
/// A reader has an answer to each read and to each isolated site, which its own calls leave as they
/// are; it has none to an expression that must be run first, and none to a site whose term is
/// evaluated. What it was asked is `noted`: a relation between an earlier state of it, what was asked
/// in between, in order, and a later state. A call that finds no memory says nothing of what is noted.
pub trait Reader {
    ghost answers: { Self → Answering };

    ghost noted: { Self → List TraceEntry → Self → Type 0 };

    /// What the evaluation reads. Only an expression can be wanted.
    fn read(&mut self, alloc: Global, what: Read) -> Answer
        ensures keeps { answers self.new ≡ answers self.old }
        ensures tells { TellsRead (answers self.old) what result
            (noted self.old (reads what ∷ []) self.new) };

    /// The isolated site of this number is reached. Sites of one reader are numbered from 0 in the order
    /// of the text.
    fn enter(&mut self, alloc: Global, site: usize) -> Entered
        ensures keeps { answers self.new ≡ answers self.old }
        ensures tells { TellsSite (answers self.old) site result
            (λ asked. noted self.old (asked ∷ []) self.new) };

    /// The site's term, whose evaluation `enter` asked for, came to this outcome.
    fn exit(&mut self, alloc: Global, site: usize, got: &Outcome) -> Result<(), Memory>
        ensures keeps { answers self.new ≡ answers self.old }
        ensures tells { OnOk result (noted self.old (leaves site got.now ∷ []) self.new) };

    ghost stays: { (s : Self) → noted s [] s };

    ghost chains: { (a b c : Self) (xs ys : List TraceEntry) → noted a xs b → noted b ys c → noted a (xs ++ ys) c };
}
