ghost use Rattle.std.specs.Prelude.{◌≡◌, ◌↔◌, IfOk, IsTrue};
ghost use Rattle.rx_value.specs.Value.{outcome_eq};

use crate::memory::Memory;
use crate::text::RxText;
use crate::value::Value;
use std::alloc::Global;

/// What an evaluation comes to.
#[derive(Debug, Drop)]
pub enum Outcome {
    /// A value.
    Val(Value),
    /// A failure with its text, which is shown as an error.
    Fail(RxText),
    /// A silent stop, as `req` of a value that isn't truthy: what was shown is cleared.
    Stop,
    /// A silent stop that leaves what was shown.
    Cancel,
    /// A read of a task that has not ended.
    Running,
}

impl Outcome {
    /// An equal outcome.
    pub fn copy(&self, alloc: Global) -> Result<Outcome, Memory>
        ensures { IfOk result (λ outcome. outcome ≡ self.now) }
    {
        match self {
            Outcome::Val(value) => Ok(Outcome::Val(value.copy(alloc)?)),
            Outcome::Fail(text) => Ok(Outcome::Fail(text.copy(alloc)?)),
            Outcome::Stop => Ok(Outcome::Stop),
            Outcome::Cancel => Ok(Outcome::Cancel),
            Outcome::Running => Ok(Outcome::Running),
        }
    }

    /// Whether both are of one kind and have the same content.
    #[tactic(auto, using(crate::proofs::Sameness::same_outcomes))]
    pub fn same(&self, other: &Outcome) -> bool
        ensures test { result ≡ outcome_eq self.now other.now }
        ensures equal { IsTrue result ↔ (self.now ≡ other.now) }
    {
        match (self, other) {
            (Outcome::Val(a), Outcome::Val(b)) => a.same(b),
            (Outcome::Fail(a), Outcome::Fail(b)) => a.same(b),
            (Outcome::Stop, Outcome::Stop) => true,
            (Outcome::Cancel, Outcome::Cancel) => true,
            (Outcome::Running, Outcome::Running) => true,
            _ => false,
        }
    }
}
