ghost use Rattle.std.specs.Prelude.{◌≡◌};
ghost use Rattle.term_eval.specs.declared.ending.Early.TheVariants.{Memory as memory};
ghost use Rattle.term_eval.specs.inner.Early.{halted_outcome, Comes};

use rx_value::{Memory, Outcome, RxText, Value};

/// An outcome that is no value.
#[derive(Debug, Drop)]
pub enum Halt {
    Fail(RxText),
    Stop,
    Cancel,
    Running,
}

/// Why an evaluation came to no value.
#[derive(Debug, Drop)]
pub enum Early {
    Halted(Halt),
    /// The reader wants the expression of this number to be run first.
    Wants(u32),
    Memory,
}

impl Halt {
    pub fn outcome(self) -> Outcome
        ensures { result ≡ halted_outcome self }
    {
        match self {
            Halt::Fail(text) => Outcome::Fail(text),
            Halt::Stop => Outcome::Stop,
            Halt::Cancel => Outcome::Cancel,
            Halt::Running => Outcome::Running,
        }
    }
}

impl From<Memory> for Early {
    ghost from_gives = { λ _ early. early ≡ memory };

    fn from(_: Memory) -> Early {
        Early::Memory
    }
}

/// The value of an outcome; the evaluation ends at any other.
pub fn value_in(outcome: Outcome) -> Result<Value, Early>
    ensures { Comes outcome result }
{
    match outcome {
        Outcome::Val(value) => Ok(value),
        Outcome::Fail(text) => Err(Early::Halted(Halt::Fail(text))),
        Outcome::Stop => Err(Early::Halted(Halt::Stop)),
        Outcome::Cancel => Err(Early::Halted(Halt::Cancel)),
        Outcome::Running => Err(Early::Halted(Halt::Running)),
    }
}
