//! A reader that needs no session.

ghost use Rattle.std.specs.Prelude.{⊤};
ghost use Rattle.engine_tests.specs.inner.PlainAnswering.{plain_answering};

use app_tree::Read;
use rx_value::{Memory, Outcome, Value};
use std::alloc::Global;
use term_eval::{Answer, Entered, Reader};

/// Each input reads as its number, each expression has to be run first, whatever else is read has
/// stopped, and each isolated site is evaluated.
#[derive(Debug, Drop)]
pub struct PlainReader {
    /// How many reads were asked.
    pub reads: u32,
    /// How many isolated sites were entered and left.
    pub sites: u32,
}

impl PlainReader {
    pub fn new() -> PlainReader {
        PlainReader { reads: 0, sites: 0 }
    }
}

impl Reader for PlainReader {
    ghost answers = { λ s. plain_answering };

    ghost noted = { λ a asked b. ⊤ };

    fn read(&mut self, _alloc: Global, what: Read) -> Answer {
        self.reads = self.reads.saturating_add(1);
        match what {
            Read::Input(source) => Answer::Given(Outcome::Val(Value::Int(i64::from(source)))),
            Read::Expr(m) => Answer::Wants(m),
            Read::Value(_) | Read::Status(_) | Read::Result(_) | Read::Width(_) | Read::Height(_) =>
                Answer::Given(Outcome::Stop),
        }
    }

    fn enter(&mut self, _alloc: Global, _site: usize) -> Entered {
        Entered::Run
    }

    fn exit(&mut self, _alloc: Global, _site: usize, _got: &Outcome) -> Result<(), Memory> {
        self.sites = self.sites.saturating_add(1);
        Ok(())
    }

    ghost stays = { λ s. tt };

    ghost chains = { λ a b c xs ys p q. tt };
}
