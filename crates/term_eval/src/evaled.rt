ghost use Rattle.std.specs.Prelude.{◌≡◌, IfOk};
ghost use Rattle.app_tree.specs.View.{tree_of};
ghost use Rattle.app_tree.specs.Evaluate.{evaluate};
ghost use Rattle.app_tree.specs.Wanted.{completed};
ghost use Rattle.term_eval.specs.Evals.{Evals};

use crate::ending::Early;
use crate::reader::Reader;
use crate::walk::value_of;
use app_tree::Term;
use rx_value::{Memory, Outcome, Value, Values};
use sqlite_items::Items;
use std::alloc::Global;

/// What an evaluation comes to.
#[derive(Debug, Drop)]
pub enum Evaled {
    Done(Outcome),
    /// The expression of this reader number must be run first. Nothing behind it was asked.
    Wants(u32),
    Memory,
}

fn copies(alloc: Global, values: &[Value]) -> Result<Items<Value>, Memory>
    ensures { IfOk result (λ copies. copies ≡ values.now) }
{
    let mut copies = Items::new(alloc);
    for value in values {
        if copies.push(value.copy(alloc)?).is_err() {
            return Err(Memory);
        }
    }
    Ok(copies)
}

/// What a term comes to over a reader, where its variables have these values.
pub(crate) fn term_evaled<R: Reader>(
    alloc: Global,
    term: &Term,
    variables: Items<Value>,
    reader: &mut R,
) -> Evaled
    ensures keeps { R.answers reader.new ≡ R.answers reader.old }
    ensures gives { Evals R.answers R.noted
        (evaluate (tree_of term.now) (completed (R.answers reader.old)) variables)
        reader.old reader.new result }
{
    let mut variables = variables;
    match value_of(alloc, term, &mut variables, reader) {
        Ok(value) => Evaled::Done(Outcome::Val(value)),
        Err(Early::Halted(halt)) => Evaled::Done(halt.outcome()),
        Err(Early::Wants(m)) => Evaled::Wants(m),
        Err(Early::Memory) => Evaled::Memory,
    }
}

/// What a term comes to over a reader: from left to right, where the first failure is the outcome.
///
/// `args` are the values of the variables that the term has from outside, the parameters of a task; no
/// other term of an app has any. Where it is done, the reader was asked exactly what the evaluation asks,
/// in its order; where it wants an expression, what comes before the first such read, and that. The
/// outcome of a term whose reads are all answered is that of the definition `evaluate`.
pub fn eval<R: Reader>(alloc: Global, term: &Term, args: &Values, reader: &mut R) -> Evaled
    ensures keeps { R.answers reader.new ≡ R.answers reader.old }
    ensures gives { Evals R.answers R.noted
        (evaluate (tree_of term.now) (completed (R.answers reader.old)) args.now)
        reader.old reader.new result }
{
    match copies(alloc, args.as_slice()) {
        Ok(variables) => term_evaled(alloc, term, variables, reader),
        Err(Memory) => Evaled::Memory,
    }
}
