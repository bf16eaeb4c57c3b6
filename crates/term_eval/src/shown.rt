ghost use Rattle.std.specs.Prelude.{◌≡◌, ◌<◌, IfOk, length};
ghost use Rattle.app_tree.specs.Fresh as fresh;
ghost use Rattle.app_tree.specs.Numbering.{readers, reader};
ghost use Rattle.app_tree.specs.View.{shape_of};
ghost use Rattle.term_eval.specs.Bodies as bodies;

use app_tree::{App, Item};
use rx_value::{Failure, Memory, Outcome, Value};
use std::alloc::Global;

/// A plot shows a text or nothing; a value of another kind fails. It is the last step of a plot, and is
/// not part of what a cache keeps.
pub fn picture(alloc: Global, outcome: Outcome) -> Result<Outcome, Memory>
    ensures { IfOk result (λ shown. shown ≡ fresh.picture outcome) }
{
    match outcome {
        Outcome::Val(Value::Null) => Ok(Outcome::Val(Value::Null)),
        Outcome::Val(Value::Text(text)) => Ok(Outcome::Val(Value::Text(text))),
        Outcome::Val(Value::Bool(_)) => Failure::WrongKind.outcome(alloc),
        Outcome::Val(Value::Int(_)) => Failure::WrongKind.outcome(alloc),
        Outcome::Val(Value::Ints(_)) => Failure::WrongKind.outcome(alloc),
        Outcome::Fail(text) => Ok(Outcome::Fail(text)),
        Outcome::Stop => Ok(Outcome::Stop),
        Outcome::Cancel => Ok(Outcome::Cancel),
        Outcome::Running => Ok(Outcome::Running),
    }
}

/// What the reader of this number makes of its body's outcome, as it came from the body or from a cache:
/// the picture where the reader is a plot, and else the same.
pub fn last_step(alloc: Global, app: &App, node: u32, outcome: Outcome) -> Result<Outcome, Memory>
    requires { node < length (readers (shape_of app.now)) }
    ensures { IfOk result
        (λ shown. shown ≡ bodies.last_step (reader (shape_of app.now) node) outcome) }
{
    match app.reader(node) {
        Item::Plot { .. } => picture(alloc, outcome),
        _ => Ok(outcome),
    }
}
