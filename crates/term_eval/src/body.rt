ghost use Rattle.std.specs.Prelude.{◌≡◌, ◌+◌, ◌<◌, ◌&&◌, not, [], Some, length};
ghost use Rattle.rx_value.specs.Functions.{is_null};
ghost use Rattle.app_tree.specs.Numbering.{readers, reader as reader_at};
ghost use Rattle.app_tree.specs.View.{node_of, shape_of, tree_of};
ghost use Rattle.app_tree.specs.Evaluate.{evaluate, then_with};
ghost use Rattle.app_tree.specs.Fresh.{evaluate_node, event_body, rendered};
ghost use Rattle.app_tree.specs.Wanted.{completed};
ghost use Rattle.term_eval.specs.Bodies.{IsUncached, bodies_done};
ghost use Rattle.term_eval.specs.Evals.{Evals};
ghost use Rattle.term_eval.specs.inner.Walks.{Walks, state};

use crate::ending::{Early, Halt};
use crate::evaled::{Evaled, term_evaled};
use crate::reader::Reader;
use crate::shown::picture;
use crate::sites::sites_in;
use crate::steps::Steps;
use crate::walk::{isolated, value_of};
use app_tree::{App, Flags, Item, Term};
use rx_value::{Memory, Outcome, Value};
use sqlite_items::Items;
use std::alloc::Global;
use std::sync::ledger::Ledger;

/// Counts a body that came to its end.
pub(crate) fn count_body<L: Ledger>(evaled: &Evaled, steps: &mut Steps<L>)
    ensures { steps.new ≡ steps.old + bodies_done evaled.now }
{
    match evaled {
        Evaled::Done(_) => steps.tick(),
        Evaled::Wants(_) => {}
        Evaled::Memory => {}
    }
}

/// An event whose event term is NULL stops, unless it allows NULL.
fn stops(flags: Flags, value: &Value) -> bool
    ensures { result ≡ (is_null value.now && not flags.allow_null) }
{
    match value {
        Value::Null => !flags.allow_null,
        _ => false,
    }
}

/// The body of an event, which is its implicit site, where the event term has this value.
fn event_body<R: Reader>(
    alloc: Global,
    flags: Flags,
    event: &Term,
    body: &Term,
    value: Value,
    variables: &mut Items<Value>,
    reader: &mut R,
) -> Result<Value, Early>
    requires { variables.old ≡ [] }
    ensures { Walks R.answers R.noted
        (event_body flags (tree_of event.now) (tree_of body.now)
        (completed (R.answers reader.old)) value)
        (state reader.old variables.old) (state reader.new variables.new) result }
{
    if stops(flags, &value) {
        return Err(Early::Halted(Halt::Stop));
    }
    let site = sites_in(event)?;
    isolated(alloc, site, body, variables, reader)
}

/// The event term, and then the body.
fn event_value<R: Reader>(
    alloc: Global,
    flags: Flags,
    event: &Term,
    body: &Term,
    variables: &mut Items<Value>,
    reader: &mut R,
) -> Result<Value, Early>
    requires { variables.old ≡ [] }
    ensures { Walks R.answers R.noted
        (then_with (evaluate (tree_of event.now) (completed (R.answers reader.old)) [])
        (event_body flags (tree_of event.now) (tree_of body.now) (completed (R.answers reader.old))))
        (state reader.old variables.old) (state reader.new variables.new) result }
{
    let value = value_of(alloc, event, variables, reader)?;
    event_body(alloc, flags, event, body, value, variables, reader)
}

fn event_evaled<R: Reader>(
    alloc: Global,
    flags: Flags,
    event: &Term,
    body: &Term,
    reader: &mut R,
) -> Evaled
    ensures keeps { R.answers reader.new ≡ R.answers reader.old }
    ensures gives { Evals R.answers R.noted
        (then_with (evaluate (tree_of event.now) (completed (R.answers reader.old)) [])
        (event_body flags (tree_of event.now) (tree_of body.now) (completed (R.answers reader.old))))
        reader.old reader.new result }
{
    let mut variables = Items::new(alloc);
    match event_value(alloc, flags, event, body, &mut variables, reader) {
        Ok(value) => Evaled::Done(Outcome::Val(value)),
        Err(Early::Halted(halt)) => Evaled::Done(halt.outcome()),
        Err(Early::Wants(m)) => Evaled::Wants(m),
        Err(Early::Memory) => Evaled::Memory,
    }
}

fn plot_evaled<R: Reader>(alloc: Global, body: &Term, reader: &mut R) -> Evaled
    ensures keeps { R.answers reader.new ≡ R.answers reader.old }
    ensures gives { Evals R.answers R.noted
        (rendered (evaluate (tree_of body.now) (completed (R.answers reader.old)) []))
        reader.old reader.new result }
{
    match term_evaled(alloc, body, Items::new(alloc), reader) {
        Evaled::Done(outcome) => match picture(alloc, outcome) {
            Ok(shown) => Evaled::Done(shown),
            Err(Memory) => Evaled::Memory,
        },
        Evaled::Wants(m) => Evaled::Wants(m),
        Evaled::Memory => Evaled::Memory,
    }
}

/// What an expression or an output without keys comes to.
fn item_evaled<R: Reader>(alloc: Global, item: &Item, reader: &mut R) -> Evaled
    requires { IsUncached (Some (node_of item.now)) }
    ensures keeps { R.answers reader.new ≡ R.answers reader.old }
    ensures gives { Evals R.answers R.noted
        (evaluate_node (Some (node_of item.now)) (completed (R.answers reader.old)))
        reader.old reader.new result }
{
    match item {
        Item::Reactive { body, .. } => term_evaled(alloc, body, Items::new(alloc), reader),
        Item::Event {
            flags,
            event,
            body,
            ..
        } => event_evaled(alloc, *flags, event, body, reader),
        Item::Text { output, .. } => term_evaled(alloc, &output.body, Items::new(alloc), reader),
        Item::Plot { output, .. } => plot_evaled(alloc, &output.body, reader),
        _ => unreachable!(),
    }
}

/// Runs the body of an expression or an output without keys: what it comes to over a reader, which is
/// asked exactly what the evaluation asks, in its order, up to the first wanted read. The body of an
/// event is its implicit site, whose number follows those of the event term. It is entered as any
/// other, so a reader can answer it without its being evaluated. One body is counted where it is done,
/// and else none.
pub fn run_body<R: Reader, L: Ledger>(
    alloc: Global,
    app: &App,
    node: u32,
    reader: &mut R,
    steps: &mut Steps<L>,
) -> Evaled
    requires known { node < length (readers (shape_of app.now)) }
    requires uncached { IsUncached (reader_at (shape_of app.now) node) }
    ensures keeps { R.answers reader.new ≡ R.answers reader.old }
    ensures gives { Evals R.answers R.noted
        (evaluate_node (reader_at (shape_of app.now) node) (completed (R.answers reader.old)))
        reader.old reader.new result }
    ensures counts { steps.new ≡ steps.old + bodies_done result }
{
    let evaled = item_evaled(alloc, app.reader(node), reader);
    count_body(&evaled, steps);
    evaled
}
