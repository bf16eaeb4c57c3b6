ghost use Rattle.std.specs.Prelude.{◌≡◌, ◌+◌, ◌<◌, [], Some, length};
ghost use Rattle.app_tree.specs.Numbering.{readers, reader as reader_at};
ghost use Rattle.app_tree.specs.View.{node_of, shape_of, tree_of, trees_of_terms};
ghost use Rattle.app_tree.specs.Cover.{cached_node};
ghost use Rattle.app_tree.specs.Evaluate.{evaluate};
ghost use Rattle.app_tree.specs.Wanted.{completed};
ghost use Rattle.term_eval.specs.Bodies.{IsCached, keys_of, body_of, bodies_done};
ghost use Rattle.term_eval.specs.Evals.{Evals};
ghost use Rattle.term_eval.specs.KeysTold.{EvalsKeys};
ghost use Rattle.term_eval.specs.inner.KeyedBy.{keyed_by};

use crate::asker::Asker;
use crate::body::count_body;
use crate::ending::Early;
use crate::evaled::{Evaled, term_evaled};
use crate::reader::Reader;
use crate::steps::Steps;
use crate::walk::values_of;
use app_tree::{App, Item, Term, Terms};
use rx_value::{Key, Outcome, Values};
use sqlite_items::Items;
use std::alloc::Global;
use std::sync::ledger::Ledger;

/// What the keys of a cached reader come to.
#[derive(Debug, Drop)]
pub enum Keyed {
    /// The key by which the reader's outcome is asked for.
    Key(Key),
    /// The first failure of a key term, which is the reader's outcome.
    Fails(Outcome),
    /// The expression of this reader number must be run first. Nothing behind it was asked.
    Wants(u32),
    Memory,
}

fn keys_of_item(item: &Item) -> &Terms
    requires { IsCached (Some (node_of item.now)) }
    ensures { trees_of_terms result.now ≡ keys_of (cached_node (Some (node_of item.now))) }
{
    match item {
        Item::Reactive { keys, .. } => keys,
        Item::Text { output, .. } => &output.keys,
        Item::Plot { output, .. } => &output.keys,
        _ => unreachable!(),
    }
}

fn body_of_item(item: &Item) -> &Term
    requires { IsCached (Some (node_of item.now)) }
    ensures { tree_of result.now ≡ body_of (cached_node (Some (node_of item.now))) }
{
    match item {
        Item::Reactive { body, .. } => body,
        Item::Text { output, .. } => &output.body,
        Item::Plot { output, .. } => &output.body,
        _ => unreachable!(),
    }
}

fn keyed_of(node: u32, got: Result<Values, Early>) -> Keyed
    ensures { result ≡ keyed_by node got }
{
    match got {
        Ok(parts) => Keyed::Key(Key { node, parts }),
        Err(Early::Halted(halt)) => Keyed::Fails(halt.outcome()),
        Err(Early::Wants(m)) => Keyed::Wants(m),
        Err(Early::Memory) => Keyed::Memory,
    }
}

/// What these keys come to, for the reader of this number.
fn keys_evaled<R: Reader>(alloc: Global, node: u32, keys: &[Term], reader: &mut R) -> Keyed
    ensures keeps { R.answers reader.new ≡ R.answers reader.old }
    ensures gives { EvalsKeys R.answers R.noted node
        (trees_of_terms keys.now) reader.old reader.new result }
{
    let mut variables = Items::new(alloc);
    let got = values_of(alloc, keys, &mut variables, reader);
    keyed_of(node, got)
}

/// Evaluates the keys of a cached reader over a reader, in their order up to the first failure. It is
/// asked exactly what the keys ask, in its order, up to the first wanted read.
pub fn run_keys<R: Reader>(alloc: Global, app: &App, node: u32, reader: &mut R) -> Keyed
    requires known { node < length (readers (shape_of app.now)) }
    requires cached { IsCached (reader_at (shape_of app.now) node) }
    ensures keeps { R.answers reader.new ≡ R.answers reader.old }
    ensures gives { EvalsKeys R.answers R.noted node
        (keys_of (cached_node (reader_at (shape_of app.now) node))) reader.old reader.new result }
{
    let keys = keys_of_item(app.reader(node));
    keys_evaled(alloc, node, keys.as_slice(), reader)
}

/// Runs the body of a cached reader alone, for whose key there is a Leave. A cache keeps what the body
/// comes to; a plot's picture is made of it afterwards, by `last_step`. One body is counted where it is
/// done, and else none.
pub fn run_cached_body<R: Reader, A: Asker, L: Ledger>(
    alloc: Global,
    app: &App,
    node: u32,
    leave: &A::Leave,
    reader: &mut R,
    steps: &mut Steps<L>,
) -> Evaled
    requires known { node < length (readers (shape_of app.now)) }
    requires cached { IsCached (reader_at (shape_of app.now) node) }
    requires claimed { (A.lent leave.now).key.node ≡ node }
    ensures keeps { R.answers reader.new ≡ R.answers reader.old }
    ensures gives { Evals R.answers R.noted
        (evaluate (body_of (cached_node (reader_at (shape_of app.now) node)))
        (completed (R.answers reader.old)) [])
        reader.old reader.new result }
    ensures counts { steps.new ≡ steps.old + bodies_done result }
{
    let _claimed = leave;
    let body = body_of_item(app.reader(node));
    let evaled = term_evaled(alloc, body, Items::new(alloc), reader);
    count_body(&evaled, steps);
    evaled
}
