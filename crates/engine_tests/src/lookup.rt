//! An app's readers and sources by name, and the terms of its observers.

ghost use Rattle.std.specs.Prelude.{◌≡◌, ◌<◌, true, Some, IfSome, IfOk, length};
ghost use Rattle.app_tree.specs.Cover.{reads_in};
ghost use Rattle.app_tree.specs.Trace.{Every};
ghost use Rattle.app_tree.specs.View.{act_of, acts_of_block, node_of, shape_of, tree_of};
ghost use Rattle.app_tree.specs.Numbering.{readers, reader, starting_values};
ghost use Rattle.app_tree.specs.Fresh.{is_expression_at};
ghost use Rattle.app_laws.specs.Orderly.{ReadsBelow, ReadsSources, reads_in_act, reads_in_acts};
ghost use Rattle.engine_tests.specs.inner.ObserverReads.{IsWithin, IsTermOf};
ghost use Rattle.react_session.specs.Forcing.{is_output_at};
ghost use Rattle.session_model.specs.Flush.{is_observer_at};
ghost use Rattle.term_eval.specs.Bodies.{IsCached, IsUncached};

use app_tree::{App, Item, SourceNumbers, Statement, Term};
use rx_value::Memory;
use std::alloc::Global;

fn is_output(item: &Item) -> bool
    ensures { result ≡ is_output_at (Some (node_of item.now)) }
{
    match item {
        Item::Text { .. } | Item::Plot { .. } => true,
        _ => false,
    }
}

fn is_expression(item: &Item) -> bool
    ensures { result ≡ is_expression_at (Some (node_of item.now)) }
{
    match item {
        Item::Reactive { .. } | Item::Event { .. } => true,
        _ => false,
    }
}

fn is_observer(item: &Item) -> bool
    ensures { result ≡ is_observer_at (Some (node_of item.now)) }
{
    match item {
        Item::Observe { .. } | Item::On { .. } => true,
        _ => false,
    }
}

/// The reader of this name.
pub fn reader_named(app: &App, name: &str) -> Option<u32>
    ensures { IfSome result (λ n. n < length (readers (shape_of app.now))) }
{
    for n in 0..app.readers() {
        if app.reader_name(n) == name {
            return Some(n);
        }
    }
    None
}

/// The output of this name.
pub fn output_named(app: &App, name: &str) -> Option<u32>
    ensures { IfSome result (λ n. is_output_at (reader (shape_of app.now) n) ≡ true) }
{
    match reader_named(app, name) {
        Some(n) if is_output(app.reader(n)) => Some(n),
        _ => None,
    }
}

/// The expression of this name.
pub fn expression_named(app: &App, name: &str) -> Option<u32>
    ensures { IfSome result (λ n. is_expression_at (reader (shape_of app.now) n) ≡ true) }
{
    match reader_named(app, name) {
        Some(n) if is_expression(app.reader(n)) => Some(n),
        _ => None,
    }
}

/// The observer of this name.
pub fn observer_named(app: &App, name: &str) -> Option<u32>
    ensures known { IfSome result (λ n. n < length (readers (shape_of app.now))) }
    ensures observer { IfSome result (λ n. is_observer_at (reader (shape_of app.now) n) ≡ true) }
{
    match reader_named(app, name) {
        Some(n) if is_observer(app.reader(n)) => Some(n),
        _ => None,
    }
}

/// The number of a source where it is one of the app's own.
fn own_source(app: &App, found: Option<u32>) -> Option<u32>
    ensures { IfSome result (λ s. s < length (starting_values (shape_of app.now).items)) }
{
    match found {
        Some(source) if source < app.sources() => Some(source),
        _ => None,
    }
}

/// The source of this name: an input, or an output's size by its name behind `width ` or `height `.
pub fn source_named(alloc: Global, app: &App, name: &str) -> Result<Option<u32>, Memory>
    ensures { IfOk result (λ found. IfSome found (λ s. s < length (starting_values (shape_of app.now).items))) }
{
    let numbers = SourceNumbers::new(alloc, app)?;
    let found = match (name.strip_prefix("width "), name.strip_prefix("height ")) {
        (Some(output), _) => app.output_number(output).map(|n| numbers.width(n)),
        (None, Some(output)) => app.output_number(output).map(|n| numbers.height(n)),
        (None, None) => app.input_number(name),
    };
    Ok(own_source(app, found))
}

/// The term of a statement that has just one and no blocks.
fn term_of(statement: &Statement) -> Option<&Term>
    ensures { IfSome result (λ t. reads_in_act (act_of statement.now) ≡ reads_in (tree_of t.now)) }
{
    match statement {
        Statement::Set(_, term) | Statement::Update(_, term) | Statement::Do(term) => Some(term),
        _ => None,
    }
}

/// The term of the statement at this place of a block.
fn term_at(block: &[Statement], place: usize) -> Option<&Term>
    ensures { IfSome result (λ t. IsWithin (reads_in (tree_of t.now)) (reads_in_acts (acts_of_block block.now))) }
{
    match block.get(place) {
        Some(statement) => term_of(statement),
        None => None,
    }
}

/// The term at this place of an observer: of an `on` its event term at 0 and its statements from 1, of an
/// `observe` its statements from 0.
fn term_in(item: &Item, place: usize) -> Option<&Term>
    ensures { IfSome result (λ t. IsTermOf (node_of item.now) (tree_of t.now)) }
{
    match item {
        Item::Observe { block, .. } => term_at(block.as_slice(), place),
        Item::On { event, .. } if place == 0 => Some(event),
        Item::On { block, .. } => term_at(block.as_slice(), place - 1),
        _ => None,
    }
}

/// The term at this place of the observer of this number, which reads the app's own sources and
/// expressions.
pub fn observer_term(app: &App, n: u32, place: usize) -> Option<&Term>
    ensures reads { IfSome result (λ t. Every (ReadsBelow (shape_of app.now) (length (readers (shape_of app.now))))
        (reads_in (tree_of t.now))) }
    ensures own { IfSome result (λ t. Every (ReadsSources (shape_of app.now)) (reads_in (tree_of t.now))) }
{
    // That the app is well-formed says what its readers read.
    let _items = app.items();
    if n < app.readers() {
        term_in(app.reader(n), place)
    } else {
        None
    }
}

/// Whether an expression or an output stands here that has no keys.
fn is_uncached(item: &Item) -> bool
    ensures { result ≡ true → IsUncached (Some (node_of item.now)) }
{
    match item {
        Item::Reactive { keys, .. } => keys.is_empty(),
        Item::Event { .. } => true,
        Item::Text { output, .. } => output.keys.is_empty(),
        Item::Plot { output, .. } => output.keys.is_empty(),
        _ => false,
    }
}

/// Whether an expression or an output stands here that has keys.
fn is_cached(item: &Item) -> bool
    ensures { result ≡ true → IsCached (Some (node_of item.now)) }
{
    match item {
        Item::Reactive { keys, .. } => !keys.is_empty(),
        Item::Text { output, .. } => !output.keys.is_empty(),
        Item::Plot { output, .. } => !output.keys.is_empty(),
        _ => false,
    }
}

/// The expression or output of this name, which has no keys.
pub fn uncached_named(app: &App, name: &str) -> Option<u32>
    ensures known { IfSome result (λ n. n < length (readers (shape_of app.now))) }
    ensures uncached { IfSome result (λ n. IsUncached (reader (shape_of app.now) n)) }
{
    match reader_named(app, name) {
        Some(n) if is_uncached(app.reader(n)) => Some(n),
        _ => None,
    }
}

/// The expression or output of this name, which has keys.
pub fn cached_named(app: &App, name: &str) -> Option<u32>
    ensures known { IfSome result (λ n. n < length (readers (shape_of app.now))) }
    ensures cached { IfSome result (λ n. IsCached (reader (shape_of app.now) n)) }
{
    match reader_named(app, name) {
        Some(n) if is_cached(app.reader(n)) => Some(n),
        _ => None,
    }
}
