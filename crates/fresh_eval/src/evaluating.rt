ghost use Rattle.std.specs.Prelude.{◌≡◌, ◌<◌, ◌&&◌, not, [], IfOk, Some, length};
ghost use Rattle.rx_value.specs.Functions.{is_null};
ghost use Rattle.app_tree.specs.Evaluate.{evaluate, outcome_of, then_with};
ghost use Rattle.app_tree.specs.Fresh.{cached, event_body, rendered, evaluate_node, ignored_site};
ghost use Rattle.app_tree.specs.Numbering.{readers, reader};
ghost use Rattle.app_tree.specs.View.{node_of, shape_of, tree_of, trees_of_terms};
ghost use Rattle.fresh_eval.specs.inner.Answering.{answers_by};
ghost use Rattle.fresh_eval.specs.inner.Failing.{value_in, first_failure};

use crate::reading::Reading;
use app_tree::{App, Flags, Item, Term, Terms};
use rx_source::Sources;
use rx_value::{Memory, Outcome, RxList, Value, Values};
use std::alloc::Global;
use term_eval::{Evaled, eval, picture, sites_in};

/// What a term comes to that has no variables from outside.
fn term_outcome(alloc: Global, term: &Term, reading: &Reading) -> Result<Outcome, Memory>
    ensures { IfOk result (λ outcome. outcome ≡ outcome_of (tree_of term.now)
        (answers_by reading.now.sources.now reading.now.known.now reading.now.ignored) []) }
{
    let mut reading = *reading;
    match eval(alloc, term, &Values::new(alloc), &mut reading) {
        Evaled::Done(outcome) => Ok(outcome),
        Evaled::Wants(_) => unreachable!(),
        Evaled::Memory => Err(Memory),
    }
}

/// The value of an outcome, or the outcome that is none.
fn value_in(outcome: Outcome) -> Result<Value, Outcome>
    ensures { result ≡ value_in outcome }
{
    match outcome {
        Outcome::Val(value) => Ok(value),
        Outcome::Fail(text) => Err(Outcome::Fail(text)),
        Outcome::Stop => Err(Outcome::Stop),
        Outcome::Cancel => Err(Outcome::Cancel),
        Outcome::Running => Err(Outcome::Running),
    }
}

/// The first of these keys' outcomes that is no value.
fn first_failure(alloc: Global, keys: &[Term], reading: &Reading) -> Result<Option<Outcome>, Memory>
    ensures { IfOk result (λ failure. failure ≡ first_failure (trees_of_terms keys.now)
        (answers_by reading.now.sources.now reading.now.known.now reading.now.ignored)) }
{
    for key in keys {
        let outcome = term_outcome(alloc, key, reading)?;
        match value_in(outcome) {
            Ok(_) => {}
            Err(failure) => return Ok(Some(failure)),
        }
    }
    Ok(None)
}

/// The keys in their order, and then the body.
#[tactic(auto, using(crate::proofs::Evaluations::cached_is))]
fn cached_outcome(
    alloc: Global,
    keys: &Terms,
    body: &Term,
    reading: &Reading,
) -> Result<Outcome, Memory>
    ensures { IfOk result (λ outcome. outcome ≡ (cached (trees_of_terms keys.now) (tree_of body.now)
        (answers_by reading.now.sources.now reading.now.known.now reading.now.ignored)).outcome) }
{
    match first_failure(alloc, keys.as_slice(), reading)? {
        Some(failure) => Ok(failure),
        None => term_outcome(alloc, body, reading),
    }
}

/// An event whose event term is NULL stops, unless it allows NULL.
fn stops(flags: Flags, value: &Value) -> bool
    ensures { result ≡ (is_null value.now && not flags.allow_null) }
{
    match value {
        Value::Null => !flags.allow_null,
        _ => false,
    }
}

/// The body of an event, which is its implicit site, where the event term has this value.
fn event_body_outcome(
    alloc: Global,
    flags: Flags,
    event: &Term,
    body: &Term,
    value: &Value,
    reading: &Reading,
) -> Result<Outcome, Memory>
    ensures { IfOk result (λ outcome. outcome ≡ (event_body flags (tree_of event.now) (tree_of body.now)
        (answers_by reading.now.sources.now reading.now.known.now reading.now.ignored) value.now).outcome) }
{
    if stops(flags, value) {
        return Ok(Outcome::Stop);
    }
    let site = sites_in(event)?;
    match reading.at_site(site) {
        Some(outcome) => Ok(outcome),
        None => term_outcome(alloc, body, reading),
    }
}

/// The event term, and then the body.
#[tactic(auto, using(crate::proofs::Evaluations::goes_on, crate::proofs::Evaluations::ends))]
fn event_outcome(
    alloc: Global,
    flags: Flags,
    event: &Term,
    body: &Term,
    reading: &Reading,
) -> Result<Outcome, Memory>
    ensures { IfOk result (λ outcome. outcome ≡ (then_with
        (evaluate (tree_of event.now) (answers_by reading.now.sources.now reading.now.known.now reading.now.ignored) [])
        (event_body flags (tree_of event.now) (tree_of body.now)
        (answers_by reading.now.sources.now reading.now.known.now reading.now.ignored))).outcome) }
{
    let outcome = term_outcome(alloc, event, reading)?;
    match value_in(outcome) {
        Ok(value) => event_body_outcome(alloc, flags, event, body, &value, reading),
        Err(failure) => Ok(failure),
    }
}

/// A plot wants a picture.
fn plot_outcome(
    alloc: Global,
    keys: &Terms,
    body: &Term,
    reading: &Reading,
) -> Result<Outcome, Memory>
    ensures { IfOk result (λ outcome. outcome ≡ (rendered (cached (trees_of_terms keys.now) (tree_of body.now)
        (answers_by reading.now.sources.now reading.now.known.now reading.now.ignored))).outcome) }
{
    let outcome = cached_outcome(alloc, keys, body, reading)?;
    picture(alloc, outcome)
}

/// What an expression or an output comes to; no other item comes to anything.
fn item_outcome(alloc: Global, item: &Item, reading: &Reading) -> Result<Outcome, Memory>
    ensures { IfOk result (λ outcome. outcome ≡ (evaluate_node (Some (node_of item.now))
        (answers_by reading.now.sources.now reading.now.known.now reading.now.ignored)).outcome) }
{
    match item {
        Item::Reactive { keys, body, .. } => cached_outcome(alloc, keys, body, reading),
        Item::Event {
            flags,
            event,
            body,
            ..
        } => event_outcome(alloc, *flags, event, body, reading),
        Item::Text { output, .. } => cached_outcome(alloc, &output.keys, &output.body, reading),
        Item::Plot { output, .. } => plot_outcome(alloc, &output.keys, &output.body, reading),
        Item::Input { .. } => Ok(Outcome::Stop),
        Item::Value { .. } => Ok(Outcome::Stop),
        Item::Task { .. } => Ok(Outcome::Stop),
        Item::Observe { .. } => Ok(Outcome::Stop),
        Item::On { .. } => Ok(Outcome::Stop),
    }
}

/// The site that a reader leaves out at its first run: the body of an event that ignores it.
fn ignored_site(item: &Item) -> Result<Option<usize>, Memory>
    ensures { IfOk result (λ site. site ≡ ignored_site (Some (node_of item.now))) }
{
    match item {
        Item::Event { flags, event, .. } if flags.ignore_init => Ok(Some(sites_in(event)?)),
        _ => Ok(None),
    }
}

/// What the reader of this number comes to at its first run, where the expressions before it came to
/// this.
pub fn reader_outcome(
    alloc: Global,
    app: &App,
    sources: &Sources,
    known: &RxList<Outcome>,
    n: u32,
) -> Result<Outcome, Memory>
    requires { n < length (readers (shape_of app.now)) }
    ensures { IfOk result (λ outcome. outcome ≡ (evaluate_node (reader (shape_of app.now) n)
        (answers_by sources.now known.now (ignored_site (reader (shape_of app.now) n)))).outcome) }
{
    let item = app.reader(n);
    let reading = Reading {
        sources,
        known,
        ignored: ignored_site(item)?,
    };
    item_outcome(alloc, item, &reading)
}
