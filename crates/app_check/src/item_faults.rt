//! The checks of items, and the first one of a draft that fails.

ghost use Rattle.std.specs.Prelude.{◌≡◌, suc, ◌++◌, [], ◌≤◌, None, IfOk, length, map, take};
ghost use Rattle.app_tree.specs.Declarations.{declarations};
ghost use Rattle.app_tree.specs.Resolve.{text_of_name};
ghost use Rattle.app_tree.specs.DraftTree.{task as written_task, reactive as written_reactive};
ghost use Rattle.app_tree.specs.DraftView.{draft_tree_of, draft_trees_of, draft_acts_of, written_body, written_output, written_form, written_item};
ghost use Rattle.app_tree.specs.Faults.{first_with, repeated_names, in_task, in_expression, elsewhere, spot_in, term_faults, body_faults, acts_faults, output_faults, form_faults, second_item, item_too_many, item_faults, items_faults};
ghost use Rattle.app_check.specs.inner.Spots.{holder_of, spot_of};

use crate::found::{Found, where_fails};
use crate::parameters::Parameters;
use crate::spot::{Holder, Scope, Spot};
use crate::statement_faults::{block, body};
use crate::table::Table;
use crate::term_faults::{term, terms};
use app_tree::{
    DraftBody, DraftForm, DraftItem, DraftOutput, DraftStatement, DraftTerm, Fault, ITEM_LIMIT,
    Name,
};
use rx_value::Memory;
use std::alloc::Global;

/// Where the whole terms of an item stand in which no variable is bound.
fn whole<'s, 'a>(table: &'s Table<'a>, item: usize, holder: Holder) -> Spot<'s, 'a>
    ensures { spot_of result ≡ spot_in table.now item (holder_of holder) [] }
{
    Spot {
        table,
        item,
        holder,
        scope: Scope::Empty,
    }
}

/// Where the body of a task stands that has these parameters.
fn in_task<'s, 'a>(
    table: &'s Table<'a>,
    item: usize,
    parameters: &'s Parameters<'a>,
) -> Spot<'s, 'a>
    ensures { spot_of result ≡ spot_in table.now item in_task (map text_of_name parameters.now) }
{
    Spot {
        table,
        item,
        holder: Holder::Task,
        scope: Scope::Parameters(parameters),
    }
}

/// Refuses each parameter of the name of an earlier one.
fn repeated_names<'a>(parameters: &Parameters<'a>, best: Option<Found<'a>>) -> Option<Found<'a>>
    ensures { result ≡ first_with best.entry (repeated_names [] parameters.now) }
{
    let mut best = best;
    let repeated = parameters.repeated();
    for name in repeated {
        best = where_fails(best, true, Found::of(Fault::NameTwice, *name));
    }
    best
}

/// The first of what was found before and of the checks of a task that fail.
#[tactic(auto, using(crate::proofs::First::first_with_append))]
fn task<'a>(
    alloc: Global,
    table: &Table<'a>,
    item: usize,
    parameters: &'a [Name],
    body: &'a DraftTerm,
    best: Option<Found<'a>>,
) -> Result<Option<Found<'a>>, Memory>
    ensures { IfOk result (λ found. found ≡ first_with best.entry
        (form_faults table.now item (written_task parameters.now (draft_tree_of body.now)))) }
{
    match Parameters::new(alloc, parameters) {
        Ok(parameters) => {
            let best = repeated_names(&parameters, best);
            Ok(term(&in_task(table, item, &parameters), body, best))
        }
        Err(memory) => Err(memory),
    }
}

#[tactic(auto, using(crate::proofs::First::first_with_append))]
fn output<'a>(
    table: &Table<'a>,
    item: usize,
    written: &'a DraftOutput,
    best: Option<Found<'a>>,
) -> Option<Found<'a>>
    ensures { result ≡ first_with best.entry
        (output_faults table.now item (written_output written.now)) }
{
    let spot = whole(table, item, Holder::Other);
    let best = terms(&spot, written.keys.as_slice(), best);
    body(&spot, &written.body, best)
}

/// The first of what was found before and of the checks of a `reactive` that fail.
#[tactic(auto, using(crate::proofs::First::first_with_append))]
fn reactive<'a>(
    table: &Table<'a>,
    item: usize,
    keys: &'a [DraftTerm],
    written: &'a DraftBody,
    best: Option<Found<'a>>,
) -> Option<Found<'a>>
    ensures { result ≡ first_with best.entry
        (form_faults table.now item
        (written_reactive (draft_trees_of keys.now) (written_body written.now))) }
{
    let spot = whole(table, item, Holder::Expression);
    let best = terms(&spot, keys, best);
    body(&spot, written, best)
}

/// The first of what was found before and of the checks of an `event` that fail.
#[tactic(auto, using(crate::proofs::First::first_with_append))]
fn event<'a>(
    table: &Table<'a>,
    item: usize,
    event: &'a DraftTerm,
    written: &'a DraftBody,
    best: Option<Found<'a>>,
) -> Option<Found<'a>>
    ensures { result ≡ first_with best.entry
        (term_faults (spot_in table.now item in_expression []) (draft_tree_of event.now)
        ++ body_faults (spot_in table.now item in_expression []) (written_body written.now)) }
{
    let spot = whole(table, item, Holder::Expression);
    let best = term(&spot, event, best);
    body(&spot, written, best)
}

/// The first of what was found before and of the checks of an `on` that fail.
#[tactic(auto, using(crate::proofs::First::first_with_append))]
fn on<'a>(
    table: &Table<'a>,
    item: usize,
    event: &'a DraftTerm,
    written: &'a [DraftStatement],
    best: Option<Found<'a>>,
) -> Option<Found<'a>>
    ensures { result ≡ first_with best.entry
        (term_faults (spot_in table.now item elsewhere []) (draft_tree_of event.now)
        ++ acts_faults (spot_in table.now item elsewhere []) (draft_acts_of written.now)) }
{
    let spot = whole(table, item, Holder::Other);
    let best = term(&spot, event, best);
    block(&spot, written, best)
}

/// The first of what was found before and of the checks that fail behind an item's name.
fn form<'a>(
    alloc: Global,
    table: &Table<'a>,
    item: usize,
    written: &'a DraftForm,
    best: Option<Found<'a>>,
) -> Result<Option<Found<'a>>, Memory>
    ensures { IfOk result (λ found. found ≡ first_with best.entry
        (form_faults table.now item (written_form written.now))) }
{
    match written {
        DraftForm::Input(_) | DraftForm::Value(_) => Ok(best),
        DraftForm::Task { parameters, body } => {
            task(alloc, table, item, parameters.as_slice(), body, best)
        }
        DraftForm::Reactive { keys, body } => {
            Ok(reactive(table, item, keys.as_slice(), body, best))
        }
        DraftForm::Event {
            event: term,
            body,
            ..
        } => Ok(event(table, item, term, body, best)),
        DraftForm::Text(shown) => Ok(output(table, item, shown, best)),
        DraftForm::Plot(shown) => Ok(output(table, item, shown, best)),
        DraftForm::Observe { block: inner, .. } => {
            let spot = whole(table, item, Holder::Other);
            Ok(block(&spot, inner.as_slice(), best))
        }
        DraftForm::On { event, block, .. } => Ok(on(table, item, event, block.as_slice(), best)),
    }
}

/// Refuses an item of the name of an earlier one.
fn second_item<'a>(
    table: &Table<'a>,
    place: usize,
    written: &'a DraftItem,
    best: Option<Found<'a>>,
) -> Option<Found<'a>>
    requires { place ≤ length table.now }
    ensures { result ≡ first_with best.entry
        (second_item table.now place (written_item written.now)) }
{
    let second = table.is_named_before(place, &written.name.text);
    where_fails(best, second, Found::of(Fault::NameTwice, &written.name))
}

/// The first of what was found before and of the checks of the item at this place that fail.
#[tactic(auto, using(crate::proofs::First::first_with_append))]
fn item<'a>(
    alloc: Global,
    table: &Table<'a>,
    place: usize,
    written: &'a DraftItem,
    best: Option<Found<'a>>,
) -> Result<Option<Found<'a>>, Memory>
    requires { place ≤ length table.now }
    ensures { IfOk result (λ found. found ≡ first_with best.entry
        (item_faults table.now place (written_item written.now))) }
{
    let many = Found::at(Fault::TooManyItems, written.place);
    let best = where_fails(best, place == ITEM_LIMIT, many);
    let best = second_item(table, place, written, best);
    form(alloc, table, place, &written.form, best)
}

/// The same of the items, which declare no more than the table holds.
#[tactic(auto, using(crate::proofs::First::first_with_append))]
fn items<'a>(
    alloc: Global,
    table: &Table<'a>,
    written: &'a [DraftItem],
) -> Result<Option<Found<'a>>, Memory>
    requires { length written.now ≤ length table.now }
    ensures { IfOk result (λ found. found ≡ first_with None
        (items_faults table.now 0 (map written_item written.now))) }
{
    let mut best = None;
    for (place, inner) in written.iter().enumerate() {
        match item(alloc, table, place, inner, best) {
            Ok(found) => best = found,
            Err(memory) => return Err(memory),
        }
    }
    Ok(best)
}

/// Of the items behind the limit the first alone counts, since it is refused itself.
fn counted(written: &[DraftItem]) -> &[DraftItem]
    ensures { result.now ≡ take (suc ITEM_LIMIT) written.now }
{
    if written.len() <= ITEM_LIMIT {
        written
    } else {
        &written[..ITEM_LIMIT + 1]
    }
}

/// The first check of the items that fails, where the table holds what they declare.
pub fn first_found<'a>(
    alloc: Global,
    table: &Table<'a>,
    written: &'a [DraftItem],
) -> Result<Option<Found<'a>>, Memory>
    requires { table.now ≡ declarations (map written_item written.now) }
    ensures { IfOk result (λ found. found ≡ first_with None
        (items_faults table.now 0 (take (suc ITEM_LIMIT) (map written_item written.now)))) }
{
    items(alloc, table, counted(written))
}
