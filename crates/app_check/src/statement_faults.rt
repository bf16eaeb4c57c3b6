//! The checks of writes, statements and bodies.

ghost use Rattle.std.specs.Prelude.{◌≡◌, map};
ghost use Rattle.app_tree.specs.DraftView.{draft_tree_of, draft_trees_of, deed_of, write_of, draft_act_of, draft_acts_of, written_body};
ghost use Rattle.app_tree.specs.Faults.{first_with, argument_count_fault, deed_faults, act_faults, acts_faults, write_faults, writes_faults, body_faults};
ghost use Rattle.app_check.specs.inner.Tables.{has_other_count};
ghost use Rattle.app_check.specs.inner.Spots.{spot_of};

use crate::found::{Found, where_fails};
use crate::spot::Spot;
use crate::table::{Declaration, Table};
use crate::term_faults::{term, terms, unknown_name};
use app_tree::{DraftAction, DraftBody, DraftStatement, DraftWrite, Fault, Name, Sorts};

/// Whether the task that was found has another number of parameters.
fn is_other_count(count: usize, found: Option<Declaration>) -> bool
    ensures { result ≡ has_other_count count found }
{
    match found {
        Some(found) => found.parameters != count,
        None => false,
    }
}

/// Refuses another number of arguments than the task has.
#[tactic(auto, using(crate::proofs::WithoutName::has_other_count_without_name))]
fn argument_count<'a>(
    table: &Table<'_>,
    name: &'a Name,
    count: usize,
    best: Option<Found<'a>>,
) -> Option<Found<'a>>
    ensures { result ≡ first_with best.entry (argument_count_fault table.now name.now count) }
{
    let other = is_other_count(count, table.find(Sorts::Tasks, &name.text));
    where_fails(best, other, Found::of(Fault::ArgCount, name))
}

/// The first of what was found before and of the checks of a write that fail.
#[tactic(auto, using(crate::proofs::First::first_with_append, crate::proofs::Counted::tree_count_of))]
fn action<'a>(
    spot: &Spot<'_, 'a>,
    written: &'a DraftAction,
    best: Option<Found<'a>>,
) -> Option<Found<'a>>
    ensures { result ≡ first_with best.entry
        (deed_faults (spot_of spot.now) (deed_of written.now)) }
{
    match written {
        DraftAction::Set(name, value) => {
            let best = unknown_name(spot.table, Sorts::Values, name, best);
            term(spot, value, best)
        }
        DraftAction::Invoke(name, arguments) => {
            let best = unknown_name(spot.table, Sorts::Tasks, name, best);
            let best = argument_count(spot.table, name, arguments.len(), best);
            terms(spot, arguments.as_slice(), best)
        }
        DraftAction::Update(name, value) => {
            let best = unknown_name(spot.table, Sorts::Inputs, name, best);
            term(spot, value, best)
        }
        DraftAction::Freeze(name) => unknown_name(spot.table, Sorts::Inputs, name, best),
    }
}

#[cycle(statement)]
#[tactic(auto, using(crate::proofs::First::first_with_append))]
fn statement<'a>(
    spot: &Spot<'_, 'a>,
    written: &'a DraftStatement,
    best: Option<Found<'a>>,
) -> Option<Found<'a>>
    ensures { result ≡ first_with best.entry
        (act_faults (spot_of spot.now) (draft_act_of written.now)) }
{
    match written {
        DraftStatement::Write(write) => action(spot, &write.action, best),
        DraftStatement::Do(value) => term(spot, value, best),
        DraftStatement::If(condition, chosen) => {
            let best = term(spot, condition, best);
            block(spot, chosen.as_slice(), best)
        }
        DraftStatement::IfElse(condition, chosen, otherwise) => {
            let best = term(spot, condition, best);
            let best = block(spot, chosen.as_slice(), best);
            block(spot, otherwise.as_slice(), best)
        }
    }
}

/// The first of what was found before and of the checks of a block that fail.
#[cycle(statement)]
pub fn block<'a>(
    spot: &Spot<'_, 'a>,
    written: &'a [DraftStatement],
    best: Option<Found<'a>>,
) -> Option<Found<'a>>
    ensures { result ≡ first_with best.entry
        (acts_faults (spot_of spot.now) (draft_acts_of written.now)) }
{
    let mut best = best;
    'statements: for inner in written {
        best = statement(spot, inner, best);
    }
    best
}

/// Refuses a write in a body, and what is wrong within it.
fn write<'a>(
    spot: &Spot<'_, 'a>,
    written: &'a DraftWrite,
    best: Option<Found<'a>>,
) -> Option<Found<'a>>
    ensures { result ≡ first_with best.entry
        (write_faults (spot_of spot.now) (write_of written.now)) }
{
    let best = where_fails(best, true, Found::at(Fault::WriteInExpr, written.place));
    action(spot, &written.action, best)
}

#[tactic(auto, using(crate::proofs::First::first_with_append))]
fn writes<'a>(
    spot: &Spot<'_, 'a>,
    written: &'a [DraftWrite],
    best: Option<Found<'a>>,
) -> Option<Found<'a>>
    ensures { result ≡ first_with best.entry
        (writes_faults (spot_of spot.now) (map write_of written.now)) }
{
    let mut best = best;
    'writes: for inner in written {
        best = write(spot, inner, best);
    }
    best
}

/// The first of what was found before and of the checks of a body that fail.
#[tactic(auto, using(crate::proofs::First::first_with_append))]
pub fn body<'a>(
    spot: &Spot<'_, 'a>,
    written: &'a DraftBody,
    best: Option<Found<'a>>,
) -> Option<Found<'a>>
    ensures { result ≡ first_with best.entry
        (body_faults (spot_of spot.now) (written_body written.now)) }
{
    let best = writes(spot, written.writes.as_slice(), best);
    term(spot, &written.term, best)
}
