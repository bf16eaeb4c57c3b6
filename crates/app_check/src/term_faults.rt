//! The checks of terms.

ghost use Rattle.std.specs.Prelude.{◌≡◌, ◌++◌};
ghost use Rattle.app_tree.specs.Declarations.{declaration};
ghost use Rattle.app_tree.specs.Resolve.{sought_by};
ghost use Rattle.app_tree.specs.DraftTree.{isolate as written_isolate, choice as written_choice};
ghost use Rattle.app_tree.specs.DraftView.{draft_tree_of, draft_trees_of};
ghost use Rattle.app_tree.specs.Faults.{first_with, unknown_name, unbound_variable, is_forward, forward_read, in_task_fault, isolate_in_fold, fold_too_deep, same_variables, read_faults, term_faults, terms_faults, in_last_part};
ghost use Rattle.app_tree.specs.Sorts.{sorts_of};
ghost use Rattle.app_check.specs.inner.Tables.{without_name};
ghost use Rattle.app_check.specs.inner.Spots.{spot_of, is_declared_forward};

use crate::found::{Found, where_fails};
use crate::spot::Spot;
use crate::table::{Declaration, Table};
use app_tree::{DraftTerm, Fault, Name, ReadForm, Sort, Sorts};

/// What a read reads.
pub fn sought_by(form: ReadForm) -> Sorts
    ensures { sorts_of result ≡ sought_by form }
{
    match form {
        ReadForm::Input => Sorts::Inputs,
        ReadForm::Named => Sorts::Named,
        ReadForm::Status => Sorts::Tasks,
        ReadForm::Result => Sorts::Tasks,
        ReadForm::Width => Sorts::Outputs,
        ReadForm::Height => Sorts::Outputs,
    }
}

/// Refuses a name that is not declared in a sort that is sought.
#[tactic(auto, using(crate::proofs::WithoutName::is_none_without_name))]
pub fn unknown_name<'a>(
    table: &Table<'_>,
    sought: Sorts,
    name: &'a Name,
    best: Option<Found<'a>>,
) -> Option<Found<'a>>
    ensures { result ≡ first_with best.entry (unknown_name table.now (sorts_of sought) name.now) }
{
    let unknown = table.find(sought, &name.text).is_none();
    where_fails(best, unknown, Found::of(Fault::NameUnknown, name))
}

/// Whether what was found is the expression in which the read stands, or a later one.
fn is_forward(spot: &Spot<'_, '_>, found: Option<Declaration>) -> bool
    ensures { result ≡ is_declared_forward (spot_of spot.now) found }
{
    match found {
        Some(found) => {
            spot.holder.is_expression() && found.sort == Sort::Expression && spot.item <= found.item
        }
        None => false,
    }
}

/// Refuses the read of the expression in which it stands, or of a later one.
#[tactic(auto, using(crate::proofs::WithoutName::is_declared_forward_without_name))]
fn forward_read<'a>(
    spot: &Spot<'_, 'a>,
    form: ReadForm,
    name: &'a Name,
    best: Option<Found<'a>>,
) -> Option<Found<'a>>
    ensures { result ≡ first_with best.entry (forward_read (spot_of spot.now) form name.now) }
{
    let found = spot.table.find(sought_by(form), &name.text);
    let forward = is_forward(spot, found);
    where_fails(best, forward, Found::of(Fault::ForwardRead, name))
}

/// Refuses what may not stand in a task.
fn in_task<'a>(spot: &Spot<'_, 'a>, place: usize, best: Option<Found<'a>>) -> Option<Found<'a>>
    ensures { result ≡ first_with best.entry (in_task_fault (spot_of spot.now) place) }
{
    let fails = spot.holder.is_task();
    where_fails(best, fails, Found::at(Fault::ReadInTask, place))
}

#[tactic(auto, using(crate::proofs::First::first_with_append))]
fn read<'a>(
    spot: &Spot<'_, 'a>,
    form: ReadForm,
    place: usize,
    name: &'a Name,
    best: Option<Found<'a>>,
) -> Option<Found<'a>>
    ensures { result ≡ first_with best.entry (read_faults (spot_of spot.now) form place name.now) }
{
    let best = unknown_name(spot.table, sought_by(form), name, best);
    let best = in_task(spot, place, best);
    forward_read(spot, form, name, best)
}

#[tactic(auto, using(crate::proofs::First::unbound))]
fn variable<'a>(spot: &Spot<'_, 'a>, name: &'a Name, best: Option<Found<'a>>) -> Option<Found<'a>>
    ensures { result ≡ first_with best.entry (unbound_variable (spot_of spot.now) name.now) }
{
    let unbound = !spot.scope.binds(&name.text);
    where_fails(best, unbound, Found::of(Fault::NameUnknown, name))
}

/// Refuses `fold` where it may not stand, and variables of one name.
#[tactic(auto, using(crate::proofs::First::first_with_append))]
fn fold<'a>(
    spot: &Spot<'_, 'a>,
    place: usize,
    accumulator: &'a Name,
    element: &'a Name,
    best: Option<Found<'a>>,
) -> Option<Found<'a>>
    ensures { result ≡ first_with best.entry
        (fold_too_deep (spot_of spot.now) place ++ same_variables accumulator.now element.now) }
{
    let deep = spot.scope.is_in_inner_last_part();
    let best = where_fails(best, deep, Found::at(Fault::FoldTooDeep, place));
    let same = element.text.same(&accumulator.text);
    where_fails(best, same, Found::of(Fault::NameTwice, element))
}

/// The first of what was found before and of the checks of a term that fail.
#[cycle(term)]
#[tactic(auto, using(crate::proofs::First::first_with_append))]
pub fn term<'a>(
    spot: &Spot<'_, 'a>,
    written: &'a DraftTerm,
    best: Option<Found<'a>>,
) -> Option<Found<'a>>
    ensures { result ≡ first_with best.entry
        (term_faults (spot_of spot.now) (draft_tree_of written.now)) }
{
    match written {
        DraftTerm::Null | DraftTerm::Bool(_) | DraftTerm::Int(_) | DraftTerm::Text(_) => best,
        DraftTerm::Group(inner) => term(spot, inner.get(), best),
        DraftTerm::Read { form, place, name } => read(spot, *form, *place, name, best),
        DraftTerm::Variable(name) => variable(spot, name, best),
        DraftTerm::Isolate(place, inner) => isolate(spot, *place, inner.get(), best),
        DraftTerm::Stop(inner) => term(spot, inner.get(), best),
        DraftTerm::Require { term: inner, .. } => term(spot, inner.get(), best),
        DraftTerm::Fold {
            place,
            list,
            start,
            accumulator,
            element,
            body,
        } => {
            let best = fold(spot, *place, accumulator, element, best);
            let best = term(spot, list.get(), best);
            let best = term(spot, start.get(), best);
            last_part(spot, accumulator, element, body.get(), best)
        }
        DraftTerm::Unary(_, inner) => term(spot, inner.get(), best),
        DraftTerm::Binary(_, left, right) => binary(spot, left.get(), right.get(), best),
        DraftTerm::If {
            condition,
            chosen,
            otherwise,
        } => choice(spot, condition.get(), chosen.get(), otherwise.get(), best),
        DraftTerm::Call(_, arguments) => terms(spot, arguments.as_slice(), best),
    }
}

/// Refuses `isolate` where it may not stand, and what is wrong within it.
#[cycle(term)]
#[tactic(auto, using(crate::proofs::First::first_with_append))]
fn isolate<'a>(
    spot: &Spot<'_, 'a>,
    place: usize,
    inner: &'a DraftTerm,
    best: Option<Found<'a>>,
) -> Option<Found<'a>>
    ensures { result ≡ first_with best.entry
        (term_faults (spot_of spot.now) (written_isolate place (draft_tree_of inner.now))) }
{
    let best = in_task(spot, place, best);
    let fails = spot.scope.is_in_last_part();
    let best = where_fails(best, fails, Found::at(Fault::IsolateInFold, place));
    term(spot, inner, best)
}

#[cycle(term)]
#[tactic(auto, using(crate::proofs::First::first_with_append))]
fn binary<'a>(
    spot: &Spot<'_, 'a>,
    left: &'a DraftTerm,
    right: &'a DraftTerm,
    best: Option<Found<'a>>,
) -> Option<Found<'a>>
    ensures { result ≡ first_with best.entry
        (term_faults (spot_of spot.now) (draft_tree_of left.now)
        ++ term_faults (spot_of spot.now) (draft_tree_of right.now)) }
{
    let best = term(spot, left, best);
    term(spot, right, best)
}

#[cycle(term)]
#[tactic(auto, using(crate::proofs::First::first_with_append))]
fn choice<'a>(
    spot: &Spot<'_, 'a>,
    condition: &'a DraftTerm,
    chosen: &'a DraftTerm,
    otherwise: &'a DraftTerm,
    best: Option<Found<'a>>,
) -> Option<Found<'a>>
    ensures { result ≡ first_with best.entry (term_faults (spot_of spot.now) (written_choice
        (draft_tree_of condition.now) (draft_tree_of chosen.now) (draft_tree_of otherwise.now))) }
{
    let best = term(spot, condition, best);
    let best = term(spot, chosen, best);
    term(spot, otherwise, best)
}

/// The last part of a fold, in which its variables are bound.
#[cycle(term)]
fn last_part<'a>(
    spot: &Spot<'_, 'a>,
    accumulator: &'a Name,
    element: &'a Name,
    body: &'a DraftTerm,
    best: Option<Found<'a>>,
) -> Option<Found<'a>>
    ensures { result ≡ first_with best.entry (term_faults
        (in_last_part (spot_of spot.now) accumulator.now element.now) (draft_tree_of body.now)) }
{
    let inside = Spot {
        table: spot.table,
        item: spot.item,
        holder: spot.holder,
        scope: spot.scope.in_last_part(accumulator, element),
    };
    term(&inside, body, best)
}

/// The same of each of these terms.
#[cycle(term)]
#[tactic(auto, using(crate::proofs::First::first_with_append))]
pub fn terms<'a>(
    spot: &Spot<'_, 'a>,
    written: &'a [DraftTerm],
    best: Option<Found<'a>>,
) -> Option<Found<'a>>
    ensures { result ≡ first_with best.entry
        (terms_faults (spot_of spot.now) (draft_trees_of written.now)) }
{
    let mut best = best;
    'terms: for inner in written {
        best = term(spot, inner, best);
    }
    best
}
