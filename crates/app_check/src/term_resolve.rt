//! Terms with numbers in place of names.

ghost use Rattle.std.specs.Prelude.{◌≡◌, IfOk};
ghost use Rattle.app_tree.specs.Tree.{fold as folded};
ghost use Rattle.app_tree.specs.View.{tree_of, trees_of_terms};
ghost use Rattle.app_tree.specs.DraftTree.{isolate as written_isolate, require as written_require, fold as written_fold, unary as written_unary, binary as written_binary, choice as written_choice, call as written_call};
ghost use Rattle.app_tree.specs.DraftView.{draft_tree_of, draft_trees_of};
ghost use Rattle.app_check.specs.inner.Resolving.{tree_made, trees_made, last_part_made};

use crate::resolver::Resolver;
use app_tree::{DraftTerm, DraftTerms, Function, Name, Operator, Term, Terms};
use rx_value::{Memory, UnOp};
use sqlite_items::{Boxed, Items};
use std::alloc::Global;

/// The term that is written, with numbers in place of names.
#[cycle(term)]
pub fn term<'a>(
    alloc: Global,
    resolver: &mut Resolver<'_, 'a>,
    written: &'a DraftTerm,
) -> Result<Term, Memory>
    ensures { IfOk result (λ made. (tree_of made, resolver.new)
        ≡ tree_made resolver.old (draft_tree_of written.now)) }
{
    match written {
        DraftTerm::Null => Ok(Term::Null),
        DraftTerm::Bool(truth) => Ok(Term::Bool(*truth)),
        DraftTerm::Int(number) => Ok(Term::Int(*number)),
        DraftTerm::Text(text) => Ok(Term::Text(text.copy(alloc)?)),
        DraftTerm::Group(inner) => Ok(Term::Group(inside(alloc, resolver, inner)?)),
        DraftTerm::Read { form, name, .. } => Ok(Term::Get(resolver.read(*form, name))),
        DraftTerm::Variable(name) => Ok(Term::Variable(resolver.variable(name))),
        DraftTerm::Isolate(_, inner) => isolate(alloc, resolver, inner),
        DraftTerm::Stop(inner) => Ok(Term::Stop(inside(alloc, resolver, inner)?)),
        DraftTerm::Require { term, cancels } => require(alloc, resolver, term, *cancels),
        DraftTerm::Fold {
            list,
            start,
            accumulator,
            element,
            body,
            ..
        } => fold(alloc, resolver, list, start, accumulator, element, body),
        DraftTerm::Unary(operator, inner) => unary(alloc, resolver, *operator, inner),
        DraftTerm::Binary(operator, left, right) => binary(alloc, resolver, *operator, left, right),
        DraftTerm::If {
            condition,
            chosen,
            otherwise,
        } => choice(alloc, resolver, condition, chosen, otherwise),
        DraftTerm::Call(function, arguments) => call(alloc, resolver, *function, arguments),
    }
}

/// A site and the term in it, whose sites have the numbers behind its own. Its place, on which nothing here
/// depends, is left out as 0.
#[cycle(term)]
#[tactic(auto, using(crate::proofs::Made::behind_more))]
fn isolate<'a>(
    alloc: Global,
    resolver: &mut Resolver<'_, 'a>,
    inner: &'a Boxed<DraftTerm>,
) -> Result<Term, Memory>
    ensures { IfOk result (λ made. (tree_of made, resolver.new)
        ≡ tree_made resolver.old (written_isolate 0 (draft_tree_of inner.now))) }
{
    let site = resolver.next_site()?;
    let inner = inside(alloc, resolver, inner)?;
    Ok(Term::Isolate(site, inner))
}

#[cycle(term)]
fn require<'a>(
    alloc: Global,
    resolver: &mut Resolver<'_, 'a>,
    inner: &'a Boxed<DraftTerm>,
    cancels: bool,
) -> Result<Term, Memory>
    ensures { IfOk result (λ made. (tree_of made, resolver.new)
        ≡ tree_made resolver.old (written_require (draft_tree_of inner.now) cancels)) }
{
    let term = inside(alloc, resolver, inner)?;
    Ok(Term::Require { term, cancels })
}

/// A fold. Its place, on which nothing here depends, is left out as 0.
#[cycle(term)]
#[tactic(auto, using(crate::proofs::Made::behind_more))]
fn fold<'a>(
    alloc: Global,
    resolver: &mut Resolver<'_, 'a>,
    list: &'a Boxed<DraftTerm>,
    start: &'a Boxed<DraftTerm>,
    accumulator: &'a Name,
    element: &'a Name,
    body: &'a Boxed<DraftTerm>,
) -> Result<Term, Memory>
    ensures { IfOk result (λ made. (tree_of made, resolver.new)
        ≡ tree_made resolver.old (written_fold 0 (draft_tree_of list.now) (draft_tree_of start.now)
        accumulator.now element.now (draft_tree_of body.now))) }
{
    let list = inside(alloc, resolver, list)?;
    let start = inside(alloc, resolver, start)?;
    let body = last_part(alloc, resolver, accumulator, element, body)?;
    fold_of(alloc, list, start, accumulator, element, body)
}

#[cycle(term)]
fn unary<'a>(
    alloc: Global,
    resolver: &mut Resolver<'_, 'a>,
    operator: UnOp,
    inner: &'a Boxed<DraftTerm>,
) -> Result<Term, Memory>
    ensures { IfOk result (λ made. (tree_of made, resolver.new)
        ≡ tree_made resolver.old (written_unary operator (draft_tree_of inner.now))) }
{
    let inner = inside(alloc, resolver, inner)?;
    Ok(Term::Unary(operator, inner))
}

#[cycle(term)]
#[tactic(auto, using(crate::proofs::Made::behind_more))]
fn binary<'a>(
    alloc: Global,
    resolver: &mut Resolver<'_, 'a>,
    operator: Operator,
    left: &'a Boxed<DraftTerm>,
    right: &'a Boxed<DraftTerm>,
) -> Result<Term, Memory>
    ensures { IfOk result (λ made. (tree_of made, resolver.new)
        ≡ tree_made resolver.old
        (written_binary operator (draft_tree_of left.now) (draft_tree_of right.now))) }
{
    let left = inside(alloc, resolver, left)?;
    let right = inside(alloc, resolver, right)?;
    Ok(Term::Binary(operator, left, right))
}

#[cycle(term)]
#[tactic(auto, using(crate::proofs::Made::behind_more))]
fn choice<'a>(
    alloc: Global,
    resolver: &mut Resolver<'_, 'a>,
    condition: &'a Boxed<DraftTerm>,
    chosen: &'a Boxed<DraftTerm>,
    otherwise: &'a Boxed<DraftTerm>,
) -> Result<Term, Memory>
    ensures { IfOk result (λ made. (tree_of made, resolver.new)
        ≡ tree_made resolver.old (written_choice
        (draft_tree_of condition.now) (draft_tree_of chosen.now) (draft_tree_of otherwise.now))) }
{
    let condition = inside(alloc, resolver, condition)?;
    let chosen = inside(alloc, resolver, chosen)?;
    let otherwise = inside(alloc, resolver, otherwise)?;
    Ok(Term::If {
        condition,
        chosen,
        otherwise,
    })
}

/// A term inside another one.
#[cycle(term)]
fn inside<'a>(
    alloc: Global,
    resolver: &mut Resolver<'_, 'a>,
    written: &'a Boxed<DraftTerm>,
) -> Result<Boxed<Term>, Memory>
    ensures { IfOk result (λ made. (tree_of made, resolver.new)
        ≡ tree_made resolver.old (draft_tree_of written.now)) }
{
    let made = term(alloc, resolver, written.get())?;
    Ok(Boxed::new(alloc, made)?)
}

/// The last part of a fold, in which its variables are bound.
#[cycle(term)]
fn last_part<'a>(
    alloc: Global,
    resolver: &mut Resolver<'_, 'a>,
    accumulator: &'a Name,
    element: &'a Name,
    body: &'a Boxed<DraftTerm>,
) -> Result<Boxed<Term>, Memory>
    ensures { IfOk result (λ made. (tree_of made, resolver.new)
        ≡ last_part_made resolver.old
        accumulator.now.text element.now.text (draft_tree_of body.now)) }
{
    let outside = resolver.count();
    resolver.bind(accumulator, element)?;
    let made = inside(alloc, resolver, body)?;
    resolver.unbind(outside);
    Ok(made)
}

fn fold_of(
    alloc: Global,
    list: Boxed<Term>,
    start: Boxed<Term>,
    accumulator: &Name,
    element: &Name,
    body: Boxed<Term>,
) -> Result<Term, Memory>
    ensures { IfOk result (λ made. tree_of made ≡ folded (tree_of list) (tree_of start)
        accumulator.now.text element.now.text (tree_of body)) }
{
    let accumulator = accumulator.text.copy(alloc)?;
    let element = element.text.copy(alloc)?;
    Ok(Term::Fold {
        list,
        start,
        accumulator,
        element,
        body,
    })
}

#[cycle(term)]
fn call<'a>(
    alloc: Global,
    resolver: &mut Resolver<'_, 'a>,
    function: Function,
    arguments: &'a DraftTerms,
) -> Result<Term, Memory>
    ensures { IfOk result (λ made. (tree_of made, resolver.new)
        ≡ tree_made resolver.old (written_call function (draft_trees_of arguments.now))) }
{
    let arguments = terms(alloc, resolver, arguments.as_slice())?;
    Ok(Term::Call(function, arguments))
}

/// The same of each of these terms.
#[cycle(term)]
pub fn terms<'a>(
    alloc: Global,
    resolver: &mut Resolver<'_, 'a>,
    written: &'a [DraftTerm],
) -> Result<Terms, Memory>
    ensures { IfOk result (λ made. (trees_of_terms made, resolver.new)
        ≡ trees_made resolver.old (draft_trees_of written.now)) }
{
    let mut made = Items::new(alloc);
    'terms: for inner in written {
        made.push(term(alloc, resolver, inner)?)?;
    }
    Ok(made)
}
