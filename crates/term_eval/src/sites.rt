ghost use Rattle.std.specs.Prelude.{◌≡◌, ◌+◌, IfOk};
ghost use Rattle.app_tree.specs.View.{tree_of, trees_of_terms};
ghost use Rattle.app_tree.specs.Evaluate.{site_count, site_count_all};

use app_tree::Term;
use rx_value::Memory;

/// More sites than can be counted find no memory either.
fn both(sites: usize, more: usize) -> Result<usize, Memory>
    ensures { IfOk result (λ count. count ≡ sites + more) }
{
    match sites.checked_add(more) {
        Some(count) => Ok(count),
        None => Err(Memory),
    }
}

/// How many sites stand in all these terms.
#[cycle(sites)]
fn sites_in_all(terms: &[Term]) -> Result<usize, Memory>
    ensures { IfOk result (λ count. count ≡ site_count_all (trees_of_terms terms.now)) }
{
    let mut count = 0;
    for term in terms {
        count = both(count, sites_in(term)?)?;
    }
    Ok(count)
}

/// How many isolated sites stand in a term, also within one another.
#[cycle(sites)]
pub fn sites_in(term: &Term) -> Result<usize, Memory>
    ensures { IfOk result (λ count. count ≡ site_count (tree_of term.now)) }
{
    match term {
        Term::Null => Ok(0),
        Term::Bool(_) => Ok(0),
        Term::Int(_) => Ok(0),
        Term::Text(_) => Ok(0),
        Term::Get(_) => Ok(0),
        Term::Variable(_) => Ok(0),
        Term::Group(inner) => sites_in(inner.get()),
        Term::Isolate(_, inner) => both(sites_in(inner.get())?, 1),
        Term::Stop(inner) => sites_in(inner.get()),
        Term::Require { term: inner, .. } => sites_in(inner.get()),
        Term::Unary(_, inner) => sites_in(inner.get()),
        Term::Fold {
            list,
            start,
            body,
            ..
        } => {
            let before = both(sites_in(list.get())?, sites_in(start.get())?)?;
            both(before, sites_in(body.get())?)
        }
        Term::Binary(_, left, right) => both(sites_in(left.get())?, sites_in(right.get())?),
        Term::If {
            condition,
            chosen,
            otherwise,
        } => {
            let before = both(sites_in(condition.get())?, sites_in(chosen.get())?)?;
            both(before, sites_in(otherwise.get())?)
        }
        Term::Call(_, arguments) => sites_in_all(arguments.as_slice()),
    }
}
