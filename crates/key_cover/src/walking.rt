//! The walk of a cached reader's body, in the order of the text.

ghost use Rattle.std.specs.Prelude.{◌≡◌, ◌<◌, ◌↔◌, Some, true, length};
ghost use Rattle.app_tree.specs.Cover.{is_key, with_keys, is_covered};
ghost use Rattle.app_tree.specs.Evaluate.{site_count};
ghost use Rattle.app_tree.specs.Numbering.{readers, reader};
ghost use Rattle.app_tree.specs.Tree.{no_trees, tree};
ghost use Rattle.app_tree.specs.View.{node_of, shape_of, tree_of, trees_of_terms};
ghost use Rattle.key_cover.specs.declared.coverage.Coverage.TheVariants.{Covered as covered, Isolated as isolated};
ghost use Rattle.key_cover.specs.Met.{first_of, met_in_node, met_by, first_met};
ghost use Rattle.key_cover.specs.inner.Walked.{met_at};
ghost use Rattle.key_cover.specs.inner.Walks.{app_of, keys_of, before, met_for_read, met_for, met_for_all, IsMarked, IsWithin};

use crate::coverage::Coverage;
use app_tree::{App, ITEM_LIMIT, Item, Read, Term};

/// The app, and the keys by which it is walked.
#[derive(Clone, Copy)]
pub struct Walk<'a> {
    app: &'a App,
    keys: &'a [Term],
}

/// Whether the key is this read itself.
fn is_this(key: &Term, read: Read) -> bool
    ensures { result ≡ is_key (tree (tree_of key.now) no_trees) read }
{
    match key {
        Term::Get(other) => *other == read,
        _ => false,
    }
}

/// Whether one of the keys is this read.
fn is_key(keys: &[Term], read: Read) -> bool
    ensures { result ≡ is_key (trees_of_terms keys.now) read }
{
    'every: for key in keys {
        if is_this(key, read) {
            return true;
        }
    }
    false
}

/// Walks two terms, one after the other.
#[cycle(walk)]
fn two(walk: &Walk<'_>, below: u32, first: &Term, second: &Term, marks: &mut [bool]) -> Coverage
    requires within { IsWithin walk.now below }
    requires marked { IsMarked walk.now marks.old }
    ensures met { result ≡ first_of (met_for walk.now below (tree_of first.now))
        (met_for walk.now below (tree_of second.now)) }
    ensures marked { IsMarked walk.now marks.new }
{
    match term(walk, below, first, marks) {
        Coverage::Covered => term(walk, below, second, marks),
        met => met,
    }
}

#[cycle(walk)]
fn three(
    walk: &Walk<'_>,
    below: u32,
    first: &Term,
    second: &Term,
    third: &Term,
    marks: &mut [bool],
) -> Coverage
    requires within { IsWithin walk.now below }
    requires marked { IsMarked walk.now marks.old }
    ensures met { result ≡ first_of (met_for walk.now below (tree_of first.now))
        (first_of (met_for walk.now below (tree_of second.now))
        (met_for walk.now below (tree_of third.now))) }
    ensures marked { IsMarked walk.now marks.new }
{
    match term(walk, below, first, marks) {
        Coverage::Covered => two(walk, below, second, third, marks),
        met => met,
    }
}

#[cycle(walk)]
fn all(walk: &Walk<'_>, below: u32, terms: &[Term], marks: &mut [bool]) -> Coverage
    requires within { IsWithin walk.now below }
    requires marked { IsMarked walk.now marks.old }
    ensures met { result ≡ met_for_all walk.now below (trees_of_terms terms.now) }
    ensures marked { IsMarked walk.now marks.new }
{
    'terms: for inner in terms {
        match term(walk, below, inner, marks) {
            Coverage::Covered => {}
            met => return met,
        }
    }
    Coverage::Covered
}

/// Walks a term. The readers of a number below this one stand before it.
#[cycle(walk)]
fn term(walk: &Walk<'_>, below: u32, inner: &Term, marks: &mut [bool]) -> Coverage
    requires within { IsWithin walk.now below }
    requires marked { IsMarked walk.now marks.old }
    ensures met { result ≡ met_for walk.now below (tree_of inner.now) }
    ensures marked { IsMarked walk.now marks.new }
{
    match inner {
        Term::Null | Term::Bool(_) | Term::Int(_) | Term::Text(_) => Coverage::Covered,
        Term::Variable(_) => Coverage::Covered,
        Term::Group(part) => term(walk, below, part.get(), marks),
        Term::Get(what) => read(walk, below, *what, marks),
        Term::Isolate(site, _) => Coverage::Isolated(*site),
        Term::Stop(part) => term(walk, below, part.get(), marks),
        Term::Require { term: part, .. } => term(walk, below, part.get(), marks),
        Term::Fold {
            list,
            start,
            body,
            ..
        } => three(walk, below, list.get(), start.get(), body.get(), marks),
        Term::Unary(_, part) => term(walk, below, part.get(), marks),
        Term::Binary(_, left, right) => two(walk, below, left.get(), right.get(), marks),
        Term::If {
            condition,
            chosen,
            otherwise,
        } => three(
            walk,
            below,
            condition.get(),
            chosen.get(),
            otherwise.get(),
            marks,
        ),
        Term::Call(_, arguments) => all(walk, below, arguments.as_slice(), marks),
    }
}

/// Walks what stands in the place of a read, unless a key covers it.
#[cycle(walk)]
fn read(walk: &Walk<'_>, below: u32, what: Read, marks: &mut [bool]) -> Coverage
    requires within { IsWithin walk.now below }
    requires marked { IsMarked walk.now marks.old }
    ensures met { result ≡ met_for_read walk.now below what }
    ensures marked { IsMarked walk.now marks.new }
{
    if is_key(walk.keys, what) {
        return Coverage::Covered;
    }
    match what {
        Read::Expr(number) => {
            if number < below {
                once(walk, number, marks)
            } else {
                Coverage::Missing(what)
            }
        }
        _ => Coverage::Missing(what),
    }
}

/// Walks the reader of this number, unless it was walked already.
#[cycle(walk)]
fn once(walk: &Walk<'_>, number: u32, marks: &mut [bool]) -> Coverage
    requires within { number < length (readers (app_of walk.now)) }
    requires marked { IsMarked walk.now marks.old }
    ensures met { result ≡ met_at (app_of walk.now) (keys_of walk.now) number }
    ensures marked { IsMarked walk.now marks.new }
{
    if marks[number as usize] {
        return Coverage::Covered;
    }
    let met = item(walk, number, walk.app.reader(number), marks);
    if met == Coverage::Covered {
        marks[number as usize] = true;
    }
    met
}

/// Walks the reader of this number, which is this item.
#[cycle(walk)]
fn item(walk: &Walk<'_>, number: u32, inner: &Item, marks: &mut [bool]) -> Coverage
    requires within { IsWithin walk.now number }
    requires marked { IsMarked walk.now marks.old }
    ensures met { result ≡ met_in_node (keys_of walk.now) (before walk.now number) number
        (Some (node_of inner.now)) }
    ensures marked { IsMarked walk.now marks.new }
{
    match inner {
        Item::Reactive { keys, body, .. } => reactive(walk, number, keys.as_slice(), body, marks),
        Item::Event { event, .. } => site_behind(walk, number, event, marks),
        _ => Coverage::Missing(Read::Expr(number)),
    }
}

/// Walks the keys of an expression, and then its body.
#[cycle(walk)]
fn reactive(
    walk: &Walk<'_>,
    number: u32,
    keys: &[Term],
    body: &Term,
    marks: &mut [bool],
) -> Coverage
    requires within { IsWithin walk.now number }
    requires marked { IsMarked walk.now marks.old }
    ensures met { result ≡ first_of (met_for_all walk.now number (trees_of_terms keys.now))
        (met_for walk.now number (tree_of body.now)) }
    ensures marked { IsMarked walk.now marks.new }
{
    match all(walk, number, keys, marks) {
        Coverage::Covered => term(walk, number, body, marks),
        met => met,
    }
}

/// Walks the event term of an event. Its body is the next site, and where nothing was met, no other site
/// stands before.
#[cycle(walk)]
fn site_behind(walk: &Walk<'_>, number: u32, event: &Term, marks: &mut [bool]) -> Coverage
    requires within { IsWithin walk.now number }
    requires marked { IsMarked walk.now marks.old }
    ensures met { result ≡ first_of (met_for walk.now number (tree_of event.now))
        (isolated (site_count (tree_of event.now))) }
    ensures marked { IsMarked walk.now marks.new }
{
    match term(walk, number, event, marks) {
        Coverage::Covered => Coverage::Isolated(0),
        met => met,
    }
}

/// Walks the body by these keys, where there are any.
fn body(app: &App, keys: &[Term], body: &Term) -> Coverage
    ensures { result ≡ met_by (shape_of app.now)
        (with_keys (trees_of_terms keys.now) (tree_of body.now)) }
{
    if keys.is_empty() {
        return Coverage::Covered;
    }
    let walk = Walk { app, keys };
    let mut marks = [false; ITEM_LIMIT];
    term(&walk, app.readers(), body, &mut marks)
}

fn first_met(app: &App, node: u32) -> Coverage
    requires { node < length (readers (shape_of app.now)) }
    ensures { result ≡ first_met (shape_of app.now) node }
{
    match app.reader(node) {
        Item::Reactive {
            keys,
            body: term,
            ..
        } => body(app, keys.as_slice(), term),
        Item::Text { output, .. } => body(app, output.keys.as_slice(), &output.body),
        Item::Plot { output, .. } => body(app, output.keys.as_slice(), &output.body),
        _ => Coverage::Covered,
    }
}

/// What is met first in the body of this reader that its keys don't cover, in the order of the text. Nothing
/// is met in a reader that isn't cached.
///
/// A read that is itself a key is covered; a key in brackets is none. In the place of another read of an
/// expression stands what that expression reads: its keys and then its body, of an event its event term and
/// then the site of its body. Each part of a term counts, also one that isn't taken. An expression is walked
/// at most once, and no memory is taken.
pub fn cover(app: &App, node: u32) -> Coverage
    requires { node < length (readers (shape_of app.now)) }
    ensures first { result ≡ first_met (shape_of app.now) node }
    ensures covered { (result ≡ covered) ↔ (is_covered (shape_of app.now) node ≡ true) }
{
    first_met(app, node)
}
