//! Terms.

ghost use Rattle.std.specs.Prelude.{◌≡◌, ◌++◌, OnOk, codes};
ghost use Rattle.app_tree.specs.View.{tree_of, trees_of_terms};
ghost use Rattle.app_printer.specs.inner.Names.{names_inside};
ghost use Rattle.app_printer.specs.Canonical.{operator_text, sign_text, function_text, cancels_text};
ghost use Rattle.app_printer.specs.inner.Written.{text_in, texts_in};

use crate::constants::{write_number, write_text, write_truth};
use crate::scope::Scope;
use crate::words::{function_text, operator_text, sign_text};
use app_tree::{Function, Operator, Term};
use read_text::{write_enclosed, write_read};
use rx_value::{Memory, RxText, UnOp};

fn write_operator(operator: Operator, out: &mut RxText) -> Result<(), Memory>
    ensures { OnOk result (out.new ≡ out.old ++ (codes " " ++ operator_text operator ++ codes " ")) }
{
    write_enclosed(" ", operator_text(operator), " ", out)
}

fn write_cancels(cancels: bool, out: &mut RxText) -> Result<(), Memory>
    ensures { OnOk result (out.new ≡ out.old ++ cancels_text cancels) }
{
    if cancels {
        out.push_str(", cancelOutput")
    } else {
        Ok(())
    }
}

/// Writes the two variables of a fold, and the commas around them.
fn write_variables(accumulator: &RxText, element: &RxText, out: &mut RxText) -> Result<(), Memory>
    ensures { OnOk result (out.new ≡ out.old ++ (codes ", " ++ accumulator.now ++ codes ", "
        ++ element.now ++ codes ", ")) }
{
    write_enclosed(", ", accumulator.as_str(), ", ", out)?;
    write_enclosed("", element.as_str(), ", ", out)
}

/// Writes a term and a fixed text behind it.
#[cycle(term)]
pub fn write_before<'a>(
    scope: &Scope<'_, 'a>,
    term: &'a Term,
    after: &str,
    out: &mut RxText,
) -> Result<(), Memory>
    ensures { OnOk result (out.new ≡ out.old ++ (text_in scope.now (tree_of term.now) ++ after.now)) }
{
    write_term(scope, term, out)?;
    out.push_str(after)
}

/// Writes a term between a fixed text and the bracket that closes it.
#[cycle(term)]
fn write_in_brackets<'a>(
    before: &str,
    scope: &Scope<'_, 'a>,
    term: &'a Term,
    out: &mut RxText,
) -> Result<(), Memory>
    ensures { OnOk result (out.new ≡ out.old ++ (before.now ++ text_in scope.now (tree_of term.now)
        ++ codes ")")) }
{
    out.push_str(before)?;
    write_before(scope, term, ")", out)
}

/// Writes terms with a comma between each two.
#[cycle(term)]
pub fn write_terms<'a>(
    scope: &Scope<'_, 'a>,
    terms: &'a [Term],
    out: &mut RxText,
) -> Result<(), Memory>
    ensures { OnOk result (out.new ≡ out.old ++ texts_in scope.now (trees_of_terms terms.now)) }
{
    let [first, later @ ..] = terms else {
        return Ok(());
    };
    write_term(scope, first, out)?;
    for term in later {
        out.push_str(", ")?;
        write_term(scope, term, out)?;
    }
    Ok(())
}

#[cycle(term)]
fn write_require<'a>(
    scope: &Scope<'_, 'a>,
    term: &'a Term,
    cancels: bool,
    out: &mut RxText,
) -> Result<(), Memory>
    ensures { OnOk result (out.new ≡ out.old ++ (codes "req(" ++ text_in scope.now (tree_of term.now)
        ++ cancels_text cancels ++ codes ")")) }
{
    out.push_str("req(")?;
    write_term(scope, term, out)?;
    write_cancels(cancels, out)?;
    out.push_str(")")
}

/// Writes the last part of a fold, where its variables are in scope, and what closes the fold.
#[cycle(term)]
fn write_last_part<'a>(
    scope: &Scope<'_, 'a>,
    accumulator: &'a RxText,
    element: &'a RxText,
    body: &'a Term,
    out: &mut RxText,
) -> Result<(), Memory>
    ensures { OnOk result (out.new ≡ out.old ++ (codes ", " ++ accumulator.now ++ codes ", "
        ++ element.now ++ codes ", "
        ++ text_in (names_inside scope.now accumulator.now element.now) (tree_of body.now)
        ++ codes ")")) }
{
    write_variables(accumulator, element, out)?;
    let inner = scope.inside(accumulator, element)?;
    write_before(&inner, body, ")", out)
}

#[cycle(term)]
fn write_unary<'a>(
    scope: &Scope<'_, 'a>,
    sign: UnOp,
    term: &'a Term,
    out: &mut RxText,
) -> Result<(), Memory>
    ensures { OnOk result (out.new ≡ out.old ++ (sign_text sign ++ text_in scope.now (tree_of term.now))) }
{
    out.push_str(sign_text(sign))?;
    write_term(scope, term, out)
}

/// Writes the left operand and the operator between spaces.
#[cycle(term)]
fn write_operand<'a>(
    scope: &Scope<'_, 'a>,
    left: &'a Term,
    operator: Operator,
    out: &mut RxText,
) -> Result<(), Memory>
    ensures { OnOk result (out.new ≡ out.old ++ (text_in scope.now (tree_of left.now) ++ codes " "
        ++ operator_text operator ++ codes " ")) }
{
    write_term(scope, left, out)?;
    write_operator(operator, out)
}

#[cycle(term)]
fn write_condition<'a>(
    scope: &Scope<'_, 'a>,
    condition: &'a Term,
    out: &mut RxText,
) -> Result<(), Memory>
    ensures { OnOk result (out.new ≡ out.old ++ (codes "if (" ++ text_in scope.now (tree_of condition.now)
        ++ codes ") ")) }
{
    out.push_str("if (")?;
    write_before(scope, condition, ") ", out)
}

/// Writes the list of a fold, and what stands before and behind it.
#[cycle(term)]
fn write_list<'a>(scope: &Scope<'_, 'a>, list: &'a Term, out: &mut RxText) -> Result<(), Memory>
    ensures { OnOk result (out.new ≡ out.old ++ (codes "fold(" ++ text_in scope.now (tree_of list.now)
        ++ codes ", ")) }
{
    out.push_str("fold(")?;
    write_before(scope, list, ", ", out)
}

#[cycle(term)]
fn write_call<'a>(
    scope: &Scope<'_, 'a>,
    function: Function,
    terms: &'a [Term],
    out: &mut RxText,
) -> Result<(), Memory>
    ensures { OnOk result (out.new ≡ out.old ++ (function_text function ++ codes "("
        ++ texts_in scope.now (trees_of_terms terms.now) ++ codes ")")) }
{
    write_enclosed("", function_text(function), "(", out)?;
    write_terms(scope, terms, out)?;
    out.push_str(")")
}

/// Writes a term.
#[cycle(term)]
fn write_term<'a>(scope: &Scope<'_, 'a>, term: &'a Term, out: &mut RxText) -> Result<(), Memory>
    ensures { OnOk result (out.new ≡ out.old ++ text_in scope.now (tree_of term.now)) }
{
    match term {
        Term::Null => out.push_str("NULL"),
        Term::Bool(truth) => write_truth(*truth, out),
        Term::Int(number) => write_number(scope.alloc(), *number, out),
        Term::Text(text) => write_text(text.as_str(), out),
        Term::Get(read) => write_read(scope.read(*read), *read, out),
        Term::Variable(number) => out.push_str(scope.variable(*number)),
        Term::Group(inner) => write_in_brackets("(", scope, inner.get(), out),
        Term::Isolate(_, inner) => write_in_brackets("isolate(", scope, inner.get(), out),
        Term::Stop(inner) => write_in_brackets("stop(", scope, inner.get(), out),
        Term::Require { term, cancels } => write_require(scope, term.get(), *cancels, out),
        Term::Unary(sign, inner) => write_unary(scope, *sign, inner.get(), out),
        Term::Call(function, terms) => write_call(scope, *function, terms.as_slice(), out),
        Term::Binary(operator, left, right) => {
            write_operand(scope, left.get(), *operator, out)?;
            write_term(scope, right.get(), out)
        }
        Term::If {
            condition,
            chosen,
            otherwise,
        } => {
            write_condition(scope, condition.get(), out)?;
            write_before(scope, chosen.get(), " else ", out)?;
            write_term(scope, otherwise.get(), out)
        }
        Term::Fold {
            list,
            start,
            accumulator,
            element,
            body,
        } => {
            write_list(scope, list.get(), out)?;
            write_term(scope, start.get(), out)?;
            write_last_part(scope, accumulator, element, body.get(), out)
        }
    }
}
