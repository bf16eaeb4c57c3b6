//! Statements, whose terms have no variables.

ghost use Rattle.std.specs.Prelude.{◌≡◌, [], ◌++◌, OnOk, codes};
ghost use Rattle.app_tree.specs.View.{tree_of, trees_of_terms, act_of, acts_of_block};
ghost use Rattle.app_tree.specs.Declarations.{source_name};
ghost use Rattle.app_tree.specs.Named.{unplaced_name, named_tree, named_act, named_acts};
ghost use Rattle.app_printer.specs.Canonical.{assigned_text, act_text, acts_text, braced};
ghost use Rattle.app_printer.specs.inner.Written.{closed_text, closed_texts};

use crate::names::Names;
use crate::scope::Scope;
use crate::terms::{write_before, write_terms};
use app_tree::{Statement, Term};
use read_text::write_enclosed;
use rx_value::{Memory, RxText};

/// Writes a term without variables, and a fixed text behind it.
pub fn write_closed<'a>(
    names: &Names<'a>,
    term: &'a Term,
    after: &str,
    out: &mut RxText,
) -> Result<(), Memory>
    ensures { OnOk result (out.new ≡ out.old ++ (closed_text names.now (tree_of term.now) ++ after.now)) }
{
    write_before(&Scope::new(names), term, after, out)
}

/// Writes terms without variables, with a comma between each two, and a fixed text behind them.
pub fn write_all_closed<'a>(
    names: &Names<'a>,
    terms: &'a [Term],
    after: &str,
    out: &mut RxText,
) -> Result<(), Memory>
    ensures { OnOk result (out.new ≡ out.old ++ (closed_texts names.now (trees_of_terms terms.now)
        ++ after.now)) }
{
    write_terms(&Scope::new(names), terms, out)?;
    out.push_str(after)
}

/// Writes what stands behind the first word of a statement that gives a source a value.
fn write_assigned<'a>(
    names: &Names<'a>,
    source: u32,
    term: &'a Term,
    out: &mut RxText,
) -> Result<(), Memory>
    ensures { OnOk result (out.new ≡ out.old
        ++ assigned_text (unplaced_name (source_name names.now source))
        (named_tree names.now [] (tree_of term.now))) }
{
    write_enclosed("", names.source(source), " = ", out)?;
    write_closed(names, term, ";", out)
}

fn write_condition<'a>(
    names: &Names<'a>,
    condition: &'a Term,
    out: &mut RxText,
) -> Result<(), Memory>
    ensures { OnOk result (out.new ≡ out.old ++ (codes "if ("
        ++ closed_text names.now (tree_of condition.now) ++ codes ") ")) }
{
    out.push_str("if (")?;
    write_closed(names, condition, ") ", out)
}

#[cycle(statement)]
fn write_statement<'a>(
    names: &Names<'a>,
    statement: &'a Statement,
    out: &mut RxText,
) -> Result<(), Memory>
    ensures { OnOk result (out.new ≡ out.old ++ act_text (named_act names.now (act_of statement.now))) }
{
    match statement {
        Statement::Set(source, term) => {
            out.push_str("set ")?;
            write_assigned(names, *source, term, out)
        }
        Statement::Invoke(source, terms) => {
            write_enclosed("invoke ", names.source(*source), "(", out)?;
            write_all_closed(names, terms.as_slice(), ");", out)
        }
        Statement::Update(source, term) => {
            out.push_str("update ")?;
            write_assigned(names, *source, term, out)
        }
        Statement::Freeze(source) => { write_enclosed("freeze ", names.source(*source), ";", out) }
        Statement::Do(term) => {
            out.push_str("do ")?;
            write_closed(names, term, ";", out)
        }
        Statement::If(condition, block) => {
            write_condition(names, condition, out)?;
            write_block(names, block.as_slice(), out)
        }
        Statement::IfElse(condition, block, other) => {
            write_condition(names, condition, out)?;
            write_block(names, block.as_slice(), out)?;
            out.push_str(" else ")?;
            write_block(names, other.as_slice(), out)
        }
    }
}

/// Writes a block in its braces.
#[cycle(statement)]
pub fn write_block<'a>(
    names: &Names<'a>,
    block: &'a [Statement],
    out: &mut RxText,
) -> Result<(), Memory>
    ensures { OnOk result (out.new ≡ out.old
        ++ braced (acts_text (named_acts names.now (acts_of_block block.now)))) }
{
    out.push_str("{ ")?;
    for statement in block {
        write_statement(names, statement, out)?;
        out.push_str(" ")?;
    }
    out.push_str("}")
}
