//! Items, and the whole text.

ghost use Rattle.std.specs.Prelude.{◌≡◌, true, List, [], ◌++◌, IfOk, OnOk, codes, map};
ghost use Rattle.app_tree.specs.Declarations.{Declared};
ghost use Rattle.std.specs.Str.{IsUtf8};
ghost use Rattle.app_tree.specs.View.{tree_of, trees_of_terms, acts_of_block, shown_of, node_of, shape_of};
ghost use Rattle.app_tree.specs.Named.{unplaced_name, named_tree, named_trees, named_acts, named_body, named_output, named_node, named_item, named};
ghost use Rattle.app_check.specs.Words.{has_words};
ghost use Rattle.app_printer.specs.Laws.{ReadsBack};
ghost use Rattle.app_printer.specs.Canonical.{term_text, braced, acts_text, body_text, if_written, flags_text, priority_text, keys_text, names_text, start_text, output_text, form_word, form_text, item_text, items_text, canonical_text};
ghost use Rattle.app_printer.specs.inner.Written.{closed_text};

use crate::constants::{write_constant, write_natural, write_number};
use crate::names::Names;
use crate::scope::Scope;
use crate::statements::{write_all_closed, write_block, write_closed};
use crate::terms::write_before;
use app_tree::{App, Flags, Item, Output, Statement, Term, Terms};
use rx_value::{Memory, RxText, Value};
use std::alloc::Global;

fn write_start(alloc: Global, start: &Value, out: &mut RxText) -> Result<(), Memory>
    ensures { OnOk result (out.new ≡ out.old ++ start_text start.now) }
{
    out.push_str(" = ")?;
    write_constant(alloc, start, out)?;
    out.push_str(";")
}

fn write_if(written: bool, words: &str, out: &mut RxText) -> Result<(), Memory>
    ensures { OnOk result (out.new ≡ out.old ++ if_written written words.now) }
{
    if written { out.push_str(words) } else { Ok(()) }
}

fn write_flags(flags: Flags, out: &mut RxText) -> Result<(), Memory>
    ensures { OnOk result (out.new ≡ out.old ++ flags_text flags) }
{
    write_if(flags.ignore_init, " ignoreInit", out)?;
    write_if(flags.allow_null, " allowNull", out)
}

fn write_priority(alloc: Global, priority: i64, out: &mut RxText) -> Result<(), Memory>
    ensures { OnOk result (out.new ≡ out.old ++ priority_text priority) }
{
    if priority == 0 {
        return Ok(());
    }
    out.push_str(" priority ")?;
    write_number(alloc, priority, out)
}

fn write_keys<'a>(names: &Names<'a>, keys: &'a [Term], out: &mut RxText) -> Result<(), Memory>
    ensures { OnOk result (out.new ≡ out.old
        ++ keys_text (named_trees names.now [] (trees_of_terms keys.now))) }
{
    if keys.is_empty() {
        return Ok(());
    }
    out.push_str(" cache (")?;
    write_all_closed(names, keys, ")", out)
}

/// Writes a body in its braces.
fn write_body<'a>(names: &Names<'a>, body: &'a Term, out: &mut RxText) -> Result<(), Memory>
    ensures { OnOk result (out.new ≡ out.old ++ body_text (named_body names.now (tree_of body.now))) }
{
    out.push_str("{ ")?;
    write_closed(names, body, " }", out)
}

fn write_parameters(parameters: &[RxText], out: &mut RxText) -> Result<(), Memory>
    ensures { OnOk result (out.new ≡ out.old ++ names_text (map unplaced_name parameters.now)) }
{
    let [first, later @ ..] = parameters else {
        return Ok(());
    };
    out.push_str(first.as_str())?;
    for parameter in later {
        out.push_str(", ")?;
        out.push_str(parameter.as_str())?;
    }
    Ok(())
}

/// Writes a task behind its name.
fn write_task<'a>(
    names: &Names<'a>,
    parameters: &'a [RxText],
    body: &'a Term,
    out: &mut RxText,
) -> Result<(), Memory>
    ensures { OnOk result (out.new ≡ out.old ++ (codes " ("
        ++ names_text (map unplaced_name parameters.now) ++ codes ") { "
        ++ term_text (named_tree names.now parameters.now (tree_of body.now)) ++ codes " }")) }
{
    let scope = Scope::of_parameters(names, parameters)?;
    out.push_str(" (")?;
    write_parameters(parameters, out)?;
    out.push_str(") { ")?;
    write_before(&scope, body, " }", out)
}

/// Writes a cached body, or one that is not cached.
fn write_cached<'a>(
    names: &Names<'a>,
    keys: &'a Terms,
    body: &'a Term,
    out: &mut RxText,
) -> Result<(), Memory>
    ensures { OnOk result (out.new ≡ out.old
        ++ (keys_text (named_trees names.now [] (trees_of_terms keys.now)) ++ codes " "
        ++ body_text (named_body names.now (tree_of body.now)))) }
{
    write_keys(names, keys.as_slice(), out)?;
    out.push_str(" ")?;
    write_body(names, body, out)
}

/// Writes an output behind its name.
fn write_output<'a>(names: &Names<'a>, output: &'a Output, out: &mut RxText) -> Result<(), Memory>
    ensures { OnOk result (out.new ≡ out.old
        ++ output_text (named_output names.now (shown_of output.now))) }
{
    write_priority(names.alloc(), output.priority, out)?;
    write_if(output.while_hidden, " whileHidden", out)?;
    write_cached(names, &output.keys, &output.body, out)
}

/// Writes the flags and the event term.
fn write_event<'a>(
    names: &Names<'a>,
    flags: Flags,
    event: &'a Term,
    out: &mut RxText,
) -> Result<(), Memory>
    ensures { OnOk result (out.new ≡ out.old ++ (flags_text flags ++ codes " ("
        ++ closed_text names.now (tree_of event.now) ++ codes ") ")) }
{
    write_flags(flags, out)?;
    out.push_str(" (")?;
    write_closed(names, event, ") ", out)
}

/// Writes an event behind its name.
fn write_event_body<'a>(
    names: &Names<'a>,
    flags: Flags,
    event: &'a Term,
    body: &'a Term,
    out: &mut RxText,
) -> Result<(), Memory>
    ensures { OnOk result (out.new ≡ out.old ++ (flags_text flags ++ codes " ("
        ++ closed_text names.now (tree_of event.now) ++ codes ") "
        ++ body_text (named_body names.now (tree_of body.now)))) }
{
    write_event(names, flags, event, out)?;
    write_body(names, body, out)
}

/// Writes an observer behind its name.
fn write_observer<'a>(
    names: &Names<'a>,
    priority: i64,
    block: &'a [Statement],
    out: &mut RxText,
) -> Result<(), Memory>
    ensures { OnOk result (out.new ≡ out.old ++ (priority_text priority ++ codes " "
        ++ braced (acts_text (named_acts names.now (acts_of_block block.now))))) }
{
    write_priority(names.alloc(), priority, out)?;
    out.push_str(" ")?;
    write_block(names, block, out)
}

/// The first word of an item, with a space behind it.
fn word_of(item: &Item) -> &'static str
    ensures { (table : List Declared) → result.now ≡ form_word (named_node table (node_of item.now)) }
{
    match item {
        Item::Input { .. } => "input ",
        Item::Value { .. } => "value ",
        Item::Task { .. } => "task ",
        Item::Reactive { .. } => "reactive ",
        Item::Event { .. } => "event ",
        Item::Text { .. } => "text ",
        Item::Plot { .. } => "plot ",
        Item::Observe { .. } => "observe ",
        Item::On { .. } => "on ",
    }
}

/// Writes what stands behind the name of an item.
fn write_form<'a>(names: &Names<'a>, item: &'a Item, out: &mut RxText) -> Result<(), Memory>
    ensures { OnOk result (out.new ≡ out.old ++ form_text (named_node names.now (node_of item.now))) }
{
    match item {
        Item::Input { start, .. } => write_start(names.alloc(), start, out),
        Item::Value { start, .. } => write_start(names.alloc(), start, out),
        Item::Task {
            parameters,
            body,
            ..
        } => write_task(names, parameters.as_slice(), body, out),
        Item::Reactive { keys, body, .. } => write_cached(names, keys, body, out),
        Item::Event {
            flags,
            event,
            body,
            ..
        } => write_event_body(names, *flags, event, body, out),
        Item::Text { output, .. } => write_output(names, output, out),
        Item::Plot { output, .. } => write_output(names, output, out),
        Item::Observe {
            priority,
            block,
            ..
        } => write_observer(names, *priority, block.as_slice(), out),
        Item::On {
            priority,
            flags,
            event,
            block,
            ..
        } => {
            write_priority(names.alloc(), *priority, out)?;
            write_event(names, *flags, event, out)?;
            write_block(names, block.as_slice(), out)
        }
    }
}

fn write_item<'a>(names: &Names<'a>, item: &'a Item, out: &mut RxText) -> Result<(), Memory>
    ensures { OnOk result (out.new ≡ out.old ++ item_text (named_item names.now (node_of item.now))) }
{
    out.push_str(word_of(item))?;
    out.push_str(item.name().as_str())?;
    write_form(names, item, out)
}

fn write_items<'a>(names: &Names<'a>, items: &'a [Item], out: &mut RxText) -> Result<(), Memory>
    ensures { OnOk result (out.new ≡ out.old
        ++ items_text (map (named_item names.now) (map node_of items.now))) }
{
    for item in items {
        write_item(names, item, out)?;
        out.push_str("\n")?;
    }
    Ok(())
}

/// The text, as it is written.
fn app_text(alloc: Global, app: &App) -> Result<RxText, Memory>
    ensures text { IfOk result (λ text. text ≡ canonical_text (shape_of app.now)) }
    ensures utf8 { IfOk result (λ text. IsUtf8 text) }
{
    let names = Names::new(alloc, app);
    let mut out = RxText::new(alloc);
    out.push_str("budget ")?;
    write_natural(alloc, app.budget(), &mut out)?;
    out.push_str(";\n")?;
    write_items(&names, app.few_items(), &mut out)?;
    Ok(out)
}

/// The canonical text of an app: a line for the budget, and a line for each item in its order. Where
/// each item is named by a word that isn't reserved, as in each app that `app_check::load` answers,
/// the text stands for this app, but that it may be longer than a file may be. Where the app is sound, as each
/// that `load` answers, no check refuses it.
pub fn print(alloc: Global, app: &App) -> Result<RxText, Memory>
    ensures text { IfOk result (λ text. text ≡ canonical_text (shape_of app.now)) }
    ensures utf8 { IfOk result (λ text. IsUtf8 text) }
    ensures back { OnOk result (has_words (named (shape_of app.now)) ≡ true → ReadsBack (shape_of app.now)) }
{
    // An app tells with its items that it is well formed.
    let _items = app.items();
    app_text(alloc, app)
}
