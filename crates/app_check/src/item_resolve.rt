//! Statements, items and whole apps with numbers in place of names.

ghost use Rattle.std.specs.Prelude.{◌≡◌, [], IfOk, map};
ghost use Rattle.app_tree.specs.Tree as app;
ghost use Rattle.app_tree.specs.View.{act_of, acts_of_block, shown_of, node_of};
ghost use Rattle.app_tree.specs.DraftTree.{task as written_task, reactive as written_reactive, event as written_event, observe as written_observe, on as written_on};
ghost use Rattle.app_tree.specs.DraftView.{draft_tree_of, draft_trees_of, deed_of, draft_act_of, draft_acts_of, written_body, written_output, written_form, written_item};
ghost use Rattle.app_tree.specs.Resolve.{text_of_name, resolved_output, resolved_form, resolved_item};
ghost use Rattle.app_check.specs.inner.Resolving.{deed_made, act_made, acts_made};

use crate::resolver::Resolver;
use crate::table::NumberedTable;
use crate::term_resolve::{term, terms};
use app_tree::{
    Block, DraftAction, DraftBlock, DraftBody, DraftForm, DraftItem, DraftOutput, DraftStatement,
    DraftTerm, Flags, Item, Items as AppItems, Name, Output, Sorts, Statement,
};
use rx_value::{Memory, RxList, RxText, Value};
use sqlite_items::Items;
use std::alloc::Global;

fn action<'a>(
    alloc: Global,
    resolver: &mut Resolver<'_, 'a>,
    written: &'a DraftAction,
) -> Result<Statement, Memory>
    requires { resolver.old.scope ≡ [] }
    ensures { IfOk result (λ made. (act_of made, resolver.new)
        ≡ deed_made resolver.old (deed_of written.now)) }
{
    match written {
        DraftAction::Set(name, value) => {
            let number = resolver.number(Sorts::Values, name);
            Ok(Statement::Set(number, term(alloc, resolver, value)?))
        }
        DraftAction::Invoke(name, arguments) => {
            let number = resolver.number(Sorts::Tasks, name);
            let arguments = terms(alloc, resolver, arguments.as_slice())?;
            Ok(Statement::Invoke(number, arguments))
        }
        DraftAction::Update(name, value) => {
            let number = resolver.number(Sorts::Inputs, name);
            Ok(Statement::Update(number, term(alloc, resolver, value)?))
        }
        DraftAction::Freeze(name) => {
            let number = resolver.number(Sorts::Inputs, name);
            Ok(Statement::Freeze(number))
        }
    }
}

#[cycle(statement)]
#[tactic(auto, using(crate::proofs::Made::behind_more))]
fn statement<'a>(
    alloc: Global,
    resolver: &mut Resolver<'_, 'a>,
    written: &'a DraftStatement,
) -> Result<Statement, Memory>
    requires { resolver.old.scope ≡ [] }
    ensures { IfOk result (λ made. (act_of made, resolver.new)
        ≡ act_made resolver.old (draft_act_of written.now)) }
{
    match written {
        DraftStatement::Write(write) => action(alloc, resolver, &write.action),
        DraftStatement::Do(value) => Ok(Statement::Do(term(alloc, resolver, value)?)),
        DraftStatement::If(condition, chosen) => {
            let condition = term(alloc, resolver, condition)?;
            let chosen = block(alloc, resolver, chosen.as_slice())?;
            Ok(Statement::If(condition, chosen))
        }
        DraftStatement::IfElse(condition, chosen, otherwise) => {
            let condition = term(alloc, resolver, condition)?;
            let chosen = block(alloc, resolver, chosen.as_slice())?;
            let otherwise = block(alloc, resolver, otherwise.as_slice())?;
            Ok(Statement::IfElse(condition, chosen, otherwise))
        }
    }
}

#[cycle(statement)]
fn block<'a>(
    alloc: Global,
    resolver: &mut Resolver<'_, 'a>,
    written: &'a [DraftStatement],
) -> Result<Block, Memory>
    requires { resolver.old.scope ≡ [] }
    ensures { IfOk result (λ made. (acts_of_block made, resolver.new)
        ≡ acts_made resolver.old (draft_acts_of written.now)) }
{
    let mut made = Items::new(alloc);
    'statements: for inner in written {
        made.push(statement(alloc, resolver, inner)?)?;
    }
    Ok(made)
}

fn copies_of(alloc: Global, names: &[Name]) -> Result<RxList<RxText>, Memory>
    ensures { IfOk result (λ copies. copies ≡ map text_of_name names.now) }
{
    let mut copies = RxList::new(alloc);
    for name in names {
        copies.push(name.text.copy(alloc)?)?;
    }
    Ok(copies)
}

fn input(alloc: Global, name: RxText, start: &Value) -> Result<Item, Memory>
    ensures { IfOk result (λ made. node_of made ≡ app.input name start.now) }
{
    let start = start.copy(alloc)?;
    Ok(Item::Input { name, start })
}

fn value(alloc: Global, name: RxText, start: &Value) -> Result<Item, Memory>
    ensures { IfOk result (λ made. node_of made ≡ app.value name start.now) }
{
    let start = start.copy(alloc)?;
    Ok(Item::Value { name, start })
}

fn output<'a>(
    alloc: Global,
    table: &NumberedTable<'a>,
    written: &'a DraftOutput,
) -> Result<Output, Memory>
    ensures { IfOk result
        (λ made. shown_of made ≡ resolved_output table.now (written_output written.now)) }
{
    let mut resolver = Resolver::new(alloc, table);
    let keys = terms(alloc, &mut resolver, written.keys.as_slice())?;
    let body = term(alloc, &mut resolver, &written.body.term)?;
    Ok(Output {
        priority: written.priority,
        while_hidden: written.while_hidden,
        keys,
        body,
    })
}

fn task<'a>(
    alloc: Global,
    table: &NumberedTable<'a>,
    name: RxText,
    parameters: &'a [Name],
    body: &'a DraftTerm,
) -> Result<Item, Memory>
    ensures { IfOk result (λ made. node_of made
        ≡ resolved_form table.now name (written_task parameters.now (draft_tree_of body.now))) }
{
    let mut resolver = Resolver::with_parameters(alloc, table, parameters)?;
    let body = term(alloc, &mut resolver, body)?;
    let parameters = copies_of(alloc, parameters)?;
    Ok(Item::Task {
        name,
        parameters,
        body,
    })
}

fn reactive<'a>(
    alloc: Global,
    table: &NumberedTable<'a>,
    name: RxText,
    keys: &'a [DraftTerm],
    body: &'a DraftBody,
) -> Result<Item, Memory>
    ensures { IfOk result (λ made. node_of made ≡ resolved_form table.now name
        (written_reactive (draft_trees_of keys.now) (written_body body.now))) }
{
    let mut resolver = Resolver::new(alloc, table);
    let keys = terms(alloc, &mut resolver, keys)?;
    let body = term(alloc, &mut resolver, &body.term)?;
    Ok(Item::Reactive { name, keys, body })
}

fn event<'a>(
    alloc: Global,
    table: &NumberedTable<'a>,
    name: RxText,
    flags: Flags,
    event: &'a DraftTerm,
    body: &'a DraftBody,
) -> Result<Item, Memory>
    ensures { IfOk result (λ made. node_of made ≡ resolved_form table.now name
        (written_event flags (draft_tree_of event.now) (written_body body.now))) }
{
    let mut resolver = Resolver::new(alloc, table);
    let event = term(alloc, &mut resolver, event)?;
    resolver.next_site()?;
    let body = term(alloc, &mut resolver, &body.term)?;
    Ok(Item::Event {
        name,
        flags,
        event,
        body,
    })
}

fn text<'a>(
    alloc: Global,
    table: &NumberedTable<'a>,
    name: RxText,
    written: &'a DraftOutput,
) -> Result<Item, Memory>
    ensures { IfOk result (λ made. node_of made
        ≡ app.text name (resolved_output table.now (written_output written.now))) }
{
    let output = output(alloc, table, written)?;
    Ok(Item::Text { name, output })
}

fn plot<'a>(
    alloc: Global,
    table: &NumberedTable<'a>,
    name: RxText,
    written: &'a DraftOutput,
) -> Result<Item, Memory>
    ensures { IfOk result (λ made. node_of made
        ≡ app.plot name (resolved_output table.now (written_output written.now))) }
{
    let output = output(alloc, table, written)?;
    Ok(Item::Plot { name, output })
}

fn observe<'a>(
    alloc: Global,
    table: &NumberedTable<'a>,
    name: RxText,
    priority: i64,
    written: &'a [DraftStatement],
) -> Result<Item, Memory>
    ensures { IfOk result (λ made. node_of made
        ≡ resolved_form table.now name (written_observe priority (draft_acts_of written.now))) }
{
    let mut resolver = Resolver::new(alloc, table);
    let block = block(alloc, &mut resolver, written)?;
    Ok(Item::Observe {
        name,
        priority,
        block,
    })
}

fn on<'a>(
    alloc: Global,
    table: &NumberedTable<'a>,
    name: RxText,
    priority: i64,
    flags: Flags,
    event: &'a DraftTerm,
    written: &'a DraftBlock,
) -> Result<Item, Memory>
    ensures { IfOk result (λ made. node_of made ≡ resolved_form table.now name
        (written_on priority flags (draft_tree_of event.now) (draft_acts_of written.now))) }
{
    let mut resolver = Resolver::new(alloc, table);
    let event = term(alloc, &mut resolver, event)?;
    resolver.next_site()?;
    let block = block(alloc, &mut resolver, written.as_slice())?;
    Ok(Item::On {
        name,
        priority,
        flags,
        event,
        block,
    })
}

fn item<'a>(
    alloc: Global,
    table: &NumberedTable<'a>,
    written: &'a DraftItem,
) -> Result<Item, Memory>
    ensures { IfOk result
        (λ made. node_of made ≡ resolved_item table.now (written_item written.now)) }
{
    let name = written.name.text.copy(alloc)?;
    form(alloc, table, name, &written.form)
}

fn form<'a>(
    alloc: Global,
    table: &NumberedTable<'a>,
    name: RxText,
    written: &'a DraftForm,
) -> Result<Item, Memory>
    ensures { IfOk result
        (λ made. node_of made ≡ resolved_form table.now name (written_form written.now)) }
{
    match written {
        DraftForm::Input(start) => input(alloc, name, start),
        DraftForm::Value(start) => value(alloc, name, start),
        DraftForm::Task { parameters, body } => {
            task(alloc, table, name, parameters.as_slice(), body)
        }
        DraftForm::Reactive { keys, body } => reactive(alloc, table, name, keys.as_slice(), body),
        DraftForm::Event {
            flags,
            event: term,
            body,
        } => event(alloc, table, name, *flags, term, body),
        DraftForm::Text(shown) => text(alloc, table, name, shown),
        DraftForm::Plot(shown) => plot(alloc, table, name, shown),
        DraftForm::Observe { priority, block } => {
            observe(alloc, table, name, *priority, block.as_slice())
        }
        DraftForm::On {
            priority,
            flags,
            event,
            block,
        } => on(alloc, table, name, *priority, *flags, event, block),
    }
}

/// The items that are written, with numbers in place of names. The table holds what they declare.
pub fn items<'a>(
    alloc: Global,
    table: &NumberedTable<'a>,
    written: &'a [DraftItem],
) -> Result<AppItems, Memory>
    ensures { IfOk result
        (λ made. map node_of made ≡ map (resolved_item table.now) (map written_item written.now)) }
{
    let mut made = RxList::new(alloc);
    for inner in written {
        made.push(item(alloc, table, inner)?)?;
    }
    Ok(made)
}
