//! Items and whole app files.

ghost use Rattle.std.specs.Prelude.{◌≡◌, ◌<◌, ◌≤◌, length, OnOk, Ok};
ghost use Rattle.app_tree.specs.DraftView.{draft_tree_of, written_output, written_form, written_item, draft_shape_of};
ghost use Rattle.rx_value.specs.Results.{GivesOrMemory, LeavesOrMemory};
ghost use Rattle.app_reader.specs.State.{refusal};
ghost use Rattle.app_reader.specs.inner.View.{trees_of, items_of, shape_of_parts};
ghost use Rattle.app_reader.specs.Items.{flag_at, flags_at, cache_at, keys_at, further_name_at, names_at, optional_names_at, parameters_at, start_at, input_form_at, value_form_at, task_form_at, reactive_form_at, event_form_at, output_at, text_form_at, plot_form_at, observe_form_at, on_form_at, begins_item, form_at, named_item_at, worded_item_at, item_at, further_item_at, items_at, read_at};

use crate::constants::{budget, constant, priority};
use crate::error::ReadError;
use crate::reader::Reader;
use crate::statements::{body, whole_block};
use crate::terms::{whole_bracketed, whole_listed, whole_term};
use app_tokens::{Symbol, TokenList, Word};
use app_tree::{Draft, DraftForm, DraftItem, DraftItems, DraftOutput, DraftTerms, Flags, Names};
use rx_value::{RxList, Value};
use sqlite_items::Items;
use std::alloc::Global;

/// Whether this word stands next; it is taken then.
#[tactic(auto, unfolding(crate::specs::Items::flag_at))]
fn flag(reader: &mut Reader, word: Word) -> bool
    ensures reads { flag_at word reader.old ≡ Ok (result, reader.new) }
    ensures shorter { length reader.new.tokens ≤ length reader.old.tokens }
{
    let stands = reader.is_word(word);
    if stands {
        reader.skip();
    }
    stands
}

#[tactic(auto, unfolding(crate::specs::Items::flags_at))]
fn flags(reader: &mut Reader) -> Flags
    ensures reads { flags_at reader.old ≡ Ok (result, reader.new) }
    ensures shorter { length reader.new.tokens ≤ length reader.old.tokens }
{
    let ignore_init = flag(reader, Word::IgnoreInit);
    let allow_null = flag(reader, Word::AllowNull);
    Flags {
        ignore_init,
        allow_null,
    }
}

/// `cache(term, term)`, where `cache` stands.
#[tactic(auto, unfolding(crate::specs::Items::cache_at))]
fn cache(alloc: Global, reader: &mut Reader) -> Result<DraftTerms, ReadError>
    ensures reads { LeavesOrMemory trees_of refusal result reader.new (cache_at reader.old) }
    ensures shorter { OnOk result (length reader.new.tokens ≤ length reader.old.tokens) }
{
    reader.skip();
    reader.symbol(Symbol::Open)?;
    let keys = whole_listed(alloc, reader)?;
    reader.symbol(Symbol::Close)?;
    Ok(keys)
}

/// The keys that are written; none where the item isn't cached.
#[tactic(auto, unfolding(crate::specs::Items::keys_at))]
fn keys(alloc: Global, reader: &mut Reader) -> Result<DraftTerms, ReadError>
    ensures reads { LeavesOrMemory trees_of refusal result reader.new (keys_at reader.old) }
    ensures shorter { OnOk result (length reader.new.tokens ≤ length reader.old.tokens) }
{
    if reader.is_word(Word::Cache) {
        return cache(alloc, reader);
    }
    Ok(Items::new(alloc))
}

/// A comma, which stands next, and a further name.
#[tactic(auto, unfolding(crate::specs::Items::further_name_at))]
fn further_name(alloc: Global, reader: &mut Reader, names: &mut Names) -> Result<(), ReadError>
    ensures reads { GivesOrMemory (λ _. (names.new, reader.new)) refusal result
        (further_name_at (names.old, reader.old)) }
    ensures shorter { OnOk result (length reader.new.tokens < length reader.old.tokens) }
{
    reader.skip();
    let name = reader.name(alloc)?;
    names.push(name)?;
    Ok(())
}

/// One or more names, with commas between them.
#[tactic(auto, unfolding(crate::specs::Items::names_at))]
fn names(alloc: Global, reader: &mut Reader) -> Result<Names, ReadError>
    ensures reads { LeavesOrMemory (λ n. n) refusal result reader.new (names_at reader.old) }
    ensures shorter { OnOk result (length reader.new.tokens < length reader.old.tokens) }
{
    let first = reader.name(alloc)?;
    let mut names = RxList::new(alloc);
    names.push(first)?;
    'names: while reader.is_symbol(Symbol::Comma) {
        further_name(alloc, reader, &mut names)?;
    }
    Ok(names)
}

#[tactic(auto, unfolding(crate::specs::Items::optional_names_at))]
fn optional_names(alloc: Global, reader: &mut Reader) -> Result<Names, ReadError>
    ensures reads { LeavesOrMemory (λ n. n) refusal result reader.new
        (optional_names_at reader.old) }
    ensures shorter { OnOk result (length reader.new.tokens ≤ length reader.old.tokens) }
{
    if reader.is_name() {
        return names(alloc, reader);
    }
    Ok(RxList::new(alloc))
}

/// A task's parameters in their brackets.
#[tactic(auto, unfolding(crate::specs::Items::parameters_at))]
fn parameters(alloc: Global, reader: &mut Reader) -> Result<Names, ReadError>
    ensures reads { LeavesOrMemory (λ n. n) refusal result reader.new (parameters_at reader.old) }
    ensures shorter { OnOk result (length reader.new.tokens ≤ length reader.old.tokens) }
{
    reader.symbol(Symbol::Open)?;
    let names = optional_names(alloc, reader)?;
    reader.symbol(Symbol::Close)?;
    Ok(names)
}

/// `= const;`
#[tactic(auto, unfolding(crate::specs::Items::start_at))]
fn start(alloc: Global, reader: &mut Reader) -> Result<Value, ReadError>
    ensures reads { LeavesOrMemory (λ k. k) refusal result reader.new (start_at reader.old) }
    ensures shorter { OnOk result (length reader.new.tokens ≤ length reader.old.tokens) }
{
    reader.symbol(Symbol::Assign)?;
    let start = constant(alloc, reader)?;
    reader.symbol(Symbol::Semicolon)?;
    Ok(start)
}

#[tactic(auto, unfolding(crate::specs::Items::input_form_at))]
fn input(alloc: Global, reader: &mut Reader) -> Result<DraftForm, ReadError>
    ensures reads { LeavesOrMemory written_form refusal result reader.new
        (input_form_at reader.old) }
    ensures shorter { OnOk result (length reader.new.tokens ≤ length reader.old.tokens) }
{
    Ok(DraftForm::Input(start(alloc, reader)?))
}

#[tactic(auto, unfolding(crate::specs::Items::value_form_at))]
fn value(alloc: Global, reader: &mut Reader) -> Result<DraftForm, ReadError>
    ensures reads { LeavesOrMemory written_form refusal result reader.new
        (value_form_at reader.old) }
    ensures shorter { OnOk result (length reader.new.tokens ≤ length reader.old.tokens) }
{
    Ok(DraftForm::Value(start(alloc, reader)?))
}

#[tactic(auto, unfolding(crate::specs::Items::task_form_at))]
fn task(alloc: Global, reader: &mut Reader) -> Result<DraftForm, ReadError>
    ensures reads { LeavesOrMemory written_form refusal result reader.new
        (task_form_at reader.old) }
    ensures shorter { OnOk result (length reader.new.tokens ≤ length reader.old.tokens) }
{
    let parameters = parameters(alloc, reader)?;
    reader.symbol(Symbol::OpenBrace)?;
    let body = whole_term(alloc, reader)?;
    reader.symbol(Symbol::CloseBrace)?;
    Ok(DraftForm::Task { parameters, body })
}

#[tactic(auto, unfolding(crate::specs::Items::reactive_form_at))]
fn reactive(alloc: Global, reader: &mut Reader) -> Result<DraftForm, ReadError>
    ensures reads { LeavesOrMemory written_form refusal result reader.new
        (reactive_form_at reader.old) }
    ensures shorter { OnOk result (length reader.new.tokens ≤ length reader.old.tokens) }
{
    let keys = keys(alloc, reader)?;
    let body = body(alloc, reader)?;
    Ok(DraftForm::Reactive { keys, body })
}

#[tactic(auto, unfolding(crate::specs::Items::event_form_at))]
fn event(alloc: Global, reader: &mut Reader) -> Result<DraftForm, ReadError>
    ensures reads { LeavesOrMemory written_form refusal result reader.new
        (event_form_at reader.old) }
    ensures shorter { OnOk result (length reader.new.tokens ≤ length reader.old.tokens) }
{
    let flags = flags(reader);
    let event = whole_bracketed(alloc, reader)?;
    let body = body(alloc, reader)?;
    Ok(DraftForm::Event { flags, event, body })
}

/// What stands behind the name of `text` and `plot`.
#[tactic(auto, unfolding(crate::specs::Items::output_at))]
fn output(alloc: Global, reader: &mut Reader) -> Result<DraftOutput, ReadError>
    ensures reads { LeavesOrMemory written_output refusal result reader.new (output_at reader.old) }
    ensures shorter { OnOk result (length reader.new.tokens ≤ length reader.old.tokens) }
{
    let priority = priority(reader)?;
    let while_hidden = flag(reader, Word::WhileHidden);
    let keys = keys(alloc, reader)?;
    let body = body(alloc, reader)?;
    Ok(DraftOutput {
        priority,
        while_hidden,
        keys,
        body,
    })
}

#[tactic(auto, unfolding(crate::specs::Items::text_form_at))]
fn text(alloc: Global, reader: &mut Reader) -> Result<DraftForm, ReadError>
    ensures reads { LeavesOrMemory written_form refusal result reader.new
        (text_form_at reader.old) }
    ensures shorter { OnOk result (length reader.new.tokens ≤ length reader.old.tokens) }
{
    Ok(DraftForm::Text(output(alloc, reader)?))
}

#[tactic(auto, unfolding(crate::specs::Items::plot_form_at))]
fn plot(alloc: Global, reader: &mut Reader) -> Result<DraftForm, ReadError>
    ensures reads { LeavesOrMemory written_form refusal result reader.new
        (plot_form_at reader.old) }
    ensures shorter { OnOk result (length reader.new.tokens ≤ length reader.old.tokens) }
{
    Ok(DraftForm::Plot(output(alloc, reader)?))
}

#[tactic(auto, unfolding(crate::specs::Items::observe_form_at))]
fn observe(alloc: Global, reader: &mut Reader) -> Result<DraftForm, ReadError>
    ensures reads { LeavesOrMemory written_form refusal result reader.new
        (observe_form_at reader.old) }
    ensures shorter { OnOk result (length reader.new.tokens ≤ length reader.old.tokens) }
{
    let priority = priority(reader)?;
    let block = whole_block(alloc, reader)?;
    Ok(DraftForm::Observe { priority, block })
}

#[tactic(auto, unfolding(crate::specs::Items::on_form_at))]
fn on(alloc: Global, reader: &mut Reader) -> Result<DraftForm, ReadError>
    ensures reads { LeavesOrMemory written_form refusal result reader.new (on_form_at reader.old) }
    ensures shorter { OnOk result (length reader.new.tokens ≤ length reader.old.tokens) }
{
    let priority = priority(reader)?;
    let flags = flags(reader);
    let event = whole_bracketed(alloc, reader)?;
    let block = whole_block(alloc, reader)?;
    Ok(DraftForm::On {
        priority,
        flags,
        event,
        block,
    })
}

fn begins_item(word: Word) -> bool
    ensures { result ≡ begins_item word }
{
    match word {
        Word::Input
        | Word::Value
        | Word::Task
        | Word::Reactive
        | Word::Event
        | Word::Text
        | Word::Plot
        | Word::Observe
        | Word::On => true,
        _ => false,
    }
}

/// What the item's first word asks for behind the name.
fn form(alloc: Global, reader: &mut Reader, word: Word) -> Result<DraftForm, ReadError>
    ensures reads { LeavesOrMemory written_form refusal result reader.new
        (form_at word reader.old) }
    ensures shorter { OnOk result (length reader.new.tokens ≤ length reader.old.tokens) }
{
    match word {
        Word::Input => input(alloc, reader),
        Word::Value => value(alloc, reader),
        Word::Task => task(alloc, reader),
        Word::Reactive => reactive(alloc, reader),
        Word::Event => event(alloc, reader),
        Word::Text => text(alloc, reader),
        Word::Plot => plot(alloc, reader),
        Word::Observe => observe(alloc, reader),
        Word::On => on(alloc, reader),
        _ => Err(ReadError::Unexpected(reader.place())),
    }
}

#[tactic(auto, unfolding(crate::specs::Items::named_item_at))]
fn named_item(alloc: Global, reader: &mut Reader, word: Word) -> Result<DraftItem, ReadError>
    ensures reads { LeavesOrMemory written_item refusal result reader.new
        (named_item_at word reader.old) }
    ensures shorter { OnOk result (length reader.new.tokens < length reader.old.tokens) }
{
    let place = reader.place();
    reader.skip();
    let name = reader.name(alloc)?;
    let form = form(alloc, reader, word)?;
    Ok(DraftItem { place, name, form })
}

#[tactic(auto, unfolding(crate::specs::Items::worded_item_at))]
fn worded_item(alloc: Global, reader: &mut Reader, word: Word) -> Result<DraftItem, ReadError>
    ensures reads { LeavesOrMemory written_item refusal result reader.new
        (worded_item_at word reader.old) }
    ensures shorter { OnOk result (length reader.new.tokens < length reader.old.tokens) }
{
    if begins_item(word) {
        return named_item(alloc, reader, word);
    }
    Err(ReadError::Unexpected(reader.place()))
}

#[tactic(auto, unfolding(crate::specs::Items::item_at))]
fn item(alloc: Global, reader: &mut Reader) -> Result<DraftItem, ReadError>
    ensures reads { LeavesOrMemory written_item refusal result reader.new (item_at reader.old) }
    ensures shorter { OnOk result (length reader.new.tokens < length reader.old.tokens) }
{
    match reader.next_word() {
        Some(word) => worded_item(alloc, reader, word),
        None => Err(ReadError::Unexpected(reader.place())),
    }
}

#[tactic(auto, unfolding(crate::specs::Items::further_item_at))]
fn further_item(alloc: Global, reader: &mut Reader, items: &mut DraftItems) -> Result<(), ReadError>
    ensures reads { GivesOrMemory (λ _. (items_of items.new, reader.new)) refusal result
        (further_item_at (items_of items.old, reader.old)) }
    ensures shorter { OnOk result (length reader.new.tokens < length reader.old.tokens) }
{
    let item = item(alloc, reader)?;
    items.push(item)?;
    Ok(())
}

/// Items up to the end of the text.
#[tactic(auto, unfolding(crate::specs::Items::items_at))]
fn items(alloc: Global, reader: &mut Reader) -> Result<DraftItems, ReadError>
    ensures { LeavesOrMemory items_of refusal result reader.new (items_at reader.old) }
{
    let mut items = RxList::new(alloc);
    'items: while reader.is_more() {
        further_item(alloc, reader, &mut items)?;
    }
    Ok(items)
}

/// The budget and the items that the tokens of an app file stand for.
#[tactic(auto, unfolding(crate::specs::Items::read_at))]
fn parts(alloc: Global, tokens: &TokenList<'_>) -> Result<(u32, DraftItems), ReadError>
    ensures { GivesOrMemory shape_of_parts refusal result (read_at tokens.now) }
{
    let mut reader = Reader::new(tokens);
    let budget = budget(&mut reader)?;
    let items = items(alloc, &mut reader)?;
    Ok((budget, items))
}

/// The draft that the tokens of an app file stand for. The refusal is the first from the left.
pub fn read(alloc: Global, tokens: &TokenList<'_>) -> Result<Draft, ReadError>
    ensures { GivesOrMemory draft_shape_of refusal result (read_at tokens.now) }
{
    tokens.know_cut();
    let (budget, items) = parts(alloc, tokens)?;
    Ok(Draft::new(budget, items))
}
