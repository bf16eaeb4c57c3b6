//! The atoms without a term in them.

ghost use Rattle.std.specs.Prelude.{◌≡◌, ◌<◌, ◌≤◌, length, OnOk};
ghost use Rattle.app_tree.specs.DraftView.{draft_tree_of};
ghost use Rattle.rx_value.specs.Results.{LeavesOrMemory};
ghost use Rattle.app_reader.specs.State.{refusal};
ghost use Rattle.app_reader.specs.Terms.{named_at, input_at, read_at, truth_at, word_constant_at, word_term_at, literal_at, cancels_at, inner_name_at, inner_names_at};

use crate::error::ReadError;
use crate::reader::Reader;
use app_tokens::{Symbol, Word};
use app_tree::{DraftTerm, Name, ReadForm};
use rx_value::Value;
use std::alloc::Global;

/// `NAME()` or `NAME`.
#[tactic(auto, unfolding(crate::specs::Terms::named_at))]
pub fn named(alloc: Global, reader: &mut Reader) -> Result<DraftTerm, ReadError>
    ensures reads { LeavesOrMemory draft_tree_of refusal result reader.new (named_at reader.old) }
    ensures shorter { OnOk result (length reader.new.tokens < length reader.old.tokens) }
{
    let name = reader.name(alloc)?;
    if !reader.is_symbol(Symbol::Open) {
        return Ok(DraftTerm::Variable(name));
    }
    reader.skip();
    reader.symbol(Symbol::Close)?;
    Ok(DraftTerm::Read {
        form: ReadForm::Named,
        place: name.place,
        name,
    })
}

/// `input$NAME`, where `input` stands.
#[tactic(auto, unfolding(crate::specs::Terms::input_at))]
pub fn input(alloc: Global, reader: &mut Reader) -> Result<DraftTerm, ReadError>
    ensures reads { LeavesOrMemory draft_tree_of refusal result reader.new (input_at reader.old) }
    ensures shorter { OnOk result (length reader.new.tokens < length reader.old.tokens) }
{
    let place = reader.place();
    reader.skip();
    reader.symbol(Symbol::Dollar)?;
    let name = reader.name(alloc)?;
    Ok(DraftTerm::Read {
        form: ReadForm::Input,
        place,
        name,
    })
}

/// A name in brackets behind the word that stands there, which reads in this form.
#[tactic(auto, unfolding(crate::specs::Terms::read_at))]
pub fn read(alloc: Global, reader: &mut Reader, form: ReadForm) -> Result<DraftTerm, ReadError>
    ensures reads { LeavesOrMemory draft_tree_of refusal result reader.new
        (read_at form reader.old) }
    ensures shorter { OnOk result (length reader.new.tokens < length reader.old.tokens) }
{
    let place = reader.place();
    reader.skip();
    reader.symbol(Symbol::Open)?;
    let name = reader.name(alloc)?;
    reader.symbol(Symbol::Close)?;
    Ok(DraftTerm::Read { form, place, name })
}

/// `TRUE` or `FALSE`; None for `NULL`.
#[tactic(auto, unfolding(crate::specs::Terms::truth_at))]
fn truth(reader: &mut Reader) -> Result<Option<bool>, ReadError>
    ensures reads { LeavesOrMemory (λ t. t) refusal result reader.new (truth_at reader.old) }
    ensures shorter { OnOk result (length reader.new.tokens < length reader.old.tokens) }
{
    if reader.is_word(Word::True) {
        reader.word(Word::True)?;
        return Ok(Some(true));
    }
    if reader.is_word(Word::False) {
        reader.word(Word::False)?;
        return Ok(Some(false));
    }
    reader.word(Word::Null)?;
    Ok(None)
}

/// `TRUE`, `FALSE` or `NULL` as a value.
#[tactic(auto, unfolding(crate::specs::Terms::word_constant_at))]
pub fn word_constant(reader: &mut Reader) -> Result<Value, ReadError>
    ensures reads { LeavesOrMemory (λ k. k) refusal result reader.new
        (word_constant_at reader.old) }
    ensures shorter { OnOk result (length reader.new.tokens < length reader.old.tokens) }
{
    match truth(reader)? {
        Some(truth) => Ok(Value::Bool(truth)),
        None => Ok(Value::Null),
    }
}

/// `TRUE`, `FALSE` or `NULL` as a term.
#[tactic(auto, unfolding(crate::specs::Terms::word_term_at))]
pub fn word_term(reader: &mut Reader) -> Result<DraftTerm, ReadError>
    ensures reads { LeavesOrMemory draft_tree_of refusal result reader.new
        (word_term_at reader.old) }
    ensures shorter { OnOk result (length reader.new.tokens < length reader.old.tokens) }
{
    match truth(reader)? {
        Some(truth) => Ok(DraftTerm::Bool(truth)),
        None => Ok(DraftTerm::Null),
    }
}

/// A text or a number.
#[tactic(auto, unfolding(crate::specs::Terms::literal_at))]
pub fn literal(alloc: Global, reader: &mut Reader) -> Result<DraftTerm, ReadError>
    ensures reads { LeavesOrMemory draft_tree_of refusal result reader.new (literal_at reader.old) }
    ensures shorter { OnOk result (length reader.new.tokens < length reader.old.tokens) }
{
    if reader.is_text() {
        return Ok(DraftTerm::Text(reader.text(alloc)?));
    }
    let number = reader.number()?;
    Ok(DraftTerm::Int(number.positive()))
}

/// `, cancelOutput`, if it stands there.
#[tactic(auto, unfolding(crate::specs::Terms::cancels_at))]
pub fn cancels(reader: &mut Reader) -> Result<bool, ReadError>
    ensures reads { LeavesOrMemory (λ b. b) refusal result reader.new (cancels_at reader.old) }
    ensures shorter { OnOk result (length reader.new.tokens ≤ length reader.old.tokens) }
{
    if !reader.is_symbol(Symbol::Comma) {
        return Ok(false);
    }
    reader.skip();
    reader.word(Word::CancelOutput)?;
    Ok(true)
}

/// `NAME,`
#[tactic(auto, unfolding(crate::specs::Terms::inner_name_at))]
fn inner_name(alloc: Global, reader: &mut Reader) -> Result<Name, ReadError>
    ensures reads { LeavesOrMemory (λ n. n) refusal result reader.new (inner_name_at reader.old) }
    ensures shorter { OnOk result (length reader.new.tokens < length reader.old.tokens) }
{
    let name = reader.name(alloc)?;
    reader.symbol(Symbol::Comma)?;
    Ok(name)
}

/// `NAME, NAME,`
#[tactic(auto, unfolding(crate::specs::Terms::inner_names_at))]
pub fn inner_names(alloc: Global, reader: &mut Reader) -> Result<(Name, Name), ReadError>
    ensures reads { LeavesOrMemory (λ n. n) refusal result reader.new (inner_names_at reader.old) }
    ensures shorter { OnOk result (length reader.new.tokens < length reader.old.tokens) }
{
    let accumulator = inner_name(alloc, reader)?;
    let element = inner_name(alloc, reader)?;
    Ok((accumulator, element))
}
