//! Constants, priorities and the budget.

ghost use Rattle.std.specs.Prelude.{◌≡◌, ◌<◌, ◌≤◌, length, OnOk, IfOk};
ghost use Rattle.rx_value.specs.Results.{GivesOrMemory, LeavesOrMemory};
ghost use Rattle.app_reader.specs.State.{refusal};
ghost use Rattle.app_tree.specs.Fits.{is_budget};
ghost use Rattle.app_reader.specs.Constants.{signed_at, behind_minus, further_number_at, numbers_at, optional_numbers_at, list_at, is_constant_word_next, constant_at, priority_at, limit_at, budget_at};

use crate::atoms::word_constant;
use crate::error::ReadError;
use crate::reader::Reader;
use app_tokens::{Symbol, Word};
use app_tree::{BUDGET_DEFAULT, BUDGET_LIMIT};
use rx_value::{LIST_LIMIT, RxInts, RxList, Value};
use std::alloc::Global;

/// A number with or without a minus.
#[tactic(auto, unfolding(crate::specs::Constants::signed_at))]
fn signed(reader: &mut Reader) -> Result<i64, ReadError>
    ensures reads { LeavesOrMemory (λ n. n) refusal result reader.new (signed_at reader.old) }
    ensures shorter { OnOk result (length reader.new.tokens < length reader.old.tokens) }
{
    if reader.is_symbol(Symbol::Minus) {
        reader.skip();
        let number = reader.number()?;
        return Ok(number.negative());
    }
    let number = reader.number()?;
    Ok(number.positive())
}

fn skip_minus(reader: &mut Reader)
    ensures { reader.new ≡ behind_minus reader.old }
{
    if reader.is_symbol(Symbol::Minus) {
        reader.skip();
    }
}

/// A comma, which stands next, and a further number.
#[tactic(auto, unfolding(crate::specs::Constants::further_number_at))]
fn further_number(reader: &mut Reader, numbers: &mut RxInts) -> Result<(), ReadError>
    ensures reads { GivesOrMemory (λ _. (numbers.new, reader.new)) refusal result
        (further_number_at (numbers.old, reader.old)) }
    ensures shorter { OnOk result (length reader.new.tokens < length reader.old.tokens) }
{
    reader.skip();
    if numbers.len() == LIST_LIMIT {
        skip_minus(reader);
        return Err(ReadError::Unexpected(reader.place()));
    }
    let number = signed(reader)?;
    numbers.push(number)?;
    Ok(())
}

/// One or more numbers, with commas between them.
#[tactic(auto, unfolding(crate::specs::Constants::numbers_at))]
fn numbers(alloc: Global, reader: &mut Reader) -> Result<RxInts, ReadError>
    ensures reads { LeavesOrMemory (λ n. n) refusal result reader.new (numbers_at reader.old) }
    ensures shorter { OnOk result (length reader.new.tokens < length reader.old.tokens) }
{
    let first = signed(reader)?;
    let mut numbers = RxList::new(alloc);
    numbers.push(first)?;
    'numbers: while reader.is_symbol(Symbol::Comma) {
        further_number(reader, &mut numbers)?;
    }
    Ok(numbers)
}

/// Numbers, if there are any, before a closing bracket.
#[tactic(auto, unfolding(crate::specs::Constants::optional_numbers_at))]
fn optional_numbers(alloc: Global, reader: &mut Reader) -> Result<RxInts, ReadError>
    ensures reads { LeavesOrMemory (λ n. n) refusal result reader.new
        (optional_numbers_at reader.old) }
    ensures shorter { OnOk result (length reader.new.tokens ≤ length reader.old.tokens) }
{
    if reader.is_symbol(Symbol::Close) {
        return Ok(RxList::new(alloc));
    }
    numbers(alloc, reader)
}

/// `c(number, number)`, where `c` stands.
#[tactic(auto, unfolding(crate::specs::Constants::list_at))]
fn list(alloc: Global, reader: &mut Reader) -> Result<Value, ReadError>
    ensures reads { LeavesOrMemory (λ k. k) refusal result reader.new (list_at reader.old) }
    ensures shorter { OnOk result (length reader.new.tokens < length reader.old.tokens) }
{
    reader.skip();
    reader.symbol(Symbol::Open)?;
    let numbers = optional_numbers(alloc, reader)?;
    reader.symbol(Symbol::Close)?;
    Ok(Value::Ints(numbers))
}

fn is_constant_word_next(reader: &Reader) -> bool
    ensures { result ≡ is_constant_word_next reader.now }
{
    reader.is_word(Word::True) || reader.is_word(Word::False) || reader.is_word(Word::Null)
}

/// The constant at which an input or a value starts.
#[tactic(auto, unfolding(crate::specs::Constants::constant_at))]
pub fn constant(alloc: Global, reader: &mut Reader) -> Result<Value, ReadError>
    ensures reads { LeavesOrMemory (λ k. k) refusal result reader.new (constant_at reader.old) }
    ensures shorter { OnOk result (length reader.new.tokens < length reader.old.tokens) }
{
    if reader.is_text() {
        return Ok(Value::Text(reader.text(alloc)?));
    }
    if reader.is_word(Word::C) {
        return list(alloc, reader);
    }
    if is_constant_word_next(reader) {
        return word_constant(reader);
    }
    Ok(Value::Int(signed(reader)?))
}

/// The priority that is written; 0 where none is.
#[tactic(auto, unfolding(crate::specs::Constants::priority_at))]
pub fn priority(reader: &mut Reader) -> Result<i64, ReadError>
    ensures reads { LeavesOrMemory (λ p. p) refusal result reader.new (priority_at reader.old) }
    ensures shorter { OnOk result (length reader.new.tokens ≤ length reader.old.tokens) }
{
    if reader.is_word(Word::Priority) {
        reader.skip();
        return signed(reader);
    }
    Ok(0)
}

fn is_budget(number: u64) -> bool
    ensures { result ≡ is_budget number }
{
    1 <= number && number <= u64::from(BUDGET_LIMIT)
}

/// The budget's number.
#[tactic(auto, unfolding(crate::specs::Constants::limit_at))]
fn limit(reader: &mut Reader) -> Result<u32, ReadError>
    ensures reads { LeavesOrMemory (λ n. n) refusal result reader.new (limit_at reader.old) }
    ensures shorter { OnOk result (length reader.new.tokens < length reader.old.tokens) }
{
    let place = reader.place();
    let number = reader.number()?.value();
    if !is_budget(number) {
        return Err(ReadError::Unexpected(place));
    }
    Ok(number as u32)
}

/// The budget that is written, from 1 to 1,000,000; 1,000 where none is.
#[tactic(auto, unfolding(crate::specs::Constants::budget_at))]
pub fn budget(reader: &mut Reader) -> Result<u32, ReadError>
    ensures reads { LeavesOrMemory (λ n. n) refusal result reader.new (budget_at reader.old) }
    ensures shorter { OnOk result (length reader.new.tokens ≤ length reader.old.tokens) }
{
    if !reader.is_word(Word::Budget) {
        return Ok(BUDGET_DEFAULT);
    }
    reader.skip();
    let limit = limit(reader)?;
    reader.symbol(Symbol::Semicolon)?;
    Ok(limit)
}
