//! Writes, statements, blocks and bodies.

ghost use Rattle.std.specs.Prelude.{◌≡◌, ◌<◌, ◌≤◌, length, OnOk};
ghost use Rattle.app_tree.specs.DraftView.{draft_tree_of, draft_act_of, deed_of, write_of, written_body};
ghost use Rattle.rx_value.specs.Results.{GivesOrMemory, LeavesOrMemory};
ghost use Rattle.app_reader.specs.State.{refusal};
ghost use Rattle.app_reader.specs.inner.View.{assigned_of, trees_of, acts_of, deeds_of};
ghost use Rattle.app_reader.specs.Statements.{assigned_at, set_at, update_at, sent_at, invoke_at, freeze_at, deed_at, write_at, begins_write, begins_statement, is_write_next, is_statement_next, do_at, branch_at, statement_at, further_statement_at, statements_at, block_in, block_at, whole_block_at, further_write_at, writes_at, body_at};

use crate::error::ReadError;
use crate::reader::Reader;
use crate::terms::{whole_bracketed, whole_optional, whole_term};
use app_tokens::{Symbol, Word};
use app_tree::{
    DraftAction, DraftBlock, DraftBody, DraftStatement, DraftTerm, DraftTerms, DraftWrite,
    DraftWrites, LEVEL_LIMIT, Name,
};
use rx_value::RxList;
use sqlite_items::Items;
use std::alloc::Global;

/// `NAME = term;`
#[tactic(auto, unfolding(crate::specs::Statements::assigned_at))]
fn assigned(alloc: Global, reader: &mut Reader) -> Result<(Name, DraftTerm), ReadError>
    ensures reads { LeavesOrMemory assigned_of refusal result reader.new (assigned_at reader.old) }
    ensures shorter { OnOk result (length reader.new.tokens < length reader.old.tokens) }
{
    let name = reader.name(alloc)?;
    reader.symbol(Symbol::Assign)?;
    let term = whole_term(alloc, reader)?;
    reader.symbol(Symbol::Semicolon)?;
    Ok((name, term))
}

#[tactic(auto, unfolding(crate::specs::Statements::set_at))]
fn set(alloc: Global, reader: &mut Reader) -> Result<DraftAction, ReadError>
    ensures reads { LeavesOrMemory deed_of refusal result reader.new (set_at reader.old) }
    ensures shorter { OnOk result (length reader.new.tokens < length reader.old.tokens) }
{
    reader.skip();
    let (name, term) = assigned(alloc, reader)?;
    Ok(DraftAction::Set(name, term))
}

#[tactic(auto, unfolding(crate::specs::Statements::update_at))]
fn update(alloc: Global, reader: &mut Reader) -> Result<DraftAction, ReadError>
    ensures reads { LeavesOrMemory deed_of refusal result reader.new (update_at reader.old) }
    ensures shorter { OnOk result (length reader.new.tokens < length reader.old.tokens) }
{
    reader.skip();
    let (name, term) = assigned(alloc, reader)?;
    Ok(DraftAction::Update(name, term))
}

/// The arguments of `invoke` in their brackets.
#[tactic(auto, unfolding(crate::specs::Statements::sent_at))]
fn sent(alloc: Global, reader: &mut Reader) -> Result<DraftTerms, ReadError>
    ensures reads { LeavesOrMemory trees_of refusal result reader.new (sent_at reader.old) }
    ensures shorter { OnOk result (length reader.new.tokens < length reader.old.tokens) }
{
    reader.symbol(Symbol::Open)?;
    let terms = whole_optional(alloc, reader)?;
    reader.symbol(Symbol::Close)?;
    Ok(terms)
}

#[tactic(auto, unfolding(crate::specs::Statements::invoke_at))]
fn invoke(alloc: Global, reader: &mut Reader) -> Result<DraftAction, ReadError>
    ensures reads { LeavesOrMemory deed_of refusal result reader.new (invoke_at reader.old) }
    ensures shorter { OnOk result (length reader.new.tokens < length reader.old.tokens) }
{
    reader.skip();
    let name = reader.name(alloc)?;
    let arguments = sent(alloc, reader)?;
    reader.symbol(Symbol::Semicolon)?;
    Ok(DraftAction::Invoke(name, arguments))
}

#[tactic(auto, unfolding(crate::specs::Statements::freeze_at))]
fn freeze(alloc: Global, reader: &mut Reader) -> Result<DraftAction, ReadError>
    ensures reads { LeavesOrMemory deed_of refusal result reader.new (freeze_at reader.old) }
    ensures shorter { OnOk result (length reader.new.tokens < length reader.old.tokens) }
{
    reader.skip();
    let name = reader.name(alloc)?;
    reader.symbol(Symbol::Semicolon)?;
    Ok(DraftAction::Freeze(name))
}

#[tactic(auto, unfolding(crate::specs::Statements::deed_at))]
fn action(alloc: Global, reader: &mut Reader) -> Result<DraftAction, ReadError>
    ensures reads { LeavesOrMemory deed_of refusal result reader.new (deed_at reader.old) }
    ensures shorter { OnOk result (length reader.new.tokens < length reader.old.tokens) }
{
    if reader.is_word(Word::Set) {
        return set(alloc, reader);
    }
    if reader.is_word(Word::Invoke) {
        return invoke(alloc, reader);
    }
    if reader.is_word(Word::Update) {
        return update(alloc, reader);
    }
    if reader.is_word(Word::Freeze) {
        return freeze(alloc, reader);
    }
    Err(ReadError::Unexpected(reader.place()))
}

#[tactic(auto, unfolding(crate::specs::Statements::write_at))]
fn write(alloc: Global, reader: &mut Reader) -> Result<DraftWrite, ReadError>
    ensures reads { LeavesOrMemory write_of refusal result reader.new (write_at reader.old) }
    ensures shorter { OnOk result (length reader.new.tokens < length reader.old.tokens) }
{
    let place = reader.place();
    let action = action(alloc, reader)?;
    Ok(DraftWrite { place, action })
}

fn begins_write(word: Word) -> bool
    ensures { result ≡ begins_write word }
{
    match word {
        Word::Set | Word::Invoke | Word::Update | Word::Freeze => true,
        _ => false,
    }
}

fn begins_statement(word: Word) -> bool
    ensures { result ≡ begins_statement word }
{
    match word {
        Word::Set | Word::Invoke | Word::Update | Word::Freeze | Word::Do | Word::If => true,
        _ => false,
    }
}

fn is_write_next(reader: &Reader) -> bool
    ensures { result ≡ is_write_next reader.now }
{
    match reader.next_word() {
        Some(word) => begins_write(word),
        None => false,
    }
}

fn is_statement_next(reader: &Reader) -> bool
    ensures { result ≡ is_statement_next reader.now }
{
    match reader.next_word() {
        Some(word) => begins_statement(word),
        None => false,
    }
}

/// `do term;`, where `do` stands.
#[tactic(auto, unfolding(crate::specs::Statements::do_at))]
fn perform(alloc: Global, reader: &mut Reader) -> Result<DraftStatement, ReadError>
    ensures reads { LeavesOrMemory draft_act_of refusal result reader.new (do_at reader.old) }
    ensures shorter { OnOk result (length reader.new.tokens < length reader.old.tokens) }
{
    reader.skip();
    let term = whole_term(alloc, reader)?;
    reader.symbol(Symbol::Semicolon)?;
    Ok(DraftStatement::Do(term))
}

/// `if (term) block` or `if (term) block else block`, where `if` stands. The blocks have so many
/// levels.
#[cycle(block)]
#[tactic(auto, unfolding(crate::specs::Statements::branch_at))]
fn branch(alloc: Global, reader: &mut Reader, below: u32) -> Result<DraftStatement, ReadError>
    ensures reads { LeavesOrMemory draft_act_of refusal result reader.new
        (branch_at (block_at below) reader.old) }
    ensures shorter { OnOk result (length reader.new.tokens < length reader.old.tokens) }
{
    reader.skip();
    let condition = whole_bracketed(alloc, reader)?;
    let chosen = block(alloc, reader, below)?;
    if reader.is_word(Word::Else) {
        reader.skip();
        let otherwise = block(alloc, reader, below)?;
        return Ok(DraftStatement::IfElse(condition, chosen, otherwise));
    }
    Ok(DraftStatement::If(condition, chosen))
}

#[cycle(block)]
#[tactic(auto, unfolding(crate::specs::Statements::statement_at))]
fn statement(alloc: Global, reader: &mut Reader, below: u32) -> Result<DraftStatement, ReadError>
    ensures reads { LeavesOrMemory draft_act_of refusal result reader.new
        (statement_at (block_at below) reader.old) }
    ensures shorter { OnOk result (length reader.new.tokens < length reader.old.tokens) }
{
    if reader.is_word(Word::Do) {
        return perform(alloc, reader);
    }
    if reader.is_word(Word::If) {
        return branch(alloc, reader, below);
    }
    Ok(DraftStatement::Write(write(alloc, reader)?))
}

#[cycle(block)]
#[tactic(auto, unfolding(crate::specs::Statements::further_statement_at))]
fn further_statement(
    alloc: Global,
    reader: &mut Reader,
    below: u32,
    statements: &mut DraftBlock,
) -> Result<(), ReadError>
    ensures reads { GivesOrMemory (λ _. (acts_of statements.new, reader.new)) refusal result
        (further_statement_at (block_at below) (acts_of statements.old, reader.old)) }
    ensures shorter { OnOk result (length reader.new.tokens < length reader.old.tokens) }
{
    let statement = statement(alloc, reader, below)?;
    statements.push(statement)?;
    Ok(())
}

#[cycle(block)]
#[tactic(auto, unfolding(crate::specs::Statements::statements_at))]
fn statements(alloc: Global, reader: &mut Reader, below: u32) -> Result<DraftBlock, ReadError>
    ensures reads { LeavesOrMemory acts_of refusal result reader.new
        (statements_at (block_at below) reader.old) }
    ensures shorter { OnOk result (length reader.new.tokens ≤ length reader.old.tokens) }
{
    let mut statements = Items::new(alloc);
    'statements: while is_statement_next(reader) {
        further_statement(alloc, reader, below, &mut statements)?;
    }
    Ok(statements)
}

#[cycle(block)]
#[tactic(auto, unfolding(crate::specs::Statements::block_in))]
fn block_inside(alloc: Global, reader: &mut Reader, below: u32) -> Result<DraftBlock, ReadError>
    ensures reads { LeavesOrMemory acts_of refusal result reader.new
        (block_in (block_at below) reader.old) }
    ensures shorter { OnOk result (length reader.new.tokens < length reader.old.tokens) }
{
    reader.symbol(Symbol::OpenBrace)?;
    let statements = statements(alloc, reader, below)?;
    reader.symbol(Symbol::CloseBrace)?;
    Ok(statements)
}

/// A block with so many levels.
#[cycle(block)]
#[tactic(auto, unfolding(crate::specs::Statements::block_at))]
fn block(alloc: Global, reader: &mut Reader, levels: u32) -> Result<DraftBlock, ReadError>
    ensures reads { LeavesOrMemory acts_of refusal result reader.new (block_at levels reader.old) }
    ensures shorter { OnOk result (length reader.new.tokens < length reader.old.tokens) }
{
    if levels == 0 {
        return Err(ReadError::TooDeep(reader.place()));
    }
    block_inside(alloc, reader, levels - 1)
}

/// The block of an item.
pub fn whole_block(alloc: Global, reader: &mut Reader) -> Result<DraftBlock, ReadError>
    ensures reads { LeavesOrMemory acts_of refusal result reader.new (whole_block_at reader.old) }
    ensures shorter { OnOk result (length reader.new.tokens < length reader.old.tokens) }
{
    block(alloc, reader, LEVEL_LIMIT)
}

#[tactic(auto, unfolding(crate::specs::Statements::further_write_at))]
fn further_write(
    alloc: Global,
    reader: &mut Reader,
    writes: &mut DraftWrites,
) -> Result<(), ReadError>
    ensures reads { GivesOrMemory (λ _. (deeds_of writes.new, reader.new)) refusal result
        (further_write_at (deeds_of writes.old, reader.old)) }
    ensures shorter { OnOk result (length reader.new.tokens < length reader.old.tokens) }
{
    let write = write(alloc, reader)?;
    writes.push(write)?;
    Ok(())
}

#[tactic(auto, unfolding(crate::specs::Statements::writes_at))]
fn writes(alloc: Global, reader: &mut Reader) -> Result<DraftWrites, ReadError>
    ensures reads { LeavesOrMemory deeds_of refusal result reader.new (writes_at reader.old) }
    ensures shorter { OnOk result (length reader.new.tokens ≤ length reader.old.tokens) }
{
    let mut writes = RxList::new(alloc);
    'writes: while is_write_next(reader) {
        further_write(alloc, reader, &mut writes)?;
    }
    Ok(writes)
}

/// A body in its braces.
#[tactic(auto, unfolding(crate::specs::Statements::body_at))]
pub fn body(alloc: Global, reader: &mut Reader) -> Result<DraftBody, ReadError>
    ensures reads { LeavesOrMemory written_body refusal result reader.new (body_at reader.old) }
    ensures shorter { OnOk result (length reader.new.tokens < length reader.old.tokens) }
{
    reader.symbol(Symbol::OpenBrace)?;
    let writes = writes(alloc, reader)?;
    let term = whole_term(alloc, reader)?;
    reader.symbol(Symbol::CloseBrace)?;
    Ok(DraftBody { writes, term })
}
