//! Terms: `if`, the operators by their ranks, signs, and what has terms in brackets.
//!
//! `below` is the number of levels that a term inside the one that is read may have.

ghost use Rattle.std.specs.Prelude.{◌≡◌, ◌<◌, ◌≤◌, length, OnOk, Ok, nat_lt};
ghost use Rattle.app_tree.specs.DraftView.{draft_tree_of};
ghost use Rattle.app_tree.specs.DraftTree.{binary};
ghost use Rattle.rx_value.specs.Results.{GivesOrMemory, LeavesOrMemory};
ghost use Rattle.app_reader.specs.State.{refusal};
ghost use Rattle.app_reader.specs.Terms.{bracketed_at, group_at, isolate_at, stop_at, require_at, part_at, last_part_at, fold_at, fold_start_at, further_at, listed_at, counted_at, optional_at, arguments_at, call_at, special_at, worded_at, atom_at, next_sign, unary_in, next_operator, is_operator_next, operator_at, right_at, chain_at, once_at, operand_at, or_at, operation_at, ways_at, choice_at, term_in, term_at, unary_at, level_at, whole_term_at};
ghost use Rattle.app_reader.specs.inner.View.{trees_of, ways_of};

use crate::atoms::{cancels, inner_names, input, literal, named, read, word_term};
use crate::error::ReadError;
use crate::operators::{Rank, count_of, function_of, operator_of, read_form_of, sign_of};
use crate::reader::Reader;
use app_tokens::{Symbol, Word};
use app_tree::{DraftTerm, DraftTerms, Function, LEVEL_LIMIT, OPERATOR_LIMIT, Operator};
use rx_value::UnOp;
use sqlite_items::{Boxed, Items};
use std::alloc::Global;

fn next_sign(reader: &Reader) -> Option<UnOp>
    ensures { result ≡ next_sign reader.now }
{
    match reader.next_symbol() {
        Some(symbol) => sign_of(symbol),
        None => None,
    }
}

fn next_operator(reader: &Reader, rank: Rank) -> Option<Operator>
    ensures { result ≡ next_operator rank reader.now }
{
    match reader.next_symbol() {
        Some(symbol) => operator_of(rank, symbol),
        None => None,
    }
}

fn is_operator_next(reader: &Reader, rank: Rank) -> bool
    ensures { result ≡ is_operator_next rank reader.now }
{
    match next_operator(reader, rank) {
        Some(_) => true,
        None => false,
    }
}

/// Whether the terms are fewer than `count`.
#[tactic(auto, using(crate::proofs::Lists::fewer))]
fn is_fewer(terms: &DraftTerms, count: usize) -> bool
    ensures { result ≡ nat_lt (length (trees_of terms.now)) count }
{
    terms.len() < count
}

/// The operator that has to stand next. `room` is how many the term may still have.
#[tactic(auto, unfolding(crate::specs::Terms::operator_at))]
fn operator(reader: &mut Reader, room: &mut u32, rank: Rank) -> Result<Operator, ReadError>
    ensures reads { LeavesOrMemory (λ o. o) refusal result (room.new, reader.new)
        (operator_at rank (room.old, reader.old)) }
    ensures shorter { OnOk result (length reader.new.tokens ≤ length reader.old.tokens) }
{
    let Some(operator) = next_operator(reader, rank) else {
        return Err(ReadError::Unexpected(reader.place()));
    };
    if *room == 0 {
        return Err(ReadError::TooDeep(reader.place()));
    }
    *room -= 1;
    reader.skip();
    Ok(operator)
}

/// A term with so many levels, on the heap.
#[cycle(term)]
fn inner(alloc: Global, reader: &mut Reader, levels: u32) -> Result<Boxed<DraftTerm>, ReadError>
    ensures reads { LeavesOrMemory draft_tree_of refusal result reader.new
        (term_at levels reader.old) }
    ensures shorter { OnOk result (length reader.new.tokens < length reader.old.tokens) }
{
    let term = term(alloc, reader, levels)?;
    Ok(Boxed::new(alloc, term)?)
}

/// A term with so many levels.
#[cycle(term)]
#[tactic(auto, unfolding(crate::specs::Terms::term_at))]
fn term(alloc: Global, reader: &mut Reader, levels: u32) -> Result<DraftTerm, ReadError>
    ensures reads { LeavesOrMemory draft_tree_of refusal result reader.new
        (term_at levels reader.old) }
    ensures shorter { OnOk result (length reader.new.tokens < length reader.old.tokens) }
{
    if levels == 0 {
        return Err(ReadError::TooDeep(reader.place()));
    }
    term_inside(alloc, reader, levels - 1)
}

#[cycle(term)]
#[tactic(auto, unfolding(crate::specs::Terms::term_in))]
fn term_inside(alloc: Global, reader: &mut Reader, below: u32) -> Result<DraftTerm, ReadError>
    ensures reads { LeavesOrMemory draft_tree_of refusal result reader.new
        (term_in (term_at below) (unary_at below) reader.old) }
    ensures shorter { OnOk result (length reader.new.tokens < length reader.old.tokens) }
{
    if reader.is_word(Word::If) {
        return choice(alloc, reader, below);
    }
    operation(alloc, reader, below)
}

/// `if (term) term else term`
#[cycle(term)]
#[tactic(auto, unfolding(crate::specs::Terms::choice_at))]
fn choice(alloc: Global, reader: &mut Reader, below: u32) -> Result<DraftTerm, ReadError>
    ensures reads { LeavesOrMemory draft_tree_of refusal result reader.new
        (choice_at (term_at below) reader.old) }
    ensures shorter { OnOk result (length reader.new.tokens < length reader.old.tokens) }
{
    reader.skip();
    let condition = bracketed(alloc, reader, below)?;
    let (chosen, otherwise) = ways(alloc, reader, below)?;
    Ok(DraftTerm::If {
        condition,
        chosen,
        otherwise,
    })
}

/// `term else term`
#[cycle(term)]
#[tactic(auto, unfolding(crate::specs::Terms::ways_at))]
fn ways(
    alloc: Global,
    reader: &mut Reader,
    below: u32,
) -> Result<(Boxed<DraftTerm>, Boxed<DraftTerm>), ReadError>
    ensures reads { LeavesOrMemory ways_of refusal result reader.new
        (ways_at (term_at below) reader.old) }
    ensures shorter { OnOk result (length reader.new.tokens < length reader.old.tokens) }
{
    let chosen = inner(alloc, reader, below)?;
    reader.word(Word::Else)?;
    let otherwise = inner(alloc, reader, below)?;
    Ok((chosen, otherwise))
}

/// A term of operators.
#[cycle(term)]
#[tactic(auto, unfolding(crate::specs::Terms::operation_at))]
fn operation(alloc: Global, reader: &mut Reader, below: u32) -> Result<DraftTerm, ReadError>
    ensures reads { LeavesOrMemory draft_tree_of refusal result reader.new
        (operation_at (unary_in (term_at below) (unary_at below)) reader.old) }
    ensures shorter { OnOk result (length reader.new.tokens < length reader.old.tokens) }
{
    let mut room = OPERATOR_LIMIT;
    level(alloc, reader, below, &mut room, Rank::Or)
}

/// Operands with operators of this rank between them.
#[cycle(term)]
fn level(
    alloc: Global,
    reader: &mut Reader,
    below: u32,
    room: &mut u32,
    rank: Rank,
) -> Result<DraftTerm, ReadError>
    ensures reads { LeavesOrMemory draft_tree_of refusal result (room.new, reader.new)
        (level_at (unary_in (term_at below) (unary_at below)) rank (room.old, reader.old)) }
    ensures shorter { OnOk result (length reader.new.tokens < length reader.old.tokens) }
{
    match rank {
        Rank::Comparison => once(alloc, reader, below, room, rank),
        Rank::Product | Rank::Sum | Rank::And | Rank::Or => chain(alloc, reader, below, room, rank),
    }
}

/// Any number of operators of this rank; they associate to the left.
#[cycle(term)]
#[tactic(auto, unfolding(crate::specs::Terms::chain_at))]
fn chain(
    alloc: Global,
    reader: &mut Reader,
    below: u32,
    room: &mut u32,
    rank: Rank,
) -> Result<DraftTerm, ReadError>
    ensures reads { LeavesOrMemory draft_tree_of refusal result (room.new, reader.new)
        (chain_at rank (operand_at (unary_in (term_at below) (unary_at below)) rank) (room.old, reader.old)) }
    ensures shorter { OnOk result (length reader.new.tokens < length reader.old.tokens) }
{
    let mut left = operand(alloc, reader, below, room, rank)?;
    'chain: while is_operator_next(reader, rank) {
        left = right(alloc, reader, below, room, rank, left)?;
    }
    Ok(left)
}

/// At most one operator of this rank.
#[cycle(term)]
#[tactic(auto, unfolding(crate::specs::Terms::once_at))]
fn once(
    alloc: Global,
    reader: &mut Reader,
    below: u32,
    room: &mut u32,
    rank: Rank,
) -> Result<DraftTerm, ReadError>
    ensures reads { LeavesOrMemory draft_tree_of refusal result (room.new, reader.new)
        (once_at rank (operand_at (unary_in (term_at below) (unary_at below)) rank) (room.old, reader.old)) }
    ensures shorter { OnOk result (length reader.new.tokens < length reader.old.tokens) }
{
    let left = operand(alloc, reader, below, room, rank)?;
    if is_operator_next(reader, rank) {
        return right(alloc, reader, below, room, rank, left);
    }
    Ok(left)
}

/// The term of an operator between its operands.
fn operator_term(
    alloc: Global,
    operator: Operator,
    left: DraftTerm,
    right: Boxed<DraftTerm>,
) -> Result<DraftTerm, ReadError>
    ensures { GivesOrMemory draft_tree_of refusal result
        (Ok (binary operator (draft_tree_of left) (draft_tree_of right))) }
{
    Ok(DraftTerm::Binary(operator, Boxed::new(alloc, left)?, right))
}

/// An operator of this rank and its right operand, behind its left one.
#[cycle(term)]
#[tactic(auto, unfolding(crate::specs::Terms::right_at))]
fn right(
    alloc: Global,
    reader: &mut Reader,
    below: u32,
    room: &mut u32,
    rank: Rank,
    left: DraftTerm,
) -> Result<DraftTerm, ReadError>
    ensures reads { LeavesOrMemory draft_tree_of refusal result (room.new, reader.new)
        (right_at rank (operand_at (unary_in (term_at below) (unary_at below)) rank)
        (draft_tree_of left, (room.old, reader.old))) }
    ensures shorter { OnOk result (length reader.new.tokens < length reader.old.tokens) }
{
    let operator = operator(reader, room, rank)?;
    let right = inner_operand(alloc, reader, below, room, rank)?;
    let term = operator_term(alloc, operator, left, right)?;
    Ok(term)
}

/// What stands between operators of this rank, on the heap.
#[cycle(term)]
fn inner_operand(
    alloc: Global,
    reader: &mut Reader,
    below: u32,
    room: &mut u32,
    rank: Rank,
) -> Result<Boxed<DraftTerm>, ReadError>
    ensures reads { LeavesOrMemory draft_tree_of refusal result (room.new, reader.new)
        (operand_at (unary_in (term_at below) (unary_at below)) rank (room.old, reader.old)) }
    ensures shorter { OnOk result (length reader.new.tokens < length reader.old.tokens) }
{
    let operand = operand(alloc, reader, below, room, rank)?;
    Ok(Boxed::new(alloc, operand)?)
}

/// What stands between operators of this rank.
#[cycle(term)]
fn operand(
    alloc: Global,
    reader: &mut Reader,
    below: u32,
    room: &mut u32,
    rank: Rank,
) -> Result<DraftTerm, ReadError>
    ensures reads { LeavesOrMemory draft_tree_of refusal result (room.new, reader.new)
        (operand_at (unary_in (term_at below) (unary_at below)) rank (room.old, reader.old)) }
    ensures shorter { OnOk result (length reader.new.tokens < length reader.old.tokens) }
{
    match rank {
        Rank::Product => unary_inside(alloc, reader, below),
        Rank::Sum => level(alloc, reader, below, room, Rank::Product),
        Rank::Comparison => level(alloc, reader, below, room, Rank::Sum),
        Rank::And => level(alloc, reader, below, room, Rank::Comparison),
        Rank::Or => level(alloc, reader, below, room, Rank::And),
    }
}

/// The operand of a sign, with so many levels.
#[cycle(term)]
#[tactic(auto, unfolding(crate::specs::Terms::unary_at))]
fn unary(alloc: Global, reader: &mut Reader, levels: u32) -> Result<DraftTerm, ReadError>
    ensures reads { LeavesOrMemory draft_tree_of refusal result reader.new
        (unary_at levels reader.old) }
    ensures shorter { OnOk result (length reader.new.tokens < length reader.old.tokens) }
{
    if levels == 0 {
        return Err(ReadError::TooDeep(reader.place()));
    }
    unary_inside(alloc, reader, levels - 1)
}

#[cycle(term)]
#[tactic(auto, unfolding(crate::specs::Terms::unary_in))]
fn unary_inside(alloc: Global, reader: &mut Reader, below: u32) -> Result<DraftTerm, ReadError>
    ensures reads { LeavesOrMemory draft_tree_of refusal result reader.new
        (unary_in (term_at below) (unary_at below) reader.old) }
    ensures shorter { OnOk result (length reader.new.tokens < length reader.old.tokens) }
{
    if let Some(sign) = next_sign(reader) {
        reader.skip();
        let operand = unary(alloc, reader, below)?;
        return Ok(DraftTerm::Unary(sign, Boxed::new(alloc, operand)?));
    }
    atom(alloc, reader, below)
}

#[cycle(term)]
#[tactic(auto, unfolding(crate::specs::Terms::atom_at))]
fn atom(alloc: Global, reader: &mut Reader, below: u32) -> Result<DraftTerm, ReadError>
    ensures reads { LeavesOrMemory draft_tree_of refusal result reader.new
        (atom_at (term_at below) reader.old) }
    ensures shorter { OnOk result (length reader.new.tokens < length reader.old.tokens) }
{
    if reader.is_symbol(Symbol::Open) {
        return group(alloc, reader, below);
    }
    if reader.is_name() {
        return named(alloc, reader);
    }
    match reader.next_word() {
        Some(word) => worded(alloc, reader, below, word),
        None => literal(alloc, reader),
    }
}

/// What begins with this reserved word, which stands next.
#[cycle(term)]
#[tactic(auto, unfolding(crate::specs::Terms::worded_at))]
fn worded(
    alloc: Global,
    reader: &mut Reader,
    below: u32,
    word: Word,
) -> Result<DraftTerm, ReadError>
    ensures reads { LeavesOrMemory draft_tree_of refusal result reader.new
        (worded_at (term_at below) word reader.old) }
    ensures shorter { OnOk result (length reader.new.tokens < length reader.old.tokens) }
{
    if let Some(function) = function_of(word) {
        return call(alloc, reader, below, function);
    }
    if let Some(form) = read_form_of(word) {
        return read(alloc, reader, form);
    }
    special(alloc, reader, below)
}

/// What begins with a reserved word that is no function and no read in brackets.
#[cycle(term)]
#[tactic(auto, unfolding(crate::specs::Terms::special_at))]
fn special(alloc: Global, reader: &mut Reader, below: u32) -> Result<DraftTerm, ReadError>
    ensures reads { LeavesOrMemory draft_tree_of refusal result reader.new
        (special_at (term_at below) reader.old) }
    ensures shorter { OnOk result (length reader.new.tokens < length reader.old.tokens) }
{
    if reader.is_word(Word::Input) {
        return input(alloc, reader);
    }
    if reader.is_word(Word::Isolate) {
        return isolate(alloc, reader, below);
    }
    if reader.is_word(Word::Stop) {
        return stop(alloc, reader, below);
    }
    if reader.is_word(Word::Req) {
        return require(alloc, reader, below);
    }
    if reader.is_word(Word::Fold) {
        return fold(alloc, reader, below);
    }
    word_term(reader)
}

/// `(term)`
#[cycle(term)]
#[tactic(auto, unfolding(crate::specs::Terms::bracketed_at))]
fn bracketed(alloc: Global, reader: &mut Reader, below: u32) -> Result<Boxed<DraftTerm>, ReadError>
    ensures reads { LeavesOrMemory draft_tree_of refusal result reader.new
        (bracketed_at (term_at below) reader.old) }
    ensures shorter { OnOk result (length reader.new.tokens < length reader.old.tokens) }
{
    reader.symbol(Symbol::Open)?;
    let inner = inner(alloc, reader, below)?;
    reader.symbol(Symbol::Close)?;
    Ok(inner)
}

#[cycle(term)]
#[tactic(auto, unfolding(crate::specs::Terms::group_at))]
fn group(alloc: Global, reader: &mut Reader, below: u32) -> Result<DraftTerm, ReadError>
    ensures reads { LeavesOrMemory draft_tree_of refusal result reader.new
        (group_at (term_at below) reader.old) }
    ensures shorter { OnOk result (length reader.new.tokens < length reader.old.tokens) }
{
    Ok(DraftTerm::Group(bracketed(alloc, reader, below)?))
}

/// `isolate(term)`, where `isolate` stands.
#[cycle(term)]
#[tactic(auto, unfolding(crate::specs::Terms::isolate_at))]
fn isolate(alloc: Global, reader: &mut Reader, below: u32) -> Result<DraftTerm, ReadError>
    ensures reads { LeavesOrMemory draft_tree_of refusal result reader.new
        (isolate_at (term_at below) reader.old) }
    ensures shorter { OnOk result (length reader.new.tokens < length reader.old.tokens) }
{
    let place = reader.place();
    reader.skip();
    let inner = bracketed(alloc, reader, below)?;
    Ok(DraftTerm::Isolate(place, inner))
}

/// `stop(term)`, where `stop` stands.
#[cycle(term)]
#[tactic(auto, unfolding(crate::specs::Terms::stop_at))]
fn stop(alloc: Global, reader: &mut Reader, below: u32) -> Result<DraftTerm, ReadError>
    ensures reads { LeavesOrMemory draft_tree_of refusal result reader.new
        (stop_at (term_at below) reader.old) }
    ensures shorter { OnOk result (length reader.new.tokens < length reader.old.tokens) }
{
    reader.skip();
    Ok(DraftTerm::Stop(bracketed(alloc, reader, below)?))
}

/// `req(term)` or `req(term, cancelOutput)`, where `req` stands.
#[cycle(term)]
#[tactic(auto, unfolding(crate::specs::Terms::require_at))]
fn require(alloc: Global, reader: &mut Reader, below: u32) -> Result<DraftTerm, ReadError>
    ensures reads { LeavesOrMemory draft_tree_of refusal result reader.new
        (require_at (term_at below) reader.old) }
    ensures shorter { OnOk result (length reader.new.tokens < length reader.old.tokens) }
{
    reader.skip();
    reader.symbol(Symbol::Open)?;
    let term = inner(alloc, reader, below)?;
    let cancels = cancels(reader)?;
    reader.symbol(Symbol::Close)?;
    Ok(DraftTerm::Require { term, cancels })
}

/// `fold(term, term, NAME, NAME, term)`, where `fold` stands.
#[cycle(term)]
#[tactic(auto, unfolding(crate::specs::Terms::fold_at))]
fn fold(alloc: Global, reader: &mut Reader, below: u32) -> Result<DraftTerm, ReadError>
    ensures reads { LeavesOrMemory draft_tree_of refusal result reader.new
        (fold_at (term_at below) reader.old) }
    ensures shorter { OnOk result (length reader.new.tokens < length reader.old.tokens) }
{
    let place = reader.place();
    reader.skip();
    let (list, start) = fold_start(alloc, reader, below)?;
    let (accumulator, element) = inner_names(alloc, reader)?;
    let body = last_part(alloc, reader, below)?;
    Ok(DraftTerm::Fold {
        place,
        list,
        start,
        accumulator,
        element,
        body,
    })
}

/// `(term, term,`
#[cycle(term)]
#[tactic(auto, unfolding(crate::specs::Terms::fold_start_at))]
fn fold_start(
    alloc: Global,
    reader: &mut Reader,
    below: u32,
) -> Result<(Boxed<DraftTerm>, Boxed<DraftTerm>), ReadError>
    ensures reads { LeavesOrMemory ways_of refusal result reader.new
        (fold_start_at (term_at below) reader.old) }
    ensures shorter { OnOk result (length reader.new.tokens < length reader.old.tokens) }
{
    reader.symbol(Symbol::Open)?;
    let list = part(alloc, reader, below)?;
    let start = part(alloc, reader, below)?;
    Ok((list, start))
}

/// `term,`
#[cycle(term)]
#[tactic(auto, unfolding(crate::specs::Terms::part_at))]
fn part(alloc: Global, reader: &mut Reader, below: u32) -> Result<Boxed<DraftTerm>, ReadError>
    ensures reads { LeavesOrMemory draft_tree_of refusal result reader.new
        (part_at (term_at below) reader.old) }
    ensures shorter { OnOk result (length reader.new.tokens < length reader.old.tokens) }
{
    let part = inner(alloc, reader, below)?;
    reader.symbol(Symbol::Comma)?;
    Ok(part)
}

/// `term)`
#[cycle(term)]
#[tactic(auto, unfolding(crate::specs::Terms::last_part_at))]
fn last_part(alloc: Global, reader: &mut Reader, below: u32) -> Result<Boxed<DraftTerm>, ReadError>
    ensures reads { LeavesOrMemory draft_tree_of refusal result reader.new
        (last_part_at (term_at below) reader.old) }
    ensures shorter { OnOk result (length reader.new.tokens < length reader.old.tokens) }
{
    let part = inner(alloc, reader, below)?;
    reader.symbol(Symbol::Close)?;
    Ok(part)
}

/// A call of the function whose word stands next.
#[cycle(term)]
#[tactic(auto, unfolding(crate::specs::Terms::call_at))]
fn call(
    alloc: Global,
    reader: &mut Reader,
    below: u32,
    function: Function,
) -> Result<DraftTerm, ReadError>
    ensures reads { LeavesOrMemory draft_tree_of refusal result reader.new
        (call_at (term_at below) function reader.old) }
    ensures shorter { OnOk result (length reader.new.tokens < length reader.old.tokens) }
{
    reader.skip();
    reader.symbol(Symbol::Open)?;
    let arguments = arguments(alloc, reader, below, count_of(function))?;
    reader.symbol(Symbol::Close)?;
    Ok(DraftTerm::Call(function, arguments))
}

/// So many arguments, or any number.
#[cycle(term)]
fn arguments(
    alloc: Global,
    reader: &mut Reader,
    below: u32,
    count: Option<usize>,
) -> Result<DraftTerms, ReadError>
    ensures reads { LeavesOrMemory trees_of refusal result reader.new
        (arguments_at (term_at below) count reader.old) }
    ensures shorter { OnOk result (length reader.new.tokens ≤ length reader.old.tokens) }
{
    match count {
        Some(count) => counted(alloc, reader, below, count),
        None => optional(alloc, reader, below),
    }
}

/// So many terms, with commas between them.
#[cycle(term)]
#[tactic(auto, unfolding(crate::specs::Terms::counted_at))]
fn counted(
    alloc: Global,
    reader: &mut Reader,
    below: u32,
    count: usize,
) -> Result<DraftTerms, ReadError>
    ensures reads { LeavesOrMemory trees_of refusal result reader.new
        (counted_at (term_at below) count reader.old) }
    ensures shorter { OnOk result (length reader.new.tokens < length reader.old.tokens) }
{
    let first = term(alloc, reader, below)?;
    let mut terms = Items::new(alloc);
    terms.push(first)?;
    'terms: while is_fewer(&terms, count) {
        further(alloc, reader, below, &mut terms)?;
    }
    Ok(terms)
}

/// Any number of terms before a closing bracket.
#[cycle(term)]
#[tactic(auto, unfolding(crate::specs::Terms::optional_at))]
fn optional(alloc: Global, reader: &mut Reader, below: u32) -> Result<DraftTerms, ReadError>
    ensures reads { LeavesOrMemory trees_of refusal result reader.new
        (optional_at (term_at below) reader.old) }
    ensures shorter { OnOk result (length reader.new.tokens ≤ length reader.old.tokens) }
{
    if reader.is_symbol(Symbol::Close) {
        return Ok(Items::new(alloc));
    }
    listed(alloc, reader, below)
}

/// One or more terms, with commas between them.
#[cycle(term)]
#[tactic(auto, unfolding(crate::specs::Terms::listed_at))]
fn listed(alloc: Global, reader: &mut Reader, below: u32) -> Result<DraftTerms, ReadError>
    ensures reads { LeavesOrMemory trees_of refusal result reader.new
        (listed_at (term_at below) reader.old) }
    ensures shorter { OnOk result (length reader.new.tokens < length reader.old.tokens) }
{
    let first = term(alloc, reader, below)?;
    let mut terms = Items::new(alloc);
    terms.push(first)?;
    'terms: while reader.is_symbol(Symbol::Comma) {
        further(alloc, reader, below, &mut terms)?;
    }
    Ok(terms)
}

/// A comma and a further term.
#[cycle(term)]
#[tactic(auto, unfolding(crate::specs::Terms::further_at))]
fn further(
    alloc: Global,
    reader: &mut Reader,
    below: u32,
    terms: &mut DraftTerms,
) -> Result<(), ReadError>
    ensures reads { GivesOrMemory (λ _. (trees_of terms.new, reader.new)) refusal result
        (further_at (term_at below) (trees_of terms.old, reader.old)) }
    ensures shorter { OnOk result (length reader.new.tokens < length reader.old.tokens) }
{
    reader.symbol(Symbol::Comma)?;
    let term = term(alloc, reader, below)?;
    terms.push(term)?;
    Ok(())
}

/// The whole term of a body, a key, an event, a task or a statement.
pub fn whole_term(alloc: Global, reader: &mut Reader) -> Result<DraftTerm, ReadError>
    ensures reads { LeavesOrMemory draft_tree_of refusal result reader.new
        (whole_term_at reader.old) }
    ensures shorter { OnOk result (length reader.new.tokens < length reader.old.tokens) }
{
    term(alloc, reader, LEVEL_LIMIT)
}

/// A whole term in brackets.
#[tactic(auto, unfolding(crate::specs::Terms::bracketed_at))]
pub fn whole_bracketed(alloc: Global, reader: &mut Reader) -> Result<DraftTerm, ReadError>
    ensures reads { LeavesOrMemory draft_tree_of refusal result reader.new
        (bracketed_at whole_term_at reader.old) }
    ensures shorter { OnOk result (length reader.new.tokens < length reader.old.tokens) }
{
    reader.symbol(Symbol::Open)?;
    let inner = term(alloc, reader, LEVEL_LIMIT)?;
    reader.symbol(Symbol::Close)?;
    Ok(inner)
}

/// Any number of whole terms before a closing bracket.
pub fn whole_optional(alloc: Global, reader: &mut Reader) -> Result<DraftTerms, ReadError>
    ensures reads { LeavesOrMemory trees_of refusal result reader.new
        (optional_at whole_term_at reader.old) }
    ensures shorter { OnOk result (length reader.new.tokens ≤ length reader.old.tokens) }
{
    optional(alloc, reader, LEVEL_LIMIT)
}

/// One or more whole terms, with commas between them.
pub fn whole_listed(alloc: Global, reader: &mut Reader) -> Result<DraftTerms, ReadError>
    ensures reads { LeavesOrMemory trees_of refusal result reader.new
        (listed_at whole_term_at reader.old) }
    ensures shorter { OnOk result (length reader.new.tokens < length reader.old.tokens) }
{
    listed(alloc, reader, LEVEL_LIMIT)
}
