//! A file from its first byte to its last.

ghost use Rattle.std.specs.Prelude.{◌≡◌, ◌+◌, ◌++◌, length, Ok, true, IfOk, IfErr, OnOk};
ghost use Rattle.std.specs.Str.{IsUtf8};
ghost use Rattle.rx_value.specs.Results.{RefusesOrMemory};
ghost use Rattle.app_tokens.specs.Layout.{StandIn};
ghost use Rattle.app_tokens.specs.Scan.{refusal, token_list, tokens_from, tokens_of};

use crate::error::TokenError;
use crate::list::TokenList;
use crate::piece::first_piece;
use crate::token::{Kind, Spelling, Token};
use rx_value::Memory;
use std::alloc::Global;
use std::str;

fn push_token<'a>(
    tokens: &mut Vec<Token<'a>>,
    kind: Option<Kind>,
    place: usize,
    spelling: &'a str,
) -> Result<(), Memory>
    ensures { OnOk result (tokens.new.items ≡ tokens.old.items ++ token_list kind place spelling.now) }
{
    if let Some(kind) = kind {
        let spelling = Spelling::new(spelling);
        let token = Token {
            kind,
            place,
            spelling,
        };
        if tokens.push(token).is_err() {
            return Err(Memory);
        }
    }
    Ok(())
}

/// The tokens of a text, which is a whole file or what stands before its first byte that is no
/// UTF-8.
fn scan<'a>(alloc: Global, text: &'a str, whole: bool) -> Result<TokenList<'a>, TokenError>
    ensures accepted { IfOk result (λ list. tokens_from whole 0 0 text.now ≡ Ok list.tokens) }
    ensures end { IfOk result (λ list. list.end ≡ length text.now) }
    ensures whole { OnOk result (whole ≡ true) }
    ensures refused { IfErr result (λ error. RefusesOrMemory refusal error (tokens_from whole 0 0 text.now)) }
{
    let mut tokens = Vec::new(alloc);
    let mut rest = text;
    while !rest.is_empty() {
        let place = text.len() - rest.len();
        let piece = first_piece(alloc, rest, place, whole)?;
        let (spelling, after) = rest.split_at(piece.size);
        push_token(&mut tokens, piece.kind, place, spelling)?;
        rest = after;
    }
    if !whole {
        return Err(TokenError::BadByte(text.len()));
    }
    Ok(TokenList::new(tokens, text.len()))
}

/// Cuts the bytes of an app file into tokens. The refusal is the first from the left.
pub fn tokens(alloc: Global, text: &[u8]) -> Result<TokenList<'_>, TokenError>
    ensures accepted { IfOk result (λ list. tokens_of text.now ≡ Ok list) }
    ensures refused { IfErr result (λ error. RefusesOrMemory refusal error (tokens_of text.now)) }
    ensures laid_out { IfOk result (λ list. StandIn 0 text.now list.tokens) }
    ensures end { IfOk result (λ list. list.end ≡ length text.now) }
    ensures utf8 { OnOk result (IsUtf8 text.now) }
{
    match str::from_utf8(text) {
        Ok(whole) => scan(alloc, whole, true),
        Err(error) => {
            let front = &text[..error.valid_up_to()];
            match str::from_utf8(front) {
                Ok(front) => scan(alloc, front, false),
                Err(_) => unreachable!(),
            }
        }
    }
}
