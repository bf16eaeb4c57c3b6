//! What stands at one place of a file.

ghost use Rattle.std.specs.Prelude.{◌≡◌, ◌<◌, ◌≤◌, ◌+◌, ◌^◌, length, drop, take_while, slice_index, MatchOption};
ghost use Rattle.rx_value.specs.Results.{GivesOrMemory};
ghost use Rattle.rx_value.specs.Names.{is_letter, is_digit, is_of_word};
ghost use Rattle.app_tokens.specs.Scan.{gap, token, is_blank, is_of_comment, value_after, number_piece, word_piece, symbol_piece, piece_of, AreDigits, refusal};

use crate::error::TokenError;
use crate::symbol::first_symbol;
use crate::text::text;
use crate::token::{Kind, Number};
use crate::word::reserved_word;
use rx_value::GREATEST_NUMBER;
use std::alloc::Global;

/// So many bytes, and the token that they are, if they are one.
#[derive(Debug, Drop)]
pub struct Piece {
    pub size: usize,
    pub kind: Option<Kind>,
}

fn gap(size: usize) -> Piece
    ensures { result ≡ gap size }
{
    Piece { size, kind: None }
}

fn is_blank(byte: u8) -> bool
    ensures { result ≡ is_blank byte }
{
    matches!(byte, b' ' | b'\t' | b'\n' | b'\r')
}

fn is_letter(byte: u8) -> bool
    ensures { result ≡ is_letter byte }
{
    byte.is_ascii_alphabetic()
}

fn is_digit(byte: u8) -> bool
    ensures { result ≡ is_digit byte }
{
    byte.is_ascii_digit()
}

fn is_of_word(byte: u8) -> bool
    ensures { result ≡ is_of_word byte }
{
    is_letter(byte) || is_digit(byte) || byte == b'_'
}

fn is_of_comment(byte: u8) -> bool
    ensures { result ≡ is_of_comment byte }
{
    byte != b'\n'
}

/// So many bytes that are a token.
pub fn token(size: usize, kind: Kind) -> Piece
    ensures { result ≡ token size kind }
{
    Piece {
        size,
        kind: Some(kind),
    }
}

fn word_size(bytes: &[u8]) -> usize
    ensures { result ≡ length (take_while is_of_word bytes.now) }
{
    bytes.iter().take_while(|byte| is_of_word(**byte)).count()
}

fn digits_size(bytes: &[u8]) -> usize
    ensures { result ≡ length (take_while is_digit bytes.now) }
{
    bytes.iter().take_while(|byte| is_digit(**byte)).count()
}

fn comment_size(bytes: &[u8]) -> usize
    ensures { result ≡ length (take_while is_of_comment bytes.now) }
{
    bytes
        .iter()
        .take_while(|byte| is_of_comment(**byte))
        .count()
}

fn word_of(bytes: &[u8]) -> &[u8]
    ensures { result.now ≡ take_while is_of_word bytes.now }
{
    let size = word_size(bytes);
    &bytes[..size]
}

fn digits_of(bytes: &[u8]) -> &[u8]
    ensures spelled { result.now ≡ take_while is_digit bytes.now }
    ensures digits { AreDigits result.now }
{
    let size = digits_size(bytes);
    &bytes[..size]
}

#[tactic(auto, unfolding(crate::specs::Scan::word_piece))]
fn word_piece(bytes: &[u8]) -> Piece
    ensures { result ≡ word_piece (take_while is_of_word bytes.now) }
{
    let spelling = word_of(bytes);
    match reserved_word(spelling) {
        Some(word) => token(spelling.len(), Kind::Word(word)),
        None => token(spelling.len(), Kind::Name),
    }
}

/// The number that digits spell, where it is at most the greatest number of a file.
fn number(digits: &[u8]) -> Option<Number>
    requires { AreDigits digits.now }
    ensures { MatchOption result (GREATEST_NUMBER < value_after 0 digits.now)
        (λ n. (n ≡ value_after 0 digits.now) × (n ≤ GREATEST_NUMBER)) }
{
    let mut value: u64 = 0;
    for digit in digits {
        let digit = (*digit - b'0') as u64;
        if value > (GREATEST_NUMBER - digit) / 10 {
            return None;
        }
        value = value * 10 + digit;
    }
    Some(Number::new(value))
}

#[tactic(auto, unfolding(crate::specs::Scan::number_piece))]
fn number_piece(place: usize, bytes: &[u8]) -> Result<Piece, TokenError>
    ensures { result ≡ number_piece place (take_while is_digit bytes.now) }
{
    let digits = digits_of(bytes);
    match number(digits) {
        Some(number) => Ok(token(digits.len(), Kind::Number(number))),
        None => Err(TokenError::BadByte(place)),
    }
}

#[tactic(auto, unfolding(crate::specs::Scan::symbol_piece))]
fn symbol_piece(place: usize, bytes: &[u8]) -> Result<Piece, TokenError>
    ensures { result ≡ symbol_piece place bytes.now }
{
    match first_symbol(bytes) {
        Some((symbol, size)) => Ok(token(size, Kind::Symbol(symbol))),
        None => Err(TokenError::BadByte(place)),
    }
}

fn behind_quote(rest: &str) -> &str
    requires some { 0 < length rest.now }
    requires ascii { slice_index rest.now 0 < 128 }
    ensures { result.now ≡ drop 1 rest.now }
{
    &rest[1..]
}

/// The piece that begins the rest of a file, which stands at `place`. `whole` says whether the rest
/// ends with the file, and not because the next byte is no UTF-8.
#[tactic(auto, unfolding(crate::specs::Scan::piece_of))]
pub fn first_piece(
    alloc: Global,
    rest: &str,
    place: usize,
    whole: bool,
) -> Result<Piece, TokenError>
    requires { place + length rest.now < 2 ^ 63 }
    ensures { GivesOrMemory (λ piece. piece) refusal result (piece_of whole place rest.now) }
{
    let bytes = rest.as_bytes();
    let [byte, ..] = bytes else {
        return Err(TokenError::BadByte(place));
    };
    if is_blank(*byte) {
        Ok(gap(1))
    } else if *byte == b'#' {
        Ok(gap(comment_size(bytes)))
    } else if is_letter(*byte) {
        Ok(word_piece(bytes))
    } else if is_digit(*byte) {
        number_piece(place, bytes)
    } else if *byte == b'"' {
        text(alloc, behind_quote(rest), place, whole)
    } else {
        symbol_piece(place, bytes)
    }
}
