//! Texts, from behind the opening quote to the closing one.

ghost use Rattle.std.specs.Prelude.{◌≡◌, ◌<◌, ◌+◌, ◌∷◌, [], ◌++◌, ◌^◌, length, drop, take_while, slice_index, IfOk, OnOk, IfSome, OnSome, IsTrue, SomeIff, ⊤};
ghost use Rattle.rx_value.specs.Results.{GivesOrMemory};
ghost use Rattle.app_tokens.specs.Scan.{refusal, is_pair, meaning_of, refusal_at_end, piece_within_limit, text_piece};
ghost use Rattle.app_tokens.specs.inner.Text.{is_plain, pair_of};

use crate::error::TokenError;
use crate::piece::{Piece, token};
use crate::token::Kind;
use rx_value::{Memory, RxText, TEXT_LIMIT};
use std::alloc::Global;

fn is_plain(byte: u8) -> bool
    ensures { result ≡ is_plain byte }
{
    !(byte == b'"' || byte == b'\\' || byte < b' ')
}

fn plain_size(bytes: &[u8]) -> usize
    ensures { result ≡ length (take_while is_plain bytes.now) }
{
    bytes.iter().take_while(|byte| is_plain(**byte)).count()
}

/// Puts the plain bytes in front at the end of the value, and gives what follows them.
fn push_plain<'a>(rest: &'a str, value: &mut RxText) -> Result<&'a str, Memory>
    ensures after { IfOk result (λ after. after.now ≡ drop (length (take_while is_plain rest.now)) rest.now) }
    ensures pushed { OnOk result (value.new ≡ value.old ++ take_while is_plain rest.now) }
{
    let (plain, after) = rest.split_at(plain_size(rest.as_bytes()));
    value.push_str(plain)?;
    Ok(after)
}

/// What a backslash and this byte stand for.
fn meaning(byte: u8) -> Option<u8>
    ensures { SomeIff result (IsTrue (is_pair byte)) (meaning_of byte) }
{
    match byte {
        b'"' | b'\\' => Some(byte),
        b'n' => Some(b'\n'),
        _ => None,
    }
}

fn refusal_at_end(whole: bool, quote: usize, place: usize) -> TokenError
    ensures { refusal_at_end {A = ⊤} whole quote place ≡ Err result }
{
    if whole {
        TokenError::OpenText(quote)
    } else {
        TokenError::BadByte(place)
    }
}

/// The byte that the pair in front stands for, or None at the closing quote.
#[tactic(auto, unfolding(crate::specs::inner::Text::pair_of))]
fn pair(bytes: &[u8], whole: bool, quote: usize, place: usize) -> Result<Option<u8>, TokenError>
    ensures said { result ≡ pair_of whole quote place bytes.now }
    ensures ascii { IfOk result (λ pair. IfSome pair (λ byte. byte < 128)) }
    ensures two { IfOk result (λ pair. OnSome pair ((1 < length bytes.now) × (slice_index bytes.now 1 < 128))) }
{
    match bytes {
        [b'"', ..] => Ok(None),
        [b'\\', byte, ..] => match meaning(*byte) {
            Some(byte) => Ok(Some(byte)),
            None => Err(TokenError::BadByte(place)),
        },
        [] | [b'\\'] => Err(refusal_at_end(whole, quote, place)),
        _ => Err(TokenError::BadByte(place)),
    }
}

fn push_ascii(value: &mut RxText, byte: u8) -> Result<(), Memory>
    requires { byte < 128 }
    ensures { OnOk result (value.new ≡ value.old ++ byte ∷ []) }
{
    value.push(byte as char)
}

fn behind_pair(rest: &str) -> &str
    requires some { 1 < length rest.now }
    requires ascii { slice_index rest.now 1 < 128 }
    ensures { result.now ≡ drop 2 rest.now }
{
    &rest[2..]
}

/// A text of this value, which may be too long.
fn piece_within_limit(size: usize, value: RxText, quote: usize) -> Result<Piece, TokenError>
    ensures { result ≡ piece_within_limit size value quote }
{
    if value.len() <= TEXT_LIMIT {
        Ok(token(size, Kind::Text(value)))
    } else {
        Err(TokenError::BadByte(quote))
    }
}

/// The text that opens at `quote`, by the bytes behind the quote.
#[tactic(auto, unfolding(crate::specs::Scan::text_piece))]
pub fn text(alloc: Global, inside: &str, quote: usize, whole: bool) -> Result<Piece, TokenError>
    requires { quote + length inside.now + 1 < 2 ^ 63 }
    ensures { GivesOrMemory (λ piece. piece) refusal result (text_piece whole quote inside.now) }
{
    let mut value = RxText::new(alloc);
    let mut rest = inside;
    loop {
        rest = push_plain(rest, &mut value)?;
        let place = quote + 1 + (inside.len() - rest.len());
        match pair(rest.as_bytes(), whole, quote, place)? {
            Some(byte) => {
                push_ascii(&mut value, byte)?;
                rest = behind_pair(rest);
            }
            None => return piece_within_limit(place + 1 - quote, value, quote),
        }
    }
}
