ghost use Rattle.std.specs.Prelude.{◌≡◌, ◌==◌, ◌<◌, length, Some, slice_get};
ghost use Rattle.app_tokens.specs.Scan.{AreCut};

use crate::token::Token;
use std::marker::Model;

/// The tokens of a file in their order, and where the file ends. Contracts see both. The tokens are
/// those of some text.
#[derive(Debug, Drop)]
pub struct TokenList<'a> {
    tokens: Vec<Token<'a>>,
    end: usize,
}

impl<'a> Model for TokenList<'a> {
    ghost use Rattle.std.specs.Coded.{codes};
    ghost use Rattle.app_tokens.specs.Tokens.{Tokens};
    ghost use Rattle.app_tokens.specs.Scan.{AreCut};

    ghost Value = { Tokens };

    ghost coded = { Prim.hlevel (codes) };

    ghost view = { λ list. record { tokens = list.tokens.items; end = list.end } };

    ghost invariant = { λ list. AreCut list.tokens.items };
}

impl<'a> TokenList<'a> {
    pub(crate) fn new(tokens: Vec<Token<'a>>, end: usize) -> TokenList<'a>
        requires { AreCut tokens.items }
        ensures { result ≡ record { tokens = tokens.entry.items; end = end } }
    {
        TokenList { tokens, end }
    }

    /// Does nothing. Its contract tells what each list keeps: its tokens are those of a text.
    pub fn know_cut(&self)
        ensures { AreCut self.now.tokens }
    {
        let _ = &self.tokens;
    }

    /// The count of tokens.
    pub fn len(&self) -> usize
        ensures { result ≡ length self.now.tokens }
    {
        self.tokens.len()
    }

    pub fn is_empty(&self) -> bool
        ensures { result ≡ (length self.now.tokens == 0) }
    {
        self.tokens.is_empty()
    }

    /// The token at `index`, counted from 0.
    pub fn get(&self, index: usize) -> &Token<'a>
        requires { index < length self.now.tokens }
        ensures { slice_get self.now.tokens index ≡ Some result.now }
    {
        &self.tokens[index]
    }

    /// The tokens in their order.
    pub fn as_slice(&self) -> &[Token<'a>]
        ensures { result.now ≡ self.now.tokens }
    {
        self.tokens.as_slice()
    }

    /// The place behind the file's last byte: its length in bytes.
    pub fn end(&self) -> usize
        ensures { result ≡ self.now.end }
    {
        self.end
    }
}
