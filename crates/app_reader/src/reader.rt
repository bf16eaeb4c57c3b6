//! A cursor over tokens.

ghost use Rattle.std.specs.Prelude.{◌≡◌, ◌<◌, ◌≤◌, length, OnOk};
ghost use Rattle.rx_value.specs.Results.{LeavesOrMemory};
ghost use Rattle.app_reader.specs.State.{place_of, skip, is_word_next, is_symbol_next, is_name_next, is_text_next, is_name, is_text, is_more, word_of, symbol_of, next_word, next_symbol, word_at, symbol_at, name_at, number_at, text_at, refusal};
ghost use Rattle.app_reader.specs.inner.View.{number_now};

use crate::error::ReadError;
use app_tokens::{Kind, Number, Symbol, Token, TokenList, Word};
use app_tree::Name;
use rx_value::RxText;
use std::alloc::Global;
use std::marker::Model;

/// The tokens that are left, and where the text ends.
#[derive(Drop)]
pub struct Reader<'a, 'b> {
    tokens: &'a [Token<'b>],
    end: usize,
}

impl<'a, 'b> Model for Reader<'a, 'b> {
    ghost use Rattle.std.specs.Coded.{codes};
    ghost use Rattle.app_tokens.specs.Tokens.{Tokens};

    ghost Value = { Tokens };

    ghost coded = { Prim.hlevel (codes) };

    ghost view = { λ reader. record { tokens = reader.tokens.now; end = reader.end } };
}

fn is_name(kind: &Kind) -> bool
    ensures { result ≡ is_name kind.now }
{
    match kind {
        Kind::Name => true,
        Kind::Word(_) | Kind::Number(_) | Kind::Text(_) | Kind::Symbol(_) => false,
    }
}

fn is_text(kind: &Kind) -> bool
    ensures { result ≡ is_text kind.now }
{
    match kind {
        Kind::Text(_) => true,
        Kind::Name | Kind::Word(_) | Kind::Number(_) | Kind::Symbol(_) => false,
    }
}

fn word_of(kind: &Kind) -> Option<Word>
    ensures { result ≡ word_of kind.now }
{
    match kind {
        Kind::Word(word) => Some(*word),
        Kind::Name | Kind::Number(_) | Kind::Text(_) | Kind::Symbol(_) => None,
    }
}

fn symbol_of(kind: &Kind) -> Option<Symbol>
    ensures { result ≡ symbol_of kind.now }
{
    match kind {
        Kind::Symbol(symbol) => Some(*symbol),
        Kind::Name | Kind::Word(_) | Kind::Number(_) | Kind::Text(_) => None,
    }
}

impl<'a, 'b> Reader<'a, 'b> {
    pub fn new(list: &'a TokenList<'b>) -> Reader<'a, 'b>
        ensures { result ≡ list.now }
    {
        Reader {
            tokens: list.as_slice(),
            end: list.end(),
        }
    }
}

impl<'a> Reader<'a, '_> {
    /// Where the next token stands, or the text's length where the text ends there.
    pub fn place(&self) -> usize
        ensures { result ≡ place_of self.now }
    {
        match self.tokens {
            [] => self.end,
            [token, ..] => token.place,
        }
    }

    pub fn is_word(&self, word: Word) -> bool
        ensures { result ≡ is_word_next word self.now }
    {
        match self.tokens {
            [] => false,
            [token, ..] => token.kind.is_word(word),
        }
    }

    pub fn is_symbol(&self, symbol: Symbol) -> bool
        ensures { result ≡ is_symbol_next symbol self.now }
    {
        match self.tokens {
            [] => false,
            [token, ..] => token.kind.is_symbol(symbol),
        }
    }

    pub fn is_name(&self) -> bool
        ensures { result ≡ is_name_next self.now }
    {
        match self.tokens {
            [] => false,
            [token, ..] => is_name(&token.kind),
        }
    }

    pub fn is_text(&self) -> bool
        ensures { result ≡ is_text_next self.now }
    {
        match self.tokens {
            [] => false,
            [token, ..] => is_text(&token.kind),
        }
    }

    /// Whether the text goes on.
    pub fn is_more(&self) -> bool
        ensures { result ≡ is_more self.now }
    {
        match self.tokens {
            [] => false,
            [_, ..] => true,
        }
    }

    /// The reserved word that stands next, if one does.
    pub fn next_word(&self) -> Option<Word>
        ensures { result ≡ next_word self.now }
    {
        match self.tokens {
            [] => None,
            [token, ..] => word_of(&token.kind),
        }
    }

    /// The symbol that stands next, if one does.
    pub fn next_symbol(&self) -> Option<Symbol>
        ensures { result ≡ next_symbol self.now }
    {
        match self.tokens {
            [] => None,
            [token, ..] => symbol_of(&token.kind),
        }
    }

    /// Goes past the next token. At the end of the text it does nothing.
    pub fn skip(&mut self)
        ensures rest { self.new ≡ skip self.old }
        ensures shorter { length self.new.tokens ≤ length self.old.tokens }
    {
        if let [_, more @ ..] = self.tokens {
            self.tokens = more;
        }
    }

    /// Goes past this word, which has to stand next.
    #[tactic(auto, unfolding(crate::specs::State::word_at))]
    pub fn word(&mut self, word: Word) -> Result<(), ReadError>
        ensures reads { LeavesOrMemory (λ u. u) refusal result self.new (word_at word self.old) }
        ensures shorter { OnOk result (length self.new.tokens < length self.old.tokens) }
    {
        if !self.is_word(word) {
            return Err(ReadError::Unexpected(self.place()));
        }
        self.skip();
        Ok(())
    }

    /// Goes past this symbol, which has to stand next.
    #[tactic(auto, unfolding(crate::specs::State::symbol_at))]
    pub fn symbol(&mut self, symbol: Symbol) -> Result<(), ReadError>
        ensures reads { LeavesOrMemory (λ u. u) refusal result self.new
            (symbol_at symbol self.old) }
        ensures shorter { OnOk result (length self.new.tokens < length self.old.tokens) }
    {
        if !self.is_symbol(symbol) {
            return Err(ReadError::Unexpected(self.place()));
        }
        self.skip();
        Ok(())
    }

    /// The name that has to stand next.
    #[tactic(auto, unfolding(crate::specs::State::name_at))]
    pub fn name(&mut self, alloc: Global) -> Result<Name, ReadError>
        ensures reads { LeavesOrMemory (λ n. n) refusal result self.new (name_at self.old) }
        ensures shorter { OnOk result (length self.new.tokens < length self.old.tokens) }
    {
        match self.tokens {
            [token, more @ ..] => {
                if !is_name(&token.kind) {
                    return Err(ReadError::Unexpected(token.place));
                }
                let text = RxText::from_str(alloc, token.spelling.as_str())?;
                self.tokens = more;
                Ok(Name {
                    text,
                    place: token.place,
                })
            }
            [] => Err(ReadError::Unexpected(self.end)),
        }
    }

    /// The number that has to stand next.
    #[tactic(auto, unfolding(crate::specs::State::number_at))]
    pub fn number(&mut self) -> Result<&'a Number, ReadError>
        ensures reads { LeavesOrMemory number_now refusal result self.new (number_at self.old) }
        ensures shorter { OnOk result (length self.new.tokens < length self.old.tokens) }
    {
        match self.tokens {
            [token, more @ ..] => match &token.kind {
                Kind::Number(number) => {
                    self.tokens = more;
                    Ok(number)
                }
                Kind::Name | Kind::Word(_) | Kind::Text(_) | Kind::Symbol(_) => Err(
                    ReadError::Unexpected(token.place),
                ),
            },
            [] => Err(ReadError::Unexpected(self.end)),
        }
    }

    /// A copy of the text that has to stand next.
    #[tactic(auto, unfolding(crate::specs::State::text_at))]
    pub fn text(&mut self, alloc: Global) -> Result<RxText, ReadError>
        ensures reads { LeavesOrMemory (λ t. t) refusal result self.new (text_at self.old) }
        ensures shorter { OnOk result (length self.new.tokens < length self.old.tokens) }
    {
        match self.tokens {
            [token, more @ ..] => match &token.kind {
                Kind::Text(text) => {
                    let text = text.copy(alloc)?;
                    self.tokens = more;
                    Ok(text)
                }
                Kind::Name | Kind::Word(_) | Kind::Number(_) | Kind::Symbol(_) => Err(
                    ReadError::Unexpected(token.place),
                ),
            },
            [] => Err(ReadError::Unexpected(self.end)),
        }
    }
}
