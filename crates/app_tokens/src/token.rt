ghost use Rattle.std.specs.Prelude.{◌≡◌, ◌≤◌, pos, neg_ℤ};
ghost use Rattle.app_tokens.specs.Kind.{same_word, same_symbol, is_word, is_symbol};

use crate::symbol::Symbol;
use crate::word::Word;
use rx_value::{GREATEST_NUMBER, RxText};
use std::marker::Model;

/// The bytes of a token as they stand in the file, which contracts see as the list of these bytes.
#[derive(Debug, Drop)]
pub struct Spelling<'a> {
    text: &'a str,
}

impl<'a> Model for Spelling<'a> {
    ghost use Rattle.std.specs.Prelude.{List, ℕ};

    ghost Value = { List ℕ };

    ghost view = { λ spelling. spelling.text.now };
}

impl<'a> Spelling<'a> {
    pub(crate) fn new(text: &'a str) -> Spelling<'a>
        ensures { result ≡ text.now }
    {
        Spelling { text }
    }

    pub fn as_str(&self) -> &'a str
        ensures { result.now ≡ self.now }
    {
        self.text
    }
}

/// A number of a file: from 0 to 9,223,372,036,854,775,807. Contracts see it as that number.
#[derive(Debug, Drop)]
pub struct Number {
    value: u64,
}

impl Model for Number {
    ghost use Rattle.std.specs.Prelude.{ℕ, ◌≤◌};
    ghost use Rattle.rx_value.specs.declared.limits.TheConstants.{GREATEST_NUMBER};

    ghost Value = { ℕ };

    ghost view = { λ number. number.value };

    ghost invariant = { λ number. number.value ≤ GREATEST_NUMBER };
}

impl Number {
    pub(crate) fn new(value: u64) -> Number
        requires { value ≤ GREATEST_NUMBER }
        ensures { result ≡ value }
    {
        Number { value }
    }

    pub fn value(&self) -> u64
        ensures value { result ≡ self.now }
        ensures bound { result ≤ GREATEST_NUMBER }
    {
        self.value
    }

    /// The number as it is.
    pub fn positive(&self) -> i64
        ensures { result ≡ pos self.now }
    {
        self.value as i64
    }

    /// The number with a minus before it.
    pub fn negative(&self) -> i64
        ensures { result ≡ neg_ℤ (pos self.now) }
    {
        -(self.value as i64)
    }
}

/// What a token is.
#[derive(Debug, Drop)]
pub enum Kind {
    /// A reserved word.
    Word(Word),
    /// A word that isn't reserved; the token's spelling is the name.
    Name,
    Number(Number),
    /// A text, with the value that it stands for.
    Text(RxText),
    Symbol(Symbol),
}

/// A token, with the place of its first byte, counted in bytes from 0.
#[derive(Debug, Drop)]
pub struct Token<'a> {
    pub kind: Kind,
    pub place: usize,
    pub spelling: Spelling<'a>,
}

fn same_word(a: Word, b: Word) -> bool
    ensures { result ≡ same_word a b }
{
    a == b
}

fn same_symbol(a: Symbol, b: Symbol) -> bool
    ensures { result ≡ same_symbol a b }
{
    a == b
}

impl Kind {
    /// Whether it is this reserved word.
    pub fn is_word(&self, word: Word) -> bool
        ensures { result ≡ is_word word self.now }
    {
        match self {
            Kind::Word(own) => same_word(*own, word),
            _ => false,
        }
    }

    /// Whether it is this symbol.
    pub fn is_symbol(&self, symbol: Symbol) -> bool
        ensures { result ≡ is_symbol symbol self.now }
    {
        match self {
            Kind::Symbol(own) => same_symbol(*own, symbol),
            _ => false,
        }
    }
}
