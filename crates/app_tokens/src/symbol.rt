ghost use Rattle.std.specs.Prelude.{◌≡◌};
ghost use Rattle.app_tokens.specs.Symbol.{one_byte_symbol, two_byte_symbol, symbol_of};

#[derive(Clone, Copy, Debug, PartialEq, Eq)]
pub enum Symbol {
    /// `(`
    Open,
    /// `)`
    Close,
    /// `{`
    OpenBrace,
    /// `}`
    CloseBrace,
    Comma,
    Semicolon,
    /// `=`
    Assign,
    Dollar,
    Plus,
    Minus,
    Star,
    /// `%/%`
    Quotient,
    /// `%%`
    Remainder,
    /// `!`
    Not,
    /// `==`
    Equal,
    /// `!=`
    NotEqual,
    /// `<`
    Less,
    /// `<=`
    AtMost,
    /// `>`
    Greater,
    /// `>=`
    AtLeast,
    /// `&&`
    And,
    /// `||`
    Or,
}

fn one_byte_symbol(byte: u8) -> Option<Symbol>
    ensures { result ≡ one_byte_symbol byte }
{
    match byte {
        b'(' => Some(Symbol::Open),
        b')' => Some(Symbol::Close),
        b'{' => Some(Symbol::OpenBrace),
        b'}' => Some(Symbol::CloseBrace),
        b',' => Some(Symbol::Comma),
        b';' => Some(Symbol::Semicolon),
        b'=' => Some(Symbol::Assign),
        b'$' => Some(Symbol::Dollar),
        b'+' => Some(Symbol::Plus),
        b'-' => Some(Symbol::Minus),
        b'*' => Some(Symbol::Star),
        b'!' => Some(Symbol::Not),
        b'<' => Some(Symbol::Less),
        b'>' => Some(Symbol::Greater),
        _ => None,
    }
}

fn two_byte_symbol(first: u8, second: u8) -> Option<Symbol>
    ensures { result ≡ two_byte_symbol first second }
{
    match (first, second) {
        (b'%', b'%') => Some(Symbol::Remainder),
        (b'=', b'=') => Some(Symbol::Equal),
        (b'!', b'=') => Some(Symbol::NotEqual),
        (b'<', b'=') => Some(Symbol::AtMost),
        (b'>', b'=') => Some(Symbol::AtLeast),
        (b'&', b'&') => Some(Symbol::And),
        (b'|', b'|') => Some(Symbol::Or),
        _ => None,
    }
}

/// The longest symbol that begins the bytes, and how many bytes it has.
#[tactic(auto, unfolding(crate::specs::Symbol::symbol_of))]
pub fn first_symbol(bytes: &[u8]) -> Option<(Symbol, usize)>
    ensures { result ≡ symbol_of bytes.now }
{
    match bytes {
        [b'%', b'/', b'%', ..] => Some((Symbol::Quotient, 3)),
        [first, second, ..] => match two_byte_symbol(*first, *second) {
            Some(symbol) => Some((symbol, 2)),
            None => Some((one_byte_symbol(*first)?, 1)),
        },
        [only] => Some((one_byte_symbol(*only)?, 1)),
        [] => None,
    }
}
