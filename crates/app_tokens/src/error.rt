ghost use Rattle.std.specs.Prelude.{◌≡◌};
ghost use Rattle.app_tokens.specs.declared.error.TokenError.TheVariants.{Memory as memory};

use rx_value::Memory;
use std::alloc::AllocFailed;

/// Why a file has no tokens. Places are byte offsets from 0.
#[derive(Clone, Copy, Debug, PartialEq, Eq)]
pub enum TokenError {
    /// At this place stands a byte that no token can have there, or a number or a text that is
    /// beyond its limit, or a pair in a text that stands for nothing.
    BadByte(usize),
    /// The text that opens at this place has no end.
    OpenText(usize),
    /// Want of memory, which says nothing of the file.
    Memory,
}

impl From<Memory> for TokenError {
    ghost from_gives = { λ _ error. error ≡ memory };

    fn from(_: Memory) -> TokenError {
        TokenError::Memory
    }
}

impl<T: Drop> From<AllocFailed<T>> for TokenError {
    ghost from_gives = { λ _ error. error ≡ memory };

    fn from(_: AllocFailed<T>) -> TokenError {
        TokenError::Memory
    }
}
