ghost use Rattle.std.specs.Prelude.{◌≡◌};
ghost use Rattle.app_reader.specs.declared.error.ReadError.TheVariants.{Memory as memory};

use rx_value::Memory;
use std::alloc::{AllocError, AllocFailed};

/// Why tokens are no app file. Places are byte offsets from 0; where the text ends too early, the
/// place is its length.
#[derive(Clone, Copy, Debug, PartialEq, Eq)]
pub enum ReadError {
    /// The token at this place is none that the grammar allows there, or it is one more number or
    /// argument than there may be, or a budget out of range.
    Unexpected(usize),
    /// A term or a block at level 65 begins at this place, or a term's 65th operator stands there.
    TooDeep(usize),
    /// Want of memory, which says nothing of the file.
    Memory,
}

impl From<Memory> for ReadError {
    ghost from_gives = { λ _ error. error ≡ memory };

    fn from(_: Memory) -> ReadError {
        ReadError::Memory
    }
}

impl From<AllocError> for ReadError {
    ghost from_gives = { λ _ error. error ≡ memory };

    fn from(_: AllocError) -> ReadError {
        ReadError::Memory
    }
}

impl<T: Drop> From<AllocFailed<T>> for ReadError {
    ghost from_gives = { λ _ error. error ≡ memory };

    fn from(_: AllocFailed<T>) -> ReadError {
        ReadError::Memory
    }
}
